// How many fences a program has run, by what they order.
ghost use Rattle.std.specs.Prelude.{◌≡◌, ◌/◌, ◌%◌, ◌^◌, ◌<◌};
ghost use Rattle.rsim_base.specs.Made.{fenced};

use crate::mask::FenceMask;
use bitflags::Flags;

/// How many fences a program has run so far, by the bits of their masks: `ll` orders earlier loads before later
/// loads, `sl` earlier stores before later loads, `ls` earlier loads before later stores, and `ss` earlier stores
/// before later stores.
#[derive(Clone, Copy, Debug, PartialEq, Eq)]
pub struct Fences {
    pub ll: u32,
    pub sl: u32,
    pub ls: u32,
    pub ss: u32,
}

impl Fences {
    ghost use Rattle.order_axioms.specs.Counted.{counts};

    /// The counts after a fence of this mask, as MEMBAR has it (SPARC V9, A.32): bit 0 is LoadLoad, bit 1 StoreLoad,
    /// bit 2 LoadStore and bit 3 StoreStore. Other bits order no accesses.
    pub fn after(self, mask: u8) -> Fences
        requires ll { self.ll < 4294967295 }
        requires sl { self.sl < 4294967295 }
        requires ls { self.ls < 4294967295 }
        requires ss { self.ss < 4294967295 }
        ensures { counts result ≡ fenced mask (counts self) }
    {
        let mask = FenceMask::from_bits_retain(mask);
        Fences {
            ll: self.ll + mask.count(FenceMask::LOAD_LOAD),
            sl: self.sl + mask.count(FenceMask::STORE_LOAD),
            ls: self.ls + mask.count(FenceMask::LOAD_STORE),
            ss: self.ss + mask.count(FenceMask::STORE_STORE),
        }
    }
}
