// The mask of a fence.
ghost use Rattle.std.specs.Prelude.{⊤, ◌≡◌, ◌==◌, [], ◌∷◌, codes, if◌then◌else◌};
ghost use Rattle.std.specs.Int.RustNames.{bit_and};

use bitflags::{Flag, Flags, bitflag_items};

/// Which earlier accesses a fence orders before which later ones (the mmask of MEMBAR: SPARC V9, A.32).
#[derive(Clone, Copy, Debug, PartialEq, Eq)]
pub struct FenceMask(u8);

bitflag_items! {
    impl FenceMask: u8 {
        const LOAD_LOAD = 1;
        const STORE_LOAD = 2;
        const LOAD_STORE = 4;
        const STORE_STORE = 8;
    }
}

impl Flags for FenceMask {
    type Bits = u8;

    ghost exact = { ⊤ };

    ghost table = { (codes "LOAD_LOAD", 1) ∷ (codes "STORE_LOAD", 2) ∷ (codes "LOAD_STORE", 4) ∷ (codes "STORE_STORE", 8) ∷ [] };

    ghost set_of = { λ mask. mask.0 };

    fn flags<'a>() -> &'a [Flag<FenceMask>] {
        FenceMask::FLAGS
    }

    fn bits(&self) -> u8 {
        self.0
    }

    fn from_bits_retain(bits: u8) -> FenceMask
        ensures { result.0 ≡ bits }
    {
        FenceMask(bits)
    }
}

impl FenceMask {
    /// 1 where the mask has this bit, else 0.
    pub fn count(self, bit: FenceMask) -> u32
        ensures { result ≡ (if bit_and self.0 bit.0 == bit.0 then 1 else 0) }
    {
        u32::from(self.contains(bit))
    }
}
