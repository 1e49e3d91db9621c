//! Loads, stores and atomics (SPARC V9, 6.3.1).

ghost use Rattle.std.specs.Prelude.{◌≡◌, ◌<◌};
ghost use Rattle.sparc_decode.specs.Ranges.{IsInRange};
ghost use Rattle.rsim_base.specs.Bytes.{low_bytes};

use crate::acts::Act;
use crate::arch::Arch;
use crate::traps::{DATA_ACCESS_EXCEPTION, MEM_ADDRESS_NOT_ALIGNED};
use elf64_load::Image;
use rsim_base::{Addr, Size};
use sparc_alu::{cas_result, load_extend};
use sparc_decode::Instr;

impl Arch {
    ghost use Rattle.sparc_meaning.specs.Arch.{register};
    ghost use Rattle.sparc_meaning.specs.Forms.{load, store, exchange, first, total, kept_or_swapped};

    /// A load, with what memory has.
    pub(crate) fn load(&mut self, n: Size, image: &Image, i: &Instr, value: u64) -> Act
        requires window { self.old.cwp < 8 }
        requires registers { IsInRange i.now }
        ensures { record { state = self.new; act = result } ≡ load n image.now i.now self.old value }
    {
        let addr = self.total(i);
        if addr % n.count() != 0 {
            return self.trap(MEM_ADDRESS_NOT_ALIGNED);
        }
        if !image.may_read(Addr(addr), n) {
            return self.trap(DATA_ACCESS_EXCEPTION);
        }
        self.set_register(i.rd, load_extend(i.op, value));
        self.go_on(Act::Load(Addr(addr), n, value))
    }

    /// A store.
    pub(crate) fn store(&mut self, n: Size, image: &Image, i: &Instr) -> Act
        requires window { self.old.cwp < 8 }
        requires registers { IsInRange i.now }
        ensures { record { state = self.new; act = result } ≡ store n image.now i.now self.old }
    {
        let addr = self.total(i);
        if addr % n.count() != 0 {
            return self.trap(MEM_ADDRESS_NOT_ALIGNED);
        }
        if !image.may_write(Addr(addr), n) {
            return self.trap(DATA_ACCESS_EXCEPTION);
        }
        let value = n.low(self.register(i.rd));
        self.go_on(Act::Store(Addr(addr), n, value))
    }

    /// An atomic load and store at an address, with what memory has.
    pub(crate) fn exchange(
        &mut self,
        n: Size,
        addr: u64,
        stored: u64,
        image: &Image,
        i: &Instr,
        value: u64,
    ) -> Act
        requires window { self.old.cwp < 8 }
        requires registers { IsInRange i.now }
        ensures { record { state = self.new; act = result } ≡ exchange n addr stored image.now i.now self.old value }
    {
        if addr % n.count() != 0 {
            return self.trap(MEM_ADDRESS_NOT_ALIGNED);
        }
        if !image.may_read(Addr(addr), n) || !image.may_write(Addr(addr), n) {
            return self.trap(DATA_ACCESS_EXCEPTION);
        }
        self.set_register(i.rd, load_extend(i.op, value));
        self.go_on(Act::Atomic(Addr(addr), n, value, stored))
    }

    /// LDSTUB: a byte of ones is stored.
    pub(crate) fn load_store_byte(&mut self, image: &Image, i: &Instr, value: u64) -> Act
        requires window { self.old.cwp < 8 }
        requires registers { IsInRange i.now }
        ensures { record { state = self.new; act = result } ≡ exchange Size.B1 (total i.now self.old) 0xFF image.now i.now self.old value }
    {
        let addr = self.total(i);
        self.exchange(Size::B1, addr, 0xff, image, i, value)
    }

    /// SWAP: the low word of the register is stored.
    pub(crate) fn swap(&mut self, image: &Image, i: &Instr, value: u64) -> Act
        requires window { self.old.cwp < 8 }
        requires registers { IsInRange i.now }
        ensures { record { state = self.new; act = result } ≡ exchange Size.B4 (total i.now self.old) (low_bytes Size.B4 (register self.old i.now.rd)) image.now i.now self.old value }
    {
        let addr = self.total(i);
        let stored = Size::B4.low(self.register(i.rd));
        self.exchange(Size::B4, addr, stored, image, i, value)
    }

    /// CASA and CASXA: the register is stored where memory has the second operand.
    pub(crate) fn compare_and_swap(&mut self, n: Size, image: &Image, i: &Instr, value: u64) -> Act
        requires window { self.old.cwp < 8 }
        requires registers { IsInRange i.now }
        ensures { record { state = self.new; act = result } ≡ exchange n (first i.now self.old) (kept_or_swapped n i.now self.old value) image.now i.now self.old value }
    {
        let addr = self.first(i);
        let new = n.low(self.register(i.rd));
        let stored = cas_result(value, self.second(i), new, n);
        self.exchange(n, addr, stored, image, i, value)
    }
}
