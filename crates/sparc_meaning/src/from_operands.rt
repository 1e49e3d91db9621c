//! What a step gives, from its operands alone.

ghost use Rattle.std.specs.Prelude.{◌≡◌, ◌<◌, ◌^◌};
ghost use Rattle.rsim_base.specs.Bytes.{count_of};
ghost use Rattle.sparc_decode.specs.Kinds.{kind as kind_of};
ghost use Rattle.sparc_meaning.specs.Computed as by;

use crate::acts::Spoken;
use crate::arch::{ArchPhase, End};
use crate::control::{branched, by_slot_to, straight};
use crate::fetched::{Computed, Fetched, Operands};
use crate::traps::{
    DATA_ACCESS_EXCEPTION, DIVISION_BY_ZERO, MEM_ADDRESS_NOT_ALIGNED, TRAP_INSTRUCTION,
};
use crate::windows::slot_at;
use elf64_load::Image;
use rsim_base::{Addr, Size};
use sparc_alu::{alu, bits_of, branch_taken, effective};
use sparc_decode::{FormKind, Src2, kind};

/// What a step gives, from its operands alone: its trap, the address of its access, the next pair, what it puts into
/// the output and the values of its destinations, but for what it loads. `step` is this, applied to the state
/// (`laws::steps_are_computed`).
pub fn compute(image: &Image, f: &Fetched, x: &Operands) -> Computed
    ensures { result ≡ by.computed image.now f.now x.now }
{
    match f.part {
        ArchPhase::Run => f.compute(image, x),
        ArchPhase::Spill(k) => Computed {
            next: f.pair,
            ..f.store(Size::B8, slot_at(x.a, k), image)
        },
        ArchPhase::Fill(k) => Computed {
            next: f.pair,
            ..f.load(Size::B8, slot_at(x.a, k), image)
        },
    }
}

// The fault of an access, if it has one.
fn fault(n: Size, addr: u64, allowed: bool, pc: u64) -> End
    ensures { result ≡ by.fault n addr allowed pc }
{
    if addr % n.count() != 0 {
        End::Trapped(MEM_ADDRESS_NOT_ALIGNED, pc)
    } else if !allowed {
        End::Trapped(DATA_ACCESS_EXCEPTION, pc)
    } else {
        End::Running
    }
}

impl Fetched {
    // What an instruction gives.
    #[tactic(auto, unfolding(crate::specs::Computed::computed_by))]
    fn compute(&self, image: &Image, x: &Operands) -> Computed
        ensures { result ≡ by.computed_by (kind_of self.now.instr.op) image.now self.now x.now }
    {
        let i = &self.instr;
        match kind(i.op) {
            FormKind::Traps => self.trap(i.trap),
            FormKind::BranchesOnCodes => self.branch(i.cond == 8, x),
            FormKind::BranchesOnRegister => self.branch(false, x),
            FormKind::Calls => self.link_to(effective(self.pair.pc, bits_of(i.disp))),
            FormKind::Jumps | FormKind::Returns => self.jump(self.total(x)),
            FormKind::Moves => self.move_if_taken(x),
            FormKind::TrapsIfTaken => self.trap_if_taken(x),
            FormKind::SetsHigh => self.give(bits_of(i.disp)),
            FormKind::ReadsPc => self.give(self.pair.pc),
            FormKind::Fences | FormKind::DoesNothing => self.plain(),
            FormKind::Saves | FormKind::Restores => self.give(self.total(x)),
            FormKind::Loads(n) => self.load(n, self.total(x), image),
            FormKind::Stores(n) => self.store(n, self.total(x), image),
            FormKind::LoadsAndStoresByte => self.exchange(Size::B1, self.total(x), image),
            FormKind::Swaps => self.exchange(Size::B4, self.total(x), image),
            FormKind::ComparesAndSwaps(n) => self.exchange(n, x.a, image),
            FormKind::Computes => self.calculate(x),
        }
    }

    /// The value of operand 2.
    pub(crate) fn second(&self, x: &Operands) -> u64
        ensures { result ≡ by.second self.now.instr.src2 x.now }
    {
        match self.instr.src2 {
            Src2::Reg(_) => x.b,
            Src2::Imm(value) => bits_of(value),
        }
    }

    // The sum of the operands.
    fn total(&self, x: &Operands) -> u64
        ensures { result ≡ by.total self.now x.now }
    {
        effective(x.a, self.second(x))
    }

    // Whether the instruction's condition is true.
    fn is_taken(&self, x: &Operands) -> bool
        ensures { result ≡ by.is_taken self.now x.now }
    {
        branch_taken(&self.instr, x.cc, x.a)
    }

    // To the next instruction, and nothing else.
    fn plain(&self) -> Computed
        ensures { result ≡ by.plain self.now }
    {
        Computed {
            end: End::Running,
            addr: 0,
            next: straight(self.pair),
            taken: false,
            out: None,
            value: 0,
            cc: 0,
            y: 0,
        }
    }

    fn give(&self, value: u64) -> Computed
        ensures { result ≡ by.gives value self.now }
    {
        Computed {
            value,
            ..self.plain()
        }
    }

    // How the step ends the processor.
    fn stop(&self, end: End) -> Computed
        ensures { result ≡ record (by.plain self.now) { end = end } }
    {
        Computed {
            end,
            ..self.plain()
        }
    }

    // A trap at the instruction's address.
    fn trap(&self, number: u16) -> Computed
        ensures { result ≡ by.traps_by number self.now }
    {
        self.stop(End::Trapped(number, self.pair.pc))
    }

    // A branch. `always` says that it has no condition.
    fn branch(&self, always: bool, x: &Operands) -> Computed
        ensures { result ≡ by.branch always self.now x.now }
    {
        let taken = self.is_taken(x);
        let target = effective(self.pair.pc, bits_of(self.instr.disp));
        Computed {
            next: branched(always, taken, self.instr.annul, target, self.pair),
            taken,
            ..self.plain()
        }
    }

    // CALL and JMPL give their own address.
    fn link_to(&self, target: u64) -> Computed
        ensures { result ≡ by.links_to target self.now }
    {
        Computed {
            next: by_slot_to(target, self.pair),
            value: self.pair.pc,
            ..self.plain()
        }
    }

    fn jump(&self, target: u64) -> Computed
        ensures { result ≡ by.jump target self.now }
    {
        if target % 4 == 0 {
            self.link_to(target)
        } else {
            self.trap(MEM_ADDRESS_NOT_ALIGNED)
        }
    }

    // A move that is not made gives what is there.
    fn move_if_taken(&self, x: &Operands) -> Computed
        ensures { result ≡ by.move self.now x.now }
    {
        if self.is_taken(x) {
            self.give(self.second(x))
        } else {
            self.give(x.c)
        }
    }

    // A trap instruction, if its condition is true.
    fn trap_if_taken(&self, x: &Operands) -> Computed
        ensures { result ≡ by.served_if_taken self.now x.now }
    {
        if self.is_taken(x) {
            self.serve((self.total(x) % 128) as u16, x)
        } else {
            self.plain()
        }
    }

    // A trap instruction of this number: a service, or a trap that ends the processor.
    fn serve(&self, number: u16, x: &Operands) -> Computed
        requires { number < 128 }
        ensures { result ≡ by.served number self.now x.now }
    {
        match number {
            16 => self.stop(End::Exit(x.c)),
            17 => self.speak(Spoken::Byte((x.c % 256) as u8)),
            18 => self.speak(Spoken::Number(x.c)),
            _ => self.trap(TRAP_INSTRUCTION + number),
        }
    }

    fn speak(&self, words: Spoken) -> Computed
        ensures { result ≡ by.speaks words self.now }
    {
        Computed {
            out: Some(words),
            ..self.plain()
        }
    }

    // An access, whose bytes may be accessed or not.
    fn access(&self, n: Size, addr: u64, allowed: bool) -> Computed
        ensures { result ≡ by.accessed n addr allowed self.now }
    {
        Computed {
            end: fault(n, addr, allowed, self.pair.pc),
            addr,
            ..self.plain()
        }
    }

    fn load(&self, n: Size, addr: u64, image: &Image) -> Computed
        ensures { result ≡ by.load n addr image.now self.now }
    {
        self.access(n, addr, image.may_read(Addr(addr), n))
    }

    fn store(&self, n: Size, addr: u64, image: &Image) -> Computed
        ensures { result ≡ by.store n addr image.now self.now }
    {
        self.access(n, addr, image.may_write(Addr(addr), n))
    }

    fn exchange(&self, n: Size, addr: u64, image: &Image) -> Computed
        ensures { result ≡ by.exchange n addr image.now self.now }
    {
        let may_both = image.may_read(Addr(addr), n) && image.may_write(Addr(addr), n);
        self.access(n, addr, may_both)
    }

    fn calculate(&self, x: &Operands) -> Computed
        ensures { result ≡ by.calculated self.now x.now }
    {
        let Ok(out) = alu(self.instr.op, x.a, self.second(x), x.cc, x.y) else {
            return self.trap(DIVISION_BY_ZERO);
        };
        Computed {
            value: out.value,
            cc: out.cc,
            y: out.y,
            ..self.plain()
        }
    }
}
