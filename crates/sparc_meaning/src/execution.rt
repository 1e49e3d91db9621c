//! The step of a processor.

ghost use Rattle.std.specs.Prelude.{◌≡◌, ◌<◌, ◌≤◌, IsTrue, false};
ghost use Rattle.sparc_decode.specs.Ranges.{IsInRange};
ghost use Rattle.sparc_meaning.specs.Acts.{HasFound, IsAligned, IsSized};
ghost use Rattle.sparc_meaning.specs.Arch.{IsSound, is_running};
ghost use Rattle.sparc_meaning.specs.Step.{step as step_of, instr_at as spec_instr_at};

use crate::acts::Act;
use crate::arch::{Arch, ArchPhase, O7};
use crate::control::branched;
use crate::fetching::instr_at;
use crate::traps::{DIVISION_BY_ZERO, MEM_ADDRESS_NOT_ALIGNED};
use elf64_load::Image;
use sparc_alu::{alu, bits_of, branch_taken, effective};
use sparc_decode::{FormKind, Instr, kind};

/// One step: the instruction at pc, or one access of a spill or fill of a register window. `value` is
/// what memory has where the step reads it (`peek`), and is used by no other step. A step that ends the
/// processor changes `end` alone.
pub fn step(arch: &mut Arch, image: &Image, value: u64) -> Act
    requires sound { IsSound arch.old }
    requires running { IsTrue (is_running arch.old.end) }
    ensures step { record { state = arch.new; act = result } ≡ step_of image.now arch.old value }
    ensures sound { IsSound arch.new }
    ensures aligned { IsAligned result }
    ensures found { HasFound value result }
    ensures sized { IsSized result }
{
    let i = instr_at(image, arch.pc);
    step_at(arch, &i, image, value)
}

/// One step, where `i` is the instruction at pc: fetched and decoded once, it serves `peek_at` and the step.
pub fn step_at(arch: &mut Arch, i: &Instr, image: &Image, value: u64) -> Act
    requires sound { IsSound arch.old }
    requires running { IsTrue (is_running arch.old.end) }
    requires fetched { i.now ≡ spec_instr_at image.now arch.old.pc }
    requires registers { IsInRange i.now }
    ensures step { record { state = arch.new; act = result } ≡ step_of image.now arch.old value }
    ensures sound { IsSound arch.new }
    ensures aligned { IsAligned result }
    ensures found { HasFound value result }
    ensures sized { IsSized result }
{
    arch.step_in_phase(i, image, value)
}

impl Arch {
    ghost use Rattle.sparc_alu.specs.Results.{computed};
    ghost use Rattle.sparc_decode.specs.Kinds.{kind as kind_of};
    ghost use Rattle.sparc_meaning.specs.Arch.{with_register};
    ghost use Rattle.sparc_meaning.specs.Forms.{first, second, total, is_taken, branch, call, jump, move_if_taken, trap_if_taken, executed, written};
    ghost use Rattle.sparc_meaning.specs.Step.{of_instr};
    ghost use Rattle.sparc_meaning.specs.Stepped.{goes_on};
    ghost use Rattle.sparc_meaning.specs.Windows.{spills_first, fills_first, saved, restored};

    // A step, by what the processor is at.
    #[tactic(auto, unfolding(crate::specs::Step::step))]
    fn step_in_phase(&mut self, i: &Instr, image: &Image, value: u64) -> Act
        requires sound { IsSound self.old }
        requires fetched { i.now ≡ spec_instr_at image.now self.old.pc }
        requires registers { IsInRange i.now }
        ensures { record { state = self.new; act = result } ≡ step_of image.now self.old value }
    {
        match self.phase {
            ArchPhase::Run => self.run(i, image, value),
            ArchPhase::Spill(k) => self.spill(k, image),
            ArchPhase::Fill(k) => self.fill(k, image, value),
        }
    }

    /// The first operand.
    pub(crate) fn first(&self, i: &Instr) -> u64
        requires window { self.now.cwp < 8 }
        requires registers { IsInRange i.now }
        ensures { result ≡ first i.now self.now }
    {
        self.register(i.rs1)
    }

    /// The second operand.
    pub(crate) fn second(&self, i: &Instr) -> u64
        requires window { self.now.cwp < 8 }
        requires registers { IsInRange i.now }
        ensures { result ≡ second i.now self.now }
    {
        self.operand(i.src2)
    }

    /// The sum of the operands.
    pub(crate) fn total(&self, i: &Instr) -> u64
        requires window { self.now.cwp < 8 }
        requires registers { IsInRange i.now }
        ensures { result ≡ total i.now self.now }
    {
        effective(self.first(i), self.second(i))
    }

    // Whether the instruction's condition is true.
    fn is_taken(&self, i: &Instr) -> bool
        requires window { self.now.cwp < 8 }
        requires registers { IsInRange i.now }
        ensures { result ≡ is_taken i.now self.now }
    {
        branch_taken(i, self.cc, self.first(i))
    }

    // An instruction, or the first step of the spill or fill that it needs.
    fn run(&mut self, i: &Instr, image: &Image, value: u64) -> Act
        requires sound { IsSound self.old }
        requires registers { IsInRange i.now }
        ensures { record { state = self.new; act = result } ≡ of_instr i.now image.now self.old value }
    {
        if self.spills_first(i) {
            self.spill(0, image)
        } else if self.fills_first(i) {
            self.fill(0, image, value)
        } else {
            self.execute(i, image, value)
        }
    }

    // An instruction that needs neither.
    #[tactic(auto, unfolding(crate::specs::Forms::executed))]
    fn execute(&mut self, i: &Instr, image: &Image, value: u64) -> Act
        requires sound { IsSound self.old }
        requires registers { IsInRange i.now }
        requires spilled { spills_first i.now.op self.old ≡ false }
        requires filled { fills_first i.now.op self.old ≡ false }
        ensures { record { state = self.new; act = result } ≡ executed (kind_of i.now.op) image.now i.now self.old value }
    {
        match kind(i.op) {
            FormKind::Traps => self.trap(i.trap),
            FormKind::BranchesOnCodes => self.branch(i.cond == 8, i),
            FormKind::BranchesOnRegister => self.branch(false, i),
            FormKind::Calls => self.call(i),
            FormKind::Jumps => self.jump_and_link(i),
            FormKind::Returns => self.return_to(i),
            FormKind::Moves => self.move_if_taken(i),
            FormKind::TrapsIfTaken => self.trap_if_taken(i),
            FormKind::SetsHigh => self.set(i.rd, bits_of(i.disp)),
            FormKind::ReadsPc => self.set(i.rd, self.pc),
            FormKind::Fences => self.go_on(Act::Fence(i.mask)),
            FormKind::DoesNothing => self.go_on(Act::Nothing),
            FormKind::Saves => self.save(i),
            FormKind::Restores => self.restore(i),
            FormKind::Loads(n) => self.load(n, image, i, value),
            FormKind::Stores(n) => self.store(n, image, i),
            FormKind::LoadsAndStoresByte => self.load_store_byte(image, i, value),
            FormKind::Swaps => self.swap(image, i, value),
            FormKind::ComparesAndSwaps(n) => self.compare_and_swap(n, image, i, value),
            FormKind::Computes => self.calculate(i),
        }
    }

    // A branch. `always` says that it has no condition.
    fn branch(&mut self, always: bool, i: &Instr) -> Act
        requires window { self.old.cwp < 8 }
        requires registers { IsInRange i.now }
        ensures { record { state = self.new; act = result } ≡ branch always i.now self.old }
    {
        let target = effective(self.pc, bits_of(i.disp));
        let goes = self.is_taken(i);
        self.go_to(branched(always, goes, i.annul, target, self.pair()));
        Act::Nothing
    }

    fn call(&mut self, i: &Instr) -> Act
        requires window { self.old.cwp < 8 }
        ensures { record { state = self.new; act = result } ≡ call i.now self.old }
    {
        let pc = self.pc;
        self.set_register(O7, pc);
        self.then_to(effective(pc, bits_of(i.disp)));
        Act::Nothing
    }

    fn jump_and_link(&mut self, i: &Instr) -> Act
        requires window { self.old.cwp < 8 }
        requires registers { IsInRange i.now }
        ensures { record { state = self.new; act = result } ≡ jump (total i.now self.old) (with_register i.now.rd self.old.pc self.old) self.old }
    {
        let target = self.total(i);
        if target % 4 != 0 {
            return self.trap(MEM_ADDRESS_NOT_ALIGNED);
        }
        self.set_register(i.rd, self.pc);
        self.then_to(target);
        Act::Nothing
    }

    fn return_to(&mut self, i: &Instr) -> Act
        requires sound { IsSound self.old }
        requires registers { IsInRange i.now }
        requires kept { 1 ≤ self.old.canrestore }
        ensures { record { state = self.new; act = result } ≡ jump (total i.now self.old) (restored self.old) self.old }
    {
        let target = self.total(i);
        if target % 4 != 0 {
            return self.trap(MEM_ADDRESS_NOT_ALIGNED);
        }
        self.restore_window();
        self.then_to(target);
        Act::Nothing
    }

    fn move_if_taken(&mut self, i: &Instr) -> Act
        requires window { self.old.cwp < 8 }
        requires registers { IsInRange i.now }
        ensures { record { state = self.new; act = result } ≡ move_if_taken i.now self.old }
    {
        if self.is_taken(i) {
            self.set_register(i.rd, self.second(i));
        }
        self.go_on(Act::Nothing)
    }

    // A trap instruction, if its condition is true.
    fn trap_if_taken(&mut self, i: &Instr) -> Act
        requires window { self.old.cwp < 8 }
        requires registers { IsInRange i.now }
        ensures { record { state = self.new; act = result } ≡ trap_if_taken i.now self.old }
    {
        if !self.is_taken(i) {
            return self.go_on(Act::Nothing);
        }
        let number = self.total(i) % 128;
        self.serve(number as u16)
    }

    // Sets a register.
    fn set(&mut self, r: u8, value: u64) -> Act
        requires window { self.old.cwp < 8 }
        requires register { r < 32 }
        ensures { record { state = self.new; act = result } ≡ goes_on Act.Nothing (with_register r value self.old) }
    {
        self.set_register(r, value);
        self.go_on(Act::Nothing)
    }

    fn save(&mut self, i: &Instr) -> Act
        requires sound { IsSound self.old }
        requires registers { IsInRange i.now }
        requires room { 1 ≤ self.old.cansave }
        ensures { record { state = self.new; act = result } ≡ goes_on Act.Nothing (with_register i.now.rd (total i.now self.old) (saved self.old)) }
    {
        let total = self.total(i);
        self.save_window();
        self.set(i.rd, total)
    }

    fn restore(&mut self, i: &Instr) -> Act
        requires sound { IsSound self.old }
        requires registers { IsInRange i.now }
        requires kept { 1 ≤ self.old.canrestore }
        ensures { record { state = self.new; act = result } ≡ goes_on Act.Nothing (with_register i.now.rd (total i.now self.old) (restored self.old)) }
    {
        let total = self.total(i);
        self.restore_window();
        self.set(i.rd, total)
    }

    // Arithmetic.
    fn calculate(&mut self, i: &Instr) -> Act
        requires window { self.old.cwp < 8 }
        requires registers { IsInRange i.now }
        ensures { record { state = self.new; act = result } ≡ written (computed i.now.op (first i.now self.old) (second i.now self.old) self.old.cc self.old.y) i.now self.old }
    {
        let Ok(out) = alu(i.op, self.first(i), self.second(i), self.cc, self.y) else {
            return self.trap(DIVISION_BY_ZERO);
        };
        self.cc = out.cc;
        self.y = out.y;
        self.set(i.rd, out.value)
    }
}
