//! An instruction, or a micro-step of one, that is in flight.

use order_axioms::Fences;
use rsim_base::{Pair, PhysReg, Renamed, Window};
use sparc_decode::Instr;
use sparc_meaning::Computed;

/// How far an entry is.
#[derive(Clone, Copy, Debug, PartialEq, Eq)]
pub enum Phase {
    /// Some operand is not known, or no unit has had a place.
    Waiting,
    /// A unit has it.
    Issued,
    /// What its operands compute is known.
    Finished,
}

/// An entry: one instruction of the program, or one access of the spill or fill of a register window.
#[derive(Clone, Copy, Debug, PartialEq, Eq)]
pub struct Flight {
    /// Its number in the order in which entries join. It rises along the list.
    pub seq: u64,
    pub pc: u64,
    pub npc: u64,
    /// Which of the sixteen accesses of a spill or fill it is, 0 to 15.
    pub micro: Option<u8>,
    /// The window numbers before it.
    pub window: Window,
    pub instr: Instr,
    /// The pair that was guessed to follow. `None` where it is unknown.
    pub guess: Option<Pair>,
    /// The number of pushes on the return stack after its guess.
    pub mark: u64,
    /// The registers of its operands, in the order of `Sources`: a, b, c, the condition codes, and Y.
    pub sources: [Option<PhysReg>; 5],
    pub phase: Phase,
    /// What its operands compute, once that is known: the trap that it makes, the address of an access, the next pair, and all
    /// else but what it loads. Of an access the operands of its address decide it.
    pub done: Option<Computed>,
    /// The bytes that a load or an atomic has loaded, once it has.
    pub loaded: Option<u64>,
    /// The cycle from which the result is ready for others.
    pub ready: Option<u64>,
    /// Whether its access has its place in the order.
    pub settled: bool,
    /// The fences before it in the program.
    pub fences: Fences,
    /// Its number among the accesses of the processor, if it is one.
    pub index: Option<u32>,
    /// The registers that it writes, as they were renamed: the result, the condition codes, and Y.
    pub taken: [Option<Renamed>; 3],
}
