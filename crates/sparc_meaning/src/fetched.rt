//! What a step runs, what it reads, and what it gives: an instruction or a step of a spill or fill, told by its
//! operands alone.

use crate::acts::Spoken;
use crate::arch::{ArchPhase, End};
use rsim_base::{Pair, Window};
use sparc_decode::Instr;

/// What a step runs: the instruction at `pair` in these windows, or a step of the spill or fill that it needs first.
#[derive(Clone, Copy, Debug, PartialEq, Eq)]
pub struct Fetched {
    pub pair: Pair,
    pub window: Window,
    /// `Run` for the instruction itself, else the step of the spill or fill, 0 to 15.
    pub part: ArchPhase,
    /// The instruction; where none can be fetched, the trap of that.
    pub instr: Instr,
}

/// The values of what a step reads besides memory (`sparc_decode::Sources`). Where it reads nothing the value is 0.
#[derive(Clone, Copy, Debug, PartialEq, Eq)]
pub struct Operands {
    /// The first register. A spill or fill has the stack pointer of its window here.
    pub a: u64,
    /// The register of operand 2.
    pub b: u64,
    /// The register that is stored or kept, or a service's argument. A spill has the register that it stores here.
    pub c: u64,
    pub cc: u8,
    pub y: u64,
}

/// What a step gives, told by its operands alone: all but what it loads.
#[derive(Clone, Copy, Debug, PartialEq, Eq)]
pub struct Computed {
    /// Whether it ends the processor, and how.
    pub end: End,
    /// The address of its access; 0 where it makes none.
    pub addr: u64,
    /// The pair of the next instruction.
    pub next: Pair,
    /// Whether it is a branch that is taken.
    pub taken: bool,
    /// What it puts into the output.
    pub out: Option<Spoken>,
    /// The value of its destination, where that is not loaded; 0 where it has none.
    pub value: u64,
    /// The condition codes, where it sets them.
    pub cc: u8,
    /// Y, where it sets it.
    pub y: u64,
}
