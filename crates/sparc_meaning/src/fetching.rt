//! The instruction that a processor is at.

ghost use Rattle.std.specs.Prelude.{◌≡◌};
ghost use Rattle.elf64_load.specs.Image.{fetched};
ghost use Rattle.sparc_decode.specs.Ranges.{IsInRange};
ghost use Rattle.sparc_meaning.specs.Step as spec;

use crate::traps::INSTRUCTION_ACCESS_EXCEPTION;
use elf64_load::Image;
use sparc_decode::{Instr, Op, Src2, decode};

// Where no instruction can be fetched.
const NO_INSTRUCTION: Instr = Instr {
    op: Op::Trap,
    rd: 0,
    rs1: 0,
    src2: Src2::Reg(0),
    cond: 0,
    extended: false,
    annul: false,
    hint: false,
    disp: 0,
    mask: 0,
    trap: INSTRUCTION_ACCESS_EXCEPTION,
};

/// The instruction at an address; where none can be fetched, the trap of that.
pub fn instr_at(image: &Image, pc: u64) -> Instr
    ensures value { result ≡ spec.instr_at image.now pc }
    ensures in_range { IsInRange result }
{
    match image.fetch(pc) {
        Some(word) => decode(word),
        None => NO_INSTRUCTION,
    }
}
