//! From words to instructions.

ghost use Rattle.std.specs.Prelude.{◌≡◌};
ghost use Rattle.sparc_decode.specs.Instr.{instr};
ghost use Rattle.sparc_decode.specs.Ranges.{IsInRange};

use crate::arithmetic::arithmetic;
use crate::branches::{branch, call};
use crate::fields;
use crate::instr::Instr;
use crate::memory::memory;

/// The instruction that a word stands for. A word that stands for none has the op `Trap`.
#[tactic(auto, unfolding(crate::specs::Instr::instr))]
pub fn decode(word: u32) -> Instr
    ensures value { result ≡ instr word }
    ensures in_range { IsInRange result }
{
    match fields::op(word) {
        0 => branch(word),
        1 => call(word),
        2 => arithmetic(word),
        _ => memory(word),
    }
}
