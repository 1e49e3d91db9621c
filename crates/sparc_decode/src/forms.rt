//! Instructions by the fields that they use.

ghost use Rattle.std.specs.Prelude.{◌≡◌};
ghost use Rattle.sparc_decode.specs.Forms as form;

use crate::fields;
use crate::instr::{Instr, Op, Src2};

/// illegal_instruction (chapter 7).
pub const ILLEGAL: u16 = 0x010;
/// privileged_opcode.
pub const PRIVILEGED: u16 = 0x011;
/// fp_disabled.
pub const NO_FLOATING_POINT: u16 = 0x020;

/// An instruction with no field in use.
pub fn plain(op: Op) -> Instr
    ensures { result ≡ form.plain op }
{
    Instr {
        op,
        rd: 0,
        rs1: 0,
        src2: Src2::Reg(0),
        cond: 0,
        extended: false,
        annul: false,
        hint: false,
        disp: 0,
        mask: 0,
        trap: 0,
    }
}

/// The trap with this number.
pub fn ill(number: u16) -> Instr
    ensures { result ≡ form.ill number }
{
    Instr {
        trap: number,
        ..plain(Op::Trap)
    }
}

/// A form that writes rd and reads no field.
#[tactic(auto, unfolding(crate::specs::Forms::to_rd))]
pub fn to_rd(op: Op, word: u32) -> Instr
    ensures { result ≡ form.to_rd op word }
{
    Instr {
        rd: fields::rd(word),
        ..plain(op)
    }
}

/// A form with rs1 and operand 2.
#[tactic(auto, unfolding(crate::specs::Forms::from_two))]
pub fn from_two(op: Op, word: u32) -> Instr
    ensures { result ≡ form.from_two op word }
{
    Instr {
        rs1: fields::rs1(word),
        src2: fields::operand2(word),
        ..plain(op)
    }
}

/// A form with rd, rs1 and operand 2.
#[tactic(auto, unfolding(crate::specs::Forms::three_operands))]
pub fn three_operands(op: Op, word: u32) -> Instr
    ensures { result ≡ form.three_operands op word }
{
    Instr {
        rd: fields::rd(word),
        rs1: fields::rs1(word),
        src2: fields::operand2(word),
        ..plain(op)
    }
}
