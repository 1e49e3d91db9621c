//! The words with op 2: arithmetic, moves, state registers, jumps, traps and windows.

ghost use Rattle.std.specs.Prelude.{◌≡◌};
ghost use Rattle.sparc_decode.specs.Forms as form;
ghost use Rattle.sparc_decode.specs.Instr as table;

use crate::fields;
use crate::forms::{
    ILLEGAL, NO_FLOATING_POINT, PRIVILEGED, from_two, ill, plain, three_operands, to_rd,
};
use crate::instr::{Instr, Op, Src2};

/// The words with op 2 (appendix E). Forms with rd, rs1 and operand 2 are those of A.2, A.24, A.31, A.37,
/// A.38, A.46 and A.56.
#[tactic(auto, unfolding(crate::specs::Instr::arithmetic))]
pub fn arithmetic(word: u32) -> Instr
    ensures { result ≡ table.arithmetic word }
{
    match fields::op3(word) {
        0x00 => three_operands(Op::Add, word),
        0x01 => three_operands(Op::And, word),
        0x02 => three_operands(Op::Or, word),
        0x03 => three_operands(Op::Xor, word),
        0x04 => three_operands(Op::Sub, word),
        0x05 => three_operands(Op::Andn, word),
        0x06 => three_operands(Op::Orn, word),
        0x07 => three_operands(Op::Xnor, word),
        0x08 => three_operands(Op::Addc, word),
        0x09 => three_operands(Op::Mulx, word),
        0x0a => three_operands(Op::Umul, word),
        0x0b => three_operands(Op::Smul, word),
        0x0c => three_operands(Op::Subc, word),
        0x0d => three_operands(Op::Udivx, word),
        0x10 => three_operands(Op::AddCc, word),
        0x11 => three_operands(Op::AndCc, word),
        0x12 => three_operands(Op::OrCc, word),
        0x13 => three_operands(Op::XorCc, word),
        0x14 => three_operands(Op::SubCc, word),
        0x15 => three_operands(Op::AndnCc, word),
        0x16 => three_operands(Op::OrnCc, word),
        0x17 => three_operands(Op::XnorCc, word),
        0x18 => three_operands(Op::AddcCc, word),
        0x1a => three_operands(Op::UmulCc, word),
        0x1b => three_operands(Op::SmulCc, word),
        0x1c => three_operands(Op::SubcCc, word),
        0x25 => shift(Op::Sll, Op::Sllx, word),
        0x26 => shift(Op::Srl, Op::Srlx, word),
        0x27 => shift(Op::Sra, Op::Srax, word),
        0x28 => read_state(word),
        0x2b => plain(Op::Flushw),
        0x2c => movcc(word),
        0x2d => three_operands(Op::Sdivx, word),
        0x2e => popc(word),
        0x2f => movr(word),
        0x30 => write_state(word),
        0x38 => three_operands(Op::Jmpl, word),
        0x39 => from_two(Op::Return, word),
        0x3a => tcc(word),
        0x3b => plain(Op::Flush),
        0x3c => three_operands(Op::Save, word),
        0x3d => three_operands(Op::Restore, word),
        // FPop1 and FPop2
        0x34 | 0x35 => ill(NO_FLOATING_POINT),
        // RDPR, SAVED and RESTORED, WRPR, DONE and RETRY
        0x2a | 0x31 | 0x32 | 0x3e => ill(PRIVILEGED),
        _ => ill(ILLEGAL),
    }
}

/// Shifts of 32 bits and, with the field x, of 64 (A.49).
#[tactic(auto, unfolding(crate::specs::Forms::shift))]
fn shift(narrow: Op, wide: Op, word: u32) -> Instr
    ensures { result ≡ form.shift narrow wide word }
{
    let rd = fields::rd(word);
    let rs1 = fields::rs1(word);
    if fields::is_wide(word) {
        Instr {
            rd,
            rs1,
            src2: fields::wide_count(word),
            ..plain(wide)
        }
    } else {
        Instr {
            rd,
            rs1,
            src2: fields::narrow_count(word),
            ..plain(narrow)
        }
    }
}

/// Reads of state registers, and the barriers that share their place (A.32, A.44, A.51).
#[tactic(auto, unfolding(crate::specs::Forms::read_state))]
fn read_state(word: u32) -> Instr
    ensures { result ≡ form.read_state word }
{
    match fields::rs1(word) {
        0 => to_rd(Op::RdY, word),
        2 => to_rd(Op::RdCcr, word),
        5 => to_rd(Op::RdPc, word),
        15 => barrier(word),
        _ => ill(ILLEGAL),
    }
}

#[tactic(auto, unfolding(crate::specs::Forms::barrier))]
fn barrier(word: u32) -> Instr
    ensures { result ≡ form.barrier word }
{
    if fields::rd(word) != 0 {
        ill(ILLEGAL)
    } else if fields::is_immediate(word) {
        Instr {
            mask: ordered(word),
            ..plain(Op::Membar)
        }
    } else {
        Instr {
            mask: 8,
            ..plain(Op::Stbar)
        }
    }
}

/// Which accesses MEMBAR orders: all of them where it asks for more than an order.
fn ordered(word: u32) -> u8
    ensures { result ≡ form.ordered word }
{
    if fields::cmask(word) == 0 {
        fields::mmask(word)
    } else {
        15
    }
}

/// Writes of state registers (A.63).
#[tactic(auto, unfolding(crate::specs::Forms::write_state))]
fn write_state(word: u32) -> Instr
    ensures { result ≡ form.write_state word }
{
    match fields::rd(word) {
        0 => from_two(Op::WrY, word),
        2 => from_two(Op::WrCcr, word),
        _ => ill(ILLEGAL),
    }
}

/// Moves on integer condition codes (A.35); with the field cc2 clear they are on those of floating point.
#[tactic(auto, unfolding(crate::specs::Forms::movcc))]
fn movcc(word: u32) -> Instr
    ensures { result ≡ form.movcc word }
{
    if !fields::is_on_integers(word) {
        return ill(NO_FLOATING_POINT);
    }
    let codes = fields::low_cc(word);
    if codes != 0 && codes != 2 {
        return ill(ILLEGAL);
    }
    Instr {
        rd: fields::rd(word),
        src2: fields::moved_on_codes(word),
        cond: fields::move_cond(word),
        extended: codes == 2,
        ..plain(Op::Movcc)
    }
}

/// Moves on a register (A.36).
#[tactic(auto, unfolding(crate::specs::Forms::movr))]
fn movr(word: u32) -> Instr
    ensures { result ≡ form.movr word }
{
    let condition = fields::move_rcond(word);
    if condition == 0 || condition == 4 {
        return ill(ILLEGAL);
    }
    Instr {
        rd: fields::rd(word),
        rs1: fields::rs1(word),
        src2: fields::moved_on_register(word),
        cond: condition,
        ..plain(Op::Movr)
    }
}

/// The count of ones of operand 2 (A.41).
#[tactic(auto, unfolding(crate::specs::Forms::popc))]
fn popc(word: u32) -> Instr
    ensures { result ≡ form.popc word }
{
    if fields::rs1(word) != 0 {
        return ill(ILLEGAL);
    }
    Instr {
        rd: fields::rd(word),
        src2: fields::operand2(word),
        ..plain(Op::Popc)
    }
}

/// Traps on integer condition codes (A.61).
#[tactic(auto, unfolding(crate::specs::Forms::tcc))]
fn tcc(word: u32) -> Instr
    ensures { result ≡ form.tcc word }
{
    let codes = fields::low_cc(word);
    if codes != 0 && codes != 2 {
        return ill(ILLEGAL);
    }
    Instr {
        rs1: fields::rs1(word),
        src2: fields::operand2(word),
        cond: fields::cond(word),
        extended: codes == 2,
        ..plain(Op::Tcc)
    }
}
