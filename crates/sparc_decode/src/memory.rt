//! The words with op 3: loads, stores, prefetches and atomic accesses (SPARC V9, A.9, A.27, A.29, A.42,
//! A.54 and A.57).

ghost use Rattle.std.specs.Prelude.{◌≡◌};
ghost use Rattle.sparc_decode.specs.Forms as form;
ghost use Rattle.sparc_decode.specs.Instr as table;

use crate::fields;
use crate::forms::{ILLEGAL, NO_FLOATING_POINT, ill, plain, three_operands};
use crate::instr::{Instr, Op, Src2};

/// The words with op 3.
#[tactic(auto, unfolding(crate::specs::Instr::memory))]
pub fn memory(word: u32) -> Instr
    ensures { result ≡ table.memory word }
{
    match fields::op3(word) {
        0x00 => three_operands(Op::Lduw, word),
        0x01 => three_operands(Op::Ldub, word),
        0x02 => three_operands(Op::Lduh, word),
        0x04 => three_operands(Op::Stw, word),
        0x05 => three_operands(Op::Stb, word),
        0x06 => three_operands(Op::Sth, word),
        0x08 => three_operands(Op::Ldsw, word),
        0x09 => three_operands(Op::Ldsb, word),
        0x0a => three_operands(Op::Ldsh, word),
        0x0b => three_operands(Op::Ldx, word),
        0x0d => three_operands(Op::Ldstub, word),
        0x0e => three_operands(Op::Stx, word),
        0x0f => three_operands(Op::Swap, word),
        0x2d => prefetch(word),
        0x3c => compare_and_swap(Op::Casa, word),
        0x3e => compare_and_swap(Op::Casxa, word),
        // loads and stores of floating-point registers, also by an address space
        0x20..=0x27 | 0x30 | 0x32 | 0x33 | 0x34 | 0x36 | 0x37 => ill(NO_FLOATING_POINT),
        _ => ill(ILLEGAL),
    }
}

/// Prefetches, which do nothing; the functions 5 to 15 are reserved (A.42).
#[tactic(auto, unfolding(crate::specs::Forms::prefetch))]
fn prefetch(word: u32) -> Instr
    ensures { result ≡ form.prefetch word }
{
    let function = fields::rd(word);
    if function >= 5 && function <= 15 {
        ill(ILLEGAL)
    } else {
        plain(Op::Prefetch)
    }
}

/// Compare and swap in the primary address space (A.9).
#[tactic(auto, unfolding(crate::specs::Forms::compare_and_swap))]
fn compare_and_swap(op: Op, word: u32) -> Instr
    ensures { result ≡ form.compare_and_swap op word }
{
    if fields::is_immediate(word) || fields::imm_asi(word) != 0x80 {
        return ill(ILLEGAL);
    }
    Instr {
        rd: fields::rd(word),
        rs1: fields::rs1(word),
        src2: Src2::Reg(fields::rs2(word)),
        ..plain(op)
    }
}
