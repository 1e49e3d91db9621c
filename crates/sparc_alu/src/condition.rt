//! Conditions of branches, moves and traps (SPARC V9, A.3, A.6, A.7, A.35, A.36, A.61).

ghost use Rattle.std.specs.Prelude.{◌≡◌};
ghost use Rattle.sparc_alu.specs.Codes as code;
ghost use Rattle.sparc_alu.specs.Conditions as condition;
ghost use Rattle.sparc_alu.specs.Conditions.{taken};

use crate::numbers::signed_value;
use sparc_decode::{Instr, Op};

/// Whether the condition of a branch, move or trap is true, where `cc` is the condition codes register
/// and `a` the value of the register of rs1. Forms without a condition give `false`.
#[tactic(auto, unfolding(crate::specs::Conditions::taken_by_form))]
pub fn branch_taken(i: &Instr, cc: u8, a: u64) -> bool
    ensures { result ≡ taken i.now cc a }
{
    match i.op {
        Op::Bicc | Op::BPcc | Op::Movcc | Op::Tcc => holds(i.cond, codes_for(i, cc)),
        Op::BPr | Op::Movr => holds_of_register(i.cond, signed_value(a)),
        _ => false,
    }
}

/// xcc or icc, whichever the instruction looks at.
fn codes_for(i: &Instr, cc: u8) -> u8
    ensures { result ≡ condition.codes_for i.now cc }
{
    if i.extended { cc >> 4 } else { cc & 0xf }
}

/// A condition on four codes (A.6, A.7).
fn holds(number: u8, codes: u8) -> bool
    ensures { result ≡ condition.holds number codes }
{
    match number {
        1 => zero(codes),
        2 => zero(codes) || is_less(codes),
        3 => is_less(codes),
        4 => carry(codes) || zero(codes),
        5 => carry(codes),
        6 => negative(codes),
        7 => overflow(codes),
        8 => true,
        9 => !zero(codes),
        10 => !(zero(codes) || is_less(codes)),
        11 => !is_less(codes),
        12 => !(carry(codes) || zero(codes)),
        13 => !carry(codes),
        14 => !negative(codes),
        15 => !overflow(codes),
        _ => false,
    }
}

/// A condition on a register (A.3).
fn holds_of_register(number: u8, value: i64) -> bool
    ensures { result ≡ condition.by_number condition.on_register number value }
{
    match number {
        1 => value == 0,
        2 => value <= 0,
        3 => value < 0,
        5 => value != 0,
        6 => value > 0,
        7 => value >= 0,
        _ => false,
    }
}

fn is_less(codes: u8) -> bool
    ensures { result ≡ condition.is_less codes }
{
    negative(codes) ^ overflow(codes)
}

fn negative(codes: u8) -> bool
    ensures { result ≡ code.negative codes }
{
    codes >> 3 & 1 == 1
}

fn zero(codes: u8) -> bool
    ensures { result ≡ code.zero codes }
{
    codes >> 2 & 1 == 1
}

fn overflow(codes: u8) -> bool
    ensures { result ≡ code.overflow codes }
{
    codes >> 1 & 1 == 1
}

fn carry(codes: u8) -> bool
    ensures { result ≡ code.carry codes }
{
    codes & 1 == 1
}
