//! Branches, SETHI and CALL (SPARC V9, A.3, A.6, A.7, A.8 and A.48).

ghost use Rattle.std.specs.Prelude.{◌≡◌};
ghost use Rattle.sparc_decode.specs.Forms as form;
ghost use Rattle.sparc_decode.specs.Instr as table;

use crate::fields;
use crate::forms::{ILLEGAL, NO_FLOATING_POINT, ill, plain};
use crate::instr::{Instr, Op};

/// The words with op 0.
#[tactic(auto, unfolding(crate::specs::Instr::branch))]
pub fn branch(word: u32) -> Instr
    ensures { result ≡ table.branch word }
{
    match fields::op2(word) {
        1 => bpcc(word),
        2 => bicc(word),
        3 => bpr(word),
        4 => sethi(word),
        // FBPfcc and FBfcc
        5 | 6 => ill(NO_FLOATING_POINT),
        // 0 is ILLTRAP
        _ => ill(ILLEGAL),
    }
}

#[tactic(auto, unfolding(crate::specs::Forms::bpcc))]
fn bpcc(word: u32) -> Instr
    ensures { result ≡ form.bpcc word }
{
    let codes = fields::branch_cc(word);
    if codes != 0 && codes != 2 {
        return ill(ILLEGAL);
    }
    Instr {
        cond: fields::cond(word),
        extended: codes == 2,
        annul: fields::annul(word),
        hint: fields::hint(word),
        disp: fields::disp19(word),
        ..plain(Op::BPcc)
    }
}

#[tactic(auto, unfolding(crate::specs::Forms::bicc))]
fn bicc(word: u32) -> Instr
    ensures { result ≡ form.bicc word }
{
    Instr {
        cond: fields::cond(word),
        annul: fields::annul(word),
        disp: fields::disp22(word),
        ..plain(Op::Bicc)
    }
}

#[tactic(auto, unfolding(crate::specs::Forms::bpr))]
fn bpr(word: u32) -> Instr
    ensures { result ≡ form.bpr word }
{
    let condition = fields::rcond(word);
    if fields::is_beside_bpr(word) || condition == 0 || condition == 4 {
        return ill(ILLEGAL);
    }
    Instr {
        rs1: fields::rs1(word),
        cond: condition,
        annul: fields::annul(word),
        hint: fields::hint(word),
        disp: fields::disp16(word),
        ..plain(Op::BPr)
    }
}

#[tactic(auto, unfolding(crate::specs::Forms::sethi))]
fn sethi(word: u32) -> Instr
    ensures { result ≡ form.sethi word }
{
    Instr {
        rd: fields::rd(word),
        disp: fields::high_part(word),
        ..plain(Op::Sethi)
    }
}

/// CALL, which has all of op 1.
#[tactic(auto, unfolding(crate::specs::Forms::call))]
pub fn call(word: u32) -> Instr
    ensures { result ≡ form.call word }
{
    Instr {
        disp: fields::disp30(word),
        ..plain(Op::Call)
    }
}
