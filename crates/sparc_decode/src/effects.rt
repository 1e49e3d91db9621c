//! What instructions read and write (SPARC V9, appendix A).

ghost use Rattle.std.specs.Prelude.{◌≡◌};
ghost use Rattle.sparc_decode.specs.Effects as effect;

use crate::instr::{Instr, Op, Src2};
use crate::operands::{Dest, Sources, WindowEffect};
use crate::registers::RegisterUse;

/// What the instruction reads.
#[tactic(auto, unfolding(crate::specs::Effects::reads_rs1, crate::specs::Effects::reads_src2))]
pub fn sources(i: &Instr) -> Sources
    ensures { result ≡ effect.sources_of i.now }
{
    let registers = RegisterUse::of(i.op);
    Sources {
        a: if registers.reads_rs1() {
            Some(i.rs1)
        } else {
            None
        },
        b: if registers.reads_src2() {
            register(i.src2)
        } else {
            None
        },
        c: third_register(i),
        cc: reads_cc(i.op, i.cond),
        y: reads_y(i.op),
    }
}

/// What the instruction writes. Register 0 is no destination.
pub fn dest(i: &Instr) -> Dest
    ensures { result ≡ effect.dest_of i.now }
{
    Dest {
        reg: written(i),
        cc: writes_cc(i.op),
        y: writes_y(i.op),
    }
}

/// What the instruction does with the register windows.
#[tactic(auto, unfolding(crate::specs::Effects::window_effect_of_form))]
pub fn window_effect(i: &Instr) -> WindowEffect
    ensures { result ≡ effect.window_effect_of i.now }
{
    match i.op {
        Op::Save => WindowEffect::Save,
        Op::Restore | Op::Return => WindowEffect::Restore,
        Op::Flushw => WindowEffect::Flush,
        _ => WindowEffect::Same,
    }
}

fn register(operand: Src2) -> Option<u8>
    ensures { result ≡ effect.register_of operand }
{
    match operand {
        Src2::Reg(r) => Some(r),
        Src2::Imm(_) => None,
    }
}

#[tactic(auto, unfolding(crate::specs::Effects::third_of_form, crate::specs::Effects::reads_rd))]
fn third_register(i: &Instr) -> Option<u8>
    ensures { result ≡ effect.third_of i.now }
{
    match i.op {
        Op::Tcc => Some(8),
        op if RegisterUse::of(op).reads_rd() => Some(i.rd),
        _ => None,
    }
}

#[tactic(auto, unfolding(crate::specs::Effects::written_by_form, crate::specs::Effects::writes_rd))]
fn written(i: &Instr) -> Option<u8>
    ensures { result ≡ effect.written_of i.now }
{
    match i.op {
        Op::Call => Some(15),
        op if RegisterUse::of(op).writes_rd() && i.rd != 0 => Some(i.rd),
        _ => None,
    }
}

#[tactic(auto, unfolding(crate::specs::Effects::reads_cc))]
fn reads_cc(op: Op, cond: u8) -> bool
    ensures { result ≡ effect.reads_cc op cond }
{
    match op {
        Op::Bicc | Op::BPcc | Op::Movcc | Op::Tcc => cond != 0 && cond != 8,
        Op::Addc | Op::Subc | Op::AddcCc | Op::SubcCc | Op::RdCcr => true,
        _ => false,
    }
}

#[tactic(auto, unfolding(crate::specs::Effects::reads_y))]
fn reads_y(op: Op) -> bool
    ensures { result ≡ effect.reads_y op }
{
    matches!(op, Op::RdY)
}

#[tactic(auto, unfolding(crate::specs::Effects::writes_cc))]
fn writes_cc(op: Op) -> bool
    ensures { result ≡ effect.writes_cc op }
{
    matches!(
        op,
        Op::AddCc
            | Op::AndCc
            | Op::OrCc
            | Op::XorCc
            | Op::SubCc
            | Op::AndnCc
            | Op::OrnCc
            | Op::XnorCc
            | Op::AddcCc
            | Op::UmulCc
            | Op::SmulCc
            | Op::SubcCc
            | Op::WrCcr
    )
}

#[tactic(auto, unfolding(crate::specs::Effects::writes_y))]
fn writes_y(op: Op) -> bool
    ensures { result ≡ effect.writes_y op }
{
    matches!(op, Op::Umul | Op::Smul | Op::UmulCc | Op::SmulCc | Op::WrY)
}
