//! What each form is, and the unit that executes it.

ghost use Rattle.std.specs.Prelude.{◌≡◌};
ghost use Rattle.sparc_decode.specs.Kinds as form;

use crate::instr::Op;
use rsim_base::{Size, Unit};

/// What the instructions of a form do. Those that access memory say of which size.
#[derive(Clone, Copy, Debug, PartialEq, Eq)]
pub enum FormKind {
    /// The word is no instruction, and traps.
    Traps,
    BranchesOnCodes,
    BranchesOnRegister,
    Calls,
    Jumps,
    /// Jumps, and goes back to the window before.
    Returns,
    /// Moves where a condition is true.
    Moves,
    /// Traps, or asks for a service, where a condition is true.
    TrapsIfTaken,
    SetsHigh,
    ReadsPc,
    Fences,
    /// Goes on, once no window is left to spill first.
    DoesNothing,
    Saves,
    Restores,
    Loads(Size),
    Stores(Size),
    /// Loads a byte, and stores ones.
    LoadsAndStoresByte,
    Swaps,
    ComparesAndSwaps(Size),
    /// Arithmetic, logic and shifts, also of the state registers.
    Computes,
}

/// What the instructions of a form do. Each form is named, so that a new one is of no kind unasked.
#[inline(always)]
#[tactic(auto, unfolding(crate::specs::Kinds::kind))]
pub fn kind(op: Op) -> FormKind
    ensures { result ≡ form.kind op }
{
    match op {
        Op::Trap => FormKind::Traps,
        Op::Bicc | Op::BPcc => FormKind::BranchesOnCodes,
        Op::BPr => FormKind::BranchesOnRegister,
        Op::Call => FormKind::Calls,
        Op::Jmpl => FormKind::Jumps,
        Op::Return => FormKind::Returns,
        Op::Movcc | Op::Movr => FormKind::Moves,
        Op::Tcc => FormKind::TrapsIfTaken,
        Op::Sethi => FormKind::SetsHigh,
        Op::RdPc => FormKind::ReadsPc,
        Op::Membar | Op::Stbar => FormKind::Fences,
        Op::Flush | Op::Flushw | Op::Prefetch => FormKind::DoesNothing,
        Op::Save => FormKind::Saves,
        Op::Restore => FormKind::Restores,
        Op::Ldub | Op::Ldsb => FormKind::Loads(Size::B1),
        Op::Lduh | Op::Ldsh => FormKind::Loads(Size::B2),
        Op::Lduw | Op::Ldsw => FormKind::Loads(Size::B4),
        Op::Ldx => FormKind::Loads(Size::B8),
        Op::Stb => FormKind::Stores(Size::B1),
        Op::Sth => FormKind::Stores(Size::B2),
        Op::Stw => FormKind::Stores(Size::B4),
        Op::Stx => FormKind::Stores(Size::B8),
        Op::Ldstub => FormKind::LoadsAndStoresByte,
        Op::Swap => FormKind::Swaps,
        Op::Casa => FormKind::ComparesAndSwaps(Size::B4),
        Op::Casxa => FormKind::ComparesAndSwaps(Size::B8),
        Op::Add
        | Op::And
        | Op::Or
        | Op::Xor
        | Op::Sub
        | Op::Andn
        | Op::Orn
        | Op::Xnor
        | Op::Addc
        | Op::Subc
        | Op::AddCc
        | Op::AndCc
        | Op::OrCc
        | Op::XorCc
        | Op::SubCc
        | Op::AndnCc
        | Op::OrnCc
        | Op::XnorCc
        | Op::AddcCc
        | Op::SubcCc
        | Op::Sll
        | Op::Srl
        | Op::Sra
        | Op::Sllx
        | Op::Srlx
        | Op::Srax
        | Op::Popc
        | Op::RdY
        | Op::RdCcr
        | Op::WrY
        | Op::WrCcr
        | Op::Mulx
        | Op::Umul
        | Op::Smul
        | Op::UmulCc
        | Op::SmulCc
        | Op::Udivx
        | Op::Sdivx => FormKind::Computes,
    }
}

/// The unit that executes the instructions of a form.
#[inline(always)]
#[tactic(auto, unfolding(crate::specs::Kinds::unit_of))]
pub fn unit_of(op: Op) -> Unit
    ensures { result ≡ form.unit_of op }
{
    match op {
        Op::Mulx | Op::Umul | Op::Smul | Op::UmulCc | Op::SmulCc => Unit::Mul,
        Op::Udivx | Op::Sdivx => Unit::Div,
        _ => Unit::Alu,
    }
}
