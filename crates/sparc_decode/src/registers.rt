//! Which registers of a word its form uses (SPARC V9, appendix A).

ghost use Rattle.std.specs.Prelude.{◌≡◌};
ghost use Rattle.sparc_decode.specs.Effects as effect;

use crate::instr::Op;

/// The use that a form makes of rs1, operand 2 and rd.
#[derive(Clone, Copy, Debug, PartialEq, Eq)]
pub enum RegisterUse {
    /// No register.
    Nothing,
    /// Reads rs1.
    ReadRs1,
    /// Reads rs1 and operand 2.
    ReadTwo,
    /// Reads rs1, operand 2 and rd.
    ReadThree,
    /// Writes rd.
    Write,
    /// Writes rd from operand 2.
    FromOperand2,
    /// Writes rd from rs1 and operand 2.
    FromTwo,
    /// Writes rd from operand 2, or leaves it as it is.
    FromOperand2AndRd,
    /// Writes rd from rs1, operand 2 and rd.
    FromThree,
}

impl RegisterUse {
    /// The use that a form makes. Each form is named, so that a new one gets no use unasked.
    pub fn of(op: Op) -> Self
        ensures { result ≡ effect.registers_of op }
    {
        match op {
            Op::Trap
            | Op::BPcc
            | Op::Bicc
            | Op::Call
            | Op::Membar
            | Op::Stbar
            | Op::Flushw
            | Op::Flush
            | Op::Prefetch => Self::Nothing,
            Op::BPr => Self::ReadRs1,
            Op::WrY | Op::WrCcr | Op::Return | Op::Tcc => Self::ReadTwo,
            Op::Stw | Op::Stb | Op::Sth | Op::Stx => Self::ReadThree,
            Op::Sethi | Op::RdY | Op::RdCcr | Op::RdPc => Self::Write,
            Op::Popc => Self::FromOperand2,
            Op::Add
            | Op::And
            | Op::Or
            | Op::Xor
            | Op::Sub
            | Op::Andn
            | Op::Orn
            | Op::Xnor
            | Op::Addc
            | Op::Subc
            | Op::Mulx
            | Op::Umul
            | Op::Smul
            | Op::Udivx
            | Op::Sdivx
            | Op::AddCc
            | Op::AndCc
            | Op::OrCc
            | Op::XorCc
            | Op::SubCc
            | Op::AndnCc
            | Op::OrnCc
            | Op::XnorCc
            | Op::AddcCc
            | Op::UmulCc
            | Op::SmulCc
            | Op::SubcCc
            | Op::Sll
            | Op::Srl
            | Op::Sra
            | Op::Sllx
            | Op::Srlx
            | Op::Srax
            | Op::Jmpl
            | Op::Save
            | Op::Restore
            | Op::Lduw
            | Op::Ldub
            | Op::Lduh
            | Op::Ldsw
            | Op::Ldsb
            | Op::Ldsh
            | Op::Ldx
            | Op::Ldstub => Self::FromTwo,
            Op::Movcc => Self::FromOperand2AndRd,
            Op::Movr | Op::Swap | Op::Casa | Op::Casxa => Self::FromThree,
        }
    }

    /// Whether the register of rs1 is read.
    pub fn reads_rs1(self) -> bool
        ensures { result ≡ effect.use_reads_rs1 self }
    {
        match self {
            Self::ReadRs1 | Self::ReadTwo | Self::ReadThree | Self::FromTwo | Self::FromThree =>
                true,
            Self::Nothing | Self::Write | Self::FromOperand2 | Self::FromOperand2AndRd => false,
        }
    }

    /// Whether operand 2 is used.
    pub fn reads_src2(self) -> bool
        ensures { result ≡ effect.use_reads_src2 self }
    {
        match self {
            Self::ReadTwo
            | Self::ReadThree
            | Self::FromOperand2
            | Self::FromTwo
            | Self::FromOperand2AndRd
            | Self::FromThree => true,
            Self::Nothing | Self::ReadRs1 | Self::Write => false,
        }
    }

    /// Whether the register of rd is read.
    pub fn reads_rd(self) -> bool
        ensures { result ≡ effect.use_reads_rd self }
    {
        match self {
            Self::ReadThree | Self::FromOperand2AndRd | Self::FromThree => true,
            Self::Nothing
            | Self::ReadRs1
            | Self::ReadTwo
            | Self::Write
            | Self::FromOperand2
            | Self::FromTwo => false,
        }
    }

    /// Whether the register of rd is written.
    pub fn writes_rd(self) -> bool
        ensures { result ≡ effect.use_writes_rd self }
    {
        match self {
            Self::Write
            | Self::FromOperand2
            | Self::FromTwo
            | Self::FromOperand2AndRd
            | Self::FromThree => true,
            Self::Nothing | Self::ReadRs1 | Self::ReadTwo | Self::ReadThree => false,
        }
    }
}
