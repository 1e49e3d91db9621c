//! What the forms of arithmetic compute (SPARC V9, appendix A).

ghost use Rattle.std.specs.Prelude.{◌≡◌, ◌==◌, ◌&&◌, false};
ghost use Rattle.sparc_alu.specs.Results as calculated;
ghost use Rattle.sparc_alu.specs.Results.{computed};

use crate::codes::{carry_in, of_difference, of_sum, of_value};
use crate::numbers::{difference, low_byte, low_word, sum};
use crate::products::{signed_product, signed_quotient, unsigned_product};
use crate::shifts;
use sparc_decode::Op;
use thiserror::Error;

/// What a form computes.
#[derive(Clone, Copy, Debug, PartialEq, Eq)]
pub struct AluOut {
    /// The value for the register of rd: 0 where the form computes none.
    pub value: u64,
    /// The condition codes register after it: xcc in bits 7 to 4 and icc in bits 3 to 0, each of them
    /// N, Z, V, C from the high bit down (5.1.5).
    pub cc: u8,
    /// The register Y after it (5.1.3.2).
    pub y: u64,
}

/// A division by 0, the trap 0x028 (A.37).
#[derive(Clone, Copy, Debug, PartialEq, Eq, Error)]
#[error("division by zero")]
pub struct DivisionByZero;

/// What the form computes from its two operands, the condition codes and Y.
///
/// SETHI and the moves pass `b` on. A form that computes nothing gives 0, and leaves the codes and Y as
/// they are.
///
/// # Errors
/// `DivisionByZero` exactly for UDIVX and SDIVX with `b` 0.
pub fn alu(op: Op, a: u64, b: u64, cc: u8, y: u64) -> Result<AluOut, DivisionByZero>
    ensures { result ≡ computed op a b cc y }
{
    if divides(op) && b == 0 {
        return Err(DivisionByZero);
    }
    Ok(results(op, a, b, cc, y))
}

#[tactic(auto, unfolding(crate::specs::Results::divides))]
fn divides(op: Op) -> bool
    ensures { result ≡ calculated.divides op }
{
    matches!(op, Op::Udivx | Op::Sdivx)
}

/// What the form computes, by its op. A division is by a number that is not 0.
// Inlined, so that the three numbers stay in registers: a result in memory costs a tenth of a step.
#[inline(always)]
#[tactic(auto, unfolding(crate::specs::Results::value, crate::specs::Results::codes, crate::specs::Results::y_register, crate::specs::Results::divides))]
fn results(op: Op, a: u64, b: u64, cc: u8, y: u64) -> AluOut
    requires { (calculated.divides op && b == 0) ≡ false }
    ensures { result ≡ calculated.results op a b cc y }
{
    let kept = AluOut { value: 0, cc, y };
    match op {
        Op::Add | Op::Save | Op::Restore => kept.with_value(sum(a, b, 0)),
        Op::Addc => kept.with_value(sum(a, b, carry_in(cc))),
        Op::Sub => kept.with_value(difference(a, b, 0)),
        Op::Subc => kept.with_value(difference(a, b, carry_in(cc))),
        Op::AddCc => kept.with_codes(sum(a, b, 0), of_sum(a, b, 0)),
        Op::AddcCc => kept.with_codes(sum(a, b, carry_in(cc)), of_sum(a, b, carry_in(cc))),
        Op::SubCc => kept.with_codes(difference(a, b, 0), of_difference(a, b, 0)),
        Op::SubcCc => kept.with_codes(
            difference(a, b, carry_in(cc)),
            of_difference(a, b, carry_in(cc)),
        ),
        Op::And => kept.with_value(a & b),
        Op::Andn => kept.with_value(a & !b),
        Op::Or => kept.with_value(a | b),
        Op::Orn => kept.with_value(a | !b),
        Op::Xor => kept.with_value(a ^ b),
        Op::Xnor => kept.with_value(!(a ^ b)),
        Op::AndCc => kept.with_codes(a & b, of_value(a & b)),
        Op::AndnCc => kept.with_codes(a & !b, of_value(a & !b)),
        Op::OrCc => kept.with_codes(a | b, of_value(a | b)),
        Op::OrnCc => kept.with_codes(a | !b, of_value(a | !b)),
        Op::XorCc => kept.with_codes(a ^ b, of_value(a ^ b)),
        Op::XnorCc => kept.with_codes(!(a ^ b), of_value(!(a ^ b))),
        Op::Mulx => kept.with_value(a.wrapping_mul(b)),
        Op::Umul => kept.with_product(unsigned_product(a, b)),
        Op::Smul => kept.with_product(signed_product(a, b)),
        Op::UmulCc => {
            let product = unsigned_product(a, b);
            kept.with_product(product)
                .with_codes(product, of_value(product))
        }
        Op::SmulCc => {
            let product = signed_product(a, b);
            kept.with_product(product)
                .with_codes(product, of_value(product))
        }
        Op::Udivx => kept.with_value(a / b),
        Op::Sdivx => kept.with_value(signed_quotient(a, b)),
        Op::Sll => kept.with_value(shifts::narrow_left(a, b)),
        Op::Srl => kept.with_value(shifts::narrow_right(a, b)),
        Op::Sra => kept.with_value(shifts::narrow_signed_right(a, b)),
        Op::Sllx => kept.with_value(shifts::wide_left(a, b)),
        Op::Srlx => kept.with_value(shifts::wide_right(a, b)),
        Op::Srax => kept.with_value(shifts::wide_signed_right(a, b)),
        Op::Popc => kept.with_value(u64::from(b.count_ones())),
        Op::Sethi | Op::Movcc | Op::Movr => kept.with_value(b),
        Op::RdY => kept.with_value(u64::from(low_word(y))),
        Op::RdCcr => kept.with_value(u64::from(cc)),
        Op::WrCcr => AluOut {
            cc: low_byte(a ^ b),
            ..kept
        },
        Op::WrY => AluOut {
            y: u64::from(low_word(a ^ b)),
            ..kept
        },
        // branches, jumps, traps and barriers
        Op::Trap
        | Op::BPcc
        | Op::Bicc
        | Op::BPr
        | Op::Call
        | Op::RdPc
        | Op::Membar
        | Op::Stbar
        | Op::Flushw
        | Op::Jmpl
        | Op::Return
        | Op::Tcc
        | Op::Flush => kept,
        // accesses to memory
        Op::Lduw
        | Op::Ldub
        | Op::Lduh
        | Op::Ldsw
        | Op::Ldsb
        | Op::Ldsh
        | Op::Ldx
        | Op::Stw
        | Op::Stb
        | Op::Sth
        | Op::Stx
        | Op::Ldstub
        | Op::Swap
        | Op::Prefetch
        | Op::Casa
        | Op::Casxa => kept,
    }
}

impl AluOut {
    /// The same codes and Y with this value.
    fn with_value(self, value: u64) -> Self
        ensures { result ≡ record self { value = value } }
    {
        Self { value, ..self }
    }

    /// The same Y with this value and these codes.
    fn with_codes(self, value: u64, codes: u8) -> Self
        ensures { result ≡ calculated.with_codes value codes self }
    {
        Self {
            value,
            cc: codes,
            ..self
        }
    }

    /// The same codes with this product as the value and its high half in Y.
    fn with_product(self, product: u64) -> Self
        ensures { result ≡ calculated.with_product product self }
    {
        Self {
            value: product,
            y: product >> 32,
            ..self
        }
    }
}
