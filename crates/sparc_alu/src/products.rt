//! Products and quotients (SPARC V9, A.37, A.38).

ghost use Rattle.std.specs.Prelude.{◌≡◌, ◌<◌, ◌/◌, int_div};
ghost use Rattle.sparc_alu.specs.Numbers.{signed, twos_complement};
ghost use Rattle.sparc_alu.specs.Results as calculated;

use crate::numbers::{bits_of, low_word, signed_value, signed_word};

/// The product of the low words.
pub fn unsigned_product(a: u64, b: u64) -> u64
    ensures { result ≡ calculated.unsigned_product a b }
{
    u64::from(low_word(a)) * u64::from(low_word(b))
}

/// The product of the low words as signed numbers.
pub fn signed_product(a: u64, b: u64) -> u64
    ensures { result ≡ calculated.signed_product a b }
{
    bits_of(i64::from(signed_word(a)) * i64::from(signed_word(b)))
}

/// The quotient of signed numbers, rounded to zero; -2^63 by -1 is -2^63.
pub fn signed_quotient(a: u64, b: u64) -> u64
    requires { 0 < b }
    ensures { result ≡ twos_complement (int_div (signed 64 a) (signed 64 b)) }
{
    bits_of(signed_value(a).wrapping_div(signed_value(b)))
}
