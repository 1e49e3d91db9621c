//! Shifts (SPARC V9, A.49): the narrow ones by the low 5 bits of the count, the wide ones by the low 6.

ghost use Rattle.std.specs.Prelude.{◌≡◌, ◌*◌, ◌/◌, ◌%◌, ◌^◌};
ghost use Rattle.std.specs.Int.{int_shr};
ghost use Rattle.sparc_alu.specs.Numbers.{low, signed, twos_complement};

use crate::numbers::{bits_of, low_word, signed_value, signed_word};

/// SLL: shifts all 64 bits.
pub fn narrow_left(a: u64, count: u64) -> u64
    ensures { result ≡ a * 2 ^ (count % 32) % 2 ^ 64 }
{
    a << (count % 32)
}

/// SRL: shifts the low word, and zeros in.
pub fn narrow_right(a: u64, count: u64) -> u64
    ensures { result ≡ low 32 a / 2 ^ (count % 32) }
{
    u64::from(low_word(a)) >> (count % 32)
}

/// SRA: shifts the low word, and its sign in.
pub fn narrow_signed_right(a: u64, count: u64) -> u64
    ensures { result ≡ twos_complement (int_shr (signed 32 a) (count % 32)) }
{
    bits_of(i64::from(signed_word(a)) >> (count % 32))
}

/// SLLX.
pub fn wide_left(a: u64, count: u64) -> u64
    ensures { result ≡ a * 2 ^ (count % 64) % 2 ^ 64 }
{
    a << (count % 64)
}

/// SRLX: zeros come in.
pub fn wide_right(a: u64, count: u64) -> u64
    ensures { result ≡ a / 2 ^ (count % 64) }
{
    a >> (count % 64)
}

/// SRAX: the sign comes in.
pub fn wide_signed_right(a: u64, count: u64) -> u64
    ensures { result ≡ twos_complement (int_shr (signed 64 a) (count % 64)) }
{
    bits_of(signed_value(a) >> (count % 64))
}
