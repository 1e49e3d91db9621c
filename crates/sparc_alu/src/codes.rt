//! The condition codes of results (SPARC V9, 5.1.5).

ghost use Rattle.std.specs.Prelude.{◌≡◌, ◌<◌, ◌+◌, ◌*◌, pos, ◌+ℤ◌, ◌-ℤ◌};
ghost use Rattle.sparc_alu.specs.Codes as code;
ghost use Rattle.sparc_alu.specs.Numbers.{is_signed, signed};

use crate::numbers::{difference, low_word, signed_value, signed_word, sum};

/// The register after `a` + `b` + `carry`.
pub fn of_sum(a: u64, b: u64, carry: u8) -> u8
    requires { carry < 2 }
    ensures { result ≡ code.ccr (λ width. code.of_sum width a b carry) }
{
    register(xcc_of_sum(a, b, carry), icc_of_sum(a, b, carry))
}

/// The register after `a` - `b` - `borrow`.
pub fn of_difference(a: u64, b: u64, borrow: u8) -> u8
    requires { borrow < 2 }
    ensures { result ≡ code.ccr (λ width. code.of_difference width a b borrow) }
{
    register(
        xcc_of_difference(a, b, borrow),
        icc_of_difference(a, b, borrow),
    )
}

/// The register after a logical operation or a product.
pub fn of_value(value: u64) -> u8
    ensures { result ≡ code.ccr (λ width. code.of_value width value) }
{
    register(xcc(value, false, false), icc(value, false, false))
}

/// The carry that ADDC and SUBC take: 0 or 1.
pub fn carry_in(cc: u8) -> u8
    ensures taken { result ≡ code.carry_in cc }
    ensures small { result < 2 }
{
    cc & 1
}

fn icc_of_sum(a: u64, b: u64, carry: u8) -> u8
    requires { carry < 2 }
    ensures codes { result ≡ code.of_sum 32 a b carry }
    ensures small { result < 16 }
{
    let unsigned = u64::from(low_word(a)) + u64::from(low_word(b)) + u64::from(carry);
    icc(
        sum(a, b, carry),
        !is_word(signed_word_sum(a, b, carry)),
        unsigned > 0xffff_ffff,
    )
}

fn xcc_of_sum(a: u64, b: u64, carry: u8) -> u8
    requires { carry < 2 }
    ensures codes { result ≡ code.of_sum 64 a b carry }
    ensures small { result < 16 }
{
    let unsigned = u128::from(a) + u128::from(b) + u128::from(carry);
    xcc(
        sum(a, b, carry),
        !is_value(signed_sum(a, b, carry)),
        unsigned > 0xffff_ffff_ffff_ffff,
    )
}

fn icc_of_difference(a: u64, b: u64, borrow: u8) -> u8
    requires { borrow < 2 }
    ensures codes { result ≡ code.of_difference 32 a b borrow }
    ensures small { result < 16 }
{
    let taken_off = u64::from(low_word(b)) + u64::from(borrow);
    icc(
        difference(a, b, borrow),
        !is_word(signed_word_difference(a, b, borrow)),
        u64::from(low_word(a)) < taken_off,
    )
}

fn xcc_of_difference(a: u64, b: u64, borrow: u8) -> u8
    requires { borrow < 2 }
    ensures codes { result ≡ code.of_difference 64 a b borrow }
    ensures small { result < 16 }
{
    let taken_off = u128::from(b) + u128::from(borrow);
    xcc(
        difference(a, b, borrow),
        !is_value(signed_difference(a, b, borrow)),
        u128::from(a) < taken_off,
    )
}

fn signed_word_sum(a: u64, b: u64, carry: u8) -> i64
    requires { carry < 2 }
    ensures { result ≡ signed 32 a +ℤ signed 32 b +ℤ pos carry }
{
    i64::from(signed_word(a)) + i64::from(signed_word(b)) + i64::from(carry)
}

fn signed_sum(a: u64, b: u64, carry: u8) -> i128
    requires { carry < 2 }
    ensures { result ≡ signed 64 a +ℤ signed 64 b +ℤ pos carry }
{
    i128::from(signed_value(a)) + i128::from(signed_value(b)) + i128::from(carry)
}

fn signed_word_difference(a: u64, b: u64, borrow: u8) -> i64
    requires { borrow < 2 }
    ensures { result ≡ signed 32 a -ℤ signed 32 b -ℤ pos borrow }
{
    i64::from(signed_word(a)) - i64::from(signed_word(b)) - i64::from(borrow)
}

fn signed_difference(a: u64, b: u64, borrow: u8) -> i128
    requires { borrow < 2 }
    ensures { result ≡ signed 64 a -ℤ signed 64 b -ℤ pos borrow }
{
    i128::from(signed_value(a)) - i128::from(signed_value(b)) - i128::from(borrow)
}

/// The codes of a 32-bit result, the low word.
fn icc(value: u64, overflow: bool, carry: bool) -> u8
    ensures codes { result ≡ code.of_result 32 value overflow carry }
    ensures small { result < 16 }
{
    four_codes(
        signed_word(value) < 0,
        low_word(value) == 0,
        overflow,
        carry,
    )
}

/// The codes of a 64-bit result.
fn xcc(value: u64, overflow: bool, carry: bool) -> u8
    ensures codes { result ≡ code.of_result 64 value overflow carry }
    ensures small { result < 16 }
{
    four_codes(signed_value(value) < 0, value == 0, overflow, carry)
}

/// From bit 3 down.
fn four_codes(negative: bool, zero: bool, overflow: bool, carry: bool) -> u8
    ensures codes { result ≡ code.codes negative zero overflow carry }
    ensures small { result < 16 }
{
    8 * u8::from(negative) + 4 * u8::from(zero) + 2 * u8::from(overflow) + u8::from(carry)
}

/// The condition codes register.
fn register(xcc: u8, icc: u8) -> u8
    requires high { xcc < 16 }
    requires low { icc < 16 }
    ensures { result ≡ 16 * xcc + icc }
{
    16 * xcc + icc
}

/// Whether 32 bits can hold the number in two's complement.
fn is_word(z: i64) -> bool
    ensures { result ≡ is_signed 32 z }
{
    z >= i64::from(i32::MIN) && z <= i64::from(i32::MAX)
}

/// Whether 64 bits can hold the number in two's complement.
fn is_value(z: i128) -> bool
    ensures { result ≡ is_signed 64 z }
{
    z >= i128::from(i64::MIN) && z <= i128::from(i64::MAX)
}
