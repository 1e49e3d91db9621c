//! The low bits of 64-bit numbers, unsigned and in two's complement (SPARC V9, chapter 4); sums and differences
//! modulo 2^64.

ghost use Rattle.std.specs.Prelude.{◌≡◌, ◌<◌};
ghost use Rattle.sparc_alu.specs.Numbers.{low, signed, twos_complement};
ghost use Rattle.sparc_alu.specs.Results as calculated;

pub fn low_byte(n: u64) -> u8
    ensures { result ≡ low 8 n }
{
    (n & 0xff) as u8
}

pub fn low_half(n: u64) -> u16
    ensures { result ≡ low 16 n }
{
    (n & 0xffff) as u16
}

pub fn low_word(n: u64) -> u32
    ensures { result ≡ low 32 n }
{
    (n & 0xffff_ffff) as u32
}

pub fn signed_byte(n: u64) -> i8
    ensures { result ≡ signed 8 n }
{
    low_byte(n).cast_signed()
}

pub fn signed_half(n: u64) -> i16
    ensures { result ≡ signed 16 n }
{
    low_half(n).cast_signed()
}

pub fn signed_word(n: u64) -> i32
    ensures { result ≡ signed 32 n }
{
    low_word(n).cast_signed()
}

pub fn signed_value(n: u64) -> i64
    ensures { result ≡ signed 64 n }
{
    n.cast_signed()
}

/// The 64 bits of a signed number in two's complement, as an unsigned number (SPARC V9, chapter 4).
pub fn bits_of(z: i64) -> u64
    ensures { result ≡ twos_complement z }
{
    z.cast_unsigned()
}

/// `a` + `b` + `carry`, modulo 2^64.
pub fn sum(a: u64, b: u64, carry: u8) -> u64
    requires { carry < 2 }
    ensures { result ≡ calculated.sum a b carry }
{
    a.wrapping_add(b).wrapping_add(u64::from(carry))
}

/// `a` - `b` - `borrow`, modulo 2^64.
pub fn difference(a: u64, b: u64, borrow: u8) -> u64
    requires { borrow < 2 }
    ensures { result ≡ calculated.difference a b borrow }
{
    a.wrapping_sub(b).wrapping_sub(u64::from(borrow))
}
