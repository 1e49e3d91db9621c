// The bytes of an access as a part of a doubleword.
ghost use Rattle.std.specs.Prelude.{◌≡◌, ◌+◌, ◌-◌, ◌*◌, ◌%◌, ◌<◌, ◌≤◌, ◌&&◌, ℕ, nat_le, nat_lt, if◌then◌else◌};
ghost use Rattle.rsim_base.specs.Bytes.{byte_of, count_of, FitsIn};
ghost use Rattle.elf64_load.specs.Image.{byte_at};

use elf64_load::Image;
use rsim_base::{Addr, Size};

// How far the part of `n` bytes from place `at` of a doubleword is above its lowest bit.
fn shift(at: u64, n: Size) -> u64
    requires { at + count_of n ≤ 8 }
    ensures { result ≡ 8 * (8 - count_of n - at) }
{
    8 * (8 - n.count() - at)
}

/// The `n` bytes from place `at` of a doubleword on.
pub fn part(doubleword: u64, at: u64, n: Size) -> u64
    requires { at + count_of n ≤ 8 }
    ensures bytes { (k : ℕ) → k < count_of n → byte_of result (count_of n) k ≡ byte_of doubleword 8 (at + k) }
    ensures fits { FitsIn n result }
{
    n.low(doubleword >> shift(at, n))
}

/// The doubleword with the `n` bytes of a value from place `at` on.
pub fn with_part(doubleword: u64, at: u64, n: Size, value: u64) -> u64
    requires { at + count_of n ≤ 8 }
    ensures { (j : ℕ) → j < 8 → byte_of result 8 j ≡ (if nat_le at j && nat_lt j (at + count_of n) then byte_of value (count_of n) (j - at) else byte_of doubleword 8 j) }
{
    let shift = shift(at, n);
    let old = n.low(doubleword >> shift);
    (doubleword - (old << shift)).wrapping_add(n.low(value) << shift)
}

/// The image's doubleword at a multiple of 8.
pub fn first_doubleword(image: &Image, start: u64) -> u64
    requires { start % 8 ≡ 0 }
    ensures { (k : ℕ) → k < 8 → byte_of result 8 k ≡ byte_at image.now (start + k) }
{
    u64::from_be_bytes([
        image.byte(Addr(start)),
        image.byte(Addr(start + 1)),
        image.byte(Addr(start + 2)),
        image.byte(Addr(start + 3)),
        image.byte(Addr(start + 4)),
        image.byte(Addr(start + 5)),
        image.byte(Addr(start + 6)),
        image.byte(Addr(start + 7)),
    ])
}
