// Values in the bytes of a line.
ghost use Rattle.std.specs.Prelude.{◌≡◌, ◌+◌, ◌<◌, ◌≤◌, slice_index};
ghost use Rattle.rsim_base.specs.Bytes.{count_of};
ghost use Rattle.rsim_base.specs.Limits.{line_room};
ghost use Rattle.memory_contracts.specs.Store.{value_at};

use crate::word::LineBytes;
use rsim_base::Size;

/// The value of `n` bytes from a place on.
pub fn value_of(bytes: &LineBytes, at: usize, n: Size) -> u64
    requires { at + count_of n ≤ line_room }
    ensures { result ≡ value_at (slice_index bytes.now) at (count_of n) }
{
    match n {
        Size::B1 => u64::from(bytes[at]),
        Size::B2 => pair(bytes, at),
        Size::B4 => four(bytes, at),
        Size::B8 => four(bytes, at) * 4294967296 + four(bytes, at + 4),
    }
}

// Two bytes, the first the higher.
fn pair(bytes: &LineBytes, at: usize) -> u64
    requires { at + 2 ≤ line_room }
    ensures value { result ≡ value_at (slice_index bytes.now) at 2 }
    ensures small { result < 65536 }
{
    u64::from(bytes[at]) * 256 + u64::from(bytes[at + 1])
}

// Four bytes, the first the highest.
fn four(bytes: &LineBytes, at: usize) -> u64
    requires { at + 4 ≤ line_room }
    ensures value { result ≡ value_at (slice_index bytes.now) at 4 }
    ensures small { result < 4294967296 }
{
    pair(bytes, at) * 65536 + pair(bytes, at + 2)
}
