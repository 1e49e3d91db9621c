// Bytes that a store writes into a line.
ghost use Rattle.std.specs.Prelude.{◌≡◌, ◌+◌, ◌≤◌};
ghost use Rattle.rsim_base.specs.Bytes.{count_of};
ghost use Rattle.rsim_base.specs.Limits.{line_room};
ghost use Rattle.cache_levels.specs.Bytes.{written_at};

use rsim_base::{LINE_ROOM, Size, cut};

/// Writes the bytes of a value into a line, the first of them at place `at`.
pub(crate) fn put(bytes: &mut [u8; LINE_ROOM], at: usize, n: Size, v: u64)
    requires { at + count_of n ≤ line_room }
    ensures { bytes.new ≡ written_at at n v bytes.old }
{
    for b in 0..n.count() as usize {
        bytes[at + b] = cut(v, n, b as u64);
    }
}
