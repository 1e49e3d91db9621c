// Which addresses a segment has.
ghost use Rattle.std.specs.Prelude.{◌≡◌, ◌+◌, ◌-◌, ◌/◌, ◌<◌, ◌^◌};
ghost use Rattle.elf64_load.specs.Layout.{spans};

use crate::header::BLOCK_BYTES;

/// The addresses of a segment's bytes, and its place in the table.
#[derive(Clone, Copy, Debug, PartialEq, Eq)]
pub struct Span {
    pub first: u64,
    pub len: u32,
    pub place: u32,
}

impl Span {
    /// Whether the byte at `addr` is in the span.
    pub fn has(&self, addr: u64) -> bool
        ensures { result ≡ spans addr self.now }
    {
        self.first <= addr && addr - self.first < u64::from(self.len)
    }

    /// The block with the first byte.
    pub fn first_block(&self) -> u128
        ensures { result ≡ self.now.first / 128 }
    {
        u128::from(self.first) / BLOCK_BYTES
    }

    /// The block with the last byte.
    pub fn last_block(&self) -> u128
        ensures value { result ≡ (self.now.first + self.now.len - 1) / 128 }
        ensures small { result < 2 ^ 64 }
    {
        let end = u128::from(self.first) + u128::from(self.len);
        end.saturating_sub(1) / BLOCK_BYTES
    }
}
