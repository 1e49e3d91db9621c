// Bytes of memory in a row that may be used in the same way.
ghost use Rattle.std.specs.Prelude.{◌≡◌, ◌+◌, ◌≤◌, IsTrue, length};
ghost use Rattle.elf64_load.specs.Image.{content_at, word_at};
ghost use Rattle.elf64_load.specs.Layout.{has, runs, region_in};

use byteorder::{BigEndian, ByteOrder};

/// A segment: its first address, where its first contents begin among those of all, how many they are, and what may be
/// done with them. One of no bytes is no region.
#[derive(Clone, Copy, Debug, PartialEq, Eq)]
pub struct Segment {
    pub first: u64,
    pub start: u32,
    pub len: u32,
    pub may_read: bool,
    pub may_write: bool,
    pub may_run: bool,
}

impl Segment {
    /// Whether the `count` bytes from `addr` on all lie in the segment.
    pub fn has(&self, addr: u64, count: u64) -> bool
        ensures { result ≡ has addr count self.now }
    {
        let len = u64::from(self.len);
        self.first <= addr && count <= len && addr - self.first <= len - count
    }

    /// Whether instructions are fetched from it.
    pub fn is_text(&self) -> bool
        ensures { result ≡ runs self.now }
    {
        self.may_run && !self.may_write
    }

    /// The first content of a byte.
    pub fn content_at(&self, bytes: &[u8], addr: u64) -> u8
        requires held { IsTrue (has addr 1 self.now) }
        requires within { self.now.start + self.now.len ≤ length bytes.now }
        ensures { result ≡ content_at addr (region_in bytes.now self.now) }
    {
        bytes[self.place_of(addr)]
    }

    /// The first content of four bytes, as a big-endian number.
    pub fn word_at(&self, bytes: &[u8], addr: u64) -> u32
        requires held { IsTrue (has addr 4 self.now) }
        requires within { self.now.start + self.now.len ≤ length bytes.now }
        ensures { result ≡ word_at addr (region_in bytes.now self.now) }
    {
        let at = self.place_of(addr);
        BigEndian::read_u32(&bytes[at..])
    }

    // Where the byte at `addr` is among those of all segments.
    fn place_of(&self, addr: u64) -> usize
        requires { IsTrue (has addr 1 self.now) }
        ensures { result + self.now.first ≡ self.now.start + addr }
    {
        self.start as usize + (addr - self.first) as usize
    }
}
