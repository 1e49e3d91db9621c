// Program headers of an ELF64 file (System V ABI, chapter 5).
ghost use Rattle.std.specs.Prelude.{◌≡◌, ◌+◌, ◌-◌, ◌/◌, ◌<◌, ◌≤◌, ◌^◌, length};
ghost use Rattle.elf64_load.specs.Elf as Elf;
ghost use Rattle.elf64_load.specs.Elf.{header_at, is_load, is_interp, meets_stacks, share_block, has_text};
ghost use Rattle.elf64_load.specs.Faults.{segment_fault};
ghost use Rattle.elf64_load.specs.Layout.{size_of, segment_of};

use crate::fault::ElfFault;
use crate::segment::Segment;
use crate::span::Span;
use crate::stacks::STACKS_END;
use byteorder::{BigEndian, ByteOrder};
use rsim_base::STACKS_START;

/// How many bytes a program header has.
pub const HEADER_BYTES: usize = 56;

/// How many bytes an aligned block of memory has that no two segments share.
pub const BLOCK_BYTES: u128 = 128;

// How many addresses there are.
const ADDRESSES: u128 = 1 << 64;

/// A program header: which bytes of the file a part of memory begins with.
#[derive(Clone, Copy, Debug, PartialEq, Eq)]
pub struct ProgramHeader {
    pub kind: u32,
    pub flags: u32,
    pub offset: u64,
    pub vaddr: u64,
    pub filesz: u64,
    pub memsz: u64,
}

impl ProgramHeader {
    /// The header in the 56 bytes at a place of the file.
    pub fn read(file: &[u8], at: usize) -> ProgramHeader
        requires { at + 56 ≤ length file.now }
        ensures { result ≡ header_at at file.now }
    {
        ProgramHeader {
            kind: BigEndian::read_u32(&file[at..]),
            flags: BigEndian::read_u32(&file[at + 4..]),
            offset: BigEndian::read_u64(&file[at + 8..]),
            vaddr: BigEndian::read_u64(&file[at + 16..]),
            filesz: BigEndian::read_u64(&file[at + 32..]),
            memsz: BigEndian::read_u64(&file[at + 40..]),
        }
    }

    /// Whether it is a segment of memory.
    pub fn is_load(&self) -> bool
        ensures { result ≡ is_load self.now }
    {
        self.kind == 1
    }

    /// Whether it asks for a dynamic linker.
    pub fn is_interp(&self) -> bool
        ensures { result ≡ is_interp self.now }
    {
        self.kind == 3
    }

    /// How many bytes of memory it takes.
    pub fn size(&self) -> u64
        ensures { result ≡ size_of self.now }
    {
        if self.is_load() { self.memsz } else { 0 }
    }

    /// What is wrong with segment `place` of a file of `size` bytes by itself.
    pub fn fault(&self, place: u32, size: u64) -> Option<ElfFault>
        ensures { result ≡ segment_fault size place self.now }
    {
        if u128::from(self.offset) + u128::from(self.filesz) > u128::from(size) {
            return Some(ElfFault::SegmentPastEnd(place));
        }
        if self.filesz > self.memsz {
            return Some(ElfFault::SegmentShort(place));
        }
        if self.end() > ADDRESSES {
            return Some(ElfFault::SegmentWraps(place));
        }
        None
    }

    /// Whether it is a segment with a byte in a stack.
    pub fn meets_stacks(&self) -> bool
        ensures { result ≡ meets_stacks self.now }
    {
        self.is_load()
            && self.memsz > 0
            && self.vaddr < STACKS_END
            && u128::from(STACKS_START) < self.end()
    }

    /// Whether both are segments, with bytes in one aligned block.
    pub fn shares_block(&self, other: &ProgramHeader) -> bool
        ensures { result ≡ share_block self.now other.now }
    {
        self.is_load()
            && other.is_load()
            && self.memsz > 0
            && other.memsz > 0
            && self.first_block() <= other.last_block()
            && other.first_block() <= self.last_block()
    }

    /// Whether instructions are fetched from it.
    pub fn has_text(&self) -> bool
        ensures { result ≡ has_text self.now }
    {
        self.is_load() && self.may_run() && !self.may_write() && self.memsz > 0
    }

    /// Its segment, with the bytes from `start` on.
    pub fn segment(&self, start: u32) -> Segment
        requires { size_of self.now < 2 ^ 32 }
        ensures { result ≡ segment_of start self.now }
    {
        Segment {
            first: self.vaddr,
            start,
            len: self.size() as u32,
            may_read: self.flags / 4 % 2 == 1,
            may_write: self.may_write(),
            may_run: self.may_run(),
        }
    }

    /// Its span, as that of segment `place`.
    pub fn span(&self, place: u32) -> Span
        requires { size_of self.now < 2 ^ 32 }
        ensures { result ≡ record { first = self.now.vaddr; len = size_of self.now; place = place } }
    {
        Span {
            first: self.vaddr,
            len: self.size() as u32,
            place,
        }
    }

    fn may_run(&self) -> bool
        ensures { result ≡ Elf.may_run self.now }
    {
        self.flags % 2 == 1
    }

    fn may_write(&self) -> bool
        ensures { result ≡ Elf.may_write self.now }
    {
        self.flags / 2 % 2 == 1
    }

    fn first_block(&self) -> u128
        ensures { result ≡ self.now.vaddr / 128 }
    {
        u128::from(self.vaddr) / BLOCK_BYTES
    }

    fn last_block(&self) -> u128
        ensures { result ≡ (self.now.vaddr + self.now.memsz - 1) / 128 }
    {
        self.end().saturating_sub(1) / BLOCK_BYTES
    }

    // The address behind its last byte.
    fn end(&self) -> u128
        ensures { result ≡ self.now.vaddr + self.now.memsz }
    {
        u128::from(self.vaddr) + u128::from(self.memsz)
    }
}
