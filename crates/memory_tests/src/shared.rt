// A shared memory of any kind with lines of 64 bytes, and a small executable whose memory it has.
ghost use Rattle.std.specs.Prelude.{◌≡◌, ℕ, ◌<◌, ◌≤◌};
ghost use Rattle.elf64_load.specs.Image.{is_mapped};

use elf64_load::Image;
use memory_contracts::{CoherentStore, LostList};
use rsim_base::{Addr, Line, Node, Size};
use std::alloc::{AllocError, Global};
use std::process::Abort;

const TEXT: u64 = 0x10_0000;

/// 20 bytes: the last doubleword and the last line are not whole.
pub const DATA: u64 = 0x10_0080;

/// A memory, and the image that it began with.
#[derive(Drop)]
pub struct Shared<S: CoherentStore> {
    pub image: Image,
    pub store: S,
    pub nodes: u32,
    pub ticks: u8,
    ghost count: { (S.meaning store).nodes ≡ nodes },
    ghost line: { (S.meaning store).line_bytes ≡ 64 },
    ghost mapped: { (a : ℕ) → (S.meaning store).mapped a ≡ is_mapped image a },
    ghost few: { (S.meaning store).ticks ≤ ticks },
}

// A program header of a segment in the file and in memory.
fn append_header(
    file: &mut Vec<u8>,
    flags: u32,
    offset: u64,
    vaddr: u64,
    size: u64,
) -> Result<(), AllocError> {
    file.extend_from_slice(&1u32.to_be_bytes())?;
    file.extend_from_slice(&flags.to_be_bytes())?;
    for word in [offset, vaddr, 0, size, size, 0] {
        file.extend_from_slice(&word.to_be_bytes())?;
    }
    Ok(())
}

/// An executable: two words of text, and 20 bytes of data from 1 up.
pub fn executable(alloc: Global) -> Result<Vec<u8>, AllocError> {
    let mut file = Vec::new(alloc);
    // e_ident, e_type, e_machine and e_version
    file.extend_from_slice(b"\x7FELF\x02\x02\x01\0\0\0\0\0\0\0\0\0\0\x02\0\x2B\0\0\0\x01")?;
    // e_entry, e_phoff, e_shoff
    for word in [TEXT, 64, 0] {
        file.extend_from_slice(&word.to_be_bytes())?;
    }
    // e_flags, e_ehsize, e_phentsize, e_phnum and the section headers
    file.extend_from_slice(&[0, 0, 0, 0, 0, 64, 0, 56, 0, 2, 0, 0, 0, 0, 0, 0])?;
    append_header(&mut file, 5, 176, TEXT, 8)?;
    append_header(&mut file, 6, 184, DATA, 20)?;
    file.extend_from_slice(&[0; 8])?;
    file.extend_from_slice(&[
        1, 2, 3, 4, 5, 6, 7, 8, 9, 10, 11, 12, 13, 14, 15, 16, 17, 18, 19, 20,
    ])?;
    Ok(file)
}

impl<S: CoherentStore> Shared<S> {
    pub fn read(&mut self, rt: &impl Abort, p: u8, a: u64, n: Size) -> Option<u64> {
        assert!(rt; u32::from(p) < self.nodes);
        assert!(rt; a % n.count() == 0);
        assert!(rt; self.image.may_read(Addr(a), n));
        self.store.read(Node(p), Addr(a), n)
    }

    pub fn write(&mut self, rt: &impl Abort, p: u8, a: u64, n: Size, v: u64) -> bool {
        assert!(rt; u32::from(p) < self.nodes);
        assert!(rt; a % n.count() == 0);
        assert!(rt; self.image.may_read(Addr(a), n));
        self.store.write(Node(p), Addr(a), n, v)
    }

    /// A wish for the line of a byte.
    pub fn wish(&mut self, rt: &impl Abort, p: u8, a: u64, own: bool) -> bool {
        assert!(rt; u32::from(p) < self.nodes);
        assert!(rt; self.image.may_read(Addr(a), Size::B1));
        self.store.wish(Node(p), Line(a / 64), own)
    }

    pub fn tick(&mut self, rt: &impl Abort, lost: &mut LostList) {
        assert!(rt; self.ticks < 255);
        self.store.tick(lost);
        self.ticks += 1;
    }

    /// Whether the line of a byte is near, and whether it is owned.
    pub fn states(&self, rt: &impl Abort, p: u8, a: u64) -> (bool, bool) {
        assert!(rt; u32::from(p) < self.nodes);
        let line = Line(a / 64);
        (
            self.store.is_near(Node(p), line),
            self.store.is_owned(Node(p), line),
        )
    }
}
