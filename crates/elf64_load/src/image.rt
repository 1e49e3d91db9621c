// The memory that an executable starts with.
ghost use Rattle.std.specs.Prelude.{◌≡◌, ℕ};
ghost use Rattle.std.specs.List.{list_any};
ghost use Rattle.rsim_base.specs.Bytes.{count_of};
ghost use Rattle.elf64_load.specs.Image.{fetched, byte_at, holds, is_readable, is_writable};
ghost use Rattle.elf64_load.specs.Layout.{spans as spans_byte};

use crate::regions::Regions;
use crate::span::Span;
use crate::stacks::in_one_stack;
use rsim_base::{Addr, Size};
use std::marker::Model;

/// The memory that an executable starts with, and the address of its first instruction. Beside the
/// regions of the executable there are 64 stacks of zeros, which may be read and written: stack p is
/// the 65,536 bytes from 0x7F000000 + p * 65,536 on.
#[derive(Drop)]
pub struct Image {
    regions: Regions,
    entry: u64,
}

impl Model for Image {
    ghost use Rattle.elf64_load.specs.Image.{ImageView};

    ghost Value = { ImageView };

    ghost view = { λ image. record { regions = image.regions; entry = image.entry } };
}

impl Image {
    pub(crate) fn new(regions: Regions, entry: u64) -> Image
        ensures { result ≡ record { regions = regions; entry = entry } }
    {
        Image { regions, entry }
    }

    /// The address of the first instruction.
    pub fn entry(&self) -> u64
        ensures { result ≡ self.now.entry }
    {
        self.entry
    }

    /// The instruction word at `pc`: `None` exactly where `pc` is no multiple of 4, or its four bytes do
    /// not lie in one region that may be run and may not be written.
    pub fn fetch(&self, pc: u64) -> Option<u32>
        ensures { result ≡ fetched self.now pc }
    {
        if pc % 4 != 0 {
            return None;
        }
        self.regions.word_of_text(pc)
    }

    /// The addresses of the regions that have bytes, from the lowest up: a byte is in a span exactly where it is in a
    /// region. The stacks are not among them.
    pub fn spans(&self) -> &[Span]
        ensures { (a : ℕ) → list_any (λ s. spans_byte a s) result.now ≡ list_any (holds a 1) self.now.regions }
    {
        self.regions.spans()
    }

    /// The first content of a byte: 0 outside the regions.
    pub fn byte(&self, a: Addr) -> u8
        ensures { result ≡ byte_at self.now a.0 }
    {
        self.regions.content_at(a.0)
    }

    /// Whether all bytes of an access lie in one region or stack that may be read.
    pub fn may_read(&self, a: Addr, n: Size) -> bool
        ensures { result ≡ is_readable self.now a.0 (count_of n) }
    {
        let count = n.count();
        self.regions.has_readable(a.0, count) || in_one_stack(a.0, count)
    }

    /// Whether all bytes of an access lie in one region or stack that may be written.
    pub fn may_write(&self, a: Addr, n: Size) -> bool
        ensures { result ≡ is_writable self.now a.0 (count_of n) }
    {
        let count = n.count();
        self.regions.has_writable(a.0, count) || in_one_stack(a.0, count)
    }
}
