// The regions of an executable.
ghost use Rattle.std.specs.Prelude.{◌≡◌, ℕ, ◌≤◌, ◌<◌, ◌&&◌, IfOk, None, filter, length, map, nat_lt, option_map, sum_by, unwrap_or};
ghost use Rattle.std.specs.List.{All, find, list_any};
ghost use Rattle.std.specs.Option.{option_copied};
ghost use Rattle.elf64_load.specs.Elf.{is_load, region_of};
ghost use Rattle.elf64_load.specs.Faults.{shared};
ghost use Rattle.elf64_load.specs.Image.{content_at, holds, is_text, word_at};
ghost use Rattle.elf64_load.specs.Layout.{AreApart, AreInOrder, IsInFile, has, runs, size_of, spans as spans_byte, spans_of_headers, spans_of_segments};

use crate::header::ProgramHeader;
use crate::layout::lay_out;
use crate::search::{holder, span_at};
use crate::segment::Segment;
use crate::span::Span;
use std::alloc::{AllocError, Global};
use std::marker::Model;

/// The regions in the order of the executable's table: the first contents of all, one behind the other, the segments,
/// and the spans of those that have bytes, from the lowest address up.
#[derive(Drop)]
pub struct Regions {
    bytes: Vec<u8>,
    segments: Vec<Segment>,
    order: Vec<Span>,
    // The place of the text that is tried first.
    likely: usize,
}

impl Model for Regions {
    ghost use Rattle.std.specs.Prelude.{List};
    ghost use Rattle.elf64_load.specs.Image.{RegionView};

    ghost Value = { List RegionView };

    ghost use Rattle.elf64_load.specs.Layout.{AreKept, regions_in};

    ghost view = { λ r. regions_in r.bytes.items r.segments.items };

    // No byte is in two regions, and the order is that of their addresses.
    ghost invariant = { λ r. AreKept r.bytes.items r.segments.items r.order.items };
}

impl Regions {
    /// The regions of a file whose program headers have no fault, with the text at `entry` tried first.
    pub fn load(
        alloc: Global,
        file: &[u8],
        headers: &[ProgramHeader],
        order: Vec<Span>,
        mapped: usize,
        entry: u64,
    ) -> Result<Regions, AllocError>
        requires bytes { All (IsInFile (length file.now)) headers.now }
        requires mapped { mapped ≡ sum_by size_of headers.now }
        requires small { mapped ≤ 16777216 }
        requires order { AreInOrder (spans_of_headers headers.now) order.items }
        requires apart { shared 0 headers.now ≡ None }
        ensures { IfOk result (λ regions. regions ≡ map (region_of file.now) (filter (λ h. nat_lt 0 h.memsz) (filter is_load headers.now))) }
    {
        let (bytes, segments) = lay_out(alloc, file, headers, mapped)?;
        let likely = span_at(&order, entry).map_or(0, |span| span.place as usize);
        Ok(Regions {
            bytes,
            segments,
            order,
            likely,
        })
    }

    /// The addresses of the regions that have bytes, from the lowest up.
    pub fn spans(&self) -> &[Span]
        ensures { (a : ℕ) → list_any (λ s. spans_byte a s) result.now ≡ list_any (holds a 1) self.now }
    {
        &self.order
    }

    /// The instruction word at `pc`, if a region of text has its four bytes.
    pub fn word_of_text(&self, pc: u64) -> Option<u32>
        ensures { result ≡ option_map (word_at pc) (find (λ r. is_text r && holds pc 4 r) self.now) }
    {
        let text = text_at(&self.segments, &self.order, self.likely, pc)?;
        Some(text.word_at(&self.bytes, pc))
    }

    /// The first content of a byte: 0 outside the regions.
    pub fn content_at(&self, addr: u64) -> u8
        ensures { result ≡ unwrap_or (option_map (content_at addr) (find (holds addr 1) self.now)) 0 }
    {
        match holder(&self.segments, &self.order, addr, 1) {
            Some(segment) => segment.content_at(&self.bytes, addr),
            None => 0,
        }
    }

    /// Whether the `count` bytes from `addr` on all lie in one region that may be read.
    pub fn has_readable(&self, addr: u64, count: u64) -> bool
        requires { 0 < count }
        ensures { result ≡ list_any (λ r. r.may_read && holds addr count r) self.now }
    {
        holder(&self.segments, &self.order, addr, count).is_some_and(|segment| segment.may_read)
    }

    /// The same for a region that may be written.
    pub fn has_writable(&self, addr: u64, count: u64) -> bool
        requires { 0 < count }
        ensures { result ≡ list_any (λ r. r.may_write && holds addr count r) self.now }
    {
        holder(&self.segments, &self.order, addr, count).is_some_and(|segment| segment.may_write)
    }
}

// The text that the four bytes at `pc` all lie in. The likely one is tried first.
fn text_at<'a>(
    segments: &'a [Segment],
    order: &[Span],
    likely: usize,
    pc: u64,
) -> Option<&'a Segment>
    requires { AreApart (spans_of_segments segments.now) order.now }
    ensures { option_copied result ≡ find (λ s. runs s && has pc 4 s) segments.now }
{
    if let Some(segment) = segments.get(likely)
        && segment.is_text()
        && segment.has(pc, 4)
    {
        return Some(segment);
    }
    let segment = holder(segments, order, pc, 4)?;
    segment.is_text().then_some(segment)
}
