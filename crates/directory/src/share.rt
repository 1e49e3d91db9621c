// The lines of a home, as they are before any message.
ghost use Rattle.std.specs.Prelude.{◌≡◌, ℕ, ◌+◌, ◌*◌, ◌/◌, ◌%◌, ◌^◌, ◌<◌, ◌≤◌, ◌==◌, [], true, IfOk, OnOk};
ghost use Rattle.std.specs.List.{list_any};
ghost use Rattle.rsim_base.specs.Limits.{line_room};
ghost use Rattle.elf64_load.specs.Image.{byte_at, is_mapped};
ghost use Rattle.elf64_load.specs.Layout.{spans};
ghost use Rattle.machine_config.specs.Allowed.{IsAllowed};
ghost use Rattle.directory.specs.HomeParts.{has_line};
ghost use Rattle.directory.specs.Meanings.{record_of};
ghost use Rattle.directory.specs.Start.{AreFirst, IsFirst, IsMappedLine};

use crate::line_record::{LinePhase, LineRecord};
use crate::node_set::NodeSet;
use crate::records::Records;
use crate::word::LineBytes;
use elf64_load::{Image, Span};
use machine_config::Config;
use rsim_base::{Addr, LINE_ROOM, Line, NoMemory, Node, STACK_BYTES, STACK_COUNT, STACKS_START};
use std::alloc::Global;

const STACKS_BYTES: u32 = (STACK_COUNT * STACK_BYTES) as u32;

/// Which lines a home has: those whose number leaves this remainder.
#[derive(Clone, Copy)]
pub struct Share {
    pub line_bytes: u64,
    pub nodes: u64,
    pub home: Node,
    ghost some: { 1 < line_bytes },
    ghost few: { line_bytes ≤ line_room },
    ghost node: { 0 < nodes },
}

impl Share {
    ghost use Rattle.directory.specs.Fresh.{AreMore, IsFresh};

    /// The share of node `h`.
    pub fn of(config: &Config, h: Node) -> Share
        requires allowed { IsAllowed config.now }
        requires node { h.0 < config.now.processors }
        ensures line_bytes { result.line_bytes ≡ config.now.line }
        ensures nodes { result.nodes ≡ config.now.processors }
        ensures home { result.home ≡ h }
    {
        Share {
            line_bytes: u64::from(config.line),
            nodes: u64::from(config.processors),
            home: h,
        }
    }

    /// What is noted of the share's mapped lines: nobody has one, and their bytes are the image's.
    ///
    /// # Errors
    /// Where memory is short.
    pub fn records(&self, alloc: Global, image: &Image) -> Result<Records, NoMemory>
        ensures fresh { IfOk result (λ made. IsFresh image.now self.now made) }
        ensures there { IfOk result (λ made. (a : ℕ) → is_mapped image.now a ≡ true → a / self.now.line_bytes % self.now.nodes ≡ self.now.home.0 → has_line made (a / self.now.line_bytes) ≡ true) }
    {
        let mut records = Records::new(alloc);
        self.add_spans(&mut records, image, image.spans())?;
        self.add_range(&mut records, image, STACKS_START, STACKS_BYTES)?;
        Ok(records)
    }

    // Adds the lines of these spans.
    fn add_spans(
        &self,
        records: &mut Records,
        image: &Image,
        order: &[Span],
    ) -> Result<(), NoMemory>
        requires mapped { (a : ℕ) → list_any (λ s. spans a s) order.now ≡ true → is_mapped image.now a ≡ true }
        requires fresh { IsFresh image.now self.now records.old }
        ensures more { OnOk result (AreMore image.now self.now records.old records.new) }
        ensures there { OnOk result ((a : ℕ) → list_any (λ s. spans a s) order.now ≡ true → a / self.now.line_bytes % self.now.nodes ≡ self.now.home.0 → has_line records.new (a / self.now.line_bytes) ≡ true) }
    {
        for span in order {
            self.add_range(records, image, span.first, span.len)?;
        }
        Ok(())
    }

    // Adds the lines of `len` bytes from an address on.
    fn add_range(
        &self,
        records: &mut Records,
        image: &Image,
        first: u64,
        len: u32,
    ) -> Result<(), NoMemory>
        requires mapped { (a : ℕ) → first ≤ a → a < first + len → is_mapped image.now a ≡ true }
        requires fresh { IsFresh image.now self.now records.old }
        ensures more { OnOk result (AreMore image.now self.now records.old records.new) }
        ensures there { OnOk result ((a : ℕ) → first ≤ a → a < first + len → a / self.now.line_bytes % self.now.nodes ≡ self.now.home.0 → has_line records.new (a / self.now.line_bytes) ≡ true) }
    {
        if len == 0 {
            return Ok(());
        }
        let from = first / self.line_bytes;
        let span = first % self.line_bytes + u64::from(len);
        let until = from + span.div_ceil(self.line_bytes);
        self.add_lines(records, image, from, until)?;
        Ok(())
    }

    // Adds the lines from one number on, up to another.
    fn add_lines(
        &self,
        records: &mut Records,
        image: &Image,
        from: u64,
        until: u64,
    ) -> Result<(), NoMemory>
        requires mapped { (l : ℕ) → from ≤ l → l < until → IsMappedLine image.now self.now.line_bytes l }
        requires fresh { IsFresh image.now self.now records.old }
        ensures more { OnOk result (AreMore image.now self.now records.old records.new) }
        ensures there { OnOk result ((l : ℕ) → from ≤ l → l < until → l % self.now.nodes ≡ self.now.home.0 → has_line records.new l ≡ true) }
    {
        for number in from..until {
            self.add_line(records, image, number)?;
        }
        Ok(())
    }

    // Whether the line of this number is the home's.
    fn has(&self, number: u64) -> bool
        ensures { result ≡ (number % self.now.nodes == self.now.home.0) }
    {
        number % self.nodes == u64::from(self.home.0)
    }

    // Adds the line of this number, if it is the home's.
    fn add_line(&self, records: &mut Records, image: &Image, number: u64) -> Result<(), NoMemory>
        requires mapped { IsMappedLine image.now self.now.line_bytes number }
        requires fresh { IsFresh image.now self.now records.old }
        ensures more { OnOk result (AreMore image.now self.now records.old records.new) }
        ensures there { OnOk result (number % self.now.nodes ≡ self.now.home.0 → has_line records.new number ≡ true) }
    {
        if !self.has(number) {
            return Ok(());
        }
        records.add(Line(number), self.first_record(image, number))?;
        Ok(())
    }

    // What is noted of a line that nobody has.
    fn first_record(&self, image: &Image, number: u64) -> LineRecord
        ensures { IsFirst image.now self.now.line_bytes number (record_of result) }
    {
        LineRecord {
            phase: LinePhase::Idle,
            owner: None,
            sharers: NodeSet::empty(),
            memory: self.first_bytes(image, number),
        }
    }

    // The image's bytes of a line.
    fn first_bytes(&self, image: &Image, number: u64) -> LineBytes
        ensures { AreFirst image.now self.now.line_bytes number result }
    {
        let mut bytes = [0; LINE_ROOM];
        for place in 0..self.line_bytes {
            bytes[place as usize] = self.byte(image, number, place);
        }
        bytes
    }

    // The image's byte at a place of a line.
    fn byte(&self, image: &Image, number: u64, place: u64) -> u8
        ensures { number * self.now.line_bytes + place < 2 ^ 64 → result ≡ byte_at image.now (number * self.now.line_bytes + place) }
    {
        let start = number.wrapping_mul(self.line_bytes);
        image.byte(Addr(start.wrapping_add(place)))
    }
}
