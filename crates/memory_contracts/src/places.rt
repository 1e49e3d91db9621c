// The memory of an image, and its lines.
ghost use Rattle.std.specs.Prelude.{◌≡◌, ℕ, ◌+◌, ◌/◌, ◌<◌, ◌≤◌, IfOk, OnOk, true};
ghost use Rattle.std.specs.List.{list_any};
ghost use Rattle.elf64_load.specs.Image.{is_mapped};
ghost use Rattle.elf64_load.specs.Layout.{spans};
ghost use Rattle.memory_contracts.specs.Parts.{AreFresh, AreMore, has_place};

use crate::memory::Memory;
use crate::owners::Owners;
use elf64_load::{Image, Span};
use rsim_base::{Line, NoMemory, STACK_BYTES, STACK_COUNT, STACKS_START};
use std::alloc::Global;

const STACKS_BYTES: u32 = (STACK_COUNT * STACK_BYTES) as u32;

/// The memory of an image, and its lines, of `per_line` doublewords each: no node has one.
///
/// # Errors
/// Where memory is short.
pub fn make_places(
    alloc: Global,
    image: &Image,
    per_line: u64,
) -> Result<(Memory, Owners), NoMemory>
    requires { 0 < per_line }
    ensures fresh { IfOk result (λ made. AreFresh image.now made.0 made.1) }
    ensures there { IfOk result (λ made. (a : ℕ) → is_mapped image.now a ≡ true → has_place made.0 made.1 per_line (a / 8) ≡ true) }
{
    let mut memory = Memory::new(alloc);
    let mut owners = Owners::new(alloc);
    add_spans(&mut memory, &mut owners, image, per_line, image.spans())?;
    add_range(
        &mut memory,
        &mut owners,
        image,
        per_line,
        STACKS_START,
        STACKS_BYTES,
    )?;
    Ok((memory, owners))
}

// Adds the places of these spans.
fn add_spans(
    memory: &mut Memory,
    owners: &mut Owners,
    image: &Image,
    per_line: u64,
    order: &[Span],
) -> Result<(), NoMemory>
    requires line { 0 < per_line }
    requires fresh { AreFresh image.now memory.old owners.old }
    ensures more { OnOk result (AreMore image.now per_line memory.old owners.old memory.new owners.new) }
    ensures there { OnOk result ((a : ℕ) → list_any (λ s. spans a s) order.now ≡ true → has_place memory.new owners.new per_line (a / 8) ≡ true) }
{
    for span in order {
        add_range(memory, owners, image, per_line, span.first, span.len)?;
    }
    Ok(())
}

// Adds the places of `len` bytes from an address on.
fn add_range(
    memory: &mut Memory,
    owners: &mut Owners,
    image: &Image,
    per_line: u64,
    first: u64,
    len: u32,
) -> Result<(), NoMemory>
    requires line { 0 < per_line }
    requires fresh { AreFresh image.now memory.old owners.old }
    ensures more { OnOk result (AreMore image.now per_line memory.old owners.old memory.new owners.new) }
    ensures there { OnOk result ((a : ℕ) → first ≤ a → a < first + len → has_place memory.new owners.new per_line (a / 8) ≡ true) }
{
    let from = first / 8;
    let until = from + (first % 8 + u64::from(len) + 7) / 8;
    for number in from..until {
        add_doubleword(memory, owners, image, per_line, number)?;
    }
    Ok(())
}

// Adds the doubleword of a number, and its line.
fn add_doubleword(
    memory: &mut Memory,
    owners: &mut Owners,
    image: &Image,
    per_line: u64,
    number: u64,
) -> Result<(), NoMemory>
    requires line { 0 < per_line }
    requires fresh { AreFresh image.now memory.old owners.old }
    ensures more { OnOk result (AreMore image.now per_line memory.old owners.old memory.new owners.new) }
    ensures there { OnOk result (has_place memory.new owners.new per_line number ≡ true) }
{
    memory.add(image, number)?;
    owners.add(Line(number / per_line))?;
    Ok(())
}
