// Where the line of each access stands, by its processor and number.
ghost use Rattle.std.specs.Prelude.{◌≡◌, ℕ, ◌+◌, ◌<◌, ◌≤◌, ◌==◌, ◌⊎◌, nat_lt, if◌then◌else◌, None, Some, is_some, true, IfOk, OnOk, IfErr, length, slice_get};
ghost use Rattle.rsim_base.specs.Limits.{max_steps};
ghost use Rattle.order_checker.specs.Faults.{stray};
ghost use Rattle.order_checker.specs.Firsts.{first};
ghost use Rattle.order_checker.specs.Outcomes.{IsFault};
ghost use Rattle.order_checker.specs.Tables.{AreTables, IsNoted, is_stray};

use crate::verdict::Rejected;
use rsim_base::{Access, NoMemory};
use std::alloc::Global;
use std::collections::HashMap;

// No place: a line's place is below 8,000,000.
const NO_PLACE: u32 = u32::MAX;

/// The line of the file of a place: four lines of heading come before, of which lines count from 1.
pub const FIRST_LINE: u32 = 4;

/// Where the lines of one processor's accesses stand, by their numbers. In an honest order every number is below the
/// number of lines; others are kept beside.
#[derive(Drop)]
pub struct Table {
    near: Vec<u32>,
    far: HashMap<u32, u32>,
}

impl Table {
    ghost use Rattle.order_checker.specs.Tables.{place_in};

    // A table of no line, with room for the first so many numbers.
    fn new(alloc: Global, room: usize) -> Result<Table, NoMemory>
        ensures { IfOk result (λ t. (i : ℕ) → place_in t i ≡ None) }
    {
        let Ok(near) = vec![in alloc; NO_PLACE; room] else {
            return Err(NoMemory);
        };
        Ok(Table {
            near,
            far: HashMap::new(alloc),
        })
    }

    /// Where the line of the access of this number stands.
    pub fn find(&self, index: u32) -> Option<u32>
        ensures { result ≡ place_in self.now index }
    {
        if (index as usize) < self.near.len() {
            known(self.near[index as usize])
        } else {
            self.far.get(&index).copied()
        }
    }

    // Keeps where a line stands, the first of its access.
    fn put_first(&mut self, index: u32, place: u32) -> Result<(), Rejected>
        requires { place < max_steps }
        ensures fresh { OnOk result (place_in self.old index ≡ None) }
        ensures put { OnOk result ((i : ℕ) → place_in self.new i ≡ (if index == i then Some place else place_in self.old i)) }
        ensures fault { IfErr result (λ r. (r ≡ Rejected.Memory) ⊎ ((r ≡ Rejected.Foreign (place + 4)) × (is_some (place_in self.old index) ≡ true))) }
    {
        if self.find(index).is_some() {
            return Err(Rejected::Foreign(place + FIRST_LINE));
        }
        Ok(self.put(index, place)?)
    }

    // Keeps where a line stands.
    fn put(&mut self, index: u32, place: u32) -> Result<(), NoMemory>
        requires { place < 4294967295 }
        ensures { OnOk result ((i : ℕ) → place_in self.new i ≡ (if index == i then Some place else place_in self.old i)) }
    {
        if (index as usize) < self.near.len() {
            self.near[index as usize] = place;
            return Ok(());
        }
        match self.far.insert(index, place) {
            Ok(_) => Ok(()),
            Err(_) => Err(NoMemory),
        }
    }
}

fn known(place: u32) -> Option<u32>
    ensures { result ≡ (if place == 4294967295 then None else Some place) }
{
    if place == NO_PLACE { None } else { Some(place) }
}

/// By processor, where the lines of its accesses stand.
///
/// # Errors
/// The first line of no processor, or of an access that an earlier line is of; `Memory`.
pub fn find_places(alloc: Global, lines: &[Access], processors: u8) -> Result<Vec<Table>, Rejected>
    requires { length lines.now ≤ max_steps }
    ensures tables { IfOk result (λ tables. AreTables lines.now processors (length lines.now) tables.items) }
    ensures none { OnOk result (first (stray processors lines.now) (length lines.now) ≡ None) }
    ensures fault { IfErr result (IsFault (first (stray processors lines.now) (length lines.now))) }
{
    let mut tables = empty_tables(alloc, lines, processors)?;
    for (place, line) in lines.iter().enumerate() {
        note_line(&mut tables, line, place as u32)?;
    }
    Ok(tables)
}

// A table of no line for each processor, with room for its lines.
fn empty_tables(alloc: Global, lines: &[Access], processors: u8) -> Result<Vec<Table>, NoMemory>
    ensures { IfOk result (λ tables. AreTables lines.now processors 0 tables.items) }
{
    let mut tables = Vec::new(alloc);
    for p in 0..processors {
        let table = Table::new(alloc, count_lines(lines, p))?;
        tables.push(table).map_err(|_| NoMemory)?;
    }
    Ok(tables)
}

// How many lines are of a processor.
fn count_lines(lines: &[Access], p: u8) -> usize {
    lines.iter().filter(|line| line.node.0 == p).count()
}

// Notes where a line stands in the table of its processor.
fn note_line(tables: &mut Vec<Table>, line: &Access, place: u32) -> Result<(), Rejected>
    requires { place < max_steps }
    ensures noted { OnOk result (IsNoted line.now place tables.old.items tables.new.items) }
    ensures fault { IfErr result (λ r. (r ≡ Rejected.Memory) ⊎ ((r ≡ Rejected.Foreign (place + 4)) × (is_stray line.now tables.old.items ≡ true))) }
{
    let p = line.node.0 as usize;
    if p >= tables.len() {
        return Err(Rejected::Foreign(place + FIRST_LINE));
    }
    tables[p].put_first(line.index, place)
}
