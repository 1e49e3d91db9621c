// A table of lines: a fixed number of places, each free or taken by a line with a value.
ghost use Rattle.std.specs.Prelude.{◌≡◌, ◌==◌, IfOk, OnOk, OnErr, IfSome, IfNone, None, is_some, is_err, option_copied, if◌then◌else◌};
ghost use Rattle.std.specs.FinMap as finite;
ghost use Rattle.miss_registers.specs.LineMap.{HasLineAt, LacksLine};

use rsim_base::{Line, NoMemory, NoneFree};
use slab::Slab;
use std::alloc::Global;
use std::marker::Model;

/// Lines with a value each, in a number of places that is fixed when the table is made.
#[derive(Drop)]
pub struct LineTable<T> {
    entries: Slab<Entry<T>>,
    places: u32,
}

#[derive(Drop)]
struct Entry<T> {
    line: Line,
    value: T,
}

impl<T> Model for LineTable<T> {
    ghost use Rattle.miss_registers.specs.LineMap.{Table, table_code, lines_of, IsSound};

    ghost Value = { Table T };

    ghost coded = { table_code T.code };

    ghost view = { λ t. record { places = t.places; lines = lines_of t.entries } };

    ghost invariant = { λ t. IsSound t.entries t.places };
}

impl<T: Drop> LineTable<T> {
    /// An empty table. No other call takes memory.
    ///
    /// # Errors
    /// `NoMemory` where there is no memory for so many places.
    pub fn make(alloc: Global, places: u32) -> Result<LineTable<T>, NoMemory>
        ensures { IfOk result (λ t. t ≡ record { places = places; lines = finite.empty }) }
    {
        let entries = Slab::with_capacity(alloc, places as usize).map_err(|_| NoMemory)?;
        Ok(LineTable { entries, places })
    }

    /// Whether every place is taken.
    pub fn is_full(&self) -> bool
        ensures { result ≡ (finite.len self.now.lines == self.now.places) }
    {
        self.entries.len() == self.places as usize
    }

    /// The value of a line that has a place.
    pub fn get(&self, line: Line) -> Option<&T>
        ensures { option_copied result ≡ finite.get self.now.lines line.0 }
    {
        let key = find(&self.entries, line)?;
        Some(&self.entries[key].value)
    }

    /// Gives a line that has no place a free one, with this value.
    ///
    /// # Errors
    /// `NoneFree` where every place is taken. The table is then as before.
    pub fn insert(&mut self, line: Line, value: T) -> Result<(), NoneFree>
        requires { finite.get self.old.lines line.0 ≡ None }
        ensures full { is_err result ≡ (finite.len self.old.lines == self.old.places) }
        ensures ok { OnOk result (self.new ≡ record self.old { lines = finite.insert self.old.lines line.0 value }) }
        ensures err { OnErr result (self.new ≡ self.old) }
    {
        if self.entries.len() == self.places as usize {
            return Err(NoneFree);
        }
        self.entries.insert_reserved(Entry { line, value });
        Ok(())
    }

    /// Sets the value of a line. False where the line has no place, and then nothing changes.
    pub fn set(&mut self, line: Line, value: T) -> bool
        ensures found { result ≡ is_some (finite.get self.old.lines line.0) }
        ensures after { self.new ≡ record self.old { lines = if result then finite.insert self.old.lines line.0 value else self.old.lines } }
    {
        match find(&self.entries, line) {
            Some(key) => {
                self.entries[key].value = value;
                true
            }
            None => false,
        }
    }

    /// Frees the place of a line. False where the line has none, and then nothing changes.
    pub fn remove(&mut self, line: Line) -> bool
        ensures found { result ≡ is_some (finite.get self.old.lines line.0) }
        ensures after { self.new ≡ record self.old { lines = finite.remove self.old.lines line.0 } }
    {
        match find(&self.entries, line) {
            Some(key) => {
                self.entries.remove(key);
                true
            }
            None => false,
        }
    }
}

// The key of the entry of a line.
fn find<T>(entries: &Slab<Entry<T>>, line: Line) -> Option<usize>
    ensures found { IfSome result (HasLineAt entries.now line.0) }
    ensures absent { IfNone result (LacksLine entries.now line.0) }
{
    for (key, entry) in entries.iter() {
        if entry.line == line {
            return Some(key);
        }
    }
    None
}
