// What a home notes of its lines.
ghost use Rattle.std.specs.Prelude.{◌≡◌, [], OnOk, true};
ghost use Rattle.directory.specs.Meanings.{record_of};

use crate::line_record::LineRecord;
use rsim_base::{Line, NoMemory};
use std::alloc::Global;
use std::collections::HashMap;

/// What is noted of each line of a home, by the line's number.
#[derive(Drop)]
pub struct Records {
    lines: HashMap<u64, LineRecord>,
}

impl Records {
    ghost use Rattle.memory_contracts.specs.Updates.{with_at};
    ghost use Rattle.directory.specs.HomeParts.{has_line, records_in};

    /// No lines.
    pub fn new(alloc: Global) -> Records
        ensures { result.lines.entries ≡ [] }
    {
        Records {
            lines: HashMap::new(alloc),
        }
    }

    /// Adds a line, or notes something else of it.
    ///
    /// # Errors
    /// Where memory is short.
    pub fn add(&mut self, line: Line, noted: LineRecord) -> Result<(), NoMemory>
        ensures lines { OnOk result (has_line self.new ≡ with_at (has_line self.old) line.0 true) }
        ensures noted { OnOk result (records_in self.new ≡ with_at (records_in self.old) line.0 (record_of noted)) }
    {
        match self.lines.insert(line.0, noted) {
            Ok(_) => Ok(()),
            Err(_) => Err(NoMemory),
        }
    }

    /// Whether a line is kept.
    pub fn has(&self, line: Line) -> bool
        ensures { result ≡ has_line self.now line.0 }
    {
        self.lines.contains_key(&line.0)
    }

    /// What is noted of a line.
    pub fn get(&self, line: Line) -> LineRecord
        requires { has_line self.now line.0 ≡ true }
        ensures { record_of result ≡ records_in self.now line.0 }
    {
        match self.lines.get(&line.0) {
            Some(noted) => *noted,
            None => unreachable!(),
        }
    }

    /// Notes this of a line from now on.
    pub fn set(&mut self, line: Line, noted: LineRecord)
        requires { has_line self.old line.0 ≡ true }
        ensures noted { records_in self.new ≡ with_at (records_in self.old) line.0 (record_of noted) }
        ensures lines { has_line self.new ≡ has_line self.old }
    {
        if let Some(place) = self.lines.get_mut(&line.0) {
            *place = noted;
        }
    }
}
