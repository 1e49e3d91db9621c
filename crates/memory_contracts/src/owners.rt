// Which node has each line.
ghost use Rattle.std.specs.Prelude.{◌≡◌, [], None, OnOk, Some, true};

use rsim_base::{Line, NoMemory, Node};
use std::alloc::Global;
use std::collections::HashMap;

/// The node that has each line, if one has it: by the line's number, for the lines that can be given away.
#[derive(Drop)]
pub struct Owners {
    lines: HashMap<u64, Option<Node>>,
}

impl Owners {
    ghost use Rattle.memory_contracts.specs.Parts.{has_line, owner_in};
    ghost use Rattle.memory_contracts.specs.Updates.{with_at};

    /// No lines.
    pub fn new(alloc: Global) -> Owners
        ensures { result.lines.entries ≡ [] }
    {
        Owners {
            lines: HashMap::new(alloc),
        }
    }

    /// Adds a line that no node has.
    ///
    /// # Errors
    /// Where memory is short.
    pub fn add(&mut self, line: Line) -> Result<(), NoMemory>
        ensures kept { OnOk result (has_line self.new ≡ with_at (has_line self.old) line.0 true) }
        ensures owner { OnOk result (owner_in self.new ≡ with_at (owner_in self.old) line.0 None) }
    {
        match self.lines.insert(line.0, None) {
            Ok(_) => Ok(()),
            Err(_) => Err(NoMemory),
        }
    }

    /// The node that has a line.
    pub fn owner(&self, line: Line) -> Option<Node>
        ensures { result ≡ owner_in self.now line.0 }
    {
        self.lines.get(&line.0).copied().unwrap_or(None)
    }

    /// Gives a line to a node.
    pub fn give(&mut self, line: Line, p: Node)
        requires { has_line self.old line.0 ≡ true }
        ensures owner { owner_in self.new ≡ with_at (owner_in self.old) line.0 (Some p) }
        ensures kept { has_line self.new ≡ has_line self.old }
    {
        if let Some(owner) = self.lines.get_mut(&line.0) {
            *owner = Some(p);
        }
    }
}
