// The registers of the misses of a node, and its victim slots.
ghost use Rattle.std.specs.Prelude.{◌≡◌, IfOk, OnOk, OnErr, Some, None, is_some, is_err, option_copied};
ghost use Rattle.std.specs.FinMap.{empty};
ghost use Rattle.miss_registers.specs.Misses.{register_of, victim_of, bytes_of, covers, registers_full, slots_full, with_register, without_register, with_victim, without_victim, with_emptied};

use crate::line_table::LineTable;
use rsim_base::{LINE_ROOM, Line, NoMemory, NoneFree};
use std::alloc::Global;
use std::marker::Model;

/// The misses of one node that are under way, in a fixed number of registers; and in as many slots the victims: owned
/// lines that were evicted, until their home acknowledges it.
///
/// A line has at most one register and at most one slot. A register is open from the request for its line to the grant,
/// and knows whether it asks to own the line. A slot keeps the line's bytes until they are recalled, and is emptied
/// then; only the acknowledgement frees it. There is always room for the longest line.
#[derive(Drop)]
pub struct MissRegisters {
    registers: LineTable<bool>,
    victims: LineTable<Option<[u8; LINE_ROOM]>>,
}

impl Model for MissRegisters {
    ghost use Rattle.std.specs.Prelude.{◌≡◌};
    ghost use Rattle.miss_registers.specs.Misses.{MissView, miss_code};

    ghost Value = { MissView };

    ghost coded = { miss_code };

    ghost view = { λ m. record { count = m.registers.places; registers = m.registers.lines; victims = m.victims.lines } };

    ghost invariant = { λ m. m.victims.places ≡ m.registers.places };
}

impl MissRegisters {
    /// `count` registers, none of them open, and `count` free slots. No other call takes memory.
    ///
    /// # Errors
    /// `NoMemory` where there is no memory for so many.
    pub fn make(alloc: Global, count: u32) -> Result<MissRegisters, NoMemory>
        ensures { IfOk result (λ m. m ≡ record { count = count; registers = empty; victims = empty }) }
    {
        Ok(MissRegisters {
            registers: LineTable::make(alloc, count)?,
            victims: LineTable::make(alloc, count)?,
        })
    }

    /// Opens a register for a line that has none: the line is asked for, and to own it where `own` says so.
    ///
    /// # Errors
    /// `NoneFree` where every register is open, and nowhere else. Nothing changes then.
    pub fn begin(&mut self, line: Line, own: bool) -> Result<(), NoneFree>
        requires { register_of self.old line.0 ≡ None }
        ensures full { is_err result ≡ registers_full self.old }
        ensures ok { OnOk result (self.new ≡ with_register line.0 own self.old) }
        ensures err { OnErr result (self.new ≡ self.old) }
    {
        self.registers.insert(line, own)
    }

    /// Whether every register is open.
    pub fn is_full(&self) -> bool
        ensures { result ≡ registers_full self.now }
    {
        self.registers.is_full()
    }

    /// Whether the line has a register that asks for at least this. One that asks to own covers both.
    pub fn merge(&self, line: Line, own: bool) -> bool
        ensures { result ≡ covers (register_of self.now line.0) own }
    {
        self.registers.get(line).is_some_and(|owns| *owns || !own)
    }

    /// Closes the line's register. False where it has none, and then nothing changes.
    pub fn close(&mut self, line: Line) -> bool
        ensures found { result ≡ is_some (register_of self.old line.0) }
        ensures after { self.new ≡ without_register line.0 self.old }
    {
        self.registers.remove(line)
    }

    /// Whether every slot is taken.
    pub fn are_slots_full(&self) -> bool
        ensures { result ≡ slots_full self.now }
    {
        self.victims.is_full()
    }

    /// Keeps the bytes of a line that has no slot in a free one.
    ///
    /// # Errors
    /// `NoneFree` where every slot is taken, and nowhere else. Nothing changes then.
    pub fn keep_victim(&mut self, line: Line, bytes: &[u8; LINE_ROOM]) -> Result<(), NoneFree>
        requires { victim_of self.old line.0 ≡ None }
        ensures full { is_err result ≡ slots_full self.old }
        ensures ok { OnOk result (self.new ≡ with_victim line.0 (Some bytes.now) self.old) }
        ensures err { OnErr result (self.new ≡ self.old) }
    {
        self.victims.insert(line, Some(*bytes))
    }

    /// The bytes in the line's slot. None where it has no slot, and where its slot was emptied.
    pub fn victim(&self, line: Line) -> Option<&[u8; LINE_ROOM]>
        ensures { option_copied result ≡ bytes_of self.now line.0 }
    {
        self.victims.get(line)?.as_ref()
    }

    /// Whether the line has a slot, be it emptied or not.
    pub fn has_slot(&self, line: Line) -> bool
        ensures { result ≡ is_some (victim_of self.now line.0) }
    {
        self.victims.get(line).is_some()
    }

    /// Empties the line's slot, which stays the line's. False where it has none, and then nothing changes.
    pub fn empty_victim(&mut self, line: Line) -> bool
        ensures found { result ≡ is_some (victim_of self.old line.0) }
        ensures after { self.new ≡ with_emptied line.0 self.old }
    {
        self.victims.set(line, None)
    }

    /// Frees the line's slot. False where it has none, and then nothing changes.
    pub fn free_victim(&mut self, line: Line) -> bool
        ensures found { result ≡ is_some (victim_of self.old line.0) }
        ensures after { self.new ≡ without_victim line.0 self.old }
    {
        self.victims.remove(line)
    }
}
