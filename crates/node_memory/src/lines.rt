// What a node has of lines: its caches and its misses.
ghost use Rattle.std.specs.Prelude.{◌≡◌, ◌&&◌, ◌||◌, IfOk, IfSome, IsTrue, None, Some, is_some, false, true, option_map};
ghost use Rattle.machine_config.specs.Allowed.{IsAllowed};
ghost use Rattle.cache_levels.specs.Levels as level;
ghost use Rattle.cache_levels.specs.Sound.{AreSound};
ghost use Rattle.cache_sets.specs.Caches.{reserved_slot};
ghost use Rattle.miss_registers.specs.Misses.{register_of, registers_full, victim_of, with_register};

use crate::laws;
use crate::table::{Change, NodeCopy};
use cache_levels::{Evicted, Levels};
use machine_config::Config;
use memory_contracts::Wanted;
use miss_registers::MissRegisters;
use rsim_base::{Line, NoMemory};
use std::alloc::Global;

/// The caches of a node, the registers of its misses, and its victim slots.
#[derive(Drop)]
pub struct Lines {
    pub levels: Levels,
    pub misses: MissRegisters,
}

impl Lines {
    ghost use Rattle.node_memory.specs.Nodes.{kept_as, no_misses};
    ghost use Rattle.node_memory.specs.NodeParts.{copy_in};
    ghost use Rattle.node_memory.specs.Rows.{Allows, levels_after, misses_after};
    ghost use Rattle.memory_contracts.specs.Protocol.Awaited.{is_leaving};
    ghost use Rattle.node_memory.specs.Starting.{lacks_way, meets, slots_with};

    /// Empty caches, and no misses.
    ///
    /// # Errors
    /// Where memory is short.
    pub fn make(alloc: Global, config: &Config) -> Result<Lines, NoMemory>
        requires { IsAllowed config.now }
        ensures levels { IfOk result (λ made. made.levels ≡ level.empty_levels config.now) }
        ensures misses { IfOk result (λ made. made.misses ≡ no_misses config.now.miss_registers) }
        ensures sound { IfOk result (λ made. AreSound made.levels) }
    {
        Ok(Lines {
            levels: Levels::make(alloc, config)?,
            misses: MissRegisters::make(alloc, config.miss_registers)?,
        })
    }

    /// Whether a line is held: whether there is a copy of it.
    pub fn hold(&self, line: Line) -> bool
        requires { AreSound self.now.levels }
        ensures held { result ≡ level.held line.0 self.now.levels }
        ensures copy { result ≡ is_some (level.copy_of line.0 self.now.levels) }
    {
        laws::caches_follow();
        self.levels.hold(line)
    }

    /// What there is of a line.
    pub fn copy(&self, line: Line) -> NodeCopy
        ensures { copy_in result ≡ kept_as (level.copy_of line.0 self.now.levels) (victim_of self.now.misses line.0) }
    {
        match self.levels.copy(line) {
            Some(bytes) if self.levels.own(line) => NodeCopy::Owned { bytes: *bytes },
            Some(bytes) => NodeCopy::Shared { bytes: *bytes },
            None => self.slot(line),
        }
    }

    // What the victim slot of a line says that is not held.
    fn slot(&self, line: Line) -> NodeCopy
        ensures { copy_in result ≡ kept_as None (victim_of self.now.misses line.0) }
    {
        match self.misses.victim(line) {
            Some(bytes) => NodeCopy::Evicting { bytes: *bytes },
            None if self.misses.has_slot(line) => NodeCopy::Emptied,
            None => NodeCopy::Absent,
        }
    }

    /// Does to a line what a message asks for.
    pub fn change(&mut self, line: Line, change: &Change)
        requires sound { AreSound self.old.levels }
        requires allowed { Allows change.now line.0 self.old.levels }
        ensures sound { AreSound self.new.levels }
        ensures levels { self.new.levels ≡ levels_after change.now line.0 self.old.levels }
        ensures misses { self.new.misses ≡ misses_after change.now line.0 self.old.misses }
    {
        match *change {
            Change::Nothing => {}
            Change::Lose => self.levels.lose(line),
            Change::Share => self.levels.share(line),
            Change::Fill { own, bytes } => {
                self.levels.fill(line, own, &bytes);
                self.misses.close(line);
            }
            Change::EmptySlot => {
                self.misses.empty_victim(line);
            }
            Change::FreeSlot => {
                self.misses.free_victim(line);
            }
        }
    }

    /// Whether what there is of its line meets a wish.
    pub fn meets(&self, wish: Wanted) -> bool
        requires { AreSound self.now.levels }
        ensures { result ≡ meets wish.own (kept_as (level.copy_of wish.line.0 self.now.levels) (victim_of self.now.misses wish.line.0)) }
    {
        self.hold(wish.line) && (!wish.own || self.levels.own(wish.line))
    }

    /// Whether a line is leaving, or awaited, or no register is free.
    pub fn is_busy(&self, line: Line) -> bool
        requires { AreSound self.now.levels }
        ensures { result ≡ (is_leaving (kept_as (level.copy_of line.0 self.now.levels) (victim_of self.now.misses line.0)) || is_some (register_of self.now.misses line.0) || registers_full self.now.misses) }
    {
        (!self.hold(line) && self.misses.has_slot(line))
            || self.misses.merge(line, false)
            || self.misses.is_full()
    }

    /// Whether a line is not held that has no way to come into, or no slot for the owned line that would leave it.
    pub fn lacks_way(&self, line: Line) -> bool
        requires absent { level.held line.0 self.now.levels ≡ false }
        requires unreserved { reserved_slot line.0 (self.now.levels).second ≡ None }
        ensures { result ≡ lacks_way (level.evicted line.0 self.now.levels) self.now.misses }
    {
        match self.levels.would_evict(line) {
            Some(evicted) => evicted.owned && self.misses.are_slots_full(),
            None => true,
        }
    }

    /// Makes room for a line that is not held, and keeps the bytes of an owned line that leaves for it. `None`, and nothing
    /// changes, where there is no way.
    pub fn make_room(&mut self, line: Line) -> Option<Evicted>
        requires absent { level.held line.0 self.old.levels ≡ false }
        requires unreserved { reserved_slot line.0 (self.old.levels).second ≡ None }
        requires slot { lacks_way (level.evicted line.0 self.old.levels) self.old.misses ≡ false }
        requires slotless { IfSome (level.evicted line.0 self.old.levels) (λ e. IfSome e.line (λ victim. victim_of self.old.misses victim.0 ≡ None)) }
        ensures sound { AreSound self.new.levels }
        ensures evicted { result ≡ level.evicted line.0 self.old.levels }
        ensures levels { self.new.levels ≡ level.with_room line.0 self.old.levels }
        ensures misses { IfSome result (λ e. self.new.misses ≡ slots_with e self.old.misses) }
    {
        let evicted = self.levels.room(line)?;
        if let Some(victim) = evicted.line
            && evicted.owned
        {
            let _ = self.misses.keep_victim(victim, &evicted.bytes);
        }
        Some(evicted)
    }
}
