// A cache as its sets of ways.
ghost use Rattle.std.specs.Prelude.{◌≡◌, ◌≢◌, ◌+◌, ◌*◌, ◌/◌, ◌%◌, ◌^◌, ◌<◌, ◌≤◌, IfOk, IfSome, None, Some, length, map, option_map};
ghost use Rattle.cache_sets.specs.Caches as cache;
ghost use Rattle.cache_sets.specs.Lookups.{LooksUpAsBefore, LooksUpReserved, LooksUpHeld, LooksUpFilled, LooksUpDropped};
ghost use Rattle.cache_sets.specs.Sound.{IsSound};

use crate::slots::{find_room, find_slot, first_slots, move_to_front};
use rsim_base::{Line, NoMemory};
use std::alloc::Global;
use std::marker::Model;

/// A way that was reserved: its slot, and the line that it held, which is there no longer.
#[derive(Clone, Copy, PartialEq, Eq)]
pub struct Reserved {
    /// The way's slot.
    pub slot: u32,
    /// The line that leaves.
    pub victim: Option<Line>,
}

/// The ways of a cache, in sets. A line may stand in the set of its number modulo the number of sets.
/// Each way has a slot: those of set `s` are the numbers from `s × ways` on.
#[derive(Drop)]
pub struct CacheSets {
    sets: u32,
    ways: u32,
    // By slot.
    lines: Vec<Option<Line>>,
    reserved: Vec<Option<Line>>,
    // The slots of each set, the most recently used first.
    recency: Vec<u32>,
}

impl Model for CacheSets {
    ghost use Rattle.cache_sets.specs.Caches.{CacheView};
    ghost use Rattle.cache_sets.specs.Layout.{view_of, IsKept};

    ghost Value = { CacheView };

    ghost view = { λ c. view_of c.sets c.ways c.lines.items c.reserved.items c.recency.items };

    ghost invariant = { λ c. IsKept c.sets c.ways c.lines.items c.reserved.items c.recency.items };
}

impl CacheSets {
    /// A cache of so many sets, each of so many ways, which are empty and not reserved.
    ///
    /// # Errors
    /// Where memory is short.
    pub fn make(alloc: Global, sets: u32, ways: u32) -> Result<CacheSets, NoMemory>
        requires some { sets ≢ 0 }
        requires small { sets * ways < 2 ^ 32 }
        ensures empty { IfOk result (λ made. made ≡ cache.empty_cache sets ways) }
        ensures sound { IfOk result IsSound }
    {
        let count = sets * ways;
        let lines = vec![in alloc; None; count as usize].map_err(|_| NoMemory)?;
        let reserved = vec![in alloc; None; count as usize].map_err(|_| NoMemory)?;
        let recency = first_slots(alloc, count).map_err(|_| NoMemory)?;
        Ok(CacheSets {
            sets,
            ways,
            lines,
            reserved,
            recency,
        })
    }

    /// The slot of the way that holds a line, if it is there.
    pub fn find(&self, line: Line) -> Option<u32>
        ensures slot { result ≡ cache.slot_of line.0 self.now }
        ensures within { IfSome result (λ slot. slot < cache.slot_count self.now) }
    {
        find_slot(self.slots_of(line), &self.lines, line)
    }

    /// The slot of the way that is reserved for a line, if there is one.
    pub fn reserved(&self, line: Line) -> Option<u32>
        ensures slot { result ≡ cache.reserved_slot line.0 self.now }
        ensures within { IfSome result (λ slot. slot < cache.slot_count self.now) }
    {
        find_slot(self.slots_of(line), &self.reserved, line)
    }

    /// Makes a way the most recently used of its set.
    pub fn touch(&mut self, slot: u32)
        requires { slot < cache.slot_count self.old }
        ensures touched { self.new ≡ cache.touched slot self.old }
        ensures looks { LooksUpAsBefore self.old self.new }
        ensures sound { IsSound self.new }
    {
        let ways = self.ways as usize;
        let start = slot as usize / ways * ways;
        move_to_front(&mut self.recency, start, ways, slot);
    }

    /// What `reserve_way` would answer for a line that is not there and has no reserved way.
    pub fn would_reserve(&self, line: Line) -> Option<Reserved>
        ensures told { result ≡ option_map cache.told (cache.room_for line.0 self.now) }
        ensures within { IfSome result (λ way. way.slot < cache.slot_count self.now) }
    {
        let slot = find_room(self.slots_of(line), &self.lines, &self.reserved)?;
        let victim = self.lines[slot as usize];
        Some(Reserved { slot, victim })
    }

    /// Reserves a way of the line's set for a line that is not there and has none: the first that is empty and not
    /// reserved, else the least recently used one that is not reserved, whose line leaves at once. `None` where all
    /// are reserved.
    pub fn reserve_way(&mut self, line: Line) -> Option<Reserved>
        requires absent { cache.slot_of line.0 self.old ≡ None }
        requires unreserved { cache.reserved_slot line.0 self.old ≡ None }
        ensures told { result ≡ option_map cache.told (cache.room_for line.0 self.old) }
        ensures reserved { self.new ≡ cache.with_reserved line.0 self.old }
        ensures looks { LooksUpReserved line.0 self.old self.new }
        ensures within { IfSome result (λ way. way.slot < cache.slot_count self.old) }
        ensures sound { IsSound self.new }
    {
        let room = self.would_reserve(line)?;
        self.lines[room.slot as usize] = None;
        self.reserved[room.slot as usize] = Some(line);
        Some(room)
    }

    /// Reserves the way of a line that is there for it.
    pub fn hold_way(&mut self, line: Line)
        requires { cache.slot_of line.0 self.old ≢ None }
        ensures held { self.new ≡ cache.with_held line.0 self.old }
        ensures looks { LooksUpHeld line.0 self.old self.new }
        ensures sound { IsSound self.new }
    {
        if let Some(slot) = self.find(line) {
            self.reserved[slot as usize] = Some(line);
        }
    }

    /// Puts a line into the way that is reserved for it. The reservation ends, and the way is the most recently used
    /// of its set.
    pub fn fill(&mut self, slot: u32, line: Line)
        requires { cache.reserved_slot line.0 self.old ≡ Some slot }
        ensures filled { self.new ≡ cache.filled slot line.0 self.old }
        ensures looks { LooksUpFilled slot line.0 self.old self.new }
        ensures sound { IsSound self.new }
    {
        let start = self.start_of(line);
        self.lines[slot as usize] = Some(line);
        self.reserved[slot as usize] = None;
        move_to_front(&mut self.recency, start, self.ways as usize, slot);
    }

    /// Empties the way of a line, if it is there. A reservation of the way stays.
    pub fn drop_line(&mut self, line: Line)
        ensures dropped { self.new ≡ cache.dropped line.0 self.old }
        ensures looks { LooksUpDropped line.0 self.old self.new }
        ensures sound { IsSound self.new }
    {
        if let Some(slot) = self.find(line) {
            self.lines[slot as usize] = None;
        }
    }

    // The slots of the line's set, the most recently used first.
    fn slots_of(&self, line: Line) -> &[u32]
        ensures { result.now ≡ map (λ way. way.slot) (cache.set_of line.0 self.now) }
    {
        let start = self.start_of(line);
        let end = start + self.ways as usize;
        &self.recency[start..end]
    }

    // Where the slots of the line's set begin.
    fn start_of(&self, line: Line) -> usize
        ensures start { result ≡ cache.home_of line.0 self.now * self.now.ways }
        ensures within { result + self.now.ways ≤ cache.slot_count self.now }
        ensures small { cache.slot_count self.now < 2 ^ 32 }
    {
        let set = (line.0 % u64::from(self.sets)) as usize;
        set * self.ways as usize
    }
}
