// The two levels of a node.
ghost use Rattle.std.specs.Prelude.{◌≡◌, ◌≢◌, ◌/◌, ◌%◌, ◌<◌, IfOk, IsTrue, None, false, is_some, option_map, option_copied, replicate, vec_len, ⊤};
ghost use Rattle.rsim_base.specs.Bytes.{count_of};
ghost use Rattle.machine_config.specs.Allowed.{IsAllowed};
ghost use Rattle.cache_sets.specs.Caches.{reserved_slot};
ghost use Rattle.cache_levels.specs.Levels as level;
ghost use Rattle.cache_levels.specs.Sound.{AreSound};

use crate::{bytes, tags};
use cache_sets::{CacheSets, Reserved};
use machine_config::Config;
use rsim_base::{Addr, LINE_ROOM, Line, NoMemory, Size, line_of};
use std::alloc::{AllocError, Global};
use std::marker::Model;

/// The line that leaves for another, with its bytes and whether it was owned. Where none leaves there is no line,
/// and the bytes are 0.
#[derive(Clone, Copy, PartialEq, Eq)]
pub struct Evicted {
    /// The line that leaves.
    pub line: Option<Line>,
    /// Whether it was owned.
    pub owned: bool,
    /// Its bytes, of which the first count, as many as a line has.
    pub bytes: [u8; LINE_ROOM],
}

/// A copy of a line, of which the first bytes count, as many as a line has.
#[derive(Copy)]
pub struct LineCopy {
    pub owned: bool,
    pub bytes: [u8; LINE_ROOM],
}

impl Clone for LineCopy {
    ghost is_clone = { λ copy clone. clone ≡ copy };

    ghost is_infallible = { λ _. ⊤ };

    fn clone(&self) -> Result<Self, AllocError> {
        Ok(*self)
    }
}

const NO_COPY: LineCopy = LineCopy {
    owned: false,
    bytes: [0; LINE_ROOM],
};

const NOTHING_EVICTED: Evicted = Evicted {
    line: None,
    owned: false,
    bytes: [0; LINE_ROOM],
};

/// The two levels of caches of a node. What is near is held.
#[derive(Drop)]
pub struct Levels {
    first: CacheSets,
    second: CacheSets,
    // By slot of the second level.
    copies: Vec<LineCopy>,
    line_bytes: u64,
}

impl Model for Levels {
    ghost use Rattle.cache_levels.specs.Levels.{LevelsView};
    ghost use Rattle.cache_levels.specs.Sound.{AreSound};

    ghost Value = { LevelsView };

    ghost view = { λ l. record { first = l.first; second = l.second; copies = l.copies.items; line_bytes = l.line_bytes } };

    ghost invariant = { λ l. AreSound (record { first = l.first; second = l.second; copies = l.copies.items; line_bytes = l.line_bytes }) };
}

impl Levels {
    /// Two empty levels, of the sizes that the configuration gives.
    ///
    /// # Errors
    /// Where memory is short.
    pub fn make(alloc: Global, config: &Config) -> Result<Levels, NoMemory>
        requires { IsAllowed config.now }
        ensures empty { IfOk result (λ made. made ≡ level.empty_levels config.now) }
        ensures sound { IfOk result AreSound }
    {
        let first = CacheSets::make(alloc, config.l1_sets, config.l1_ways)?;
        let second = CacheSets::make(alloc, config.l2_sets, config.l2_ways)?;
        let slots = config.l2_sets * config.l2_ways;
        let copies = no_copies(alloc, slots as usize)?;
        Ok(Levels {
            first,
            second,
            copies,
            line_bytes: u64::from(config.line),
        })
    }

    /// The bytes of a line.
    pub fn line_bytes(&self) -> u64
        ensures { result ≡ (self.now).line_bytes }
    {
        self.line_bytes
    }

    /// Whether a line is near, in the first level.
    pub fn near(&self, line: Line) -> bool
        ensures { result ≡ level.near line.0 self.now }
    {
        self.first.find(line).is_some()
    }

    /// Whether a line is held, in the second level.
    pub fn hold(&self, line: Line) -> bool
        ensures { result ≡ level.held line.0 self.now }
    {
        self.second.find(line).is_some()
    }

    /// Whether a line is held and owned.
    pub fn own(&self, line: Line) -> bool
        ensures { result ≡ level.owned line.0 self.now }
    {
        match self.second.find(line) {
            Some(slot) => self.copies[slot as usize].owned,
            None => false,
        }
    }

    /// The bytes of a held line, of which the first count, as many as a line has.
    pub fn copy(&self, line: Line) -> Option<&[u8; LINE_ROOM]>
        ensures { option_copied result ≡ option_map (λ copy. copy.bytes) (level.copy_of line.0 self.now) }
    {
        let slot = self.second.find(line)?;
        let copy = &self.copies[slot as usize];
        Some(&copy.bytes)
    }

    /// Makes a held line the most recent of both levels. Where it was not near it takes the first empty way of its set
    /// in the first level, else the least recently used one, whose line is then no longer near and stays held.
    pub fn bring_near(&mut self, line: Line)
        requires { IsTrue (level.held line.0 self.old) }
        ensures brought { self.new ≡ level.brought line.0 self.old }
        ensures sound { AreSound self.new }
    {
        tags::bring(&mut self.first, line);
        tags::touch(&mut self.second, line);
    }

    /// Makes a held line the most recent of its set, in each level that has it.
    pub fn touch(&mut self, line: Line)
        requires { IsTrue (level.held line.0 self.old) }
        ensures touched { self.new ≡ level.touched_levels line.0 self.old }
        ensures sound { AreSound self.new }
    {
        tags::touch(&mut self.first, line);
        tags::touch(&mut self.second, line);
    }

    /// Whether a way of the second level is reserved for a line.
    pub fn is_reserved(&self, line: Line) -> bool
        ensures { result ≡ is_some (reserved_slot line.0 (self.now).second) }
    {
        self.second.reserved(line).is_some()
    }

    /// Reserves a way of the second level for a line that is not held and has none. The line that the way held leaves
    /// both levels, and is told with its bytes. `None`, and nothing changes, where all ways of the set are reserved.
    pub fn room(&mut self, line: Line) -> Option<Evicted>
        requires absent { level.held line.0 self.old ≡ false }
        requires unreserved { reserved_slot line.0 (self.old).second ≡ None }
        ensures evicted { result ≡ level.evicted line.0 self.old }
        ensures room { self.new ≡ level.with_room line.0 self.old }
        ensures sound { AreSound self.new }
    {
        let room = self.second.reserve_way(line)?;
        if let Some(victim) = room.victim {
            self.first.drop_line(victim);
        }
        Some(tell(&self.copies, room))
    }

    /// What `room` would answer.
    pub fn would_evict(&self, line: Line) -> Option<Evicted>
        requires absent { level.held line.0 self.now ≡ false }
        requires unreserved { reserved_slot line.0 (self.now).second ≡ None }
        ensures { result ≡ level.evicted line.0 self.now }
    {
        let room = self.second.would_reserve(line)?;
        Some(tell(&self.copies, room))
    }

    /// Reserves the way of a held line in the second level for it.
    pub fn hold_way(&mut self, line: Line)
        requires { IsTrue (level.held line.0 self.old) }
        ensures held { self.new ≡ level.held_way line.0 self.old }
        ensures sound { AreSound self.new }
    {
        self.second.hold_way(line);
    }

    /// Puts a line with these bytes into the way of the second level that is reserved for it, and brings it near. The
    /// reservation ends.
    pub fn fill(&mut self, line: Line, owned: bool, bytes: &[u8; LINE_ROOM])
        requires { reserved_slot line.0 (self.old).second ≢ None }
        ensures filled { self.new ≡ level.filled_line line.0 owned bytes.now self.old }
        ensures sound { AreSound self.new }
    {
        if let Some(slot) = self.second.reserved(line) {
            self.second.fill(slot, line);
            self.copies[slot as usize] = LineCopy {
                owned,
                bytes: *bytes,
            };
            tags::bring(&mut self.first, line);
        }
    }

    /// Makes a held line one that is not owned.
    pub fn share(&mut self, line: Line)
        requires { IsTrue (level.held line.0 self.old) }
        ensures shared { self.new ≡ level.shared line.0 self.old }
        ensures sound { AreSound self.new }
    {
        if let Some(slot) = self.second.find(line) {
            let copy = &mut self.copies[slot as usize];
            copy.owned = false;
        }
    }

    /// Takes a held line out of both levels. A reservation of its way in the second level stays.
    pub fn lose(&mut self, line: Line)
        requires { IsTrue (level.held line.0 self.old) }
        ensures lost { self.new ≡ level.lost line.0 self.old }
        ensures sound { AreSound self.new }
    {
        self.first.drop_line(line);
        self.second.drop_line(line);
    }

    /// Writes an aligned value into an owned line: its byte at address `a + b` becomes `cut(v, n, b)`.
    pub fn write(&mut self, a: Addr, n: Size, v: u64)
        requires aligned { a.0 % count_of n ≡ 0 }
        requires owned { IsTrue (level.owned (a.0 / (self.old).line_bytes) self.old) }
        ensures written { self.new ≡ level.written a.0 n v self.old }
        ensures sound { AreSound self.new }
    {
        let line = line_of(a, self.line_bytes);
        let at = (a.0 % self.line_bytes) as usize;
        if let Some(slot) = self.second.find(line) {
            let copy = &mut self.copies[slot as usize];
            bytes::put(&mut copy.bytes, at, n, v);
        }
    }
}

// A copy of nothing for each slot.
fn no_copies(alloc: Global, slots: usize) -> Result<Vec<LineCopy>, NoMemory>
    ensures { IfOk result (λ copies. copies.items ≡ replicate slots level.no_copy) }
{
    vec![in alloc; NO_COPY; slots].map_err(|_| NoMemory)
}

// What is told of the line that left a way, if it held one.
fn tell(copies: &Vec<LineCopy>, room: Reserved) -> Evicted
    requires { room.slot < vec_len copies.now }
    ensures { result ≡ level.evicted_as copies.now.items room }
{
    let Some(line) = room.victim else {
        return NOTHING_EVICTED;
    };
    let copy = &copies[room.slot as usize];
    Evicted {
        line: Some(line),
        owned: copy.owned,
        bytes: copy.bytes,
    }
}
