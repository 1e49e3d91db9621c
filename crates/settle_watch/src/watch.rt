// Loads that are bound and not settled.
ghost use Rattle.std.specs.Prelude.{◌≡◌, ◌<◌, ◌≤◌, [], IfOk, map, vec_capacity, vec_len};
ghost use Rattle.settle_watch.specs.Watches.{AreInOrder, cut, first_victim, has_place, is_victim, oldest_victim, placed, settled, store_performed, watched, without_store};

use memory_contracts::LostList;
use rsim_base::{Line, NoMemory, Node};
use std::alloc::Global;
use std::marker::Model;

// A load that is watched.
#[derive(Clone, Copy, Debug, PartialEq, Eq)]
pub(crate) struct Watched {
    pub(crate) seq: u64,
    pub(crate) line: Line,
    // Whether its value came from a store that is not performed yet.
    pub(crate) from_store: bool,
}

impl Watched {
    // Whether its line is lost to node `p` while its value is that of memory.
    fn is_victim(&self, p: Node, lost: &[(Node, Line)]) -> bool
        ensures { result ≡ is_victim p.0 lost.now self.now }
    {
        !self.from_store && lost.iter().any(|(q, line)| *q == p && *line == self.line)
    }
}

/// The loads of a core that are bound to a value and not settled: while such a load waits, its value is that of memory only as
/// long as its line stays. Each is known by the number of its instruction. No call but `make` takes memory.
#[derive(Drop)]
pub struct SettleWatch {
    // The oldest first.
    loads: Vec<Watched>,
    size: u32,
}

impl Model for SettleWatch {
    ghost use Rattle.std.specs.Prelude.{◌≤◌, vec_capacity};
    ghost use Rattle.settle_watch.specs.Watches.{AreInOrder, WatchView};

    ghost Value = { WatchView };

    ghost view = { λ w. record { loads = w.loads.items; size = w.size } };

    ghost invariant = { λ w. (w.size ≤ vec_capacity w.loads) × AreInOrder w.loads.items };
}

impl SettleWatch {
    /// A watch for `size` loads, with none.
    ///
    /// # Errors
    /// Where memory is short.
    pub fn make(alloc: Global, size: u32) -> Result<SettleWatch, NoMemory>
        ensures { IfOk result (λ w. w ≡ record { loads = []; size = size }) }
    {
        let loads = Vec::with_capacity(alloc, size as usize).map_err(|_| NoMemory)?;
        Ok(SettleWatch { loads, size })
    }

    /// Watches a load that is bound: whether its value came from a store that is not performed yet. False where as many are
    /// watched as may be, and then nothing changes.
    pub fn watch(&mut self, seq: u64, line: Line, from_store: bool) -> bool
        ensures value { result ≡ has_place self.old }
        ensures after { self.new ≡ watched seq line.0 from_store self.old }
    {
        let has_place = self.loads.len() < self.size as usize;
        if has_place {
            let load = Watched {
                seq,
                line,
                from_store,
            };
            place(&mut self.loads, load);
        }
        has_place
    }

    /// The store that a load's value came from is performed: from now on the load is watched by its line. Nothing changes where
    /// the load is not watched.
    pub fn store_gone(&mut self, seq: u64)
        ensures { self.new ≡ without_store seq self.old }
    {
        lose_store(self.loads.as_mut_slice(), seq);
    }

    /// A load is settled, and is watched no more.
    pub fn settle(&mut self, seq: u64)
        ensures { self.new ≡ settled seq self.old }
    {
        self.loads.retain(|load| load.seq != seq);
    }

    /// The number of the oldest load whose line node `p` has lost, and whose value came from no store that is still to be
    /// performed. `None` where there is none.
    pub fn victims(&self, p: Node, lost: &LostList) -> Option<u64>
        ensures first { result ≡ first_victim p.0 lost.now.items self.now.loads }
        ensures oldest { result ≡ oldest_victim p.0 lost.now.items self.now.loads }
    {
        let lost = lost.as_slice();
        if !lost.iter().any(|(q, _)| *q == p) {
            return None;
        }
        first_of(self.loads.as_slice(), p, lost)
    }

    /// Watches no load any more whose number is greater.
    pub fn cut_after(&mut self, seq: u64)
        ensures { self.new ≡ cut seq self.old }
    {
        self.loads.retain(|load| load.seq <= seq);
    }
}

// The number of the first victim.
fn first_of(loads: &[Watched], p: Node, lost: &[(Node, Line)]) -> Option<u64>
    ensures { result ≡ first_victim p.0 lost.now loads.now }
{
    loads
        .iter()
        .find(|load| load.is_victim(p, lost))
        .map(|load| load.seq)
}

// Puts a load behind those of lesser numbers.
fn place(loads: &mut Vec<Watched>, load: Watched)
    requires room { vec_len loads.old < vec_capacity loads.old }
    requires order { AreInOrder loads.old.items }
    ensures items { loads.new.items ≡ placed load loads.old.items }
    ensures capacity { vec_capacity loads.old ≤ vec_capacity loads.new }
{
    let at = loads.iter().filter(|other| other.seq < load.seq).count();
    if loads.insert(at, load).is_err() {
        unreachable!();
    }
}

// The store that the load's value came from is performed.
fn lose_store(loads: &mut [Watched], seq: u64)
    ensures { loads.new ≡ map (store_performed seq) loads.old }
{
    for load in loads.iter_mut() {
        if load.seq == seq {
            load.from_store = false;
        }
    }
}
