// The entries in flight, the oldest first.
ghost use Rattle.std.specs.Prelude.{◌≡◌, [], IfOk, drop, length, slice_get, option_copied};
ghost use Rattle.std.specs.Option.{option_copied_mut};
ghost use Rattle.std.specs.Borrow.{sem};
ghost use Rattle.active_list.specs.Lists.{PushesOf, PopsOf, has_place as spec_has_place};

use crate::flight::Flight;
use circular_buffer::HeapCircularBuffer;
use rsim_base::NoMemory;
use std::alloc::Global;
use std::marker::Model;

/// The entries in flight, at most so many, the oldest first: they join behind, retire from the front, and are taken back
/// from behind. No call but `make` takes memory, and none takes time that grows with the entries.
#[derive(Drop)]
pub struct ActiveList {
    entries: HeapCircularBuffer<Flight>,
}

impl Model for ActiveList {
    ghost use Rattle.std.specs.Prelude.{◌<◌, ◌^◌};
    ghost use Rattle.active_list.specs.Lists.{ListView};

    ghost Value = { ListView };

    ghost view = { λ l. record { entries = l.entries.items; size = l.entries.capacity } };

    ghost invariant = { λ l. l.entries.capacity < 2 ^ 32 };
}

impl ActiveList {
    ghost use Rattle.active_list.specs.Lends.{LendsEntry};

    /// A list for `size` entries, with none.
    ///
    /// # Errors
    /// Where memory is short.
    pub fn make(alloc: Global, size: u32) -> Result<ActiveList, NoMemory>
        ensures { IfOk result (λ l. l ≡ record { entries = []; size = size }) }
    {
        let made = HeapCircularBuffer::with_capacity(alloc, size as usize);
        let entries = made.map_err(|_| NoMemory)?;
        Ok(ActiveList { entries })
    }

    /// How many entries there are.
    pub fn len(&self) -> u32
        ensures { result ≡ length self.now.entries }
    {
        self.entries.len() as u32
    }

    /// Whether one more may join.
    pub fn has_place(&self) -> bool
        ensures { result ≡ spec_has_place self.now }
    {
        self.entries.len() < self.entries.capacity()
    }

    /// An entry joins as the youngest. Where the list has as many as it may have, it is handed back and nothing changes.
    pub fn push(&mut self, f: Flight) -> Result<(), Flight>
        ensures { PushesOf f self.old result self.new }
    {
        self.entries.try_push_back(f)
    }

    /// The oldest entry.
    pub fn head(&self) -> Option<&Flight>
        ensures { option_copied result ≡ slice_get self.now.entries 0 }
    {
        self.entries.front()
    }

    /// The entry with `k` older ones.
    pub fn at(&self, k: u32) -> Option<&Flight>
        ensures { option_copied result ≡ slice_get self.now.entries k }
    {
        self.entries.get(k as usize)
    }

    /// The same, to change it: what is left there stands with `k` older ones, and all else is as before.
    pub fn at_mut(&mut self, k: u32) -> Option<&mut Flight>
        ensures* writes_back { sem 𝓛 (LendsEntry self.entry k result) }
        ensures value { option_copied_mut result ≡ slice_get self.old.entries k }
    {
        self.entries.get_mut(k as usize)
    }

    /// Takes the oldest entry out.
    pub fn retire(&mut self) -> Option<Flight>
        ensures value { result ≡ slice_get self.old.entries 0 }
        ensures list { self.new ≡ record self.old { entries = drop 1 self.old.entries } }
    {
        self.entries.pop_front()
    }

    /// Takes the youngest entry out, if its number is greater than `seq`. As numbers rise along the list, `None` means that
    /// no entry has a greater one.
    pub fn pop_after(&mut self, seq: u64) -> Option<Flight>
        ensures { PopsOf seq self.old result self.new }
    {
        match self.entries.back() {
            Some(youngest) if youngest.seq > seq => self.entries.pop_back(),
            _ => None,
        }
    }
}
