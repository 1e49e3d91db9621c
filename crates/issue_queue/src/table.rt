// The entries of a queue, each at its place.
ghost use Rattle.std.specs.Prelude.{◌≡◌, ℕ, ◌+◌, ◌-◌, ◌^◌, ◌<◌, ◌++◌, ◌∷◌, [], IfOk, IfSome, length, map, filter, nat_le, true};
ghost use Rattle.std.specs.List.{All};
ghost use Rattle.issue_queue.specs.Units.{of_unit};
ghost use Rattle.issue_queue.specs.Queues.{AreNeeded, entry, woken_entry};
ghost use Rattle.issue_queue.specs.Held.{Ends, Issues};

use crate::needs::{Needs, is_clear, note_readers};
use crate::units::{ByUnit, is_div, is_mul};
use crate::words::{ages_to, clear_needs, ended, first_age, place_of, put, unit_of, with_able};
use ring_set::{PLACES, Places};
use rsim_base::{NoMemory, PhysReg, Unit};
use std::alloc::Global;
use std::marker::Model;

/// Entries, each known by its number, and the tick that they are in. The numbers of all lie within 128, so that an entry has
/// the place of its number modulo 128, and what is asked of the entries is asked of words with a bit for each place.
#[derive(Drop)]
pub struct Table {
    /// No number is less, and each is less than this and 128.
    low: u64,
    tick: u64,
    live: Places,
    ready: Places,
    issued: Places,
    done: Places,
    mul: Places,
    div: Places,
    needs: Vec<Needs>,
    /// Of an entry that is issued, the tick from which it is finished.
    until: Vec<u64>,
    /// By register, the places of all that wait for it, and of some that do not.
    readers: Vec<Places>,
}

impl Model for Table {
    ghost use Rattle.issue_queue.specs.Held.{Held};

    ghost Value = { Held };

    ghost use Rattle.issue_queue.specs.Tables.{IsSound, held_of};

    ghost view = { held_of };

    ghost invariant = { IsSound };
}

impl Table {
    /// No entry, at tick 0, and so many registers. No other call takes memory.
    ///
    /// # Errors
    /// Where memory is short.
    pub fn make(alloc: Global, registers: usize) -> Result<Table, NoMemory>
        ensures { IfOk result (λ t. t ≡ record { entries = []; tick = 0; registers = registers }) }
    {
        let places = usize::from(PLACES);
        let needs = vec![in alloc; no_needs(); places].map_err(|_| NoMemory)?;
        let until = vec![in alloc; 0u64; places].map_err(|_| NoMemory)?;
        let readers = vec![in alloc; Places::none(); registers].map_err(|_| NoMemory)?;
        Ok(Table {
            low: 0,
            tick: 0,
            live: Places::none(),
            ready: Places::none(),
            issued: Places::none(),
            done: Places::none(),
            mul: Places::none(),
            div: Places::none(),
            needs,
            until,
            readers,
        })
    }

    /// The present tick.
    pub fn tick(&self) -> u64
        ensures { result ≡ self.now.tick }
    {
        self.tick
    }

    /// How many entries there are.
    pub fn len(&self) -> usize
        ensures { result ≡ length self.now.entries }
    {
        usize::from(self.live.count())
    }

    /// An entry joins as the youngest.
    pub fn add(&mut self, seq: u64, unit: Unit, needs: Needs)
        requires youngest { All (λ e. e.seq < seq) self.old.entries }
        requires near { All (λ e. seq < e.seq + 128) self.old.entries }
        requires small { seq < 2 ^ 63 }
        requires needs { AreNeeded self.old.registers needs }
        ensures { self.new ≡ record self.old { entries = self.old.entries ++ entry seq unit needs ∷ [] } }
    {
        let place = place_of(seq);
        self.low = seq.saturating_sub(127);
        self.live = self.live.with(place);
        self.ready = put(self.ready, place, is_clear(&needs));
        self.issued = self.issued.without(place);
        self.mul = put(self.mul, place, is_mul(unit));
        self.div = put(self.div, place, is_div(unit));
        note_readers(&mut self.readers, &needs, place);
        self.needs[usize::from(place)] = needs;
    }

    /// Nobody waits for this register any more.
    pub fn wake(&mut self, r: PhysReg)
        requires { r.0 < self.old.registers }
        ensures { self.new ≡ record self.old { entries = map (woken_entry r.0) self.old.entries } }
    {
        let register = usize::from(r.0);
        let readers = self.readers[register].and(self.live).outside(self.issued);
        self.readers[register] = Places::none();
        self.ready = self.ready.or(clear_needs(&mut self.needs, readers, r));
    }

    /// Issues the oldest entry that waits for no register and whose unit is able, for as many ticks as its unit takes.
    pub fn issue(&mut self, able: &ByUnit<bool>, ticks: &ByUnit<u32>) -> Option<(u64, Unit)>
        requires early { self.old.tick < 2 ^ 63 }
        requires ticks { (unit : Unit) → 0 < of_unit ticks.now unit }
        ensures issues { Issues able.now ticks.now self.old result self.new }
        ensures able { IfSome result (λ issued. of_unit able.now issued.1 ≡ true) }
    {
        let able = with_able(self.ready, self.mul, self.div, able);
        let age = first_age(able, self.low)?;
        let seq = self.low + u64::from(age);
        let place = place_of(seq);
        let unit = unit_of(self.mul, self.div, place);
        self.ready = self.ready.without(place);
        self.issued = self.issued.with(place);
        self.until[usize::from(place)] = self.tick + u64::from(ticks.of(unit));
        Some((seq, unit))
    }

    /// Takes the oldest entry out that is finished.
    pub fn finish(&mut self) -> Option<u64>
        ensures { Ends self.old result self.new }
    {
        let age = first_age(self.done, self.low)?;
        let seq = self.low + u64::from(age);
        let place = place_of(seq);
        self.live = self.live.without(place);
        self.done = self.done.without(place);
        Some(seq)
    }

    /// Begins the next tick.
    pub fn begin_tick(&mut self)
        requires { self.old.tick < 2 ^ 63 }
        ensures { self.new ≡ record self.old { tick = self.old.tick + 1 } }
    {
        self.tick += 1;
        let issued = self.live.and(self.issued);
        self.done = self
            .done
            .or(ended(issued.outside(self.done), &self.until, self.tick));
    }

    /// Takes all entries out whose number is greater.
    pub fn cut_after(&mut self, seq: u64)
        ensures { self.new ≡ record self.old { entries = filter (λ e. nat_le e.seq seq) self.old.entries } }
    {
        let kept = Places::run(place_of(self.low), ages_to(self.low, seq));
        self.live = self.live.and(kept);
        self.ready = self.ready.and(kept);
        self.done = self.done.and(kept);
    }
}

// In a function, so that goals speak of the call and not of the array.
fn no_needs() -> Needs {
    [None; 5]
}
