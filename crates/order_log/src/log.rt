// The order of accesses as it comes about.
ghost use Rattle.std.specs.Prelude.{◌≡◌, ◌+◌, ◌<◌, ◌≤◌, ◌++◌, ◌∷◌, [], true, false, IfOk, IsOk, OnOk, OnErr};
ghost use Rattle.order_log.specs.Log.{placed, after_retire, after_drop, first_final, after_pop};
ghost use Rattle.order_log.specs.Slots.{after_change, waits};

use crate::slots::{Slot, State, is_front, mark_all, put, skip_dropped};
use crate::span::Span;
use crate::waiting::{Entry, WaitingLists};
use machine_config::Config;
use rsim_base::{Access, NoMemory, Node};
use std::alloc::Global;
use std::collections::VecDeque;
use std::marker::Model;

// The least room that is made at once.
const ROOM: u32 = 256;

/// The places of the accesses that are performed or settled, in their order. Each is retired later or loses its place;
/// those that stand first and are retired may be taken out.
///
/// No call takes time that grows with the number of places, but for `reserve` where it has to move them, which comes as
/// seldom as their number doubles. `retire` and `drop_after` take time that grows with how many accesses of the node
/// have places and are not retired, and `pop_final` passes each place that was dropped once.
#[derive(Drop)]
pub struct OrderLog {
    // The places, and between them those that were dropped.
    slots: VecDeque<Slot>,
    // The number of the first slot, modulo 2^64.
    first: u64,
    // By node, the accesses that are not retired, with the numbers of their slots.
    waiting: WaitingLists,
    // There is room for so many places more.
    spare: u32,
}

impl Model for OrderLog {
    ghost use Rattle.std.specs.Prelude.{◌+◌, ◌≤◌};
    ghost use Rattle.std.specs.VecDeque.{deque_len, deque_capacity};
    ghost use Rattle.order_log.specs.Log.{LogView};
    ghost use Rattle.order_log.specs.Slots.{places_of, AreListed};

    ghost Value = { LogView };

    ghost view = { λ l. record { places = places_of l.slots.items; spare = l.spare } };

    ghost invariant = { λ l.
        AreListed l.first l.slots.items l.waiting.lists
        × (deque_len l.slots + l.spare ≤ deque_capacity l.slots)
        × (l.spare ≤ l.waiting.spare) };
}

impl OrderLog {
    /// A log with no place, for the nodes of this machine.
    ///
    /// # Errors
    /// Where memory is short.
    pub fn make(alloc: Global, config: &Config) -> Result<OrderLog, NoMemory>
        ensures { IfOk result (λ log. log.places ≡ []) }
    {
        let waiting = WaitingLists::make(alloc, config.processors)?;
        Ok(OrderLog {
            slots: VecDeque::new(alloc),
            first: 0,
            waiting,
            spare: 0,
        })
    }

    /// Makes room for so many places more. No other call takes memory.
    ///
    /// # Errors
    /// Where memory is short for room that is not there yet. Then nothing changes.
    pub fn reserve(&mut self, n: u32) -> Result<(), NoMemory>
        ensures places { self.new.places ≡ self.old.places }
        ensures spare { self.old.spare ≤ self.new.spare }
        ensures ok { OnOk result (n ≤ self.new.spare) }
        ensures succeeds { n ≤ self.old.spare → IsOk result }
        ensures err { OnErr result (self.new ≡ self.old) }
    {
        if n <= self.spare {
            return Ok(());
        }
        let room = n.max(ROOM);
        self.slots.reserve(room as usize).map_err(|_| NoMemory)?;
        self.waiting.reserve(room)?;
        self.spare = room;
        Ok(())
    }

    /// Gives an access that is performed the next place: a store, or an atomic.
    pub fn perform(&mut self, a: Access)
        requires { 0 < self.old.spare }
        ensures places { self.new.places ≡ self.old.places ++ placed a false ∷ [] }
        ensures spare { self.old.spare ≤ self.new.spare + 1 }
    {
        self.take_place(a);
    }

    /// Gives an access that is settled the next place: a load whose value stays. On the log this is `perform`; the
    /// name says which kind of access takes the place.
    pub fn settle(&mut self, a: Access)
        requires { 0 < self.old.spare }
        ensures places { self.new.places ≡ self.old.places ++ placed a false ∷ [] }
        ensures spare { self.old.spare ≤ self.new.spare + 1 }
    {
        self.take_place(a);
    }

    /// Retires the access of this number of a processor. Where it has no place, or is retired, nothing changes.
    pub fn retire(&mut self, p: Node, index: u32)
        ensures places { self.new.places ≡ after_retire p.0 index self.old.places }
        ensures spare { self.old.spare ≤ self.new.spare }
    {
        self.change(p, Span::Only(index), State::Retired);
    }

    /// Takes their places from the accesses of a processor from this number on that are not retired.
    pub fn drop_after(&mut self, p: Node, index: u32)
        ensures places { self.new.places ≡ after_drop p.0 index self.old.places }
        ensures spare { self.old.spare ≤ self.new.spare }
    {
        self.change(p, Span::From(index), State::Dropped);
    }

    /// Takes the first place out, if it is retired.
    pub fn pop_final(&mut self) -> Option<Access>
        ensures taken { result ≡ first_final self.old.places }
        ensures places { self.new.places ≡ after_pop self.old.places }
        ensures spare { self.old.spare ≤ self.new.spare }
    {
        skip_dropped(&mut self.slots, &mut self.first);
        if !is_front(&self.slots, State::Retired) {
            return None;
        }
        let slot = self.slots.pop_front()?;
        self.first = self.first.wrapping_add(1);
        Some(slot.access)
    }

    /// Gives a store that is retired and not performed the next place, as at the end of a run.
    pub fn close(&mut self, rest: &Access)
        requires { 0 < self.old.spare }
        ensures places { self.new.places ≡ self.old.places ++ placed rest.now true ∷ [] }
        ensures spare { self.old.spare ≤ self.new.spare + 1 }
    {
        put(&mut self.slots, *rest, State::Retired);
        self.spare -= 1;
    }

    fn take_place(&mut self, access: Access)
        requires { 0 < self.old.spare }
        ensures places { self.new.places ≡ self.old.places ++ placed access false ∷ [] }
        ensures spare { self.old.spare ≤ self.new.spare + 1 }
    {
        let slot = self.first.wrapping_add(self.slots.len() as u64);
        self.waiting.push(Entry {
            node: access.node,
            index: access.index,
            slot,
        });
        put(&mut self.slots, access, State::Waiting);
        self.spare -= 1;
    }

    // Gives another state to the slots of the processor's accesses in the span that are not retired.
    fn change(&mut self, p: Node, span: Span, state: State)
        requires { waits state ≡ false }
        ensures places { self.new.places ≡ after_change p.0 span state self.old.places }
        ensures spare { self.new.spare ≡ self.old.spare }
    {
        let entries = self.waiting.list_of(p);
        mark_all(&mut self.slots, self.first, entries, p, span, state);
        self.waiting.remove(p, span);
    }
}
