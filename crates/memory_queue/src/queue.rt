// The accesses in flight, in the order of the program.
ghost use Rattle.memory_queue.specs.declared.queued.Queued.{Queued};
ghost use Rattle.std.specs.Prelude.{◌≡◌, ◌≢◌, ◌^◌, ◌<◌, ◌≤◌, ℕ, IfOk, IfSome, All, None, Some, false, true, length, drop, take, filter, nat_le, option_and_then, option_copied, option_map, slice_get, slice_set};
ghost use Rattle.machine_config.specs.Allowed.{IsAllowed};
ghost use Rattle.circular_buffer.specs.Buffer.{last_item};
ghost use Rattle.list_facts.specs.Least.{IsGreatest, IsLeast};
ghost use Rattle.memory_queue.specs.Queues.{AreRising, is_after, are_stores_known, binds, binds_now, changed, cut, first_queue, forwarded_to, gives_way, has_place, is_met, is_met_at, is_ready, met_by, met_from, pushed, settles_now};

use crate::queued::Queued;
use crate::rows::{Rows, next, previous};
use circular_buffer::HeapCircularBuffer;
use machine_config::Config;
use order_axioms::Fences;
use rsim_base::{Addr, Kind, Model as Consistency, NoMemory, Size};
use std::alloc::Global;
use std::marker::Model;

/// The accesses of a core that are in flight, in the order of the program: where they are, which have their places in the
/// order, and which loads have their values. Each is known by the number of its instruction. No call but `make` takes memory.
#[derive(Drop)]
pub struct MemoryQueue {
    accesses: HeapCircularBuffer<Queued>,
    rows: Rows,
    model: Consistency,
    speculates: bool,
}

impl Model for MemoryQueue {
    ghost use Rattle.std.specs.Prelude.{◌≤◌, length};
    ghost use Rattle.memory_queue.specs.Queues.{AreRising, QueueView};
    ghost use Rattle.memory_queue.specs.Rows.{AreRows};
    ghost use Rattle.rsim_base.specs.Limits.{max_in_flight};

    ghost Value = { QueueView };

    ghost view = { λ q. record { accesses = q.accesses.items; size = q.accesses.capacity; model = q.model; speculates = q.speculates } };

    ghost invariant = { λ q. AreRising q.accesses.items × (q.accesses.capacity ≤ max_in_flight) × (length q.accesses.items ≤ 128) × AreRows q.rows q.accesses.items };
}

impl MemoryQueue {
    /// The queue of a configuration, with no access.
    ///
    /// # Errors
    /// Where memory is short.
    pub fn make(alloc: Global, config: &Config) -> Result<MemoryQueue, NoMemory>
        requires { IsAllowed config.now }
        ensures { IfOk result (λ q. q ≡ first_queue config.now) }
    {
        let size = config.active_list as usize;
        let Ok(accesses) = HeapCircularBuffer::with_capacity(alloc, size) else {
            return Err(NoMemory);
        };
        Ok(MemoryQueue {
            accesses,
            rows: Rows::none(),
            model: config.model,
            speculates: config.speculate,
        })
    }

    /// An access joins as the youngest. False where the queue has as many as the active list, and then nothing changes.
    pub fn push(&mut self, seq: u64, kind: Kind, size: Size, fences: Fences) -> bool
        requires { All (λ x. x.seq < seq) self.old.accesses }
        ensures value { result ≡ has_place self.old }
        ensures after { self.new ≡ pushed seq kind size fences self.old }
    {
        let access = Queued::joining(seq, kind, size, fences);
        let place = self.accesses.len();
        if self.accesses.try_push_back(access).is_err() {
            return false;
        }
        self.rows.put(place as u8, &access);
        true
    }

    /// An access has its place in the order; a store or atomic is performed. Nothing changes where none has this number.
    pub fn placed(&mut self, seq: u64)
        ensures { self.new ≡ changed seq (λ x. record x { placed = true }) self.old }
    {
        if let Some((place, access)) = self.find(seq) {
            self.put(
                place,
                Queued {
                    placed: true,
                    ..access
                },
            );
        }
    }

    /// The address of an access is known.
    pub fn address(&mut self, seq: u64, a: Addr)
        ensures { self.new ≡ changed seq (λ x. record x { addr = Some a }) self.old }
    {
        if let Some((place, access)) = self.find(seq) {
            self.put(
                place,
                Queued {
                    addr: Some(a),
                    ..access
                },
            );
        }
    }

    /// The value of a store is known.
    pub fn store_value(&mut self, seq: u64, v: u64)
        ensures { self.new ≡ changed seq (λ x. record x { value = Some v }) self.old }
    {
        if let Some((place, access)) = self.find(seq) {
            self.put(
                place,
                Queued {
                    value: Some(v),
                    ..access
                },
            );
        }
    }

    /// The place of the first load from place `from` on that may bind, as far as the accesses of this queue decide it: it is
    /// not bound, its address is known, and so is that of every earlier store and atomic. Either no earlier store or atomic
    /// that is not performed overlaps it, or the youngest of these gives it its value, as `forward` tells. Without speculation
    /// every earlier access that must come before it has its place, too.
    pub fn candidate(&self, from: u32) -> Option<u32>
        ensures { IsLeast from (binds_now self.now) (length self.now.accesses) result }
    {
        let end = self.first_unknown();
        if from as usize >= end {
            return None;
        }
        let waiting = self.rows.waiting.by_age(self.rows.head);
        let mut k = next(waiting, from as usize);
        while k < end {
            if self.may_bind(k) {
                return Some(k as u32);
            }
            k = next(waiting, k + 1);
        }
        None
    }

    /// The value that is forwarded to the load at place `k`: from the youngest earlier store or atomic that is not performed
    /// and overlaps it, if that is a plain store which covers the load and has its value.
    pub fn forward(&self, k: u32) -> Option<u64>
        ensures { result ≡ forwarded_to k self.now.accesses }
    {
        let load = self.accesses.get(k as usize)?;
        let a = load.addr?;
        let earlier = self.met(k as usize, a, load.size)?;
        self.known(earlier).gives(a, load.size)
    }

    /// The place of the youngest earlier store or atomic that is not performed and overlaps the access at place `k`. `None`
    /// where there is none, or the address is not known.
    pub fn source(&self, k: u32) -> Option<u32>
        ensures last { IsGreatest (is_met k self.now.accesses) k result }
        ensures met { option_and_then (λ j. slice_get self.now.accesses j) result ≡ met_from k self.now.accesses }
    {
        let load = self.accesses.get(k as usize)?;
        let a = load.addr?;
        let earlier = self.met(k as usize, a, load.size)?;
        Some(earlier as u32)
    }

    /// The load at place `k` has its value.
    pub fn bind(&mut self, k: u32)
        requires { k < length self.old.accesses }
        ensures { self.new ≡ binds k self.old }
    {
        if let Some(load) = self.accesses.get(k as usize) {
            let load = Queued {
                bound: true,
                ..*load
            };
            self.put(k as usize, load);
        }
    }

    /// The place of the first load from place `from` on that is bound and has no place in the order, though every earlier
    /// access that must come before it has one.
    pub fn settles(&self, from: u32) -> Option<u32>
        ensures { IsLeast from (settles_now self.now) (length self.now.accesses) result }
    {
        let end = self.accesses.len();
        if from as usize >= end {
            return None;
        }
        let settling = self.rows.settling.by_age(self.rows.head);
        let mut k = next(settling, from as usize);
        while k < end {
            if self.may_settle(k) {
                return Some(k as u32);
            }
            k = next(settling, k + 1);
        }
        None
    }

    /// The access with `k` older ones. `None` where there is none.
    pub fn at(&self, k: u32) -> Option<&Queued>
        ensures { option_copied result ≡ slice_get self.now.accesses k }
    {
        self.accesses.get(k as usize)
    }

    /// The number of the access with `k` older ones. `None` where there is none.
    pub fn number(&self, k: u32) -> Option<u64>
        ensures { result ≡ option_map (λ x. x.seq) (slice_get self.now.accesses k) }
    {
        let access = self.accesses.get(k as usize)?;
        Some(access.seq)
    }

    /// Takes the oldest access out, and answers its number.
    pub fn pop(&mut self) -> Option<u64>
        ensures value { result ≡ option_map (λ x. x.seq) (slice_get self.old.accesses 0) }
        ensures after { self.new ≡ record self.old { accesses = drop 1 self.old.accesses } }
    {
        let access = self.accesses.pop_front()?;
        self.rows.pop();
        Some(access.seq)
    }

    /// Takes all accesses out whose number is greater.
    pub fn cut_after(&mut self, seq: u64)
        ensures { self.new ≡ cut seq self.old }
    {
        drop_after(&mut self.accesses, seq);
        self.rows.cut(self.accesses.len() as u8);
    }

    // The access of this number, and its place.
    fn find(&self, seq: u64) -> Option<(usize, Queued)>
        ensures found { IfSome result (λ x. (slice_get self.now.accesses x.0 ≡ Some x.1) × (x.1.seq ≡ seq)) }
        ensures changed { IfSome result (λ x. (change : Queued → Queued) → changed seq change self.now ≡ record self.now { accesses = slice_set self.now.accesses x.0 (change x.1) }) }
        ensures none { result ≡ None → (change : Queued → Queued) → changed seq change self.now ≡ self.now }
    {
        for place in 0..self.accesses.len() {
            let access = self.known(place);
            if access.seq == seq {
                return Some((place, *access));
            }
        }
        None
    }

    // What is known of the access at a place.
    fn known(&self, place: usize) -> &Queued
        requires { place < length self.now.accesses }
        ensures { slice_get self.now.accesses place ≡ Some result.now }
    {
        self.accesses.get(place).unwrap()
    }

    // Puts an access in the place of one with the same number.
    fn put(&mut self, place: usize, access: Queued)
        requires { (x : Queued) × (slice_get self.old.accesses place ≡ Some x) × (access.seq ≡ x.seq) }
        ensures { self.new ≡ record self.old { accesses = slice_set self.old.accesses place access } }
    {
        let Some(there) = self.accesses.get_mut(place) else {
            return;
        };
        *there = access;
        self.rows.put(place as u8, &access);
    }

    // The place of the oldest store or atomic at an address that is not known, or as many as there are. Behind it no load may
    // bind.
    fn first_unknown(&self) -> usize
        ensures within { result ≤ length self.now.accesses }
        ensures small { result < 2 ^ 32 }
        ensures known { (k : ℕ) → k ≤ result → are_stores_known (take k self.now.accesses) ≡ true }
        ensures rest { (k : ℕ) → result ≤ k → k < length self.now.accesses → binds_now self.now k ≡ false }
    {
        let unknown = self.rows.unknown.by_age(self.rows.head);
        let oldest = next(unknown, 0);
        oldest.min(self.accesses.len())
    }

    // Whether the access at place `k`, before which every store has an address, is a load that may bind.
    fn may_bind(&self, k: usize) -> bool
        requires within { k < length self.now.accesses }
        requires known { are_stores_known (take k self.now.accesses) ≡ true }
        ensures { result ≡ binds_now self.now k }
    {
        let load = self.known(k);
        if load.kind != Kind::Load || load.bound {
            return false;
        }
        let Some(a) = load.addr else {
            return false;
        };
        self.gives_way(k, a, load.size) && (self.speculates || self.is_ready(k, a, load))
    }

    // Whether what a load at place `k` of `n` bytes from `a` on would meet gives its value, or it meets nothing.
    fn gives_way(&self, k: usize, a: Addr, n: Size) -> bool
        requires { k ≤ length self.now.accesses }
        ensures { result ≡ gives_way a n (met_by (take k self.now.accesses) a n) }
    {
        match self.met(k, a, n) {
            None => true,
            Some(earlier) => self.known(earlier).gives(a, n).is_some(),
        }
    }

    // The place of the youngest store or atomic before place `k` that is not performed and overlaps the `n` bytes from `a` on.
    fn met(&self, k: usize, a: Addr, n: Size) -> Option<usize>
        requires { k ≤ length self.now.accesses }
        ensures last { IsGreatest (is_met_at a n self.now.accesses) k result }
        ensures value { met_by (take k self.now.accesses) a n ≡ option_and_then (λ j. slice_get self.now.accesses j) result }
    {
        let stores = self.rows.stores.by_age(self.rows.head);
        let mut end = previous(stores, k);
        while end > 0 {
            let earlier = end - 1;
            if self.known(earlier).meets(a, n) {
                return Some(earlier);
            }
            end = previous(stores, earlier);
        }
        None
    }

    // Whether the access at place `k` is a load that is bound, has no place yet, and is ready for one.
    fn may_settle(&self, k: usize) -> bool
        requires { k < length self.now.accesses }
        ensures { result ≡ settles_now self.now k }
    {
        let load = self.known(k);
        if load.kind != Kind::Load || !load.bound || load.placed {
            return false;
        }
        let Some(a) = load.addr else {
            return false;
        };
        self.is_ready(k, a, load)
    }

    // Whether each access before place `k` that must come before this one at `a` has its place.
    fn is_ready(&self, k: usize, a: Addr, access: &Queued) -> bool
        requires { k < length self.now.accesses }
        ensures { result ≡ is_ready self.now.model (take k self.now.accesses) a access.now }
    {
        let unplaced = self.rows.unplaced.by_age(self.rows.head);
        let mut place = next(unplaced, 0);
        while place < k {
            if self.known(place).holds_back(self.model, a, access) {
                return false;
            }
            place = next(unplaced, place + 1);
        }
        true
    }
}

// Numbers rise along the queue, so what is to be taken out stands at its end.
fn drop_after(accesses: &mut HeapCircularBuffer<Queued>, seq: u64)
    requires { AreRising accesses.old.items }
    ensures rising { AreRising accesses.new.items }
    ensures left { accesses.new ≡ record accesses.old { items = filter (λ x. nat_le x.seq seq) accesses.old.items } }
    ensures oldest { accesses.new.items ≡ take (length accesses.new.items) accesses.old.items }
{
    while is_youngest_after(accesses, seq) {
        accesses.pop_back();
    }
}

// Whether there is an access, and the youngest has a greater number.
fn is_youngest_after(accesses: &HeapCircularBuffer<Queued>, seq: u64) -> bool
    ensures { result ≡ is_after seq (last_item accesses.now.items) }
{
    accesses.back().is_some_and(|access| access.seq > seq)
}
