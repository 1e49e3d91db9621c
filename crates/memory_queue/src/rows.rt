// The accesses in flight as sets of places of a ring, by what is asked of them.
ghost use Rattle.std.specs.Prelude.{◌≡◌, ℕ, ◌++◌, ◌∷◌, [], ◌<◌, ◌≤◌, ◌==◌, List, drop, if◌then◌else◌, length, slice_set, take};
ghost use Rattle.ring_set.specs.Sets.{aged, has};
ghost use Rattle.memory_queue.specs.Steps.{IsNext, IsPrevious};

use crate::queued::Queued;
use ring_set::{PLACES, Places};

/// Which accesses pass which test, by their places in the ring. The oldest stands at `head`.
#[derive(Clone, Copy, Debug)]
pub(crate) struct Rows {
    pub(crate) head: u8,
    /// Stores and atomics that are not performed, at an address that is known.
    pub(crate) stores: Places,
    /// Stores and atomics at an address that is not known.
    pub(crate) unknown: Places,
    /// Loads that wait for their values, at an address that is known.
    pub(crate) waiting: Places,
    /// Loads that have their values, and no place in the order.
    pub(crate) settling: Places,
    /// Accesses that have no place in the order.
    pub(crate) unplaced: Places,
    ghost in_range: { head < 128 },
}

impl Rows {
    ghost use Rattle.memory_queue.specs.declared.queued.Queued.{Queued};
    ghost use Rattle.memory_queue.specs.Rows.{AreRows};

    /// Of no access.
    pub(crate) fn none() -> Rows
        ensures { AreRows result [] }
    {
        Rows {
            head: 0,
            stores: Places::none(),
            unknown: Places::none(),
            waiting: Places::none(),
            settling: Places::none(),
            unplaced: Places::none(),
        }
    }

    /// The access with `k` older ones is this one from now on.
    pub(crate) fn put(&mut self, k: u8, x: &Queued)
        requires { k < 128 }
        ensures changed { (xs : List Queued) → k < length xs → AreRows self.old xs → AreRows self.new (slice_set xs k x.now) }
        ensures joined { (xs : List Queued) → k ≡ length xs → AreRows self.old xs → AreRows self.new (xs ++ x.now ∷ []) }
    {
        let place = (self.head + k) % PLACES;
        self.stores = with_if(self.stores, place, x.is_open());
        self.unknown = with_if(self.unknown, place, !x.lets_loads_pass());
        self.waiting = with_if(self.waiting, place, x.is_waiting());
        self.settling = with_if(self.settling, place, x.is_settling());
        self.unplaced = with_if(self.unplaced, place, !x.placed);
    }

    /// The oldest access is gone.
    pub(crate) fn pop(&mut self)
        ensures { (xs : List Queued) → length xs ≤ 128 → AreRows self.old xs → AreRows self.new (drop 1 xs) }
    {
        let head = self.head;
        self.stores = self.stores.without(head);
        self.unknown = self.unknown.without(head);
        self.waiting = self.waiting.without(head);
        self.settling = self.settling.without(head);
        self.unplaced = self.unplaced.without(head);
        self.head = (head + 1) % PLACES;
    }

    /// Only the `n` oldest are left.
    pub(crate) fn cut(&mut self, n: u8)
        requires { n ≤ 128 }
        ensures { (xs : List Queued) → AreRows self.old xs → AreRows self.new (take n xs) }
    {
        let left = Places::run(self.head, n);
        self.stores = self.stores.and(left);
        self.unknown = self.unknown.and(left);
        self.waiting = self.waiting.and(left);
        self.settling = self.settling.and(left);
        self.unplaced = self.unplaced.and(left);
    }
}

/// The least number from `from` on that is in the set; 128 where there is none.
pub(crate) fn next(set: Places, from: usize) -> usize
    requires { from ≤ 128 }
    ensures { IsNext (aged set 0) from 128 result }
{
    let later = set.outside(Places::run(0, from as u8));
    usize::from(later.oldest(0))
}

/// The greatest number below `n` that is in the set, and one more; 0 where there is none.
pub(crate) fn previous(set: Places, n: usize) -> usize
    requires { n ≤ 128 }
    ensures { IsPrevious (aged set 0) n result }
{
    usize::from(set.youngest(0, n as u8))
}

// The set with this place, or without it.
fn with_if(set: Places, place: u8, is_in: bool) -> Places
    requires { place < 128 }
    ensures { (j : ℕ) → has result j ≡ (if j == place then is_in else has set j) }
{
    if is_in {
        set.with(place)
    } else {
        set.without(place)
    }
}
