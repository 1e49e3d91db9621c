// One access in flight.
ghost use Rattle.std.specs.Prelude.{◌≡◌, ◌||◌, ◌&&◌, not, is_some, Some};
ghost use Rattle.rsim_base.specs.Accesses.{stores};
ghost use Rattle.memory_queue.specs.Queues.{access_at, given_by, is_load, is_needed, joining, meets};

use order_axioms::{Fences, needs};
use rsim_base::{Access, Addr, Kind, Model, Node, Size, bytes_within, overlap};

/// An access, as far as it is known.
#[derive(Clone, Copy, Debug, PartialEq, Eq)]
pub struct Queued {
    pub seq: u64,
    pub kind: Kind,
    pub size: Size,
    /// The fences before it in the program.
    pub fences: Fences,
    /// None while it is not known, and where the access traps.
    pub addr: Option<Addr>,
    /// What a store stores, once it is known.
    pub value: Option<u64>,
    /// Whether it has its place in the order. A store or atomic then is performed.
    pub placed: bool,
    /// Whether a load has its value.
    pub bound: bool,
}

impl Queued {
    /// An access of which nothing else is known.
    pub(crate) fn joining(seq: u64, kind: Kind, size: Size, fences: Fences) -> Queued
        ensures { result ≡ joining seq kind size fences }
    {
        Queued {
            seq,
            kind,
            size,
            fences,
            addr: None,
            value: None,
            placed: false,
            bound: false,
        }
    }

    /// Whether it is no store or atomic at an address that is not known.
    pub(crate) fn lets_loads_pass(&self) -> bool
        ensures { result ≡ (not (stores self.now.kind) || is_some self.now.addr) }
    {
        !self.kind.stores() || self.addr.is_some()
    }

    /// Whether it is a store or atomic that is not performed, at an address that is known.
    pub(crate) fn is_open(&self) -> bool
        ensures { result ≡ ((stores self.now.kind && not self.now.placed) && is_some self.now.addr) }
    {
        self.kind.stores() && !self.placed && self.addr.is_some()
    }

    /// Whether it is a load that waits for its value, at an address that is known.
    pub(crate) fn is_waiting(&self) -> bool
        ensures { result ≡ ((is_load self.now.kind && not self.now.bound) && is_some self.now.addr) }
    {
        self.kind == Kind::Load && !self.bound && self.addr.is_some()
    }

    /// Whether it is a load that has its value, and no place in the order.
    pub(crate) fn is_settling(&self) -> bool
        ensures { result ≡ (is_load self.now.kind && (self.now.bound && not self.now.placed)) }
    {
        self.kind == Kind::Load && (self.bound && !self.placed)
    }

    /// Whether it must come before a later access at `a`. While its own address is not known it counts as overlapping.
    pub(crate) fn is_needed(&self, m: Model, a: Addr, later: &Queued) -> bool
        ensures { result ≡ is_needed m self.now a later.now }
    {
        let at = self.addr.unwrap_or(a);
        needs(
            m,
            &self.access(at),
            &self.fences,
            &later.access(a),
            &later.fences,
        )
    }

    /// Whether it must come before a later access at `a`, and has no place yet.
    pub(crate) fn holds_back(&self, m: Model, a: Addr, later: &Queued) -> bool
        ensures { result ≡ (not self.now.placed && is_needed m self.now a later.now) }
    {
        !self.placed && self.is_needed(m, a, later)
    }

    /// Whether it is a store or atomic that is not performed, and stores at a byte of the `n` from `a` on.
    pub(crate) fn meets(&self, a: Addr, n: Size) -> bool
        ensures { result ≡ meets a n self.now }
    {
        let unperformed = self.kind.stores() && !self.placed;
        unperformed && self.addr.is_some_and(|b| overlap(b, self.size, a, n))
    }

    /// What it forwards to a load of `n` bytes from `a` on: `None` unless it is a plain store that covers them and has its
    /// value.
    pub(crate) fn gives(&self, a: Addr, n: Size) -> Option<u64>
        ensures { result ≡ given_by a n (Some self.now) }
    {
        let b = self.addr?;
        if self.kind != Kind::Store {
            return None;
        }
        let value = self.value?;
        bytes_within(value, self.size, a.0.wrapping_sub(b.0), n)
    }

    // As an access of its program at `a`, with what counts for its order.
    fn access(&self, a: Addr) -> Access
        ensures { result ≡ access_at a self.now }
    {
        Access {
            node: Node(0),
            kind: self.kind,
            size: self.size,
            index: 0,
            addr: a,
            loaded: 0,
            stored: 0,
        }
    }
}
