// The slots of a log: its places, and between them those that were dropped.
ghost use Rattle.std.specs.Prelude.{◌≡◌, ◌+◌, ◌<◌, ◌≤◌, ◌++◌, ◌∷◌, [], All, false};
ghost use Rattle.std.specs.VecDeque.{deque_len, deque_capacity};
ghost use Rattle.order_log.specs.Slots as slot;

use crate::span::Span;
use crate::waiting::Entry;
use rsim_base::{Access, Node};
use std::collections::VecDeque;
use std::mem::size_of;

/// What has become of the access in a slot.
#[derive(Clone, Copy, Debug, PartialEq, Eq)]
pub(crate) enum State {
    /// It has its place, and is not retired.
    Waiting,
    /// It has its place, and is retired.
    Retired,
    /// It has no place any longer.
    Dropped,
}

/// An access, and what has become of it.
#[derive(Clone, Copy, Debug, PartialEq, Eq)]
pub(crate) struct Slot {
    pub(crate) access: Access,
    pub(crate) state: State,
}

// A log of a long run is kept whole.
const _: () = prove!(size_of::<Slot>() <= 48);

/// Puts an access at the end.
pub(crate) fn put(slots: &mut VecDeque<Slot>, access: Access, state: State)
    requires { deque_len slots.old < deque_capacity slots.old }
    ensures items { slots.new.items ≡ slots.old.items ++ record { access = access; state = state } ∷ [] }
    ensures len { deque_len slots.new ≡ deque_len slots.old + 1 }
    ensures capacity { deque_capacity slots.new ≡ deque_capacity slots.old }
{
    slots.push_back_reserved(Slot { access, state });
}

/// Gives a new state to the slots of these entries that are of the node and in the span. Slots are counted from `first`
/// on, modulo 2^64.
pub(crate) fn mark_all(
    slots: &mut VecDeque<Slot>,
    first: u64,
    entries: &[Entry],
    node: Node,
    span: Span,
    state: State,
)
    requires { All (λ e. slot.offset first e.slot < deque_len slots.old) entries.now }
    ensures marked { slot.MarksAll first entries.now node.0 span state slots.old.items slots.new.items }
    ensures len { deque_len slots.new ≡ deque_len slots.old }
    ensures capacity { deque_capacity slots.new ≡ deque_capacity slots.old }
{
    for entry in entries {
        mark_entry(slots, first, entry, node, span, state);
    }
}

// Gives a new state to the slot of the entry, if that is of the node and in the span.
fn mark_entry(
    slots: &mut VecDeque<Slot>,
    first: u64,
    entry: &Entry,
    node: Node,
    span: Span,
    state: State,
)
    requires { slot.offset first entry.now.slot < deque_len slots.old }
    ensures marked { slots.new.items ≡ slot.marked first node.0 span state entry.now slots.old.items }
    ensures len { deque_len slots.new ≡ deque_len slots.old }
    ensures capacity { deque_capacity slots.new ≡ deque_capacity slots.old }
{
    if entry.is_meant(node, span) {
        mark(slots, entry.slot.wrapping_sub(first) as usize, state);
    }
}

// Gives a new state to the slot that stands there.
fn mark(slots: &mut VecDeque<Slot>, at: usize, state: State)
    requires { at < deque_len slots.old }
    ensures marked { slots.new.items ≡ slot.state_at at state slots.old.items }
    ensures len { deque_len slots.new ≡ deque_len slots.old }
    ensures capacity { deque_capacity slots.new ≡ deque_capacity slots.old }
{
    slots[at].state = state;
}

/// Takes the dropped slots out that stand first, and counts `first` on.
pub(crate) fn skip_dropped(slots: &mut VecDeque<Slot>, first: &mut u64)
    ensures places { slot.places_of slots.new.items ≡ slot.places_of slots.old.items }
    ensures entries { slot.SameEntries first.old slots.old.items first.new slots.new.items }
    ensures stands { slot.front_is State.Dropped slots.new.items ≡ false }
    ensures len { deque_len slots.new ≤ deque_len slots.old }
    ensures capacity { deque_capacity slots.new ≡ deque_capacity slots.old }
{
    while is_front(slots, State::Dropped) {
        let _passed = slots.pop_front();
        *first = first.wrapping_add(1);
    }
}

/// Whether there is a first slot, and this has become of its access.
pub(crate) fn is_front(slots: &VecDeque<Slot>, state: State) -> bool
    ensures { result ≡ slot.front_is state slots.now.items }
{
    match slots.front() {
        Some(slot) => slot.state == state,
        None => false,
    }
}
