// The moves of lines in one tick.
ghost use Rattle.std.specs.Prelude.{◌≡◌, ◌+◌, ◌<◌, ◌≤◌, ◌==◌, ◌∷◌, ◌++◌, [], length, true, Some};
ghost use Rattle.std.specs.List.{list_any};
ghost use Rattle.rsim_base.specs.Limits.{max_processors};
ghost use Rattle.memory_contracts.specs.Flat as Flat;
ghost use Rattle.memory_contracts.specs.Flat.{is_at, left_by};
ghost use Rattle.memory_contracts.specs.Parts.{AreFew, AreKnown, AreTurns, has_line, moves_of, nodes_in, owner_in};
ghost use Rattle.memory_contracts.specs.Updates.{with_at};

use crate::owners::Owners;
use crate::store::LostList;
use crate::wishes::Wishes;
use arrayvec::ArrayVec;
use rsim_base::{Line, MAX_PROCESSORS, Node};

/// The most nodes that a machine has.
pub const MOST_NODES: usize = MAX_PROCESSORS as usize;

/// The lines that have moved in a tick.
pub type MovedList = ArrayVec<Line, MOST_NODES>;

/// The turn of node `p`: it gets the line that its oldest wish asks for.
pub fn turn(
    owners: &mut Owners,
    wishes: &mut Wishes,
    moved: &mut MovedList,
    lost: &mut LostList,
    p: Node,
)
    requires node { p.0 < nodes_in wishes.old }
    requires known { AreKnown owners.old wishes.old }
    requires few { AreFew wishes.old }
    requires room { (length moved.old.items < max_processors) × (length lost.old.items < 128) }
    ensures rule { moves_of owners.new wishes.new moved.new lost.new ≡ Flat.turn p.0 (moves_of owners.old wishes.old moved.old lost.old) }
    ensures nodes { nodes_in wishes.new ≡ nodes_in wishes.old }
    ensures lines { has_line owners.new ≡ has_line owners.old }
    ensures known { AreKnown owners.new wishes.new }
    ensures few { AreFew wishes.new }
    ensures room { (length moved.new.items ≤ length moved.old.items + 1) × (length lost.new.items ≤ length lost.old.items + 1) }
{
    let Some(wish) = wishes.first(p) else {
        return;
    };
    if have_moved(moved, wish.line) {
        return;
    }
    wishes.drop_first(p);
    if !is_at(owners.owner(wish.line), p) {
        give(owners, moved, lost, wish.line, p);
    }
}

// Whether a line is among those that have moved.
fn have_moved(moved: &MovedList, line: Line) -> bool
    ensures { result ≡ list_any (λ l. l.0 == line.0) moved.now.items }
{
    moved.as_slice().iter().any(|other| other.0 == line.0)
}

/// Whether node `p` has what has this owner.
pub fn is_at(owner: Option<Node>, p: Node) -> bool
    ensures { result ≡ is_at owner p.0 }
{
    match owner {
        None => false,
        Some(q) => q.0 == p.0,
    }
}

// Moves a line to node `p`.
fn give(owners: &mut Owners, moved: &mut MovedList, lost: &mut LostList, line: Line, p: Node)
    requires known { has_line owners.old line.0 ≡ true }
    requires room { (length moved.old.items < max_processors) × (length lost.old.items < 128) }
    ensures owner { owner_in owners.new ≡ with_at (owner_in owners.old) line.0 (Some p) }
    ensures lines { has_line owners.new ≡ has_line owners.old }
    ensures moved { moved.new.items ≡ moved.old.items ++ line ∷ [] }
    ensures lost { lost.new.items ≡ lost.old.items ++ left_by (owner_in owners.old line.0) line.0 }
{
    if let Some(q) = owners.owner(line) {
        lost.push((q, line));
    }
    moved.push(line);
    owners.give(line, p);
}

/// The turns of all nodes in one tick, in rising order. `lost` has afterwards the lines that left a node.
pub fn take_turns(owners: &mut Owners, wishes: &mut Wishes, lost: &mut LostList)
    requires nodes { nodes_in wishes.old ≤ max_processors }
    requires known { AreKnown owners.old wishes.old }
    requires few { AreFew wishes.old }
    ensures rule { AreTurns owners.old wishes.old owners.new wishes.new lost.new }
    ensures nodes { nodes_in wishes.new ≡ nodes_in wishes.old }
    ensures lines { has_line owners.new ≡ has_line owners.old }
    ensures known { AreKnown owners.new wishes.new }
    ensures few { AreFew wishes.new }
{
    lost.clear();
    let mut moved = MovedList::new();
    for p in 0..wishes.nodes() {
        turn(owners, wishes, &mut moved, lost, Node(p as u8));
    }
}
