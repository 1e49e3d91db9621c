// The lines that a node asks for.
ghost use Rattle.std.specs.Prelude.{◌≡◌, IsTrue, drop, nat_lt, ◌<◌, ◌≤◌, ◌++◌, ◌∷◌, [], length, map, option_map, slice_get};
ghost use Rattle.std.specs.List.{list_any};
ghost use Rattle.memory_contracts.specs.Parts.{wish_of};
ghost use Rattle.memory_contracts.specs.Store.{covers, most_wishes};

use arrayvec::ArrayVec;
use memory_contracts::Wanted;
use miss_registers::MissRegisters;
use rsim_base::Line;

/// How many wishes a node may have.
const MOST_WISHES: usize = 16;

/// The wishes of a node, the oldest first.
#[derive(Drop)]
pub struct WishList {
    list: ArrayVec<Wanted, MOST_WISHES>,
}

impl WishList {
    ghost use Rattle.node_memory.specs.NodeParts.{wishes_in};
    ghost use Rattle.node_memory.specs.Starting.{is_first_covered, uncovered};

    /// No wishes.
    pub fn new() -> WishList
        ensures { wishes_in result ≡ [] }
    {
        WishList {
            list: ArrayVec::new(),
        }
    }

    /// Whether there is a place for one more.
    pub fn has_place(&self) -> bool
        ensures { result ≡ nat_lt (length (wishes_in self.now)) most_wishes }
    {
        self.list.len() < MOST_WISHES
    }

    /// Whether a wish asks for at least this.
    pub fn cover(&self, line: Line, own: bool) -> bool
        ensures { result ≡ list_any (covers line.0 own) (wishes_in self.now) }
    {
        covered(self.list.as_slice(), line, own)
    }

    /// The oldest.
    pub fn first(&self) -> Option<Wanted>
        ensures { option_map wish_of result ≡ slice_get (wishes_in self.now) 0 }
    {
        self.list.as_slice().first().copied()
    }

    /// Takes the oldest off.
    pub fn drop_first(&mut self)
        requires { 0 < length (wishes_in self.old) }
        ensures { wishes_in self.new ≡ drop 1 (wishes_in self.old) }
    {
        self.list.remove(0);
    }

    /// Puts a wish behind the others.
    pub fn push(&mut self, wish: Wanted)
        requires { length (wishes_in self.old) < most_wishes }
        ensures { wishes_in self.new ≡ wishes_in self.old ++ wish_of wish ∷ [] }
    {
        self.list.push(wish);
    }

    /// Takes the oldest off as long as a register covers it.
    pub fn drop_covered(&mut self, misses: &MissRegisters)
        ensures { wishes_in self.new ≡ uncovered misses.now (wishes_in self.old) }
    {
        while self.first_is_covered(misses) {
            self.drop_first();
        }
    }

    // Whether there is a wish, and a register covers the oldest.
    fn first_is_covered(&self, misses: &MissRegisters) -> bool
        ensures covered { result ≡ is_first_covered misses.now (wishes_in self.now) }
        ensures some { IsTrue result → 0 < length (wishes_in self.now) }
    {
        match self.first() {
            Some(wish) => misses.merge(wish.line, wish.own),
            None => false,
        }
    }
}

// Whether one of these asks for at least this.
fn covered(list: &[Wanted], line: Line, own: bool) -> bool
    ensures { result ≡ list_any (λ w. covers line.0 own (wish_of w)) list.now }
{
    list.iter().any(|wish| wish.covers(line, own))
}
