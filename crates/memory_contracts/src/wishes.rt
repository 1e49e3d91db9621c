// The lines that nodes ask for.
ghost use Rattle.std.specs.Prelude.{◌≡◌, ℕ, ◌<◌, [], ◌∷◌, ◌++◌, drop, length, slice_get, IfOk};
ghost use Rattle.std.specs.List.{list_any};
ghost use Rattle.memory_contracts.specs.Store.{covers};
ghost use Rattle.memory_contracts.specs.Parts.{nodes_in, wanted_in, wish_of, wishes_in};
ghost use Rattle.memory_contracts.specs.Updates.{with_at};

use arrayvec::ArrayVec;
use rsim_base::{Line, NoMemory, Node};
use std::alloc::Global;

/// A line that a node asks for, and whether it asks to own it.
#[derive(Clone, Copy, Debug, Default, PartialEq, Eq)]
pub struct Wanted {
    pub line: Line,
    pub own: bool,
}

impl Wanted {
    /// Whether it asks for at least this.
    pub fn covers(&self, line: Line, own: bool) -> bool
        ensures { result ≡ covers line.0 own (wish_of self.now) }
    {
        self.line.0 == line.0 && (self.own || !own)
    }
}

/// How many wishes a node may have.
pub const MOST_WISHES: usize = 16;

/// The wishes of each node, the oldest first.
#[derive(Drop)]
pub struct Wishes {
    lists: Vec<ArrayVec<Wanted, MOST_WISHES>>,
}

impl Wishes {
    /// No wishes, of so many nodes.
    ///
    /// # Errors
    /// Where memory is short.
    pub fn make(alloc: Global, nodes: u32) -> Result<Wishes, NoMemory>
        ensures nodes { IfOk result (λ made. nodes_in made ≡ nodes) }
        ensures none { IfOk result (λ made. (p : ℕ) → wanted_in made p ≡ []) }
    {
        let mut lists = Vec::new(alloc);
        for _node in 0..nodes {
            if lists.push(ArrayVec::new()).is_err() {
                return Err(NoMemory);
            }
        }
        Ok(Wishes { lists })
    }

    /// How many nodes there are.
    pub fn nodes(&self) -> usize
        ensures { result ≡ nodes_in self.now }
    {
        self.lists.len()
    }

    /// How many wishes node `p` has.
    pub fn count(&self, p: Node) -> usize
        requires { p.0 < nodes_in self.now }
        ensures { result ≡ length (wanted_in self.now p.0) }
    {
        self.lists[p.0 as usize].len()
    }

    /// The oldest wish of node `p`.
    pub fn first(&self, p: Node) -> Option<Wanted>
        requires { p.0 < nodes_in self.now }
        ensures { result ≡ slice_get (wanted_in self.now p.0) 0 }
    {
        self.lists[p.0 as usize].as_slice().first().copied()
    }

    /// Whether a wish of node `p` asks for at least this.
    pub fn cover(&self, p: Node, line: Line, own: bool) -> bool
        requires { p.0 < nodes_in self.now }
        ensures { result ≡ list_any (covers line.0 own) (wishes_in self.now p.0) }
    {
        covered(self.lists[p.0 as usize].as_slice(), line, own)
    }

    /// Takes the oldest wish of node `p` off.
    pub fn drop_first(&mut self, p: Node)
        requires node { p.0 < nodes_in self.old }
        requires some { 0 < length (wanted_in self.old p.0) }
        ensures wishes { wanted_in self.new ≡ with_at (wanted_in self.old) p.0 (drop 1 (wanted_in self.old p.0)) }
        ensures nodes { nodes_in self.new ≡ nodes_in self.old }
    {
        self.lists[p.0 as usize].remove(0);
    }

    /// Puts a wish behind those of node `p`.
    pub fn push(&mut self, p: Node, wish: Wanted)
        requires node { p.0 < nodes_in self.old }
        requires room { length (wanted_in self.old p.0) < 16 }
        ensures wishes { wanted_in self.new ≡ with_at (wanted_in self.old) p.0 (wanted_in self.old p.0 ++ wish ∷ []) }
        ensures nodes { nodes_in self.new ≡ nodes_in self.old }
    {
        self.lists[p.0 as usize].push(wish);
    }
}

// Whether one of these asks for at least this.
fn covered(list: &[Wanted], line: Line, own: bool) -> bool
    ensures { result ≡ list_any (λ w. covers line.0 own (wish_of w)) list.now }
{
    list.iter().any(|wish| wish.covers(line, own))
}
