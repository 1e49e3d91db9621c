// Sets of nodes.
ghost use Rattle.std.specs.Prelude.{◌≡◌, ◌<◌, ◌≤◌};
ghost use Rattle.rsim_base.specs.Limits.{max_processors};
ghost use Rattle.memory_contracts.specs.Protocol.Lines.{besides, is_some_node, joined, nobody};

use rsim_base::{MAX_PROCESSORS, Node};

/// The most nodes that a set may have.
pub const MOST_NODES: usize = MAX_PROCESSORS as usize;

/// A set of nodes of one machine.
#[derive(Clone, Copy)]
pub struct NodeSet {
    has: [bool; MOST_NODES],
}

impl NodeSet {
    ghost use Rattle.directory.specs.NodeSets.{set_of};

    /// The set of no node.
    pub fn empty() -> NodeSet
        ensures { set_of result ≡ nobody }
    {
        NodeSet {
            has: [false; MOST_NODES],
        }
    }

    /// Whether node `x` is in the set.
    pub fn contains(&self, x: Node) -> bool
        requires { x.0 < max_processors }
        ensures { result ≡ set_of self.now x.0 }
    {
        self.has[x.0 as usize]
    }

    /// Puts node `x` in.
    pub fn insert(&mut self, x: Node)
        requires { x.0 < max_processors }
        ensures { set_of self.new ≡ joined x.0 (set_of self.old) }
    {
        self.has[x.0 as usize] = true;
    }

    /// Takes node `x` out.
    pub fn remove(&mut self, x: Node)
        requires { x.0 < max_processors }
        ensures { set_of self.new ≡ besides x.0 (set_of self.old) }
    {
        self.has[x.0 as usize] = false;
    }

    /// Whether one of the nodes below `nodes` is in the set.
    pub fn has_some(&self, nodes: u32) -> bool
        requires { nodes ≤ max_processors }
        ensures { result ≡ is_some_node nodes (set_of self.now) }
    {
        let mut some = false;
        for x in 0..nodes {
            some = self.contains(Node(x as u8)) || some;
        }
        some
    }
}
