// What a home notes of a line.
ghost use Rattle.std.specs.Prelude.{◌≡◌};
ghost use Rattle.directory.specs.Homes.{is_idle};
ghost use Rattle.directory.specs.Meanings.{phase_of};

use crate::node_set::NodeSet;
use crate::word::LineBytes;
use rsim_base::Node;

/// What a home is about with a line.
#[derive(Clone, Copy)]
pub enum LinePhase {
    /// No request is served.
    Idle,
    /// The line is to be owned by a node: those left have still to say that they gave up their copies.
    Collecting { to: Node, left: NodeSet },
    /// The line is called back from a node for another: the whole of it, or the owning alone.
    Recalling { from: Node, to: Node, whole: bool },
    /// The line is on its way to a node.
    Granting { to: Node },
}

/// What a home has noted of a line.
#[derive(Clone, Copy)]
pub struct LineRecord {
    pub phase: LinePhase,
    pub owner: Option<Node>,
    pub sharers: NodeSet,
    pub memory: LineBytes,
}

impl LineRecord {
    /// Whether no request is served.
    pub fn is_idle(&self) -> bool
        ensures { result ≡ is_idle (phase_of self.now.phase) }
    {
        matches!(self.phase, LinePhase::Idle)
    }
}
