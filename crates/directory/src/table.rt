// The home's table.
ghost use Rattle.std.specs.Prelude.{◌≡◌, ◌<◌, ◌≤◌, if◌then◌else◌};
ghost use Rattle.rsim_base.specs.Limits.{max_processors};
ghost use Rattle.memory_contracts.specs.Protocol.HomeTable as Rows;
ghost use Rattle.memory_contracts.specs.Protocol.HomeTable.{home_row, home_takes};
ghost use Rattle.memory_contracts.specs.Protocol.Lines as Lines;
ghost use Rattle.memory_contracts.specs.Protocol.Messages as Says;
ghost use Rattle.directory.specs.Bounds.{IsKnown};
ghost use Rattle.directory.specs.NodeSets.{set_of};
ghost use Rattle.directory.specs.Meanings.{owner_of, record_of, step_of};
ghost use Rattle.memory_contracts.specs.Letters.{said};

use crate::line_record::{LinePhase, LineRecord};
use crate::node_set::NodeSet;
use crate::step::{Step, grants_owned, grants_shared};
use crate::word::LineBytes;
use machine_config::Protocol;
use memory_contracts::{Message, MsgKind};
use rsim_base::Node;

/// The home's table, of a protocol among so many nodes.
#[derive(Clone, Copy)]
pub struct HomeTable {
    pub protocol: Protocol,
    pub nodes: u32,
}

fn is_owner(owner: Option<Node>, x: Node) -> bool
    ensures { result ≡ Rows.is_owner (owner_of owner) x.0 }
{
    match owner {
        None => false,
        Some(q) => q.0 == x.0,
    }
}

impl HomeTable {
    fn is_mesi(&self) -> bool
        ensures { result ≡ Rows.is_mesi self.now.protocol }
    {
        matches!(self.protocol, Protocol::Mesi)
    }

    /// What the home does at a message of a node about a line of which this is noted.
    pub fn step(&self, noted: &LineRecord, m: &Message) -> Step
        requires few { self.now.nodes ≤ max_processors }
        requires from { m.now.from.0 < self.now.nodes }
        requires known { IsKnown self.now.nodes (record_of noted.now) }
        ensures { step_of result ≡ home_takes self.now.protocol self.now.nodes m.now.from.0 (said m.now) (record_of noted.now) }
    {
        match m.kind {
            MsgKind::GetS => self.at_get_s(noted, m.from),
            MsgKind::GetM => self.at_get_m(noted, m.from),
            MsgKind::Put => self.at_put(noted, m.from, m.bytes),
            MsgKind::InvAck => self.at_inv_ack(noted, m.from),
            MsgKind::RecallAck => self.at_recall_ack(noted, m.from, m.kept, m.bytes),
            MsgKind::Done => self.at_done(noted, m.from),
            MsgKind::Inv | MsgKind::Recall | MsgKind::Grant | MsgKind::PutAck => noted.stays(),
        }
    }

    // Node `p` asks for the line, to read it.
    fn at_get_s(&self, noted: &LineRecord, p: Node) -> Step
        requires few { self.now.nodes ≤ max_processors }
        requires from { p.0 < self.now.nodes }
        ensures { step_of result ≡ home_takes self.now.protocol self.now.nodes p.0 Says.GetS (record_of noted.now) }
    {
        match noted.phase {
            LinePhase::Idle => match noted.owner {
                None => self.lends(noted, p),
                Some(q) => noted.recalls(q, p, false),
            },
            _ => noted.lets_wait(),
        }
    }

    // A line that nobody owns is given to node `p` to read: to own where the protocol says so and nobody else has it.
    fn lends(&self, noted: &LineRecord, p: Node) -> Step
        requires few { self.now.nodes ≤ max_processors }
        requires from { p.0 < self.now.nodes }
        ensures { step_of result ≡ home_row self.now.protocol self.now.nodes (record_of noted.now) Lines.Idle None p.0 Says.GetS }
    {
        if self.is_mesi() && !noted.sharers.has_some(self.nodes) {
            return grants_owned(p, noted.sharers, noted.memory);
        }
        let mut sharers = noted.sharers;
        sharers.insert(p);
        grants_shared(p, sharers, noted.memory)
    }

    // Node `p` asks for the line, to own it.
    fn at_get_m(&self, noted: &LineRecord, p: Node) -> Step
        requires few { self.now.nodes ≤ max_processors }
        requires from { p.0 < self.now.nodes }
        ensures { step_of result ≡ home_takes self.now.protocol self.now.nodes p.0 Says.GetM (record_of noted.now) }
    {
        match noted.phase {
            LinePhase::Idle => match noted.owner {
                None => self.gives(noted, p),
                Some(q) => noted.recalls(q, p, true),
            },
            _ => noted.lets_wait(),
        }
    }

    // A line that nobody owns is given to node `p` to own, after the others have given up their copies.
    fn gives(&self, noted: &LineRecord, p: Node) -> Step
        requires few { self.now.nodes ≤ max_processors }
        requires from { p.0 < self.now.nodes }
        ensures { step_of result ≡ home_row self.now.protocol self.now.nodes (record_of noted.now) Lines.Idle None p.0 Says.GetM }
    {
        let mut others = noted.sharers;
        others.remove(p);
        if others.has_some(self.nodes) {
            noted.collects(p, others)
        } else {
            grants_owned(p, NodeSet::empty(), noted.memory)
        }
    }

    // Node `p` gives the line back.
    fn at_put(&self, noted: &LineRecord, p: Node, bytes: LineBytes) -> Step
        ensures { step_of result ≡ home_takes self.now.protocol self.now.nodes p.0 (Says.Put bytes) (record_of noted.now) }
    {
        match noted.phase {
            LinePhase::Idle => {
                if is_owner(noted.owner, p) {
                    noted.takes_back(p, bytes)
                } else {
                    noted.acknowledges(p)
                }
            }
            _ => noted.lets_wait(),
        }
    }

    // The copy of node `q` is gone.
    fn at_inv_ack(&self, noted: &LineRecord, q: Node) -> Step
        requires few { self.now.nodes ≤ max_processors }
        requires from { q.0 < self.now.nodes }
        ensures { step_of result ≡ home_takes self.now.protocol self.now.nodes q.0 Says.InvAck (record_of noted.now) }
    {
        match noted.phase {
            LinePhase::Collecting { to, left } => {
                let mut left = left;
                left.remove(q);
                if left.has_some(self.nodes) {
                    noted.turns_to(LinePhase::Collecting { to, left })
                } else {
                    grants_owned(to, NodeSet::empty(), noted.memory)
                }
            }
            _ => noted.stays(),
        }
    }

    // Node `x` hands back the bytes of the line, and may keep a shared copy.
    fn at_recall_ack(&self, noted: &LineRecord, x: Node, kept: bool, bytes: LineBytes) -> Step
        requires few { self.now.nodes ≤ max_processors }
        requires from { x.0 < self.now.nodes }
        requires known { IsKnown self.now.nodes (record_of noted.now) }
        ensures { step_of result ≡ home_takes self.now.protocol self.now.nodes x.0 (Says.RecallAck kept bytes) (record_of noted.now) }
    {
        match noted.phase {
            LinePhase::Recalling { from, to, whole } if from.0 == x.0 => {
                if whole {
                    grants_owned(to, NodeSet::empty(), bytes)
                } else {
                    grants_shared(to, sharers_after(from, to, kept), bytes)
                }
            }
            _ => noted.stays(),
        }
    }

    // The line has come to node `x`.
    fn at_done(&self, noted: &LineRecord, x: Node) -> Step
        ensures { step_of result ≡ home_takes self.now.protocol self.now.nodes x.0 Says.Done (record_of noted.now) }
    {
        match noted.phase {
            LinePhase::Granting { to } if to.0 == x.0 => noted.turns_to(LinePhase::Idle),
            _ => noted.stays(),
        }
    }
}

// Who shares a line that was called back from node `from` for node `to`.
fn sharers_after(from: Node, to: Node, kept: bool) -> NodeSet
    requires from { from.0 < max_processors }
    requires to { to.0 < max_processors }
    ensures { set_of result ≡ Lines.joined to.0 (if kept then Lines.joined from.0 Lines.nobody else Lines.nobody) }
{
    let mut sharers = NodeSet::empty();
    if kept {
        sharers.insert(from);
    }
    sharers.insert(to);
    sharers
}
