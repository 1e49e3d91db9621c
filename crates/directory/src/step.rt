// What a home may do at a message.
ghost use Rattle.std.specs.Prelude.{◌≡◌, false};
ghost use Rattle.memory_contracts.specs.Protocol.HomeTable as HomeTable;
ghost use Rattle.memory_contracts.specs.Protocol.Messages.{PutAck};
ghost use Rattle.directory.specs.NodeSets.{set_of};
ghost use Rattle.directory.specs.Meanings.{phase_of, record_of, step_of};

use crate::line_record::{LinePhase, LineRecord};
use crate::node_set::NodeSet;
use crate::word::{LineBytes, Word};
use rsim_base::Node;

/// To whom a home says something.
#[derive(Clone, Copy)]
pub enum Sent {
    Nothing,
    One { to: Node, word: Word },
    /// An Inv to each of these.
    Invs { to: NodeSet },
}

/// What a home does at a message about a line.
#[derive(Clone, Copy)]
pub struct Step {
    pub after: LineRecord,
    /// Whether the message is a request that has to wait.
    pub waits: bool,
    pub sent: Sent,
}

/// Node `to` is sent these bytes, to own them.
pub fn grants_owned(to: Node, sharers: NodeSet, bytes: LineBytes) -> Step
    ensures { step_of result ≡ HomeTable.grants_owned to.0 (set_of sharers) bytes }
{
    Step {
        after: LineRecord {
            phase: LinePhase::Granting { to },
            owner: Some(to),
            sharers,
            memory: bytes,
        },
        waits: false,
        sent: Sent::One {
            to,
            word: Word::Grant { owned: true, bytes },
        },
    }
}

/// Node `to` is sent these bytes, to read them.
pub fn grants_shared(to: Node, sharers: NodeSet, bytes: LineBytes) -> Step
    ensures { step_of result ≡ HomeTable.grants_shared to.0 (set_of sharers) bytes }
{
    Step {
        after: LineRecord {
            phase: LinePhase::Granting { to },
            owner: None,
            sharers,
            memory: bytes,
        },
        waits: false,
        sent: Sent::One {
            to,
            word: Word::Grant {
                owned: false,
                bytes,
            },
        },
    }
}

impl LineRecord {
    /// Nothing is done.
    pub fn stays(&self) -> Step
        ensures { step_of result ≡ HomeTable.nothing (record_of self.now) }
    {
        Step {
            after: *self,
            waits: false,
            sent: Sent::Nothing,
        }
    }

    /// The request has to wait.
    pub fn lets_wait(&self) -> Step
        ensures { step_of result ≡ HomeTable.waiting (record_of self.now) }
    {
        Step {
            waits: true,
            ..self.stays()
        }
    }

    /// The line is called back from node `from` for node `to`.
    pub fn recalls(&self, from: Node, to: Node, whole: bool) -> Step
        ensures { step_of result ≡ HomeTable.recalls from.0 to.0 whole (record_of self.now) }
    {
        Step {
            after: LineRecord {
                phase: LinePhase::Recalling { from, to, whole },
                ..*self
            },
            waits: false,
            sent: Sent::One {
                to: from,
                word: Word::Recall { whole },
            },
        }
    }

    /// These nodes have to give up their copies for node `to`.
    pub fn collects(&self, to: Node, others: NodeSet) -> Step
        ensures { step_of result ≡ HomeTable.collects to.0 (set_of others) (record_of self.now) }
    {
        Step {
            after: LineRecord {
                phase: LinePhase::Collecting { to, left: others },
                ..*self
            },
            waits: false,
            sent: Sent::Invs { to: others },
        }
    }

    /// The line changes its phase, and nothing is sent.
    pub fn turns_to(&self, phase: LinePhase) -> Step
        ensures { step_of result ≡ record { after = record (record_of self.now) { phase = phase_of phase }; waits = false; sent = HomeTable.to_none } }
    {
        Step {
            after: LineRecord { phase, ..*self },
            waits: false,
            sent: Sent::Nothing,
        }
    }

    /// The owner `from` gave the line back, with these bytes.
    pub fn takes_back(&self, from: Node, bytes: LineBytes) -> Step
        ensures { step_of result ≡ record { after = record (record_of self.now) { owner = None; memory = bytes }; waits = false; sent = HomeTable.to_one from.0 PutAck } }
    {
        Step {
            after: LineRecord {
                owner: None,
                memory: bytes,
                ..*self
            },
            ..self.acknowledges(from)
        }
    }

    /// Node `from` is told that what it gave back is noted.
    pub fn acknowledges(&self, from: Node) -> Step
        ensures { step_of result ≡ record { after = record_of self.now; waits = false; sent = HomeTable.to_one from.0 PutAck } }
    {
        Step {
            after: *self,
            waits: false,
            sent: Sent::One {
                to: from,
                word: Word::PutAck,
            },
        }
    }
}
