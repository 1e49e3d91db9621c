// The node's table.
ghost use Rattle.std.specs.Prelude.{◌≡◌, None, false};
ghost use Rattle.memory_contracts.specs.Protocol.Messages as Says;
ghost use Rattle.memory_contracts.specs.Protocol.NodeTable.{node_takes};
ghost use Rattle.memory_contracts.specs.Letters.{said};

use crate::word::{LineBytes, Word};
use memory_contracts::{Message, MsgKind};

/// What a node has of a line.
#[derive(Clone, Copy)]
pub enum NodeCopy {
    Absent,
    Shared { bytes: LineBytes },
    Owned { bytes: LineBytes },
    /// Put back, and the home has not yet answered.
    Evicting { bytes: LineBytes },
    /// Put back, and recalled since.
    Emptied,
}

/// What a message changes of its line in the caches and the misses.
#[derive(Clone, Copy)]
pub enum Change {
    Nothing,
    /// The line leaves both levels.
    Lose,
    /// The line is not owned any more.
    Share,
    /// The line comes, and is not awaited any more.
    Fill { own: bool, bytes: LineBytes },
    /// The bytes in the line's victim slot are given up, and the slot stays.
    EmptySlot,
    FreeSlot,
}

/// What a node does at a message.
#[derive(Clone, Copy)]
pub struct Row {
    pub change: Change,
    pub reply: Option<Word>,
    /// Whether the line was held and is not any more.
    pub lost: bool,
}

impl Row {
    ghost use Rattle.node_memory.specs.NodeParts.{copy_in};
    ghost use Rattle.node_memory.specs.TableRows.{IsRow};
    ghost use Rattle.node_memory.specs.declared.table.Change.TheVariants.{Nothing};

    /// The row for a message about a line of which the node has this.
    pub fn at(m: &Message, copy: &NodeCopy) -> Row
        ensures { IsRow (said m.now) (copy_in copy.now) result }
    {
        match m.kind {
            MsgKind::Inv => Row::at_inv(copy),
            MsgKind::Recall => Row::at_recall(copy, m.owned),
            MsgKind::Grant => Row::at_grant(copy, m.owned, m.bytes),
            MsgKind::PutAck => Row::at_put_ack(copy),
            _ => Row::nothing(),
        }
    }

    // A message that never comes to a node with such a copy, or to a node at all.
    fn nothing() -> Row
        ensures change { result.change ≡ Nothing }
        ensures reply { result.reply ≡ None }
        ensures lost { result.lost ≡ false }
    {
        Row {
            change: Change::Nothing,
            reply: None,
            lost: false,
        }
    }

    // The home orders that a shared copy be given up.
    fn at_inv(copy: &NodeCopy) -> Row
        ensures { IsRow Says.Inv (copy_in copy.now) result }
    {
        match *copy {
            NodeCopy::Shared { .. } => Row {
                change: Change::Lose,
                reply: Some(Word::InvAck),
                lost: true,
            },
            NodeCopy::Absent => Row {
                reply: Some(Word::InvAck),
                ..Row::nothing()
            },
            _ => Row::nothing(),
        }
    }

    // The home calls a line back: the whole of it, or the owning alone.
    fn at_recall(copy: &NodeCopy, whole: bool) -> Row
        ensures { IsRow (Says.Recall whole) (copy_in copy.now) result }
    {
        match *copy {
            NodeCopy::Owned { bytes } => Row {
                change: if whole { Change::Lose } else { Change::Share },
                reply: Some(Word::RecallAck {
                    kept: !whole,
                    bytes,
                }),
                lost: whole,
            },
            NodeCopy::Evicting { bytes } => Row {
                change: Change::EmptySlot,
                reply: Some(Word::RecallAck { kept: false, bytes }),
                lost: false,
            },
            _ => Row::nothing(),
        }
    }

    // The home gives the line.
    fn at_grant(copy: &NodeCopy, own: bool, bytes: LineBytes) -> Row
        ensures { IsRow (Says.Grant own bytes) (copy_in copy.now) result }
    {
        match *copy {
            NodeCopy::Absent | NodeCopy::Shared { .. } => Row {
                change: Change::Fill { own, bytes },
                reply: Some(Word::Done),
                lost: false,
            },
            _ => Row::nothing(),
        }
    }

    // The home has noted that the line was put back.
    fn at_put_ack(copy: &NodeCopy) -> Row
        ensures { IsRow Says.PutAck (copy_in copy.now) result }
    {
        match *copy {
            NodeCopy::Evicting { .. } | NodeCopy::Emptied => Row {
                change: Change::FreeSlot,
                ..Row::nothing()
            },
            _ => Row::nothing(),
        }
    }
}
