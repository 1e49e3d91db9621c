// What a node says about a line.
ghost use Rattle.std.specs.Prelude.{◌≡◌};
ghost use Rattle.memory_contracts.specs.Letters.{saying};

use memory_contracts::{Message, MsgKind};
use rsim_base::{LINE_ROOM, Line, Node};

/// The bytes of a line, in front; those behind them do not count.
pub type LineBytes = [u8; LINE_ROOM];

/// What a node says to the home of a line.
#[derive(Clone, Copy)]
pub enum Word {
    /// Give me the line, to own it or to read it.
    Get { own: bool },
    /// I give the line back.
    Put { bytes: LineBytes },
    /// My copy is gone.
    InvAck,
    /// Here is the line that you recalled; I keep a shared copy, or none.
    RecallAck { kept: bool, bytes: LineBytes },
    /// The line has come.
    Done,
}

impl Word {
    ghost use Rattle.node_memory.specs.NodeParts.{word_of};

    /// The message from a node that says this about a line.
    pub fn message(&self, line: Line, from: Node) -> Message
        ensures { result ≡ saying from.0 line.0 (word_of self.now) }
    {
        let bare = |kind| Message {
            kind,
            line,
            from,
            owned: false,
            kept: false,
            bytes: [0; LINE_ROOM],
        };
        match *self {
            Word::Get { own: true } => bare(MsgKind::GetM),
            Word::Get { own: false } => bare(MsgKind::GetS),
            Word::Put { bytes } => Message {
                bytes,
                ..bare(MsgKind::Put)
            },
            Word::InvAck => bare(MsgKind::InvAck),
            Word::RecallAck { kept, bytes } => Message {
                kept,
                bytes,
                ..bare(MsgKind::RecallAck)
            },
            Word::Done => bare(MsgKind::Done),
        }
    }
}
