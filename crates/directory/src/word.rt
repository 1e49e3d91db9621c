// What a home says about a line.
ghost use Rattle.std.specs.Prelude.{◌≡◌};
ghost use Rattle.memory_contracts.specs.Letters.{saying};

use memory_contracts::{Message, MsgKind};
use rsim_base::{LINE_ROOM, Line, Node};

/// The bytes of a line, in front; those behind them are 0.
pub type LineBytes = [u8; LINE_ROOM];

/// What a home says to a node about a line.
#[derive(Clone, Copy)]
pub enum Word {
    /// Give up your shared copy.
    Inv,
    /// Hand back the line that you own: the whole of it, or the owning alone.
    Recall { whole: bool },
    /// Here is the line, to own it or to read it.
    Grant { owned: bool, bytes: LineBytes },
    /// What you gave back is noted.
    PutAck,
}

impl Word {
    ghost use Rattle.directory.specs.Meanings.{word_of};

    /// The message from a home that says this about a line.
    pub fn message(&self, line: Line, from: Node) -> Message
        ensures { result ≡ saying from.0 line.0 (word_of self.now) }
    {
        let bare = |kind| Message {
            kind,
            line,
            from,
            owned: false,
            kept: false,
            bytes: [0; LINE_ROOM],
        };
        match *self {
            Word::Inv => bare(MsgKind::Inv),
            Word::Recall { whole } => Message {
                owned: whole,
                ..bare(MsgKind::Recall)
            },
            Word::Grant { owned, bytes } => Message {
                owned,
                bytes,
                ..bare(MsgKind::Grant)
            },
            Word::PutAck => bare(MsgKind::PutAck),
        }
    }
}
