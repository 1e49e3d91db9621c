// Messages between the homes of lines and the nodes.
ghost use Rattle.std.specs.Prelude.{◌≡◌};
ghost use Rattle.memory_contracts.specs.Carrier.{carries_bytes, class_of};

use rsim_base::{LINE_ROOM, Line, Node};

/// The class of a message, from the lowest to the highest. Each class has rooms of its own: to send a message of one class is
/// never refused because of another.
#[derive(Clone, Copy, Debug, PartialEq, Eq, PartialOrd, Ord)]
pub enum Class {
    /// A node asks for a line, or gives one back.
    Ask,
    /// A home orders a node to give up its copy.
    Order,
    /// A home gives a line, or takes note of one that was given back.
    Give,
    /// A node replies to an order, or tells that a line has come.
    Reply,
}

/// What a message says about its line.
#[derive(Clone, Copy, Debug, PartialEq, Eq)]
pub enum MsgKind {
    /// Give me the line, to read it.
    GetS,
    /// Give me the line, to own it.
    GetM,
    /// I give the line back.
    Put,
    /// Give up your shared copy.
    Inv,
    /// Hand back the line that you own.
    Recall,
    /// Here is the line.
    Grant,
    /// What you gave back is noted.
    PutAck,
    /// My copy is gone.
    InvAck,
    /// Here is the line that you recalled.
    RecallAck,
    /// The line has come.
    Done,
}

impl MsgKind {
    /// The class of such messages.
    pub fn class(self) -> Class
        ensures { result ≡ class_of self }
    {
        match self {
            MsgKind::GetS | MsgKind::GetM | MsgKind::Put => Class::Ask,
            MsgKind::Inv | MsgKind::Recall => Class::Order,
            MsgKind::Grant | MsgKind::PutAck => Class::Give,
            MsgKind::InvAck | MsgKind::RecallAck | MsgKind::Done => Class::Reply,
        }
    }

    /// Whether such messages carry the bytes of the line.
    pub fn carries_bytes(self) -> bool
        ensures { result ≡ carries_bytes self }
    {
        matches!(self, MsgKind::Put | MsgKind::Grant | MsgKind::RecallAck)
    }
}

/// A message about a line, from one node to another; of the line's home and the other, one sends it.
#[derive(Clone, Copy, Debug, PartialEq, Eq)]
pub struct Message {
    pub kind: MsgKind,
    pub line: Line,
    pub from: Node,
    /// Of a Grant: the line may be written. Of a Recall: the whole of it is wanted back.
    pub owned: bool,
    /// Of a RecallAck: the node keeps a shared copy.
    pub kept: bool,
    /// The bytes of the line, in front, where the kind carries them.
    pub bytes: [u8; LINE_ROOM],
}
