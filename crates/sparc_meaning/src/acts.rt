//! What a step does beside changing the state.

ghost use Rattle.std.specs.Prelude.{◌≡◌, IfSome};

use rsim_base::{Access, Addr, Kind, Node, Size};

/// What a service puts into the output.
#[derive(Clone, Copy, Debug, PartialEq, Eq)]
pub enum Spoken {
    /// A byte.
    Byte(u8),
    /// A number in decimal, and a line feed.
    Number(u64),
}

/// What a step does beside changing the state.
#[derive(Clone, Copy, Debug, PartialEq, Eq)]
pub enum Act {
    Nothing,
    /// It loads this value.
    Load(Addr, Size, u64),
    /// It stores this value, which has no more bytes than the size.
    Store(Addr, Size, u64),
    /// It loads the first value and stores the second, at once.
    Atomic(Addr, Size, u64, u64),
    /// It is a fence of this mask: 1 LoadLoad, 2 StoreLoad, 4 LoadStore, 8 StoreStore.
    Fence(u8),
    /// It puts something into the output.
    Out(Spoken),
    /// It ends the processor.
    End,
}

/// What a step reads from memory.
#[derive(Clone, Copy, Debug, PartialEq, Eq)]
pub enum Want {
    /// It reads nothing: it stores, traps, or makes no access.
    None,
    Load(Addr, Size),
    Atomic(Addr, Size),
    /// There is no step: the processor has ended.
    Ended,
}

impl Act {
    ghost use Rattle.sparc_meaning.specs.Accesses.{HasNumbers, access_of};

    /// The access that the step makes, if it makes one: that of processor `p` with this number. The value that its kind
    /// lacks is 0.
    pub fn access(self, p: Node, index: u32) -> Option<Access>
        ensures value { result ≡ access_of p.0 index self }
        ensures numbers { IfSome result HasNumbers }
    {
        let (kind, addr, size, loaded, stored) = match self {
            Act::Load(addr, size, loaded) => (Kind::Load, addr, size, loaded, 0),
            Act::Store(addr, size, stored) => (Kind::Store, addr, size, 0, stored),
            Act::Atomic(addr, size, loaded, stored) => (Kind::Atomic, addr, size, loaded, stored),
            Act::Nothing | Act::Fence(_) | Act::Out(_) | Act::End => return None,
        };
        Some(Access {
            node: p,
            kind,
            size,
            index,
            addr,
            loaded,
            stored,
        })
    }
}
