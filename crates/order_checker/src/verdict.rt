// What a check answers.
ghost use Rattle.std.specs.Prelude.{◌≡◌, Some};
ghost use Rattle.order_checker.specs.declared.verdict.Rejected.TheVariants.{Memory};
ghost use Rattle.order_checker.specs.RejectedText.{part_text, rejected_text};

use order_certificate::TextFault;
use rsim_base::{NoMemory, Node};
use std::error::Error;
use std::fmt;

/// What an order tells that fits its executable.
#[derive(Clone, Copy, Debug, PartialEq, Eq)]
pub struct Accepted {
    /// How many steps the processors retired, together.
    pub retired: u64,
    /// How many accesses the order lists.
    pub entries: u32,
}

/// Why an order is rejected: its first fault, in the order of the variants `Foreign` (a line of no processor, or of one
/// access twice); by processor `Ended`, `Missing` and `Differs` by step, and `Foreign` (a line of an access that was
/// not made); by line `OutOfOrder`, `WrongValue`. Lines are those of the text, from 1.
#[derive(Clone, Copy, Debug, PartialEq, Eq)]
pub enum Rejected {
    /// The text tells no order.
    Text(TextFault),
    /// The line is of no access that was made, or of one that an earlier line is of.
    Foreign(u32),
    /// The processor ended after so many steps, fewer than it is said to have retired.
    Ended(Node, u32),
    /// The processor made the access of this number, and no line is of it.
    Missing(Node, u32),
    /// The line differs in this part from the access that its processor made.
    Differs(u32, Part),
    /// The line stands before its processor's access of this number, which must stand before it.
    OutOfOrder(u32, Node, u32),
    /// Byte so of the line's loaded value, from 0: this is what its source wrote, and this what the line has.
    WrongValue(u32, u8, u8, u8),
    /// Memory could not be had.
    Memory,
}

// Written by hand, since a verdict's text is promised to the byte and an attribute's is not told to contracts.
impl fmt::Display for Rejected {
    ghost output = { λ rejected. Some (rejected_text rejected) };

    fn fmt<W: fmt::Write>(&self, f: &mut fmt::Formatter<W>) -> fmt::Result {
        match self {
            Rejected::Text(fault) => write!(f, "{fault}"),
            Rejected::Foreign(line) => write!(f, "Foreign {line}"),
            Rejected::Ended(Node(p), steps) => write!(f, "Ended {p} {steps}"),
            Rejected::Missing(Node(p), i) => write!(f, "Missing {p} {i}"),
            Rejected::Differs(line, part) => write!(f, "Differs {line} {part}"),
            Rejected::OutOfOrder(line, Node(p), i) => write!(f, "OutOfOrder {line} {p} {i}"),
            Rejected::WrongValue(line, b, wrote, has) => write!(
                f,
                "WrongValue {line} {b} {wrote} {has}"
            ),
            Rejected::Memory => write!(f, "no memory"),
        }
    }
}

impl Error for Rejected {}

impl From<NoMemory> for Rejected {
    ghost from_gives = { λ _ rejected. rejected ≡ Memory };

    fn from(_e: NoMemory) -> Rejected {
        Rejected::Memory
    }
}

/// A part of an access.
#[derive(Clone, Copy, Debug, PartialEq, Eq)]
pub enum Part {
    Kind,
    Size,
    Addr,
    Stored,
}

impl fmt::Display for Part {
    ghost output = { λ part. Some (part_text part) };

    fn fmt<W: fmt::Write>(&self, f: &mut fmt::Formatter<W>) -> fmt::Result {
        match self {
            Part::Kind => write!(f, "Kind"),
            Part::Size => write!(f, "Size"),
            Part::Addr => write!(f, "Addr"),
            Part::Stored => write!(f, "Stored"),
        }
    }
}
