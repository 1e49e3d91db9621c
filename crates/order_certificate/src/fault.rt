// Why a text gives no order.
ghost use Rattle.std.specs.Prelude.{Some};
ghost use Rattle.order_certificate.specs.FaultText.{fault_text};

use std::error::Error;
use std::fmt;

/// Why a text gives no order. Lines count from 1.
#[derive(Clone, Copy, Debug, PartialEq, Eq)]
pub enum TextFault {
    /// The line is none that may stand there, or bytes stand behind the end line, the first of them in
    /// this line.
    BadLine(u32),
    /// The text ends before its end line does.
    Truncated,
    /// There are more than 8,000,000 accesses, or the counts add to more.
    TooMany,
    /// Memory could not be had.
    Memory,
}

// Written by hand, since a verdict's text is promised to the byte and an attribute's is not told to contracts.
impl fmt::Display for TextFault {
    ghost output = { λ fault. Some (fault_text fault) };

    fn fmt<W: fmt::Write>(&self, f: &mut fmt::Formatter<W>) -> fmt::Result {
        match self {
            TextFault::BadLine(line) => write!(f, "BadLine {line}"),
            TextFault::Truncated => write!(f, "Truncated"),
            TextFault::TooMany => write!(f, "TooMany"),
            TextFault::Memory => write!(f, "no memory"),
        }
    }
}

impl Error for TextFault {}
