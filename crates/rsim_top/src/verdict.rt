// What a check of an order came to.
ghost use Rattle.std.specs.Prelude.{◌≡◌, Some};
ghost use Rattle.rsim_top.specs.VerdictText.{verdict_code, verdict_words};

use order_checker::{Accepted, Rejected};
use std::fmt;

/// What a check of an order came to. It is shown as the text that the program prints.
#[derive(Clone, Copy, Debug, PartialEq, Eq)]
pub enum Verdict {
    /// A machine may write the order for the executable.
    Accepted(Accepted),
    /// It may not, and this is the first fault.
    Rejected(Rejected),
}

impl Verdict {
    /// The exit status of the program that tells the verdict.
    pub fn code(&self) -> u8
        ensures { result ≡ verdict_code self.now }
    {
        match self {
            Verdict::Accepted(_) => 0,
            Verdict::Rejected(_) => 1,
        }
    }
}

impl fmt::Display for Verdict {
    ghost output = { λ verdict. Some (verdict_words verdict) };

    fn fmt<W: fmt::Write>(&self, f: &mut fmt::Formatter<W>) -> fmt::Result {
        match self {
            Verdict::Accepted(told) => write!(f, "accepted {} {}", told.retired, told.entries),
            Verdict::Rejected(why) => write!(f, "rejected {why}"),
        }
    }
}
