// Why words were not read.
use thiserror::Error;

/// What is wrong with the words of a command line. Of several things the first here is told.
#[derive(Clone, Copy, Debug, PartialEq, Eq, Error)]
pub enum WordsFault {
    /// There are too few names or too many, a seed too many, an option that does not exist, or
    /// `--generate` without its value.
    #[error("words")]
    Shape,
    /// The seed is no number from 0 to 4,294,967,295 of one to ten decimal digits.
    #[error("seed")]
    Seed,
    /// The bound on the cycles is no number from 1 to 8,000,000 of one to ten decimal digits.
    #[error("cycles")]
    Cycles,
}

/// Why words were not read: a fault, or want of memory.
#[derive(Clone, Copy, Debug, PartialEq, Eq, Error)]
pub enum BadWords {
    /// The words are wrong.
    #[error("bad {0}")]
    Fault(WordsFault),
    /// Memory could not be had.
    #[error("no memory")]
    Memory,
}

impl BadWords {
    pub(crate) const SHAPE: BadWords = BadWords::Fault(WordsFault::Shape);
}
