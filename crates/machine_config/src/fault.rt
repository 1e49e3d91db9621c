// Why a text gives no configuration.
use thiserror::Error;

/// Why a text gives no configuration. Lines count from 1.
#[derive(Clone, Copy, Debug, PartialEq, Eq, Error)]
pub enum ConfigFault {
    /// The byte at this place, counted from 0, is no text: it is neither a line feed, a carriage
    /// return or a tab, nor a printing character of ASCII.
    #[error("NotText {0}")]
    NotText(u32),
    /// The line names no key that there is.
    #[error("UnknownName {0}")]
    UnknownName(u32),
    /// The line names a key that an earlier one names.
    #[error("Repeated {0}")]
    Repeated(u32),
    /// The line's value is not one to ten decimal digits.
    #[error("BadNumber {0}")]
    BadNumber(u32),
    /// The line's value is none of its key's words.
    #[error("BadWord {0}")]
    BadWord(u32),
    /// The line's number is not from the second number to the third.
    #[error("OutOfRange {0} {1} {2}")]
    OutOfRange(u32, u32, u32),
    /// The line's number is no power of two, which its key asks for.
    #[error("NotPower {0}")]
    NotPower(u32),
    /// The width of the mesh does not divide the number of processors.
    #[error("MeshShape")]
    MeshShape,
    /// Memory could not be had.
    #[error("no memory")]
    Memory,
}
