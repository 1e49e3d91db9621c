// Why a file gives no image.
use thiserror::Error;

/// Why a file gives no image. `i` and `j` are places in the table of program headers, from 0, and a length is
/// the file's, in bytes.
#[derive(Clone, Copy, Debug, PartialEq, Eq, Error)]
pub enum ElfFault {
    /// The file ends inside its header, or inside its table of program headers.
    #[error("Truncated {0}")]
    Truncated(u64),
    /// It does not begin with 7F, "ELF".
    #[error("NotElf")]
    NotElf,
    /// Its class is not 64 bits, or its data is not big-endian.
    #[error("NotBig64")]
    NotBig64,
    /// Its machine is not SPARC V9.
    #[error("NotSparcV9")]
    NotSparcV9,
    /// It is no executable.
    #[error("NotExec")]
    NotExec,
    /// It has no program header, or no segment that instructions are fetched from.
    #[error("NoText")]
    NoText,
    /// Its program headers are not of 56 bytes.
    #[error("BadPhentsize")]
    BadPhentsize,
    /// It asks for a dynamic linker.
    #[error("Interp")]
    Interp,
    /// The bytes of segment `i` go past the end of the file.
    #[error("SegmentPastEnd {0}")]
    SegmentPastEnd(u32),
    /// Segment `i` has more bytes in the file than in memory.
    #[error("SegmentShort {0}")]
    SegmentShort(u32),
    /// Segment `i` goes past the last address.
    #[error("SegmentWraps {0}")]
    SegmentWraps(u32),
    /// The segments have more than 16 MiB in memory together.
    #[error("TooLarge")]
    TooLarge,
    /// Segment `i` has a byte in a stack.
    #[error("StackOverlap {0}")]
    StackOverlap(u32),
    /// Segments `i` and `j` have bytes in one aligned block of 128 bytes.
    #[error("SharedBlock {0} {1}")]
    SharedBlock(u32, u32),
    /// The first instruction cannot be fetched.
    #[error("BadEntry")]
    BadEntry,
    /// Memory could not be had.
    #[error("no memory")]
    Memory,
}
