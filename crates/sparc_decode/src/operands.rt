//! What an instruction reads and writes, as registers of the window and state registers.

/// What an instruction reads besides memory. A place is `None` where the instruction does not read it.
#[derive(Clone, Copy, Debug, PartialEq, Eq)]
pub struct Sources {
    /// The register of rs1.
    pub a: Option<u8>,
    /// The register of operand 2.
    pub b: Option<u8>,
    /// The register that is stored, or kept by a move that is not made; %o0 of a service.
    pub c: Option<u8>,
    /// The condition codes.
    pub cc: bool,
    /// The register Y.
    pub y: bool,
}

/// What an instruction writes besides memory and the program counters.
#[derive(Clone, Copy, Debug, PartialEq, Eq)]
pub struct Dest {
    /// The register of rd, of the window after the instruction; never register 0, which holds nothing.
    pub reg: Option<u8>,
    /// The condition codes.
    pub cc: bool,
    /// The register Y.
    pub y: bool,
}

/// What an instruction does with the register windows (SPARC V9, 5.1.1).
#[derive(Clone, Copy, Debug, PartialEq, Eq)]
pub enum WindowEffect {
    Same,
    /// To the next window.
    Save,
    /// Back to the window before.
    Restore,
    /// All windows but the current one go to memory.
    Flush,
}
