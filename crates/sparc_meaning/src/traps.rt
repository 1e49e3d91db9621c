//! Numbers of traps that end a processor (SPARC V9, section 7).

/// There is no instruction at pc.
pub(crate) const INSTRUCTION_ACCESS_EXCEPTION: u16 = 0x008;

pub(crate) const DIVISION_BY_ZERO: u16 = 0x028;

/// The bytes of an access may not be read or written.
pub(crate) const DATA_ACCESS_EXCEPTION: u16 = 0x030;

/// An address is no multiple of the size of its access, or a target none of 4.
pub(crate) const MEM_ADDRESS_NOT_ALIGNED: u16 = 0x034;

/// A trap instruction of the number 0 that is no service; others follow it.
pub(crate) const TRAP_INSTRUCTION: u16 = 0x100;
