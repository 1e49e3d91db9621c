// The names of registers and units, and where a processor stands in its program.

/// An architectural register: 0 to 7 are the globals, 8 to 135 the windowed registers, 136 the
/// condition codes and 137 the Y register (SPARC V9, 5.1).
#[derive(Clone, Copy, Debug, PartialEq, Eq)]
pub struct ArchReg(pub u8);

/// A physical register of an out-of-order core.
#[derive(Clone, Copy, Debug, PartialEq, Eq)]
pub struct PhysReg(pub u16);

/// One renaming of a register: `new` holds it from now on, and `old` held it before.
#[derive(Clone, Copy, Debug, PartialEq, Eq)]
pub struct Renamed {
    pub reg: ArchReg,
    pub new: PhysReg,
    pub old: PhysReg,
}

/// The program counter and the next program counter (SPARC V9, 5.2.5).
#[derive(Clone, Copy, Debug, PartialEq, Eq)]
pub struct Pair {
    pub pc: u64,
    pub npc: u64,
}

/// The register-window state: the current window pointer, and how many windows can be saved to and
/// restored from (SPARC V9, 5.2.10).
#[derive(Clone, Copy, Debug, PartialEq, Eq)]
pub struct Window {
    pub cwp: u8,
    pub cansave: u8,
    pub canrestore: u8,
}

/// A kind of unit that instructions are issued to.
#[derive(Clone, Copy, Debug, PartialEq, Eq)]
pub enum Unit {
    /// Arithmetic, logic, shifts, branches and addresses.
    Alu,
    /// Multiplication.
    Mul,
    /// Division. A division has its unit until it is finished.
    Div,
}
