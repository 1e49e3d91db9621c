//! The state of a processor between two steps (SPARC V9, section 5).

ghost use Rattle.std.specs.Prelude.{◌≡◌, ◌<◌, ◌≤◌};
ghost use Rattle.sparc_meaning.specs.Arch.{above as spec_above, below as spec_below, place as spec_place};

use sparc_alu::bits_of;
use sparc_decode::Src2;

/// %o0, which a service takes its argument from, and %o1.
pub(crate) const O0: u8 = 8;

pub(crate) const O1: u8 = 9;

/// %o6, the stack pointer.
pub(crate) const O6: u8 = 14;

/// %o7, where CALL leaves its address.
pub(crate) const O7: u8 = 15;

/// %l0, the first of the locals and ins that are kept in memory.
pub(crate) const L0: u8 = 16;

/// How a processor stands.
#[derive(Clone, Copy, Debug, PartialEq, Eq)]
pub enum End {
    /// It has not ended.
    Running,
    /// It has exited with this status.
    Exit(u64),
    /// A trap of this number has ended it, at the instruction at this address.
    Trapped(u16, u64),
}

/// Whether a processor is between two instructions, or in the spill or fill of a register window, at this
/// one of its steps 1 to 15.
#[derive(Clone, Copy, Debug, PartialEq, Eq)]
pub enum ArchPhase {
    Run,
    Spill(u8),
    Fill(u8),
}

/// The state of a processor.
///
/// The eight register windows lie one behind the other in `windowed`: window w has its ins at 16w to
/// 16w + 7 and its locals at 16w + 8 to 16w + 15, and its outs are the ins of window w + 1, modulo 8.
#[derive(Clone, Copy, Debug, PartialEq, Eq)]
pub struct Arch {
    /// %g0 to %g7. %g0 is read as 0.
    pub globals: [u64; 8],
    pub windowed: [u64; 128],
    /// The condition codes register: xcc in bits 7 to 4, icc in bits 3 to 0, each N, Z, V, C (5.1.5).
    pub cc: u8,
    /// The register Y, of 32 bits (5.1.3.2).
    pub y: u64,
    pub pc: u64,
    pub npc: u64,
    /// The current window, and how many windows can be saved to and restored from (5.2.10).
    pub cwp: u8,
    pub cansave: u8,
    pub canrestore: u8,
    pub phase: ArchPhase,
    pub end: End,
}

impl End {
    ghost use Rattle.sparc_meaning.specs.Arch.{is_running};

    /// Whether the processor has not ended.
    pub fn is_running(&self) -> bool
        ensures { result ≡ is_running self.now }
    {
        matches!(self, End::Running)
    }
}

/// The window that SAVE goes to.
pub(crate) fn above(window: u8) -> u8
    requires { window < 8 }
    ensures value { result ≡ spec_above window }
    ensures window { result < 8 }
{
    (window + 1) % 8
}

/// The window that RESTORE goes to.
pub(crate) fn below(window: u8) -> u8
    requires { window < 8 }
    ensures value { result ≡ spec_below window }
    ensures window { result < 8 }
{
    (window + 7) % 8
}

/// Where a register of a window stands in `windowed`.
pub(crate) fn place(window: u8, register: u8) -> usize
    requires window { window < 8 }
    requires windowed { 8 ≤ register }
    requires register { register < 32 }
    ensures value { result ≡ spec_place window register }
    ensures place { result < 128 }
{
    let window = usize::from(window);
    let register = usize::from(register);
    if register < 16 {
        16 * ((window + 1) % 8) + register - 8
    } else if register < 24 {
        16 * window + 8 + (register - 16)
    } else {
        16 * window + (register - 24)
    }
}

impl Arch {
    ghost use Rattle.sparc_decode.specs.Ranges.{IsOperand};
    ghost use Rattle.sparc_meaning.specs.Arch.{register_of, with_register_of, register, with_register};
    ghost use Rattle.sparc_meaning.specs.Forms.{operand};

    /// A register of a window.
    pub(crate) fn register_of(&self, window: u8, r: u8) -> u64
        requires window { window < 8 }
        requires register { r < 32 }
        ensures { result ≡ register_of window self.now r }
    {
        match r {
            0 => 0,
            1..8 => self.globals[r as usize],
            _ => self.windowed[place(window, r)],
        }
    }

    /// Sets a register of a window. Register 0 stays 0.
    pub(crate) fn set_register_of(&mut self, window: u8, r: u8, value: u64)
        requires window { window < 8 }
        requires register { r < 32 }
        ensures value { self.new ≡ with_register_of window r value self.old }
        ensures rest { self.new ≡ record self.old { globals = self.new.globals; windowed = self.new.windowed } }
    {
        match r {
            0 => {}
            1..8 => self.globals[r as usize] = value,
            _ => self.windowed[place(window, r)] = value,
        }
    }

    /// A register of the current window.
    pub(crate) fn register(&self, r: u8) -> u64
        requires window { self.now.cwp < 8 }
        requires register { r < 32 }
        ensures { result ≡ register self.now r }
    {
        self.register_of(self.cwp, r)
    }

    /// Sets a register of the current window.
    pub(crate) fn set_register(&mut self, r: u8, value: u64)
        requires window { self.old.cwp < 8 }
        requires register { r < 32 }
        ensures { self.new ≡ with_register r value self.old }
    {
        self.set_register_of(self.cwp, r, value);
    }

    /// The value of operand 2.
    pub(crate) fn operand(&self, src2: Src2) -> u64
        requires window { self.now.cwp < 8 }
        requires register { IsOperand src2 }
        ensures { result ≡ operand src2 self.now }
    {
        match src2 {
            Src2::Reg(register) => self.register(register),
            Src2::Imm(value) => bits_of(value),
        }
    }
}
