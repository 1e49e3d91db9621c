//! Places on the path of a program, and what is fetched there.

use crate::windows::part_of;
use rsim_base::{Pair, Window};
use sparc_decode::Instr;

/// A place on the path: the pair, the next step of a spill or fill that is under way there, and the windows.
#[derive(Clone, Copy, PartialEq, Eq)]
pub struct Spot {
    pub pair: Pair,
    /// 1 to 15 within a spill or fill; `None` at an instruction and at the first step of the spill or fill that it needs.
    pub micro: Option<u8>,
    pub window: Window,
}

/// What is fetched at a place: an instruction, or a step of the spill or fill that it needs first.
#[derive(Clone, Copy, PartialEq, Eq)]
pub struct Fetched {
    pub pair: Pair,
    /// The pair that is guessed to follow. `None` where it is unknown.
    pub guess: Option<Pair>,
    /// The step of the spill or fill, 0 to 15; `None` for the instruction itself.
    pub micro: Option<u8>,
    /// The window numbers before it.
    pub window: Window,
    /// The instruction at the pair; where none can be fetched, the trap of that.
    pub instr: Instr,
    /// The predictor's mark after its guess.
    pub mark: u64,
}

impl Fetched {
    ghost use Rattle.std.specs.Prelude.{◌≡◌};
    ghost use Rattle.fetch_unit.specs.Path.{meant_by};

    /// It as what a step runs.
    pub(crate) fn meant(&self) -> sparc_meaning::Fetched
        ensures { result ≡ meant_by self.now }
    {
        sparc_meaning::Fetched {
            pair: self.pair,
            window: self.window,
            part: part_of(self.micro, &self.instr, self.window),
            instr: self.instr,
        }
    }
}
