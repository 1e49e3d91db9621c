// The steps of spills and fills along the path (SPARC V9, 6.3.6 and 6.4).
ghost use Rattle.std.specs.Prelude.{◌≡◌, ◌<◌, IfSome};
ghost use Rattle.fetch_unit.specs.Path as spec;

use rsim_base::Window;
use sparc_decode::{Instr, window_effect};
use sparc_meaning::{ArchPhase, must_fill, must_spill};

// The last step of a spill or fill.
const LAST: u8 = 15;

/// The step of a spill or fill at which a place is: none at its first step, which stands at the instruction.
pub(crate) fn begun(micro: Option<u8>) -> Option<u8>
    ensures { result ≡ spec.begun micro }
{
    match micro {
        None | Some(0) => None,
        Some(k) => Some(k),
    }
}

/// The step of a spill or fill that stands at a place; none where the instruction itself runs.
pub(crate) fn micro_at(micro: Option<u8>, i: &Instr, w: Window) -> Option<u8>
    ensures { result ≡ spec.micro_at micro i.now w }
{
    match micro {
        Some(k) => Some(k),
        None if waits(i, w) => Some(0),
        None => None,
    }
}

/// The step behind it.
pub(crate) fn micro_after(micro: Option<u8>) -> Option<u8>
    requires { IfSome micro (λ k. k < 16) }
    ensures { result ≡ spec.micro_after micro }
{
    match micro {
        None | Some(LAST) => None,
        Some(k) => Some(k + 1),
    }
}

/// The part of the instruction that this step is.
pub(crate) fn part_of(micro: Option<u8>, i: &Instr, w: Window) -> ArchPhase
    ensures { result ≡ spec.part_of micro i.now w }
{
    match micro {
        None => ArchPhase::Run,
        Some(k) if must_spill(window_effect(i), w) => ArchPhase::Spill(k),
        Some(k) => ArchPhase::Fill(k),
    }
}

// Whether the instruction spills or fills a window before it runs.
fn waits(i: &Instr, w: Window) -> bool
    ensures { result ≡ spec.waits i.now w }
{
    let effect = window_effect(i);
    must_spill(effect, w) || must_fill(effect, w)
}
