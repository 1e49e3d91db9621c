//! How a processor starts.

ghost use Rattle.std.specs.Prelude.{◌≡◌, ◌<◌, ◌≤◌};
ghost use Rattle.sparc_meaning.specs.Arch.{IsSound, boot as boot_of};

use crate::arch::{Arch, ArchPhase, End, O0, O1, O6, place};
use elf64_load::Image;
use rsim_base::{Node, STACK_BYTES, STACKS_START};

// How far below the end of its stack %o6 points at the start: the stack bias of 2,047 and a frame of 256 bytes
// (SPARC V9, H.1.3).
const BELOW_END: u64 = 2303;

/// The state in which processor `p` of so many starts: at the entry, with `p` in %o0, the number of
/// processors in %o1, and its stack in %o6. Every other register is 0.
pub fn boot(image: &Image, p: Node, processors: u8) -> Arch
    requires among { p.0 < processors }
    ensures value { result ≡ boot_of image.now p.0 processors }
    ensures sound { IsSound result }
{
    let mut windowed = [0; 128];
    windowed[place(0, O0)] = u64::from(p.0);
    windowed[place(0, O1)] = u64::from(processors);
    windowed[place(0, O6)] = STACKS_START + (u64::from(p.0) + 1) * STACK_BYTES - BELOW_END;
    Arch {
        globals: [0; 8],
        windowed,
        cc: 0,
        y: 0,
        pc: image.entry(),
        npc: image.entry().wrapping_add(4),
        cwp: 0,
        cansave: 6,
        canrestore: 0,
        phase: ArchPhase::Run,
        end: End::Running,
    }
}
