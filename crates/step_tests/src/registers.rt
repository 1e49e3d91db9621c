//! The registers that steps read and write, worked out by hand: a window's ins and locals lie behind each other, sixteen a
//! window from number 8 on, and its outs are the ins of the next window.

use crate::steps::{busy, is_sound, program};
use rsim_base::{ArchReg, Window};
use sparc_meaning::laws::{registers_are_numbered, steps_lead_on};
use sparc_meaning::{Arch, ArchPhase, Fetched};
use std::test::Fail;

// Windows with three on either side, with none to save to, and with none to restore from.
const MIDDLE: Window = Window {
    cwp: 3,
    cansave: 3,
    canrestore: 3,
};

const FULL: Window = Window {
    cwp: 3,
    cansave: 0,
    canrestore: 6,
};

const EMPTY: Window = Window {
    cwp: 3,
    cansave: 6,
    canrestore: 0,
};

const LAST: Window = Window { cwp: 7, ..MIDDLE };

// An instruction in these windows and phase, and the numbers of what it reads and writes.
struct Row {
    name: &'static str,
    word: u32,
    window: Window,
    phase: ArchPhase,
    sources: [Option<u8>; 5],
    dests: [Option<u8>; 3],
}

const ROWS: [Row; 14] = [
    Row {
        name: "addcc %g1, %g2, %g3",
        word: 0x8680_4002,
        window: MIDDLE,
        phase: ArchPhase::Run,
        sources: [Some(1), Some(2), None, None, None],
        dests: [Some(3), Some(136), None],
    },
    Row {
        name: "add %o0, %l1, %i2",
        word: 0xB402_0011,
        window: MIDDLE,
        phase: ArchPhase::Run,
        sources: [Some(72), Some(65), None, None, None],
        dests: [Some(58), None, None],
    },
    Row {
        name: "add %o0, %o0, %o0 in the last window",
        word: 0x9002_0008,
        window: LAST,
        phase: ArchPhase::Run,
        sources: [Some(8), Some(8), None, None, None],
        dests: [Some(8), None, None],
    },
    Row {
        name: "addc %g0, 1, %g0",
        word: 0x8040_2001,
        window: MIDDLE,
        phase: ArchPhase::Run,
        sources: [Some(0), None, None, Some(136), None],
        dests: [None, None, None],
    },
    Row {
        name: "umulcc %o1, %o2, %o3",
        word: 0x96D2_400A,
        window: MIDDLE,
        phase: ArchPhase::Run,
        sources: [Some(73), Some(74), None, None, None],
        dests: [Some(75), Some(136), Some(137)],
    },
    Row {
        name: "rd %y, %l0",
        word: 0xA140_0000,
        window: MIDDLE,
        phase: ArchPhase::Run,
        sources: [None, None, None, None, Some(137)],
        dests: [Some(64), None, None],
    },
    Row {
        name: "stx %i0, [%sp]",
        word: 0xF073_A000,
        window: MIDDLE,
        phase: ArchPhase::Run,
        sources: [Some(78), None, Some(56), None, None],
        dests: [None, None, None],
    },
    Row {
        name: "casxa [%o0], %o1, %o2",
        word: 0xD5F2_1009,
        window: MIDDLE,
        phase: ArchPhase::Run,
        sources: [Some(72), Some(73), Some(74), None, None],
        dests: [Some(74), None, None],
    },
    Row {
        name: "save %sp, -176, %sp",
        word: 0x9DE3_BF50,
        window: MIDDLE,
        phase: ArchPhase::Run,
        sources: [Some(78), None, None, None, None],
        dests: [Some(94), None, None],
    },
    Row {
        name: "restore %o0, %o1, %o2",
        word: 0x95EA_0009,
        window: MIDDLE,
        phase: ArchPhase::Run,
        sources: [Some(72), Some(73), None, None, None],
        dests: [Some(58), None, None],
    },
    Row {
        name: "call",
        word: 0x4000_0000,
        window: MIDDLE,
        phase: ArchPhase::Run,
        sources: [None, None, None, None, None],
        dests: [Some(79), None, None],
    },
    Row {
        name: "the first step of a spill, of window 5",
        word: 0x9DE3_BF50,
        window: FULL,
        phase: ArchPhase::Run,
        sources: [Some(110), None, Some(96), None, None],
        dests: [None, None, None],
    },
    Row {
        name: "the first step of a fill, of window 2",
        word: 0x95EA_0009,
        window: EMPTY,
        phase: ArchPhase::Run,
        sources: [Some(62), None, None, None, None],
        dests: [Some(48), None, None],
    },
    Row {
        name: "the last step of a fill, of window 2",
        word: 0x95EA_0009,
        window: EMPTY,
        phase: ArchPhase::Fill(15),
        sources: [Some(62), None, None, None, None],
        dests: [Some(47), None, None],
    },
];

// A state in these windows and this phase.
fn standing(window: Window, phase: ArchPhase) -> Arch {
    Arch {
        cwp: window.cwp,
        cansave: window.cansave,
        canrestore: window.canrestore,
        phase,
        ..busy()
    }
}

#[test]
fn steps_name_registers_by_their_numbers(rt: HostRuntime) -> Result<(), Fail> {
    registers_are_numbered();
    steps_lead_on();
    for row in &ROWS {
        let image = program(rt.alloc(), &[row.word])?;
        let arch = standing(row.window, row.phase);
        assert!(rt; is_sound(&arch), "{}", row.name);
        let fetched = Fetched::next_of(&arch, &image);
        assert!(rt;
            fetched.sources() == row.sources.map(|n| n.map(ArchReg)),
            "{}",
            row.name
        );
        assert!(rt;
            fetched.dests() == row.dests.map(|n| n.map(ArchReg)),
            "{}",
            row.name
        );
    }
    Ok(())
}
