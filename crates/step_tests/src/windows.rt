//! Register windows, their spills and their fills, worked out by hand from the manual's rules.

ghost use Rattle.std.specs.Prelude.{◌<◌};

use crate::steps::{
    ENDS, IDLE, NEXT, TEXT, at, behind, busy, ends, leads, look, made, program, trapped, with_place,
};
use elf64_load::Image;
use rsim_base::Size::B8;
use rsim_base::{Addr, Node};
use sparc_meaning::{Act, Arch, ArchPhase, End, Spoken, Want, boot};
use std::alloc::{AllocError, Global};
use std::test::Fail;

const SAVE: u32 = 0x9DE3_BF50; // save %sp, -176, %sp

const RESTORE: u32 = 0x81E8_0000;

const FLUSHW: u32 = 0x8158_0000;

const NOP: u32 = 0x0100_0000;

const EXIT: u32 = 0x91D0_2010; // ta 16

// What a program does, from its start as processor 0 of 1 on.
#[derive(Drop)]
struct Ran {
    arch: Arch,
    steps: u32,
    accesses: Vec<Act>,
    spoken: Option<Spoken>,
}

// The latest of the values that were stored at an address, or 0.
fn stored_at(memory: &[(u64, u64)], addr: u64) -> u64 {
    let mut found = 0;
    for &(place, value) in memory {
        if place == addr {
            found = value;
        }
    }
    found
}

// Runs a program whose accesses are of 8 bytes, for so many steps at most.
fn run(alloc: Global, image: &Image, most: u32) -> Result<Ran, AllocError> {
    let mut ran = Ran {
        arch: boot(image, Node(0), 1),
        steps: 0,
        accesses: Vec::new(alloc),
        spoken: None,
    };
    let mut memory = Vec::new(alloc);
    for step in 1..=most {
        let value = match look(&ran.arch, image) {
            Some(Want::Load(Addr(addr), B8)) => stored_at(&memory, addr),
            _ => 0,
        };
        let Some((_, act)) = made(&mut ran.arch, image, value) else {
            break;
        };
        ran.steps = step;
        match act {
            Act::Store(Addr(addr), B8, value) => {
                memory.push((addr, value))?;
                ran.accesses.push(act)?;
            }
            Act::Load(..) | Act::Store(..) | Act::Atomic(..) => ran.accesses.push(act)?,
            Act::Out(spoken) => ran.spoken = Some(spoken),
            Act::Nothing | Act::Fence(_) | Act::End => {}
        }
    }
    Ok(ran)
}

// Whether the windows are as at the start.
fn is_first_window(arch: &Arch) -> bool {
    arch.cwp == 0 && arch.cansave == 6 && arch.canrestore == 0
}

#[test]
fn eight_saves_and_restores_spill_and_fill_two_windows(rt: HostRuntime) -> Result<(), Fail> {
    let words = [
        SAVE, SAVE, SAVE, SAVE, SAVE, SAVE, SAVE, SAVE, RESTORE, RESTORE, RESTORE, RESTORE,
        RESTORE, RESTORE, RESTORE, RESTORE, EXIT,
    ];
    let image = program(rt.alloc(), &words)?;
    let ran = run(rt.alloc(), &image, 1000)?;
    assert!(rt; ran.steps == 81 && ran.arch.end == End::Exit(0));
    assert!(rt; ran.arch.pc == 0x10_0040 && ran.arch.npc == 0x10_0044);
    assert!(rt; is_first_window(&ran.arch));
    assert!(rt; ran.accesses.len() == 64);
    // window 0 and then window 1 are stored, and loaded the other way round. Window 0 has its stack pointer
    // 0x7F00F701, and so its save area at 0x7F00FF00; that of window 1 is 176 below. The ins of window 1 are
    // the outs of window 0.
    for (at, act) in ran.accesses.iter().enumerate() {
        let area = match at {
            16..48 => 0x7F00_FE50,
            _ => 0x7F00_FF00,
        };
        let addr = Addr(area + 8 * (at % 16) as u64);
        let value = match at {
            25 | 41 => 1,
            30 | 46 => 0x7F00_F701,
            _ => 0,
        };
        let want = if at < 32 {
            Act::Store(addr, B8, value)
        } else {
            Act::Load(addr, B8, value)
        };
        assert!(rt; *act == want, "access {at}");
    }
    for &(at, addr, value) in &[
        (0, 0x7F00_FF00, 0),
        (25, 0x7F00_FE98, 1),
        (30, 0x7F00_FEC0, 0x7F00_F701),
    ] {
        let stored = Act::Store(Addr(addr), B8, value);
        assert!(rt; ran.accesses.get(at) == Some(&stored), "access {at}");
    }
    Ok(())
}

// The sum of the numbers up to 10, by a function that calls itself and adds to its result.
const SUM: [u32; 14] = [
    0x9010_200A, // or %g0, 10, %o0
    0x4000_0005, // call f
    NOP,
    0x91D0_2012, // ta 18
    EXIT,
    NOP,
    SAVE, // f
    0x02C6_0005, // brz %i0, to its return
    0x9026_2001, // sub %i0, 1, %o0
    0x7FFF_FFFD, // call f
    NOP,
    0xB006_0008, // add %i0, %o0, %i0
    0x81C7_E008, // jmpl %i7 + 8, %g0
    RESTORE,
];

#[test]
fn a_function_calls_itself_deeper_than_there_are_windows(rt: HostRuntime) -> Result<(), Fail> {
    // by JMPL and RESTORE, or by RETURN and a NOP
    for &(jump, slot) in &[(0x81C7_E008, RESTORE), (0x81CF_E008, NOP)] {
        let mut words = SUM;
        words[12] = jump;
        words[13] = slot;
        let image = program(rt.alloc(), &words)?;
        let ran = run(rt.alloc(), &image, 1000)?;
        assert!(rt; ran.spoken == Some(Spoken::Number(55)) && ran.arch.end == End::Exit(55));
        // ten calls of 8 instructions, one of 5, and 5 outside; of eleven windows five are spilled and filled
        assert!(rt; ran.steps == 90 + 160 && ran.accesses.len() == 160);
        assert!(rt; is_first_window(&ran.arch));
    }
    Ok(())
}

#[test]
fn a_restore_at_the_start_finds_no_stack(rt: HostRuntime) -> Result<(), Fail> {
    // %i6 is 0, and 2047 no multiple of 8
    let image = program(rt.alloc(), &[RESTORE])?;
    let before = boot(&image, Node(0), 1);
    let mut arch = before;
    assert!(rt; made(&mut arch, &image, 0) == Some(ENDS));
    assert!(rt; arch == trapped(0x034, before));
    Ok(())
}

// The state with so many windows to save to, and so many to restore from.
fn kept(cansave: u8, canrestore: u8, arch: Arch) -> Arch {
    Arch {
        cansave,
        canrestore,
        ..arch
    }
}

#[test]
fn save_and_restore_add_in_the_old_window_and_write_in_the_new(
    rt: HostRuntime,
) -> Result<(), Fail> {
    // In window 3 %o1 is place 65 and %l2 place 58: 0x141 and 0x13A, and their sum is 0x27B. %i3 of window 4 is
    // place 67 and its %sp place 86; %i3 of window 2 is place 35 and its %o3 place 51. The row has the word, the
    // window after it, what can be saved to and restored from, and the place that gets the sum.
    for &(name, word, cwp, (cansave, canrestore), place) in &[
        ("save %o1, %l2, %i3", 0xB7E2_4012, 4, (2, 4), 67),
        ("save %o1, %l2, %sp", 0x9DE2_4012, 4, (2, 4), 86),
        ("restore %o1, %l2, %i3", 0xB7EA_4012, 2, (4, 2), 35),
        ("restore %o1, %l2, %o3", 0x97EA_4012, 2, (4, 2), 51),
    ] {
        let after = Arch {
            cwp,
            ..kept(cansave, canrestore, behind(busy()))
        };
        let after = with_place(after, place, 0x27B);
        assert!(rt; leads(rt.alloc(), word, 77, busy(), IDLE, after)?, "{name}");
    }
    Ok(())
}

#[test]
fn windows_go_round_at_8(rt: HostRuntime) -> Result<(), Fail> {
    // The outs of window 7 are the ins of window 0: in window 7 %o1 is place 1, 0x101, and %l2 place 122, 0x17A;
    // in window 0 %o1 is place 17, 0x111, and %l2 place 10, 0x10A. %i3 of window 0 is place 3, of window 7
    // place 115; %o3 of window 7 is place 3.
    for &(name, word, from, cwp, (cansave, canrestore), (place, sum)) in &[
        ("save %o1, %l2, %i3", 0xB7E2_4012, 7, 0, (2, 4), (3, 0x27B)),
        (
            "restore %o1, %l2, %i3",
            0xB7EA_4012,
            0,
            7,
            (4, 2),
            (115, 0x21B),
        ),
        (
            "restore %o1, %l2, %o3",
            0x97EA_4012,
            0,
            7,
            (4, 2),
            (3, 0x21B),
        ),
    ] {
        let before = Arch {
            cwp: from,
            ..busy()
        };
        let after = Arch {
            cwp,
            ..kept(cansave, canrestore, behind(busy()))
        };
        let after = with_place(after, place, sum);
        assert!(rt; leads(rt.alloc(), word, 77, before, IDLE, after)?, "{name}");
    }
    Ok(())
}

// The state in which each window has a stack of its own: %o6 of window w is place 16w + 22, modulo 128, and its
// save area is at 0x7F008000 + w * 0x10000.
fn with_stacks(arch: Arch) -> Arch {
    let mut arch = arch;
    for &(place, stack) in &[
        (22, 0x7F00_7801),
        (38, 0x7F01_7801),
        (54, 0x7F02_7801),
        (70, 0x7F03_7801),
        (86, 0x7F04_7801),
        (102, 0x7F05_7801),
        (118, 0x7F06_7801),
        (6, 0x7F07_7801),
    ] {
        arch = with_place(arch, place, stack);
    }
    arch
}

// The place of the register that step k of a spill or fill of window w is for: first the locals, then the ins.
fn kept_place(w: usize, k: usize) -> usize
    ensures { result < 128 }
{
    16 * (w % 8) + (k % 16 + 8) % 16
}

// Where that step stores or loads.
fn slot(w: usize, k: usize) -> Addr {
    Addr(0x7F00_8000 + 0x10000 * (w % 8) as u64 + 8 * (k % 16) as u64)
}

#[test]
fn flushw_spills_every_window_that_is_used(rt: HostRuntime) -> Result<(), Fail> {
    let image = program(rt.alloc(), &[FLUSHW])?;
    for used in 0..7u8 {
        // they are the windows below the current one, and the oldest is the first to go
        let current = (used + 3) % 8;
        let held = Arch {
            cwp: current,
            ..with_stacks(busy())
        };
        let mut arch = kept(6 - used, used, held);
        for gone in 0..used {
            let window = usize::from(current + 8 - used + gone) % 8;
            for k in 0..16u8 {
                let did = made(&mut arch, &image, 77);
                let value = held.windowed[kept_place(window, usize::from(k))];
                let act = Act::Store(slot(window, usize::from(k)), B8, value);
                let left = if k < 15 { used - gone } else { used - gone - 1 };
                let phase = if k < 15 {
                    ArchPhase::Spill(k + 1)
                } else {
                    ArchPhase::Run
                };
                let after = Arch {
                    phase,
                    ..kept(6 - left, left, held)
                };
                let same = did == Some((Want::None, act)) && arch == after;
                assert!(rt; same, "{gone} of {used}, step {k}");
            }
        }
        let did = made(&mut arch, &image, 77);
        assert!(rt;
            did == Some(IDLE) && arch == behind(kept(6, 0, held)),
            "{used}"
        );
    }
    Ok(())
}

#[test]
fn a_save_with_no_window_left_spills_the_oldest(rt: HostRuntime) -> Result<(), Fail> {
    // in window 3 the oldest of six is window 5; then the sum, 0x27B, goes to %i3 of window 4, place 67
    let image = program(rt.alloc(), &[0xB7E2_4012])?;
    let before = kept(0, 6, with_stacks(busy()));
    let mut arch = before;
    for k in 0..16usize {
        let value = before.windowed[kept_place(5, k)];
        let did = made(&mut arch, &image, 77);
        let stored = Act::Store(slot(5, k), B8, value);
        let stays = arch.pc == TEXT && arch.npc == NEXT && arch.cwp == 3;
        assert!(rt; did == Some((Want::None, stored)) && stays, "step {k}");
    }
    assert!(rt; arch == kept(1, 5, before));
    assert!(rt; made(&mut arch, &image, 77) == Some(IDLE));
    let after = Arch {
        cwp: 4,
        ..kept(0, 6, behind(before))
    };
    assert!(rt; arch == with_place(after, 67, 0x27B));
    Ok(())
}

// The state in which the fill of the window below window 3 has made its step k, with what it has loaded.
fn filled_to(k: usize, before: Arch) -> Arch {
    let mut arch = before;
    for step in 0..16usize {
        if step <= k {
            arch = with_place(arch, kept_place(2, step), 0x5000 + step as u64);
        }
    }
    if k < 15 {
        Arch {
            phase: ArchPhase::Fill((k % 16) as u8 + 1),
            ..arch
        }
    } else {
        kept(5, 1, arch)
    }
}

// Whether the steps of the fill of window 2 load its registers in order, and write nothing else.
fn fills(arch: &mut Arch, image: &Image) -> bool {
    let before = *arch;
    for k in 0..16usize {
        let loaded = 0x5000 + k as u64;
        let did = made(arch, image, loaded);
        let want = Want::Load(slot(2, k), B8);
        let act = Act::Load(slot(2, k), B8, loaded);
        if did != Some((want, act)) || *arch != filled_to(k, before) {
            return false;
        }
    }
    true
}

#[test]
fn restore_and_return_fill_the_window_below(rt: HostRuntime) -> Result<(), Fail> {
    // In window 3 the window below is 2, whose %o6 is the current %i6. The word, the pair after it, and the place
    // that gets a sum with its value: RESTORE's %i3 of window 2, place 35, gets 0x27B; RETURN's %l0 is that of
    // window 3, place 56.
    for &(name, word, (pc, npc), (place, value)) in &[
        (
            "restore %o1, %l2, %i3",
            0xB7EA_4012,
            (NEXT, 0x10_0044),
            (35, 0x27B),
        ),
        ("return %l0 + 4", 0x81CC_2004, (NEXT, 0x13C), (56, 0x138)),
    ] {
        let image = program(rt.alloc(), &[word])?;
        let before = kept(6, 0, with_stacks(busy()));
        let mut arch = before;
        assert!(rt; fills(&mut arch, &image), "{name}");
        let did = made(&mut arch, &image, 77);
        let after = Arch {
            cwp: 2,
            ..kept(6, 0, at(pc, npc, filled_to(15, before)))
        };
        assert!(rt;
            did == Some(IDLE) && arch == with_place(after, place, value),
            "{name}"
        );
    }
    Ok(())
}

#[test]
fn return_fills_before_it_looks_at_its_target(rt: HostRuntime) -> Result<(), Fail> {
    // return %l0 + 6, to 0x13E
    let image = program(rt.alloc(), &[0x81CC_2006])?;
    let before = kept(6, 0, with_stacks(busy()));
    let mut arch = before;
    assert!(rt; fills(&mut arch, &image));
    assert!(rt; made(&mut arch, &image, 77) == Some(ENDS));
    assert!(rt; arch == trapped(0x034, filled_to(15, before)));
    Ok(())
}

#[test]
fn a_return_that_needs_no_fill_leads_to_its_target(rt: HostRuntime) -> Result<(), Fail> {
    // return %l0 + 4, whose %l0 is place 56
    let after = Arch {
        cwp: 2,
        ..kept(4, 2, at(NEXT, 0x13C, busy()))
    };
    assert!(rt; leads(rt.alloc(), 0x81CC_2004, 77, busy(), IDLE, after)?);
    Ok(())
}

/// The word, what can be saved to and restored from, the place of the stack pointer that counts with its value, and the
/// trap. That of window 5 is place 102; that of window 2, the current %i6, is place 54.
const REFUSED: [(&str, u32, (u8, u8), usize, u64, u16); 11] = [
    (
        "save to an unmapped stack",
        SAVE,
        (0, 6),
        102,
        0x2001,
        0x030,
    ),
    ("save into text", SAVE, (0, 6), 102, 0x0F_F801, 0x030),
    (
        "save to an unaligned stack",
        SAVE,
        (0, 6),
        102,
        0x7F00_8000,
        0x034,
    ),
    (
        "save to a stack that is both",
        SAVE,
        (0, 6),
        102,
        0x2000,
        0x034,
    ),
    (
        "flushw to an unmapped stack",
        FLUSHW,
        (0, 6),
        102,
        0x2001,
        0x030,
    ),
    (
        "flushw to an unaligned stack",
        FLUSHW,
        (0, 6),
        102,
        0x7F00_7805,
        0x034,
    ),
    (
        "restore from an unmapped stack",
        RESTORE,
        (6, 0),
        54,
        0x2001,
        0x030,
    ),
    (
        "restore from an unaligned stack",
        RESTORE,
        (6, 0),
        54,
        0x7F00_8000,
        0x034,
    ),
    (
        "restore from a stack that is both",
        RESTORE,
        (6, 0),
        54,
        0x2000,
        0x034,
    ),
    (
        "return from an unmapped stack",
        0x81CC_2006,
        (6, 0),
        54,
        0x2001,
        0x030,
    ),
    (
        "return from an unaligned stack",
        0x81CC_2006,
        (6, 0),
        54,
        0x7F00_7805,
        0x034,
    ),
];

#[test]
fn spills_and_fills_trap_at_their_instruction(rt: HostRuntime) -> Result<(), Fail> {
    for &(name, word, (cansave, canrestore), place, stack, number) in &REFUSED {
        let before = with_place(kept(cansave, canrestore, with_stacks(busy())), place, stack);
        let after = trapped(number, before);
        assert!(rt; ends(rt.alloc(), word, before, after)?, "{name}");
    }
    Ok(())
}

// Where a step stores or loads 8 bytes.
fn accessed(arch: &mut Arch, image: &Image) -> Option<Addr> {
    match made(arch, image, 77) {
        Some((Want::None, Act::Store(to, B8, _))) => Some(to),
        Some((Want::Load(to, B8), Act::Load(..))) => Some(to),
        _ => None,
    }
}

#[test]
fn a_spill_or_fill_can_trap_at_a_later_step(rt: HostRuntime) -> Result<(), Fail> {
    // The save area begins 64 bytes below the end of the stacks, so step 8 is the first behind it.
    for &(name, word, (cansave, canrestore), place, phase) in &[
        ("save", SAVE, (0, 6), 102, ArchPhase::Spill(8)),
        ("restore", RESTORE, (6, 0), 54, ArchPhase::Fill(8)),
    ] {
        let image = program(rt.alloc(), &[word])?;
        let held = kept(cansave, canrestore, with_stacks(busy()));
        let mut arch = with_place(held, place, 0x7F3F_F7C1);
        for k in 0..8u64 {
            let addr = Addr(0x7F3F_FFC0 + 8 * k);
            assert!(rt;
                accessed(&mut arch, &image) == Some(addr),
                "{name}, step {k}"
            );
        }
        assert!(rt;
            arch.phase == phase && look(&arch, &image) == Some(Want::None),
            "{name}"
        );
        let after = trapped(0x030, arch);
        assert!(rt;
            made(&mut arch, &image, 77) == Some(ENDS) && arch == after,
            "{name}"
        );
        assert!(rt; made(&mut arch, &image, 77).is_none(), "{name}");
    }
    Ok(())
}
