//! Branches, jumps, traps, services and fences, worked out by hand from the manual's rules.

use crate::steps::{
    ENDS, IDLE, NEXT, TEXT, at, behind, busy, ends, holding, leads, look, made, program, trapped,
};
use sparc_meaning::{Act, Arch, End, Spoken, Want};
use std::test::Fail;

// Behind `busy`, past a slot that is not run, and the targets of the rows.
const SLOT: (u64, u64) = (NEXT, 0x10_0044);

const PAST: (u64, u64) = (0x10_0044, 0x10_0048);

/// The word, the codes, %o1, and the pair of pc and npc after it.
const BRANCHES: [(&str, u32, u8, u64, (u64, u64)); 54] = [
    // on icc, to 0x100010: Z of icc is 4
    ("be, with Z", 0x0280_0004, 0x04, 0, (NEXT, 0x10_0010)),
    ("be, without", 0x0280_0004, 0xFB, 0, SLOT),
    ("be,a, with Z", 0x2280_0004, 0x04, 0, (NEXT, 0x10_0010)),
    ("be,a, without", 0x2280_0004, 0xFB, 0, PAST),
    ("ba", 0x1080_0004, 0, 0, (NEXT, 0x10_0010)),
    ("ba,a", 0x3080_0004, 0, 0, (0x10_0010, 0x10_0014)),
    ("bn", 0x0080_0004, 0xFF, 0, SLOT),
    ("bn,a", 0x2080_0004, 0xFF, 0, PAST),
    // to 0x100000 - 0x800000
    (
        "ba far below",
        0x10A0_0000,
        0,
        0,
        (NEXT, 0xFFFF_FFFF_FF90_0000),
    ),
    (
        "ba,a far below",
        0x30A0_0000,
        0,
        0,
        (0xFFFF_FFFF_FF90_0000, 0xFFFF_FFFF_FF90_0004),
    ),
    // on xcc, to 0xFFFF8: Z of xcc is 0x40
    ("be %xcc, with Z", 0x026F_FFFE, 0x40, 0, (NEXT, 0x0F_FFF8)),
    ("be %xcc, without", 0x026F_FFFE, 0xBF, 0, SLOT),
    ("be,a %xcc, with Z", 0x226F_FFFE, 0x40, 0, (NEXT, 0x0F_FFF8)),
    ("be,a %xcc, without", 0x226F_FFFE, 0xBF, 0, PAST),
    ("ba %xcc", 0x106F_FFFE, 0, 0, (NEXT, 0x0F_FFF8)),
    ("ba,a %xcc", 0x306F_FFFE, 0, 0, (0x0F_FFF8, 0x0F_FFFC)),
    ("bn %xcc", 0x006F_FFFE, 0xFF, 0, SLOT),
    ("bn,a %xcc", 0x206F_FFFE, 0xFF, 0, PAST),
    // on icc, to 0
    ("bne %icc, without Z", 0x1244_0000, 0xFB, 0, (NEXT, 0)),
    ("bne %icc, with", 0x1244_0000, 0x04, 0, SLOT),
    ("bne,a %icc, without Z", 0x3244_0000, 0xFB, 0, (NEXT, 0)),
    ("bne,a %icc, with", 0x3244_0000, 0x04, 0, PAST),
    ("ba,a %icc", 0x3044_0000, 0, 0, (0, 4)),
    // on a register, to 0xE0000
    ("brz at 0", 0x02EA_4000, 0, 0, (NEXT, 0x0E_0000)),
    ("brz at 1", 0x02EA_4000, 0, 1, SLOT),
    ("brz,a at 0", 0x22EA_4000, 0, 0, (NEXT, 0x0E_0000)),
    ("brz,a at 1", 0x22EA_4000, 0, 1, PAST),
    ("brlez at 0", 0x04EA_4000, 0, 0, (NEXT, 0x0E_0000)),
    (
        "brlez at -1",
        0x04EA_4000,
        0,
        0xFFFF_FFFF_FFFF_FFFF,
        (NEXT, 0x0E_0000),
    ),
    ("brlez at 1", 0x04EA_4000, 0, 1, SLOT),
    (
        "brlz at -1",
        0x06EA_4000,
        0,
        0xFFFF_FFFF_FFFF_FFFF,
        (NEXT, 0x0E_0000),
    ),
    ("brlz at 2^31", 0x06EA_4000, 0, 0x8000_0000, SLOT),
    ("brlz at 0", 0x06EA_4000, 0, 0, SLOT),
    (
        "brlz,a at -2^63",
        0x26EA_4000,
        0,
        0x8000_0000_0000_0000,
        (NEXT, 0x0E_0000),
    ),
    ("brlz,a at 0", 0x26EA_4000, 0, 0, PAST),
    (
        "brnz at 2^32",
        0x0AEA_4000,
        0,
        0x1_0000_0000,
        (NEXT, 0x0E_0000),
    ),
    ("brnz at 0", 0x0AEA_4000, 0, 0, SLOT),
    ("brgz at 1", 0x0CEA_4000, 0, 1, (NEXT, 0x0E_0000)),
    ("brgz at 0", 0x0CEA_4000, 0, 0, SLOT),
    ("brgz at -1", 0x0CEA_4000, 0, 0xFFFF_FFFF_FFFF_FFFF, SLOT),
    ("brgez at 0", 0x0EEA_4000, 0, 0, (NEXT, 0x0E_0000)),
    ("brgez at -1", 0x0EEA_4000, 0, 0xFFFF_FFFF_FFFF_FFFF, SLOT),
    ("brgez,a at 1", 0x2EEA_4000, 0, 1, (NEXT, 0x0E_0000)),
    (
        "brgez,a at -2^63",
        0x2EEA_4000,
        0,
        0x8000_0000_0000_0000,
        PAST,
    ),
    // to 0x11FFFC
    ("brnz ahead", 0x0AD2_7FFF, 0, 1, (NEXT, 0x11_FFFC)),
    // no branches, but what does nothing, or nothing here
    ("nop", 0x0100_0000, 0xFF, 1, SLOT),
    ("flush %o1", 0x81DA_6000, 0xFF, 1, SLOT),
    ("prefetch [%o1], 0", 0xC16A_6000, 0xFF, 1, SLOT),
    ("tn 16", 0x81D0_2010, 0xFF, 1, SLOT),
    ("te 16, without Z", 0x83D0_2010, 0xFB, 1, SLOT),
    ("te %xcc, 18, without Z", 0x83D0_3012, 0xBF, 1, SLOT),
    ("tne %xcc, 16, with Z", 0x93D0_3010, 0x40, 1, SLOT),
    // to a sum of registers, where %l2 is 0x13A: JMPL into %g0 writes nothing
    ("jmpl %o1 + %l2, %g0", 0x81C2_4012, 0, 6, (NEXT, 0x140)),
    (
        "jmpl %o1 + %l2, %g0, going round",
        0x81C2_4012,
        0,
        0xFFFF_FFFF_FFFF_FEC6,
        (NEXT, 0),
    ),
];

/// The word, %o1, the target, and the register that gets 0x100000.
const LINKED: [(&str, u32, u64, u64, usize); 5] = [
    ("call 0x100010", 0x4000_0004, 0, 0x10_0010, 15),
    ("call far below", 0x6000_0000, 0, 0xFFFF_FFFF_8010_0000, 15),
    ("jmpl %o1 + 8, %o7", 0x9FC2_6008, 0x2000, 0x2008, 15),
    ("jmpl %o1 + 8, %o1", 0x93C2_6008, 0x10_0100, 0x10_0108, 9),
    ("jmpl to a multiple of 4", 0x9FC2_6002, 0x2002, 0x2004, 15),
];

/// The word, %o1, and the trap's number.
const TRAPS: [(&str, u32, u64, u16); 16] = [
    ("illtrap", 0x0000_0000, 0, 0x010),
    ("a reserved word", 0x01C0_0000, 0, 0x010),
    ("rdpr", 0x8350_0000, 0, 0x011),
    ("fpop1", 0x81A0_0000, 0, 0x020),
    ("udivx by 0", 0xB66A_4000, 5, 0x028),
    ("sdivx by 0", 0xB76A_4000, 5, 0x028),
    ("jmpl to 0x2001", 0x9FC2_6002, 0x1FFF, 0x034),
    ("jmpl to 0x2002", 0x9FC2_6002, 0x2000, 0x034),
    ("jmpl to 0x2003", 0x9FC2_6002, 0x2001, 0x034),
    ("return to 0x2002", 0x81CA_6002, 0x2000, 0x034),
    ("ta 5", 0x91D0_2005, 0, 0x105),
    ("ta %o1 + 0", 0x91D2_6000, 0, 0x100),
    ("ta %o1 + 0x7f", 0x91D2_607F, 0, 0x17F),
    (
        "ta %o1 + 0x7f, cut",
        0x91D2_607F,
        0xFFFF_FFFF_FFFF_FF94,
        0x113,
    ),
    ("ta %o1 + 0, cut", 0x91D2_6000, 0x80, 0x100),
    ("ta %o1 + 0, below 16", 0x91D2_6000, 0xF8F, 0x10F),
];

/// The word, the codes, %o1, %l2, and what is put out.
const SERVICES: [(&str, u32, u8, u64, u64, Spoken); 6] = [
    ("ta 17", 0x91D0_2011, 0, 0, 0, Spoken::Byte(0xBF)),
    (
        "ta 18",
        0x91D0_2012,
        0,
        0,
        0,
        Spoken::Number(0xFEDC_BA98_7654_32BF),
    ),
    (
        "te %xcc, 18, with Z",
        0x83D0_3012,
        0x40,
        0,
        0,
        Spoken::Number(0xFEDC_BA98_7654_32BF),
    ),
    (
        "ta %o1 + 0, of 0x91",
        0x91D2_6000,
        0,
        0x91,
        0,
        Spoken::Byte(0xBF),
    ),
    (
        "ta %o1 + 0x7f, of 0x112",
        0x91D2_607F,
        0,
        0x93,
        0,
        Spoken::Number(0xFEDC_BA98_7654_32BF),
    ),
    ("ta %o1 + %l2", 0x91D2_4012, 0, 8, 9, Spoken::Byte(0xBF)),
];

#[test]
fn branches_lead_where_their_conditions_say(rt: HostRuntime) -> Result<(), Fail> {
    for &(name, word, cc, o1, (pc, npc)) in &BRANCHES {
        let before = Arch {
            cc,
            ..holding(busy(), &[(9, o1)])
        };
        let after = at(pc, npc, before);
        assert!(rt; leads(rt.alloc(), word, 77, before, IDLE, after)?, "{name}");
    }
    Ok(())
}

#[test]
fn calls_and_jumps_leave_their_address(rt: HostRuntime) -> Result<(), Fail> {
    for &(name, word, o1, target, register) in &LINKED {
        let before = holding(busy(), &[(9, o1)]);
        let after = at(NEXT, target, holding(before, &[(register, TEXT)]));
        assert!(rt; leads(rt.alloc(), word, 77, before, IDLE, after)?, "{name}");
    }
    Ok(())
}

#[test]
fn traps_end_the_processor_and_change_nothing_else(rt: HostRuntime) -> Result<(), Fail> {
    for &(name, word, o1, number) in &TRAPS {
        let before = Arch {
            cc: 0xA5,
            ..holding(busy(), &[(9, o1)])
        };
        let after = trapped(number, before);
        assert!(rt; ends(rt.alloc(), word, before, after)?, "{name}");
    }
    Ok(())
}

#[test]
fn instructions_come_from_whole_words_of_text(rt: HostRuntime) -> Result<(), Fail> {
    let image = program(rt.alloc(), &[0x0100_0000, 0x0100_0000])?;
    for &(pc, is_text) in &[
        (0x10_0000, true),
        (0x10_0004, true),
        (0x10_0001, false),
        (0x10_0002, false),
        (0x10_0008, false),
        (0x0F_FFFC, false),
        (0x7F00_0000, false), // a stack may not be run
        (0, false),
        (0xFFFF_FFFF_FFFF_FFFC, false),
    ] {
        let before = at(pc, NEXT, busy());
        let mut arch = before;
        let did = made(&mut arch, &image, 77);
        let (wanted, after) = if is_text {
            (IDLE, behind(before))
        } else {
            let end = End::Trapped(0x008, pc);
            (ENDS, Arch { end, ..before })
        };
        assert!(rt; did == Some(wanted) && arch == after, "at {pc:x}");
    }
    Ok(())
}

#[test]
fn a_division_by_0_ends_a_program_at_its_second_step(rt: HostRuntime) -> Result<(), Fail> {
    // mulx %g0, 3, %o0; udivx %o0, %g0, %o0; ta 18
    let image = program(rt.alloc(), &[0x9048_2003, 0x906A_0000, 0x91D0_2012])?;
    let mut arch = at(TEXT, 0x10_0004, busy());
    assert!(rt; made(&mut arch, &image, 0) == Some(IDLE));
    let before = at(0x10_0004, 0x10_0008, holding(busy(), &[(8, 0)]));
    assert!(rt; arch == before);
    assert!(rt; made(&mut arch, &image, 0) == Some(ENDS));
    let end = End::Trapped(0x028, 0x10_0004);
    assert!(rt; arch == (Arch { end, ..before }));
    assert!(rt; made(&mut arch, &image, 0).is_none());
    assert!(rt; look(&arch, &image) == Some(Want::Ended));
    Ok(())
}

#[test]
fn services_take_their_argument_from_o0(rt: HostRuntime) -> Result<(), Fail> {
    for &(name, word, cc, o1, l2, spoken) in &SERVICES {
        let registers = [(8, 0xFEDC_BA98_7654_32BF), (9, o1), (18, l2)];
        let before = Arch {
            cc,
            ..holding(busy(), &registers)
        };
        let did = (Want::None, Act::Out(spoken));
        assert!(rt;
            leads(rt.alloc(), word, 77, before, did, behind(before))?,
            "{name}"
        );
    }
    Ok(())
}

#[test]
fn exits_have_the_status_of_o0(rt: HostRuntime) -> Result<(), Fail> {
    // ta 16; te 16 with Z; tne %xcc, 16 without it; ta %o1 + 0 of 0xFF90
    for &(word, cc) in &[
        (0x91D0_2010, 0),
        (0x83D0_2010, 0x04),
        (0x93D0_3010, 0xBF),
        (0x91D2_6000, 0),
    ] {
        let registers = [(8, 0xFEDC_BA98_7654_32BF), (9, 0xFF90)];
        let before = Arch {
            cc,
            ..holding(busy(), &registers)
        };
        let end = End::Exit(0xFEDC_BA98_7654_32BF);
        assert!(rt;
            ends(rt.alloc(), word, before, Arch { end, ..before })?,
            "{word:x}"
        );
    }
    Ok(())
}

#[test]
fn fences_have_the_mask_of_their_word(rt: HostRuntime) -> Result<(), Fail> {
    for &(name, word, mask) in &[
        ("membar 0", 0x8143_E000, 0),
        ("membar #LoadLoad", 0x8143_E001, 1),
        ("membar #StoreLoad", 0x8143_E002, 2),
        ("membar #LoadStore", 0x8143_E004, 4),
        ("membar #StoreStore", 0x8143_E008, 8),
        ("membar of every order", 0x8143_E00F, 15),
        ("membar #Lookaside", 0x8143_E010, 15),
        ("membar #MemIssue", 0x8143_E020, 15),
        ("membar #Sync", 0x8143_E040, 15),
        ("membar #Sync with #LoadLoad", 0x8143_E041, 15),
        ("stbar", 0x8143_C000, 8),
    ] {
        let did = (Want::None, Act::Fence(mask));
        assert!(rt;
            leads(rt.alloc(), word, 77, busy(), did, behind(busy()))?,
            "{name}"
        );
    }
    Ok(())
}
