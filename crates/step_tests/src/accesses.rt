//! Loads, stores and atomics, worked out by hand from the manual's rules. The stacks, from 0x7F000000 to
//! 0x7F3FFFFF, are what may be written; the text may be read as well; nothing else is mapped.

use crate::steps::{IDLE, TEXT, at, behind, busy, ends, holding, leads, made, program, trapped};
use rsim_base::Addr;
use rsim_base::Size::{self, B1, B2, B4, B8};
use sparc_meaning::{Act, Want};
use std::test::Fail;

// What is in %o1 and %l2, which most rows make an address of, and %i3 before them.
const O1: u64 = 0x7F12_3450;

const L2: u64 = 0x10;

const I3: u64 = 0x8182_8384_8586_8788;

/// The word, its access, what memory has there, and what the register gets.
const LOADS: [(&str, u32, u64, Size, u64, u64); 16] = [
    ("ldub of 0x80", 0xF60A_6008, 0x7F12_3458, B1, 0x80, 0x80),
    ("ldub of 0x7f", 0xF60A_6008, 0x7F12_3458, B1, 0x7F, 0x7F),
    (
        "ldsb of 0x80",
        0xF64A_6008,
        0x7F12_3458,
        B1,
        0x80,
        0xFFFF_FFFF_FFFF_FF80,
    ),
    ("ldsb of 0x7f", 0xF64A_6008, 0x7F12_3458, B1, 0x7F, 0x7F),
    (
        "lduh of 0x8001",
        0xF612_6008,
        0x7F12_3458,
        B2,
        0x8001,
        0x8001,
    ),
    (
        "lduh of 0x7fff",
        0xF612_6008,
        0x7F12_3458,
        B2,
        0x7FFF,
        0x7FFF,
    ),
    (
        "ldsh of 0x8001",
        0xF652_6008,
        0x7F12_3458,
        B2,
        0x8001,
        0xFFFF_FFFF_FFFF_8001,
    ),
    (
        "ldsh of 0x7fff",
        0xF652_6008,
        0x7F12_3458,
        B2,
        0x7FFF,
        0x7FFF,
    ),
    (
        "lduw of 2^31",
        0xF602_6008,
        0x7F12_3458,
        B4,
        0x8000_0000,
        0x8000_0000,
    ),
    (
        "lduw of 2^31 - 1",
        0xF602_6008,
        0x7F12_3458,
        B4,
        0x7FFF_FFFF,
        0x7FFF_FFFF,
    ),
    (
        "ldsw of 2^31",
        0xF642_6008,
        0x7F12_3458,
        B4,
        0x8000_0000,
        0xFFFF_FFFF_8000_0000,
    ),
    (
        "ldsw of 2^31 - 1",
        0xF642_6008,
        0x7F12_3458,
        B4,
        0x7FFF_FFFF,
        0x7FFF_FFFF,
    ),
    (
        "ldx of 2^63 + 1",
        0xF65A_6008,
        0x7F12_3458,
        B8,
        0x8000_0000_0000_0001,
        0x8000_0000_0000_0001,
    ),
    (
        "ldx of 2^63 - 1",
        0xF65A_6008,
        0x7F12_3458,
        B8,
        0x7FFF_FFFF_FFFF_FFFF,
        0x7FFF_FFFF_FFFF_FFFF,
    ),
    ("ldx [%o1 + %l2]", 0xF65A_4012, 0x7F12_3460, B8, 77, 77),
    ("ldx [%o1 - 8]", 0xF65A_7FF8, 0x7F12_3448, B8, 77, 77),
];

/// The word, %o1, the address, and a register with its value after the load.
const ADDRESSES: [(&str, u32, u64, u64, (usize, u64)); 6] = [
    ("ldx [%o1 + 8], %g0", 0xC05A_6008, O1, 0x7F12_3458, (9, O1)),
    ("ldx [%o1 + 8], %o1", 0xD25A_6008, O1, 0x7F12_3458, (9, 77)),
    (
        "the first bytes of the stacks",
        0xF65A_6008,
        0x7EFF_FFF8,
        0x7F00_0000,
        (27, 77),
    ),
    (
        "the last bytes of the stacks",
        0xF65A_6008,
        0x7F3F_FFF0,
        0x7F3F_FFF8,
        (27, 77),
    ),
    ("the text", 0xF65A_6008, 0x0F_FFF8, 0x10_0000, (27, 77)),
    (
        "an address that goes round",
        0xF65A_4012,
        0x7F00_0010,
        0x7F00_0000,
        (27, 77),
    ),
];

/// The word, %i3, the access, and what it stores.
const STORES: [(&str, u32, u64, u64, Size, u64); 11] = [
    ("stb of 0x88", 0xF62A_6008, I3, 0x7F12_3458, B1, 0x88),
    (
        "stb of 0x08",
        0xF62A_6008,
        0xFFFF_FF08,
        0x7F12_3458,
        B1,
        0x08,
    ),
    ("sth of 0x8788", 0xF632_6008, I3, 0x7F12_3458, B2, 0x8788),
    (
        "sth of 0x0708",
        0xF632_6008,
        0xFFFF_0708,
        0x7F12_3458,
        B2,
        0x0708,
    ),
    (
        "stw of 0x85868788",
        0xF622_6008,
        I3,
        0x7F12_3458,
        B4,
        0x8586_8788,
    ),
    (
        "stw of 0x05060708",
        0xF622_6008,
        0xFFFF_FFFF_0506_0708,
        0x7F12_3458,
        B4,
        0x0506_0708,
    ),
    (
        "stx of a number below 0",
        0xF672_6008,
        I3,
        0x7F12_3458,
        B8,
        I3,
    ),
    (
        "stx of a number above 0",
        0xF672_6008,
        0x0102_0304_0506_0708,
        0x7F12_3458,
        B8,
        0x0102_0304_0506_0708,
    ),
    ("stx %g0, [%o1 + 8]", 0xC072_6008, I3, 0x7F12_3458, B8, 0),
    ("stx %i3, [%o1 + %l2]", 0xF672_4012, I3, 0x7F12_3460, B8, I3),
    (
        "stb %i3, [%o1 + %l2]",
        0xF62A_4012,
        I3,
        0x7F12_3460,
        B1,
        0x88,
    ),
];

/// The word, %l2 and %i3, the access, what memory has there, what is stored, and what %i3 gets.
const ATOMICS: [(&str, u32, (u64, u64), (u64, Size), u64, u64, u64); 16] = [
    (
        "ldstub of 0",
        0xF66A_6008,
        (0, I3),
        (0x7F12_3458, B1),
        0,
        0xFF,
        0,
    ),
    (
        "ldstub of 0x80",
        0xF66A_6008,
        (0, I3),
        (0x7F12_3458, B1),
        0x80,
        0xFF,
        0x80,
    ),
    (
        "ldstub of 0xff",
        0xF66A_6008,
        (0, I3),
        (0x7F12_3458, B1),
        0xFF,
        0xFF,
        0xFF,
    ),
    (
        "swap",
        0xF67A_6008,
        (0, I3),
        (0x7F12_3458, B4),
        0x8000_0001,
        0x8586_8788,
        0x8000_0001,
    ),
    (
        "swap of a word above 0",
        0xF67A_6008,
        (0, 0xFFFF_FFFF_0506_0708),
        (0x7F12_3458, B4),
        1,
        0x0506_0708,
        1,
    ),
    // CASA looks at low words alone, and its address is %o1
    (
        "casa, equal",
        0xF7E2_5012,
        (5, I3),
        (O1, B4),
        5,
        0x8586_8788,
        5,
    ),
    (
        "casa, equal below bit 32",
        0xF7E2_5012,
        (0xFFFF_FFFF_8000_0005, I3),
        (O1, B4),
        0x8000_0005,
        0x8586_8788,
        0x8000_0005,
    ),
    (
        "casa, not equal",
        0xF7E2_5012,
        (5, I3),
        (O1, B4),
        0x8000_0005,
        0x8000_0005,
        0x8000_0005,
    ),
    (
        "casa, not equal below bit 32",
        0xF7E2_5012,
        (0x1_0000_0005, I3),
        (O1, B4),
        6,
        6,
        6,
    ),
    (
        "casa of 0, against 2^32",
        0xF7E2_5012,
        (0x1_0000_0000, I3),
        (O1, B4),
        0,
        0x8586_8788,
        0,
    ),
    // CASXA looks at all
    (
        "casxa, equal",
        0xF7F2_5012,
        (0x8000_0000_0000_0005, I3),
        (O1, B8),
        0x8000_0000_0000_0005,
        I3,
        0x8000_0000_0000_0005,
    ),
    ("casxa, not equal", 0xF7F2_5012, (5, I3), (O1, B8), 7, 7, 7),
    (
        "casxa, not equal above bit 32",
        0xF7F2_5012,
        (5, I3),
        (O1, B8),
        0x1_0000_0005,
        0x1_0000_0005,
        0x1_0000_0005,
    ),
    (
        "casxa, not equal below bit 32",
        0xF7F2_5012,
        (0x1_0000_0006, I3),
        (O1, B8),
        0x1_0000_0005,
        0x1_0000_0005,
        0x1_0000_0005,
    ),
    // one register that is compared and stored
    (
        "casxa [%o1] 0x80, %i3, %i3, equal",
        0xF7F2_501B,
        (5, I3),
        (O1, B8),
        I3,
        I3,
        I3,
    ),
    (
        "casxa [%o1] 0x80, %i3, %i3, not equal",
        0xF7F2_501B,
        (5, I3),
        (O1, B8),
        5,
        5,
        5,
    ),
];

/// The word, and %o1, of accesses that are refused, and the trap's number.
const REFUSED: [(&str, u32, u64, u16); 45] = [
    // no multiple of the size
    ("lduh at an odd address", 0xF612_6008, 0x7F12_3451, 0x034),
    ("ldsh at an odd address", 0xF652_6008, 0x7F12_3451, 0x034),
    ("lduw at 2 above", 0xF602_6008, 0x7F12_3452, 0x034),
    ("ldsw at 1 above", 0xF642_6008, 0x7F12_3451, 0x034),
    ("ldx at 4 above", 0xF65A_6008, 0x7F12_3454, 0x034),
    ("sth at an odd address", 0xF632_6008, 0x7F12_3451, 0x034),
    ("stw at 2 above", 0xF622_6008, 0x7F12_3452, 0x034),
    ("stx at 4 above", 0xF672_6008, 0x7F12_3454, 0x034),
    ("swap at 2 above", 0xF67A_6008, 0x7F12_3452, 0x034),
    ("casa at 2 above", 0xF7E2_5012, 0x7F12_3452, 0x034),
    ("casxa at 4 above", 0xF7F2_5012, 0x7F12_3454, 0x034),
    // this comes before the permission
    ("lduh at 1", 0xF612_6008, 0xFFFF_FFFF_FFFF_FFF9, 0x034),
    ("ldx at 0x2004", 0xF65A_6008, 0x1FFC, 0x034),
    ("stx at 0x2004", 0xF672_6008, 0x1FFC, 0x034),
    ("stw into text, at 2 above", 0xF622_6008, 0x0F_FFFA, 0x034),
    ("swap at 0x2002", 0xF67A_6008, 0x1FFA, 0x034),
    ("casa at 0x2002", 0xF7E2_5012, 0x2002, 0x034),
    ("casxa into text, at 4 above", 0xF7F2_5012, 0x10_0004, 0x034),
    // not mapped
    ("ldub at 0x2000", 0xF60A_6008, 0x1FF8, 0x030),
    ("ldsb at 0x2001", 0xF64A_6008, 0x1FF9, 0x030),
    ("lduh at 0x2000", 0xF612_6008, 0x1FF8, 0x030),
    ("ldsh at 0x2000", 0xF652_6008, 0x1FF8, 0x030),
    ("lduw at 0x2000", 0xF602_6008, 0x1FF8, 0x030),
    ("ldsw at 0x2000", 0xF642_6008, 0x1FF8, 0x030),
    ("ldx at 0x2000", 0xF65A_6008, 0x1FF8, 0x030),
    ("ldx at 0", 0xF65A_6008, 0xFFFF_FFFF_FFFF_FFF8, 0x030),
    ("stb at 0x2000", 0xF62A_6008, 0x1FF8, 0x030),
    ("sth at 0x2000", 0xF632_6008, 0x1FF8, 0x030),
    ("stw at 0x2000", 0xF622_6008, 0x1FF8, 0x030),
    ("stx at 0x2000", 0xF672_6008, 0x1FF8, 0x030),
    ("ldstub at 0x2000", 0xF66A_6008, 0x1FF8, 0x030),
    ("swap at 0x2000", 0xF67A_6008, 0x1FF8, 0x030),
    ("casa at 0x2000", 0xF7E2_5012, 0x2000, 0x030),
    ("casxa at 0x2000", 0xF7F2_5012, 0x2000, 0x030),
    ("ldub below the stacks", 0xF60A_6008, 0x7EFF_FFF7, 0x030),
    ("stb above the stacks", 0xF62A_6008, 0x7F3F_FFF8, 0x030),
    // text may be read and not written; it ends with the word
    ("stb into text", 0xF62A_6008, 0x0F_FFF8, 0x030),
    ("sth into text", 0xF632_6008, 0x0F_FFF8, 0x030),
    ("stw into text", 0xF622_6008, 0x0F_FFF8, 0x030),
    ("ldx across the text's end", 0xF65A_6008, 0x0F_FFF8, 0x030),
    ("stx into text", 0xF672_6008, 0x0F_FFF8, 0x030),
    ("ldstub in text", 0xF66A_6008, 0x0F_FFF8, 0x030),
    ("swap in text", 0xF67A_6008, 0x0F_FFF8, 0x030),
    ("casa in text", 0xF7E2_5012, 0x10_0000, 0x030),
    ("casxa across the text's end", 0xF7F2_5012, 0x10_0000, 0x030),
];

#[test]
fn loads_extend_what_memory_has(rt: HostRuntime) -> Result<(), Fail> {
    for &(name, word, addr, size, value, loaded) in &LOADS {
        let before = holding(busy(), &[(9, O1), (18, L2), (27, I3)]);
        let did = (
            Want::Load(Addr(addr), size),
            Act::Load(Addr(addr), size, value),
        );
        let after = behind(holding(before, &[(27, loaded)]));
        assert!(rt;
            leads(rt.alloc(), word, value, before, did, after)?,
            "{name}"
        );
    }
    Ok(())
}

#[test]
fn a_load_needs_its_bytes_and_no_register(rt: HostRuntime) -> Result<(), Fail> {
    for &(name, word, o1, addr, written) in &ADDRESSES {
        let image = program(rt.alloc(), &[word, 0])?;
        let before = holding(busy(), &[(9, o1), (18, 0xFFFF_FFFF_FFFF_FFF0)]);
        let mut arch = before;
        let did = made(&mut arch, &image, 77);
        let wanted = (Want::Load(Addr(addr), B8), Act::Load(Addr(addr), B8, 77));
        let after = behind(holding(before, &[written]));
        assert!(rt; did == Some(wanted) && arch == after, "{name}");
    }
    Ok(())
}

#[test]
fn stores_cut_their_register(rt: HostRuntime) -> Result<(), Fail> {
    for &(name, word, i3, addr, size, stored) in &STORES {
        let before = holding(busy(), &[(9, O1), (18, L2), (27, i3)]);
        let did = (Want::None, Act::Store(Addr(addr), size, stored));
        assert!(rt;
            leads(rt.alloc(), word, 77, before, did, behind(before))?,
            "{name}"
        );
    }
    Ok(())
}

#[test]
fn atomics_store_and_give_what_memory_had(rt: HostRuntime) -> Result<(), Fail> {
    for &(name, word, (l2, i3), (addr, size), value, stored, loaded) in &ATOMICS {
        let before = holding(busy(), &[(9, O1), (18, l2), (27, i3)]);
        let did = (
            Want::Atomic(Addr(addr), size),
            Act::Atomic(Addr(addr), size, value, stored),
        );
        let after = behind(holding(before, &[(27, loaded)]));
        assert!(rt;
            leads(rt.alloc(), word, value, before, did, after)?,
            "{name}"
        );
    }
    Ok(())
}

#[test]
fn atomics_of_g0_store_0_and_write_no_register(rt: HostRuntime) -> Result<(), Fail> {
    // swap [%o1 + 8], %g0; casxa [%o1] 0x80, %l2, %g0
    for &(word, addr, size) in &[(0xC07A_6008, 0x7F12_3458, B4), (0xC1F2_5012, O1, B8)] {
        let before = holding(busy(), &[(9, O1), (18, 77)]);
        let did = (
            Want::Atomic(Addr(addr), size),
            Act::Atomic(Addr(addr), size, 77, 0),
        );
        assert!(rt;
            leads(rt.alloc(), word, 77, before, did, behind(before))?,
            "{word:x}"
        );
    }
    Ok(())
}

#[test]
fn accesses_are_refused_by_address_before_permission(rt: HostRuntime) -> Result<(), Fail> {
    for &(name, word, o1, number) in &REFUSED {
        let before = holding(busy(), &[(9, o1), (18, 77), (27, I3)]);
        let after = trapped(number, before);
        assert!(rt; ends(rt.alloc(), word, before, after)?, "{name}");
    }
    Ok(())
}

#[test]
fn a_compare_and_swap_that_fails_stores_what_it_loaded(rt: HostRuntime) -> Result<(), Fail> {
    // sethi %hi(0x7f000000), %g1; or %g0, 5, %g4; casxa [%g1] 0x80, %g4, %o0
    let image = program(rt.alloc(), &[0x031F_C000, 0x8810_2005, 0xD1F0_5004])?;
    let mut arch = at(TEXT, 0x10_0004, busy());
    for _ in 0..2 {
        assert!(rt; made(&mut arch, &image, 77) == Some(IDLE));
    }
    let held = holding(busy(), &[(1, 0x7F00_0000), (4, 5)]);
    assert!(rt; arch == at(0x10_0008, 0x10_000C, held));
    // %o0 is place 64, so it holds 0x140, which is not stored
    let did = made(&mut arch, &image, 9);
    let want = Want::Atomic(Addr(0x7F00_0000), B8);
    let act = Act::Atomic(Addr(0x7F00_0000), B8, 9, 9);
    assert!(rt; did == Some((want, act)));
    assert!(rt; arch == at(0x10_000C, 0x10_0010, holding(held, &[(8, 9)])));
    Ok(())
}

#[test]
fn a_byte_is_stored_and_its_doubleword_loaded(rt: HostRuntime) -> Result<(), Fail> {
    // or %g0, 5, %g4; stb %g4, [%g1 + 3]; ldx [%g1], %o0
    let image = program(rt.alloc(), &[0x8810_2005, 0xC828_6003, 0xD058_6000])?;
    let mut arch = at(TEXT, 0x10_0004, holding(busy(), &[(1, 0x7F00_0000)]));
    assert!(rt; made(&mut arch, &image, 0) == Some(IDLE));
    let stored = Act::Store(Addr(0x7F00_0003), B1, 5);
    assert!(rt; made(&mut arch, &image, 0) == Some((Want::None, stored)));
    // the byte at 3 is the fourth from above
    let want = Want::Load(Addr(0x7F00_0000), B8);
    let loaded = Act::Load(Addr(0x7F00_0000), B8, 0x0000_0005_0000_0000);
    let did = made(&mut arch, &image, 0x0000_0005_0000_0000);
    assert!(rt; did == Some((want, loaded)));
    let registers = [(1, 0x7F00_0000), (4, 5), (8, 0x0000_0005_0000_0000)];
    assert!(rt; arch == at(0x10_000C, 0x10_0010, holding(busy(), &registers)));
    Ok(())
}
