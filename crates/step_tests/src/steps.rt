//! Steps worked out by hand from the manual's rules: what their tests share, and the forms that compute. No answer is
//! taken from the code.

ghost use Rattle.std.specs.Prelude.{IsTrue};
ghost use Rattle.sparc_meaning.specs.Arch.{IsSound};

use elf64_load::{Image, load};
use rsim_base::{Node, Pair};
use sparc_meaning::{
    Act, Arch, ArchPhase, Computed, End, Fetched, Operands, Want, apply, boot, compute, peek, step,
};
use std::alloc::Global;
use std::test::Fail;

// The headers of an executable, up to the sizes of its one segment: ELF64, big-endian, SPARC V9; the
// segment may be read and run, has its bytes at 120 of the file, and begins at 0x100000, the entry.
const HEADERS: [u8; 96] = [
    0x7F, b'E', b'L', b'F', 2, 2, 1, 0, 0, 0, 0, 0, 0, 0, 0, 0, // class, data, version
    0, 2, 0, 43, 0, 0, 0, 1, // an executable for SPARC V9
    0, 0, 0, 0, 0, 0x10, 0, 0, // e_entry
    0, 0, 0, 0, 0, 0, 0, 64, // e_phoff
    0, 0, 0, 0, 0, 0, 0, 0, 0, 0, 0, 0, // no sections, no flags
    0, 64, 0, 56, 0, 1, 0, 0, 0, 0, 0, 0, // one program header of 56 bytes
    0, 0, 0, 1, 0, 0, 0, 5, // PT_LOAD, read and run
    0, 0, 0, 0, 0, 0, 0, 120, // p_offset
    0, 0, 0, 0, 0, 0x10, 0, 0, // p_vaddr
    0, 0, 0, 0, 0, 0x10, 0, 0, // p_paddr
];

// Where the text begins, and where the pair of `busy` leads next.
pub(crate) const TEXT: u64 = 0x10_0000;

pub(crate) const NEXT: u64 = 0x10_0040;

/// A program of these words, from 0x100000 on.
pub(crate) fn program(alloc: Global, words: &[u32]) -> Result<Image, Fail> {
    let size = (words.len() as u64).wrapping_mul(4).to_be_bytes();
    let mut file = Vec::from_slice(alloc, &HEADERS)?;
    for part in [size, size, 8u64.to_be_bytes()] {
        file.extend_from_slice(&part)?;
    }
    for word in words {
        file.extend_from_slice(&word.to_be_bytes())?;
    }
    Ok(load(alloc, &file)?)
}

/// A state in window 3 with something else in every register: n in global n, and 0x100 + n in place n of the
/// windowed registers. Its next instruction is not behind the first.
pub(crate) fn busy() -> Arch {
    let mut windowed = [0; 128];
    for (register, value) in windowed.iter_mut().zip(0x100..) {
        *register = value;
    }
    Arch {
        globals: [0, 1, 2, 3, 4, 5, 6, 7],
        windowed,
        cc: 0,
        y: 0,
        pc: TEXT,
        npc: NEXT,
        cwp: 3,
        cansave: 3,
        canrestore: 3,
        phase: ArchPhase::Run,
        end: End::Running,
    }
}

// Where a register of window 3 stands: its ins are at 48 to 55, its locals at 56 to 63, and its outs, the ins of
// window 4, at 64 to 71.
fn place_of(register: usize) -> usize {
    match register {
        8..16 => register + 56,
        16..24 => register + 40,
        24..32 => register + 24,
        _ => 128,
    }
}

/// The state with this value in a place of the windowed registers.
pub(crate) fn with_place(mut arch: Arch, place: usize, value: u64) -> Arch {
    if let Some(register) = arch.windowed.get_mut(place) {
        *register = value;
    }
    arch
}

/// The state with these values in registers of window 3.
pub(crate) fn holding(arch: Arch, registers: &[(usize, u64)]) -> Arch {
    let mut held = arch;
    for &(register, value) in registers {
        if let Some(global) = held.globals.get_mut(register) {
            *global = value;
        }
        held = with_place(held, place_of(register), value);
    }
    held
}

/// The state at another pair.
pub(crate) fn at(pc: u64, npc: u64, arch: Arch) -> Arch {
    Arch { pc, npc, ..arch }
}

/// The state behind the first instruction of `busy`.
pub(crate) fn behind(arch: Arch) -> Arch {
    at(NEXT, 0x10_0044, arch)
}

/// The state ended by a trap at the text's first instruction.
pub(crate) fn trapped(number: u16, arch: Arch) -> Arch {
    Arch {
        end: End::Trapped(number, TEXT),
        ..arch
    }
}

/// What `step` and `peek` ask of a state.
pub(crate) fn is_sound(arch: &Arch) -> bool
    ensures { IsTrue result → IsSound arch.now }
{
    let in_phase = match arch.phase {
        ArchPhase::Run => true,
        ArchPhase::Spill(k) => 1 <= k && k <= 15 && 1 <= arch.canrestore,
        ArchPhase::Fill(k) => 1 <= k && k <= 15 && 1 <= arch.cansave,
    };
    in_phase && arch.cwp < 8 && arch.cansave <= 6 && arch.canrestore == 6 - arch.cansave
}

/// What the next step reads.
pub(crate) fn look(arch: &Arch, image: &Image) -> Option<Want> {
    is_sound(arch).then(|| peek(arch, image))
}

/// A step, with what memory has where it reads it: what it was to read, and what it did. A processor that has
/// ended makes none. The step is made from its operands too, and nothing is answered where that does otherwise.
pub(crate) fn made(arch: &mut Arch, image: &Image, value: u64) -> Option<(Want, Act)> {
    if !is_sound(arch) || !arch.end.is_running() {
        return None;
    }
    let want = peek(arch, image);
    let mut other = *arch;
    let applied = made_from_operands(&mut other, image, value);
    let act = step(arch, image, value);
    (applied == act && other == *arch).then_some((want, act))
}

// A step, made from its operands.
fn made_from_operands(arch: &mut Arch, image: &Image, value: u64) -> Act
    requires { IsSound arch.old }
{
    let fetched = Fetched::next_of(arch, image);
    let operands = Operands::of(&fetched, arch);
    let computed = compute(image, &fetched, &operands);
    apply(arch, &fetched, &operands, &computed, value)
}

/// A step that reads nothing and does nothing beside.
pub(crate) const IDLE: (Want, Act) = (Want::None, Act::Nothing);

/// A step that ends the processor.
pub(crate) const ENDS: (Want, Act) = (Want::None, Act::End);

/// Whether the first step of a program of one word, with what memory has, does this and leads to this state.
pub(crate) fn leads(
    alloc: Global,
    word: u32,
    value: u64,
    before: Arch,
    did: (Want, Act),
    after: Arch,
) -> Result<bool, Fail> {
    let image = program(alloc, &[word])?;
    let mut arch = before;
    Ok(made(&mut arch, &image, value) == Some(did) && arch == after)
}

/// Whether the first step of a program of one word ends the processor in this state, which makes no other step.
pub(crate) fn ends(alloc: Global, word: u32, before: Arch, after: Arch) -> Result<bool, Fail> {
    let image = program(alloc, &[word])?;
    let mut arch = before;
    let ended = made(&mut arch, &image, 77) == Some(ENDS) && arch == after;
    Ok(ended && made(&mut arch, &image, 77).is_none() && look(&arch, &image) == Some(Want::Ended))
}

#[test]
fn processors_start_with_their_number_and_their_stack(rt: HostRuntime) -> Result<(), Fail> {
    let image = program(rt.alloc(), &[0x0100_0000])?;
    // the outs of window 0 are the ins of window 1, from 16 on
    for &(p, n, stack) in &[
        (0, 1, 0x7F00_F701),
        (1, 2, 0x7F01_F701),
        (63, 64, 0x7F3F_F701),
    ] {
        let mut windowed = [0; 128];
        windowed[16] = u64::from(p);
        windowed[17] = u64::from(n);
        windowed[22] = stack;
        let want = Arch {
            globals: [0; 8],
            windowed,
            cc: 0,
            y: 0,
            pc: 0x10_0000,
            npc: 0x10_0004,
            cwp: 0,
            cansave: 6,
            canrestore: 0,
            phase: ArchPhase::Run,
            end: End::Running,
        };
        assert!(rt; boot(&image, Node(p), n) == want, "processor {p}");
    }
    Ok(())
}

// In %o1 and in %l2 before each of the rows.
const A: u64 = 0x8000_0001_0000_0007;

const B: u64 = 0xFFFF_FFFF_8000_0005;

/// The word, codes and Y before it, the register that it writes with its value, and codes and Y after it.
const COMPUTED: [(&str, u32, (u8, u64), (usize, u64), (u8, u64)); 60] = [
    (
        "add %o1, %l2, %i3",
        0xB602_4012,
        (0xA5, 9),
        (27, 0x8000_0000_8000_000C),
        (0xA5, 9),
    ),
    (
        "and %o1, %l2, %i3",
        0xB60A_4012,
        (0xA5, 9),
        (27, 0x8000_0001_0000_0005),
        (0xA5, 9),
    ),
    (
        "or %o1, %l2, %i3",
        0xB612_4012,
        (0xA5, 9),
        (27, 0xFFFF_FFFF_8000_0007),
        (0xA5, 9),
    ),
    (
        "xor %o1, %l2, %i3",
        0xB61A_4012,
        (0xA5, 9),
        (27, 0x7FFF_FFFE_8000_0002),
        (0xA5, 9),
    ),
    (
        "sub %o1, %l2, %i3",
        0xB622_4012,
        (0xA5, 9),
        (27, 0x8000_0001_8000_0002),
        (0xA5, 9),
    ),
    (
        "andn %o1, %l2, %i3",
        0xB62A_4012,
        (0xA5, 9),
        (27, 2),
        (0xA5, 9),
    ),
    (
        "orn %o1, %l2, %i3",
        0xB632_4012,
        (0xA5, 9),
        (27, 0x8000_0001_7FFF_FFFF),
        (0xA5, 9),
    ),
    (
        "xnor %o1, %l2, %i3",
        0xB63A_4012,
        (0xA5, 9),
        (27, 0x8000_0001_7FFF_FFFD),
        (0xA5, 9),
    ),
    (
        "addc with C",
        0xB642_4012,
        (0x01, 9),
        (27, 0x8000_0000_8000_000D),
        (0x01, 9),
    ),
    (
        "addc without C",
        0xB642_4012,
        (0xFE, 9),
        (27, 0x8000_0000_8000_000C),
        (0xFE, 9),
    ),
    (
        "subc with C",
        0xB662_4012,
        (0x01, 9),
        (27, 0x8000_0001_8000_0001),
        (0x01, 9),
    ),
    (
        "subc without C",
        0xB662_4012,
        (0xFE, 9),
        (27, 0x8000_0001_8000_0002),
        (0xFE, 9),
    ),
    (
        "umul %o1, %l2, %i3",
        0xB652_4012,
        (0xA5, 9),
        (27, 0x0000_0003_8000_0023),
        (0xA5, 3),
    ),
    (
        "smul %o1, %l2, %i3",
        0xB65A_4012,
        (0xA5, 9),
        (27, 0xFFFF_FFFC_8000_0023),
        (0xA5, 0xFFFF_FFFC),
    ),
    (
        "mulx %o1, 3, %i3",
        0xB64A_6003,
        (0xA5, 9),
        (27, 0x8000_0003_0000_0015),
        (0xA5, 9),
    ),
    (
        "udivx %o1, 2, %i3",
        0xB66A_6002,
        (0xA5, 9),
        (27, 0x4000_0000_8000_0003),
        (0xA5, 9),
    ),
    (
        "sdivx %o1, 2, %i3",
        0xB76A_6002,
        (0xA5, 9),
        (27, 0xC000_0000_8000_0004),
        (0xA5, 9),
    ),
    // the forms that set the codes
    (
        "addcc %o1, %l2, %i3",
        0xB682_4012,
        (0x25, 9),
        (27, 0x8000_0000_8000_000C),
        (0x98, 9),
    ),
    (
        "andcc %o1, %l2, %i3",
        0xB68A_4012,
        (0x25, 9),
        (27, 0x8000_0001_0000_0005),
        (0x80, 9),
    ),
    (
        "orcc %o1, %l2, %i3",
        0xB692_4012,
        (0x25, 9),
        (27, 0xFFFF_FFFF_8000_0007),
        (0x88, 9),
    ),
    (
        "xorcc %o1, %l2, %i3",
        0xB69A_4012,
        (0x25, 9),
        (27, 0x7FFF_FFFE_8000_0002),
        (0x08, 9),
    ),
    (
        "subcc %o1, %l2, %i3",
        0xB6A2_4012,
        (0x25, 9),
        (27, 0x8000_0001_8000_0002),
        (0x9B, 9),
    ),
    (
        "andncc %o1, %l2, %i3",
        0xB6AA_4012,
        (0x25, 9),
        (27, 2),
        (0x00, 9),
    ),
    (
        "orncc %o1, %l2, %i3",
        0xB6B2_4012,
        (0x25, 9),
        (27, 0x8000_0001_7FFF_FFFF),
        (0x80, 9),
    ),
    (
        "xnorcc %o1, %l2, %i3",
        0xB6BA_4012,
        (0x25, 9),
        (27, 0x8000_0001_7FFF_FFFD),
        (0x80, 9),
    ),
    (
        "addccc with C",
        0xB6C2_4012,
        (0x01, 9),
        (27, 0x8000_0000_8000_000D),
        (0x98, 9),
    ),
    (
        "subccc with C",
        0xB6E2_4012,
        (0x01, 9),
        (27, 0x8000_0001_8000_0001),
        (0x9B, 9),
    ),
    (
        "umulcc %o1, %l2, %i3",
        0xB6D2_4012,
        (0x25, 9),
        (27, 0x0000_0003_8000_0023),
        (0x08, 3),
    ),
    (
        "smulcc %o1, %l2, %i3",
        0xB6DA_4012,
        (0x25, 9),
        (27, 0xFFFF_FFFC_8000_0023),
        (0x88, 0xFFFF_FFFC),
    ),
    // shifts and counts
    (
        "sll %o1, 4, %i3",
        0xB72A_6004,
        (0xA5, 9),
        (27, 0x0000_0010_0000_0070),
        (0xA5, 9),
    ),
    (
        "srl %o1, 1, %i3",
        0xB732_6001,
        (0xA5, 9),
        (27, 3),
        (0xA5, 9),
    ),
    (
        "sra %l2, 1, %i3",
        0xB73C_A001,
        (0xA5, 9),
        (27, 0xFFFF_FFFF_C000_0002),
        (0xA5, 9),
    ),
    (
        "sllx %o1, 32, %i3",
        0xB72A_7020,
        (0xA5, 9),
        (27, 0x0000_0007_0000_0000),
        (0xA5, 9),
    ),
    (
        "srlx %o1, 32, %i3",
        0xB732_7020,
        (0xA5, 9),
        (27, 0x8000_0001),
        (0xA5, 9),
    ),
    (
        "srax %o1, 32, %i3",
        0xB73A_7020,
        (0xA5, 9),
        (27, 0xFFFF_FFFF_8000_0001),
        (0xA5, 9),
    ),
    ("popc %l2, %i3", 0xB770_0012, (0xA5, 9), (27, 35), (0xA5, 9)),
    // state registers
    (
        "rd %y, %i3",
        0xB740_0000,
        (0xA5, 0x8765_4321),
        (27, 0x8765_4321),
        (0xA5, 0x8765_4321),
    ),
    (
        "rd %ccr, %i3",
        0xB740_8000,
        (0xA5, 9),
        (27, 0xA5),
        (0xA5, 9),
    ),
    (
        "rd %pc, %i3",
        0xB741_4000,
        (0xA5, 9),
        (27, 0x10_0000),
        (0xA5, 9),
    ),
    (
        "wr %o1, %l2, %y",
        0x8182_4012,
        (0xA5, 9),
        (18, B),
        (0xA5, 0x8000_0002),
    ),
    (
        "wr %o1, -1, %y",
        0x8182_7FFF,
        (0xA5, 9),
        (18, B),
        (0xA5, 0xFFFF_FFF8),
    ),
    (
        "wr %o1, %l2, %ccr",
        0x8582_4012,
        (0xA5, 9),
        (18, B),
        (0x02, 9),
    ),
    (
        "wr %o1, 0x55, %ccr",
        0x8582_6055,
        (0xA5, 9),
        (18, B),
        (0x52, 9),
    ),
    // SETHI, and moves by a condition
    (
        "sethi %hi(0xfffffc00), %i3",
        0x373F_FFFF,
        (0xA5, 9),
        (27, 0xFFFF_FC00),
        (0xA5, 9),
    ),
    ("nop", 0x0100_0000, (0xA5, 9), (18, B), (0xA5, 9)),
    (
        "move %icc, -3, %i3, with Z",
        0xB764_67FD,
        (0x04, 9),
        (27, 0xFFFF_FFFF_FFFF_FFFD),
        (0x04, 9),
    ),
    (
        "move %icc, -3, %i3, without",
        0xB764_67FD,
        (0xFB, 9),
        (18, B),
        (0xFB, 9),
    ),
    (
        "move %xcc, %l2, %i3, with Z",
        0xB764_5012,
        (0x40, 9),
        (27, B),
        (0x40, 9),
    ),
    (
        "move %xcc, %l2, %i3, without",
        0xB764_5012,
        (0xBF, 9),
        (18, B),
        (0xBF, 9),
    ),
    (
        "mova %icc, 5, %i3",
        0xB766_2005,
        (0xA5, 9),
        (27, 5),
        (0xA5, 9),
    ),
    (
        "movn %xcc, 5, %i3",
        0xB764_3005,
        (0xFF, 9),
        (18, B),
        (0xFF, 9),
    ),
    (
        "movrlz %o1, -5, %i3",
        0xB77A_6FFB,
        (0xA5, 9),
        (27, 0xFFFF_FFFF_FFFF_FFFB),
        (0xA5, 9),
    ),
    (
        "movrz %o1, %l2, %i3",
        0xB77A_4412,
        (0xFF, 9),
        (18, B),
        (0xFF, 9),
    ),
    (
        "movrgz %o1, -5, %i3",
        0xB77A_7BFB,
        (0xA5, 9),
        (18, B),
        (0xA5, 9),
    ),
    // other registers: %g0 stays 0, and each place is its own
    (
        "add %o1, 1, %g0",
        0x8002_6001,
        (0xA5, 9),
        (18, B),
        (0xA5, 9),
    ),
    (
        "add %o1, -1, %g5",
        0x8A02_7FFF,
        (0xA5, 9),
        (5, 0x8000_0001_0000_0006),
        (0xA5, 9),
    ),
    ("add %g0, 7, %o0", 0x9000_2007, (0xA5, 9), (8, 7), (0xA5, 9)),
    (
        "add %g2, %g3, %g1",
        0x8200_8003,
        (0xA5, 9),
        (1, 5),
        (0xA5, 9),
    ),
    // %l7 is place 63 and %i0 place 48; %i6 is place 54 and %o7 place 71
    (
        "add %l7, %i0, %l0",
        0xA005_C018,
        (0xA5, 9),
        (16, 0x26F),
        (0xA5, 9),
    ),
    (
        "add %i6, %o7, %i7",
        0xBE07_800F,
        (0xA5, 9),
        (31, 0x27D),
        (0xA5, 9),
    ),
];

#[test]
fn forms_that_compute_write_their_results_alone(rt: HostRuntime) -> Result<(), Fail> {
    for &(name, word, (cc, y), written, (cc_after, y_after)) in &COMPUTED {
        let held = holding(busy(), &[(9, A), (18, B)]);
        let after = Arch {
            cc: cc_after,
            y: y_after,
            ..behind(holding(held, &[written]))
        };
        let done = leads(rt.alloc(), word, 77, Arch { cc, y, ..held }, IDLE, after)?;
        assert!(rt; done, "{name}");
    }
    Ok(())
}

#[test]
fn the_next_pc_goes_round(rt: HostRuntime) -> Result<(), Fail> {
    let before = at(TEXT, 0xFFFF_FFFF_FFFF_FFFC, busy());
    let after = at(0xFFFF_FFFF_FFFF_FFFC, 0, busy());
    assert!(rt; leads(rt.alloc(), 0x0100_0000, 0, before, IDLE, after)?);
    Ok(())
}

#[test]
fn a_step_is_told_by_its_operands(rt: HostRuntime) -> Result<(), Fail> {
    // addcc %g1, %g2, %g3, whose operands are not those of `busy`
    let image = program(rt.alloc(), &[0x8680_4002])?;
    let arch = busy();
    assert!(rt; is_sound(&arch));
    let fetched = Fetched::next_of(&arch, &image);
    let operands = Operands {
        a: u64::MAX,
        b: 1,
        c: 0,
        cc: 0,
        y: 0,
    };
    let computed = Computed {
        end: End::Running,
        addr: 0,
        next: Pair {
            pc: NEXT,
            npc: 0x10_0044,
        },
        taken: false,
        out: None,
        value: 0,
        // Z and C, of both widths
        cc: 0x55,
        y: 0,
    };
    assert!(rt; compute(&image, &fetched, &operands) == computed);
    Ok(())
}
