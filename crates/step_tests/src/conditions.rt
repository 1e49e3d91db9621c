//! Conditions worked out by hand from the manual's rules. No answer is taken from the code.

use sparc_alu::branch_taken;
use sparc_decode::{Instr, Op, Src2};

/// Each condition on four codes by its number: bit k says whether it is true at the codes k, 8 N + 4 Z + 2 V + C.
const ON_CODES: [u16; 16] = [
    0x0000, // N
    0xf0f0, // E
    0xf3fc, // LE
    0x33cc, // L
    0xfafa, // LEU
    0xaaaa, // CS
    0xff00, // NEG
    0xcccc, // VS
    0xffff, // A
    0x0f0f, // NE
    0x0c03, // G
    0xcc33, // GE
    0x0505, // GU
    0x5555, // CC
    0x00ff, // POS
    0x3333, // VC
];

/// The number of a condition on a register, the value of the register, and whether it is true.
const ON_REGISTER: [(u8, u64, bool); 48] = [
    (0, 0xffff_ffff_ffff_ffff, false),
    (0, 0x8000_0000_0000_0000, false),
    (0, 0, false),
    (0, 1, false),
    (0, 0x8000_0000, false),
    (0, 0x7fff_ffff_ffff_ffff, false),
    (1, 0xffff_ffff_ffff_ffff, false),
    (1, 0x8000_0000_0000_0000, false),
    (1, 0, true),
    (1, 1, false),
    (1, 0x8000_0000, false),
    (1, 0x7fff_ffff_ffff_ffff, false),
    (2, 0xffff_ffff_ffff_ffff, true),
    (2, 0x8000_0000_0000_0000, true),
    (2, 0, true),
    (2, 1, false),
    (2, 0x8000_0000, false),
    (2, 0x7fff_ffff_ffff_ffff, false),
    (3, 0xffff_ffff_ffff_ffff, true),
    (3, 0x8000_0000_0000_0000, true),
    (3, 0, false),
    (3, 1, false),
    (3, 0x8000_0000, false),
    (3, 0x7fff_ffff_ffff_ffff, false),
    (4, 0xffff_ffff_ffff_ffff, false),
    (4, 0x8000_0000_0000_0000, false),
    (4, 0, false),
    (4, 1, false),
    (4, 0x8000_0000, false),
    (4, 0x7fff_ffff_ffff_ffff, false),
    (5, 0xffff_ffff_ffff_ffff, true),
    (5, 0x8000_0000_0000_0000, true),
    (5, 0, false),
    (5, 1, true),
    (5, 0x8000_0000, true),
    (5, 0x7fff_ffff_ffff_ffff, true),
    (6, 0xffff_ffff_ffff_ffff, false),
    (6, 0x8000_0000_0000_0000, false),
    (6, 0, false),
    (6, 1, true),
    (6, 0x8000_0000, true),
    (6, 0x7fff_ffff_ffff_ffff, true),
    (7, 0xffff_ffff_ffff_ffff, false),
    (7, 0x8000_0000_0000_0000, false),
    (7, 0, true),
    (7, 1, true),
    (7, 0x8000_0000, true),
    (7, 0x7fff_ffff_ffff_ffff, true),
];

fn conditional(op: Op, cond: u8, extended: bool) -> Instr {
    Instr {
        op,
        rd: 0,
        rs1: 0,
        src2: Src2::Reg(0),
        cond,
        extended,
        annul: false,
        hint: false,
        disp: 0,
        mask: 0,
        trap: 0,
    }
}

/// Whether the form's condition is as its mask says at all codes. The codes that are not looked at are the
/// opposite ones.
fn is_as_masked(op: Op, cond: u8, mask: u16) -> bool {
    for codes in 0..16 {
        let expected = mask >> codes & 1 == 1;
        let others = 15 - codes;
        let icc = branch_taken(&conditional(op, cond, false), 16 * others + codes, 0);
        let xcc = branch_taken(&conditional(op, cond, true), 16 * codes + others, 0);
        if icc != expected || xcc != expected {
            return false;
        }
    }
    true
}

#[test]
fn conditions_are_looked_up(rt: HostRuntime) {
    for &op in &[Op::Bicc, Op::BPcc, Op::Movcc, Op::Tcc] {
        for (cond, &mask) in (0..).zip(&ON_CODES) {
            assert!(rt; is_as_masked(op, cond, mask), "{op:?} {cond}");
        }
    }
    for &op in &[Op::BPr, Op::Movr] {
        for &(cond, a, expected) in &ON_REGISTER {
            let taken = branch_taken(&conditional(op, cond, false), 0xff, a);
            assert!(rt; taken == expected, "{op:?} {cond} at {a:x}");
        }
    }
    // a form without a condition, at that which is always true
    assert!(rt; !branch_taken(&conditional(Op::Jmpl, 8, false), 0, 0));
}
