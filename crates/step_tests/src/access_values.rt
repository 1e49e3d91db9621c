//! Addresses and values of accesses worked out by hand from the manual's rules. No answer is taken from the code.

use rsim_base::Size;
use sparc_alu::{cas_result, effective, load_extend};
use sparc_decode::Op;

/// The form, what was loaded, and what it puts into its register.
const LOADS: [(Op, u64, u64); 26] = [
    (Op::Ldub, 0xffff_ffff_ffff_ff80, 0x80),
    (Op::Ldub, 0x17f, 0x7f),
    (Op::Ldsb, 0x80, 0xffff_ffff_ffff_ff80),
    (Op::Ldsb, 0x7f, 0x7f),
    (Op::Ldsb, 0xff, 0xffff_ffff_ffff_ffff),
    (Op::Ldsb, 0x100, 0),
    (Op::Lduh, 0xffff_8000, 0x8000),
    (Op::Lduh, 0x1_7fff, 0x7fff),
    (Op::Ldsh, 0x8000, 0xffff_ffff_ffff_8000),
    (Op::Ldsh, 0x1_7fff, 0x7fff),
    (Op::Lduw, 0xffff_ffff_8000_0000, 0x8000_0000),
    (Op::Lduw, 0x1_7fff_ffff, 0x7fff_ffff),
    (Op::Ldsw, 0x8000_0000, 0xffff_ffff_8000_0000),
    (Op::Ldsw, 0x1_7fff_ffff, 0x7fff_ffff),
    (Op::Ldx, 0xffff_ffff_ffff_ffff, 0xffff_ffff_ffff_ffff),
    (Op::Ldx, 0x8000_0000_0000_0000, 0x8000_0000_0000_0000),
    (Op::Ldx, 0x7fff_ffff_ffff_ffff, 0x7fff_ffff_ffff_ffff),
    (Op::Ldstub, 0xfff, 0xff),
    (Op::Ldstub, 0x17f, 0x7f),
    (Op::Swap, 0xffff_ffff_8000_0001, 0x8000_0001),
    (Op::Swap, 0x7fff_ffff, 0x7fff_ffff),
    (Op::Casa, 0xffff_ffff_ffff_ffff, 0xffff_ffff),
    (Op::Casa, 0x1_7fff_ffff, 0x7fff_ffff),
    (Op::Casxa, 0xffff_ffff_ffff_ffff, 0xffff_ffff_ffff_ffff),
    (Op::Casxa, 0x7fff_ffff_ffff_ffff, 0x7fff_ffff_ffff_ffff),
    (Op::Stx, 0x8000_0000_0000_0001, 0x8000_0000_0000_0001),
];

/// What was found, what it is compared with, the new value, the size, and what is left.
const SWAPS: [(u64, u64, u64, Size, u64); 10] = [
    (0x1111_1111_0000_0007, 0x2222_2222_0000_0007, 9, Size::B4, 9),
    (
        0x1111_1111_0000_0008,
        0x1111_1111_0000_0007,
        9,
        Size::B4,
        0x1111_1111_0000_0008,
    ),
    (0xffff_ffff, 0xffff_ffff_ffff_ffff, 0, Size::B4, 0),
    (
        0x1111_1111_0000_0007,
        0x2222_2222_0000_0007,
        9,
        Size::B8,
        0x1111_1111_0000_0007,
    ),
    (0xffff_ffff_ffff_ffff, 0xffff_ffff_ffff_ffff, 9, Size::B8, 9),
    (
        0xffff_ffff_ffff_ffff,
        0xffff_ffff_ffff_fffe,
        9,
        Size::B8,
        0xffff_ffff_ffff_ffff,
    ),
    (0x107, 0x207, 9, Size::B1, 9),
    (0x107, 0x108, 9, Size::B1, 0x107),
    (0x1_0107, 0x2_0107, 9, Size::B2, 9),
    (0x1_0107, 0x1_0207, 9, Size::B2, 0x1_0107),
];

/// Two operands and the address that they give.
const ADDRESSES: [(u64, u64, u64); 6] = [
    (0, 0, 0),
    (0xffff_ffff_ffff_ffff, 1, 0),
    (0x8000_0000_0000_0000, 0x8000_0000_0000_0000, 0),
    (0x7fff_ffff, 1, 0x8000_0000),
    (0x10, 0xffff_ffff_ffff_fff8, 8),
    (0x1_0000_0000, 0xffff_ffff_ffff_ffff, 0xffff_ffff),
];

#[test]
fn accesses_are_computed(rt: HostRuntime) {
    for &(op, raw, value) in &LOADS {
        assert!(rt; load_extend(op, raw) == value, "{op:?} of {raw:x}");
    }
    for &(old, compare, new, size, left) in &SWAPS {
        assert!(rt;
            cas_result(old, compare, new, size) == left,
            "{old:x} against {compare:x}"
        );
    }
    for &(a, b, address) in &ADDRESSES {
        assert!(rt; effective(a, b) == address, "{a:x} and {b:x}");
    }
}
