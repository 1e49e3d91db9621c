//! Values, condition codes and Y worked out by hand from the manual's rules. No answer is taken from the code.

use sparc_alu::{AluOut, DivisionByZero, alu};
use sparc_decode::Op;

/// Y before each row.
const Y: u64 = 0x1234_5678;

/// The form, its operands, its value, and codes and Y after it, both 0 before it.
const EXAMPLES: [(Op, u64, u64, u64, u8, u64); 4] = [
    (Op::SubCc, 0, 1, 0xffff_ffff_ffff_ffff, 0x99, 0),
    (Op::AddCc, 0x7fff_ffff, 1, 0x8000_0000, 0x0a, 0),
    (
        Op::UmulCc,
        0xffff_ffff,
        0xffff_ffff,
        0xffff_fffe_0000_0001,
        0x80,
        0xffff_fffe,
    ),
    (
        Op::Sdivx,
        0x8000_0000_0000_0000,
        0xffff_ffff_ffff_ffff,
        0x8000_0000_0000_0000,
        0,
        0,
    ),
];

/// The form, its operands and its value. Codes 0xa4 and Y stay as they are.
const VALUES: [(Op, u64, u64, u64); 125] = [
    // sums and differences
    (Op::Add, 0, 0, 0),
    (Op::Add, 0xffff_ffff_ffff_ffff, 1, 0),
    (Op::Add, 0x7fff_ffff, 1, 0x8000_0000),
    (Op::Add, 0x8000_0000, 0x8000_0000, 0x1_0000_0000),
    (Op::Add, 0x8000_0001, 0x7fff_ffff, 0x1_0000_0000),
    (Op::Add, 0x8000_0000_0000_0000, 0x8000_0000_0000_0000, 0),
    (
        Op::Add,
        0xffff_ffff_ffff_ffff,
        0xffff_ffff_ffff_ffff,
        0xffff_ffff_ffff_fffe,
    ),
    (
        Op::Save,
        0x8000_0000_0000_0000,
        0xffff_ffff_ffff_ffff,
        0x7fff_ffff_ffff_ffff,
    ),
    (Op::Restore, 0xffff_ffff_ffff_ffff, 2, 1),
    (Op::Sub, 0, 1, 0xffff_ffff_ffff_ffff),
    (Op::Sub, 0x8000_0000, 1, 0x7fff_ffff),
    (Op::Sub, 0x1_0000_0000, 1, 0xffff_ffff),
    (Op::Sub, 0x8000_0000_0000_0000, 1, 0x7fff_ffff_ffff_ffff),
    (Op::Sub, 1, 0xffff_ffff_ffff_ffff, 2),
    (Op::Sub, 0x8000_0001, 0x8000_0001, 0),
    (Op::Sub, 0, 0x8000_0000_0000_0000, 0x8000_0000_0000_0000),
    (Op::Sub, 0x7fff_ffff, 0x8000_0000, 0xffff_ffff_ffff_ffff),
    // bit by bit
    (Op::And, 0xffff_ffff_ffff_ffff, 0x8000_0001, 0x8000_0001),
    (Op::And, 0x8000_0001, 0x7fff_ffff, 1),
    (Op::And, 0x1_0000_0000, 0x8000_0000, 0),
    (
        Op::Andn,
        0xffff_ffff_ffff_ffff,
        0x8000_0000_0000_0000,
        0x7fff_ffff_ffff_ffff,
    ),
    (Op::Andn, 0x8000_0001, 1, 0x8000_0000),
    (
        Op::Andn,
        0xffff_ffff_ffff_ffff,
        0x7fff_ffff,
        0xffff_ffff_8000_0000,
    ),
    (Op::Andn, 0, 0xffff_ffff_ffff_ffff, 0),
    (Op::Or, 0x7fff_ffff, 0x8000_0000, 0xffff_ffff),
    (Op::Or, 0x8000_0000_0000_0000, 1, 0x8000_0000_0000_0001),
    (Op::Orn, 0, 0, 0xffff_ffff_ffff_ffff),
    (Op::Orn, 1, 0xffff_ffff_ffff_ffff, 1),
    (Op::Orn, 0, 0x7fff_ffff, 0xffff_ffff_8000_0000),
    (Op::Orn, 0x8000_0000, 0x8000_0001, 0xffff_ffff_ffff_fffe),
    (
        Op::Xor,
        0xffff_ffff_ffff_ffff,
        0x8000_0001,
        0xffff_ffff_7fff_fffe,
    ),
    (Op::Xor, 0x8000_0000_0000_0000, 0x8000_0000_0000_0000, 0),
    (Op::Xor, 0x1_0000_0000, 1, 0x1_0000_0001),
    (Op::Xnor, 0, 0, 0xffff_ffff_ffff_ffff),
    (Op::Xnor, 0xffff_ffff_ffff_ffff, 0, 0),
    (Op::Xnor, 0x8000_0001, 0x8000_0000, 0xffff_ffff_ffff_fffe),
    (Op::Xnor, 0x8000_0000_0000_0000, 0, 0x7fff_ffff_ffff_ffff),
    // products of 64 bits
    (Op::Mulx, 0, 0xffff_ffff_ffff_ffff, 0),
    (Op::Mulx, 1, 0xffff_ffff_ffff_ffff, 0xffff_ffff_ffff_ffff),
    (Op::Mulx, 0xffff_ffff_ffff_ffff, 0xffff_ffff_ffff_ffff, 1),
    (Op::Mulx, 0x1_0000_0000, 0x1_0000_0000, 0),
    (Op::Mulx, 0x8000_0000, 2, 0x1_0000_0000),
    (Op::Mulx, 0x8000_0000, 0x8000_0000, 0x4000_0000_0000_0000),
    (
        Op::Mulx,
        0x8000_0000_0000_0000,
        0xffff_ffff_ffff_ffff,
        0x8000_0000_0000_0000,
    ),
    (Op::Mulx, 0x8000_0001, 0x8000_0001, 0x4000_0001_0000_0001),
    (Op::Mulx, 0x7fff_ffff, 0x8000_0001, 0x3fff_ffff_ffff_ffff),
    // quotients
    (Op::Udivx, 0xffff_ffff_ffff_ffff, 1, 0xffff_ffff_ffff_ffff),
    (Op::Udivx, 0xffff_ffff_ffff_ffff, 0xffff_ffff_ffff_ffff, 1),
    (Op::Udivx, 1, 0xffff_ffff_ffff_ffff, 0),
    (Op::Udivx, 0, 0xffff_ffff_ffff_ffff, 0),
    (Op::Udivx, 0x8000_0000_0000_0000, 0x1_0000_0000, 0x8000_0000),
    (Op::Udivx, 0xffff_ffff_ffff_ffff, 0x1_0000_0000, 0xffff_ffff),
    (Op::Udivx, 0x8000_0001, 0x7fff_ffff, 1),
    (Op::Udivx, 0x8000_0000_0000_0000, 0xffff_ffff_ffff_ffff, 0),
    (Op::Udivx, 0x1_0000_0000, 0x1_0000_0000, 1),
    (Op::Udivx, 7, 2, 3),
    (
        Op::Sdivx,
        0x8000_0000_0000_0000,
        0xffff_ffff_ffff_ffff,
        0x8000_0000_0000_0000,
    ),
    (Op::Sdivx, 0xffff_ffff_ffff_ffff, 0xffff_ffff_ffff_ffff, 1),
    (Op::Sdivx, 1, 0xffff_ffff_ffff_ffff, 0xffff_ffff_ffff_ffff),
    (Op::Sdivx, 0, 0xffff_ffff_ffff_ffff, 0),
    (Op::Sdivx, 0xffff_ffff_ffff_fff9, 2, 0xffff_ffff_ffff_fffd), // -7 by 2 is -3
    (Op::Sdivx, 7, 0xffff_ffff_ffff_fffe, 0xffff_ffff_ffff_fffd), // 7 by -2 is -3
    (Op::Sdivx, 0xffff_ffff_ffff_fff9, 0xffff_ffff_ffff_fffe, 3), // -7 by -2 is 3
    (Op::Sdivx, 0xffff_ffff_ffff_ffff, 0x1_0000_0000, 0),
    (
        Op::Sdivx,
        0x8000_0000_0000_0000,
        0x1_0000_0000,
        0xffff_ffff_8000_0000,
    ),
    (Op::Sdivx, 0x8000_0000_0000_0000, 1, 0x8000_0000_0000_0000),
    (Op::Sdivx, 0x1_0000_0000, 0x8000_0000_0000_0000, 0),
    (Op::Sdivx, 0x8000_0000_0000_0000, 0x8000_0000_0000_0000, 1),
    (Op::Sdivx, 0x8000_0001, 0x7fff_ffff, 1),
    // shifts with counts of 5 bits
    (Op::Sll, 1, 0x1f, 0x8000_0000),
    (Op::Sll, 1, 0x20, 1),
    (Op::Sll, 1, 0x21, 2),
    (Op::Sll, 1, 0x3f, 0x8000_0000),
    (Op::Sll, 0x8000_0001, 1, 0x1_0000_0002),
    (Op::Sll, 0x8000_0000_0000_0000, 1, 0),
    (Op::Sll, 0xffff_ffff_ffff_ffff, 0x1f, 0xffff_ffff_8000_0000),
    (
        Op::Sll,
        0xffff_ffff_ffff_ffff,
        0xffff_ffff_ffff_ffff,
        0xffff_ffff_8000_0000,
    ),
    (Op::Sll, 1, 0x1_0000_0000, 1),
    (Op::Sll, 0x8000_0000, 0, 0x8000_0000),
    (Op::Srl, 0xffff_ffff_ffff_ffff, 0, 0xffff_ffff),
    (Op::Srl, 0x8000_0000, 0x1f, 1),
    (Op::Srl, 0x8000_0001, 0x20, 0x8000_0001),
    (Op::Srl, 0xffff_ffff_8000_0000, 1, 0x4000_0000),
    (Op::Srl, 0x1_0000_0000, 0, 0),
    (Op::Srl, 0xffff_ffff_ffff_ffff, 0xffff_ffff_ffff_ffff, 1),
    (Op::Sra, 0x8000_0000, 0, 0xffff_ffff_8000_0000),
    (Op::Sra, 0x8000_0000, 0x1f, 0xffff_ffff_ffff_ffff),
    (Op::Sra, 0x7fff_ffff, 0x1e, 1),
    (Op::Sra, 0x7fff_ffff, 0x1f, 0),
    (Op::Sra, 0x8000_0001, 1, 0xffff_ffff_c000_0000),
    (Op::Sra, 0xffff_ffff_0000_0001, 0x20, 1),
    (Op::Sra, 0x1_0000_0000, 0, 0),
    (
        Op::Sra,
        0xffff_ffff_ffff_ffff,
        0xffff_ffff_ffff_ffff,
        0xffff_ffff_ffff_ffff,
    ),
    (Op::Sra, 1, 0x8000_0000_0000_0000, 1),
    // shifts with counts of 6 bits
    (Op::Sllx, 1, 0x3f, 0x8000_0000_0000_0000),
    (Op::Sllx, 1, 0x40, 1),
    (Op::Sllx, 1, 0x20, 0x1_0000_0000),
    (Op::Sllx, 0xffff_ffff_ffff_ffff, 0x3f, 0x8000_0000_0000_0000),
    (Op::Sllx, 0x8000_0001, 0x21, 0x2_0000_0000),
    (
        Op::Sllx,
        0xffff_ffff_ffff_ffff,
        0xffff_ffff_ffff_ffff,
        0x8000_0000_0000_0000,
    ),
    (Op::Sllx, 0x8000_0000_0000_0000, 1, 0),
    (Op::Srlx, 0x8000_0000_0000_0000, 0x3f, 1),
    (Op::Srlx, 0xffff_ffff_ffff_ffff, 0x20, 0xffff_ffff),
    (Op::Srlx, 0xffff_ffff_ffff_ffff, 0x40, 0xffff_ffff_ffff_ffff),
    (Op::Srlx, 0x1_0000_0000, 0x20, 1),
    (Op::Srlx, 0xffff_ffff_ffff_ffff, 0xffff_ffff_ffff_ffff, 1),
    (Op::Srlx, 0x8000_0000_0000_0000, 0x1f, 0x1_0000_0000),
    (Op::Srax, 0x8000_0000_0000_0000, 0x3f, 0xffff_ffff_ffff_ffff),
    (Op::Srax, 0x8000_0000_0000_0000, 0x20, 0xffff_ffff_8000_0000),
    (Op::Srax, 0x7fff_ffff_ffff_ffff, 0x3e, 1),
    (Op::Srax, 0x8000_0000, 0x1f, 1),
    (Op::Srax, 0xffff_ffff_ffff_ffff, 1, 0xffff_ffff_ffff_ffff),
    (Op::Srax, 0x8000_0000_0000_0000, 0x40, 0x8000_0000_0000_0000),
    (Op::Srax, 0x1_0000_0000, 0x21, 0),
    // counts of ones
    (Op::Popc, 0xffff_ffff_ffff_ffff, 0, 0),
    (Op::Popc, 0, 0xffff_ffff_ffff_ffff, 0x40),
    (Op::Popc, 0, 0x8000_0001, 2),
    (Op::Popc, 0, 0x7fff_ffff, 0x1f),
    (Op::Popc, 0, 0x1_0000_0000, 1),
    (Op::Popc, 0, 0x8000_0000_0000_0000, 1),
    // operand 2 passed on, and what state registers hold
    (Op::Sethi, 0, 0x8000_0000, 0x8000_0000),
    (Op::Movcc, 1, 0xffff_ffff_ffff_ffff, 0xffff_ffff_ffff_ffff),
    (Op::Movr, 0xffff_ffff_ffff_ffff, 0, 0),
    (Op::RdCcr, 1, 2, 0xa4),
    (Op::RdY, 1, 2, 0x1234_5678),
];

/// The form, its operands, the codes before it, which stay as they are, and its value.
const CARRIES: [(Op, u64, u64, u8, u64); 14] = [
    (Op::Addc, 0, 0, 0x01, 1),
    (Op::Addc, 0, 0, 0xfe, 0),
    (Op::Addc, 0xffff_ffff_ffff_ffff, 0, 0x11, 0),
    (
        Op::Addc,
        0xffff_ffff_ffff_ffff,
        0,
        0x10,
        0xffff_ffff_ffff_ffff,
    ), // C of xcc does not count
    (Op::Addc, 0x7fff_ffff, 0, 0x01, 0x8000_0000),
    (
        Op::Addc,
        0xffff_ffff_ffff_ffff,
        0xffff_ffff_ffff_ffff,
        0x01,
        0xffff_ffff_ffff_ffff,
    ),
    (
        Op::Addc,
        0x8000_0000_0000_0000,
        0x7fff_ffff_ffff_ffff,
        0xff,
        0,
    ),
    (Op::Subc, 0, 0, 0x01, 0xffff_ffff_ffff_ffff),
    (Op::Subc, 0, 0, 0x10, 0),
    (Op::Subc, 0x1_0000_0000, 0, 0x01, 0xffff_ffff),
    (
        Op::Subc,
        0x8000_0000_0000_0000,
        0x7fff_ffff_ffff_ffff,
        0x01,
        0,
    ),
    (Op::Subc, 1, 0xffff_ffff_ffff_ffff, 0x01, 1),
    (Op::Subc, 1, 0xffff_ffff_ffff_ffff, 0xfe, 2),
    (Op::Subc, 0x8000_0001, 0x7fff_ffff, 0x01, 1),
];

/// The form, its operands, its value, the codes after it, 0xff before it, and Y after it.
const PRODUCTS: [(Op, u64, u64, u64, u8, u64); 29] = [
    (
        Op::Umul,
        0xffff_ffff,
        0xffff_ffff,
        0xffff_fffe_0000_0001,
        0xff,
        0xffff_fffe,
    ),
    (Op::Umul, 0x1_0000_0000, 0xffff_ffff, 0, 0xff, 0),
    (Op::Umul, 0xffff_ffff_ffff_ffff, 1, 0xffff_ffff, 0xff, 0),
    (
        Op::Umul,
        0x8000_0000,
        0x8000_0000,
        0x4000_0000_0000_0000,
        0xff,
        0x4000_0000,
    ),
    (
        Op::Umul,
        0x8000_0000_0000_0000,
        0xffff_ffff_ffff_ffff,
        0,
        0xff,
        0,
    ),
    (Op::Umul, 0x8000_0001, 2, 0x1_0000_0002, 0xff, 1),
    (
        Op::Umul,
        0x7fff_ffff,
        0x8000_0001,
        0x3fff_ffff_ffff_ffff,
        0xff,
        0x3fff_ffff,
    ),
    (
        Op::Smul,
        0xffff_ffff_ffff_ffff,
        0xffff_ffff_ffff_ffff,
        1,
        0xff,
        0,
    ),
    (
        Op::Smul,
        0xffff_ffff,
        1,
        0xffff_ffff_ffff_ffff,
        0xff,
        0xffff_ffff,
    ),
    (
        Op::Smul,
        0x8000_0000,
        0x8000_0000,
        0x4000_0000_0000_0000,
        0xff,
        0x4000_0000,
    ),
    (
        Op::Smul,
        0x8000_0000,
        0x7fff_ffff,
        0xc000_0000_8000_0000,
        0xff,
        0xc000_0000,
    ),
    (
        Op::Smul,
        0x8000_0001,
        0x8000_0001,
        0x3fff_ffff_0000_0001,
        0xff,
        0x3fff_ffff,
    ),
    (Op::Smul, 0x1_0000_0000, 0xffff_ffff_ffff_ffff, 0, 0xff, 0),
    (
        Op::Smul,
        0x7fff_ffff,
        0x7fff_ffff,
        0x3fff_ffff_0000_0001,
        0xff,
        0x3fff_ffff,
    ),
    (
        Op::UmulCc,
        0xffff_ffff,
        0xffff_ffff,
        0xffff_fffe_0000_0001,
        0x80,
        0xffff_fffe,
    ),
    (Op::UmulCc, 0, 0xffff_ffff_ffff_ffff, 0, 0x44, 0),
    (Op::UmulCc, 0x8000_0000, 2, 0x1_0000_0000, 0x04, 1),
    (Op::UmulCc, 0x8000_0000, 1, 0x8000_0000, 0x08, 0),
    (
        Op::UmulCc,
        0x8000_0000,
        0x8000_0000,
        0x4000_0000_0000_0000,
        0x04,
        0x4000_0000,
    ),
    (
        Op::SmulCc,
        0xffff_ffff_ffff_ffff,
        1,
        0xffff_ffff_ffff_ffff,
        0x88,
        0xffff_ffff,
    ),
    (
        Op::SmulCc,
        0x8000_0000,
        2,
        0xffff_ffff_0000_0000,
        0x84,
        0xffff_ffff,
    ),
    (Op::SmulCc, 0, 5, 0, 0x44, 0),
    (Op::SmulCc, 0xffff_ffff, 0xffff_ffff, 1, 0x00, 0),
    (
        Op::SmulCc,
        0x8000_0000,
        0x8000_0000,
        0x4000_0000_0000_0000,
        0x04,
        0x4000_0000,
    ),
    (
        Op::SmulCc,
        0x8000_0000,
        0x7fff_ffff,
        0xc000_0000_8000_0000,
        0x88,
        0xc000_0000,
    ),
    // Y itself
    (
        Op::WrY,
        0xffff_ffff_0000_0001,
        0x8000_0000,
        0,
        0xff,
        0x8000_0001,
    ),
    (
        Op::WrY,
        0xffff_ffff_ffff_ffff,
        0xffff_ffff_ffff_ffff,
        0,
        0xff,
        0,
    ),
    (Op::WrY, 0x1_0000_0000, 0, 0, 0xff, 0),
    (
        Op::WrY,
        0x7fff_ffff,
        0xffff_ffff_ffff_ffff,
        0,
        0xff,
        0x8000_0000,
    ),
];

/// Forms that compute nothing.
const IDLE: [Op; 29] = [
    Op::Trap,
    Op::BPcc,
    Op::Bicc,
    Op::BPr,
    Op::Call,
    Op::RdPc,
    Op::Membar,
    Op::Stbar,
    Op::Flushw,
    Op::Jmpl,
    Op::Return,
    Op::Tcc,
    Op::Flush,
    Op::Lduw,
    Op::Ldub,
    Op::Lduh,
    Op::Ldsw,
    Op::Ldsb,
    Op::Ldsh,
    Op::Ldx,
    Op::Stw,
    Op::Stb,
    Op::Sth,
    Op::Stx,
    Op::Ldstub,
    Op::Swap,
    Op::Prefetch,
    Op::Casa,
    Op::Casxa,
];

#[test]
fn forms_compute(rt: HostRuntime) {
    for &(op, a, b, value, cc, y) in &EXAMPLES {
        assert!(rt;
            alu(op, a, b, 0, 0) == Ok(AluOut { value, cc, y }),
            "{op:?} of {a:x} and {b:x}"
        );
    }
    let kept = AluOut {
        value: 0,
        cc: 0xa4,
        y: Y,
    };
    for &(op, a, b, value) in &VALUES {
        assert!(rt;
            alu(op, a, b, 0xa4, Y) == Ok(AluOut { value, ..kept }),
            "{op:?} of {a:x} and {b:x}"
        );
    }
    for &(op, a, b, cc, value) in &CARRIES {
        assert!(rt;
            alu(op, a, b, cc, Y) == Ok(AluOut { value, cc, y: Y }),
            "{op:?} of {a:x} and {b:x}"
        );
    }
    for &(op, a, b, value, cc, y) in &PRODUCTS {
        assert!(rt;
            alu(op, a, b, 0xff, Y) == Ok(AluOut { value, cc, y }),
            "{op:?} of {a:x} and {b:x}"
        );
    }
    let idle = AluOut {
        value: 0,
        cc: 0x5b,
        y: u64::MAX,
    };
    for &op in &IDLE {
        assert!(rt; alu(op, 3, 5, 0x5b, u64::MAX) == Ok(idle), "{op:?}");
    }
}

#[test]
fn y_is_read_as_32_bits(rt: HostRuntime) {
    let y = 0xffff_ffff_8000_0001;
    let out = AluOut {
        value: 0x8000_0001,
        cc: 0,
        y,
    };
    assert!(rt; alu(Op::RdY, 0, 0, 0, y) == Ok(out));
}

#[test]
fn division_by_zero_is_refused(rt: HostRuntime) {
    for &a in &[0, 1, 0x8000_0000_0000_0000, 0xffff_ffff_ffff_ffff] {
        assert!(rt; alu(Op::Udivx, a, 0, 0, 0) == Err(DivisionByZero));
        assert!(rt; alu(Op::Sdivx, a, 0, 0, 0) == Err(DivisionByZero));
    }
    let text = format!(in rt.alloc(); "{DivisionByZero}").expect(&rt, "memory");
    assert!(rt; text.as_str() == "division by zero");
}
