//! Words put together field by field as the manual's formats have them, with what they say. No answer is
//! taken from the decoder. Registers 8 to 15 are %o0 to %o7, 16 to 23 %l0 to %l7, and 24 to 31 %i0 to %i7.

use sparc_decode::Src2::{self, Imm, Reg};
use sparc_decode::WindowEffect::{self, Flush, Restore, Same, Save};
use sparc_decode::{Dest, Instr, Op, Sources, decode, dest, sources, window_effect};

/// Op, rd, rs1 and operand 2 of forms with no other field.
const REGISTERS: [(u32, Op, u8, u8, Src2); 94] = [
    (0x9010202a, Op::Or, 8, 0, Imm(42)), // or %g0, 42, %o0
    (0x90024008, Op::Add, 8, 9, Reg(8)), // add %o1, %o0, %o0
    (0x88102005, Op::Or, 4, 0, Imm(5)), // or %g0, 5, %g4
    (0x84004002, Op::Add, 2, 1, Reg(2)), // add %g1, %g2, %g2
    (0x8618a080, Op::Xor, 3, 2, Imm(128)), // xor %g2, 0x80, %g3
    (0x8600e001, Op::Add, 3, 3, Imm(1)), // add %g3, 1, %g3
    (0x90482003, Op::Mulx, 8, 0, Imm(3)), // mulx %g0, 3, %o0
    (0x906a0000, Op::Udivx, 8, 8, Reg(0)), // udivx %o0, %g0, %o0
    (0x82014002, Op::Add, 1, 5, Reg(2)), // add %r5, %r2, %r1
    (0x840a3fff, Op::And, 2, 8, Imm(-1)), // and %r8, -1, %r2
    (0x8612c010, Op::Or, 3, 11, Reg(16)), // or %r11, %r16, %r3
    (0x881bb000, Op::Xor, 4, 14, Imm(-4096)), // xor %r14, -4096, %r4
    (0x8a24401e, Op::Sub, 5, 17, Reg(30)), // sub %r17, %r30, %r5
    (0x8c2d2fff, Op::Andn, 6, 20, Imm(4095)), // andn %r20, 4095, %r6
    (0x8e35c00c, Op::Orn, 7, 23, Reg(12)), // orn %r23, %r12, %r7
    (0x903ea001, Op::Xnor, 8, 26, Imm(1)), // xnor %r26, 1, %r8
    (0x9247401a, Op::Addc, 9, 29, Reg(26)), // addc %r29, %r26, %r9
    (0x94483f4f, Op::Mulx, 10, 0, Imm(-177)), // mulx %r0, -177, %r10
    (0x9650c008, Op::Umul, 11, 3, Reg(8)), // umul %r3, %r8, %r11
    (0x9859a7ff, Op::Smul, 12, 6, Imm(2047)), // smul %r6, 2047, %r12
    (0x9a624016, Op::Subc, 13, 9, Reg(22)), // subc %r9, %r22, %r13
    (0x9c6b3fff, Op::Udivx, 14, 12, Imm(-1)), // udivx %r12, -1, %r14
    (0x9f6bc004, Op::Sdivx, 15, 15, Reg(4)), // sdivx %r15, %r4, %r15
    (0xa084b000, Op::AddCc, 16, 18, Imm(-4096)), // addcc %r18, -4096, %r16
    (0xa28d4012, Op::AndCc, 17, 21, Reg(18)), // andcc %r21, %r18, %r17
    (0xa4962fff, Op::OrCc, 18, 24, Imm(4095)), // orcc %r24, 4095, %r18
    (0xa69ec000, Op::XorCc, 19, 27, Reg(0)), // xorcc %r27, %r0, %r19
    (0xa8a7a001, Op::SubCc, 20, 30, Imm(1)), // subcc %r30, 1, %r20
    (0xaaa8400e, Op::AndnCc, 21, 1, Reg(14)), // andncc %r1, %r14, %r21
    (0xacb13f4f, Op::OrnCc, 22, 4, Imm(-177)), // orncc %r4, -177, %r22
    (0xaeb9c01c, Op::XnorCc, 23, 7, Reg(28)), // xnorcc %r7, %r28, %r23
    (0xb0c2a7ff, Op::AddcCc, 24, 10, Imm(2047)), // addccc %r10, 2047, %r24
    (0xb2d3400a, Op::UmulCc, 25, 13, Reg(10)), // umulcc %r13, %r10, %r25
    (0xb4dc3fff, Op::SmulCc, 26, 16, Imm(-1)), // smulcc %r16, -1, %r26
    (0xb6e4c018, Op::SubcCc, 27, 19, Reg(24)), // subccc %r19, %r24, %r27
    (0x90025fe8, Op::Add, 8, 9, Reg(8)), // add %o1, %o0, %o0 with the unused bits set
    (0x852a3007, Op::Sllx, 2, 8, Imm(7)), // sllx %o0, 7, %g2
    (0x87290005, Op::Sll, 3, 4, Reg(5)), // sll %g4, %g5, %g3
    (0x87291005, Op::Sllx, 3, 4, Reg(5)), // sllx %g4, %g5, %g3
    (0xbf2fa01f, Op::Sll, 31, 30, Imm(31)), // sll %i6, 31, %i7
    (0xbf2fb03f, Op::Sllx, 31, 30, Imm(63)), // sllx %i6, 63, %i7
    (0x87310005, Op::Srl, 3, 4, Reg(5)), // srl %g4, %g5, %g3
    (0x87311005, Op::Srlx, 3, 4, Reg(5)), // srlx %g4, %g5, %g3
    (0xbf37a01f, Op::Srl, 31, 30, Imm(31)), // srl %i6, 31, %i7
    (0xbf37b03f, Op::Srlx, 31, 30, Imm(63)), // srlx %i6, 63, %i7
    (0x87390005, Op::Sra, 3, 4, Reg(5)), // sra %g4, %g5, %g3
    (0x87391005, Op::Srax, 3, 4, Reg(5)), // srax %g4, %g5, %g3
    (0xbf3fa01f, Op::Sra, 31, 30, Imm(31)), // sra %i6, 31, %i7
    (0xbf3fb03f, Op::Srax, 31, 30, Imm(63)), // srax %i6, 63, %i7
    (0x8328a023, Op::Sll, 1, 2, Imm(3)), // sll %g2, 3, %g1 with bit 5 set, which a count of 32 bits has not
    (0x87400000, Op::RdY, 3, 0, Reg(0)), // rd %y, %g3
    (0x89408000, Op::RdCcr, 4, 0, Reg(0)), // rd %ccr, %g4
    (0x8b414000, Op::RdPc, 5, 0, Reg(0)), // rd %pc, %g5
    (0x81826007, Op::WrY, 0, 9, Imm(7)), // wr %o1, 7, %y
    (0x8582400a, Op::WrCcr, 0, 9, Reg(10)), // wr %o1, %o2, %ccr
    (0x81580000, Op::Flushw, 0, 0, Reg(0)), // flushw
    (0x81da6008, Op::Flush, 0, 0, Reg(0)), // flush %o1 + 8
    (0x91700009, Op::Popc, 8, 0, Reg(9)), // popc %o1, %o0
    (0x91703fff, Op::Popc, 8, 0, Imm(-1)), // popc -1, %o0
    (0x81c06000, Op::Jmpl, 0, 1, Imm(0)), // jmpl %g1+0, %g0
    (0x9de3bf50, Op::Save, 14, 14, Imm(-176)), // save %sp, -176, %sp
    (0x81e80000, Op::Restore, 0, 0, Reg(0)), // restore
    (0x81cfe008, Op::Return, 0, 31, Imm(8)), // return %i7 + 8
    (0x9fc24000, Op::Jmpl, 15, 9, Reg(0)), // jmpl %o1 + %g0, %o7
    (0x9debbfff, Op::Restore, 14, 14, Imm(-1)), // restore %sp, -1, %sp
    (0x9de38001, Op::Save, 14, 14, Reg(1)), // save %sp, %g1, %sp
    (0xd073a7ff, Op::Stx, 8, 14, Imm(2047)), // stx %o0, [%sp+2047]
    (0xd25ba7ff, Op::Ldx, 9, 14, Imm(2047)), // ldx [%sp+2047], %o1
    (0xc8286003, Op::Stb, 4, 1, Imm(3)), // stb %g4, [%g1+3]
    (0xd0586000, Op::Ldx, 8, 1, Imm(0)), // ldx [%g1], %o0
    (0xd1f05004, Op::Casxa, 8, 1, Reg(4)), // casxa [%g1] 0x80, %g4, %o0
    (0xc870a000, Op::Stx, 4, 2, Imm(0)), // stx %g4, [%g2]
    (0xd058e000, Op::Ldx, 8, 3, Imm(0)), // ldx [%g3], %o0
    (0xc8706080, Op::Stx, 4, 1, Imm(128)), // stx %g4, [%g1+128]
    (0xc4586080, Op::Ldx, 2, 1, Imm(128)), // ldx [%g1+128], %g2
    (0xc4686000, Op::Ldstub, 2, 1, Imm(0)), // ldstub [%g1], %g2
    (0xc6004002, Op::Lduw, 3, 1, Reg(2)), // lduw [%r1 + %r2], %r3
    (0xd0093fff, Op::Ldub, 8, 4, Imm(-1)), // ldub [%r4 + -1], %r8
    (0xda11c010, Op::Lduh, 13, 7, Reg(16)), // lduh [%r7 + %r16], %r13
    (0xe422b000, Op::Stw, 18, 10, Imm(-4096)), // stw %r18, [%r10 + -4096]
    (0xee2b401e, Op::Stb, 23, 13, Reg(30)), // stb %r23, [%r13 + %r30]
    (0xf8342fff, Op::Sth, 28, 16, Imm(4095)), // sth %r28, [%r16 + 4095]
    (0xc244c00c, Op::Ldsw, 1, 19, Reg(12)), // ldsw [%r19 + %r12], %r1
    (0xcc4da001, Op::Ldsb, 6, 22, Imm(1)), // ldsb [%r22 + 1], %r6
    (0xd656401a, Op::Ldsh, 11, 25, Reg(26)), // ldsh [%r25 + %r26], %r11
    (0xe05f3f4f, Op::Ldx, 16, 28, Imm(-177)), // ldx [%r28 + -177], %r16
    (0xea6fc008, Op::Ldstub, 21, 31, Reg(8)), // ldstub [%r31 + %r8], %r21
    (0xf470a7ff, Op::Stx, 26, 2, Imm(2047)), // stx %r26, [%r2 + 2047]
    (0xfe794016, Op::Swap, 31, 5, Reg(22)), // swap [%r5 + %r22], %r31
    (0xc16a6008, Op::Prefetch, 0, 0, Reg(0)), // prefetch [%o1 + 8], 0
    (0xc96a6008, Op::Prefetch, 0, 0, Reg(0)), // prefetch [%o1 + 8], 4
    (0xe16a6008, Op::Prefetch, 0, 0, Reg(0)), // prefetch [%o1 + 8], 16
    (0xff6a6008, Op::Prefetch, 0, 0, Reg(0)), // prefetch [%o1 + 8], 31
    (0xd1e2500a, Op::Casa, 8, 9, Reg(10)), // casa [%o1] 0x80, %o2, %o0
];

/// Op, rd, rs1, operand 2, cond and extended of conditional moves and traps.
const CONDITIONS: [(u32, Op, u8, u8, Src2, u8, bool); 13] = [
    (0x916667ff, Op::Movcc, 8, 0, Imm(-1), 9, false), // movne %icc, -1, %o0
    (0x916473ff, Op::Movcc, 8, 0, Imm(1023), 1, true), // move %xcc, 1023, %o0
    (0x9367d00a, Op::Movcc, 9, 0, Reg(10), 15, true), // movvc %xcc, %o2, %o1
    (0x93662400, Op::Movcc, 9, 0, Imm(-1024), 8, false), // mova %icc, -1024, %o1
    (0x917a6600, Op::Movr, 8, 9, Imm(-512), 1, false), // movrz %o1, -512, %o0
    (0x917a7dff, Op::Movr, 8, 9, Imm(511), 7, false), // movrgez %o1, 511, %o0
    (0x917a540b, Op::Movr, 8, 9, Reg(11), 5, false), // movrnz %o1, %o3, %o0
    (0x91d02012, Op::Tcc, 0, 0, Imm(18), 8, false), // ta 18
    (0x91d02010, Op::Tcc, 0, 0, Imm(16), 8, false), // ta 16
    (0x83d2400a, Op::Tcc, 0, 9, Reg(10), 1, false), // te %icc, %o1 + %o2
    (0x83d2500a, Op::Tcc, 0, 9, Reg(10), 1, true), // te %xcc, %o1 + %o2
    (0xb1d02010, Op::Tcc, 0, 0, Imm(16), 8, false), // ta 16 with bit 29 set
    (0x91d03010, Op::Tcc, 0, 0, Imm(-4080), 8, true), // ta %xcc, 16: operand 2 has all of the low 13 bits
];

/// Op, rd, rs1, cond, extended with annul and hint, and disp of branches, SETHI and CALL.
const BRANCHES: [(u32, Op, u8, u8, u8, [bool; 3], i64); 20] = [
    (0x30800002, Op::Bicc, 0, 0, 8, [false, true, false], 8), // ba,a +8
    (0x22800002, Op::Bicc, 0, 0, 1, [false, true, false], 8), // be,a +8
    (0x12bfffff, Op::Bicc, 0, 0, 9, [false, false, false], -4), // bne -4
    (
        0x0ea00000,
        Op::Bicc,
        0,
        0,
        7,
        [false, false, false],
        -8388608,
    ), // bvs with the lowest displacement
    (0x02480003, Op::BPcc, 0, 0, 1, [false, false, true], 12), // be,pt %icc, +12
    (0x3467ffff, Op::BPcc, 0, 0, 10, [true, true, false], -4), // bg,a,pn %xcc, -4
    (0x106c0000, Op::BPcc, 0, 0, 8, [true, false, true], -1048576), // ba,pt %xcc with the lowest displacement
    (0x0ac20006, Op::BPr, 0, 8, 5, [false, false, false], 24), // brnz,pn %o0, +24
    (0x0af0bfff, Op::BPr, 0, 2, 5, [false, false, false], -4), // brnz,pn %g2, -4
    (0x22dfc005, Op::BPr, 0, 31, 1, [false, true, true], 65556), // brz,a,pt %i7, with both parts of the displacement
    (0x0ee00000, Op::BPr, 0, 0, 7, [false, false, false], -131072), // brgez,pn %g0 with the lowest displacement
    (0x04c00001, Op::BPr, 0, 0, 2, [false, false, false], 4), // brlez,pn %g0, +4
    (0x06c00001, Op::BPr, 0, 0, 3, [false, false, false], 4), // brlz,pn %g0, +4
    (0x0cc00001, Op::BPr, 0, 0, 6, [false, false, false], 4), // brgz,pn %g0, +4
    (
        0x03000800,
        Op::Sethi,
        1,
        0,
        0,
        [false, false, false],
        0x200000,
    ), // sethi 0x200000, %g1
    (0x01000000, Op::Sethi, 0, 0, 0, [false, false, false], 0), // nop
    (
        0x233fffff,
        Op::Sethi,
        17,
        0,
        0,
        [false, false, false],
        0xffff_fc00,
    ), // sethi 0xfffffc00, %l1
    (0x40000001, Op::Call, 0, 0, 0, [false, false, false], 4), // call +4
    (0x7fffffff, Op::Call, 0, 0, 0, [false, false, false], -4), // call -4
    (
        0x60000000,
        Op::Call,
        0,
        0,
        0,
        [false, false, false],
        -2147483648,
    ), // call with the lowest displacement
];

/// Op and mask of barriers.
const BARRIERS: [(u32, Op, u8); 7] = [
    (0x8143e002, Op::Membar, 2), // membar #StoreLoad
    (0x8143e00f, Op::Membar, 15), // membar of every order
    (0x8143e000, Op::Membar, 0), // membar 0
    (0x8143e010, Op::Membar, 15), // membar #Lookaside
    (0x8143e042, Op::Membar, 15), // membar #Sync|#StoreLoad
    (0x8143ff85, Op::Membar, 5), // membar #LoadLoad|#LoadStore with the unused bits set
    (0x8143c000, Op::Stbar, 8), // stbar
];

/// Words that trap, with the number.
const TRAPS: [(u32, u16); 81] = [
    (0x00000000, 0x010), // illtrap 0
    (0x003fffff, 0x010), // illtrap 0x3fffff
    (0x01400000, 0x020), // fbpn
    (0x11800000, 0x020), // fba
    (0x01c00000, 0x010), // op2 7
    (0x10500000, 0x010), // BPcc with cc 1
    (0x10700000, 0x010), // BPcc with cc 3
    (0x00c00001, 0x010), // BPr with rcond 0
    (0x08c00001, 0x010), // BPr with rcond 4
    (0x1ac00001, 0x010), // BPr with bit 28 set
    (0x9072400a, 0x010), // op 2, op3 0x0e
    (0x907a400a, 0x010), // op 2, op3 0x0f
    (0x90ca400a, 0x010), // op 2, op3 0x19
    (0x90ea400a, 0x010), // op 2, op3 0x1d
    (0x90f2400a, 0x010), // op 2, op3 0x1e
    (0x90fa400a, 0x010), // op 2, op3 0x1f
    (0x9102400a, 0x010), // op 2, op3 0x20
    (0x910a400a, 0x010), // op 2, op3 0x21
    (0x9112400a, 0x010), // op 2, op3 0x22
    (0x911a400a, 0x010), // op 2, op3 0x23
    (0x9122400a, 0x010), // op 2, op3 0x24
    (0x914a400a, 0x010), // op 2, op3 0x29
    (0x919a400a, 0x010), // op 2, op3 0x33
    (0x91b2400a, 0x010), // op 2, op3 0x36
    (0x91ba400a, 0x010), // op 2, op3 0x37
    (0x91fa400a, 0x010), // op 2, op3 0x3f
    (0x91a2400a, 0x020), // op 2, op3 0x34: floating point
    (0x91aa400a, 0x020), // op 2, op3 0x35: floating point
    (0x81500000, 0x011), // rdpr
    (0x81880000, 0x011), // saved
    (0x81900000, 0x011), // wrpr
    (0x81f00000, 0x011), // done
    (0x9140c000, 0x010), // rd %asi, %o0
    (0x91410000, 0x010), // rd %tick, %o0
    (0x9143e002, 0x010), // the place of membar with rd 8
    (0x9143c000, 0x010), // the place of stbar with rd 8
    (0x83824000, 0x010), // wr to the state register 1
    (0x87824000, 0x010), // wr %o1, %g0, %asi
    (0x9f802000, 0x010), // sir 0
    (0x91666800, 0x010), // MOVcc with cc 101
    (0x91667800, 0x010), // MOVcc with cc 111
    (0x91626000, 0x020), // MOVcc on %fcc0
    (0x91627800, 0x020), // MOVcc on %fcc3
    (0x917a400a, 0x010), // MOVr with rcond 0
    (0x917a500a, 0x010), // MOVr with rcond 4
    (0x91704009, 0x010), // POPC with rs1 1
    (0x91d02810, 0x010), // Tcc with cc 1
    (0x91d03810, 0x010), // Tcc with cc 3
    (0xd01a400a, 0x010), // op 3, op3 0x03
    (0xd03a400a, 0x010), // op 3, op3 0x07
    (0xd062400a, 0x010), // op 3, op3 0x0c
    (0xd082400a, 0x010), // op 3, op3 0x10
    (0xd0fa400a, 0x010), // op 3, op3 0x1f
    (0xd142400a, 0x010), // op 3, op3 0x28
    (0xd17a400a, 0x010), // op 3, op3 0x2f
    (0xd18a400a, 0x010), // op 3, op3 0x31
    (0xd1aa400a, 0x010), // op 3, op3 0x35
    (0xd1c2400a, 0x010), // op 3, op3 0x38
    (0xd1ea400a, 0x010), // op 3, op3 0x3d
    (0xd1fa400a, 0x010), // op 3, op3 0x3f
    (0xd102400a, 0x020), // op 3, op3 0x20: floating point
    (0xd10a400a, 0x020), // op 3, op3 0x21: floating point
    (0xd112400a, 0x020), // op 3, op3 0x22: floating point
    (0xd11a400a, 0x020), // op 3, op3 0x23: floating point
    (0xd122400a, 0x020), // op 3, op3 0x24: floating point
    (0xd12a400a, 0x020), // op 3, op3 0x25: floating point
    (0xd132400a, 0x020), // op 3, op3 0x26: floating point
    (0xd13a400a, 0x020), // op 3, op3 0x27: floating point
    (0xd182400a, 0x020), // op 3, op3 0x30: floating point
    (0xd192400a, 0x020), // op 3, op3 0x32: floating point
    (0xd19a400a, 0x020), // op 3, op3 0x33: floating point
    (0xd1a2400a, 0x020), // op 3, op3 0x34: floating point
    (0xd1b2400a, 0x020), // op 3, op3 0x36: floating point
    (0xd1ba400a, 0x020), // op 3, op3 0x37: floating point
    (0xcb6a6008, 0x010), // PREFETCH with function 5
    (0xdf6a6008, 0x010), // PREFETCH with function 15
    (0xd1e2700a, 0x010), // CASA with i set
    (0xd1e2510a, 0x010), // CASA with the address space 0x88
    (0xd1f2700a, 0x010), // CASXA with i set
    (0xd1f2502a, 0x010), // CASXA with the address space 0x81
    (0xd1e2400a, 0x010), // CASA with the address space 0
];

/// The sources a, b and c, cc and y, then the destination's register, cc and y, and the windows.
type Effects = (
    u32,
    [Option<u8>; 3],
    [bool; 2],
    Option<u8>,
    [bool; 2],
    WindowEffect,
);

const EFFECTS: [Effects; 43] = [
    (
        0x00000000,
        [None, None, None],
        [false, false],
        None,
        [false, false],
        Same,
    ), // illtrap
    (
        0x94020009,
        [Some(8), Some(9), None],
        [false, false],
        Some(10),
        [false, false],
        Same,
    ), // add %o0, %o1, %o2
    (
        0x80022001,
        [Some(8), None, None],
        [false, false],
        None,
        [false, false],
        Same,
    ), // add %o0, 1, %g0
    (
        0x94400000,
        [Some(0), Some(0), None],
        [true, false],
        Some(10),
        [false, false],
        Same,
    ), // addc %g0, %g0, %o2
    (
        0x80a20009,
        [Some(8), Some(9), None],
        [false, false],
        None,
        [true, false],
        Same,
    ), // subcc %o0, %o1, %g0
    (
        0x94e20009,
        [Some(8), Some(9), None],
        [true, false],
        Some(10),
        [true, false],
        Same,
    ), // subccc %o0, %o1, %o2
    (
        0x94520009,
        [Some(8), Some(9), None],
        [false, false],
        Some(10),
        [false, true],
        Same,
    ), // umul %o0, %o1, %o2
    (
        0x94da2003,
        [Some(8), None, None],
        [false, false],
        Some(10),
        [true, true],
        Same,
    ), // smulcc %o0, 3, %o2
    (
        0x946a2003,
        [Some(8), None, None],
        [false, false],
        Some(10),
        [false, false],
        Same,
    ), // udivx %o0, 3, %o2
    (
        0x952a0009,
        [Some(8), Some(9), None],
        [false, false],
        Some(10),
        [false, false],
        Same,
    ), // sll %o0, %o1, %o2
    (
        0x95400000,
        [None, None, None],
        [false, true],
        Some(10),
        [false, false],
        Same,
    ), // rd %y, %o2
    (
        0x95408000,
        [None, None, None],
        [true, false],
        Some(10),
        [false, false],
        Same,
    ), // rd %ccr, %o2
    (
        0x95414000,
        [None, None, None],
        [false, false],
        Some(10),
        [false, false],
        Same,
    ), // rd %pc, %o2
    (
        0x8143e002,
        [None, None, None],
        [false, false],
        None,
        [false, false],
        Same,
    ), // membar #StoreLoad
    (
        0x81820009,
        [Some(8), Some(9), None],
        [false, false],
        None,
        [false, true],
        Same,
    ), // wr %o0, %o1, %y
    (
        0x85822009,
        [Some(8), None, None],
        [false, false],
        None,
        [true, false],
        Same,
    ), // wr %o0, 9, %ccr
    (
        0x81580000,
        [None, None, None],
        [false, false],
        None,
        [false, false],
        Flush,
    ), // flushw
    (
        0x81da4008,
        [None, None, None],
        [false, false],
        None,
        [false, false],
        Same,
    ), // flush %o1 + %o0
    (
        0x95664009,
        [None, Some(9), Some(10)],
        [true, false],
        Some(10),
        [false, false],
        Same,
    ), // movne %icc, %o1, %o2
    (
        0x95662009,
        [None, None, Some(10)],
        [false, false],
        Some(10),
        [false, false],
        Same,
    ), // mova %icc, 9, %o2
    (
        0x957a1409,
        [Some(8), Some(9), Some(10)],
        [false, false],
        Some(10),
        [false, false],
        Same,
    ), // movrnz %o0, %o1, %o2
    (
        0x95700009,
        [None, Some(9), None],
        [false, false],
        Some(10),
        [false, false],
        Same,
    ), // popc %o1, %o2
    (
        0x9fc22000,
        [Some(8), None, None],
        [false, false],
        Some(15),
        [false, false],
        Same,
    ), // jmpl %o0 + 0, %o7
    (
        0x81cfe008,
        [Some(31), None, None],
        [false, false],
        None,
        [false, false],
        Restore,
    ), // return %i7 + 8
    (
        0x9de3bf50,
        [Some(14), None, None],
        [false, false],
        Some(14),
        [false, false],
        Save,
    ), // save %sp, -176, %sp
    (
        0x81e80000,
        [Some(0), Some(0), None],
        [false, false],
        None,
        [false, false],
        Restore,
    ), // restore
    (
        0x91d02010,
        [Some(0), None, Some(8)],
        [false, false],
        None,
        [false, false],
        Same,
    ), // ta 16
    (
        0x83d2400a,
        [Some(9), Some(10), Some(8)],
        [true, false],
        None,
        [false, false],
        Same,
    ), // te %icc, %o1 + %o2
    (
        0x30800002,
        [None, None, None],
        [false, false],
        None,
        [false, false],
        Same,
    ), // ba,a +8
    (
        0x22800002,
        [None, None, None],
        [true, false],
        None,
        [false, false],
        Same,
    ), // be,a +8
    (
        0x00400003,
        [None, None, None],
        [false, false],
        None,
        [false, false],
        Same,
    ), // bn,pn %icc, +12
    (
        0x02400003,
        [None, None, None],
        [true, false],
        None,
        [false, false],
        Same,
    ), // be,pn %icc, +12
    (
        0x0ac20006,
        [Some(8), None, None],
        [false, false],
        None,
        [false, false],
        Same,
    ), // brnz,pn %o0, +24
    (
        0x03000800,
        [None, None, None],
        [false, false],
        Some(1),
        [false, false],
        Same,
    ), // sethi 0x200000, %g1
    (
        0x01000000,
        [None, None, None],
        [false, false],
        None,
        [false, false],
        Same,
    ), // nop
    (
        0x40000001,
        [None, None, None],
        [false, false],
        Some(15),
        [false, false],
        Same,
    ), // call +4
    (
        0xd45a0009,
        [Some(8), Some(9), None],
        [false, false],
        Some(10),
        [false, false],
        Same,
    ), // ldx [%o0 + %o1], %o2
    (
        0xd4720009,
        [Some(8), Some(9), Some(10)],
        [false, false],
        None,
        [false, false],
        Same,
    ), // stx %o2, [%o0 + %o1]
    (
        0xc0220009,
        [Some(8), Some(9), Some(0)],
        [false, false],
        None,
        [false, false],
        Same,
    ), // stw %g0, [%o0 + %o1]
    (
        0xd46a2000,
        [Some(8), None, None],
        [false, false],
        Some(10),
        [false, false],
        Same,
    ), // ldstub [%o0], %o2
    (
        0xd47a2000,
        [Some(8), None, Some(10)],
        [false, false],
        Some(10),
        [false, false],
        Same,
    ), // swap [%o0], %o2
    (
        0xd5f21009,
        [Some(8), Some(9), Some(10)],
        [false, false],
        Some(10),
        [false, false],
        Same,
    ), // casxa [%o0] 0x80, %o1, %o2
    (
        0xc16a4008,
        [None, None, None],
        [false, false],
        None,
        [false, false],
        Same,
    ), // prefetch [%o1 + %o0], 0
];

fn plain(op: Op) -> Instr {
    Instr {
        op,
        rd: 0,
        rs1: 0,
        src2: Reg(0),
        cond: 0,
        extended: false,
        annul: false,
        hint: false,
        disp: 0,
        mask: 0,
        trap: 0,
    }
}

#[test]
fn words_are_decoded(rt: HostRuntime) {
    for &(word, op, rd, rs1, src2) in &REGISTERS {
        let instr = Instr {
            rd,
            rs1,
            src2,
            ..plain(op)
        };
        assert!(rt; decode(word) == instr, "{word:x}");
    }
    for &(word, op, rd, rs1, src2, cond, extended) in &CONDITIONS {
        let instr = Instr {
            rd,
            rs1,
            src2,
            cond,
            extended,
            ..plain(op)
        };
        assert!(rt; decode(word) == instr, "{word:x}");
    }
    for &(word, op, rd, rs1, cond, [extended, annul, hint], disp) in &BRANCHES {
        let instr = Instr {
            rd,
            rs1,
            cond,
            extended,
            annul,
            hint,
            disp,
            ..plain(op)
        };
        assert!(rt; decode(word) == instr, "{word:x}");
    }
    for &(word, op, mask) in &BARRIERS {
        assert!(rt; decode(word) == (Instr { mask, ..plain(op) }), "{word:x}");
    }
}

#[test]
fn ill_words_trap(rt: HostRuntime) {
    for &(word, trap) in &TRAPS {
        assert!(rt;
            decode(word)
                == (Instr {
                    trap,
                    ..plain(Op::Trap)
                }),
            "{word:x}"
        );
    }
}

#[test]
fn effects_are_named(rt: HostRuntime) {
    for &(word, [a, b, c], [cc, y], reg, [sets_cc, sets_y], windows) in &EFFECTS {
        let instr = decode(word);
        let read = Sources { a, b, c, cc, y };
        let written = Dest {
            reg,
            cc: sets_cc,
            y: sets_y,
        };
        assert!(rt; sources(&instr) == read, "{word:x}");
        assert!(rt; dest(&instr) == written, "{word:x}");
        assert!(rt; window_effect(&instr) == windows, "{word:x}");
    }
}
