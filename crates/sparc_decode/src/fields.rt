//! The fields of an instruction word, by their names in the manual (SPARC V9, 6.2).

ghost use Rattle.std.specs.Prelude.{◌≡◌, if◌then◌else◌, ◌<◌, ◌≤◌, ◌^◌, ◌*ℤ◌, pos, ◌*◌};
ghost use Rattle.sparc_decode.specs.Fields as field;
ghost use Rattle.sparc_decode.specs.Forms as form;
ghost use Rattle.sparc_decode.specs.declared.instr.Src2.TheVariants.{Reg, Imm};

use crate::instr::Src2;

/// Which of the four opcode maps the word is in.
pub fn op(word: u32) -> u8
    ensures { result ≡ field.op word }
{
    (word >> 30) as u8
}

pub fn op2(word: u32) -> u8
    ensures { result ≡ field.op2 word }
{
    (word >> 22 & 0x7) as u8
}

pub fn op3(word: u32) -> u8
    ensures { result ≡ field.op3 word }
{
    (word >> 19 & 0x3f) as u8
}

pub fn rd(word: u32) -> u8
    ensures { result ≡ field.rd word }
{
    (word >> 25 & 0x1f) as u8
}

pub fn rs1(word: u32) -> u8
    ensures { result ≡ field.rs1 word }
{
    (word >> 14 & 0x1f) as u8
}

pub fn rs2(word: u32) -> u8
    ensures { result ≡ field.rs2 word }
{
    (word & 0x1f) as u8
}

/// Whether operand 2 is an immediate: the field i.
pub fn is_immediate(word: u32) -> bool
    ensures { result ≡ field.i word }
{
    word >> 13 & 1 == 1
}

/// The register rs2, or with i set an immediate.
fn register_or(immediate: i64, word: u32) -> Src2
    ensures { result ≡ (if field.i word then Imm immediate else Reg (field.rs2 word)) }
{
    if is_immediate(word) {
        Src2::Imm(immediate)
    } else {
        Src2::Reg(rs2(word))
    }
}

/// Operand 2: a register or simm13.
pub fn operand2(word: u32) -> Src2
    ensures { result ≡ form.operand2 word }
{
    register_or(sign_extend(word & 0x1fff, 13), word)
}

/// What MOVcc moves: a register or simm11.
pub fn moved_on_codes(word: u32) -> Src2
    ensures { result ≡ form.with_rs2 field.simm11 word }
{
    register_or(sign_extend(word & 0x7ff, 11), word)
}

/// What MOVr moves: a register or simm10.
pub fn moved_on_register(word: u32) -> Src2
    ensures { result ≡ form.with_rs2 field.simm10 word }
{
    register_or(sign_extend(word & 0x3ff, 10), word)
}

/// The count of a shift of 32 bits.
pub fn narrow_count(word: u32) -> Src2
    ensures { result ≡ form.narrow_count word }
{
    register_or(i64::from(word & 0x1f), word)
}

/// The count of a shift of 64 bits.
pub fn wide_count(word: u32) -> Src2
    ensures { result ≡ form.wide_count word }
{
    register_or(i64::from(word & 0x3f), word)
}

/// Whether a shift is over 64 bits: the field x.
pub fn is_wide(word: u32) -> bool
    ensures { result ≡ field.x word }
{
    word >> 12 & 1 == 1
}

pub fn imm_asi(word: u32) -> u8
    ensures { result ≡ field.imm_asi word }
{
    (word >> 5 & 0xff) as u8
}

/// The annul bit: the field a.
pub fn annul(word: u32) -> bool
    ensures { result ≡ field.a word }
{
    word >> 29 & 1 == 1
}

/// The prediction bit: the field p.
pub fn hint(word: u32) -> bool
    ensures { result ≡ field.p word }
{
    word >> 19 & 1 == 1
}

pub fn cond(word: u32) -> u8
    ensures { result ≡ field.cond word }
{
    (word >> 25 & 0xf) as u8
}

pub fn rcond(word: u32) -> u8
    ensures { result ≡ field.rcond word }
{
    (word >> 25 & 0x7) as u8
}

/// Bit 28, which tells BPr from forms that are not defined.
pub fn is_beside_bpr(word: u32) -> bool
    ensures { result ≡ field.is_set 28 word }
{
    word >> 28 & 1 == 1
}

/// Which condition codes BPcc looks at: 0 icc, 2 xcc.
pub fn branch_cc(word: u32) -> u8
    ensures { result ≡ field.branch_cc word }
{
    (word >> 20 & 0x3) as u8
}

/// Which condition codes MOVcc and Tcc look at, in the same way.
pub fn low_cc(word: u32) -> u8
    ensures { result ≡ field.low_cc word }
{
    (word >> 11 & 0x3) as u8
}

/// Whether MOVcc looks at the integer condition codes: the field cc2.
pub fn is_on_integers(word: u32) -> bool
    ensures { result ≡ field.cc2 word }
{
    word >> 18 & 1 == 1
}

pub fn move_cond(word: u32) -> u8
    ensures { result ≡ field.move_cond word }
{
    (word >> 14 & 0xf) as u8
}

pub fn move_rcond(word: u32) -> u8
    ensures { result ≡ field.move_rcond word }
{
    (word >> 10 & 0x7) as u8
}

/// The displacement of CALL in bytes.
pub fn disp30(word: u32) -> i64
    ensures { result ≡ field.disp30 word *ℤ pos 4 }
{
    sign_extend(word & 0x3fff_ffff, 30) * 4
}

/// The displacement of Bicc in bytes.
pub fn disp22(word: u32) -> i64
    ensures { result ≡ field.disp22 word *ℤ pos 4 }
{
    sign_extend(word & 0x3f_ffff, 22) * 4
}

/// The displacement of BPcc in bytes.
pub fn disp19(word: u32) -> i64
    ensures { result ≡ field.disp19 word *ℤ pos 4 }
{
    sign_extend(word & 0x7_ffff, 19) * 4
}

/// The displacement of BPr in bytes, which stands in two parts.
pub fn disp16(word: u32) -> i64
    ensures { result ≡ field.disp16 word *ℤ pos 4 }
{
    let high = word >> 20 & 0x3;
    let low = word & 0x3fff;
    sign_extend(high * 0x4000 + low, 16) * 4
}

/// The value of SETHI.
pub fn high_part(word: u32) -> i64
    ensures { result ≡ pos (field.imm22 word * 2 ^ 10) }
{
    i64::from(word & 0x3f_ffff) * 0x400
}

/// Which accesses MEMBAR orders.
pub fn mmask(word: u32) -> u8
    ensures { result ≡ field.mmask word }
{
    (word & 0xf) as u8
}

/// What MEMBAR asks for besides an order of accesses.
pub fn cmask(word: u32) -> u8
    ensures { result ≡ field.cmask word }
{
    (word >> 4 & 0x7) as u8
}

/// A number of `width` bits, read as two's complement.
fn sign_extend(value: u32, width: u32) -> i64
    requires some { 1 ≤ width }
    requires narrow { width ≤ 30 }
    requires fits { value < 2 ^ width }
    ensures { result ≡ field.signed width value }
{
    let range = 1u32 << width;
    let unsigned = i64::from(value);
    if value < range / 2 {
        unsigned
    } else {
        unsigned - i64::from(range)
    }
}
