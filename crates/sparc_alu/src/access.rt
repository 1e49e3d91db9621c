//! Addresses and values of accesses to memory (SPARC V9, 6.3.1).

ghost use Rattle.std.specs.Prelude.{◌≡◌};
ghost use Rattle.sparc_alu.specs.Accesses as access;

use crate::numbers::{
    bits_of, low_byte, low_half, low_word, signed_byte, signed_half, signed_word,
};
use rsim_base::Size;
use sparc_decode::Op;

/// The address that two operands give: their sum, modulo 2^64.
pub fn effective(a: u64, b: u64) -> u64
    ensures { result ≡ access.effective a b }
{
    a.wrapping_add(b)
}

/// What a form that loads puts into its register, where `raw` has the bytes that it loaded: the form
/// says how many of them count, and whether the highest bit fills those above. Other forms leave `raw`
/// as it is.
#[tactic(auto, unfolding(crate::specs::Accesses::extended))]
pub fn load_extend(op: Op, raw: u64) -> u64
    ensures { result ≡ access.extended op raw }
{
    match op {
        Op::Ldub | Op::Ldstub => u64::from(low_byte(raw)),
        Op::Lduh => u64::from(low_half(raw)),
        Op::Lduw | Op::Swap | Op::Casa => u64::from(low_word(raw)),
        Op::Ldsb => bits_of(i64::from(signed_byte(raw))),
        Op::Ldsh => bits_of(i64::from(signed_half(raw))),
        Op::Ldsw => bits_of(i64::from(signed_word(raw))),
        _ => raw,
    }
}

/// What a compare-and-swap leaves in memory, where it has found `old`: `new` where `old` is `compare` in
/// the low bytes of the size, else `old` (A.9).
pub fn cas_result(old: u64, compare: u64, new: u64, n: Size) -> u64
    ensures { result ≡ access.swapped old compare new n }
{
    if n.low(old) == n.low(compare) {
        new
    } else {
        old
    }
}
