// Sets of places of the ring in which entries stand: an entry's place is its number modulo 128.
ghost use Rattle.std.specs.Prelude.{◌≡◌, ℕ, ◌+◌, ◌<◌, ◌≤◌, ◌%◌, ◌==◌, ◌&&◌, nat_le, nat_lt, length, if◌then◌else◌, slice_index, slice_index_or, MatchOption, []};
ghost use Rattle.ring_set.specs.Sets.{has};
ghost use Rattle.issue_queue.specs.Units.{of_unit};
ghost use Rattle.issue_queue.specs.Needs.{is_clear, without_reg};
ghost use Rattle.issue_queue.specs.Words.{IsFirst, LacksAges, needs_now, unit_in};

use crate::needs::{Needs, clear_need, is_clear};
use crate::units::ByUnit;
use ring_set::{PLACES, Places};
use rsim_base::{PhysReg, Unit};

/// The place of an entry's number.
pub fn place_of(seq: u64) -> u8
    ensures value { result ≡ seq % 128 }
    ensures within { result < 128 }
{
    (seq % u64::from(PLACES)) as u8
}

/// The set with this place exactly where the test passes.
pub fn put(set: Places, place: u8, test: bool) -> Places
    requires { place < 128 }
    ensures { (j : ℕ) → has result j ≡ (if j == place then test else has set j) }
{
    if test {
        set.with(place)
    } else {
        set.without(place)
    }
}

/// The set where the test passes, and else no place.
fn only_if(set: Places, test: bool) -> Places
    ensures { (j : ℕ) → has result j ≡ (test && has set j) }
{
    if test { set } else { Places::none() }
}

/// The least age of a place of the set, counted from a number's place.
pub fn first_age(set: Places, low: u64) -> Option<u8>
    ensures { MatchOption result (LacksAges set low) (IsFirst set low) }
{
    let age = set.oldest(place_of(low));
    if age < PLACES { Some(age) } else { None }
}

/// How many ages from `low` on have a number of at most `seq`.
pub fn ages_to(low: u64, seq: u64) -> u8
    ensures within { result ≤ 128 }
    ensures ages { (k : ℕ) → k < 128 → nat_lt k result ≡ nat_le (low + k) seq }
{
    if seq < low {
        0
    } else {
        (seq - low).min(127) as u8 + 1
    }
}

/// The unit of a place.
pub fn unit_of(mul: Places, div: Places, place: u8) -> Unit
    requires { place < 128 }
    ensures { result ≡ unit_in mul div place }
{
    if mul.has(place) {
        Unit::Mul
    } else if div.has(place) {
        Unit::Div
    } else {
        Unit::Alu
    }
}

/// Those of the set whose unit is able.
pub fn with_able(set: Places, mul: Places, div: Places, able: &ByUnit<bool>) -> Places
    ensures { (j : ℕ) → has result j ≡ (has set j && of_unit able.now (unit_in mul div j)) }
{
    only_if(set.outside(mul).outside(div), able.alu)
        .or(only_if(set.and(mul), able.mul))
        .or(only_if(set.and(div).outside(mul), able.div))
}

/// Those of the set whose tick has come.
pub fn ended(set: Places, until: &Vec<u64>, tick: u64) -> Places
    requires { length until.now.items ≡ 128 }
    ensures { (j : ℕ) → j < 128 → has result j ≡ (has set j && nat_le (slice_index until.now.items j) tick) }
{
    let mut left = set;
    let mut ended = set;
    while let Some(place) = first_age(left, 0) {
        left = left.without(place);
        ended = put(ended, place, until[usize::from(place)] <= tick);
    }
    ended
}

/// Takes a register off the needs at these places, and answers those that then wait for none.
pub fn clear_needs(needs: &mut Vec<Needs>, set: Places, r: PhysReg) -> Places
    requires { length needs.old.items ≡ 128 }
    ensures len { length needs.new.items ≡ 128 }
    ensures needs { (j : ℕ) → j < 128 → slice_index_or needs.new.items j [] ≡ needs_now r.0 (has set j) (slice_index_or needs.old.items j []) }
    ensures clear { (j : ℕ) → j < 128 → has result j ≡ (has set j && is_clear (slice_index_or needs.new.items j [])) }
{
    let mut left = set;
    let mut clear = set;
    while let Some(place) = first_age(left, 0) {
        left = left.without(place);
        let at = &mut needs[usize::from(place)];
        clear_need(at, r);
        clear = put(clear, place, is_clear(at));
    }
    clear
}
