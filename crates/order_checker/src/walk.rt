// The walk over the lines, as one processor sees it.
ghost use Rattle.std.specs.Prelude.{◌≡◌, ℕ, ◌+◌, ◌<◌, ◌≤◌, true, false, List, [], ◌∷◌, None, Some, drop, find, length, nat_lt, option_and_then, option_map, slice_get, IfErr, IfNone, IfOk, IfSome, OnOk};
ghost use Rattle.std.specs.List.{remove, take_while};
ghost use Rattle.rsim_base.specs.Limits.{max_steps};
ghost use Rattle.order_checker.specs.Faults.{writes};
ghost use Rattle.order_checker.specs.Walking.{later as later_of, passing_load, touches, with_later};

use crate::replay::Program;
use rsim_base::{Access, Model, NoMemory};
use std::alloc::Global;
use std::collections::VecDeque;

/// The accesses before a line's own whose lines are still to come.
#[derive(Clone, Copy, Debug)]
pub struct Behind {
    /// How many they are.
    pub count: usize,
    /// Where the last line stands of a store among them that has a byte in common with the line.
    pub latest: Option<u32>,
}

/// How far a walk over the lines has come in the accesses of one processor: those below `next` are behind it but for the
/// ones that are left, whose lines are still to come, and so are the lines of all others.
#[derive(Drop)]
pub struct Walk {
    program: Program,
    next: u32,
    left: VecDeque<u32>,
}

impl Walk {
    ghost use Rattle.order_checker.specs.Standing.{IsWalked};
    ghost use Rattle.order_checker.specs.Walking.{is_needed_by, latest_left};

    /// Before the first line.
    pub fn new(alloc: Global, program: Program) -> Walk
        ensures program { result.program ≡ program }
        ensures walked { IsWalked program.places.items 0 result.next result.left.items }
    {
        Walk {
            program,
            next: 0,
            left: VecDeque::new(alloc),
        }
    }

    /// Goes on to access `i`: from now on it counts among those that are left or behind.
    pub fn reach(&mut self, i: u32) -> Result<(), NoMemory>
        requires { i < max_steps }
        ensures walked { OnOk result ((places : List ℕ) (j : ℕ) → i < length places → IsWalked places j self.old.next self.old.left.items → IsWalked places j self.new.next self.new.left.items) }
        ensures reached { OnOk result (i < self.new.next) }
        ensures same { self.new.program ≡ self.old.program }
    {
        while self.next <= i {
            self.left.push_back(self.next).map_err(|_| NoMemory)?;
            self.next += 1;
        }
        Ok(())
    }

    /// Looks at the accesses before this one that are left: how many they are, and where the line stands of the store
    /// among them that has a byte in common with it and whose line stands last.
    ///
    /// # Errors
    /// The first of them that must stand before it.
    pub fn look_back(&self, model: Model, lines: &[Access], line: &Access) -> Result<Behind, u32>
        ensures needed { IfErr result (λ k. find (is_needed_by model lines.now self.now.program line.now) (take_while (λ k. nat_lt k line.now.index) self.now.left.items) ≡ Some k) }
        ensures none { OnOk result (find (is_needed_by model lines.now self.now.program line.now) (take_while (λ k. nat_lt k line.now.index) self.now.left.items) ≡ None) }
        ensures count { IfOk result (λ behind. behind.count ≡ length (take_while (λ k. nat_lt k line.now.index) self.now.left.items)) }
        ensures latest { IfOk result (λ behind. behind.latest ≡ latest_left (touches line.now) lines.now line.now self.now) }
    {
        match self.left_before(0, line.index) {
            Some(_) => self.look_over(model, lines, line),
            None => Ok(Behind {
                count: 0,
                latest: None,
            }),
        }
    }

    // The same where some are left. It stands apart so that a line before which nothing is left costs little.
    #[inline(never)]
    fn look_over(&self, model: Model, lines: &[Access], line: &Access) -> Result<Behind, u32>
        ensures needed { IfErr result (λ k. find (is_needed_by model lines.now self.now.program line.now) (take_while (λ k. nat_lt k line.now.index) self.now.left.items) ≡ Some k) }
        ensures none { OnOk result (find (is_needed_by model lines.now self.now.program line.now) (take_while (λ k. nat_lt k line.now.index) self.now.left.items) ≡ None) }
        ensures count { IfOk result (λ behind. behind.count ≡ length (take_while (λ k. nat_lt k line.now.index) self.now.left.items)) }
        ensures latest { IfOk result (λ behind. behind.latest ≡ latest_left (touches line.now) lines.now line.now self.now) }
    {
        let passing = self.program.passing(model, line);
        let mut count = 0;
        let mut latest = None;
        while let Some(k) = self.left_before(count, line.index) {
            match self.look_at(model, lines, line, passing, k, latest) {
                Ok(later) => latest = later,
                Err(needed) => return Err(needed),
            }
            count += 1;
        }
        Ok(Behind { count, latest })
    }

    // The access that is left at this place, if it comes before access `i`.
    fn left_before(&self, at: usize, i: u32) -> Option<u32>
        ensures within { IfSome result (λ k. at < length self.now.left.items) }
        ensures some { IfSome result (λ k. take_while (λ n. nat_lt n i) (drop at self.now.left.items) ≡ k ∷ take_while (λ n. nat_lt n i) (drop (at + 1) self.now.left.items)) }
        ensures none { IfNone result (take_while (λ n. nat_lt n i) (drop at self.now.left.items) ≡ []) }
    {
        match self.left.get(at) {
            Some(k) if *k < i => Some(*k),
            _ => None,
        }
    }

    // The later place of a store that touches the line, with access `k`.
    //
    // Errors: `k`, where it must stand before the line.
    fn look_at(
        &self,
        model: Model,
        lines: &[Access],
        line: &Access,
        passing: Option<u32>,
        k: u32,
        latest: Option<u32>,
    ) -> Result<Option<u32>, u32>
        requires passing { passing ≡ passing_load model line.now (slice_get self.now.program.fences.items line.now.index) }
        ensures needed { IfErr result (λ j. (j ≡ k) × (is_needed_by model lines.now self.now.program line.now k ≡ true)) }
        ensures none { OnOk result (is_needed_by model lines.now self.now.program line.now k ≡ false) }
        ensures latest { IfOk result (λ later. later ≡ with_later (touches line.now) lines.now self.now.program.places.items latest k) }
    {
        let Some(place) = self.place(k) else {
            return Ok(latest);
        };
        let Some(earlier) = lines.get(place as usize) else {
            return Ok(latest);
        };
        if self.program.is_needed(model, earlier, k, line, passing) {
            return Err(k);
        }
        if does_touch(earlier, line) {
            Ok(later(latest, Some(place), true))
        } else {
            Ok(latest)
        }
    }

    /// Of the accesses before this one that are left, where the line stands of the store that writes the byte and whose
    /// line stands last.
    pub fn latest_store(&self, lines: &[Access], line: &Access, byte: u64) -> Option<u32>
        ensures { result ≡ latest_left (writes byte) lines.now line.now self.now }
    {
        self.left
            .iter()
            .copied()
            .take_while(|k| *k < line.index)
            .fold(None, |found, k| {
                let place = self.place(k);
                later(found, place, does_write(lines, place, byte))
            })
    }

    // Where the line of access `k` stands.
    fn place(&self, k: u32) -> Option<u32>
        ensures { result ≡ slice_get self.now.program.places.items k }
    {
        self.program.places.get(k as usize).copied()
    }

    /// Goes on over the line of access `i`, before which so many are left.
    pub fn pass(&mut self, i: u32, count: usize)
        requires count { count ≡ length (take_while (λ k. nat_lt k i) self.old.left.items) }
        requires left { length (take_while (λ k. nat_lt k i) self.old.left.items) < length self.old.left.items }
        ensures left { self.new.left.items ≡ remove self.old.left.items (length (take_while (λ k. nat_lt k i) self.old.left.items)) }
        ensures next { self.new.next ≡ self.old.next }
        ensures same { self.new.program ≡ self.old.program }
    {
        self.left.remove(count);
    }
}

// The later one of two places, where the second counts.
fn later(found: Option<u32>, place: Option<u32>, counts: bool) -> Option<u32>
    ensures { result ≡ later_of counts found place }
{
    let Some(place) = place else {
        return found;
    };
    match found {
        None => counts.then_some(place),
        Some(before) if counts && before < place => Some(place),
        Some(before) => Some(before),
    }
}

// Whether the line at a place writes the byte.
fn does_write(lines: &[Access], place: Option<u32>, byte: u64) -> bool
    ensures { result ≡ writes byte (option_and_then (slice_get lines.now) place) }
{
    match line_at(lines, place) {
        Some(line) => line.kind.stores() && byte.wrapping_sub(line.addr.0) < line.size.count(),
        None => false,
    }
}

// Whether an access is a store that has a byte in common with another.
fn does_touch(store: &Access, access: &Access) -> bool
    ensures { result ≡ touches access.now (Some store.now) }
{
    store.overlaps(access) && store.kind.stores()
}

fn line_at(lines: &[Access], place: Option<u32>) -> Option<&Access>
    ensures { option_map (λ line. line.now) result ≡ option_and_then (slice_get lines.now) place }
{
    lines.get(place? as usize)
}
