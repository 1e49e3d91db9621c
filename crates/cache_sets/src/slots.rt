// Slots of one set, the most recently used first, and the marks of slots.
ghost use Rattle.std.specs.Prelude.{◌≡◌, ◌+◌, ◌-◌, ◌==◌, ◌<◌, ◌≤◌, ◌&&◌, ◌++◌, All, IfOk, count_by, drop, find, is_none, length, reverse, take, vec_len};
ghost use Rattle.std.specs.Option.{option_or};
ghost use Rattle.std.specs.List.{range_with_len};
ghost use Rattle.cache_sets.specs.Ways.{names};
ghost use Rattle.cache_sets.specs.Layout.{mark_at, slot_first};

use rsim_base::Line;
use std::alloc::{AllocError, Global};

/// So many slots, from 0.
pub(crate) fn first_slots(alloc: Global, count: u32) -> Result<Vec<u32>, AllocError>
    ensures { IfOk result (λ slots. slots.items ≡ range_with_len 0 count) }
{
    (0..count).collect(alloc)
}

/// The first of these slots that is marked with the line.
pub(crate) fn find_slot(slots: &[u32], marks: &Vec<Option<Line>>, line: Line) -> Option<u32>
    requires { All (λ slot. slot < vec_len marks.now) slots.now }
    ensures { result ≡ find (λ slot. names line.0 (mark_at marks.now.items slot)) slots.now }
{
    for slot in slots {
        if is_marked(marks, *slot, line) {
            return Some(*slot);
        }
    }
    None
}

// Whether the slot is marked with the line.
fn is_marked(marks: &Vec<Option<Line>>, slot: u32, line: Line) -> bool
    requires { slot < vec_len marks.now }
    ensures { result ≡ names line.0 (mark_at marks.now.items slot) }
{
    match marks[slot as usize] {
        Some(marked) => marked.0 == line.0,
        None => false,
    }
}

// Whether the slot has no mark.
fn is_bare(marks: &Vec<Option<Line>>, slot: u32) -> bool
    requires { slot < vec_len marks.now }
    ensures { result ≡ is_none (mark_at marks.now.items slot) }
{
    marks[slot as usize].is_none()
}

/// The first of these slots that holds nothing and is not reserved, else the last that is not reserved.
pub(crate) fn find_room(
    slots: &[u32],
    lines: &Vec<Option<Line>>,
    reserved: &Vec<Option<Line>>,
) -> Option<u32>
    requires lines { All (λ slot. slot < vec_len lines.now) slots.now }
    requires reserved { All (λ slot. slot < vec_len reserved.now) slots.now }
    ensures { result
        ≡ option_or (find (λ slot. is_none (mark_at lines.now.items slot) && is_none (mark_at reserved.now.items slot)) slots.now)
        (find (λ slot. is_none (mark_at reserved.now.items slot)) (reverse slots.now)) }
{
    let mut room = None;
    for slot in slots {
        if is_bare(reserved, *slot) {
            if is_bare(lines, *slot) {
                return Some(*slot);
            }
            room = Some(*slot);
        }
    }
    room
}

/// Moves a slot in front of the others of its set, which begins at `start`.
pub(crate) fn move_to_front(recency: &mut Vec<u32>, start: usize, ways: usize, slot: u32)
    requires within { start + ways ≤ vec_len recency.old }
    requires once { count_by (λ s. s == slot) (take ways (drop start recency.old.items)) ≤ 1 }
    ensures { recency.new.items
        ≡ take start recency.old.items
        ++ (slot_first slot (take ways (drop start recency.old.items)) ++ drop (start + ways) recency.old.items) }
{
    let slots = &mut recency[start..start + ways];
    put_first(slots, slot);
}

// Moves a slot in front of the others.
fn put_first(slots: &mut [u32], slot: u32)
    requires { count_by (λ s. s == slot) slots.old ≤ 1 }
    ensures { slots.new ≡ slot_first slot slots.old }
{
    if let Some(at) = slots.iter().position(|s| *s == slot) {
        slots[..=at].rotate_right(1);
    }
}
