// Segments that share a block of memory.
ghost use Rattle.std.specs.Prelude.{◌≡◌, ◌≢◌, ℕ, ◌<◌, ◌≤◌, IfOk, drop, false, if◌then◌else◌, length, min, slice_index_or};
ghost use Rattle.std.specs.List.{All, position_from};
ghost use Rattle.std.specs.List.Sorted.{IsNonDecreasingBy};
ghost use Rattle.std.specs.Result.{result_err};
ghost use Rattle.elf64_load.specs.Elf.{share_block};
ghost use Rattle.elf64_load.specs.Faults.{shared};
ghost use Rattle.elf64_load.specs.Layout.{AreInOrder, MeetsAnother, touches, spans_of_headers, size_of, meet};

use crate::fault::ElfFault;
use crate::header::ProgramHeader;
use crate::span::Span;
use std::alloc::{AllocError, Global};

/// The spans of the segments that have bytes, from the lowest address up.
pub fn spans_in_order(alloc: Global, headers: &[ProgramHeader]) -> Result<Vec<Span>, AllocError>
    requires count { length headers.now ≤ 65535 }
    requires sizes { All (λ h. size_of h ≤ 16777216) headers.now }
    ensures { IfOk result (λ order. AreInOrder (spans_of_headers headers.now) order.items) }
{
    let mut order = Vec::with_capacity(alloc, headers.len())?;
    for (i, header) in headers.iter().enumerate() {
        if header.size() > 0 {
            order.push(header.span(i as u32))?;
        }
    }
    order.sort_unstable_by_key(|span| span.first);
    Ok(order)
}

/// Whether no two segments share a block.
///
/// # Errors
/// `SharedBlock`, of the first pair that does.
pub fn check_blocks(headers: &[ProgramHeader], order: &[Span]) -> Result<(), ElfFault>
    requires count { length headers.now ≤ 65535 }
    requires order { AreInOrder (spans_of_headers headers.now) order.now }
    ensures { result_err result ≡ shared 0 headers.now }
{
    // What the least place meets is a later one, so the pair is found in the first row.
    let least = least_meeting(order, headers.len() as u32);
    match first_pair(headers, least as usize) {
        Some(fault) => Err(fault),
        None => Ok(()),
    }
}

// The first pair whose first place is `from` or a later one.
fn first_pair(headers: &[ProgramHeader], from: usize) -> Option<ElfFault>
    requires count { length headers.now ≤ 65535 }
    requires from { from ≤ length headers.now }
    ensures { result ≡ shared from (drop from headers.now) }
{
    for i in from..headers.len() {
        if let Some(j) = partner(headers, &headers[i], i + 1) {
            return Some(ElfFault::SharedBlock(i as u32, j));
        }
    }
    None
}

// The first from place `from` on that shares a block with this segment.
fn partner(headers: &[ProgramHeader], header: &ProgramHeader, from: usize) -> Option<u32>
    requires count { length headers.now ≤ 65535 }
    requires from { from ≤ length headers.now }
    ensures { result ≡ position_from (share_block header.now) from (drop from headers.now) }
{
    for j in from..headers.len() {
        if header.shares_block(&headers[j]) {
            return Some(j as u32);
        }
    }
    None
}

// The least place, of `count`, whose span meets another's block; `count` if there is none.
fn least_meeting(order: &[Span], count: u32) -> u32
    requires rising { IsNonDecreasingBy (λ (s : Span). s.first) order.now }
    requires some { All (λ (s : Span). 0 < s.len) order.now }
    ensures bound { result ≤ count }
    ensures found { result < count → MeetsAnother order.now result }
    ensures below { (k j : ℕ) (d : Span) → k < length order.now → j < length order.now → j ≢ k
        → (slice_index_or order.now k d).place < result → meet (slice_index_or order.now k d) (slice_index_or order.now j d) ≡ false }
{
    let mut least = count;
    let mut reach = 0;
    for k in 0..order.len() {
        least = least_with(order, k, reach, least);
        reach = reach.max(order[k].last_block() + 1);
    }
    least
}

// The lesser of `least` and of the place of span `k`, if that begins below block `reach`, or the next one meets it.
fn least_with(order: &[Span], k: usize, reach: u128, least: u32) -> u32
    requires { k < length order.now }
    ensures { (d : Span) → result ≡ (if touches order.now k reach d then min least (slice_index_or order.now k d).place else least) }
{
    let span = order[k];
    let meets_next = k + 1 < order.len() && order[k + 1].first_block() <= span.last_block();
    if meets_next || span.first_block() < reach {
        least.min(span.place)
    } else {
        least
    }
}
