// The walk over the lines of an order: whether each stands where it may, and has the value that its sources give.
ghost use Rattle.std.specs.Prelude.{◌≡◌, ◌+◌, ◌%◌, ◌<◌, None, Some, OnOk, IfErr, IfOk, if◌then◌else◌, length, nat_lt, slice_get};
ghost use Rattle.std.specs.List.{take_while};
ghost use Rattle.rsim_base.specs.Accesses.{loads};
ghost use Rattle.rsim_base.specs.Bytes.{count_of};
ghost use Rattle.order_certificate.specs.Certificate.{IsCertificate};
ghost use Rattle.order_checker.specs.Faults.{late, line_fault, stray, wrong};
ghost use Rattle.order_checker.specs.Firsts.{first};
ghost use Rattle.order_checker.specs.Outcomes.{IsFault};
ghost use Rattle.order_checker.specs.Walking.{AreWalks, HasWalked, HasWritten, IsAtLine, IsWalk, latest_left, touches};

use crate::places::FIRST_LINE;
use crate::values::wrong_value;
use crate::verdict::Rejected;
use crate::walk::{Behind, Walk};
use elf64_load::Image;
use image_memory::Memory;
use order_certificate::Certificate;
use rsim_base::{Access, NoMemory};
use std::alloc::Global;

/// Goes over the lines, with the walks of the processors before the first of them.
///
/// # Errors
/// The first fault of a line: `OutOfOrder` or `WrongValue`; `Memory`.
pub fn check_lines(
    alloc: Global,
    image: &Image,
    order: &Certificate,
    mut walks: Vec<Walk>,
) -> Result<(), Rejected>
    requires certificate { IsCertificate order.now }
    requires strays { first (stray order.now.processors order.now.lines) (length order.now.lines) ≡ None }
    requires walks { AreWalks image.now order.now order.now.processors 0 walks.items }
    ensures none { OnOk result (first (line_fault image.now order.now) (length order.now.lines) ≡ None) }
    ensures fault { IfErr result (IsFault (first (line_fault image.now order.now) (length order.now.lines))) }
{
    let mut memory = Memory::new(alloc);
    for place in 0..order.lines.len() {
        check_line(image, order, &mut walks, &mut memory, place as u32)?;
    }
    Ok(())
}

// Goes over the line at a place.
fn check_line(
    image: &Image,
    order: &Certificate,
    walks: &mut Vec<Walk>,
    memory: &mut Memory,
    place: u32,
) -> Result<(), Rejected>
    requires place { place < length order.now.lines }
    requires walked { HasWalked image.now order.now place walks.old.items memory.old }
    ensures none { OnOk result (line_fault image.now order.now place ≡ None) }
    ensures walked { OnOk result (HasWalked image.now order.now (place + 1) walks.new.items memory.new) }
    ensures fault { IfErr result (IsFault (line_fault image.now order.now place)) }
{
    let line = &order.lines[place as usize];
    walk_line(
        image,
        order,
        &mut walks[line.node.0 as usize],
        memory,
        line,
        place,
    )
}

// Goes over the line at a place, with the walk of its processor.
fn walk_line(
    image: &Image,
    order: &Certificate,
    walk: &mut Walk,
    memory: &mut Memory,
    line: &Access,
    place: u32,
) -> Result<(), Rejected>
    requires certificate { IsCertificate order.now }
    requires strays { first (stray order.now.processors order.now.lines) (length order.now.lines) ≡ None }
    requires stands { slice_get order.now.lines place ≡ Some line.now }
    requires walk { IsWalk image.now order.now line.now.node.0 place walk.old }
    requires written { HasWritten image.now order.now.lines place memory.old }
    ensures none { OnOk result (line_fault image.now order.now place ≡ None) }
    ensures walked { OnOk result (IsWalk image.now order.now line.now.node.0 (place + 1) walk.new) }
    ensures written { OnOk result (HasWritten image.now order.now.lines (place + 1) memory.new) }
    ensures fault { IfErr result (IsFault (line_fault image.now order.now place)) }
{
    walk.reach(line.index)?;
    let count = judge_line(image, order, walk, memory, line, place)?;
    store(image, order, memory, line, place)?;
    walk.pass(line.index, count);
    Ok(())
}

// How many of the processor's earlier accesses stand behind the line at a place, if the line has no fault.
fn judge_line(
    image: &Image,
    order: &Certificate,
    walk: &Walk,
    memory: &Memory,
    line: &Access,
    place: u32,
) -> Result<usize, Rejected>
    requires at { IsAtLine image.now order.now place line.now walk.now }
    requires written { HasWritten image.now order.now.lines place memory.now }
    ensures count { IfOk result (λ count. count ≡ length (take_while (λ k. nat_lt k line.now.index) walk.now.left.items)) }
    ensures none { OnOk result (line_fault image.now order.now place ≡ None) }
    ensures fault { IfErr result (λ r. line_fault image.now order.now place ≡ Some r) }
{
    let behind = order_fault(image, order, walk, line, place)?;
    match value_fault(image, order, walk, memory, line, place, behind.latest) {
        Some(fault) => Err(fault),
        None => Ok(behind.count),
    }
}

// What stands behind the line of the processor's earlier accesses, if none of them must stand before it.
//
// Errors: the fault of the least that must.
fn order_fault(
    image: &Image,
    order: &Certificate,
    walk: &Walk,
    line: &Access,
    place: u32,
) -> Result<Behind, Rejected>
    requires at { IsAtLine image.now order.now place line.now walk.now }
    ensures count { IfOk result (λ behind. behind.count ≡ length (take_while (λ k. nat_lt k line.now.index) walk.now.left.items)) }
    ensures latest { IfOk result (λ behind. behind.latest ≡ latest_left (touches line.now) order.now.lines line.now walk.now) }
    ensures none { OnOk result (first (late image.now order.now place line.now) line.now.index ≡ None) }
    ensures fault { IfErr result (λ r. first (late image.now order.now place line.now) line.now.index ≡ Some r) }
{
    prove!((place as usize) < order.lines.len());
    match walk.look_back(order.model, &order.lines, line) {
        Ok(behind) => Ok(behind),
        Err(i) => Err(Rejected::OutOfOrder(place + FIRST_LINE, line.node, i)),
    }
}

// The first byte of the line's value that its source has not written, where the line loads; the last store behind it of
// its processor's earlier ones that touches it stands at this place.
fn value_fault(
    image: &Image,
    order: &Certificate,
    walk: &Walk,
    memory: &Memory,
    line: &Access,
    place: u32,
    latest: Option<u32>,
) -> Option<Rejected>
    requires at { IsAtLine image.now order.now place line.now walk.now }
    requires written { HasWritten image.now order.now.lines place memory.now }
    requires latest { latest ≡ latest_left (touches line.now) order.now.lines line.now walk.now }
    ensures { result ≡ (if loads line.now.kind then first (wrong image.now order.now.lines place line.now) (count_of line.now.size) else None) }
{
    if line.kind.loads() {
        wrong_value(image, order, walk, memory, line, place, latest)
    } else {
        None
    }
}

// Stores what the line stores.
fn store(
    image: &Image,
    order: &Certificate,
    memory: &mut Memory,
    line: &Access,
    place: u32,
) -> Result<(), NoMemory>
    requires stands { slice_get order.now.lines place ≡ Some line.now }
    requires aligned { line.now.addr.0 % count_of line.now.size ≡ 0 }
    requires written { HasWritten image.now order.now.lines place memory.old }
    ensures { OnOk result (HasWritten image.now order.now.lines (place + 1) memory.new) }
{
    prove!((place as usize) < order.lines.len());
    if line.kind.stores() {
        memory.write(image, line.addr.0, line.size, line.stored)
    } else {
        Ok(())
    }
}
