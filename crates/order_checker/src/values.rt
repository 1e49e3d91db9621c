// The values of loads: what each byte's source has written.
ghost use Rattle.std.specs.Prelude.{◌≡◌, ◌<◌, ◌%◌, ◌^◌, None, Some};
ghost use Rattle.rsim_base.specs.Limits.{max_steps};
ghost use Rattle.rsim_base.specs.Bytes.{Covers, count_of, gap_of};
ghost use Rattle.order_checker.specs.Faults.{source_byte, wrong};
ghost use Rattle.order_checker.specs.Firsts.{first};
ghost use Rattle.order_checker.specs.Values.{stored_byte as stored_byte_of};
ghost use Rattle.order_checker.specs.Walking.{HasWritten, IsAtLine, differs_from, latest_left, touches};

use crate::places::FIRST_LINE;
use crate::verdict::Rejected;
use crate::walk::Walk;
use elf64_load::Image;
use image_memory::Memory;
use order_certificate::Certificate;
use rsim_base::{Access, covers, cut};

/// The first byte of a load's value that is another than its source has written, where memory has what the lines before
/// have written, and of its processor's earlier stores that are still to come the last that has a byte of the load stands
/// at this place.
pub fn wrong_value(
    image: &Image,
    order: &Certificate,
    walk: &Walk,
    memory: &Memory,
    line: &Access,
    place: u32,
    latest: Option<u32>,
) -> Option<Rejected>
    requires at { IsAtLine image.now order.now place line.now walk.now }
    requires written { HasWritten image.now order.now.lines place memory.now }
    requires aligned { line.now.addr.0 % count_of line.now.size ≡ 0 }
    requires few { place < max_steps }
    requires latest { latest ≡ latest_left (touches line.now) order.now.lines line.now walk.now }
    ensures { result ≡ first (wrong image.now order.now.lines place line.now) (count_of line.now.size) }
{
    match latest {
        None => wrong_in_memory(image, order, walk, memory, line, place),
        Some(at) => wrong_at(image, order, walk, memory, line, place, at),
    }
}

// The same where none of its processor's earlier stores that are still to come has a byte of the load.
fn wrong_in_memory(
    image: &Image,
    order: &Certificate,
    walk: &Walk,
    memory: &Memory,
    line: &Access,
    place: u32,
) -> Option<Rejected>
    requires at { IsAtLine image.now order.now place line.now walk.now }
    requires written { HasWritten image.now order.now.lines place memory.now }
    requires aligned { line.now.addr.0 % count_of line.now.size ≡ 0 }
    requires few { place < max_steps }
    requires none { latest_left (touches line.now) order.now.lines line.now walk.now ≡ None }
    ensures { result ≡ first (wrong image.now order.now.lines place line.now) (count_of line.now.size) }
{
    if memory.read(image, line.addr.0, line.size) == line.loaded {
        return None;
    }
    first_wrong(image, order, walk, memory, line, place)
}

// The same where the last of them that has one stands at this place.
fn wrong_at(
    image: &Image,
    order: &Certificate,
    walk: &Walk,
    memory: &Memory,
    line: &Access,
    place: u32,
    at: u32,
) -> Option<Rejected>
    requires at { IsAtLine image.now order.now place line.now walk.now }
    requires written { HasWritten image.now order.now.lines place memory.now }
    requires few { place < max_steps }
    requires found { latest_left (touches line.now) order.now.lines line.now walk.now ≡ Some at }
    ensures { result ≡ first (wrong image.now order.now.lines place line.now) (count_of line.now.size) }
{
    let store = &order.lines[at as usize];
    if covers(store.addr, store.size, line.addr, line.size) {
        first_differing(store, line, place)
    } else {
        first_wrong(image, order, walk, memory, line, place)
    }
}

// The first byte in which a load differs from a store that covers it.
fn first_differing(store: &Access, line: &Access, place: u32) -> Option<Rejected>
    requires covers { Covers store.now.addr.0 (count_of store.now.size) line.now.addr.0 (count_of line.now.size) }
    requires addr { store.now.addr.0 < 2 ^ 64 }
    requires few { place < max_steps }
    ensures { result ≡ first (differs_from store.now place line.now) (count_of line.now.size) }
{
    for b in 0..line.size.count() {
        match differing_byte(store, line, place, b) {
            Some(fault) => return Some(fault),
            None => {}
        }
    }
    None
}

// The fault of byte `b` of a load that a store covers.
fn differing_byte(store: &Access, line: &Access, place: u32, b: u64) -> Option<Rejected>
    requires covers { Covers store.now.addr.0 (count_of store.now.size) line.now.addr.0 (count_of line.now.size) }
    requires addr { store.now.addr.0 < 2 ^ 64 }
    requires few { place < max_steps }
    requires among { b < count_of line.now.size }
    ensures { result ≡ differs_from store.now place line.now b }
{
    let byte = line.addr.0.wrapping_add(b);
    let written = stored_byte(store, byte);
    let loaded = cut(line.loaded, line.size, b);
    if written == loaded {
        return None;
    }
    Some(Rejected::WrongValue(place + FIRST_LINE, b as u8, written, loaded))
}

// The first wrong byte, byte by byte.
fn first_wrong(
    image: &Image,
    order: &Certificate,
    walk: &Walk,
    memory: &Memory,
    line: &Access,
    place: u32,
) -> Option<Rejected>
    requires at { IsAtLine image.now order.now place line.now walk.now }
    requires written { HasWritten image.now order.now.lines place memory.now }
    requires few { place < max_steps }
    ensures { result ≡ first (wrong image.now order.now.lines place line.now) (count_of line.now.size) }
{
    for b in 0..line.size.count() {
        match wrong_byte(image, order, walk, memory, line, place, b) {
            Some(fault) => return Some(fault),
            None => {}
        }
    }
    None
}

// The fault of byte `b` of a load's value.
fn wrong_byte(
    image: &Image,
    order: &Certificate,
    walk: &Walk,
    memory: &Memory,
    line: &Access,
    place: u32,
    b: u64,
) -> Option<Rejected>
    requires at { IsAtLine image.now order.now place line.now walk.now }
    requires written { HasWritten image.now order.now.lines place memory.now }
    requires few { place < max_steps }
    requires among { b < count_of line.now.size }
    ensures { result ≡ wrong image.now order.now.lines place line.now b }
{
    let byte = line.addr.0.wrapping_add(b);
    let written = source(image, order, walk, memory, line, place, byte);
    let loaded = cut(line.loaded, line.size, b);
    if written == loaded {
        return None;
    }
    Some(Rejected::WrongValue(place + FIRST_LINE, b as u8, written, loaded))
}

// What the source of a byte of a load has written there.
fn source(
    image: &Image,
    order: &Certificate,
    walk: &Walk,
    memory: &Memory,
    line: &Access,
    place: u32,
    byte: u64,
) -> u8
    requires at { IsAtLine image.now order.now place line.now walk.now }
    requires written { HasWritten image.now order.now.lines place memory.now }
    ensures { result ≡ source_byte image.now order.now.lines place line.now byte }
{
    match walk.latest_store(&order.lines, line, byte) {
        Some(at) => stored_byte(&order.lines[at as usize], byte),
        None => memory.byte(image, byte),
    }
}

// What an access has stored in one of its bytes.
fn stored_byte(line: &Access, byte: u64) -> u8
    requires { gap_of line.now.addr.0 byte < count_of line.now.size }
    ensures { result ≡ stored_byte_of line.now byte }
{
    cut(line.stored, line.size, byte.wrapping_sub(line.addr.0))
}
