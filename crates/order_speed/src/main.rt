//! `order_speed LINES` writes the text of an order of so many loads, and reads it again, to be timed from
//! outside; `order_speed LINES write` only writes it.
#![tactic(auto)]

use order_certificate::{begin, entry, finish, read};
use rsim_base::{Access, Addr, Kind, Model, NoMemory, Node, Size};
use std::alloc::Global;
use std::env;

fn main(rt: HostRuntime) -> anyhow::Result<()> {
    let words: Vec<String> = env::args(&rt)?.collect(rt.alloc())?;
    let lines = match words.get(1) {
        Some(word) => word.parse::<u32>()?,
        None => 1_000,
    };
    let text = order(rt.alloc(), lines)?;
    println!(rt; "{lines} lines written, {} bytes", text.len())?;
    if words.len() < 3 {
        let certificate = read(rt.alloc(), &text)?;
        println!(rt; "{} lines read", certificate.lines.len())?;
    }
    Ok(())
}

// The text of an order of loads of one processor.
fn order(alloc: Global, lines: u32) -> Result<Vec<u8>, NoMemory> {
    let mut text = Vec::new(alloc);
    begin(&mut text, Model::Sc, 1)?;
    for index in 0..lines {
        entry(&mut text, &load(index))?;
    }
    let counts = vec![in alloc; lines].map_err(|_| NoMemory)?;
    finish(&mut text, &counts)?;
    Ok(text)
}

// A load of a doubleword, with digits of every kind.
fn load(index: u32) -> Access {
    let number = u64::from(index);
    Access {
        node: Node(0),
        kind: Kind::Load,
        size: Size::B8,
        index,
        addr: Addr(0x20_0000 + 8 * number),
        loaded: number.wrapping_mul(0x9E37_79B9_7F4A_7C15),
        stored: 0,
    }
}
