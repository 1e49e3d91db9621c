// Two nodes on a flat store with lines of 64 bytes, with answers worked by hand.
use crate::shared::{DATA, Shared, executable};
use elf64_load::load;
use machine_config::read;
use memory_contracts::{FlatStore, LostList, laws};
use rsim_base::{Line, Node, STACKS_START, Size};
use std::alloc::Global;
use std::process::Abort;
use std::test::Fail;

const STACK: u64 = STACKS_START;

fn make_shared(rt: &impl Abort, alloc: Global) -> Result<Shared<FlatStore>, Fail> {
    let image = load(alloc, &executable(alloc)?)?;
    let config = read(alloc, b"processors 2\nmesh_width 2\nline 64\n")?;
    assert!(rt; config.line == 64);
    let store = FlatStore::make(alloc, &image, &config)?;
    Ok(Shared {
        image,
        store,
        nodes: config.processors,
        ticks: 0,
    })
}

// Whether a node has the line of a byte: it is near exactly where it is owned.
fn has(shared: &Shared<FlatStore>, rt: &impl Abort, p: u8, a: u64) -> bool {
    let (near, owned) = shared.states(rt, p, a);
    assert!(rt; near == owned);
    near
}

#[test]
fn memory_begins_with_the_image(rt: HostRuntime) -> Result<(), Fail> {
    laws::lines_stay_coherent();
    let mut shared = make_shared(&rt, rt.alloc())?;
    let mut lost = LostList::new();
    assert!(rt; shared.read(&rt, 1, DATA, Size::B8) == None);
    assert!(rt; shared.wish(&rt, 1, DATA + 3, false));
    // before the tick
    assert!(rt; shared.read(&rt, 1, DATA, Size::B8) == None);
    shared.tick(&rt, &mut lost);
    assert!(rt; lost.is_empty());
    for &(a, n, value) in &[
        (DATA, Size::B8, 0x0102_0304_0506_0708),
        (DATA + 10, Size::B2, 0x0B0C),
        (DATA + 16, Size::B4, 0x1112_1314),
        (DATA + 19, Size::B1, 20),
    ] {
        assert!(rt; shared.read(&rt, 1, a, n) == Some(value), "at {a:x}");
        assert!(rt; shared.read(&rt, 0, a, n) == None, "at {a:x}");
    }
    assert!(rt; shared.write(&rt, 1, DATA + 16, Size::B4, 0xA1A2_A3A4));
    assert!(rt; shared.read(&rt, 1, DATA + 18, Size::B2) == Some(0xA3A4));
    assert!(rt; shared.read(&rt, 1, DATA + 8, Size::B8) == Some(0x090A_0B0C_0D0E_0F10));
    Ok(())
}

#[test]
fn of_two_wishes_for_a_line_the_second_waits(rt: HostRuntime) -> Result<(), Fail> {
    let mut shared = make_shared(&rt, rt.alloc())?;
    let mut lost = LostList::new();
    assert!(rt; shared.wish(&rt, 1, STACK, true));
    assert!(rt; shared.wish(&rt, 0, STACK + 63, true));
    shared.tick(&rt, &mut lost);
    assert!(rt; has(&shared, &rt, 0, STACK) && !has(&shared, &rt, 1, STACK));
    assert!(rt; lost.is_empty());
    assert!(rt; shared.write(&rt, 0, STACK + 8, Size::B8, 7));
    assert!(rt; !shared.write(&rt, 1, STACK + 8, Size::B8, 8));
    shared.tick(&rt, &mut lost);
    assert!(rt; !has(&shared, &rt, 0, STACK) && has(&shared, &rt, 1, STACK));
    assert!(rt; lost.as_slice() == [(Node(0), Line(STACK / 64))].as_slice());
    assert!(rt; shared.read(&rt, 1, STACK + 8, Size::B8) == Some(7));
    shared.tick(&rt, &mut lost);
    // told once
    assert!(rt; lost.is_empty());
    assert!(rt; has(&shared, &rt, 1, STACK));
    Ok(())
}

#[test]
fn a_node_has_sixteen_wishes(rt: HostRuntime) -> Result<(), Fail> {
    let mut shared = make_shared(&rt, rt.alloc())?;
    let mut lost = LostList::new();
    for line in 0..16u64 {
        assert!(rt; shared.wish(&rt, 0, STACK + 64 * line, line == 1));
    }
    // a 17th
    assert!(rt; !shared.wish(&rt, 0, STACK + 64 * 16, false));
    // covered
    assert!(rt; shared.wish(&rt, 0, STACK + 64, true));
    // covered by more
    assert!(rt; shared.wish(&rt, 0, STACK + 64, false));
    // asks for more
    assert!(rt; !shared.wish(&rt, 0, STACK, true));
    // of another node
    assert!(rt; shared.wish(&rt, 1, STACK + 64 * 16, false));
    shared.tick(&rt, &mut lost);
    assert!(rt; has(&shared, &rt, 0, STACK) && !has(&shared, &rt, 0, STACK + 64));
    assert!(rt; shared.wish(&rt, 0, STACK + 64 * 16, false));
    assert!(rt; !shared.wish(&rt, 0, STACK + 64 * 17, false));
    Ok(())
}

#[test]
fn a_write_leaves_its_neighbours(rt: HostRuntime) -> Result<(), Fail> {
    let mut shared = make_shared(&rt, rt.alloc())?;
    let mut lost = LostList::new();
    assert!(rt; shared.wish(&rt, 0, STACK, true));
    shared.tick(&rt, &mut lost);
    for &(at, n, value, first, second) in &[
        (0, Size::B8, 0x1122_3344_5566_7788, 0x1122_3344_5566_7788, 0),
        (3, Size::B1, 0xFFAA, 0x1122_33AA_5566_7788, 0),
        (6, Size::B2, 0xFF_BBCC, 0x1122_33AA_5566_BBCC, 0),
        (0, Size::B4, 0xFF_DEAD_BEEF, 0xDEAD_BEEF_5566_BBCC, 0),
        (
            12,
            Size::B4,
            0x0102_0304,
            0xDEAD_BEEF_5566_BBCC,
            0x0102_0304,
        ),
    ] {
        assert!(rt; shared.write(&rt, 0, STACK + at, n, value));
        assert!(rt;
            shared.read(&rt, 0, STACK, Size::B8) == Some(first),
            "at {at}"
        );
        assert!(rt;
            shared.read(&rt, 0, STACK + 8, Size::B8) == Some(second),
            "at {at}"
        );
    }
    Ok(())
}
