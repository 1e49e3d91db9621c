// Nodes with caches over a carrier that delivers as early as it may, with ticks worked by hand. A tick is the turn of each node in
// rising order, and then a tick of the carrier; a message of so many flits that is sent in the turn of tick t over d links is
// taken in the turn of tick t + d + flits at the earliest. Lines have 64 bytes and flits 8, so a request has 1 flit, and a
// line 9.
use crate::shared::{Shared, executable};
use coherent_memory::CoherentMemory;
use elf64_load::load;
use machine_config::read;
use memory_contracts::{BagCarrier, LostList};
use rsim_base::{Line, Node, STACKS_START, Size};
use std::alloc::Global;
use std::process::Abort;
use std::test::Fail;

// In the first line of the stacks, whose number is a multiple of 16: its home is node 0.
const STACK: u64 = STACKS_START;

type Memory = CoherentMemory<BagCarrier>;

// Four nodes in a row, whose homes answer two ticks after a message was taken.
fn make_shared(rt: &impl Abort, alloc: Global) -> Result<Shared<Memory>, Fail> {
    let image = load(alloc, &executable(alloc)?)?;
    let config = read(
        alloc,
        b"processors 4\nmesh_width 4\nline 64\nflit_bytes 8\nhome_latency 2\nprotocol mesi\n",
    )?;
    assert!(rt; config.line == 64 && config.home_latency == 2);
    let carrier = BagCarrier::make(alloc, &config)?;
    let store = CoherentMemory::make(alloc, &image, &config, carrier)?;
    Ok(Shared {
        image,
        store,
        nodes: config.processors,
        ticks: 0,
    })
}

// So many ticks, in the last of which alone a line may leave a node: which are lost in it.
fn tick_on(shared: &mut Shared<Memory>, rt: &impl Abort, ticks: u32) -> LostList {
    let mut lost = LostList::new();
    for _ in 0..ticks {
        assert!(rt; lost.is_empty());
        shared.tick(rt, &mut lost);
    }
    lost
}

#[test]
fn a_line_comes_after_the_way_to_its_home_and_back(rt: HostRuntime) -> Result<(), Fail> {
    // GetS in tick 0, taken in tick d + 1, answered in tick d + 3, taken in tick 2 d + 12, and near once that has passed
    for &(p, ticks) in &[(0, 13), (1, 15), (2, 17), (3, 19)] {
        let mut shared = make_shared(&rt, rt.alloc())?;
        assert!(rt; shared.wish(&rt, p, STACK, false));
        tick_on(&mut shared, &rt, ticks - 1);
        assert!(rt; shared.states(&rt, p, STACK) == (false, false), "at {p}");
        tick_on(&mut shared, &rt, 1);
        // nobody else has it, so it is given to own
        assert!(rt; shared.states(&rt, p, STACK) == (true, true), "at {p}");
        assert!(rt; shared.read(&rt, p, STACK, Size::B8) == Some(0), "at {p}");
    }
    Ok(())
}

#[test]
fn a_write_recalls_the_line_of_another(rt: HostRuntime) -> Result<(), Fail> {
    let mut shared = make_shared(&rt, rt.alloc())?;
    assert!(rt; shared.wish(&rt, 1, STACK, true));
    tick_on(&mut shared, &rt, 15);
    assert!(rt; shared.write(&rt, 1, STACK + 8, Size::B8, 0x1122_3344_5566_7788));
    // Done goes back in tick 14 and is taken in tick 16. Node 2 asks in tick 20: GetM is taken in tick 23, and Recall goes in tick
    // 25 and is taken in tick 27, when the line leaves node 1. RecallAck is taken in tick 37, Grant goes in tick 39 and is taken
    // in tick 50.
    tick_on(&mut shared, &rt, 5);
    assert!(rt; shared.wish(&rt, 2, STACK, true));
    assert!(rt; tick_on(&mut shared, &rt, 7).is_empty());
    assert!(rt; shared.states(&rt, 1, STACK) == (true, true));
    let lost = tick_on(&mut shared, &rt, 1);
    assert!(rt; lost.as_slice() == [(Node(1), Line(STACK / 64))].as_slice());
    assert!(rt; shared.states(&rt, 1, STACK) == (false, false));
    tick_on(&mut shared, &rt, 22);
    assert!(rt; shared.states(&rt, 2, STACK) == (false, false));
    tick_on(&mut shared, &rt, 1);
    assert!(rt; shared.states(&rt, 2, STACK) == (true, true));
    assert!(rt; shared.write(&rt, 2, STACK + 12, Size::B4, 0xAABB_CCDD));
    assert!(rt; shared.read(&rt, 2, STACK + 8, Size::B8) == Some(0x1122_3344_AABB_CCDD));
    assert!(rt; shared.read(&rt, 1, STACK + 8, Size::B8) == None);
    Ok(())
}
