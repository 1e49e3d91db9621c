// Each call at its edges, and a script of calls against a plain list.

ghost use Rattle.std.specs.Prelude.{◌<◌};

use machine_config::read;
use order_log::OrderLog;
use rsim_base::{Access, Addr, Kind, Node, Size};
use std::alloc::Global;
use std::process::Abort;
use std::test::Fail;

// Two lists, so that nodes 0 and 2 share one, and nodes 1 and 3 the other.
const SETTINGS: &[u8] = b"processors 2\nmesh_width 2\n";

fn made(alloc: Global) -> Result<OrderLog, Fail> {
    let config = read(alloc, SETTINGS)?;
    Ok(OrderLog::make(alloc, &config)?)
}

// An access that is told apart by its value.
fn store(node: u8, index: u32, value: u64) -> Access {
    Access {
        node: Node(node),
        kind: Kind::Store,
        size: Size::B8,
        index,
        addr: Addr(8 * u64::from(index)),
        loaded: 0,
        stored: value,
    }
}

fn load(node: u8, index: u32, value: u64) -> Access {
    Access {
        kind: Kind::Load,
        loaded: value,
        stored: 0,
        ..store(node, index, 0)
    }
}

// The log gives these accesses out, and then no other.
fn check_front(rt: &impl Abort, log: &mut OrderLog, accesses: &[Access]) {
    for (place, access) in accesses.iter().enumerate() {
        assert!(rt; log.pop_final() == Some(*access), "place {place}");
    }
    assert!(rt; log.pop_final() == None);
}

#[test]
fn accesses_leave_in_the_order_of_their_places(rt: HostRuntime) -> Result<(), Fail> {
    let mut log = made(rt.alloc())?;
    check_front(&rt, &mut log, &[]);
    log.reserve(4)?;
    let (a, b, c, d) = (store(0, 3, 1), load(1, 3, 2), load(0, 1, 3), store(1, 9, 4));
    log.perform(a);
    log.settle(b);
    log.settle(c);
    log.close(&d);
    // Nothing leaves before what stands first is retired.
    log.retire(Node(0), 1);
    check_front(&rt, &mut log, &[]);
    log.retire(Node(0), 3);
    check_front(&rt, &mut log, &[a]);
    // The number is that of another node's access, or of one that is gone.
    log.retire(Node(3), 3);
    log.retire(Node(0), 3);
    check_front(&rt, &mut log, &[]);
    log.retire(Node(1), 3);
    check_front(&rt, &mut log, &[b, c, d]);
    log.reserve(1)?;
    log.perform(a);
    log.retire(Node(0), 3);
    check_front(&rt, &mut log, &[a]);
    Ok(())
}

#[test]
fn unretired_accesses_lose_their_places(rt: HostRuntime) -> Result<(), Fail> {
    let mut log = made(rt.alloc())?;
    log.reserve(6)?;
    let (a, b, c) = (load(0, 5, 1), load(1, 6, 2), load(2, 7, 3));
    let (d, e) = (store(0, 6, 4), load(0, 8, 5));
    log.settle(e);
    log.settle(a);
    log.settle(b);
    log.settle(load(0, 6, 6));
    log.settle(c);
    // None is from 9 on, and two of node 0 are from 6 on.
    log.drop_after(Node(0), 9);
    log.drop_after(Node(0), 6);
    log.perform(d);
    for &(node, index) in &[(0, 5), (1, 6), (0, 6), (2, 7), (0, 8)] {
        log.retire(Node(node), index);
    }
    // What is retired keeps its place, and all else of node 1 is dropped.
    log.reserve(2)?;
    log.settle(load(1, 0, 7));
    log.settle(load(1, 7, 8));
    log.drop_after(Node(1), 0);
    check_front(&rt, &mut log, &[a, b, c, d]);
    log.reserve(1)?;
    log.close(&e);
    check_front(&rt, &mut log, &[e]);
    Ok(())
}

// A call of the script.
#[derive(Clone, Copy, Debug)]
enum Call {
    Perform(Access),
    Settle(Access),
    Retire(Node, u32),
    DropAfter(Node, u32),
    Pop,
    Close(Access),
}

// A call by three numbers.
fn call_of(kind: u64, node: u8, index: u32, value: u64) -> Call {
    match kind {
        0 | 1 => Call::Perform(store(node, index, value)),
        2 | 3 => Call::Settle(load(node, index, value)),
        4 | 5 | 6 => Call::Retire(Node(node), index),
        7 => Call::DropAfter(Node(node), index / 2 + 3),
        8 => Call::Close(store(node, index, value)),
        _ => Call::Pop,
    }
}

// The call's answer, where it has one.
fn call_log(log: &mut OrderLog, call: Call) -> Option<Access>
    requires { 0 < log.old.spare }
{
    match call {
        Call::Perform(access) => log.perform(access),
        Call::Settle(access) => log.settle(access),
        Call::Retire(node, index) => log.retire(node, index),
        Call::DropAfter(node, index) => log.drop_after(node, index),
        Call::Close(access) => log.close(&access),
        Call::Pop => return log.pop_final(),
    }
    None
}

// An access of the plain list.
#[derive(Clone, Copy, Debug)]
struct Listed {
    access: Access,
    retired: bool,
}

fn call_list(list: &mut Vec<Listed>, call: Call) -> Result<Option<Access>, Fail> {
    match call {
        Call::Perform(access) | Call::Settle(access) => list.push(Listed {
            access,
            retired: false,
        })?,
        Call::Close(access) => list.push(Listed {
            access,
            retired: true,
        })?,
        Call::Retire(node, index) => {
            for place in list.iter_mut() {
                if place.access.node == node && place.access.index == index {
                    place.retired = true;
                }
            }
        }
        Call::DropAfter(node, index) => list.retain(|place| {
            place.retired || place.access.node != node || place.access.index < index
        }),
        Call::Pop => {
            if list.first().is_some_and(|place| place.retired) {
                return Ok(Some(list.remove(0).access));
            }
        }
    }
    Ok(None)
}

#[test]
fn a_script_answers_as_a_list_does(rt: HostRuntime) -> Result<(), Fail> {
    let mut log = made(rt.alloc())?;
    let mut list = Vec::new(rt.alloc());
    let mut mixed = 1u64;
    let mut taken = 0u32;
    for step in 0..600u64 {
        mixed = mixed
            .wrapping_mul(6_364_136_223_846_793_005)
            .wrapping_add(1);
        let node = (mixed >> 40) % 4;
        let index = (mixed >> 44) % 6;
        let call = call_of((mixed >> 50) % 16, node as u8, index as u32, step);
        log.reserve(1)?;
        let answer = call_log(&mut log, call);
        assert!(rt;
            answer == call_list(&mut list, call)?,
            "step {step}: {call:?}"
        );
        if answer.is_some() {
            taken = taken.saturating_add(1);
        }
    }
    // The script is of use where accesses leave all along.
    assert!(rt; taken >= 60, "{taken}");
    for place in list.iter() {
        log.retire(place.access.node, place.access.index);
    }
    for place in list.iter() {
        assert!(rt; log.pop_final() == Some(place.access));
    }
    assert!(rt; log.pop_final() == None);
    Ok(())
}
