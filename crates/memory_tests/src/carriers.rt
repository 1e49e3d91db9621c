// Messages between the 16 nodes of a mesh with four columns, flits of 8 bytes and lines of 64, with answers worked by hand.
ghost use Rattle.std.specs.Prelude.{◌≡◌, ◌<◌, ◌≤◌};
ghost use Rattle.memory_contracts.specs.BagCarriers.{bag_of};
ghost use Rattle.memory_contracts.specs.Carrier.{Takes};

use machine_config::read;
use memory_contracts::{BagCarrier, Carrier, Message, MsgKind};
use rsim_base::{Line, Node};
use std::alloc::Global;
use std::process::Abort;
use std::test::Fail;

// A carrier between 16 nodes.
#[derive(Drop)]
struct Carried {
    carrier: BagCarrier,
    ticks: u8,
    ghost nodes: { (bag_of carrier).nodes ≡ 16 },
    ghost few: { (bag_of carrier).ticks ≤ ticks },
}

fn make_carried(rt: &impl Abort, alloc: Global) -> Result<Carried, Fail> {
    let config = read(
        alloc,
        b"processors 16\nmesh_width 4\nflit_bytes 8\nline 64\n",
    )?;
    assert!(rt; config.processors == 16);
    let carrier = BagCarrier::make(alloc, &config)?;
    Ok(Carried { carrier, ticks: 0 })
}

impl Carried {
    fn send(&mut self, rt: &impl Abort, p: u8, to: u8, m: Message) -> bool {
        assert!(rt; p < 16 && to < 16);
        self.carrier.send(Node(p), Node(to), m)
    }

    fn take(&mut self, rt: &impl Abort, p: u8) -> Option<Message> {
        assert!(rt; p < 16);
        taken(&mut self.carrier, Node(p))
    }

    fn tick(&mut self, rt: &impl Abort) {
        assert!(rt; self.ticks < 255);
        self.carrier.tick();
        self.ticks += 1;
    }
}

// What a node takes, as generic code asks.
fn taken<C: Carrier>(carrier: &mut C, p: Node) -> Option<Message>
    requires { p.0 < (C.meaning carrier.old).nodes }
    ensures { Takes p.0 (C.meaning carrier.old) (C.meaning carrier.new) result }
{
    carrier.take(p)
}

fn message(kind: MsgKind, line: u64) -> Message {
    Message {
        kind,
        line: Line(line),
        from: Node(0),
        owned: false,
        kept: false,
        bytes: [7; 128],
    }
}

#[test]
fn a_message_comes_as_early_as_it_may(rt: HostRuntime) -> Result<(), Fail> {
    let mut carried = make_carried(&rt, rt.alloc())?;
    let ask = message(MsgKind::GetS, 1);
    let grant = message(MsgKind::Grant, 2);
    // three columns and three rows, and one flit
    assert!(rt; carried.send(&rt, 0, 15, ask));
    // a column and a row, and nine flits
    assert!(rt; carried.send(&rt, 0, 5, grant));
    for now in 0..13u8 {
        let at_15 = if now == 7 { Some(ask) } else { None };
        let at_5 = if now == 11 { Some(grant) } else { None };
        assert!(rt; carried.take(&rt, 15) == at_15, "at {now}");
        assert!(rt; carried.take(&rt, 5) == at_5, "at {now}");
        assert!(rt; carried.take(&rt, 0) == None, "at {now}");
        carried.tick(&rt);
    }
    // to itself: no link, and one flit; sent at tick 13
    assert!(rt; carried.send(&rt, 9, 9, ask));
    assert!(rt; carried.take(&rt, 9) == None);
    carried.tick(&rt);
    assert!(rt; carried.take(&rt, 9) == Some(ask));
    Ok(())
}

#[test]
fn a_room_holds_eight_messages(rt: HostRuntime) -> Result<(), Fail> {
    let mut carried = make_carried(&rt, rt.alloc())?;
    for line in 0..8u64 {
        assert!(rt; carried.send(&rt, 0, 15, message(MsgKind::GetS, line)));
    }
    // a ninth
    assert!(rt; !carried.send(&rt, 0, 15, message(MsgKind::GetS, 8)));
    // of the same class
    assert!(rt; !carried.send(&rt, 0, 3, message(MsgKind::Put, 8)));
    // of another class
    assert!(rt; carried.send(&rt, 0, 15, message(MsgKind::Inv, 8)));
    // of another node
    assert!(rt; carried.send(&rt, 1, 15, message(MsgKind::GetS, 9)));
    for _tick in 0..7 {
        carried.tick(&rt);
    }
    // not yet taken
    assert!(rt; !carried.send(&rt, 0, 15, message(MsgKind::GetM, 8)));
    let first = [MsgKind::Inv, MsgKind::GetS, MsgKind::GetS];
    for (kind, line) in first.into_iter().zip([8, 0, 1]) {
        assert!(rt; carried.take(&rt, 15) == Some(message(kind, line)));
    }
    for line in 8..10u64 {
        assert!(rt; carried.send(&rt, 0, 15, message(MsgKind::GetM, line)));
    }
    assert!(rt; !carried.send(&rt, 0, 15, message(MsgKind::GetM, 10)));
    Ok(())
}

#[test]
fn higher_classes_come_first(rt: HostRuntime) -> Result<(), Fail> {
    let mut carried = make_carried(&rt, rt.alloc())?;
    let kinds = [
        MsgKind::GetM,
        MsgKind::PutAck,
        MsgKind::Inv,
        MsgKind::Done,
        MsgKind::InvAck,
        MsgKind::GetS,
    ];
    for kind in kinds {
        assert!(rt; carried.send(&rt, 6, 2, message(kind, 3)));
    }
    carried.tick(&rt);
    // a link and a flit away
    assert!(rt; carried.take(&rt, 2) == None);
    carried.tick(&rt);
    for &kind in &[
        MsgKind::Done,
        MsgKind::InvAck,
        MsgKind::PutAck,
        MsgKind::Inv,
        MsgKind::GetM,
        MsgKind::GetS,
    ] {
        assert!(rt; carried.take(&rt, 2) == Some(message(kind, 3)));
    }
    assert!(rt; carried.take(&rt, 2) == None);
    Ok(())
}
