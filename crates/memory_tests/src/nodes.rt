// Node 1 of 4, with lines of 16 bytes and answers worked by hand. The home of a line is its number modulo 4.
ghost use Rattle.std.specs.Prelude.{◌≡◌, ◌≤◌, length};
ghost use Rattle.node_memory.specs.NodeViews.{node_of};
ghost use Rattle.node_memory.specs.Sound.{AreBefore};

use arrayvec::ArrayVec;
use machine_config::read;
use memory_contracts::{LostList, Message, MsgKind};
use node_memory::NodeMemory;
use rsim_base::{Addr, Line, Node, Size};
use std::alloc::Global;
use std::process::Abort;
use std::test::Fail;

const LINE_BYTES: u64 = 16;

const AT: Node = Node(1);

// Two lines near and held, and two misses.
const PAIR: &[u8] =
    b"processors 4\nmesh_width 2\nline 16\nl1_sets 1\nl1_ways 2\nl2_sets 1\nl2_ways 2\nmiss_registers 2\nl2_latency 3\n";

// One line near, of two held.
const NARROW: &[u8] =
    b"processors 4\nmesh_width 2\nline 16\nl1_sets 1\nl1_ways 1\nl2_sets 1\nl2_ways 2\nmiss_registers 2\nl2_latency 3\n";

// Two lines near and held, and one miss.
const ONE_MISS: &[u8] =
    b"processors 4\nmesh_width 2\nline 16\nl1_sets 1\nl1_ways 2\nl2_sets 1\nl2_ways 2\nmiss_registers 1\nl2_latency 3\n";

// One line near and held, and two misses.
const ONE_WAY: &[u8] =
    b"processors 4\nmesh_width 2\nline 16\nl1_sets 1\nl1_ways 1\nl2_sets 1\nl2_ways 1\nmiss_registers 2\nl2_latency 3\n";

// One line near and held, and one miss.
const ONE_OF_EACH: &[u8] =
    b"processors 4\nmesh_width 2\nline 16\nl1_sets 1\nl1_ways 1\nl2_sets 1\nl2_ways 1\nmiss_registers 1\nl2_latency 3\n";

#[derive(Drop)]
struct Tested {
    node: NodeMemory,
    lost: LostList,
    // The next tick.
    now: u64,
    ghost later: { AreBefore now (node_of node).coming },
}

// What happens to the node.
#[derive(Clone, Copy)]
enum Call {
    // It wishes the line, to own it or to read it.
    Wish { own: bool },
    Tick,
    // The home says something about the line; the flag is that of a Grant or a Recall.
    Told { kind: MsgKind, flag: bool, byte: u8 },
}

// What the node says about a line, with its flag and the byte that each of its bytes is.
#[derive(Clone, Copy)]
struct Said {
    kind: MsgKind,
    line: u64,
    kept: bool,
    byte: u8,
}

// What the node has of the line: nothing that may be read now, or a byte, and whether it owns it.
#[derive(Clone, Copy, PartialEq, Eq)]
struct Looks {
    owned: bool,
    byte: Option<u64>,
}

// A call about a line, whether a wish is taken or starts, what is sent, which line leaves, and how the line looks then.
#[derive(Clone, Copy)]
struct Turn {
    line: u64,
    call: Call,
    done: bool,
    sent: [Option<Said>; 2],
    lost: Option<u64>,
    looks: Looks,
}

const NOT_NEAR: Looks = Looks {
    owned: false,
    byte: None,
};

fn shared(byte: u64) -> Looks {
    Looks {
        owned: false,
        byte: Some(byte),
    }
}

fn owned(byte: u64) -> Looks {
    Looks {
        owned: true,
        byte: Some(byte),
    }
}

fn note(kind: MsgKind, line: u64, kept: bool, byte: u8) -> Option<Said> {
    Some(Said {
        kind,
        line,
        kept,
        byte,
    })
}

// Without bytes, or with zeros.
fn bare(kind: MsgKind, line: u64) -> Option<Said> {
    note(kind, line, false, 0)
}

// A wish is taken.
fn wish(line: u64, own: bool, looks: Looks) -> Turn {
    Turn {
        line,
        call: Call::Wish { own },
        done: true,
        sent: [None, None],
        lost: None,
        looks,
    }
}

// A tick in which nothing starts.
fn idle(line: u64, looks: Looks) -> Turn {
    Turn {
        line,
        call: Call::Tick,
        done: false,
        sent: [None, None],
        lost: None,
        looks,
    }
}

// A tick in which a wish starts or is met.
fn tick(line: u64, sent: [Option<Said>; 2], lost: Option<u64>, looks: Looks) -> Turn {
    Turn {
        line,
        call: Call::Tick,
        done: true,
        sent,
        lost,
        looks,
    }
}

// The home says something that has no bytes.
fn told(line: u64, kind: MsgKind, flag: bool, sent: Option<Said>, looks: Looks) -> Turn {
    Turn {
        line,
        call: Call::Told {
            kind,
            flag,
            byte: 0,
        },
        done: true,
        sent: [sent, None],
        lost: None,
        looks,
    }
}

// The same, and the line is lost.
fn taken(line: u64, kind: MsgKind, flag: bool, sent: Option<Said>) -> Turn {
    Turn {
        lost: Some(line),
        ..told(line, kind, flag, sent, NOT_NEAR)
    }
}

// The home grants the line.
fn granted(line: u64, own: bool, byte: u8) -> Turn {
    Turn {
        line,
        call: Call::Told {
            kind: MsgKind::Grant,
            flag: own,
            byte,
        },
        done: true,
        sent: [bare(MsgKind::Done, line), None],
        lost: None,
        looks: Looks {
            owned: own,
            byte: Some(u64::from(byte)),
        },
    }
}

// What the node says, with the home that it says it to.
fn message(said: Said) -> (Node, Message) {
    let m = Message {
        kind: said.kind,
        line: Line(said.line),
        from: AT,
        owned: false,
        kept: said.kept,
        bytes: [said.byte; 128],
    };
    (Node((said.line % 4) as u8), m)
}

fn make_tested(alloc: Global, settings: &[u8]) -> Result<Tested, Fail>
    requires { length settings.now ≤ 65536 }
{
    let config = read(alloc, settings)?;
    let node = NodeMemory::make(alloc, &config, AT)?;
    Ok(Tested {
        node,
        lost: ArrayVec::new(),
        now: 0,
    })
}

impl Tested {
    fn tell(&mut self, rt: &impl Abort, m: &Message) {
        assert!(rt; self.node.room());
        assert!(rt; self.lost.len() < 128);
        assert!(rt; m.kind != MsgKind::Grant || self.node.is_awaited(m.line));
        self.node.on_message(m, &mut self.lost);
    }

    fn tick(&mut self, rt: &impl Abort) -> bool {
        assert!(rt; self.lost.len() < 128);
        assert!(rt; self.now < u64::MAX);
        let started = self.node.start_wish(self.now, &mut self.lost);
        self.now += 1;
        started
    }

    fn wish(&mut self, line: u64, own: bool) -> bool {
        self.node.wish(Line(line), own)
    }

    // The oldest message, which is taken off.
    fn next(&mut self) -> Option<(Node, Message)> {
        let sent = self.node.outbox()?;
        self.node.sent();
        Some(sent)
    }

    fn looks(&mut self, rt: &impl Abort, line: u64) -> Looks {
        assert!(rt; line < 1000);
        let byte = self.node.read(Addr(line * LINE_BYTES), Size::B1);
        assert!(rt; self.node.is_near(Line(line)) == byte.is_some());
        Looks {
            owned: self.node.is_owned(Line(line)),
            byte,
        }
    }

    fn read(&mut self, rt: &impl Abort, a: u64, n: Size) -> Option<u64> {
        assert!(rt; a % n.count() == 0);
        self.node.read(Addr(a), n)
    }

    fn write(&mut self, rt: &impl Abort, a: u64, n: Size, value: u64) -> bool {
        assert!(rt; a % n.count() == 0);
        self.node.write(Addr(a), n, value)
    }

    fn call(&mut self, rt: &impl Abort, line: u64, call: Call) -> bool {
        match call {
            Call::Wish { own } => self.wish(line, own),
            Call::Tick => self.tick(rt),
            Call::Told { kind, flag, byte } => {
                let m = Message {
                    kind,
                    line: Line(line),
                    from: Node(0),
                    owned: flag,
                    kept: false,
                    bytes: [byte; 128],
                };
                self.tell(rt, &m);
                true
            }
        }
    }

    fn play(&mut self, rt: &impl Abort, turns: &[Turn]) {
        for (place, turn) in turns.iter().enumerate() {
            self.play_one(rt, place, turn);
        }
    }

    fn play_one(&mut self, rt: &impl Abort, place: usize, turn: &Turn) {
        let done = self.call(rt, turn.line, turn.call);
        assert!(rt; done == turn.done, "at {place}");
        for said in turn.sent.iter().flatten() {
            assert!(rt; self.next() == Some(message(*said)), "at {place}");
        }
        assert!(rt; self.next() == None, "at {place}");
        let lost = turn.lost.map(|line| (AT, Line(line)));
        assert!(rt; self.lost.pop() == lost, "at {place}");
        assert!(rt; self.lost.is_empty(), "at {place}");
        assert!(rt; self.looks(rt, turn.line) == turn.looks, "at {place}");
    }
}

#[test]
fn a_line_comes_to_be_read(rt: HostRuntime) -> Result<(), Fail> {
    let mut tested = make_tested(rt.alloc(), PAIR)?;
    let turns = [
        wish(5, false, NOT_NEAR),
        tick(5, [bare(MsgKind::GetS, 5), None], None, NOT_NEAR),
        // an Inv that finds nothing is answered all the same
        told(5, MsgKind::Inv, false, bare(MsgKind::InvAck, 5), NOT_NEAR),
        told(5, MsgKind::Recall, true, None, NOT_NEAR),
        told(5, MsgKind::PutAck, false, None, NOT_NEAR),
        granted(5, false, 7),
        told(5, MsgKind::Recall, true, None, shared(7)),
        told(5, MsgKind::PutAck, false, None, shared(7)),
        told(5, MsgKind::Done, false, None, shared(7)),
        taken(5, MsgKind::Inv, false, bare(MsgKind::InvAck, 5)),
    ];
    tested.play(&rt, &turns);
    Ok(())
}

#[test]
fn a_line_comes_to_be_owned(rt: HostRuntime) -> Result<(), Fail> {
    let mut tested = make_tested(rt.alloc(), PAIR)?;
    let turns = [
        wish(6, true, NOT_NEAR),
        tick(6, [bare(MsgKind::GetM, 6), None], None, NOT_NEAR),
        granted(6, true, 8),
        told(6, MsgKind::Inv, false, None, owned(8)),
        // a shared copy is kept, also while it is asked for again
        told(
            6,
            MsgKind::Recall,
            false,
            note(MsgKind::RecallAck, 6, true, 8),
            shared(8),
        ),
        wish(6, true, shared(8)),
        tick(6, [bare(MsgKind::GetM, 6), None], None, shared(8)),
        granted(6, true, 9),
        taken(
            6,
            MsgKind::Recall,
            true,
            note(MsgKind::RecallAck, 6, false, 9),
        ),
        // the home may give the line to own where it is asked for to read; and a copy may go before the Grant comes
        wish(6, false, NOT_NEAR),
        tick(6, [bare(MsgKind::GetS, 6), None], None, NOT_NEAR),
        granted(6, true, 1),
        told(
            6,
            MsgKind::Recall,
            false,
            note(MsgKind::RecallAck, 6, true, 1),
            shared(1),
        ),
        wish(6, true, shared(1)),
        tick(6, [bare(MsgKind::GetM, 6), None], None, shared(1)),
        taken(6, MsgKind::Inv, false, bare(MsgKind::InvAck, 6)),
        granted(6, true, 2),
    ];
    tested.play(&rt, &turns);
    Ok(())
}

#[test]
fn the_least_recent_line_leaves(rt: HostRuntime) -> Result<(), Fail> {
    let mut tested = make_tested(rt.alloc(), PAIR)?;
    let turns = [
        wish(5, true, NOT_NEAR),
        tick(5, [bare(MsgKind::GetM, 5), None], None, NOT_NEAR),
        granted(5, true, 3),
        wish(6, false, NOT_NEAR),
        tick(6, [bare(MsgKind::GetS, 6), None], None, NOT_NEAR),
        granted(6, false, 4),
        // an owned line is put back, and recalled before that is noted
        wish(7, false, NOT_NEAR),
        tick(
            7,
            [note(MsgKind::Put, 5, false, 3), bare(MsgKind::GetS, 7)],
            Some(5),
            NOT_NEAR,
        ),
        told(5, MsgKind::Inv, false, None, NOT_NEAR),
        told(
            5,
            MsgKind::Recall,
            false,
            note(MsgKind::RecallAck, 5, false, 3),
            NOT_NEAR,
        ),
        told(5, MsgKind::Recall, true, None, NOT_NEAR),
        told(5, MsgKind::Inv, false, None, NOT_NEAR),
        told(5, MsgKind::PutAck, false, None, NOT_NEAR),
        told(5, MsgKind::Inv, false, bare(MsgKind::InvAck, 5), NOT_NEAR),
        granted(7, false, 1),
        // a shared line leaves, and nobody is told
        wish(8, true, NOT_NEAR),
        tick(8, [bare(MsgKind::GetM, 8), None], Some(6), NOT_NEAR),
        granted(8, true, 2),
        // line 7 is read again, so line 8 leaves
        told(7, MsgKind::PutAck, false, None, shared(1)),
        wish(9, false, NOT_NEAR),
        tick(
            9,
            [note(MsgKind::Put, 8, false, 2), bare(MsgKind::GetS, 9)],
            Some(8),
            NOT_NEAR,
        ),
        told(8, MsgKind::PutAck, false, None, NOT_NEAR),
        told(8, MsgKind::Inv, false, bare(MsgKind::InvAck, 8), NOT_NEAR),
    ];
    tested.play(&rt, &turns);
    Ok(())
}

#[test]
fn a_wish_waits_while_its_line_leaves(rt: HostRuntime) -> Result<(), Fail> {
    let mut tested = make_tested(rt.alloc(), PAIR)?;
    let turns = [
        wish(5, true, NOT_NEAR),
        tick(5, [bare(MsgKind::GetM, 5), None], None, NOT_NEAR),
        granted(5, true, 1),
        wish(6, true, NOT_NEAR),
        tick(6, [bare(MsgKind::GetM, 6), None], None, NOT_NEAR),
        granted(6, true, 2),
        wish(7, false, NOT_NEAR),
        tick(
            7,
            [note(MsgKind::Put, 5, false, 1), bare(MsgKind::GetS, 7)],
            Some(5),
            NOT_NEAR,
        ),
        wish(5, false, NOT_NEAR),
        idle(5, NOT_NEAR),
        told(5, MsgKind::PutAck, false, None, NOT_NEAR),
        tick(
            5,
            [note(MsgKind::Put, 6, false, 2), bare(MsgKind::GetS, 5)],
            Some(6),
            NOT_NEAR,
        ),
    ];
    tested.play(&rt, &turns);
    Ok(())
}

#[test]
fn a_wish_waits_while_its_line_is_asked_for_with_less(rt: HostRuntime) -> Result<(), Fail> {
    let mut tested = make_tested(rt.alloc(), PAIR)?;
    let turns = [
        wish(5, false, NOT_NEAR),
        tick(5, [bare(MsgKind::GetS, 5), None], None, NOT_NEAR),
        wish(5, true, NOT_NEAR),
        idle(5, NOT_NEAR),
        granted(5, false, 1),
        tick(5, [bare(MsgKind::GetM, 5), None], None, shared(1)),
    ];
    tested.play(&rt, &turns);
    Ok(())
}

#[test]
fn a_wish_waits_for_a_register(rt: HostRuntime) -> Result<(), Fail> {
    let mut tested = make_tested(rt.alloc(), ONE_MISS)?;
    let turns = [
        wish(5, false, NOT_NEAR),
        tick(5, [bare(MsgKind::GetS, 5), None], None, NOT_NEAR),
        wish(6, false, NOT_NEAR),
        idle(6, NOT_NEAR),
        granted(5, false, 1),
        tick(6, [bare(MsgKind::GetS, 6), None], None, NOT_NEAR),
    ];
    tested.play(&rt, &turns);
    Ok(())
}

#[test]
fn a_wish_waits_for_a_way(rt: HostRuntime) -> Result<(), Fail> {
    let mut tested = make_tested(rt.alloc(), ONE_WAY)?;
    let turns = [
        wish(5, false, NOT_NEAR),
        tick(5, [bare(MsgKind::GetS, 5), None], None, NOT_NEAR),
        wish(6, false, NOT_NEAR),
        idle(6, NOT_NEAR),
        granted(5, false, 1),
        tick(6, [bare(MsgKind::GetS, 6), None], Some(5), NOT_NEAR),
    ];
    tested.play(&rt, &turns);
    Ok(())
}

#[test]
fn a_wish_waits_for_a_slot(rt: HostRuntime) -> Result<(), Fail> {
    let mut tested = make_tested(rt.alloc(), ONE_OF_EACH)?;
    let turns = [
        wish(5, true, NOT_NEAR),
        tick(5, [bare(MsgKind::GetM, 5), None], None, NOT_NEAR),
        granted(5, true, 1),
        wish(6, true, NOT_NEAR),
        tick(
            6,
            [note(MsgKind::Put, 5, false, 1), bare(MsgKind::GetM, 6)],
            Some(5),
            NOT_NEAR,
        ),
        granted(6, true, 2),
        wish(7, false, NOT_NEAR),
        idle(7, NOT_NEAR),
        told(5, MsgKind::PutAck, false, None, NOT_NEAR),
        tick(
            7,
            [note(MsgKind::Put, 6, false, 2), bare(MsgKind::GetS, 7)],
            Some(6),
            NOT_NEAR,
        ),
    ];
    tested.play(&rt, &turns);
    Ok(())
}

#[test]
fn a_wish_that_a_register_covers_is_dropped(rt: HostRuntime) -> Result<(), Fail> {
    let mut tested = make_tested(rt.alloc(), PAIR)?;
    let turns = [
        wish(5, true, NOT_NEAR),
        tick(5, [bare(MsgKind::GetM, 5), None], None, NOT_NEAR),
        wish(5, false, NOT_NEAR),
        wish(6, false, NOT_NEAR),
        tick(6, [bare(MsgKind::GetS, 6), None], None, NOT_NEAR),
        granted(5, true, 1),
        idle(5, owned(1)),
    ];
    tested.play(&rt, &turns);
    Ok(())
}

// Line 5 is held when it is wished again, in tick 2, and line 6 in tick 6; the second is lost on its way.
#[test]
fn a_wish_is_met_by_what_is_held(rt: HostRuntime) -> Result<(), Fail> {
    let mut tested = make_tested(rt.alloc(), NARROW)?;
    let far = Looks {
        owned: true,
        byte: None,
    };
    let turns = [
        wish(5, true, NOT_NEAR),
        tick(5, [bare(MsgKind::GetM, 5), None], None, NOT_NEAR),
        granted(5, true, 1),
        wish(6, false, NOT_NEAR),
        tick(6, [bare(MsgKind::GetS, 6), None], None, NOT_NEAR),
        granted(6, false, 2),
        wish(5, true, far),
        tick(5, [None, None], None, far),
        idle(5, far),
        idle(5, far),
        idle(5, owned(1)),
        wish(6, false, NOT_NEAR),
        tick(6, [None, None], None, NOT_NEAR),
        taken(6, MsgKind::Inv, false, bare(MsgKind::InvAck, 6)),
        idle(6, NOT_NEAR),
        idle(6, NOT_NEAR),
        idle(6, NOT_NEAR),
        idle(5, owned(1)),
    ];
    tested.play(&rt, &turns);
    Ok(())
}

#[test]
fn a_wish_waits_for_two_places(rt: HostRuntime) -> Result<(), Fail> {
    let mut tested = make_tested(rt.alloc(), PAIR)?;
    assert!(rt; tested.wish(5, false));
    for _inv in 0..1023 {
        tested.call(
            &rt,
            6,
            Call::Told {
                kind: MsgKind::Inv,
                flag: false,
                byte: 0,
            },
        );
    }
    // one place is not enough
    assert!(rt; !tested.tick(&rt));
    assert!(rt; tested.next().is_some());
    assert!(rt; tested.tick(&rt));
    assert!(rt; tested.node.room());
    tested.call(
        &rt,
        6,
        Call::Told {
            kind: MsgKind::Inv,
            flag: false,
            byte: 0,
        },
    );
    assert!(rt; !tested.node.room());
    for _ack in 0..1022 {
        assert!(rt;
            tested
                .next()
                .is_some_and(|(_, m)| m.kind == MsgKind::InvAck)
        );
    }
    assert!(rt; tested.next().is_some_and(|(_, m)| m.kind == MsgKind::GetS));
    Ok(())
}

#[test]
fn sixteen_wishes_are_taken(rt: HostRuntime) -> Result<(), Fail> {
    let mut tested = make_tested(rt.alloc(), PAIR)?;
    for line in 1..17 {
        assert!(rt; tested.wish(line, false));
    }
    assert!(rt; !tested.wish(17, false));
    assert!(rt; !tested.wish(3, true));
    // it is covered
    assert!(rt; tested.wish(3, false));
    assert!(rt; tested.tick(&rt));
    assert!(rt; tested.wish(17, false));
    assert!(rt; !tested.wish(18, false));
    Ok(())
}

// Line 5 begins at 80.
#[test]
fn values_are_read_and_written(rt: HostRuntime) -> Result<(), Fail> {
    let mut tested = make_tested(rt.alloc(), PAIR)?;
    assert!(rt; !tested.write(&rt, 80, Size::B8, 1));
    tested.play(
        &rt,
        &[
            wish(5, true, NOT_NEAR),
            tick(5, [bare(MsgKind::GetM, 5), None], None, NOT_NEAR),
            granted(5, true, 0x11),
        ],
    );
    assert!(rt; tested.write(&rt, 80, Size::B8, 0x0102_0304_0506_0708));
    assert!(rt; tested.write(&rt, 81, Size::B1, 0xAB));
    for &(a, n, value) in &[
        (80, Size::B8, 0x01AB_0304_0506_0708),
        (84, Size::B4, 0x0506_0708),
        (82, Size::B2, 0x0304),
        (87, Size::B1, 0x08),
        (88, Size::B8, 0x1111_1111_1111_1111),
    ] {
        assert!(rt; tested.read(&rt, a, n) == Some(value));
    }
    let mut bytes = [0x11; 128];
    for (place, byte) in [1, 0xAB, 3, 4, 5, 6, 7, 8].into_iter().enumerate() {
        bytes[place] = byte;
    }
    tested.call(
        &rt,
        5,
        Call::Told {
            kind: MsgKind::Recall,
            flag: false,
            byte: 0,
        },
    );
    let (home, ack) = message(Said {
        kind: MsgKind::RecallAck,
        line: 5,
        kept: true,
        byte: 0,
    });
    assert!(rt; tested.next() == Some((home, Message { bytes, ..ack })));
    // it is shared
    assert!(rt; !tested.write(&rt, 80, Size::B4, 0));
    assert!(rt; tested.read(&rt, 80, Size::B4) == Some(0x01AB_0304));
    Ok(())
}
