// The home at node 0 of 16, with lines of 64 bytes and answers worked by hand.
ghost use Rattle.std.specs.Prelude.{◌≡◌, ◌≤◌, length};
ghost use Rattle.directory.specs.HomeViews.{home_of};

use directory::Home;
use elf64_load::load;
use machine_config::read;
use memory_contracts::{Message, MsgKind};
use rsim_base::{Line, Node, STACKS_START};
use std::alloc::Global;
use std::process::Abort;
use std::test::Fail;

// An executable of one instruction, 91D02010 at 0x100000.
const EXIT: &[u8] =
    b"\x7FELF\x02\x02\x01\0\0\0\0\0\0\0\0\0\0\x02\0+\0\0\0\x01\0\0\0\0\0\x10\0\0\0\0\0\0\0\0\0@\0\0\0\0\0\0\0\0\0\0\0\0\0@\08\0\x01\0\0\0\0\0\0\0\0\0\x01\0\0\0\x05\0\0\0\0\0\0\0x\0\0\0\0\0\x10\0\0\0\0\0\0\0\x10\0\0\0\0\0\0\0\0\0\x04\0\0\0\0\0\0\0\x04\0\0\0\0\0\0\0\x04\x91\xD0 \x10";

// The line with the instruction, and the first of the first stack.
const TEXT: Line = Line(0x10_0000 / 64);

const STACK: Line = Line(STACKS_START / 64);

// How many ticks the home takes to answer.
const LATENCY: u64 = 5;

const MSI: &[u8] = b"processors 16\nmesh_width 4\nline 64\nhome_latency 5\nprotocol msi\n";

const MESI: &[u8] = b"processors 16\nmesh_width 4\nline 64\nhome_latency 5\nprotocol mesi\n";

#[derive(Drop)]
struct Tested {
    home: Home,
    ghost nodes: { (home_of home).nodes ≡ 16 },
}

// A message, with the byte that each of its bytes is.
#[derive(Clone, Copy)]
struct Said {
    kind: MsgKind,
    node: u8,
    // Of a Grant or a Recall, that it is owned; of a RecallAck, that a copy is kept.
    flag: bool,
    byte: u8,
}

// A message that the home takes, how many waiting requests it serves then, and what it sends.
#[derive(Clone, Copy)]
struct Exchange {
    taken: Said,
    served: u8,
    sent: [Option<Said>; 2],
}

fn note(kind: MsgKind, node: u8, flag: bool, byte: u8) -> Said {
    Said {
        kind,
        node,
        flag,
        byte,
    }
}

// Without bytes, or with zeros.
fn bare(kind: MsgKind, node: u8) -> Said {
    note(kind, node, false, 0)
}

fn turn(taken: Said, sent: [Option<Said>; 2]) -> Exchange {
    Exchange {
        taken,
        served: 0,
        sent,
    }
}

// The message that a note means, to the home and from it.
fn asking(line: Line, said: Said) -> Message {
    Message {
        kind: said.kind,
        line,
        from: Node(said.node),
        owned: false,
        kept: said.flag,
        bytes: [said.byte; 128],
    }
}

fn answering(line: Line, said: Said) -> (Node, Message) {
    let message = Message {
        kind: said.kind,
        line,
        from: Node(0),
        owned: said.flag,
        kept: false,
        bytes: [said.byte; 128],
    };
    (Node(said.node), message)
}

fn make_tested(rt: &impl Abort, alloc: Global, settings: &[u8]) -> Result<Tested, Fail>
    requires { length settings.now ≤ 65536 }
{
    let image = load(alloc, EXIT)?;
    let config = read(alloc, settings)?;
    assert!(rt; config.processors == 16);
    let home = Home::make(alloc, &image, &config, Node(0))?;
    Ok(Tested { home })
}

impl Tested {
    fn take(&mut self, rt: &impl Abort, m: &Message, now: u64) {
        assert!(rt; self.home.room());
        assert!(rt; self.home.keeps(m.line));
        assert!(rt; m.from.0 < 16);
        self.home.on_message(m, now);
    }

    fn serve(&mut self, rt: &impl Abort, line: Line, now: u64) -> bool {
        assert!(rt; self.home.room());
        assert!(rt; self.home.keeps(line));
        self.home.next_waiting(line, now)
    }

    // The oldest message, which is taken off.
    fn next(&mut self, now: u64) -> Option<(Node, Message)> {
        let sent = self.home.outgoing(now)?;
        self.home.sent();
        Some(sent)
    }

    fn play(&mut self, rt: &impl Abort, line: Line, turns: &[Exchange]) {
        for (now, turn) in turns.iter().enumerate() {
            self.play_one(rt, line, now as u64, turn);
        }
    }

    fn play_one(&mut self, rt: &impl Abort, line: Line, now: u64, turn: &Exchange) {
        self.take(rt, &asking(line, turn.taken), now);
        for _request in 0..turn.served {
            assert!(rt; self.serve(rt, line, now), "at {now}");
        }
        assert!(rt; !self.serve(rt, line, now), "at {now}");
        for answer in turn.sent.iter().flatten() {
            let sent = self.next(now.saturating_add(LATENCY));
            assert!(rt; sent == Some(answering(line, *answer)), "at {now}");
        }
        assert!(rt; self.next(u64::MAX) == None, "at {now}");
    }
}

// What is asked for without anybody to be asked, and an owner that is called back.
#[test]
fn a_line_goes_from_owner_to_owner(rt: HostRuntime) -> Result<(), Fail> {
    let mut tested = make_tested(&rt, rt.alloc(), MESI)?;
    let turns = [
        // nobody has it: to own, under mesi
        turn(
            bare(MsgKind::GetS, 1),
            [Some(note(MsgKind::Grant, 1, true, 0)), None],
        ),
        turn(bare(MsgKind::GetM, 2), [None, None]),
        // the waiting request is served: the whole line is called back
        Exchange {
            taken: bare(MsgKind::Done, 1),
            served: 1,
            sent: [Some(note(MsgKind::Recall, 1, true, 0)), None],
        },
        turn(
            note(MsgKind::RecallAck, 1, false, 7),
            [Some(note(MsgKind::Grant, 2, true, 7)), None],
        ),
        turn(bare(MsgKind::Done, 2), [None, None]),
        // the owning alone is called back, and the owner has put the line back meanwhile
        turn(
            bare(MsgKind::GetS, 3),
            [Some(note(MsgKind::Recall, 2, false, 0)), None],
        ),
        turn(note(MsgKind::Put, 2, false, 9), [None, None]),
        turn(
            note(MsgKind::RecallAck, 2, false, 8),
            [Some(note(MsgKind::Grant, 3, false, 8)), None],
        ),
        // its Put is noted, and the bytes are dropped
        Exchange {
            taken: bare(MsgKind::Done, 3),
            served: 1,
            sent: [Some(bare(MsgKind::PutAck, 2)), None],
        },
        turn(
            bare(MsgKind::GetS, 4),
            [Some(note(MsgKind::Grant, 4, false, 8)), None],
        ),
        turn(bare(MsgKind::Done, 4), [None, None]),
        // of two sharers one asks to own: the other gives its copy up
        turn(bare(MsgKind::GetM, 4), [Some(bare(MsgKind::Inv, 3)), None]),
        turn(
            bare(MsgKind::InvAck, 3),
            [Some(note(MsgKind::Grant, 4, true, 8)), None],
        ),
        turn(bare(MsgKind::Done, 4), [None, None]),
        // the owner puts it back
        turn(
            note(MsgKind::Put, 4, false, 5),
            [Some(bare(MsgKind::PutAck, 4)), None],
        ),
        turn(
            bare(MsgKind::GetM, 5),
            [Some(note(MsgKind::Grant, 5, true, 5)), None],
        ),
    ];
    tested.play(&rt, STACK, &turns);
    Ok(())
}

#[test]
fn sharers_give_up_their_copies(rt: HostRuntime) -> Result<(), Fail> {
    let mut tested = make_tested(&rt, rt.alloc(), MSI)?;
    let turns = [
        // nobody has it: to read, under msi
        turn(
            bare(MsgKind::GetS, 15),
            [Some(note(MsgKind::Grant, 15, false, 0)), None],
        ),
        turn(bare(MsgKind::Done, 15), [None, None]),
        // the only sharer asks to own
        turn(
            bare(MsgKind::GetM, 15),
            [Some(note(MsgKind::Grant, 15, true, 0)), None],
        ),
        turn(bare(MsgKind::Done, 15), [None, None]),
        // the owner keeps a shared copy
        turn(
            bare(MsgKind::GetS, 0),
            [Some(note(MsgKind::Recall, 15, false, 0)), None],
        ),
        turn(
            note(MsgKind::RecallAck, 15, true, 6),
            [Some(note(MsgKind::Grant, 0, false, 6)), None],
        ),
        // a message that has no row
        turn(bare(MsgKind::InvAck, 3), [None, None]),
        turn(bare(MsgKind::Done, 0), [None, None]),
        // each other sharer, from the lowest up; none is left after the second has answered
        turn(
            bare(MsgKind::GetM, 7),
            [Some(bare(MsgKind::Inv, 0)), Some(bare(MsgKind::Inv, 15))],
        ),
        turn(bare(MsgKind::InvAck, 15), [None, None]),
        turn(
            bare(MsgKind::InvAck, 0),
            [Some(note(MsgKind::Grant, 7, true, 6)), None],
        ),
    ];
    tested.play(&rt, STACK, &turns);
    Ok(())
}

#[test]
fn requests_wait_by_line(rt: HostRuntime) -> Result<(), Fail> {
    let mut tested = make_tested(&rt, rt.alloc(), MESI)?;
    for &(line, node) in &[
        (STACK, 1),
        (TEXT, 1),
        (STACK, 2),
        (TEXT, 3),
        (TEXT, 4),
        (STACK, 5),
    ] {
        tested.take(&rt, &asking(line, bare(MsgKind::GetM, node)), 0);
    }
    assert!(rt; !tested.serve(&rt, TEXT, 1));
    tested.take(&rt, &asking(TEXT, bare(MsgKind::Done, 1)), 1);
    assert!(rt; tested.serve(&rt, TEXT, 1));
    // it is no more idle
    assert!(rt; !tested.serve(&rt, TEXT, 1));
    let stack = answering(STACK, note(MsgKind::Grant, 1, true, 0));
    let (_, text) = answering(TEXT, note(MsgKind::Grant, 1, true, 0));
    assert!(rt; tested.next(LATENCY) == Some(stack));
    // the instruction, and zeros behind it
    let mut bytes = [0; 128];
    for (place, byte) in [0x91, 0xD0, 0x20, 0x10].into_iter().enumerate() {
        bytes[place] = byte;
    }
    assert!(rt; tested.next(LATENCY) == Some((Node(1), Message { bytes, ..text })));
    // not yet
    assert!(rt; tested.next(LATENCY) == None);
    // node 3 is served
    tested.take(&rt, &asking(TEXT, note(MsgKind::RecallAck, 1, false, 4)), 2);
    let recall = answering(TEXT, note(MsgKind::Recall, 1, true, 0));
    // a tick too early
    assert!(rt; tested.next(LATENCY) == None);
    assert!(rt; tested.next(LATENCY + 1) == Some(recall));
    let grant = answering(TEXT, note(MsgKind::Grant, 3, true, 4));
    assert!(rt; tested.next(LATENCY + 1) == None);
    assert!(rt; tested.next(LATENCY + 2) == Some(grant));
    Ok(())
}
