//! Each call at its edges, and a script of calls against a plain list.

ghost use Rattle.std.specs.Prelude.{◌≡◌, ◌<◌, ◌≤◌};
ghost use Rattle.issue_queue.specs.Numbered.{AreIn};
ghost use Rattle.rsim_base.specs.Limits.{arch_registers};

use issue_queue::{IssueQueue, Unit};
use machine_config::read;
use rsim_base::PhysReg;
use std::alloc::Global;
use std::process::Abort;
use std::test::Fail;

// Room for six entries.
const SETTINGS: &[u8] =
    b"active_list 6\nalu_units 2\nalu_latency 1\nmul_units 1\nmul_latency 3\ndiv_units 2\ndiv_latency 5\n";

// A queue, and what a caller knows of it.
#[derive(Drop)]
struct Tested {
    queue: IssueQueue,
    // The numbers are at least `base` and less than `next`.
    base: u64,
    next: u64,
    tick: u64,
    ghost numbers: { AreIn base next queue.entries },
    ghost order: { base ≤ next },
    ghost registers: { arch_registers ≤ queue.registers },
    ghost now: { queue.now ≡ tick },
}

// A call of a queue.
#[derive(Clone, Copy, Debug)]
enum Call {
    Add(Unit, Option<u8>, Option<u8>),
    Wake(u8),
    Select,
    Finished,
    Tick,
    CutAfter(u64),
}

fn made(alloc: Global, base: u64) -> Result<Tested, Fail> {
    let config = read(alloc, SETTINGS)?;
    let queue = IssueQueue::make(alloc, &config)?;
    Ok(Tested {
        queue,
        base,
        next: base,
        tick: 0,
    })
}

fn register(number: u8) -> PhysReg
    ensures { result.0 < 128 }
{
    PhysReg(u16::from(number % 128))
}

impl Tested {
    // Its number, where it joins.
    fn add(&mut self, rt: &impl Abort, unit: Unit, needs: [Option<u8>; 2]) -> Option<u64> {
        assert!(rt; self.next - self.base < 128 && self.next < 1 << 62);
        let seq = self.next;
        let needs = [
            needs[0].map(register),
            None,
            None,
            None,
            needs[1].map(register),
        ];
        let joins = self.queue.add(seq, unit, needs);
        self.next = seq + 1;
        if joins { Some(seq) } else { None }
    }

    fn wake(&mut self, number: u8) {
        self.queue.wake(register(number));
    }

    fn select(&mut self, rt: &impl Abort) -> Option<u64> {
        assert!(rt; self.tick < 1000);
        self.queue.select()
    }

    fn finished(&mut self) -> Option<u64> {
        self.queue.finished()
    }

    fn tick(&mut self, rt: &impl Abort) {
        assert!(rt; self.tick < 1000);
        self.queue.tick();
        self.tick += 1;
    }

    fn cut_after(&mut self, seq: u64) {
        self.queue.cut_after(seq);
    }

    // The call's answer, where it has one.
    fn call(&mut self, rt: &impl Abort, call: Call) -> Option<u64> {
        match call {
            Call::Add(unit, first, last) => return self.add(rt, unit, [first, last]),
            Call::Wake(number) => self.wake(number),
            Call::Select => return self.select(rt),
            Call::Finished => return self.finished(),
            Call::Tick => self.tick(rt),
            Call::CutAfter(seq) => self.cut_after(seq),
        }
        None
    }
}

// An entry of the plain list.
#[derive(Clone, Copy)]
struct Listed {
    seq: u64,
    unit: Unit,
    needs: [Option<u8>; 2],
    until: Option<u64>,
}

#[derive(Drop)]
struct Plain {
    list: Vec<Listed>,
    next: u64,
    tick: u64,
    alu_left: u32,
    mul_left: u32,
    free_from: [u64; 2],
}

impl Plain {
    fn add(&mut self, unit: Unit, needs: [Option<u8>; 2]) -> Result<Option<u64>, Fail> {
        let seq = self.next;
        self.next = seq.saturating_add(1);
        if self.list.len() >= 6 {
            return Ok(None);
        }
        self.list.push(Listed {
            seq,
            unit,
            needs,
            until: None,
        })?;
        Ok(Some(seq))
    }

    fn wake(&mut self, number: u8) {
        for entry in self.list.iter_mut() {
            for need in entry.needs.iter_mut() {
                if *need == Some(number) {
                    *need = None;
                }
            }
        }
    }

    fn is_able(&self, entry: &Listed) -> bool {
        let has_unit = match entry.unit {
            Unit::Alu => self.alu_left > 0,
            Unit::Mul => self.mul_left > 0,
            Unit::Div => self
                .free_from
                .iter()
                .any(|free_from| *free_from <= self.tick),
        };
        has_unit && entry.until.is_none() && entry.needs.iter().all(|need| need.is_none())
    }

    fn select(&mut self) -> Option<u64> {
        let place = self.list.iter().position(|entry| self.is_able(entry))?;
        let ticks = match self.list[place].unit {
            Unit::Alu => 1,
            Unit::Mul => 3,
            Unit::Div => 5,
        };
        let until = self.tick.saturating_add(ticks);
        match self.list[place].unit {
            Unit::Alu => self.alu_left = self.alu_left.saturating_sub(1),
            Unit::Mul => self.mul_left = self.mul_left.saturating_sub(1),
            Unit::Div if self.free_from[0] <= self.tick => self.free_from[0] = until,
            Unit::Div => self.free_from[1] = until,
        }
        self.list[place].until = Some(until);
        Some(self.list[place].seq)
    }

    fn finished(&mut self) -> Option<u64> {
        let tick = self.tick;
        let place = self
            .list
            .iter()
            .position(|entry| entry.until.is_some_and(|until| until <= tick))?;
        Some(self.list.remove(place).seq)
    }

    fn call(&mut self, call: Call) -> Result<Option<u64>, Fail> {
        match call {
            Call::Add(unit, first, last) => return self.add(unit, [first, last]),
            Call::Wake(number) => self.wake(number),
            Call::Select => return Ok(self.select()),
            Call::Finished => return Ok(self.finished()),
            Call::Tick => {
                self.tick = self.tick.saturating_add(1);
                self.alu_left = 2;
                self.mul_left = 1;
            }
            Call::CutAfter(seq) => self.list.retain(|entry| entry.seq <= seq),
        }
        Ok(None)
    }
}

// A call by a number, and the number that the next entry gets.
fn call_of(mixed: u64, next: u64) -> Call {
    let unit = match (mixed >> 36) % 4 {
        0 | 1 => Unit::Alu,
        2 => Unit::Mul,
        _ => Unit::Div,
    };
    let need = |bits: u64| if bits % 4 < 2 {
        Some((bits % 4) as u8)
    } else {
        None
    };
    match (mixed >> 50) % 16 {
        0 | 1 | 2 => Call::Add(unit, need(mixed >> 40), need(mixed >> 42)),
        3 | 4 => Call::Wake(((mixed >> 40) % 2) as u8),
        5 | 6 | 7 | 8 => Call::Select,
        9 | 10 | 11 => Call::Finished,
        12 => Call::CutAfter(next.saturating_sub((mixed >> 44) % 5 + 1)),
        _ => Call::Tick,
    }
}

// The script with numbers from a base on.
fn check_script(rt: &impl Abort, alloc: Global, base: u64) -> Result<(), Fail> {
    let mut tested = made(alloc, base)?;
    let mut plain = Plain {
        list: Vec::new(alloc),
        next: base,
        tick: 0,
        alu_left: 2,
        mul_left: 1,
        free_from: [0; 2],
    };
    let mut mixed = base;
    let mut taken = 0u32;
    for step in 0..400u32 {
        mixed = mixed
            .wrapping_mul(6_364_136_223_846_793_005)
            .wrapping_add(1_442_695_040_888_963_407);
        let call = call_of(mixed, plain.next);
        let answer = tested.call(rt, call);
        assert!(rt; answer == plain.call(call)?, "step {step}: {call:?}");
        if let (Call::Finished, Some(_)) = (call, answer) {
            taken = taken.saturating_add(1);
        }
    }
    // The script is of use where entries finish all along.
    assert!(rt; taken >= 20, "{taken}");
    Ok(())
}

#[test]
fn a_script_answers_as_a_list_does(rt: HostRuntime) -> Result<(), Fail> {
    for &base in &[0u64, 1, 100, 127, 1_000_003, 1 << 40] {
        check_script(&rt, rt.alloc(), base)?;
    }
    Ok(())
}

#[test]
fn units_have_as_many_places_as_there_are(rt: HostRuntime) -> Result<(), Fail> {
    let mut q = made(rt.alloc(), 120)?;
    assert!(rt; (q.select(&rt), q.finished()) == (None, None));
    for &unit in &[Unit::Alu, Unit::Alu, Unit::Alu, Unit::Mul, Unit::Mul] {
        assert!(rt; q.add(&rt, unit, [None, None]).is_some());
    }
    // Two for arithmetic and one for multiplication, the oldest first.
    for &seq in &[Some(120), Some(121), Some(123), None] {
        assert!(rt; q.select(&rt) == seq);
    }
    assert!(rt; q.finished() == None);
    q.tick(&rt);
    for &seq in &[Some(120), Some(121), None] {
        assert!(rt; q.finished() == seq);
    }
    for &seq in &[Some(122), Some(124), None] {
        assert!(rt; q.select(&rt) == seq);
    }
    q.tick(&rt);
    assert!(rt; (q.finished(), q.finished()) == (Some(122), None));
    q.tick(&rt);
    assert!(rt; (q.finished(), q.finished()) == (Some(123), None));
    q.tick(&rt);
    assert!(rt; (q.finished(), q.finished()) == (Some(124), None));
    Ok(())
}

#[test]
fn an_entry_waits_for_each_of_its_registers(rt: HostRuntime) -> Result<(), Fail> {
    let mut q = made(rt.alloc(), 0)?;
    assert!(rt; q.add(&rt, Unit::Alu, [Some(7), Some(9)]) == Some(0));
    assert!(rt; q.add(&rt, Unit::Alu, [Some(9), Some(9)]) == Some(1));
    q.wake(8);
    q.wake(7);
    assert!(rt; q.select(&rt) == None);
    q.wake(9);
    assert!(rt; (q.select(&rt), q.select(&rt)) == (Some(0), Some(1)));
    // A register that is waited for again.
    assert!(rt; q.add(&rt, Unit::Mul, [None, Some(9)]) == Some(2));
    assert!(rt; q.select(&rt) == None);
    // There is room for six.
    for &seq in &[Some(3), Some(4), Some(5), None] {
        assert!(rt; q.add(&rt, Unit::Mul, [None, Some(9)]) == seq);
    }
    q.cut_after(1);
    q.wake(9);
    assert!(rt; q.select(&rt) == None);
    Ok(())
}

#[test]
fn a_division_holds_its_unit_after_a_cut(rt: HostRuntime) -> Result<(), Fail> {
    let mut q = made(rt.alloc(), 0)?;
    for &seq in &[Some(0), Some(1), Some(2)] {
        assert!(rt; q.add(&rt, Unit::Div, [None, None]) == seq);
    }
    assert!(rt; (q.select(&rt), q.select(&rt), q.select(&rt)) == (Some(0), Some(1), None));
    q.cut_after(0);
    assert!(rt; q.add(&rt, Unit::Div, [None, None]) == Some(3));
    for _tick in 0..4u8 {
        q.tick(&rt);
        assert!(rt; (q.select(&rt), q.finished()) == (None, None));
    }
    q.tick(&rt);
    assert!(rt; (q.finished(), q.finished()) == (Some(0), None));
    assert!(rt; (q.select(&rt), q.select(&rt)) == (Some(3), None));
    Ok(())
}
