//! Each row of the guesses under both kinds, pushes and squashes at their edges, and a script against plain lists.

ghost use Rattle.std.specs.Prelude.{◌<◌, length};

use branch_predict::{Guess, Predictor, learns};
use machine_config::read;
use sparc_decode::{Instr, Op, Src2};
use std::alloc::{AllocError, Global};
use std::process::Abort;
use std::test::Fail;

const STATIC: &[u8] = b"predictor static\nreturn_stack 2\n";

const TWO_BIT: &[u8] = b"predictor two_bit\npredictor_size 16\nreturn_stack 2\n";

// A branch at this address stands at place 1 of 16 counters.
const PC: u64 = 0x1044;

fn made(alloc: Global, settings: &[u8]) -> Result<Predictor, Fail>
    requires { length settings.now < 100 }
{
    let config = read(alloc, settings)?;
    Ok(Predictor::make(alloc, &config)?)
}

fn instr(op: Op) -> Instr {
    Instr {
        src2: Src2::Reg(0),
        disp: 0,
        trap: 0,
        op,
        rd: 0,
        rs1: 0,
        cond: 0,
        mask: 0,
        extended: false,
        annul: false,
        hint: false,
    }
}

fn bicc(cond: u8, disp: i64) -> Instr {
    Instr {
        cond,
        disp,
        ..instr(Op::Bicc)
    }
}

// BPcc and BPr. Their displacement would have Bicc go the other way than the prediction bit.
fn hinted(op: Op, cond: u8, hint: bool) -> Instr {
    Instr {
        cond,
        hint,
        disp: if hint { 64 } else { -64 },
        ..instr(op)
    }
}

fn jmpl(rd: u8, rs1: u8) -> Instr {
    Instr {
        rd,
        rs1,
        ..instr(Op::Jmpl)
    }
}

fn guess(rt: &impl Abort, predictor: &mut Predictor, pc: u64, i: &Instr) -> Guess {
    assert!(rt; predictor.mark() < u64::MAX);
    predictor.guess(pc, i)
}

// Calls at these addresses push addresses that lie 8 behind them.
fn call_at(rt: &impl Abort, predictor: &mut Predictor, pcs: &[u64]) {
    for pc in pcs {
        assert!(rt; guess(rt, predictor, *pc, &instr(Op::Call)) == Guess::Taken);
    }
}

// Returns go to these addresses, and then nothing is known.
fn check_returns(rt: &impl Abort, predictor: &mut Predictor, addresses: &[u64]) {
    for address in addresses {
        let found = guess(rt, predictor, PC, &instr(Op::Return));
        assert!(rt; found == Guess::Target(*address));
    }
    assert!(rt; guess(rt, predictor, PC, &instr(Op::Return)) == Guess::Unknown);
}

#[test]
fn static_branches_go_by_the_instruction(rt: HostRuntime) -> Result<(), Fail> {
    let mut predictor = made(rt.alloc(), STATIC)?;
    let rows = [
        (bicc(8, 64), Guess::Taken),
        (bicc(0, -64), Guess::NotTaken),
        (bicc(1, -4), Guess::Taken),
        (bicc(1, 0), Guess::NotTaken),
        (bicc(15, 4), Guess::NotTaken),
        (hinted(Op::BPcc, 8, false), Guess::Taken),
        (hinted(Op::BPcc, 0, true), Guess::NotTaken),
        (hinted(Op::BPcc, 9, true), Guess::Taken),
        (hinted(Op::BPcc, 9, false), Guess::NotTaken),
        (hinted(Op::BPr, 1, true), Guess::Taken),
        (hinted(Op::BPr, 1, false), Guess::NotTaken),
        // The register conditions are others: none of them goes always, or never.
        (hinted(Op::BPr, 0, true), Guess::Taken),
        (hinted(Op::BPr, 8, false), Guess::NotTaken),
        (instr(Op::Add), Guess::NotTaken),
        (instr(Op::Trap), Guess::NotTaken),
    ];
    for &taken in &[false, true] {
        for (row, (i, wanted)) in rows.iter().enumerate() {
            assert!(rt; guess(&rt, &mut predictor, PC, i) == *wanted, "row {row}");
            predictor.learn(PC, taken);
        }
    }
    Ok(())
}

#[test]
fn branches_that_may_go_either_way_are_learnt(rt: HostRuntime) -> Result<(), Fail> {
    let rows = [
        (bicc(8, 64), false),
        (bicc(0, 64), false),
        (bicc(1, 64), true),
        (bicc(15, -4), true),
        (hinted(Op::BPcc, 8, true), false),
        (hinted(Op::BPcc, 0, true), false),
        (hinted(Op::BPcc, 9, false), true),
        // Under the conditions of BPr a register is looked at, also under 0 and 8.
        (hinted(Op::BPr, 0, false), true),
        (hinted(Op::BPr, 8, true), true),
        (instr(Op::Call), false),
        (jmpl(0, 15), false),
        (instr(Op::Return), false),
        (instr(Op::Add), false),
    ];
    for (k, (i, want)) in rows.iter().enumerate() {
        assert!(rt; learns(i) == *want, "row {k}");
    }
    Ok(())
}

#[test]
fn counters_go_from_0_to_3_and_back(rt: HostRuntime) -> Result<(), Fail> {
    let mut predictor = made(rt.alloc(), TWO_BIT)?;
    let (forth, back) = (hinted(Op::BPcc, 9, false), bicc(9, -64));
    assert!(rt; guess(&rt, &mut predictor, PC, &back) == Guess::NotTaken);
    // The counter is 1 at first, and after these 2, 3, 3, 2, 1, 0, 0, 1, 2.
    let lessons = [
        (true, Guess::Taken),
        (true, Guess::Taken),
        (true, Guess::Taken),
        (false, Guess::Taken),
        (false, Guess::NotTaken),
        (false, Guess::NotTaken),
        (false, Guess::NotTaken),
        (true, Guess::NotTaken),
        (true, Guess::Taken),
    ];
    for (lesson, (taken, wanted)) in lessons.iter().enumerate() {
        predictor.learn(PC, *taken);
        for &i in &[forth, back, hinted(Op::BPr, 0, false)] {
            assert!(rt;
                guess(&rt, &mut predictor, PC, &i) == *wanted,
                "lesson {lesson}"
            );
        }
        assert!(rt; guess(&rt, &mut predictor, PC, &bicc(0, -64)) == Guess::NotTaken);
        assert!(rt; guess(&rt, &mut predictor, PC, &bicc(8, 64)) == Guess::Taken);
    }
    Ok(())
}

#[test]
fn branches_64_bytes_apart_share_one_of_16_counters(rt: HostRuntime) -> Result<(), Fail> {
    let mut predictor = made(rt.alloc(), TWO_BIT)?;
    let branch = bicc(9, 64);
    predictor.learn(PC, true);
    for &pc in &[PC, PC + 64, PC - 128, PC + 3, u64::MAX - 59] {
        assert!(rt;
            guess(&rt, &mut predictor, pc, &branch) == Guess::Taken,
            "at {pc}"
        );
    }
    for &pc in &[PC + 4, PC - 4, PC + 32, 0, u64::MAX] {
        assert!(rt;
            guess(&rt, &mut predictor, pc, &branch) == Guess::NotTaken,
            "at {pc}"
        );
    }
    predictor.learn(PC + 64, false);
    assert!(rt; guess(&rt, &mut predictor, PC, &branch) == Guess::NotTaken);
    Ok(())
}

#[test]
fn calls_push_and_returns_pop(rt: HostRuntime) -> Result<(), Fail> {
    let steps = [
        (90, jmpl(0, 15), Guess::Unknown),
        (100, instr(Op::Call), Guess::Taken),
        // A JMPL to %o7 is a call, also where it goes by a return address.
        (200, jmpl(15, 15), Guess::Unknown),
        // These are neither a call nor a return.
        (300, jmpl(0, 1), Guess::Unknown),
        (300, jmpl(0, 0), Guess::Unknown),
        (300, jmpl(1, 15), Guess::Unknown),
        (300, jmpl(31, 31), Guess::Unknown),
        (300, jmpl(14, 31), Guess::Unknown),
        (300, instr(Op::Restore), Guess::NotTaken),
        (400, jmpl(0, 31), Guess::Target(208)),
        (400, jmpl(0, 15), Guess::Target(108)),
        (400, instr(Op::Return), Guess::Unknown),
        // Behind the last words of memory come the first.
        (u64::MAX - 3, instr(Op::Call), Guess::Taken),
        (u64::MAX - 7, instr(Op::Call), Guess::Taken),
        (400, instr(Op::Return), Guess::Target(0)),
        (400, instr(Op::Return), Guess::Target(4)),
        (400, jmpl(0, 31), Guess::Unknown),
    ];
    for &settings in &[STATIC, TWO_BIT] {
        let mut predictor = made(rt.alloc(), settings)?;
        for (step, (pc, i, wanted)) in steps.iter().enumerate() {
            assert!(rt;
                guess(&rt, &mut predictor, *pc, i) == *wanted,
                "step {step}"
            );
        }
        assert!(rt; predictor.mark() == 4);
    }
    Ok(())
}

#[test]
fn a_push_on_a_full_stack_drops_the_oldest(rt: HostRuntime) -> Result<(), Fail> {
    let mut predictor = made(rt.alloc(), STATIC)?;
    call_at(&rt, &mut predictor, &[100, 200, 300]);
    check_returns(&rt, &mut predictor, &[308, 208]);
    call_at(&rt, &mut predictor, &[400, 500, 600, 700]);
    assert!(rt; predictor.mark() == 7);
    check_returns(&rt, &mut predictor, &[708, 608]);
    Ok(())
}

#[test]
fn a_squash_drops_what_was_pushed_since(rt: HostRuntime) -> Result<(), Fail> {
    let mut predictor = made(rt.alloc(), TWO_BIT)?;
    // Of pushes 0 and 1 the first stays.
    call_at(&rt, &mut predictor, &[100, 200]);
    predictor.back_to(2);
    predictor.back_to(1);
    assert!(rt; predictor.mark() == 2);
    check_returns(&rt, &mut predictor, &[108]);
    // Push 3 was popped, and does not come back; push 4 took its place.
    call_at(&rt, &mut predictor, &[300, 400]);
    assert!(rt; guess(&rt, &mut predictor, PC, &instr(Op::Return)) == Guess::Target(408));
    call_at(&rt, &mut predictor, &[500]);
    predictor.back_to(4);
    check_returns(&rt, &mut predictor, &[308]);
    // Pushes 5 and 6 were overwritten by 7 and 8.
    call_at(&rt, &mut predictor, &[600, 700, 800, 900]);
    predictor.back_to(8);
    check_returns(&rt, &mut predictor, &[808]);
    call_at(&rt, &mut predictor, &[600, 700, 800, 900]);
    predictor.back_to(11);
    check_returns(&rt, &mut predictor, &[]);
    predictor.back_to(0);
    assert!(rt; predictor.mark() == 13);
    Ok(())
}

// What is expected: counters, and the numbers and addresses of the pushes that stand.
#[derive(Drop)]
struct Expected {
    counters: [i32; 16],
    stack: Vec<(u64, u64)>,
    pushes: u64,
}

// The calls of the script.
#[derive(Clone, Copy)]
enum Call {
    Guess(Instr),
    Learn(bool),
    BackTo(u64),
}

fn call_of(mixed: u64, mark: u64) -> Call {
    match mixed % 11 {
        0 | 1 => Call::Guess(instr(Op::Call)),
        2 => Call::Guess(jmpl(15, 3)),
        3 => Call::Guess(instr(Op::Return)),
        4 => Call::Guess(jmpl(0, 31)),
        5 | 6 => Call::Guess(bicc((mixed / 16 % 4) as u8, 64)),
        7 | 8 => Call::Learn(true),
        9 => Call::Learn(false),
        _ => Call::BackTo(mark.saturating_sub(mixed / 16 % 4)),
    }
}

fn called(rt: &impl Abort, predictor: &mut Predictor, pc: u64, call: Call) -> Option<Guess> {
    match call {
        Call::Guess(i) => return Some(guess(rt, predictor, pc, &i)),
        Call::Learn(taken) => predictor.learn(pc, taken),
        Call::BackTo(mark) => predictor.back_to(mark),
    }
    None
}

impl Expected {
    fn push(&mut self, pc: u64) -> Result<(), AllocError> {
        if self.stack.len() == 3 {
            self.stack.remove(0);
        }
        self.stack.push((self.pushes, pc.wrapping_add(8)))?;
        self.pushes = self.pushes.wrapping_add(1);
        Ok(())
    }

    fn guess(&mut self, pc: u64, i: &Instr) -> Result<Guess, AllocError> {
        let known = match i.op {
            Op::Bicc if i.cond == 0 => Guess::NotTaken,
            Op::Bicc if self.counters[(pc / 4 % 16) as usize] >= 2 => Guess::Taken,
            Op::Bicc => Guess::NotTaken,
            Op::Call => {
                self.push(pc)?;
                Guess::Taken
            }
            Op::Jmpl if i.rd == 15 => {
                self.push(pc)?;
                Guess::Unknown
            }
            _ => self
                .stack
                .pop()
                .map_or(Guess::Unknown, |top| Guess::Target(top.1)),
        };
        Ok(known)
    }

    fn called(&mut self, pc: u64, call: Call) -> Result<Option<Guess>, AllocError> {
        match call {
            Call::Guess(i) => return Ok(Some(self.guess(pc, &i)?)),
            Call::Learn(taken) => {
                let counter = &mut self.counters[(pc / 4 % 16) as usize];
                let step = if taken { 1 } else { -1 };
                *counter = counter.saturating_add(step).clamp(0, 3);
            }
            Call::BackTo(mark) => self.stack.retain(|top| top.0 < mark),
        }
        Ok(None)
    }
}

#[test]
fn a_script_answers_as_plain_lists_do(rt: HostRuntime) -> Result<(), Fail> {
    let settings = b"predictor two_bit\npredictor_size 16\nreturn_stack 3\n";
    let mut predictor = made(rt.alloc(), settings)?;
    let mut all = Expected {
        counters: [1; 16],
        stack: Vec::new(rt.alloc()),
        pushes: 0,
    };
    let mut mixed = 1u64;
    for step in 0..600u32 {
        mixed = mixed
            .wrapping_mul(6_364_136_223_846_793_005)
            .wrapping_add(1);
        let (pc, call) = (mixed >> 60 << 2, call_of(mixed >> 33, predictor.mark()));
        let wanted = all.called(pc, call)?;
        assert!(rt;
            called(&rt, &mut predictor, pc, call) == wanted,
            "step {step}"
        );
        assert!(rt; predictor.mark() == all.pushes, "step {step}");
    }
    Ok(())
}
