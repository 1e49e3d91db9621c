//! Each call at its edges, and a script of calls against a plain `Vec`.

use active_list::{ActiveList, Flight, Phase, numbers_have_no_gaps, youngest_are_behind};
use order_axioms::Fences;
use rsim_base::{ArchReg, Pair, PhysReg, Renamed, Window};
use sparc_decode::{Instr, Op, Src2};
use sparc_meaning::{Computed, End};
use std::alloc::AllocFailed;
use std::test::Fail;

const SIZE: u32 = 3;

// ADD %g1, %g2, %g3
const ADD: Instr = Instr {
    src2: Src2::Reg(2),
    disp: 0,
    trap: 0,
    op: Op::Add,
    rd: 3,
    rs1: 1,
    cond: 0,
    mask: 0,
    extended: false,
    annul: false,
    hint: false,
};

// That addition, as the core makes it: the number tells it from others.
fn flight(seq: u64) -> Flight {
    let written = Renamed {
        reg: ArchReg(3),
        new: PhysReg(200),
        old: PhysReg(3),
    };
    Flight {
        seq,
        pc: 0x1000,
        npc: 0x1004,
        micro: None,
        window: Window {
            cwp: 2,
            cansave: 5,
            canrestore: 1,
        },
        instr: ADD,
        guess: Some(Pair {
            pc: 0x1004,
            npc: 0x1008,
        }),
        mark: 0,
        sources: [Some(PhysReg(1)), Some(PhysReg(2)), None, None, None],
        phase: Phase::Waiting,
        done: None,
        loaded: None,
        ready: None,
        settled: false,
        fences: Fences {
            ll: 0,
            sl: 0,
            ls: 0,
            ss: 0,
        },
        index: None,
        taken: [Some(written), None, None],
    }
}

// What that addition computes, where this is the sum.
fn added(value: u64) -> Computed {
    Computed {
        end: End::Running,
        addr: 0,
        next: Pair {
            pc: 0x1004,
            npc: 0x1008,
        },
        taken: false,
        out: None,
        value,
        cc: 0,
        y: 0,
    }
}

// The entry is finished with this value, if it is there.
fn finish(list: &mut ActiveList, k: u32, value: u64) -> bool {
    let Some(f) = list.at_mut(k) else {
        return false;
    };
    f.phase = Phase::Finished;
    f.done = Some(added(value));
    true
}

// The plain list: what each call is to do, written without regard to time.
#[derive(Drop)]
struct Plain {
    entries: Vec<Flight>,
}

impl Plain {
    fn push(&mut self, f: Flight) -> Result<Result<(), Flight>, AllocFailed<Flight>> {
        if self.entries.len() == SIZE as usize {
            return Ok(Err(f));
        }
        self.entries.push(f)?;
        Ok(Ok(()))
    }

    fn finish(&mut self, k: u32, value: u64) -> bool {
        let Some(f) = self.entries.get_mut(k as usize) else {
            return false;
        };
        f.phase = Phase::Finished;
        f.done = Some(added(value));
        true
    }

    fn retire(&mut self) -> Option<Flight> {
        if self.entries.is_empty() {
            return None;
        }
        Some(self.entries.remove(0))
    }

    fn pop_after(&mut self, seq: u64) -> Option<Flight> {
        if self.entries.iter().all(|f| f.seq <= seq) {
            return None;
        }
        self.entries.pop()
    }
}

// Whether the list has just these entries.
fn agree(list: &ActiveList, plain: &[Flight]) -> bool {
    (0..SIZE + 2).all(|k| list.at(k).copied() == plain.get(k as usize).copied())
        && list.head().copied() == plain.first().copied()
        && list.len() as usize == plain.len()
        && list.has_place() == (plain.len() < SIZE as usize)
}

// Makes a call on both, and says whether they answer alike. The call is chosen by the number `mixed`, and `next` is the
// number of the next entry.
fn call_both(
    list: &mut ActiveList,
    plain: &mut Plain,
    mixed: u64,
    next: u64,
) -> Result<bool, Fail> {
    let k = (mixed / 8 % 7) as u32;
    Ok(match mixed % 8 {
        0..=2 => list.push(flight(next)) == plain.push(flight(next))?,
        3 | 4 => list.retire() == plain.retire(),
        5 | 6 => {
            let seq = next.saturating_sub(k as u64);
            list.pop_after(seq) == plain.pop_after(seq)
        }
        _ => finish(list, k, mixed) == plain.finish(k, mixed),
    })
}

// The script has each call with each of its answers ten times or more.
#[test]
fn a_script_answers_as_a_plain_list_does(rt: HostRuntime) -> Result<(), Fail> {
    youngest_are_behind();
    numbers_have_no_gaps();
    let mut list = ActiveList::make(rt.alloc(), SIZE)?;
    let mut plain = Plain {
        entries: Vec::new(rt.alloc()),
    };
    for step in 0..300u64 {
        let mixed = (288 * step + 59) % 307;
        let alike = call_both(&mut list, &mut plain, mixed, step)?;
        assert!(rt; alike, "step {step}");
        assert!(rt; agree(&list, plain.entries.as_slice()), "step {step}");
    }
    Ok(())
}

#[test]
fn a_full_list_hands_the_entry_back(rt: HostRuntime) -> Result<(), Fail> {
    let mut none = ActiveList::make(rt.alloc(), 0)?;
    assert!(rt; none.push(flight(7)) == Err(flight(7)));
    assert!(rt; none.head().copied() == None && none.len() == 0 && !none.has_place());
    let mut list = ActiveList::make(rt.alloc(), 2)?;
    assert!(rt; list.push(flight(7)) == Ok(()));
    assert!(rt; list.push(flight(8)) == Ok(()));
    assert!(rt; list.push(flight(9)) == Err(flight(9)));
    assert!(rt; list.head().copied() == Some(flight(7)));
    assert!(rt; list.retire() == Some(flight(7)));
    assert!(rt; list.push(flight(9)) == Ok(()));
    assert!(rt; list.at(0).copied() == Some(flight(8)));
    assert!(rt; list.at(1).copied() == Some(flight(9)));
    Ok(())
}

#[test]
fn nothing_stands_past_the_end(rt: HostRuntime) -> Result<(), Fail> {
    let mut list = ActiveList::make(rt.alloc(), 3)?;
    assert!(rt; list.at(0).copied() == None);
    assert!(rt; !finish(&mut list, 0, 1));
    assert!(rt; list.push(flight(7)) == Ok(()));
    assert!(rt; list.push(flight(8)) == Ok(()));
    for &k in &[2, 3, u32::MAX] {
        assert!(rt; list.at(k).copied() == None, "at {k}");
        assert!(rt; !finish(&mut list, k, 1), "at {k}");
    }
    assert!(rt; finish(&mut list, 1, 40));
    assert!(rt; list.at(0).copied() == Some(flight(7)));
    let second = list.at(1).copied().ok_or("it is there")?;
    assert!(rt; second.done == Some(added(40)));
    assert!(rt; second.seq == 8);
    Ok(())
}

#[test]
fn only_greater_numbers_are_taken_back(rt: HostRuntime) -> Result<(), Fail> {
    let mut list = ActiveList::make(rt.alloc(), 3)?;
    assert!(rt; list.retire() == None);
    assert!(rt; list.pop_after(0) == None);
    for &seq in &[0, 7, u64::MAX] {
        assert!(rt; list.push(flight(seq)) == Ok(()));
    }
    assert!(rt; list.pop_after(u64::MAX) == None);
    assert!(rt; list.pop_after(u64::MAX - 1) == Some(flight(u64::MAX)));
    assert!(rt; list.pop_after(7) == None);
    assert!(rt; list.pop_after(6) == Some(flight(7)));
    assert!(rt; list.pop_after(0) == None);
    assert!(rt; list.retire() == Some(flight(0)));
    assert!(rt; list.pop_after(0) == None);
    Ok(())
}
