// A script of calls against plain arrays, and each call at its edge.

ghost use Rattle.std.specs.Prelude.{◌<◌};

use miss_registers::MissRegisters;
use rsim_base::{Line, NoneFree};
use std::test::Fail;

const LINES: usize = 5;

const COUNT: u32 = 3;

// What is expected: by line the register and whether it asks to own, and the slot with the byte that fills it.
#[derive(Drop)]
struct Expected {
    registers: [Option<bool>; LINES],
    victims: [Option<Option<u8>>; LINES],
}

fn line(place: usize) -> Line {
    Line(u64::MAX - place as u64)
}

// What begin answers, or None for a line that has a register.
fn begin(misses: &mut MissRegisters, line: Line, own: bool) -> Option<Result<(), NoneFree>> {
    if misses.merge(line, false) {
        return None;
    }
    Some(misses.begin(line, own))
}

// What keep_victim answers, or None for a line that has a slot.
fn keep(misses: &mut MissRegisters, line: Line, byte: u8) -> Option<Result<(), NoneFree>> {
    if misses.has_slot(line) {
        return None;
    }
    Some(misses.keep_victim(line, &[byte; 128]))
}

// Puts an entry in a free place of an array in which COUNT are used at most.
fn put<T: Copy>(places: &mut [Option<T>], place: usize, entry: T) -> Option<Result<(), NoneFree>> {
    if places.get(place)?.is_some() {
        return None;
    }
    if places.iter().filter(|p| p.is_some()).count() == COUNT as usize {
        return Some(Err(NoneFree));
    }
    places[place] = Some(entry);
    Some(Ok(()))
}

// What a call of the script answers, where it is made.
#[derive(Clone, Copy, PartialEq, Eq)]
enum Answer {
    Place(Option<Result<(), NoneFree>>),
    Found(bool),
}

// A call of the script, by its number.
fn called(misses: &mut MissRegisters, call: u64, line: Line, byte: u8) -> Answer {
    match call {
        0 => Answer::Place(begin(misses, line, false)),
        1 => Answer::Place(begin(misses, line, true)),
        2 | 3 => Answer::Found(misses.close(line)),
        4 | 5 => Answer::Place(keep(misses, line, byte)),
        6 => Answer::Found(misses.empty_victim(line)),
        _ => Answer::Found(misses.free_victim(line)),
    }
}

impl Expected {
    // The same call here.
    fn called(&mut self, call: u64, place: usize, byte: u8) -> Answer
        requires { place < LINES }
    {
        match call {
            0 => Answer::Place(put(&mut self.registers, place, false)),
            1 => Answer::Place(put(&mut self.registers, place, true)),
            2 | 3 => Answer::Found(self.registers[place].take().is_some()),
            4 | 5 => Answer::Place(put(&mut self.victims, place, Some(byte))),
            6 => {
                let slot = self.victims[place];
                self.victims[place] = slot.map(|_| None);
                Answer::Found(slot.is_some())
            }
            _ => Answer::Found(self.victims[place].take().is_some()),
        }
    }
}

// Whether every line is as expected.
fn agree(misses: &MissRegisters, all: &Expected) -> bool {
    (0..LINES).all(|place| {
        let line = line(place);
        let bytes = all.victims[place].flatten().map(|byte| [byte; 128]);
        misses.merge(line, false) == all.registers[place].is_some()
            && misses.merge(line, true) == (all.registers[place] == Some(true))
            && misses.has_slot(line) == all.victims[place].is_some()
            && misses.victim(line).copied() == bytes
    })
}

// The script has each call with each of its answers three times or more, and fills both tables.
#[test]
fn a_script_answers_as_arrays_do(rt: HostRuntime) -> Result<(), Fail> {
    let mut misses = MissRegisters::make(rt.alloc(), COUNT)?;
    let mut all = Expected {
        registers: [None; LINES],
        victims: [None; LINES],
    };
    for step in 0..100u64 {
        let mixed = (9 * step + 1) % 97;
        let place = (mixed / 8 % 5) as usize;
        let answer = called(&mut misses, mixed % 8, line(place), step as u8);
        assert!(rt;
            answer == all.called(mixed % 8, place, step as u8),
            "step {step}"
        );
        assert!(rt; agree(&misses, &all), "step {step}");
    }
    Ok(())
}

#[test]
fn one_register_is_refused_merged_and_closed(rt: HostRuntime) -> Result<(), Fail> {
    let (x, y) = (Line(7), Line(8));
    let mut misses = MissRegisters::make(rt.alloc(), 1)?;
    assert!(rt; !misses.close(x));
    assert!(rt; begin(&mut misses, x, false) == Some(Ok(())));
    assert!(rt; (misses.merge(x, false), misses.merge(x, true)) == (true, false));
    assert!(rt; begin(&mut misses, y, true) == Some(Err(NoneFree)));
    assert!(rt; (misses.merge(y, false), misses.close(y)) == (false, false));
    assert!(rt; (misses.close(x), misses.close(x)) == (true, false));
    assert!(rt; begin(&mut misses, y, true) == Some(Ok(())));
    assert!(rt; (misses.merge(y, false), misses.merge(y, true)) == (true, true));
    let mut none = MissRegisters::make(rt.alloc(), 0)?;
    assert!(rt; begin(&mut none, x, false) == Some(Err(NoneFree)));
    assert!(rt; keep(&mut none, x, 1) == Some(Err(NoneFree)));
    Ok(())
}

#[test]
fn one_slot_is_kept_emptied_and_freed(rt: HostRuntime) -> Result<(), Fail> {
    let (x, y) = (Line(7), Line(8));
    let mut misses = MissRegisters::make(rt.alloc(), 1)?;
    assert!(rt; (misses.empty_victim(x), misses.free_victim(x)) == (false, false));
    assert!(rt; keep(&mut misses, x, 9) == Some(Ok(())));
    assert!(rt; misses.victim(x).copied() == Some([9; 128]));
    assert!(rt; (misses.has_slot(x), misses.has_slot(y)) == (true, false));
    assert!(rt; keep(&mut misses, y, 3) == Some(Err(NoneFree)));
    assert!(rt; misses.empty_victim(x));
    assert!(rt; misses.victim(x).copied() == None);
    assert!(rt; misses.has_slot(x));
    assert!(rt; keep(&mut misses, y, 3) == Some(Err(NoneFree)));
    assert!(rt; misses.empty_victim(x));
    assert!(rt; (misses.free_victim(x), misses.free_victim(x)) == (true, false));
    assert!(rt; (misses.has_slot(x), misses.empty_victim(x)) == (false, false));
    assert!(rt; keep(&mut misses, y, 3) == Some(Ok(())));
    assert!(rt; misses.victim(y).copied() == Some([3; 128]));
    Ok(())
}
