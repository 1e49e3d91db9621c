// Cases of processors that count together, by atomics of which some fail.
use crate::executables::linked;
use crate::fields::{field, halves};
use crate::left::Left;
use crate::outcome::Outcome;
use crate::runs::found;
use crate::setting::Setting;
use anyhow::Result;
use std::alloc::Global;
use std::fmt::Write;

/// `PROCESSORS TIMES | SETTING | CODE`: each of the processors raises the doubleword at 0x200000 by one so many times,
/// from 0 on and by compare and swap, and exits with the last number that it has put there.
pub fn count(alloc: Global, case: &str) -> Result<Outcome> {
    let (numbers, case) = field(case);
    let (setting, code) = field(case);
    let (processors, times) = halves(numbers);
    let processors = processors.parse::<usize>()?;
    let times = times.parse::<u64>()?;
    let file = linked(alloc, code, "")?;
    let left = found(alloc, Setting::read(setting), &file)?;
    Ok(Outcome {
        wanted: wanted_text(alloc, processors, times)?,
        found: found_text(alloc, processors, &left)?,
    })
}

fn wanted_text(alloc: Global, processors: usize, times: u64) -> Result<String> {
    let last = times.saturating_mul(processors as u64);
    let raises = Raises {
        number: last,
        by_processor: vec![in alloc; times; processors]?,
        odd: 0,
    };
    let exits = Exits {
        count: processors,
        greatest: last,
    };
    text(alloc, &raises, exits, true)
}

fn found_text(alloc: Global, processors: usize, left: &Left) -> Result<String> {
    let raises = Raises::of(alloc, processors, left.order.as_str())?;
    let exits = Exits::of(left.report.as_str())?;
    text(alloc, &raises, exits, is_accepted(alloc, left)?)
}

fn text(alloc: Global, raises: &Raises, exits: Exits, accepted: bool) -> Result<String> {
    let mut text = format!(in alloc; "raised to {} by", raises.number)?;
    for times in &raises.by_processor {
        write!(text, " {times}")?;
    }
    write!(
        text,
        ", {} odd accesses, {} exits, the greatest {}, accepted {accepted}",
        raises.odd, exits.count, exits.greatest
    )?;
    Ok(text)
}

// Whether the order is accepted, with the steps that the answer tells and with all its accesses.
fn is_accepted(alloc: Global, left: &Left) -> Result<bool> {
    let (_, numbers) = halves(left.answer.as_str());
    let (_, steps) = halves(numbers);
    let accesses = left.accesses();
    Ok(left.verdict == format!(in alloc; "accepted {steps} {accesses}")?)
}

// How a number that is 0 at first is raised by the atomics of an order.
#[derive(Drop)]
struct Raises {
    number: u64,
    // How often each processor has raised it by one.
    by_processor: Vec<u64>,
    // Atomics that find another number, or leave one that is neither it nor the next.
    odd: u64,
}

impl Raises {
    fn of(alloc: Global, processors: usize, order: &str) -> Result<Raises> {
        let mut raises = Raises {
            number: 0,
            by_processor: vec![in alloc; 0u64; processors]?,
            odd: 0,
        };
        for line in order.lines() {
            if let Some(atomic) = Atomic::read(line) {
                raises.follow(atomic);
            }
        }
        Ok(raises)
    }

    fn follow(&mut self, atomic: Atomic) {
        let is_next = atomic.stored == self.number.saturating_add(1);
        match self.by_processor.get_mut(atomic.processor) {
            Some(times) if atomic.loaded == self.number && is_next => {
                *times = times.saturating_add(1);
                self.number = atomic.stored;
            }
            Some(_) if atomic.loaded == self.number && atomic.stored == self.number => {}
            _ => self.odd = self.odd.saturating_add(1),
        }
    }
}

// A compare and swap of the doubleword that is counted in.
#[derive(Clone, Copy)]
struct Atomic {
    processor: usize,
    loaded: u64,
    stored: u64,
}

impl Atomic {
    // The one of a line of an order, if it is the line of one.
    fn read(line: &str) -> Option<Atomic> {
        let (access, values) = line.split_once(" A 8 0000000000200000 ")?;
        let (processor, _) = halves(access);
        let (loaded, stored) = values.split_once(' ')?;
        Some(Atomic {
            processor: processor.parse::<usize>().ok()?,
            loaded: u64::from_str_radix(loaded, 16).ok()?,
            stored: u64::from_str_radix(stored, 16).ok()?,
        })
    }
}

// The processors of a report that exited, and the greatest status of them.
#[derive(Clone, Copy)]
struct Exits {
    count: usize,
    greatest: u64,
}

impl Exits {
    fn of(report: &str) -> Result<Exits> {
        let mut exits = Exits {
            count: 0,
            greatest: 0,
        };
        for line in report.lines() {
            if let Some((_, status)) = line.split_once(" exit ") {
                exits.count = exits.count.saturating_add(1);
                exits.greatest = exits.greatest.max(status.parse::<u64>()?);
            }
        }
        Ok(exits)
    }
}
