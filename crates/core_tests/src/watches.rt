//! Each call at its edges, and a script of calls against a plain `Vec`.

use memory_contracts::LostList;
use rsim_base::{Line, Node};
use settle_watch::{SettleWatch, loads_stand_in_order};
use std::alloc::AllocFailed;
use std::test::Fail;

const SIZE: u32 = 5;

const HERE: Node = Node(2);

const ELSEWHERE: Node = Node(3);

fn lost_of(lines: &[(Node, u64)]) -> Result<LostList, Fail> {
    let mut lost = LostList::new();
    for (p, line) in lines {
        lost.try_push((*p, Line(*line)))?;
    }
    Ok(lost)
}

// The number of the oldest load that these losses of node 2 strike.
fn struck(watch: &SettleWatch, lines: &[(Node, u64)]) -> Result<Option<u64>, Fail> {
    Ok(watch.victims(HERE, &lost_of(lines)?))
}

// A load that is bound.
#[derive(Clone, Copy)]
struct Watched {
    seq: u64,
    line: Line,
    // Whether its value came from a store that is not performed yet.
    from_store: bool,
}

// A load that was watched, and whether it still is.
#[derive(Clone, Copy)]
struct Mark {
    load: Watched,
    is_watched: bool,
}

// The plain list: what each call is to do, written without regard to time. Nothing leaves it.
#[derive(Drop)]
struct Plain {
    marks: Vec<Mark>,
}

impl Plain {
    fn watch(&mut self, load: Watched) -> Result<bool, AllocFailed<Mark>> {
        let count = self.marks.iter().filter(|mark| mark.is_watched).count();
        if count < SIZE as usize {
            self.marks.push(Mark {
                load,
                is_watched: true,
            })?;
        }
        Ok(count < SIZE as usize)
    }

    fn store_gone(&mut self, seq: u64) {
        for mark in self.marks.iter_mut() {
            mark.load.from_store = mark.load.from_store && mark.load.seq != seq;
        }
    }

    fn settle(&mut self, seq: u64) {
        for mark in self.marks.iter_mut() {
            mark.is_watched = mark.is_watched && mark.load.seq != seq;
        }
    }

    fn cut_after(&mut self, seq: u64) {
        for mark in self.marks.iter_mut() {
            mark.is_watched = mark.is_watched && mark.load.seq <= seq;
        }
    }

    fn struck(&self, lines: &[(Node, u64)]) -> Option<u64> {
        let mut oldest = None;
        for mark in self.marks.iter() {
            let load = mark.load;
            let is_lost = lines
                .iter()
                .any(|(p, line)| p.0 == HERE.0 && *line == load.line.0);
            let is_older = oldest.is_none_or(|seq| load.seq < seq);
            if mark.is_watched && !load.from_store && is_lost && is_older {
                oldest = Some(load.seq);
            }
        }
        oldest
    }
}

// Whether the same loads are struck, by each line and by two of them.
fn agree(watch: &SettleWatch, plain: &Plain) -> Result<bool, Fail> {
    for line in 0..3 {
        for losses in &[
            [(HERE, line), (ELSEWHERE, 0)],
            [(ELSEWHERE, line), (HERE, 3)],
            [(HERE, line), (HERE, (line + 1) % 3)],
        ] {
            if struck(watch, losses.as_slice())? != plain.struck(losses.as_slice()) {
                return Ok(false);
            }
        }
    }
    Ok(true)
}

// Makes a call on both, and says whether they answer alike. The call is chosen by the number `mixed`.
fn call_both(
    watch: &mut SettleWatch,
    plain: &mut Plain,
    mixed: u64,
    line: Line,
) -> Result<bool, Fail> {
    let seq = mixed / 8 % 9;
    match mixed % 8 {
        0..=3 => {
            let from_store = mixed % 3 == 0;
            let load = Watched {
                seq,
                line,
                from_store,
            };
            return Ok(watch.watch(seq, line, from_store) == plain.watch(load)?);
        }
        4 => {
            watch.store_gone(seq);
            plain.store_gone(seq);
        }
        5 | 6 => {
            watch.settle(seq);
            plain.settle(seq);
        }
        _ => {
            watch.cut_after(seq);
            plain.cut_after(seq);
        }
    }
    Ok(true)
}

#[test]
fn a_script_answers_as_a_plain_list_does(rt: HostRuntime) -> Result<(), Fail> {
    let mut watch = SettleWatch::make(rt.alloc(), SIZE)?;
    let mut plain = Plain {
        marks: Vec::new(rt.alloc()),
    };
    for step in 0..300u64 {
        let mixed = (288 * step + 59) % 307;
        let alike = call_both(&mut watch, &mut plain, mixed, Line(step % 3))?;
        assert!(rt; alike, "step {step}");
        assert!(rt; agree(&watch, &plain)?, "step {step}");
    }
    Ok(())
}

#[test]
fn a_full_watch_takes_no_load(rt: HostRuntime) -> Result<(), Fail> {
    let mut none = SettleWatch::make(rt.alloc(), 0)?;
    assert!(rt; !none.watch(7, Line(5), false));
    assert!(rt; struck(&none, &[(HERE, 5)])? == None);
    let mut watch = SettleWatch::make(rt.alloc(), 2)?;
    assert!(rt; watch.watch(7, Line(5), false));
    assert!(rt; watch.watch(8, Line(6), false));
    assert!(rt; !watch.watch(9, Line(9), false));
    assert!(rt; struck(&watch, &[(HERE, 9)])? == None);
    watch.settle(7);
    assert!(rt; watch.watch(9, Line(9), false));
    assert!(rt; struck(&watch, &[(HERE, 5)])? == None);
    assert!(rt; struck(&watch, &[(HERE, 6)])? == Some(8));
    assert!(rt; struck(&watch, &[(HERE, 9)])? == Some(9));
    Ok(())
}

#[test]
fn only_lines_that_the_node_has_lost_strike(rt: HostRuntime) -> Result<(), Fail> {
    let mut watch = SettleWatch::make(rt.alloc(), SIZE)?;
    assert!(rt; struck(&watch, &[(HERE, 5)])? == None);
    assert!(rt; watch.watch(7, Line(5), false));
    assert!(rt; struck(&watch, &[])? == None);
    assert!(rt; struck(&watch, &[(ELSEWHERE, 5)])? == None);
    assert!(rt; struck(&watch, &[(HERE, 6)])? == None);
    assert!(rt; struck(&watch, &[(HERE, 6), (ELSEWHERE, 5)])? == None);
    assert!(rt; struck(&watch, &[(HERE, 6), (ELSEWHERE, 5), (HERE, 5)])? == Some(7));
    assert!(rt; watch.victims(ELSEWHERE, &lost_of(&[(ELSEWHERE, 5)])?) == Some(7));
    Ok(())
}

#[test]
fn a_load_from_a_store_is_struck_once_the_store_is_gone(rt: HostRuntime) -> Result<(), Fail> {
    let mut watch = SettleWatch::make(rt.alloc(), SIZE)?;
    assert!(rt; watch.watch(7, Line(5), true));
    assert!(rt; struck(&watch, &[(HERE, 5)])? == None);
    watch.store_gone(8);
    assert!(rt; struck(&watch, &[(HERE, 5)])? == None);
    watch.store_gone(7);
    assert!(rt; struck(&watch, &[(HERE, 5)])? == Some(7));
    watch.store_gone(7);
    assert!(rt; struck(&watch, &[(HERE, 5)])? == Some(7));
    watch.settle(8);
    assert!(rt; struck(&watch, &[(HERE, 5)])? == Some(7));
    watch.settle(7);
    assert!(rt; struck(&watch, &[(HERE, 5)])? == None);
    Ok(())
}

#[test]
fn the_oldest_is_struck_though_it_was_bound_later(rt: HostRuntime) -> Result<(), Fail> {
    loads_stand_in_order();
    let mut watch = SettleWatch::make(rt.alloc(), SIZE)?;
    assert!(rt; watch.watch(9, Line(5), false));
    assert!(rt; watch.watch(4, Line(6), false));
    assert!(rt; watch.watch(6, Line(5), false));
    assert!(rt; struck(&watch, &[(HERE, 5), (HERE, 6)])? == Some(4));
    assert!(rt; struck(&watch, &[(HERE, 5)])? == Some(6));
    watch.settle(4);
    assert!(rt; struck(&watch, &[(HERE, 5), (HERE, 6)])? == Some(6));
    watch.settle(6);
    assert!(rt; struck(&watch, &[(HERE, 5), (HERE, 6)])? == Some(9));
    Ok(())
}

#[test]
fn a_cut_spares_the_number_itself(rt: HostRuntime) -> Result<(), Fail> {
    let mut watch = SettleWatch::make(rt.alloc(), 3)?;
    for &seq in &[5, 6, 4] {
        assert!(rt; watch.watch(seq, Line(seq), false));
    }
    watch.cut_after(u64::MAX);
    assert!(rt; struck(&watch, &[(HERE, 6)])? == Some(6));
    watch.cut_after(5);
    assert!(rt; struck(&watch, &[(HERE, 6)])? == None);
    assert!(rt; struck(&watch, &[(HERE, 5)])? == Some(5));
    assert!(rt; struck(&watch, &[(HERE, 4)])? == Some(4));
    assert!(rt; watch.watch(0, Line(0), false));
    watch.cut_after(0);
    assert!(rt; struck(&watch, &[(HERE, 4), (HERE, 5)])? == None);
    assert!(rt; struck(&watch, &[(HERE, 0)])? == Some(0));
    Ok(())
}
