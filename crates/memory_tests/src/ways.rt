// Which way a line takes, against a plain list of ways. No answer is taken from the code.

use cache_sets::{CacheSets, Reserved};
use rsim_base::Line;
use std::alloc::Global;
use std::process::Abort;
use std::test::Fail;

// A way, in a list of all ways, the most recently used first.
#[derive(Clone, Copy)]
struct PlainWay {
    slot: u32,
    line: Option<Line>,
    reserved: Option<Line>,
}

#[derive(Drop)]
struct Plain {
    sets: u64,
    by_set: u64,
    ways: Vec<PlainWay>,
}

impl Plain {
    fn new(alloc: Global, sets: u64, by_set: u64, slots: u32) -> Result<Plain, Fail> {
        let mut ways = Vec::new(alloc);
        for slot in 0..slots {
            ways.push(PlainWay {
                slot,
                line: None,
                reserved: None,
            })?;
        }
        Ok(Plain { sets, by_set, ways })
    }

    // Whether the way is one of the line's set.
    fn is_home(&self, way: &PlainWay, line: Line) -> bool {
        u64::from(way.slot).checked_div(self.by_set) == line.0.checked_rem(self.sets)
    }

    fn find(&self, line: Line) -> Option<u32> {
        self.ways
            .iter()
            .find(|way| way.line == Some(line))
            .map(|way| way.slot)
    }

    fn reserved(&self, line: Line) -> Option<u32> {
        self.ways
            .iter()
            .find(|way| way.reserved == Some(line))
            .map(|way| way.slot)
    }

    fn touch(&mut self, slot: u32) -> Result<(), Fail> {
        if let Some(at) = self.ways.iter().position(|way| way.slot == slot)
            && at < self.ways.len()
        {
            let way = self.ways.remove(at);
            self.ways.insert(0, way)?;
        }
        Ok(())
    }

    fn change(&mut self, slot: u32, line: Option<Line>, reserved: Option<Line>) {
        for way in self.ways.iter_mut() {
            if way.slot == slot {
                *way = PlainWay {
                    slot,
                    line,
                    reserved,
                };
            }
        }
    }

    fn reserve(&mut self, line: Line) -> Option<Reserved> {
        let mut room = None;
        for way in &self.ways {
            if self.is_home(way, line) && way.reserved.is_none() {
                room = Some(*way);
                if way.line.is_none() {
                    break;
                }
            }
        }
        let PlainWay {
            slot,
            line: victim,
            ..
        } = room?;
        self.change(slot, None, Some(line));
        Some(Reserved { slot, victim })
    }
}

// Fills the way that is reserved for a line, if there is one.
fn fill_reserved(line: Line, cache: &mut CacheSets, plain: &mut Plain) -> Result<(), Fail> {
    if let Some(slot) = cache.reserved(line) {
        cache.fill(slot, line);
        plain.change(slot, Some(line), None);
        plain.touch(slot)?;
    }
    Ok(())
}

// One call on both, for a line, where the call may be made.
fn step(
    rt: &impl Abort,
    call: u64,
    line: Line,
    cache: &mut CacheSets,
    plain: &mut Plain,
) -> Result<(), Fail> {
    let found = cache.find(line);
    let reserved = cache.reserved(line);
    assert!(rt; found == plain.find(line));
    assert!(rt; reserved == plain.reserved(line));
    if let Some(slot) = found {
        match call {
            0 => {
                cache.touch(slot);
                plain.touch(slot)?;
            }
            1 => {
                cache.hold_way(line);
                plain.change(slot, Some(line), Some(line));
            }
            2 => {
                cache.drop_line(line);
                plain.change(slot, None, reserved.map(|_| line));
            }
            _ => fill_reserved(line, cache, plain)?,
        }
    } else if reserved.is_some() {
        fill_reserved(line, cache, plain)?;
    } else {
        assert!(rt; cache.reserve_way(line) == plain.reserve(line));
    }
    Ok(())
}

// A hundred calls for lines below `lines`.
fn run(rt: &impl Abort, lines: u64, cache: &mut CacheSets, plain: &mut Plain) -> Result<(), Fail> {
    let mut draw = 7u32;
    for _ in 0..100 {
        draw = draw.wrapping_mul(1_103_515_245).wrapping_add(12_345);
        let number = u64::from(draw >> 16);
        if let Some(line) = number.checked_rem(lines) {
            step(rt, number / 512 % 4, Line(line), cache, plain)?;
        }
    }
    Ok(())
}

#[test]
fn calls_do_what_a_plain_list_does(rt: HostRuntime) -> Result<(), Fail> {
    for &(sets, ways, lines) in &[(1u8, 2u8, 5), (1, 16, 40), (4, 2, 30), (1, 1, 3)] {
        assert!(rt; sets != 0 && sets < 8 && ways < 17);
        let slots = u32::from(sets) * u32::from(ways);
        let mut cache = CacheSets::make(rt.alloc(), u32::from(sets), u32::from(ways))?;
        let mut plain = Plain::new(rt.alloc(), u64::from(sets), u64::from(ways), slots)?;
        run(&rt, lines, &mut cache, &mut plain)?;
    }
    Ok(())
}

// Puts a line that is not there into a way of its own.
fn bring(rt: &impl Abort, cache: &mut CacheSets, line: Line) -> Option<Line> {
    assert!(rt; cache.find(line).is_none());
    assert!(rt; cache.reserved(line).is_none());
    let room = cache.reserve_way(line)?;
    let slot = cache.reserved(line)?;
    assert!(rt; room.slot == slot);
    cache.fill(slot, line);
    room.victim
}

#[test]
fn the_least_recently_used_line_leaves(rt: HostRuntime) -> Result<(), Fail> {
    let mut cache = CacheSets::make(rt.alloc(), 1, 2)?;
    bring(&rt, &mut cache, Line(1));
    bring(&rt, &mut cache, Line(2));
    let slot = cache.find(Line(1)).ok_or("line 1 is there")?;
    cache.touch(slot);
    assert!(rt; bring(&rt, &mut cache, Line(3)) == Some(Line(2)));
    assert!(rt; cache.find(Line(1)) == Some(0));
    assert!(rt; cache.find(Line(3)) == Some(1));
    Ok(())
}

#[test]
fn reserved_ways_stay_and_empty_ways_come_first(rt: HostRuntime) -> Result<(), Fail> {
    let mut cache = CacheSets::make(rt.alloc(), 1, 2)?;
    bring(&rt, &mut cache, Line(1));
    bring(&rt, &mut cache, Line(2));
    assert!(rt; cache.find(Line(1)).is_some());
    cache.hold_way(Line(1));
    // Line 2 is the more recent, and yet leaves.
    assert!(rt; bring(&rt, &mut cache, Line(3)) == Some(Line(2)));
    assert!(rt; cache.find(Line(3)).is_some());
    cache.hold_way(Line(3));
    cache.drop_line(Line(3));
    assert!(rt; cache.reserved(Line(3)) == Some(1));
    assert!(rt; bring(&rt, &mut cache, Line(4)) == None);
    assert!(rt; cache.find(Line(4)) == None);
    let slot = cache.reserved(Line(3)).ok_or("line 3 has a way")?;
    cache.fill(slot, Line(3));
    cache.drop_line(Line(3));
    assert!(rt; bring(&rt, &mut cache, Line(4)) == None);
    assert!(rt; cache.find(Line(4)) == Some(1));
    Ok(())
}

#[test]
fn a_cache_may_have_no_way(rt: HostRuntime) -> Result<(), Fail> {
    let mut cache = CacheSets::make(rt.alloc(), 3, 0)?;
    bring(&rt, &mut cache, Line(1));
    cache.drop_line(Line(1));
    assert!(rt; cache.find(Line(1)) == None);
    Ok(())
}
