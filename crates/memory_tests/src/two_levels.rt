// Two small levels, with answers worked by hand.

ghost use Rattle.std.specs.Prelude.{◌≤◌, length};

use cache_levels::{Evicted, Levels};
use machine_config::read;
use rsim_base::{Addr, Line, Size, line_of};
use std::alloc::Global;
use std::process::Abort;
use std::test::Fail;

// One way near, and two held.
const SMALL: &[u8] = b"line 16\nl1_sets 1\nl1_ways 1\nl2_sets 1\nl2_ways 2\n";

fn made(alloc: Global, settings: &[u8]) -> Result<Levels, Fail>
    requires { length settings.now ≤ 65536 }
{
    let config = read(alloc, settings)?;
    Ok(Levels::make(alloc, &config)?)
}

// The line that leaves for another, of which both calls say the same.
fn room(rt: &impl Abort, levels: &mut Levels, line: Line) -> Option<Evicted> {
    assert!(rt; !levels.hold(line));
    assert!(rt; !levels.is_reserved(line));
    let told = levels.would_evict(line);
    let evicted = levels.room(line);
    assert!(rt; told == evicted);
    evicted
}

// Puts a line of equal bytes into the way that is reserved for it.
fn fill(rt: &impl Abort, levels: &mut Levels, line: Line, owned: bool, byte: u8) {
    assert!(rt; levels.is_reserved(line));
    levels.fill(line, owned, &[byte; 128]);
    assert!(rt; levels.near(line) && levels.hold(line));
    assert!(rt; levels.own(line) == owned);
    assert!(rt; !levels.is_reserved(line));
    assert!(rt; levels.copy(line).copied() == Some([byte; 128]));
}

fn write(rt: &impl Abort, levels: &mut Levels, a: Addr, v: u64) {
    let line_bytes = levels.line_bytes();
    assert!(rt; line_bytes != 0 && a.0 % 4 == 0);
    let line = line_of(a, line_bytes);
    assert!(rt; levels.own(line));
    levels.write(a, Size::B4, v);
}

// Whether lines 1, 2 and 3 are near, and whether they are held.
fn places(levels: &Levels) -> ([bool; 3], [bool; 3]) {
    let lines = [Line(1), Line(2), Line(3)];
    (
        lines.map(|line| levels.near(line)),
        lines.map(|line| levels.hold(line)),
    )
}

#[test]
fn lines_come_near_and_leave(rt: HostRuntime) -> Result<(), Fail> {
    let mut levels = made(rt.alloc(), SMALL)?;
    let nothing = Evicted {
        line: None,
        owned: false,
        bytes: [0; 128],
    };
    assert!(rt; room(&rt, &mut levels, Line(1)) == Some(nothing));
    fill(&rt, &mut levels, Line(1), true, 1);
    assert!(rt; room(&rt, &mut levels, Line(2)) == Some(nothing));
    fill(&rt, &mut levels, Line(2), false, 2);
    // One line is near at a time, and both stay held.
    assert!(rt; places(&levels) == ([false, true, false], [true, true, false]));
    assert!(rt; levels.hold(Line(1)));
    levels.bring_near(Line(1));
    assert!(rt; places(&levels) == ([true, false, false], [true, true, false]));
    assert!(rt; levels.hold(Line(2)));
    levels.touch(Line(2));
    // Line 1 is near, and yet the least recent of those that are held.
    let first = Evicted {
        line: Some(Line(1)),
        owned: true,
        bytes: [1; 128],
    };
    assert!(rt; room(&rt, &mut levels, Line(3)) == Some(first));
    assert!(rt; places(&levels) == ([false, false, false], [false, true, false]));
    assert!(rt; levels.copy(Line(1)) == None);
    // With both ways reserved no line leaves.
    assert!(rt; levels.hold(Line(2)));
    levels.hold_way(Line(2));
    assert!(rt; room(&rt, &mut levels, Line(4)) == None);
    // A line that is lost keeps its way.
    assert!(rt; levels.hold(Line(2)));
    levels.lose(Line(2));
    assert!(rt; places(&levels) == ([false; 3], [false; 3]));
    assert!(rt; room(&rt, &mut levels, Line(4)) == None);
    fill(&rt, &mut levels, Line(2), true, 5);
    fill(&rt, &mut levels, Line(3), false, 3);
    assert!(rt; places(&levels) == ([false, false, true], [false, true, true]));
    Ok(())
}

#[test]
fn bytes_are_written_and_shared(rt: HostRuntime) -> Result<(), Fail> {
    let mut levels = made(rt.alloc(), SMALL)?;
    for line in [Line(1), Line(2)] {
        assert!(rt; room(&rt, &mut levels, line).is_some());
        fill(&rt, &mut levels, line, true, 7);
    }
    // Byte 12 is the first of the last four of line 1.
    write(&rt, &mut levels, Addr(28), 0x0102_0304);
    let mut bytes = [7; 128];
    bytes[12] = 1;
    bytes[13] = 2;
    bytes[14] = 3;
    bytes[15] = 4;
    assert!(rt; levels.copy(Line(1)).copied() == Some(bytes));
    assert!(rt; levels.copy(Line(2)).copied() == Some([7; 128]));
    assert!(rt; levels.hold(Line(1)));
    levels.share(Line(1));
    assert!(rt; !levels.own(Line(1)) && levels.own(Line(2)));
    assert!(rt; levels.copy(Line(1)).copied() == Some(bytes));
    Ok(())
}

#[test]
fn a_default_configuration_has_nothing_at_first(rt: HostRuntime) -> Result<(), Fail> {
    let levels = made(rt.alloc(), b"")?;
    for line in 0..1000 {
        assert!(rt;
            !levels.near(Line(line)) && !levels.hold(Line(line)) && !levels.own(Line(line))
        );
    }
    Ok(())
}
