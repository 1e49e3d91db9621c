//! Each call at the edges of the ring, and a script of calls against an array of flags.

use ring_set::laws::rows_follow_the_entries;
use ring_set::{PLACES, Places};

// The least age of a flag that is set, or 128.
fn first(flags: &[bool; 128], head: u8) -> u8 {
    for age in 0..128u8 {
        if flags[(usize::from(head) + usize::from(age)) % 128] {
            return age;
        }
    }
    128
}

// The greatest age below the count, and one more, or 0.
fn last(flags: &[bool; 128], head: u8, count: u8) -> u8 {
    for age in (0..count).rev() {
        if flags[(usize::from(head) + usize::from(age)) % 128] {
            return age + 1;
        }
    }
    0
}

#[test]
fn edges(rt: HostRuntime) {
    rows_follow_the_entries();
    let none = Places::none();
    assert!(rt; none.is_empty());
    assert!(rt; (none.oldest(0), none.oldest(127)) == (128, 128));
    assert!(rt; (none.youngest(0, 0), none.youngest(127, 128)) == (0, 0));

    // Place 0 has age 0 from head 0, and age 1 from head 127.
    let ends = none.with(0).with(127);
    assert!(rt; ends.has(0) && ends.has(127) && !ends.has(1) && !ends.has(126));
    assert!(rt; (ends.oldest(0), ends.oldest(1), ends.oldest(127)) == (0, 126, 0));
    assert!(rt; (ends.youngest(0, 127), ends.youngest(0, 128)) == (1, 128));
    assert!(rt; (ends.youngest(127, 128), ends.youngest(127, 1)) == (2, 1));
    assert!(rt; ends.without(0).without(0).without(127) == none);

    let all = Places::run(77, PLACES);
    assert!(rt; all.has(0) && all.has(76) && all.has(77) && all.has(127));
    assert!(rt; Places::run(77, 0) == none);
    assert!(rt; (none.count(), ends.count(), all.count()) == (0, 2, 128));
    assert!(rt; Places::run(127, 2) == ends);
    assert!(rt; all.outside(ends).or(ends) == all);
    assert!(rt; all.outside(ends).and(ends) == none);
    assert!(rt; (all.and(ends), none.or(ends), ends.outside(all)) == (ends, ends, none));
}

#[test]
fn agrees_with_flags(rt: HostRuntime) {
    let mut set = Places::none();
    let mut flags = [false; 128];
    for step in 0..300u32 {
        let place = (step * 37 % 128) as u8;
        if step % 3 == 0 {
            set = set.without(place);
            flags[usize::from(place)] = false;
        } else {
            set = set.with(place);
            flags[usize::from(place)] = true;
        }
        let head = (step * 91 % 128) as u8;
        let count = (step * 53 % 129) as u8;
        assert!(rt; set.oldest(head) == first(&flags, head), "at step {step}");
        assert!(rt;
            set.youngest(head, count) == last(&flags, head, count),
            "at step {step}"
        );
        let young = set.and(Places::run(head, count));
        assert!(rt;
            young.youngest(head, 128) == last(&flags, head, count),
            "at step {step}"
        );
    }
}
