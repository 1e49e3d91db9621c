// The bytes of accesses and of values.
use rsim_base::{Access, Addr, Kind, Line, Node, Size, covers, cut, line_of, overlap};

const TOP: Addr = Addr(u64::MAX - 3);

#[test]
fn accesses_meet_where_they_share_a_byte_also_round_the_end(rt: HostRuntime) {
    assert!(rt; overlap(Addr(8), Size::B8, Addr(15), Size::B1));
    assert!(rt; overlap(Addr(15), Size::B1, Addr(8), Size::B8));
    assert!(rt; !overlap(Addr(8), Size::B8, Addr(16), Size::B8));
    assert!(rt; overlap(TOP, Size::B8, Addr(3), Size::B1));
    assert!(rt; !overlap(TOP, Size::B4, Addr(0), Size::B8));
    assert!(rt; covers(Addr(8), Size::B8, Addr(12), Size::B4));
    assert!(rt; !covers(Addr(8), Size::B8, Addr(13), Size::B4));
    assert!(rt; covers(TOP, Size::B8, Addr(0), Size::B4));
}

#[test]
fn kinds_load_and_store_and_accesses_overlap(rt: HostRuntime) {
    for &(kind, loads, stores) in &[
        (Kind::Load, true, false),
        (Kind::Store, false, true),
        (Kind::Atomic, true, true),
    ] {
        assert!(rt; kind.loads() == loads);
        assert!(rt; kind.stores() == stores);
    }
    let word = Access {
        node: Node(0),
        index: 0,
        kind: Kind::Store,
        addr: Addr(12),
        size: Size::B4,
        loaded: 0,
        stored: 0,
    };
    let byte = |at| Access {
        addr: Addr(at),
        size: Size::B1,
        ..word
    };
    for &(at, is_in) in &[(11, false), (12, true), (15, true), (16, false)] {
        assert!(rt; word.overlaps(&byte(at)) == is_in, "at {at}");
        assert!(rt; byte(at).overlaps(&word) == is_in, "at {at}");
    }
}

#[test]
fn bytes_are_cut_the_first_in_memory_first(rt: HostRuntime) {
    let value = 0x0102_0304_0506_0708;
    for &(size, at, byte) in &[
        (Size::B8, 0, 1),
        (Size::B8, 7, 8),
        (Size::B4, 0, 5),
        (Size::B2, 1, 8),
        (Size::B1, 0, 8),
    ] {
        assert!(rt; at < size.count());
        assert!(rt; cut(value, size, at) == byte, "at {at}");
    }
    assert!(rt; line_of(Addr(0x1FF), 64) == Line(7));
    assert!(rt; Size::B1.low(value) == 8);
    assert!(rt; Size::B2.low(value) == 0x0708);
    assert!(rt; Size::B4.low(value) == 0x0506_0708);
    assert!(rt; Size::B8.low(value) == value);
}
