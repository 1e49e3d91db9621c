// Pairs of accesses by model, kind, overlap and fences, and fences by mask. No answer is taken from the code.

use order_axioms::{Fences, needs};
use rsim_base::Kind::{Atomic, Load, Store};
use rsim_base::Model::{Pc, Rc, Sc};
use rsim_base::{Access, Addr, Kind, Model, Node, Size};

const NO_FENCES: Fences = Fences {
    ll: 0,
    sl: 0,
    ls: 0,
    ss: 0,
};

// An access of four bytes.
fn word(kind: Kind, index: u32, addr: u64) -> Access {
    Access {
        node: Node(0),
        kind,
        size: Size::B4,
        index,
        addr: Addr(addr),
        loaded: 0,
        stored: 0,
    }
}

// Whether the model orders an access of kind x before a later one of kind y that is `apart` bytes above it, with
// these fences between them.
fn orders(m: Model, x: Kind, y: Kind, apart: u64, between: &Fences) -> bool {
    needs(m, &word(x, 0, 0), &NO_FENCES, &word(y, 1, apart), between)
}

#[test]
fn models_order_kinds_by_overlap(rt: HostRuntime) {
    // the kinds, then: pc; rc where they overlap; rc where they do not
    for &(x, y, pc, rc_overlapping, rc_apart) in &[
        (Load, Load, true, true, false),
        (Load, Store, true, true, true),
        (Load, Atomic, true, true, true),
        (Store, Load, false, false, false),
        (Store, Store, true, true, false),
        (Store, Atomic, true, true, false),
        (Atomic, Load, true, true, false),
        (Atomic, Store, true, true, true),
        (Atomic, Atomic, true, true, true),
    ] {
        for &(apart, rc) in &[(0, rc_overlapping), (3, rc_overlapping), (4, rc_apart)] {
            assert!(rt; orders(Sc, x, y, apart, &NO_FENCES));
            assert!(rt; orders(Pc, x, y, apart, &NO_FENCES) == pc, "{x:?} {y:?} pc");
            assert!(rt;
                orders(Rc, x, y, apart, &NO_FENCES) == rc,
                "{x:?} {y:?} rc {apart}"
            );
        }
    }
}

#[test]
fn fences_order_the_kinds_of_their_bits(rt: HostRuntime) {
    // the mask, and whether under rc it orders, of accesses that are apart: load and load, store and load, store and
    // store, store and atomic, atomic and load
    for &(mask, load_load, store_load, store_store, store_atomic, atomic_load) in &[
        (1, true, false, false, false, true),
        (2, false, true, false, true, true),
        (4, false, false, false, false, false),
        (8, false, false, true, true, false),
        (15, true, true, true, true, true),
        (0x70, false, false, false, false, false),
    ] {
        let between = NO_FENCES.after(mask);
        for &(x, y, is_ordered) in &[
            (Load, Load, load_load),
            (Store, Load, store_load),
            (Store, Store, store_store),
            (Store, Atomic, store_atomic),
            (Atomic, Load, atomic_load),
        ] {
            assert!(rt;
                orders(Rc, x, y, 64, &between) == is_ordered,
                "{mask} {x:?} {y:?}"
            );
        }
        assert!(rt;
            orders(Pc, Store, Load, 64, &between) == store_load,
            "{mask} pc"
        );
    }
}

#[test]
fn fences_count_from_the_first_to_the_last(rt: HostRuntime) {
    assert!(rt;
        NO_FENCES.after(2).after(10)
            == Fences {
                ll: 0,
                sl: 2,
                ls: 0,
                ss: 1
            }
    );
    let last = Fences {
        ll: 4_294_967_294,
        sl: 4_294_967_294,
        ls: 4_294_967_294,
        ss: 4_294_967_294,
    };
    let full = last.after(255);
    assert!(rt;
        full == Fences {
            ll: u32::MAX,
            sl: u32::MAX,
            ls: u32::MAX,
            ss: u32::MAX
        }
    );
    // the same fences before both are none between them
    let (x, y) = (word(Store, 0, 0), word(Load, 1, 64));
    assert!(rt; !needs(Rc, &x, &full, &y, &full));
    assert!(rt; !needs(Pc, &x, &full, &y, &full));
    assert!(rt; needs(Rc, &x, &last, &y, &full));
    assert!(rt; needs(Pc, &x, &last, &y, &full));
}
