//! Each call at its edges, and a script of calls against a plain `Vec`.

use order_axioms::Fences;
use order_axioms::laws::overlapping_accesses_keep_their_order;
use rsim_base::{Access, Addr, Kind, Model, Node, Size};
use std::alloc::AllocFailed;
use std::test::Fail;
use store_buffer::{Full, StoreBuffer};

const SIZE: u32 = 4;

// The counts after so many fences of each bit: LoadLoad, StoreLoad, LoadStore and StoreStore.
fn fences(ll: u32, sl: u32, ls: u32, ss: u32) -> Fences {
    Fences { ll, sl, ls, ss }
}

fn access(index: u32, kind: Kind, size: Size, addr: u64) -> Access {
    Access {
        node: Node(2),
        kind,
        size,
        index,
        addr: Addr(addr),
        loaded: 0,
        stored: 7,
    }
}

// A store of eight bytes.
fn store(index: u32, addr: u64) -> Access {
    access(index, Kind::Store, Size::B8, addr)
}

// Pushes stores of eight bytes at these addresses, with no fence before any. They are numbered from 0.
fn push_all(buffer: &mut StoreBuffer, addrs: &[u64]) -> Result<(), Fail> {
    for (k, addr) in addrs.iter().enumerate() {
        let index = u32::try_from(k)?;
        buffer.push(store(index, *addr), fences(0, 0, 0, 0))?;
    }
    Ok(())
}

// A store, and the fences before it in its program.
#[derive(Clone, Copy, PartialEq, Eq)]
struct Waiting {
    access: Access,
    fences: Fences,
}

// The plain list: what each call is to do, written without regard to time.
#[derive(Drop)]
struct Plain {
    stores: Vec<Waiting>,
}

impl Plain {
    fn push(
        &mut self,
        access: Access,
        fences: Fences,
    ) -> Result<Result<(), Full>, AllocFailed<Waiting>> {
        if self.stores.len() == SIZE as usize {
            return Ok(Err(Full));
        }
        self.stores.push(Waiting { access, fences })?;
        Ok(Ok(()))
    }

    fn performed(&mut self, k: u32) -> Option<Access> {
        if k as usize >= self.stores.len() {
            return None;
        }
        Some(self.stores.remove(k as usize).access)
    }

    fn performable(&self, m: Model, from: u32) -> Option<u32> {
        let stores = self.stores.as_slice();
        for (k, y) in stores.iter().enumerate() {
            if k >= from as usize && !stores[..k].iter().any(|x| is_before(m, x, y)) {
                return u32::try_from(k).ok();
            }
        }
        None
    }
}

// Whether the first store must come before the second. Both are plain and of eight bytes.
fn is_before(m: Model, x: &Waiting, y: &Waiting) -> bool {
    m != Model::Rc || x.access.addr.0.abs_diff(y.access.addr.0) < 8 || x.fences.ss < y.fences.ss
}

// Whether the buffer has just these stores, and answers alike which may be performed.
fn agree(buffer: &StoreBuffer, plain: &Plain) -> bool {
    let stores = plain.stores.as_slice();
    let same_stores = (0..SIZE + 2).all(|k| {
        let store = stores.get(k as usize).copied();
        buffer.at(k).copied() == store.map(|s| s.access)
            && buffer.fences_at(k).copied() == store.map(|s| s.fences)
    });
    let same_answers = (0..SIZE + 2).all(|from| {
        [Model::Sc, Model::Pc, Model::Rc].iter().all(|m| buffer.performable(*m, from)
            == plain.performable(*m, from))
    });
    same_stores && same_answers && buffer.len() as usize == stores.len()
}

// Makes a call on both, and says whether they answer alike. The call is chosen by the number `mixed`, and `next` is the
// number of the next store.
fn call_both(
    buffer: &mut StoreBuffer,
    plain: &mut Plain,
    mixed: u64,
    next: u32,
) -> Result<bool, Fail> {
    let k = (mixed / 8 % 6) as u32;
    Ok(match mixed % 8 {
        0..=4 => {
            let a = store(next, 4 * (mixed / 8 % 11));
            let f = fences(next, next, next, next / 12);
            buffer.push(a, f) == plain.push(a, f)?
        }
        _ => buffer.performed(k) == plain.performed(k),
    })
}

// The script has each call with each of its answers, and the later places of a search some times each.
#[test]
fn a_script_answers_as_a_plain_list_does(rt: HostRuntime) -> Result<(), Fail> {
    overlapping_accesses_keep_their_order();
    let mut buffer = StoreBuffer::make(rt.alloc(), SIZE)?;
    let mut plain = Plain {
        stores: Vec::new(rt.alloc()),
    };
    for step in 0..300u32 {
        let mixed = (288 * step as u64 + 59) % 307;
        let alike = call_both(&mut buffer, &mut plain, mixed, step)?;
        assert!(rt; alike, "step {step}");
        assert!(rt; agree(&buffer, &plain), "step {step}");
    }
    Ok(())
}

#[test]
fn a_full_buffer_takes_no_store(rt: HostRuntime) -> Result<(), Fail> {
    let none = fences(0, 0, 0, 0);
    let mut empty = StoreBuffer::make(rt.alloc(), 0)?;
    assert!(rt; empty.push(store(0, 0), none) == Err(Full));
    assert!(rt; empty.len() == 0);
    let mut buffer = StoreBuffer::make(rt.alloc(), 2)?;
    assert!(rt; buffer.performable(Model::Rc, 0) == None);
    assert!(rt; buffer.push(store(0, 0), none) == Ok(()));
    assert!(rt; buffer.push(store(1, 8), none) == Ok(()));
    assert!(rt; buffer.push(store(2, 16), none) == Err(Full));
    assert!(rt; buffer.len() == 2);
    assert!(rt; buffer.performed(0) == Some(store(0, 0)));
    assert!(rt; buffer.push(store(2, 16), none) == Ok(()));
    assert!(rt; buffer.at(0).copied() == Some(store(1, 8)));
    assert!(rt; buffer.at(1).copied() == Some(store(2, 16)));
    Ok(())
}

#[test]
fn sc_and_pc_keep_the_order(rt: HostRuntime) -> Result<(), Fail> {
    for &m in &[Model::Sc, Model::Pc] {
        let mut buffer = StoreBuffer::make(rt.alloc(), 2)?;
        push_all(&mut buffer, &[0x1000, 0x2000])?;
        assert!(rt; buffer.performable(m, 0) == Some(0), "under {m:?}");
        assert!(rt; buffer.performable(m, 1) == None, "under {m:?}");
        assert!(rt; buffer.performed(0) == Some(store(0, 0x1000)));
        assert!(rt; buffer.performable(m, 0) == Some(0), "under {m:?}");
        assert!(rt; buffer.performable(m, 1) == None, "under {m:?}");
    }
    Ok(())
}

// Whether the second may be performed before the first under rc.
fn may_pass(rt: &HostRuntime, x: Access, fx: Fences, y: Access, fy: Fences) -> Result<bool, Fail> {
    let mut buffer = StoreBuffer::make(rt.alloc(), 2)?;
    buffer.push(x, fx)?;
    buffer.push(y, fy)?;
    Ok(buffer.performable(Model::Rc, 1) == Some(1))
}

#[test]
fn under_rc_a_store_passes_those_with_no_byte_in_common(rt: HostRuntime) -> Result<(), Fail> {
    let cases = [
        (Size::B8, 0x2000, true),
        (Size::B8, 0x1008, true),
        (Size::B8, 0x1000, false),
        (Size::B1, 0x1007, false),
        (Size::B8, 0x0ffc, false),
        (Size::B4, 0x0ffc, true),
    ];
    let none = fences(0, 0, 0, 0);
    for &(size, addr, passes) in &cases {
        let younger = access(1, Kind::Store, size, addr);
        let may = may_pass(&rt, store(0, 0x1000), none, younger, none)?;
        assert!(rt; may == passes, "at {addr:x}, {size:?}");
    }
    Ok(())
}

#[test]
fn under_rc_a_fence_holds_what_its_bits_name(rt: HostRuntime) -> Result<(), Fail> {
    let cases = [
        (Kind::Store, fences(1, 1, 1, 1), Kind::Store, true),
        (Kind::Store, fences(1, 1, 1, 2), Kind::Store, false),
        (Kind::Store, fences(2, 2, 2, 1), Kind::Store, true),
        (Kind::Store, fences(1, 2, 1, 1), Kind::Atomic, false),
        (Kind::Store, fences(1, 1, 1, 2), Kind::Atomic, false),
        (Kind::Store, fences(2, 1, 2, 1), Kind::Atomic, true),
        (Kind::Atomic, fences(1, 1, 1, 1), Kind::Store, false),
    ];
    for &(first, f, second, passes) in &cases {
        let older = access(0, first, Size::B8, 0x1000);
        let younger = access(1, second, Size::B8, 0x2000);
        let may = may_pass(&rt, older, fences(1, 1, 1, 1), younger, f)?;
        assert!(rt; may == passes, "{first:?} and {second:?} after {f:?}");
    }
    Ok(())
}

#[test]
fn the_search_begins_at_its_place(rt: HostRuntime) -> Result<(), Fail> {
    let mut buffer = StoreBuffer::make(rt.alloc(), 4)?;
    push_all(&mut buffer, &[0x1000, 0x2000, 0x1000, 0x3000])?;
    let cases = [
        (0, Some(0)),
        (1, Some(1)),
        (2, Some(3)),
        (3, Some(3)),
        (4, None),
        (u32::MAX, None),
    ];
    for &(from, place) in &cases {
        assert!(rt; buffer.performable(Model::Rc, from) == place, "from {from}");
    }
    Ok(())
}

#[test]
fn the_youngest_store_gives_what_it_covers(rt: HostRuntime) -> Result<(), Fail> {
    let mut buffer = StoreBuffer::make(rt.alloc(), 4)?;
    let none = fences(0, 0, 0, 0);
    let stores = [
        (Size::B8, 0x1000, 0x0102_0304_0506_0708),
        (Size::B2, 0x1002, 0x1314),
        (Size::B4, 0x2000, 0x2122_2324),
        (Size::B8, u64::MAX - 3, 0x3132_3334_3536_3738),
    ];
    for &(size, addr, value) in &stores {
        let mut a = access(0, Kind::Store, size, addr);
        a.stored = value;
        buffer.push(a, none)?;
    }
    for &(size, addr, wanted) in &[
        (Size::B4, 0x1004, Some((0, Some(0x0506_0708)))),
        (Size::B1, 0x1001, Some((0, Some(2)))),
        (Size::B2, 0x1002, Some((1, Some(0x1314)))),
        (Size::B1, 0x1003, Some((1, Some(0x14)))),
        (Size::B4, 0x1000, Some((1, None))),
        (Size::B8, 0x1000, Some((1, None))),
        (Size::B8, 0x2000, Some((2, None))),
        (Size::B2, 0x2002, Some((2, Some(0x2324)))),
        (Size::B2, 0x2004, None),
        (Size::B1, 0x0fff, None),
        (Size::B8, 0x0ffc, Some((1, None))),
        (Size::B4, 0, Some((3, Some(0x3536_3738)))),
        (Size::B2, u64::MAX, Some((3, Some(0x3435)))),
        (Size::B8, 0, Some((3, None))),
    ] {
        assert!(rt;
            buffer.meets(Addr(addr), size) == wanted,
            "{size:?} at {addr:x}"
        );
    }
    Ok(())
}

#[test]
fn a_later_access_waits_for_the_stores_that_it_needs(rt: HostRuntime) -> Result<(), Fail> {
    let mut buffer = StoreBuffer::make(rt.alloc(), 2)?;
    let none = fences(0, 0, 0, 0);
    let models = [Model::Sc, Model::Pc, Model::Rc];
    for m in models {
        assert!(rt; buffer.lets(m, &store(2, 0x1000), &none), "{m:?}");
    }
    push_all(&mut buffer, &[0x1000, 0x2000])?;
    // which models let it pass the stores
    for &(kind, addr, f, wanted) in &[
        (Kind::Load, 0x3000, fences(0, 0, 0, 0), [false, true, true]),
        (Kind::Load, 0x2000, fences(0, 0, 0, 0), [false, true, true]),
        (Kind::Load, 0x3000, fences(1, 0, 1, 1), [false, true, true]),
        (
            Kind::Load,
            0x3000,
            fences(0, 1, 0, 0),
            [false, false, false],
        ),
        (
            Kind::Store,
            0x3000,
            fences(0, 0, 0, 0),
            [false, false, true],
        ),
        (
            Kind::Store,
            0x2004,
            fences(0, 0, 0, 0),
            [false, false, false],
        ),
        (
            Kind::Store,
            0x3000,
            fences(0, 0, 0, 1),
            [false, false, false],
        ),
        (
            Kind::Atomic,
            0x3000,
            fences(0, 0, 0, 0),
            [false, false, true],
        ),
        (
            Kind::Atomic,
            0x1000,
            fences(0, 0, 0, 0),
            [false, false, false],
        ),
    ] {
        let later = access(2, kind, Size::B8, addr);
        for (m, lets) in models.into_iter().zip(wanted) {
            assert!(rt;
                buffer.lets(m, &later, &f) == lets,
                "{m:?} {kind:?} {addr:x}"
            );
        }
    }
    Ok(())
}

#[test]
fn a_store_leaves_from_the_middle(rt: HostRuntime) -> Result<(), Fail> {
    let mut buffer = StoreBuffer::make(rt.alloc(), 3)?;
    push_all(&mut buffer, &[0x1000, 0x2000])?;
    buffer.push(store(2, 0x3000), fences(1, 2, 3, 4))?;
    assert!(rt; buffer.performed(3) == None);
    assert!(rt; buffer.performed(u32::MAX) == None);
    assert!(rt; buffer.len() == 3);
    assert!(rt; buffer.performed(1) == Some(store(1, 0x2000)));
    assert!(rt; buffer.len() == 2);
    assert!(rt; buffer.at(0).copied() == Some(store(0, 0x1000)));
    assert!(rt; buffer.fences_at(0).copied() == Some(fences(0, 0, 0, 0)));
    assert!(rt; buffer.at(1).copied() == Some(store(2, 0x3000)));
    assert!(rt; buffer.fences_at(1).copied() == Some(fences(1, 2, 3, 4)));
    assert!(rt; buffer.at(2).copied() == None);
    assert!(rt; buffer.fences_at(u32::MAX).copied() == None);
    assert!(rt; buffer.performed(1) == Some(store(2, 0x3000)));
    assert!(rt; buffer.performed(1) == None);
    assert!(rt; buffer.performed(0) == Some(store(0, 0x1000)));
    assert!(rt; buffer.performed(0) == None);
    Ok(())
}
