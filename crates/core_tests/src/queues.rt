//! Each call at its edges, and scripts of calls against a plain `Vec` that compares bytes one by one.

ghost use Rattle.std.specs.Prelude.{◌≡◌, ◌<◌, [], length};

use machine_config::read;
use memory_queue::{MemoryQueue, Queued};
use order_axioms::{Fences, needs};
use rsim_base::Kind::{Atomic, Load, Store};
use rsim_base::Size::{B1, B2, B4, B8};
use rsim_base::{Access, Addr, Kind, Model, Node, Size};
use std::alloc::Global;
use std::test::Fail;

const NO_FENCES: Fences = Fences {
    ll: 0,
    sl: 0,
    ls: 0,
    ss: 0,
};

const SIZES: [Size; 4] = [B1, B2, B4, B8];

// The settings, with the model and whether loads speculate.
const MACHINES: [(&[u8], Model, bool); 6] = [
    (b"active_list 4\nmodel sc\nspeculate on\n", Model::Sc, true),
    (b"active_list 4\nmodel pc\nspeculate on\n", Model::Pc, true),
    (b"active_list 4\nmodel rc\nspeculate on\n", Model::Rc, true),
    (
        b"active_list 4\nmodel sc\nspeculate off\n",
        Model::Sc,
        false,
    ),
    (
        b"active_list 4\nmodel pc\nspeculate off\n",
        Model::Pc,
        false,
    ),
    (
        b"active_list 4\nmodel rc\nspeculate off\n",
        Model::Rc,
        false,
    ),
];

const RC: &[u8] = b"active_list 4\nmodel rc\nspeculate off\n";

// The accesses join with the numbers 0, 1, 2 ..
fn push_all(queue: &mut MemoryQueue, joining: &[(Kind, Size, Fences)])
    requires { queue.old.accesses ≡ [] }
{
    for seq in 0..joining.len() {
        let (kind, size, fences) = joining[seq];
        queue.push(seq as u64, kind, size, fences);
    }
}

fn filled(
    alloc: Global,
    settings: &[u8],
    joining: &[(Kind, Size, Fences)],
) -> Result<MemoryQueue, Fail> {
    if settings.len() > 100 {
        return Err("the settings are short")?;
    }
    let config = read(alloc, settings)?;
    let mut queue = MemoryQueue::make(alloc, &config)?;
    push_all(&mut queue, joining);
    Ok(queue)
}

#[test]
fn loads_wait_for_addresses_and_places(rt: HostRuntime) -> Result<(), Fail> {
    let joining = [
        (Store, B4, NO_FENCES),
        (Load, B4, NO_FENCES),
        (Load, B4, NO_FENCES),
    ];
    // with no place taken: the first that may bind, and the first from place 2 on
    let wanted = [
        (Some(1), Some(2)),
        (Some(1), Some(2)),
        (Some(1), Some(2)),
        (None, None),
        (Some(1), None),
        (Some(1), Some(2)),
    ];
    for ((settings, _, _), (first, second)) in MACHINES.into_iter().zip(wanted) {
        let mut queue = filled(rt.alloc(), settings, &joining)?;
        queue.address(1, Addr(0x100));
        assert!(rt; queue.candidate(0) == None);
        queue.address(0, Addr(0x200));
        assert!(rt; queue.candidate(2) == None);
        queue.address(2, Addr(0x108));
        assert!(rt; queue.candidate(0) == first);
        assert!(rt; queue.candidate(2) == second);
        queue.placed(0);
        queue.placed(1);
        assert!(rt; queue.candidate(1) == Some(1));
        assert!(rt; queue.candidate(2) == Some(2));
        assert!(rt; queue.candidate(3) == None);
        if let Some(k) = queue.candidate(0) {
            queue.bind(k);
        }
        assert!(rt; queue.candidate(0) == Some(2));
    }
    Ok(())
}

#[test]
fn fences_hold_loads_back(rt: HostRuntime) -> Result<(), Fail> {
    // the mask, and whether under rc it holds a load back behind a load, a store, an atomic
    for &(mask, load, store, atomic) in &[
        (0, false, false, false),
        (1, true, false, true),
        (2, false, true, true),
        (4, false, false, false),
        (8, false, false, false),
    ] {
        for &(kind, is_held) in &[(Load, load), (Store, store), (Atomic, atomic)] {
            let joining = [(kind, B4, NO_FENCES), (Load, B4, NO_FENCES.after(mask))];
            let mut queue = filled(rt.alloc(), RC, &joining)?;
            queue.address(0, Addr(0x100));
            queue.address(1, Addr(0x108));
            let wanted = if is_held { None } else { Some(1) };
            assert!(rt; queue.candidate(1) == wanted, "{mask} {kind:?}");
            queue.placed(0);
            assert!(rt; queue.candidate(1) == Some(1), "{mask} {kind:?}");
        }
    }
    Ok(())
}

#[test]
fn parts_of_a_store_are_forwarded(rt: HostRuntime) -> Result<(), Fail> {
    for &(size, apart, wanted) in &[
        (B8, 0, Some(0x0102_0304_0506_0708)),
        (B4, 0, Some(0x0102_0304)),
        (B4, 4, Some(0x0506_0708)),
        (B2, 2, Some(0x0304)),
        (B1, 7, Some(8)),
        (B1, 8, None),
        (B4, 6, None),
        (B2, u64::MAX, None),
        (B8, 1, None),
    ] {
        let joining = [(Store, B8, NO_FENCES), (Load, size, NO_FENCES)];
        for &base in &[0x1000, u64::MAX - 2] {
            let mut queue = filled(rt.alloc(), RC, &joining)?;
            queue.address(0, Addr(base));
            queue.store_value(0, 0x0102_0304_0506_0708);
            assert!(rt; queue.forward(1) == None);
            queue.address(1, Addr(base.wrapping_add(apart)));
            assert!(rt; queue.forward(1) == wanted, "{size:?} {apart}");
        }
    }
    Ok(())
}

#[test]
fn the_youngest_store_decides(rt: HostRuntime) -> Result<(), Fail> {
    let joining = [
        (Store, B8, NO_FENCES),
        (Atomic, B4, NO_FENCES),
        (Store, B2, NO_FENCES),
        (Load, B2, NO_FENCES),
        (Load, B8, NO_FENCES),
    ];
    let mut queue = filled(rt.alloc(), RC, &joining)?;
    for seq in 0..4 {
        queue.address(seq, Addr(0x1000));
    }
    queue.store_value(0, 0x0102_0304_0506_0708);
    queue.store_value(1, 0x0a0b_0c0d);
    assert!(rt; queue.forward(3) == None);
    queue.store_value(2, 0x1f2f);
    assert!(rt; queue.forward(3) == Some(0x1f2f));
    queue.placed(2);
    assert!(rt; queue.forward(3) == None);
    queue.placed(1);
    assert!(rt; queue.forward(3) == Some(0x0102));
    queue.placed(0);
    assert!(rt; queue.forward(3) == None);
    // the fifth found no place
    assert!(rt; queue.forward(4) == None);
    assert!(rt; queue.forward(u32::MAX) == None);
    for &wanted in &[Some(0), Some(1), Some(2), Some(3), None] {
        assert!(rt; queue.pop() == wanted);
    }
    Ok(())
}

// An access before a load: its kind, size and address, whether it has a value, and whether it is performed.
#[derive(Clone, Copy)]
struct Earlier(Kind, Size, u64, bool, bool);

// Two accesses, and a load of four bytes at 0x104 behind them.
fn behind(alloc: Global, first: Earlier, second: Earlier) -> Result<MemoryQueue, Fail> {
    let joining = [first, second, Earlier(Load, B4, 0x104, false, false)];
    let kinds = joining.map(|x| (x.0, x.1, NO_FENCES));
    let mut queue = filled(alloc, b"active_list 4\nmodel rc\nspeculate on\n", &kinds)?;
    let values = [0x0102_0304_0506_0708, 0x1112_1314_1516_1718, 0];
    for k in 0..3usize {
        let Earlier(_, _, a, has_value, performed) = joining[k];
        queue.address(k as u64, Addr(a));
        if has_value {
            queue.store_value(k as u64, values[k]);
        }
        if performed {
            queue.placed(k as u64);
        }
    }
    Ok(queue)
}

#[test]
fn a_load_waits_for_the_store_that_it_meets(rt: HostRuntime) -> Result<(), Fail> {
    let far = Earlier(Store, B8, 0x900, false, false);
    let (first, second) = (Some(0x0506_0708), Some(0x1516_1718));
    // whether the load may bind, and what it is given
    for &(older, younger, binds, given) in &[
        (far, Earlier(Store, B4, 0x104, false, false), false, None),
        (far, Earlier(Store, B4, 0x204, false, false), true, None),
        (far, Earlier(Store, B4, 0x104, true, false), true, second),
        (far, Earlier(Atomic, B4, 0x104, true, false), false, None),
        (far, Earlier(Store, B2, 0x104, true, false), false, None),
        (far, Earlier(Store, B4, 0x106, true, false), false, None),
        (far, Earlier(Store, B1, 0x107, true, false), false, None),
        (far, Earlier(Store, B1, 0x108, true, false), true, None),
        (far, Earlier(Store, B4, 0x104, false, true), true, None),
        (far, Earlier(Atomic, B4, 0x104, true, true), true, None),
        (
            Earlier(Store, B2, 0x104, true, false),
            Earlier(Store, B8, 0x100, true, false),
            true,
            second,
        ),
        (
            Earlier(Store, B8, 0x100, true, false),
            Earlier(Store, B2, 0x104, true, false),
            false,
            None,
        ),
        (
            Earlier(Store, B8, 0x100, true, false),
            Earlier(Atomic, B4, 0x104, true, true),
            true,
            first,
        ),
        (
            Earlier(Store, B4, 0x104, true, false),
            Earlier(Load, B4, 0x104, false, false),
            true,
            first,
        ),
    ] {
        let queue = behind(rt.alloc(), older, younger)?;
        let wanted = if binds { Some(2) } else { None };
        assert!(rt; queue.candidate(2) == wanted);
        assert!(rt; queue.forward(2) == given);
    }
    Ok(())
}

#[test]
fn the_search_goes_on_past_a_load_that_waits(rt: HostRuntime) -> Result<(), Fail> {
    let joining = [
        (Store, B4, NO_FENCES),
        (Load, B4, NO_FENCES),
        (Load, B4, NO_FENCES),
    ];
    let mut queue = filled(
        rt.alloc(),
        b"active_list 4\nmodel rc\nspeculate on\n",
        &joining,
    )?;
    queue.address(0, Addr(0x100));
    queue.address(1, Addr(0x100));
    queue.address(2, Addr(0x200));
    assert!(rt; queue.candidate(0) == Some(2));
    queue.store_value(0, 7);
    assert!(rt; queue.candidate(0) == Some(1));
    assert!(rt; queue.forward(1) == Some(7));
    queue.bind(1);
    assert!(rt; queue.candidate(0) == Some(2));
    Ok(())
}

#[test]
fn greater_numbers_are_cut(rt: HostRuntime) -> Result<(), Fail> {
    for &(seq, left) in &[(u64::MAX, 4), (3, 4), (2, 3), (1, 2), (0, 1)] {
        let mut queue = filled(rt.alloc(), RC, &[(Load, B4, NO_FENCES); 4])?;
        queue.cut_after(seq);
        for wanted in 0..left {
            assert!(rt; queue.pop() == Some(wanted), "{seq}");
        }
        assert!(rt; queue.pop() == None, "{seq}");
        queue.cut_after(0);
        queue.placed(0);
        assert!(rt; queue.candidate(0) == None);
    }
    Ok(())
}

// The plain list: what is known of each access, and what each call is to answer, written without regard to time.
#[derive(Clone, Copy, Drop)]
struct Known {
    seq: u64,
    kind: Kind,
    size: Size,
    fences: Fences,
    addr: Option<Addr>,
    value: Option<u64>,
    placed: bool,
    bound: bool,
}

impl Known {
    fn access(&self, a: Addr) -> Access {
        Access {
            node: Node(0),
            kind: self.kind,
            size: self.size,
            index: 0,
            addr: a,
            loaded: 0,
            stored: 0,
        }
    }

    // The byte that it stores at an address, if it stores there: none known is 0.
    fn byte_at(&self, x: u64) -> Option<u64> {
        let Addr(b) = self.addr?;
        let count = self.size.count();
        let j = (0..count).find(|j| b.wrapping_add(*j) == x)?;
        let up = count.wrapping_sub(j).wrapping_sub(1).wrapping_mul(8);
        Some((self.value.unwrap_or(0) >> (up % 64)) % 256)
    }

    fn is_before(&self, model: Model, a: Addr, later: &Known) -> bool {
        let at = self.addr.unwrap_or(a);
        let (x, y) = (self.access(at), later.access(a));
        needs(model, &x, &self.fences, &y, &later.fences)
    }
}

// The bytes that it stores at those of a load, as one number: none where one is missing.
fn bytes_of(x: &Known, a: u64, count: u64) -> Option<u64> {
    let mut value = 0u64;
    for i in 0..count {
        let byte = x.byte_at(a.wrapping_add(i))?;
        value = value.wrapping_mul(256).wrapping_add(byte);
    }
    Some(value)
}

// The place of the youngest store or atomic before a place that is not performed and shares a byte with the access there.
fn plain_source(list: &[Known], k: u32) -> Option<usize> {
    let load = list.get(k as usize)?;
    let Addr(a) = load.addr?;
    let count = load.size.count();
    for earlier in (0..k as usize).rev() {
        let x = list.get(earlier)?;
        let meets = (0..count).any(|i| x.byte_at(a.wrapping_add(i)).is_some());
        if meets && x.kind != Load && !x.placed {
            return Some(earlier);
        }
    }
    None
}

fn plain_forward(list: &[Known], k: u32) -> Option<u64> {
    let load = list.get(k as usize)?;
    let Addr(a) = load.addr?;
    let x = list.get(plain_source(list, k)?)?;
    if x.kind != Store || x.value.is_none() {
        return None;
    }
    bytes_of(x, a, load.size.count())
}

// An access at an address, of which nothing else is of interest.
fn access_of(kind: Kind, size: Size, a: u64, value: Option<u64>) -> Known {
    Known {
        seq: 0,
        kind,
        size,
        fences: NO_FENCES,
        addr: Some(Addr(a)),
        value,
        placed: false,
        bound: false,
    }
}

#[test]
fn every_pair_of_sizes_shares_its_bytes(rt: HostRuntime) -> Result<(), Fail> {
    let (base, value) = (0x1008, 0x0102_0304_0506_0708);
    for has in SIZES {
        for wants in SIZES {
            for a in 0x1000..0x1011u64 {
                let joining = [(Store, has, NO_FENCES), (Load, wants, NO_FENCES)];
                let mut queue = filled(rt.alloc(), RC, &joining)?;
                queue.address(0, Addr(base));
                queue.store_value(0, value);
                queue.address(1, Addr(a));
                let list = [
                    access_of(Store, has, base, Some(value)),
                    access_of(Load, wants, a, None),
                ];
                let wanted = plain_forward(&list, 1);
                assert!(rt; queue.forward(1) == wanted, "{has:?} {wants:?} {a:x}");
            }
        }
    }
    Ok(())
}

fn may_bind(list: &[Known], k: u32, model: Model, speculates: bool) -> bool {
    let Some(load) = list.get(k as usize) else {
        return false;
    };
    let Some(a) = load.addr else {
        return false;
    };
    let is_held = list.iter().take(k as usize).any(|x| {
        (x.kind != Load && x.addr.is_none())
            || (!speculates && !x.placed && x.is_before(model, a, load))
    });
    let gives_way = plain_source(list, k).is_none() || plain_forward(list, k).is_some();
    load.kind == Load && !load.bound && !is_held && gives_way
}

fn plain_candidate(list: &[Known], from: u32, model: Model, speculates: bool) -> Option<u32> {
    (from..8).find(|k| may_bind(list, *k, model, speculates))
}

fn may_settle(list: &[Known], k: u32, model: Model) -> bool {
    let Some(load) = list.get(k as usize) else {
        return false;
    };
    let Some(a) = load.addr else {
        return false;
    };
    let mut earlier = list.iter().take(k as usize);
    let is_held = earlier.any(|x| !x.placed && x.is_before(model, a, load));
    load.kind == Load && load.bound && !load.placed && !is_held
}

fn plain_settles(list: &[Known], from: u32, model: Model) -> Option<u32> {
    (from..8).find(|k| may_settle(list, *k, model))
}

// Some other number for each one.
fn mixed(x: u64) -> u64 {
    let x = x.wrapping_mul(0x9e37_79b9_7f4a_7c15);
    (x ^ (x >> 29)).wrapping_mul(0xbf58_476d_1ce4_e5b9) >> 16
}

fn joining_of(x: u64) -> (Kind, Size, Fences) {
    let kind = match x % 4 {
        0 => Atomic,
        1 => Store,
        _ => Load,
    };
    let size = match x / 4 % 4 {
        0 => B1,
        1 => B2,
        2 => B4,
        _ => B8,
    };
    (kind, size, NO_FENCES.after((x / 16 % 16) as u8))
}

// As many as have places.
fn plain_list(alloc: Global, joining: &[(Kind, Size, Fences)]) -> Result<Vec<Known>, Fail> {
    let mut list = Vec::new(alloc);
    for seq in 0..joining.len().min(4) {
        let (kind, size, fences) = joining[seq];
        list.push(Known {
            seq: seq as u64,
            kind,
            size,
            fences,
            addr: None,
            value: None,
            placed: false,
            bound: false,
        })?;
    }
    Ok(list)
}

// Changes the access of a number on the plain list.
fn change(list: &mut Vec<Known>, seq: u64, call: u64, x: u64) {
    for k in 0..list.len() {
        let mut known = list[k];
        if known.seq == seq {
            match call {
                0 => known.placed = true,
                1 => known.value = Some(x),
                _ => known.addr = Some(Addr(x)),
            }
            list[k] = known;
        }
    }
}

// Makes a call on both, and says whether they answer alike.
fn call_both(queue: &mut MemoryQueue, list: &mut Vec<Known>, x: u64) -> bool {
    let seq = x / 16 % 6;
    let near = (x / 128 % 12).wrapping_sub(6);
    match x % 16 {
        0 | 1 => {
            queue.placed(seq);
            change(list, seq, 0, 0);
        }
        2..=5 => {
            queue.store_value(seq, x);
            change(list, seq, 1, x);
        }
        6 if x / 4096 % 4 == 0 => {
            queue.cut_after(seq);
            list.retain(|known| known.seq <= seq);
        }
        7 if x / 4096 % 4 == 0 => {
            let first = list.first().map(|known| known.seq);
            list.retain(|known| Some(known.seq) != first);
            return queue.pop() == first;
        }
        _ => {
            queue.address(seq, Addr(near));
            change(list, seq, 2, near);
        }
    }
    true
}

// Binds the first load that may bind on both.
fn bind_both(queue: &mut MemoryQueue, list: &mut Vec<Known>) {
    let Some(k) = queue.candidate(0) else {
        return;
    };
    queue.bind(k);
    if let Some(known) = list.get_mut(k as usize) {
        known.bound = true;
    }
}

// Whether both know the same of the access at a place.
fn is_same(queue: &MemoryQueue, list: &[Known], k: u32) -> bool {
    let wanted = list.get(k as usize).map(|x| Queued {
        seq: x.seq,
        kind: x.kind,
        size: x.size,
        fences: x.fences,
        addr: x.addr,
        value: x.value,
        placed: x.placed,
        bound: x.bound,
    });
    queue.at(k).copied() == wanted && queue.number(k) == wanted.map(|x| x.seq)
}

// Whether both answer alike at each place, and one past the end.
fn agree(queue: &MemoryQueue, list: &[Known], model: Model, speculates: bool) -> bool {
    (0..6).all(|k| {
        is_same(queue, list, k)
            && queue.source(k).map(|j| j as usize) == plain_source(list, k)
            && queue.forward(k) == plain_forward(list, k)
            && queue.candidate(k) == plain_candidate(list, k, model, speculates)
            && queue.settles(k) == plain_settles(list, k, model)
    })
}

#[test]
fn bound_loads_settle_behind_what_they_need(rt: HostRuntime) -> Result<(), Fail> {
    let joining = [
        (Store, B4, NO_FENCES),
        (Load, B4, NO_FENCES),
        (Load, B4, NO_FENCES),
    ];
    // the first that settles, and the first from place 2 on: at first, and once the store and then a load has its place
    let wanted = [
        [(None, None), (Some(1), None), (Some(2), Some(2))],
        [(Some(1), None), (Some(1), None), (Some(2), Some(2))],
        [(Some(1), Some(2)), (Some(1), Some(2)), (Some(2), Some(2))],
    ];
    for ((settings, _, _), answers) in MACHINES.into_iter().zip(wanted) {
        let mut queue = filled(rt.alloc(), settings, &joining)?;
        for seq in 0..3u64 {
            queue.address(seq, Addr(0x100 * (seq + 1)));
            assert!(rt; queue.settles(0) == None);
        }
        assert!(rt; queue.candidate(0) == Some(1));
        queue.bind(1);
        assert!(rt; queue.candidate(0) == Some(2));
        queue.bind(2);
        for seq in 0..3u64 {
            let (first, second) = answers[seq as usize];
            assert!(rt; queue.settles(0) == first, "{seq}");
            assert!(rt; queue.settles(2) == second, "{seq}");
            queue.placed(seq);
        }
        assert!(rt; queue.settles(0) == None);
    }
    Ok(())
}

#[test]
fn scripts_answer_as_a_plain_list_does(rt: HostRuntime) -> Result<(), Fail> {
    for round in 0..120u64 {
        let first = round * 5;
        let joining = [0, 1, 2, 3, 4].map(|k| joining_of(mixed(first.wrapping_add(k))));
        let (settings, model, speculates) = MACHINES[(round % 6) as usize];
        let mut queue = filled(rt.alloc(), settings, &joining)?;
        let mut list = plain_list(rt.alloc(), &joining)?;
        for step in 0..30 {
            let x = mixed(round * 30 + step + 1000);
            assert!(rt; call_both(&mut queue, &mut list, x), "{round} {step}");
            assert!(rt;
                agree(&queue, list.as_slice(), model, speculates),
                "{round} {step}"
            );
            if x / 65536 % 4 == 0 {
                bind_both(&mut queue, &mut list);
            }
        }
    }
    Ok(())
}
