// Lines that a processor needs, and asks for where it lacks them.
ghost use Rattle.std.specs.Prelude.{◌≡◌, ◌≢◌, ◌<◌, false, not};
ghost use Rattle.memory_contracts.specs.Store.{line_at, AreMapped, IsLineMapped};
ghost use Rattle.rsim_base.specs.Bytes.{count_of};
ghost use Rattle.sparc_meaning.specs.Acts.{IsAligned, IsAlignedWant};
ghost use Rattle.cycle_loop.specs.Lines.{lacks, wants_line, IsActMapped, IsWantMapped};
ghost use Rattle.cycle_loop.specs.Machine.{bytes_after, lacks_line, value_found};

use memory_contracts::CoherentStore;
use rsim_base::{Addr, Kind, Line, Node, line_of};
use sparc_meaning::{Act, Want};

fn has_line<M: CoherentStore>(p: Node, line: Line, kind: Kind, store: &M) -> bool
    requires node { p.0 < (M.meaning store.now).nodes }
    ensures { result ≡ not (lacks (M.meaning store.now) p.0 line.0 kind) }
{
    match kind {
        Kind::Load => store.is_near(p, line),
        Kind::Store => store.is_owned(p, line),
        Kind::Atomic => store.is_near(p, line) && store.is_owned(p, line),
    }
}

// Whether the processor lacks the line of an address for an access of a kind. It asks for one that it lacks.
fn lacks_or_asks<M: CoherentStore>(
    p: Node,
    a: Addr,
    kind: Kind,
    line_bytes: u64,
    store: &mut M,
) -> bool
    requires node { p.0 < (M.meaning store.old).nodes }
    requires line { line_bytes ≡ (M.meaning store.old).line_bytes }
    requires some { line_bytes ≢ 0 }
    requires mapped { IsLineMapped (M.meaning store.old) (line_at (M.meaning store.old) a.0) }
    ensures value { result ≡ lacks (M.meaning store.old) p.0 (line_at (M.meaning store.old) a.0) kind }
    ensures store { M.meaning store.new ≡ record (M.meaning store.old) { wishes = (M.meaning store.new).wishes } }
{
    let line = line_of(a, line_bytes);
    if has_line(p, line, kind, store) {
        return false;
    }
    // A wish that is not taken is made again in the next cycle.
    let _taken = store.wish(p, line, kind.stores());
    true
}

/// Whether the processor lacks the line that its next step will read. It asks for one that it lacks.
#[tactic(auto, using(crate::proofs::Mapped::line_mapped))]
pub(crate) fn lacks_wanted<M: CoherentStore>(
    p: Node,
    want: Want,
    line_bytes: u64,
    store: &mut M,
) -> bool
    requires node { p.0 < (M.meaning store.old).nodes }
    requires line { line_bytes ≡ (M.meaning store.old).line_bytes }
    requires some { line_bytes ≢ 0 }
    requires mapped { IsWantMapped (M.meaning store.old) want }
    ensures value { result ≡ wants_line (M.meaning store.old) p.0 want }
    ensures store { M.meaning store.new ≡ record (M.meaning store.old) { wishes = (M.meaning store.new).wishes } }
{
    match want {
        Want::Load(a, _) => lacks_or_asks(p, a, Kind::Load, line_bytes, store),
        Want::Atomic(a, _) => lacks_or_asks(p, a, Kind::Atomic, line_bytes, store),
        Want::None | Want::Ended => false,
    }
}

/// Whether the processor lacks the line that its step would store to. It asks for one that it lacks.
pub(crate) fn lacks_stored<M: CoherentStore>(
    p: Node,
    act: Act,
    line_bytes: u64,
    store: &mut M,
) -> bool
    requires node { p.0 < (M.meaning store.old).nodes }
    requires line { line_bytes ≡ (M.meaning store.old).line_bytes }
    requires some { line_bytes ≢ 0 }
    requires mapped { IsActMapped (M.meaning store.old) act }
    ensures value { result ≡ lacks_line (M.meaning store.old) p.0 act }
    ensures store { M.meaning store.new ≡ record (M.meaning store.old) { wishes = (M.meaning store.new).wishes } }
{
    match act {
        Act::Load(a, _, _) => lacks_or_asks(p, a, Kind::Load, line_bytes, store),
        Act::Store(a, _, _) => lacks_or_asks(p, a, Kind::Store, line_bytes, store),
        Act::Atomic(a, _, _, _) => lacks_or_asks(p, a, Kind::Atomic, line_bytes, store),
        Act::Nothing | Act::Fence(_) | Act::Out(_) | Act::End => false,
    }
}

/// What memory has where the next step reads it, whose line is near.
pub(crate) fn value_for<M: CoherentStore>(p: Node, want: Want, store: &mut M) -> u64
    requires node { p.0 < (M.meaning store.old).nodes }
    requires aligned { IsAlignedWant want }
    requires mapped { IsWantMapped (M.meaning store.old) want }
    requires near { wants_line (M.meaning store.old) p.0 want ≡ false }
    ensures value { result ≡ value_found (M.meaning store.old).bytes want }
    ensures store { M.meaning store.new ≡ M.meaning store.old }
{
    match want {
        Want::Load(a, n) | Want::Atomic(a, n) => match store.read(p, a, n) {
            Some(value) => value,
            None => unreachable!(),
        },
        Want::None | Want::Ended => 0,
    }
}

/// Performs what a step stores, whose line is owned.
pub(crate) fn perform<M: CoherentStore>(p: Node, act: Act, store: &mut M)
    requires node { p.0 < (M.meaning store.old).nodes }
    requires aligned { IsAligned act }
    requires mapped { IsActMapped (M.meaning store.old) act }
    requires owned { lacks_line (M.meaning store.old) p.0 act ≡ false }
    ensures { M.meaning store.new ≡ record (M.meaning store.old) { bytes = bytes_after act (M.meaning store.old).bytes } }
{
    match act {
        Act::Store(a, n, stored) | Act::Atomic(a, n, _, stored) => {
            let _written = store.write(p, a, n, stored);
        }
        Act::Nothing | Act::Load(_, _, _) | Act::Fence(_) | Act::Out(_) | Act::End => {}
    }
}
