// A store of cache lines, as the parts of a processor know it.
ghost use Rattle.std.specs.Prelude.{◌≡◌, ◌%◌, ◌<◌, List};
ghost use Rattle.rsim_base.specs.Bytes.{count_of};
ghost use Rattle.rsim_base.specs.declared.memory.Line.{Line};
ghost use Rattle.rsim_base.specs.declared.memory.Node.{Node};
ghost use Rattle.memory_contracts.specs.Store.{StoreView, AreMapped, Effects, IsLineMapped, IsSound, Ticks, after_wish, after_write, line_at, read_of, takes_wish};

use arrayvec::ArrayVec;
use rsim_base::{Addr, Line, Node, Size};

/// The lines that left the nodes that held them, in one tick.
pub type LostList = ArrayVec<(Node, Line), 128>;

/// Memory that nodes share, line by line. A node reads a line only while the line is near, and writes it only while it
/// owns it; it asks for lines by wishes, and lines come and go at ticks.
pub trait CoherentStore {
    ghost meaning: { Self → StoreView };

    // What stands behind it: where each call says what becomes of that, it is known to the last bit.
    ghost Inside: { Type 0 };

    ghost inside: { Self → Inside };

    ghost view: { Inside → StoreView };

    ghost effects: { Effects Inside };

    ghost Ticked: { Inside → Inside → List (Node × Line) → Type 0 };

    /// The value of `n` bytes at a multiple of `n`: `None` exactly where their line is not near node `p`.
    fn read(&mut self, p: Node, a: Addr, n: Size) -> Option<u64>
        requires node { p.0 < (meaning self.old).nodes }
        requires aligned { a.0 % count_of n ≡ 0 }
        requires mapped { AreMapped (meaning self.old) a.0 (count_of n) }
        ensures value { result ≡ read_of (meaning self.old) p.0 a.0 (count_of n) }
        ensures stays { meaning self.new ≡ meaning self.old }
        ensures told { inside self.new ≡ effects.reading p.0 a.0 n (inside self.old) };

    /// Stores the low `n` bytes of a value at a multiple of `n`, and answers whether it did: exactly where node `p`
    /// owns their line. Else nothing changes.
    fn write(&mut self, p: Node, a: Addr, n: Size, v: u64) -> bool
        requires node { p.0 < (meaning self.old).nodes }
        requires aligned { a.0 % count_of n ≡ 0 }
        requires mapped { AreMapped (meaning self.old) a.0 (count_of n) }
        ensures value { result ≡ (meaning self.old).owned p.0 (line_at (meaning self.old) a.0) }
        ensures after { meaning self.new ≡ after_write (meaning self.old) p.0 a.0 (count_of n) v }
        ensures told { inside self.new ≡ effects.writing p.0 a.0 n v (inside self.old) };

    /// Asks for a line, to own it or to read it, and answers whether the wish is taken: it is not where node `p` has 16
    /// wishes that do not cover it.
    fn wish(&mut self, p: Node, line: Line, own: bool) -> bool
        requires node { p.0 < (meaning self.old).nodes }
        requires mapped { IsLineMapped (meaning self.old) line.0 }
        ensures value { result ≡ takes_wish (meaning self.old) p.0 line.0 own }
        ensures after { meaning self.new ≡ after_wish (meaning self.old) p.0 line.0 own }
        ensures told { inside self.new ≡ effects.wishing p.0 line.0 own (inside self.old) };

    /// Whether node `p` may read a line now.
    fn is_near(&self, p: Node, line: Line) -> bool
        requires node { p.0 < (meaning self.now).nodes }
        ensures value { result ≡ (meaning self.now).near p.0 line.0 };

    /// Whether node `p` may write a line now.
    fn is_owned(&self, p: Node, line: Line) -> bool
        requires node { p.0 < (meaning self.now).nodes }
        ensures value { result ≡ (meaning self.now).owned p.0 line.0 };

    /// Lets lines come and go. Afterwards `lost` has exactly the lines that left nodes that held them, whatever it had
    /// before.
    fn tick(&mut self, lost: &mut LostList)
        requires few { (meaning self.old).ticks < 4294967295 }
        ensures ticks { Ticks (meaning self.old) (meaning self.new) lost.new.items }
        ensures told { Ticked (inside self.old) (inside self.new) lost.new.items };

    ghost sound: { (s : Self) → IsSound (meaning s) };

    ghost seen: { (s : Self) → meaning s ≡ view (inside s) };
}
