// The memory of a node.
ghost use Rattle.std.specs.Prelude.{◌≡◌, ◌+◌, ◌%◌, ◌<◌, ◌≤◌, ◌++◌, ◌∷◌, [], IfOk, IfSome, IsTrue, None, false, true, length, option_map, slice_get};
ghost use Rattle.arrayvec.specs.ArrayVec.{array_vec_len};
ghost use Rattle.rsim_base.specs.Bytes.{count_of};
ghost use Rattle.machine_config.specs.Allowed.{IsAllowed};
ghost use Rattle.memory_contracts.specs.Letters.{letter_of, message_of, said, told};
ghost use Rattle.memory_contracts.specs.Parts.{wish_of};
ghost use Rattle.cache_levels.specs.Levels.{held, near, owned};
ghost use Rattle.miss_registers.specs.Misses.{register_of, registers_full, with_register};
ghost use Rattle.node_memory.specs.Nodes.{left_from};
ghost use Rattle.node_memory.specs.Starting.{lines_of};
ghost use Rattle.node_memory.specs.NodeParts.{node_with, posts_for};
ghost use Rattle.node_memory.specs.Sound.{AreBefore, IsSound};
ghost use Rattle.node_memory.specs.declared.word.Word.TheVariants.{Get};

use crate::coming::Coming;
use crate::laws;
use crate::lines::Lines;
use crate::outbox::Outbox;
use crate::table::Row;
use crate::value::value_of;
use crate::wish_list::WishList;
use crate::word::Word;
use cache_levels::Evicted;
use machine_config::Config;
use memory_contracts::{LostList, Message, Wanted};
use miss_registers::MissRegisters;
use rsim_base::{Addr, Line, NoMemory, Node, Size, line_of};
use std::alloc::Global;

/// The memory of one node: its two levels of caches, the misses that are under way, the lines that it wishes, and the
/// messages that it has to send to the homes of lines.
#[derive(Drop)]
pub struct NodeMemory {
    at: Node,
    nodes: u32,
    latency: u32,
    line_bytes: u64,
    lines: Lines,
    wishes: WishList,
    coming: Coming,
    outbox: Outbox,
    ghost sound: { IsSound (node_with at nodes latency lines wishes coming outbox) },
    ghost bytes: { (lines.levels).line_bytes ≡ line_bytes },
}

impl NodeMemory {
    ghost use Rattle.node_memory.specs.NodeViews.{node_of};
    ghost use Rattle.node_memory.specs.Nodes.{after_read, after_wish, after_write, awaits, copy_of, empty_node, has_room, line_at, read_of, takes_wish, without_first_mail};
    ghost use Rattle.node_memory.specs.Rows.{after_message, is_grant, lost_at};
    ghost use Rattle.node_memory.specs.Starting.{arrived, begins, first_begins, has_to_wait, meets, starts, starts_shared, uncovered};

    /// Node `p` at first: its caches are empty, it awaits and wishes nothing, and has nothing to send.
    ///
    /// # Errors
    /// Where memory is short. No other call takes memory.
    pub fn make(alloc: Global, config: &Config, p: Node) -> Result<NodeMemory, NoMemory>
        requires { IsAllowed config.now }
        ensures { IfOk result (λ made. node_of made ≡ empty_node config.now p.0) }
    {
        Ok(NodeMemory {
            at: p,
            nodes: config.processors,
            latency: config.l2_latency,
            line_bytes: u64::from(config.line),
            lines: Lines::make(alloc, config)?,
            wishes: WishList::new(),
            coming: Coming::new(),
            outbox: Outbox::make(alloc)?,
        })
    }

    /// Whether a message may be taken: there is a place in the outbox, which has 1,024.
    pub fn room(&self) -> bool
        ensures { result ≡ has_room (node_of self.now) }
    {
        self.outbox.has_places(1)
    }

    /// Takes a message of the line's home. What is no message to a node, or never comes to one that has such a copy, changes
    /// nothing. A line that is lost joins `lost`.
    pub fn on_message(&mut self, m: &Message, lost: &mut LostList)
        requires room { has_room (node_of self.old) ≡ true }
        requires place { array_vec_len lost.old < 128 }
        requires awaited { is_grant (said m.now) ≡ true → awaits (node_of self.old) m.now.line.0 ≡ true }
        ensures after { node_of self.new ≡ after_message (letter_of m.now) (node_of self.old) }
        ensures lost { lost.new.items ≡ lost.old.items ++ left_from (node_of self.old).at (lost_at (letter_of m.now) (node_of self.old)) }
    {
        laws::caches_follow();
        let copy = self.lines.copy(m.line);
        let row = Row::at(m, &copy);
        self.lines.change(m.line, &row.change);
        if let Some(word) = row.reply {
            self.outbox.push(m.line, word);
        }
        if row.lost {
            lost.push((self.at, m.line));
        }
    }

    /// Brings near the held lines that have been fetched, and starts the first wish, if it may; `now` is the tick. Wishes that
    /// a register covers are dropped first. False where there is no wish, or it may not start. A line that leaves joins `lost`.
    pub fn start_wish(&mut self, now: u64, lost: &mut LostList) -> bool
        requires place { array_vec_len lost.old < 128 }
        requires later { AreBefore now (node_of self.old).coming }
        ensures answer { result ≡ (begins now (node_of self.old)).answer }
        ensures after { node_of self.new ≡ (begins now (node_of self.old)).after }
        ensures lost { lost.new.items ≡ lost.old.items ++ left_from (node_of self.old).at (begins now (node_of self.old)).lost }
    {
        self.bring_near(now);
        self.drop_covered();
        self.begin_first(now, lost)
    }

    // Brings near the held lines whose time has come.
    fn bring_near(&mut self, now: u64)
        ensures { node_of self.new ≡ arrived now (node_of self.old) }
    {
        laws::caches_follow();
        self.coming
            .arrive(&mut self.lines.levels, self.latency, now);
    }

    // Drops the first wishes as long as a register covers them.
    fn drop_covered(&mut self)
        ensures { node_of self.new ≡ record (node_of self.old) { wishes = uncovered (node_of self.old).misses (node_of self.old).wishes } }
    {
        self.wishes.drop_covered(&self.lines.misses);
    }

    // Starts the first wish, if it may.
    fn begin_first(&mut self, now: u64, lost: &mut LostList) -> bool
        requires place { array_vec_len lost.old < 128 }
        requires later { AreBefore now (node_of self.old).coming }
        requires room { length (node_of self.old).coming < 64 }
        ensures answer { result ≡ (first_begins now (node_of self.old).wishes (node_of self.old)).answer }
        ensures after { node_of self.new ≡ (first_begins now (node_of self.old).wishes (node_of self.old)).after }
        ensures lost { lost.new.items ≡ lost.old.items ++ left_from (node_of self.old).at (first_begins now (node_of self.old).wishes (node_of self.old)).lost }
    {
        let Some(wish) = self.wishes.first() else {
            return false;
        };
        if self.lines.meets(wish) {
            self.wishes.drop_first();
            self.coming.push(wish.line, now);
            return true;
        }
        if self.has_to_wait(wish) {
            return false;
        }
        self.wishes.drop_first();
        self.start(wish, lost)
    }

    // Whether a wish that its line's copy does not meet has to wait.
    fn has_to_wait(&self, wish: Wanted) -> bool
        ensures { result ≡ has_to_wait (wish_of wish) (node_of self.now) }
    {
        self.lines.is_busy(wish.line)
            || !self.outbox.has_places(2)
            || (!self.lines.hold(wish.line) && self.lines.lacks_way(wish.line))
    }

    // Starts a wish that need not wait.
    fn start(&mut self, wish: Wanted, lost: &mut LostList) -> bool
        requires place { array_vec_len lost.old < 128 }
        requires unmet { meets wish.own (copy_of (node_of self.old) wish.line.0) ≡ false }
        requires ready { has_to_wait (wish_of wish) (node_of self.old) ≡ false }
        ensures answer { result ≡ (starts (wish_of wish) (node_of self.old)).answer }
        ensures after { node_of self.new ≡ (starts (wish_of wish) (node_of self.old)).after }
        ensures lost { lost.new.items ≡ lost.old.items ++ left_from (node_of self.old).at (starts (wish_of wish) (node_of self.old)).lost }
    {
        if self.lines.hold(wish.line) {
            self.start_shared(wish);
            return true;
        }
        self.start_absent(wish, lost)
    }

    // Starts a wish to own a line that is shared.
    fn start_shared(&mut self, wish: Wanted)
        requires unmet { meets wish.own (copy_of (node_of self.old) wish.line.0) ≡ false }
        requires ready { has_to_wait (wish_of wish) (node_of self.old) ≡ false }
        requires held { IsTrue (held wish.line.0 (node_of self.old).levels) }
        ensures { node_of self.new ≡ (starts_shared (wish_of wish) (node_of self.old)).after }
    {
        laws::caches_follow();
        self.lines.levels.hold_way(wish.line);
        ask(&mut self.lines.misses, &mut self.outbox, wish);
    }

    // Starts a wish for a line that is absent.
    fn start_absent(&mut self, wish: Wanted, lost: &mut LostList) -> bool
        requires place { array_vec_len lost.old < 128 }
        requires unmet { meets wish.own (copy_of (node_of self.old) wish.line.0) ≡ false }
        requires ready { has_to_wait (wish_of wish) (node_of self.old) ≡ false }
        requires absent { held wish.line.0 (node_of self.old).levels ≡ false }
        ensures answer { result ≡ (starts (wish_of wish) (node_of self.old)).answer }
        ensures after { node_of self.new ≡ (starts (wish_of wish) (node_of self.old)).after }
        ensures lost { lost.new.items ≡ lost.old.items ++ left_from (node_of self.old).at (starts (wish_of wish) (node_of self.old)).lost }
    {
        laws::caches_follow();
        let Some(evicted) = self.lines.make_room(wish.line) else {
            return false;
        };
        put_back(&mut self.outbox, lost, self.at, &evicted);
        ask(&mut self.lines.misses, &mut self.outbox, wish);
        true
    }

    /// The value of `n` bytes at a multiple of `n`, as the node has them: `None` exactly where their line is not near. A line
    /// that is read is the most recent.
    pub fn read(&mut self, a: Addr, n: Size) -> Option<u64>
        requires { a.0 % count_of n ≡ 0 }
        ensures value { result ≡ read_of (node_of self.old) a.0 n }
        ensures after { node_of self.new ≡ after_read a.0 (node_of self.old) }
    {
        laws::caches_follow();
        let line = line_of(a, self.line_bytes);
        if !self.lines.levels.near(line) {
            return None;
        }
        self.lines.levels.touch(line);
        let bytes = self.lines.levels.copy(line)?;
        Some(value_of(bytes, (a.0 % self.line_bytes) as usize, n))
    }

    /// Stores the low `n` bytes of a value at a multiple of `n`, and answers whether it did: exactly where the node owns their
    /// line. Else nothing changes. A line that is written is the most recent.
    pub fn write(&mut self, a: Addr, n: Size, v: u64) -> bool
        requires { a.0 % count_of n ≡ 0 }
        ensures value { result ≡ owned (line_at (node_of self.old) a.0) (node_of self.old).levels }
        ensures after { node_of self.new ≡ after_write a.0 n v (node_of self.old) }
    {
        laws::caches_follow();
        let line = line_of(a, self.line_bytes);
        if !self.lines.levels.own(line) {
            return false;
        }
        self.lines.levels.write(a, n, v);
        self.lines.levels.touch(line);
        true
    }

    /// Asks for a line, to own it or to read it, and answers whether the wish is taken: not where there are 16 wishes, none of
    /// which covers it. One that is covered adds nothing.
    pub fn wish(&mut self, line: Line, own: bool) -> bool
        ensures value { result ≡ takes_wish (node_of self.old) line.0 own }
        ensures after { node_of self.new ≡ after_wish line.0 own (node_of self.old) }
    {
        if self.wishes.cover(line, own) {
            return true;
        }
        if !self.wishes.has_place() {
            return false;
        }
        self.wishes.push(Wanted { line, own });
        true
    }

    /// Whether a line may be read now.
    pub fn is_near(&self, line: Line) -> bool
        ensures { result ≡ near line.0 (node_of self.now).levels }
    {
        self.lines.levels.near(line)
    }

    /// Whether a line may be written now.
    pub fn is_owned(&self, line: Line) -> bool
        ensures { result ≡ owned line.0 (node_of self.now).levels }
    {
        self.lines.levels.own(line)
    }

    /// Whether a line is awaited: it was asked for, and has not come.
    pub fn is_awaited(&self, line: Line) -> bool
        ensures { result ≡ awaits (node_of self.now) line.0 }
    {
        self.lines.misses.merge(line, false)
    }

    /// The oldest message, with the node that it is for, if there is one.
    pub fn outbox(&self) -> Option<(Node, Message)>
        ensures oldest { option_map told result ≡ slice_get (node_of self.now).outbox 0 }
        ensures exactly { IfSome result (λ sent. sent.1 ≡ message_of (node_of self.now).at (told sent)) }
    {
        let post = self.outbox.first()?;
        Some((
            self.home_of(post.line),
            post.word.message(post.line, self.at),
        ))
    }

    // The node that is the home of a line.
    fn home_of(&self, line: Line) -> Node
        ensures { result.0 ≡ line.0 % (node_of self.now).nodes }
    {
        Node((line.0 % u64::from(self.nodes)) as u8)
    }

    /// Takes the oldest message off.
    pub fn sent(&mut self)
        requires { 0 < length (node_of self.old).outbox }
        ensures { node_of self.new ≡ without_first_mail (node_of self.old) }
    {
        self.outbox.drop_first();
    }
}

// Notes that a line has left node `p`, and has its bytes put back if it was owned.
fn put_back(outbox: &mut Outbox, lost: &mut LostList, p: Node, evicted: &Evicted)
    requires place { array_vec_len lost.old < 128 }
    requires room { length outbox.old.posts.items < 1024 }
    ensures lost { lost.new.items ≡ lost.old.items ++ left_from p.0 (lines_of evicted.now.line) }
    ensures posts { outbox.new.posts.items ≡ outbox.old.posts.items ++ posts_for evicted.now }
    ensures few { length outbox.new.posts.items ≤ length outbox.old.posts.items + 1 }
{
    let Some(line) = evicted.line else { return };
    if evicted.owned {
        outbox.push(
            line,
            Word::Put {
                bytes: evicted.bytes,
            },
        );
    }
    lost.push((p, line));
}

// Opens a register for a line that is wished, and asks its home for it.
fn ask(misses: &mut MissRegisters, outbox: &mut Outbox, wish: Wanted)
    requires none { register_of misses.old wish.line.0 ≡ None }
    requires free { registers_full misses.old ≡ false }
    requires room { length outbox.old.posts.items < 1024 }
    ensures misses { misses.new ≡ with_register wish.line.0 wish.own misses.old }
    ensures posts { outbox.new.posts.items ≡ outbox.old.posts.items ++ record { line = wish.line; word = Get wish.own } ∷ [] }
{
    let _ = misses.begin(wish.line, wish.own);
    outbox.push(wish.line, Word::Get { own: wish.own });
}
