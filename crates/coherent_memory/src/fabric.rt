// The homes, the nodes, and what carries messages between them.
ghost use Rattle.std.specs.Prelude.{◌≡◌, ℕ, ◌+◌, ◌*◌, ◌%◌, ◌<◌, ◌≤◌, [], ◌++◌, List, length, true, IfOk};
ghost use Rattle.arrayvec.specs.ArrayVec.{array_vec_len};
ghost use Rattle.rsim_base.specs.Bytes.{count_of};
ghost use Rattle.rsim_base.specs.Limits.{max_processors};
ghost use Rattle.machine_config.specs.Allowed.{IsAllowed};
ghost use Rattle.memory_contracts.specs.Bags.{no_flights};
ghost use Rattle.memory_contracts.specs.Protocol.Events.{is_to_home};
ghost use Rattle.memory_contracts.specs.Letters.{said};
ghost use Rattle.directory.specs.Homes.{HomeView, Serves};
ghost use Rattle.cache_levels.specs.Levels.{near, owned};
ghost use Rattle.node_memory.specs.Nodes.{after_read, after_wish, after_write, line_at, read_of, takes_wish};
ghost use Rattle.node_memory.specs.Sound.{AreBefore};
ghost use Rattle.coherent_memory.specs.Fabrics.{system_with};
ghost use Rattle.coherent_memory.specs.SystemInvariants.{HasKept, IsFine};
ghost use Rattle.coherent_memory.specs.HomeRows.{home_count};
ghost use Rattle.coherent_memory.specs.NodeRows.{node_count};
ghost use Rattle.coherent_memory.specs.Systems.{is_kept};

use crate::homes::Homes;
use crate::laws;
use crate::nodes::Nodes;
use elf64_load::Image;
use machine_config::Config;
use memory_contracts::{Carrier, Class, LostList, Message, laws as protocol_laws};
use node_memory::laws as node_laws;
use rsim_base::{Addr, Line, NoMemory, Node, Size};
use std::alloc::Global;

/// The homes, the nodes, and what carries messages between them.
#[derive(Drop)]
pub struct Fabric<C: Carrier> {
    pub(crate) count: u32,
    pub(crate) homes: Homes,
    pub(crate) nodes: Nodes,
    pub(crate) carrier: C,
    ghost home_count: { home_count homes ≡ count },
    ghost node_count: { node_count nodes ≡ count },
    ghost carried: { (C.meaning carrier).nodes ≡ count },
    ghost few: { count ≤ max_processors },
    ghost fine: { ∥ IsFine count (system_with homes nodes (C.meaning carrier)) ∥₁ },
}

impl<C: Carrier + Drop> Fabric<C> {
    ghost use Rattle.coherent_memory.specs.FabricViews.{system_of};
    ghost use Rattle.coherent_memory.specs.First.{IsFirst};

    /// The homes and the nodes that an image and a configuration give, over a carrier that is empty.
    ///
    /// # Errors
    /// Where memory is short.
    pub fn make(
        alloc: Global,
        image: &Image,
        config: &Config,
        carrier: C,
    ) -> Result<Fabric<C>, NoMemory>
        requires allowed { IsAllowed config.now }
        requires carrier { C.meaning carrier ≡ no_flights config.now }
        ensures first { IfOk result (λ made. IsFirst image.now config.now (system_of C.meaning made)) }
        ensures count { IfOk result (λ made. made.count ≡ config.now.processors) }
        ensures ticks { IfOk result (λ made. (system_of C.meaning made).carrier.ticks ≡ 0) }
    {
        protocol_laws::lines_stay_coherent();
        Ok(Fabric {
            count: config.processors,
            homes: Homes::make(alloc, image, config)?,
            nodes: Nodes::make(alloc, config)?,
            carrier,
        })
    }
}

impl<C: Carrier> Fabric<C> {
    ghost use Rattle.coherent_memory.specs.FabricViews.{system_of};
    ghost use Rattle.coherent_memory.specs.Lost.{AreGone, AreGoneBelow, AreGoneFrom};
    ghost use Rattle.coherent_memory.specs.Rooms.{Grows};
    ghost use Rattle.coherent_memory.specs.Sending.{MailsOne, PostsOne};
    ghost use Rattle.coherent_memory.specs.Turns.{HasTicked, HomeSends, NodeSends, Receives, ServesAll, Turn, Turns, begun, lost_at_begin, rooms, with_home, with_node};

    // Node `p` begins its part of a tick.
    fn begin(&mut self, p: Node, now: u64, lost: &mut LostList)
        requires node { p.0 < self.old.count }
        requires place { array_vec_len lost.old < 128 }
        requires later { AreBefore now ((system_of C.meaning self.old).nodes p.0).coming }
        ensures after { system_of C.meaning self.new ≡ begun p.0 now (system_of C.meaning self.old) }
        ensures lost { lost.new.items ≡ lost.old.items ++ lost_at_begin p.0 now (system_of C.meaning self.old) }
        ensures count { self.new.count ≡ self.old.count }
    {
        laws::nodes_keep_lines();
        self.nodes.begin(p, now, lost);
    }

    // A message for node `p` is taken, where its home and the node have room.
    fn receive(&mut self, p: Node, now: u64, lost: &mut LostList)
        requires node { p.0 < self.old.count }
        requires place { array_vec_len lost.old < 128 }
        ensures received { (told : List _) × Receives p.0 now (system_of C.meaning self.old) (system_of C.meaning self.new) told × (lost.new.items ≡ lost.old.items ++ told) }
        ensures count { self.new.count ≡ self.old.count }
    {
        if !self.has_room(p) {
            return;
        }
        laws::steps_keep_lines();
        laws::nodes_keep_lines();
        laws::rooms_suffice();
        let Some(m) = self.carrier.take(p) else {
            return;
        };
        if goes_to_home(&m) {
            self.homes.take(p, &m, now);
            self.serve_waiting(p, m.line, now);
        } else {
            self.nodes.take(p, &m, lost);
        }
    }

    // Whether node `p` and its home have room for a message.
    fn has_room(&self, p: Node) -> bool
        requires { p.0 < self.now.count }
        ensures { result ≡ rooms p.0 (system_of C.meaning self.now) }
    {
        self.homes.room(p) && self.nodes.room(p)
    }

    // The home of node `p` serves what waits for a line, as long as the line is idle.
    fn serve_waiting(&mut self, p: Node, line: Line, now: u64)
        requires node { p.0 < self.old.count }
        requires line { ((system_of C.meaning self.old).homes p.0).lines line.0 ≡ true }
        requires room { (u : HomeView) × (length u.outgoing + 2 * self.old.count ≤ 2048) × Grows line.0 u ((system_of C.meaning self.old).homes p.0) }
        ensures served { (home : HomeView) × ServesAll line.0 now ((system_of C.meaning self.old).homes p.0) home × (system_of C.meaning self.new ≡ with_home p.0 home (system_of C.meaning self.old)) }
        ensures count { self.new.count ≡ self.old.count }
    {
        laws::rooms_suffice();
        while self.serve_one(p, line, now) {}
    }

    // The home of node `p` serves the first request that waits for an idle line, if there is one.
    fn serve_one(&mut self, p: Node, line: Line, now: u64) -> bool
        requires node { p.0 < self.old.count }
        requires line { ((system_of C.meaning self.old).homes p.0).lines line.0 ≡ true }
        requires room { length ((system_of C.meaning self.old).homes p.0).outgoing + self.old.count ≤ 2048 }
        ensures served { (home : HomeView) × Serves line.0 now ((system_of C.meaning self.old).homes p.0) home result × (system_of C.meaning self.new ≡ with_home p.0 home (system_of C.meaning self.old)) }
        ensures count { self.new.count ≡ self.old.count }
    {
        laws::steps_keep_lines();
        self.homes.serve(p, line, now)
    }

    // The home of node `p` sends what it may, the oldest first, until the carrier refuses.
    fn send_posts(&mut self, p: Node, now: u64)
        requires node { p.0 < self.old.count }
        ensures sent { HomeSends p.0 now (system_of C.meaning self.old) (system_of C.meaning self.new) }
        ensures count { self.new.count ≡ self.old.count }
    {
        while self.send_post(p, now) {}
    }

    // The home of node `p` sends its oldest message, if it may go and the carrier takes it.
    fn send_post(&mut self, p: Node, now: u64) -> bool
        requires node { p.0 < self.old.count }
        ensures sent { PostsOne p.0 now (system_of C.meaning self.old) (system_of C.meaning self.new) result }
        ensures count { self.new.count ≡ self.old.count }
    {
        laws::steps_keep_lines();
        let Some((to, m)) = self.homes.outgoing(p, now) else {
            return false;
        };
        if !self.carrier.send(p, to, m) {
            return false;
        }
        self.homes.sent(p);
        true
    }

    // Node `p` sends what it has to send, the oldest first, until the carrier refuses.
    fn send_mails(&mut self, p: Node)
        requires node { p.0 < self.old.count }
        ensures sent { NodeSends p.0 (system_of C.meaning self.old) (system_of C.meaning self.new) }
        ensures count { self.new.count ≡ self.old.count }
    {
        while self.send_mail(p) {}
    }

    // Node `p` sends its oldest message, if the carrier takes it.
    fn send_mail(&mut self, p: Node) -> bool
        requires node { p.0 < self.old.count }
        ensures sent { MailsOne p.0 (system_of C.meaning self.old) (system_of C.meaning self.new) result }
        ensures count { self.new.count ≡ self.old.count }
    {
        laws::steps_keep_lines();
        let Some((to, m)) = self.nodes.outbox(p) else {
            return false;
        };
        if !self.carrier.send(p, to, m) {
            return false;
        }
        self.nodes.sent(p);
        true
    }

    // The turn of node `p` in tick `now`.
    fn turn(&mut self, p: Node, now: u64, lost: &mut LostList)
        requires node { p.0 < self.old.count }
        requires place { array_vec_len lost.old + 2 ≤ 128 }
        requires later { AreBefore now ((system_of C.meaning self.old).nodes p.0).coming }
        ensures turn { (gone : List _) × Turn p.0 now (system_of C.meaning self.old) (system_of C.meaning self.new) gone × ∥ AreGoneFrom p.0 (system_of C.meaning self.old) (system_of C.meaning self.new) gone ∥₁ × (lost.new.items ≡ lost.old.items ++ gone) }
        ensures kept { ∥ HasKept self.old.count (system_of C.meaning self.old) (system_of C.meaning self.new) ∥₁ }
        ensures count { self.new.count ≡ self.old.count }
    {
        laws::turns_tell();
        self.begin(p, now, lost);
        self.receive(p, now, lost);
        self.send_posts(p, now);
        self.send_mails(p);
    }

    // The turns of all nodes in tick `now`, one after the other.
    fn turns(&mut self, now: u64, lost: &mut LostList)
        requires none { lost.old.items ≡ [] }
        requires later { (q : ℕ) → q < self.old.count → AreBefore now ((system_of C.meaning self.old).nodes q).coming }
        ensures turns { Turns now (system_of C.meaning self.old) self.old.count (system_of C.meaning self.new) lost.new.items }
        ensures gone { ∥ AreGoneBelow self.old.count (system_of C.meaning self.old) (system_of C.meaning self.new) lost.new.items ∥₁ }
        ensures kept { ∥ HasKept self.old.count (system_of C.meaning self.old) (system_of C.meaning self.new) ∥₁ }
        ensures count { self.new.count ≡ self.old.count }
    {
        laws::turns_tell();
        for p in 0..self.count {
            self.turn(Node(p as u8), now, lost);
        }
    }

    /// Lets each node have its turn in tick `now`, one after the other, and then the carrier tick. Afterwards `lost` has the
    /// lines that left nodes that held them.
    pub fn tick(&mut self, now: u64, lost: &mut LostList)
        requires few { (system_of C.meaning self.old).carrier.ticks < 4294967295 }
        requires later { (q : ℕ) → q < self.old.count → AreBefore now ((system_of C.meaning self.old).nodes q).coming }
        ensures ticked { HasTicked C.Moves self.old.count now (system_of C.meaning self.old) (system_of C.meaning self.new) lost.new.items }
        ensures gone { ∥ AreGone (system_of C.meaning self.old) (system_of C.meaning self.new) lost.new.items ∥₁ }
        ensures kept { ∥ HasKept self.old.count (system_of C.meaning self.old) (system_of C.meaning self.new) ∥₁ }
        ensures count { self.new.count ≡ self.old.count }
    {
        laws::steps_keep_lines();
        laws::nodes_keep_lines();
        lost.clear();
        self.turns(now, lost);
        self.carrier.tick();
    }

    /// What node `p` reads: the value of `n` bytes at a multiple of `n`, where their line is near.
    pub fn read(&mut self, p: Node, a: Addr, n: Size) -> Option<u64>
        requires node { p.0 < self.old.count }
        requires aligned { a.0 % count_of n ≡ 0 }
        ensures value { result ≡ read_of ((system_of C.meaning self.old).nodes p.0) a.0 n }
        ensures after { system_of C.meaning self.new ≡ with_node p.0 (after_read a.0 ((system_of C.meaning self.old).nodes p.0)) (system_of C.meaning self.old) }
        ensures kept { ∥ HasKept self.old.count (system_of C.meaning self.old) (system_of C.meaning self.new) ∥₁ }
        ensures count { self.new.count ≡ self.old.count }
    {
        node_laws::tables_follow();
        laws::steps_keep_lines();
        self.nodes.read(p, a, n)
    }

    /// Node `p` stores the low `n` bytes of a value at a multiple of `n`, where it owns their line.
    pub fn write(&mut self, p: Node, a: Addr, n: Size, v: u64) -> bool
        requires node { p.0 < self.old.count }
        requires aligned { a.0 % count_of n ≡ 0 }
        ensures value { result ≡ owned (line_at ((system_of C.meaning self.old).nodes p.0) a.0) ((system_of C.meaning self.old).nodes p.0).levels }
        ensures after { system_of C.meaning self.new ≡ with_node p.0 (after_write a.0 n v ((system_of C.meaning self.old).nodes p.0)) (system_of C.meaning self.old) }
        ensures count { self.new.count ≡ self.old.count }
    {
        laws::nodes_keep_lines();
        self.nodes.write(p, a, n, v)
    }

    /// Node `p` asks for a line that a home keeps.
    pub fn wish(&mut self, p: Node, line: Line, own: bool) -> bool
        requires node { p.0 < self.old.count }
        requires line { is_kept self.old.count (system_of C.meaning self.old) line.0 ≡ true }
        ensures value { result ≡ takes_wish ((system_of C.meaning self.old).nodes p.0) line.0 own }
        ensures after { system_of C.meaning self.new ≡ with_node p.0 (after_wish line.0 own ((system_of C.meaning self.old).nodes p.0)) (system_of C.meaning self.old) }
        ensures kept { ∥ HasKept self.old.count (system_of C.meaning self.old) (system_of C.meaning self.new) ∥₁ }
        ensures count { self.new.count ≡ self.old.count }
    {
        node_laws::tables_follow();
        laws::steps_keep_lines();
        self.nodes.wish(p, line, own)
    }

    /// Whether node `p` may read a line now.
    pub fn is_near(&self, p: Node, line: Line) -> bool
        requires { p.0 < self.now.count }
        ensures { result ≡ near line.0 ((system_of C.meaning self.now).nodes p.0).levels }
    {
        self.nodes.is_near(p, line)
    }

    /// Whether node `p` may write a line now.
    pub fn is_owned(&self, p: Node, line: Line) -> bool
        requires { p.0 < self.now.count }
        ensures { result ≡ owned line.0 ((system_of C.meaning self.now).nodes p.0).levels }
    {
        self.nodes.is_owned(p, line)
    }
}

// Whether a message is for the home of its line.
fn goes_to_home(m: &Message) -> bool
    ensures { result ≡ is_to_home (said m.now) }
{
    matches!(m.kind.class(), Class::Ask | Class::Reply)
}
