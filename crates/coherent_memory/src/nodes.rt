// The nodes.
ghost use Rattle.std.specs.Prelude.{◌≡◌, ℕ, ◌%◌, ◌<◌, ◌++◌, length, option_map, slice_get, true, IfOk, IfSome};
ghost use Rattle.arrayvec.specs.ArrayVec.{array_vec_len};
ghost use Rattle.rsim_base.specs.Bytes.{count_of};
ghost use Rattle.machine_config.specs.Allowed.{IsAllowed};
ghost use Rattle.memory_contracts.specs.Letters.{letter_of, message_of, said, told};
ghost use Rattle.memory_contracts.specs.Updates.{with_at};
ghost use Rattle.cache_levels.specs.Levels.{near, owned};
ghost use Rattle.node_memory.specs.Nodes.{after_read, after_wish, after_write, awaits, empty_node, has_room, left_from, line_at, read_of, takes_wish, without_first_mail};
ghost use Rattle.node_memory.specs.Rows.{after_message, is_grant, lost_at};
ghost use Rattle.node_memory.specs.Sound.{AreBefore};
ghost use Rattle.node_memory.specs.Starting.{begins};

use machine_config::Config;
use memory_contracts::{LostList, Message};
use node_memory::NodeMemory;
use rsim_base::{Addr, Line, NoMemory, Node, Size};
use std::alloc::Global;

/// The nodes, by their numbers.
#[derive(Drop)]
pub struct Nodes {
    list: Vec<NodeMemory>,
}

impl Nodes {
    ghost use Rattle.coherent_memory.specs.NodeRows.{node_count, nodes_in};

    /// The nodes of a configuration, with nothing in their caches.
    ///
    /// # Errors
    /// Where memory is short.
    pub fn make(alloc: Global, config: &Config) -> Result<Nodes, NoMemory>
        requires { IsAllowed config.now }
        ensures count { IfOk result (λ made. node_count made ≡ config.now.processors) }
        ensures start { IfOk result (λ made. (p : ℕ) → p < config.now.processors → nodes_in made p ≡ empty_node config.now p) }
    {
        let mut list = Vec::new(alloc);
        for p in 0..config.processors {
            let node = NodeMemory::make(alloc, config, Node(p as u8))?;
            if list.push(node).is_err() {
                return Err(NoMemory);
            }
        }
        Ok(Nodes { list })
    }

    /// Whether node `p` has room for a message.
    pub fn room(&self, p: Node) -> bool
        requires { p.0 < node_count self.now }
        ensures { result ≡ has_room (nodes_in self.now p.0) }
    {
        self.list[p.0 as usize].room()
    }

    /// Node `p` takes a message. A line that it loses joins `lost`.
    pub fn take(&mut self, p: Node, m: &Message, lost: &mut LostList)
        requires node { p.0 < node_count self.old }
        requires room { has_room (nodes_in self.old p.0) ≡ true }
        requires place { array_vec_len lost.old < 128 }
        requires awaited { is_grant (said m.now) ≡ true → awaits (nodes_in self.old p.0) m.now.line.0 ≡ true }
        ensures after { nodes_in self.new ≡ with_at (nodes_in self.old) p.0 (after_message (letter_of m.now) (nodes_in self.old p.0)) }
        ensures lost { lost.new.items ≡ lost.old.items ++ left_from (nodes_in self.old p.0).at (lost_at (letter_of m.now) (nodes_in self.old p.0)) }
        ensures count { node_count self.new ≡ node_count self.old }
    {
        let node = &mut self.list[p.0 as usize];
        node.on_message(m, lost);
    }

    /// Node `p` begins its part of tick `now`: lines come near, and its first wish starts if it may. A line that leaves for it
    /// joins `lost`.
    pub fn begin(&mut self, p: Node, now: u64, lost: &mut LostList)
        requires node { p.0 < node_count self.old }
        requires place { array_vec_len lost.old < 128 }
        requires later { AreBefore now (nodes_in self.old p.0).coming }
        ensures after { nodes_in self.new ≡ with_at (nodes_in self.old) p.0 (begins now (nodes_in self.old p.0)).after }
        ensures lost { lost.new.items ≡ lost.old.items ++ left_from (nodes_in self.old p.0).at (begins now (nodes_in self.old p.0)).lost }
        ensures count { node_count self.new ≡ node_count self.old }
    {
        let node = &mut self.list[p.0 as usize];
        node.start_wish(now, lost);
    }

    /// The oldest message that node `p` has to send, with the node that it is for.
    pub fn outbox(&self, p: Node) -> Option<(Node, Message)>
        requires { p.0 < node_count self.now }
        ensures oldest { option_map told result ≡ slice_get (nodes_in self.now p.0).outbox 0 }
        ensures exactly { IfSome result (λ sent. sent.1 ≡ message_of (nodes_in self.now p.0).at (told sent)) }
    {
        self.list[p.0 as usize].outbox()
    }

    /// Takes that message off.
    pub fn sent(&mut self, p: Node)
        requires node { p.0 < node_count self.old }
        requires there { 0 < length (nodes_in self.old p.0).outbox }
        ensures after { nodes_in self.new ≡ with_at (nodes_in self.old) p.0 (without_first_mail (nodes_in self.old p.0)) }
        ensures count { node_count self.new ≡ node_count self.old }
    {
        let node = &mut self.list[p.0 as usize];
        node.sent();
    }

    /// What node `p` reads: the value of `n` bytes at a multiple of `n`, where their line is near.
    pub fn read(&mut self, p: Node, a: Addr, n: Size) -> Option<u64>
        requires node { p.0 < node_count self.old }
        requires aligned { a.0 % count_of n ≡ 0 }
        ensures value { result ≡ read_of (nodes_in self.old p.0) a.0 n }
        ensures after { nodes_in self.new ≡ with_at (nodes_in self.old) p.0 (after_read a.0 (nodes_in self.old p.0)) }
        ensures count { node_count self.new ≡ node_count self.old }
    {
        let node = &mut self.list[p.0 as usize];
        node.read(a, n)
    }

    /// Node `p` stores the low `n` bytes of a value at a multiple of `n`, where it owns their line.
    pub fn write(&mut self, p: Node, a: Addr, n: Size, v: u64) -> bool
        requires node { p.0 < node_count self.old }
        requires aligned { a.0 % count_of n ≡ 0 }
        ensures value { result ≡ owned (line_at (nodes_in self.old p.0) a.0) (nodes_in self.old p.0).levels }
        ensures after { nodes_in self.new ≡ with_at (nodes_in self.old) p.0 (after_write a.0 n v (nodes_in self.old p.0)) }
        ensures count { node_count self.new ≡ node_count self.old }
    {
        let node = &mut self.list[p.0 as usize];
        node.write(a, n, v)
    }

    /// Node `p` asks for a line.
    pub fn wish(&mut self, p: Node, line: Line, own: bool) -> bool
        requires node { p.0 < node_count self.old }
        ensures value { result ≡ takes_wish (nodes_in self.old p.0) line.0 own }
        ensures after { nodes_in self.new ≡ with_at (nodes_in self.old) p.0 (after_wish line.0 own (nodes_in self.old p.0)) }
        ensures count { node_count self.new ≡ node_count self.old }
    {
        let node = &mut self.list[p.0 as usize];
        node.wish(line, own)
    }

    /// Whether node `p` may read a line now.
    pub fn is_near(&self, p: Node, line: Line) -> bool
        requires { p.0 < node_count self.now }
        ensures { result ≡ near line.0 (nodes_in self.now p.0).levels }
    {
        self.list[p.0 as usize].is_near(line)
    }

    /// Whether node `p` may write a line now.
    pub fn is_owned(&self, p: Node, line: Line) -> bool
        requires { p.0 < node_count self.now }
        ensures { result ≡ owned line.0 (nodes_in self.now p.0).levels }
    {
        self.list[p.0 as usize].is_owned(line)
    }
}
