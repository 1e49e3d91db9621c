// The homes of all nodes.
ghost use Rattle.std.specs.Prelude.{◌≡◌, ℕ, ◌+◌, ◌<◌, ◌≤◌, drop, length, option_map, true, IfOk, IfSome, OnSome};
ghost use Rattle.machine_config.specs.Allowed.{IsAllowed};
ghost use Rattle.memory_contracts.specs.Letters.{letter_of, message_of, told};
ghost use Rattle.memory_contracts.specs.Updates.{with_at};
ghost use Rattle.directory.specs.Homes.{HomeView, Serves, first_outgoing, has_room, home_after, mail_of, most_outgoing};
ghost use Rattle.directory.specs.Start.{IsStart};

use directory::Home;
use elf64_load::Image;
use machine_config::Config;
use memory_contracts::Message;
use rsim_base::{Line, NoMemory, Node};
use std::alloc::Global;

/// The homes of all nodes, by the node's number.
#[derive(Drop)]
pub struct Homes {
    list: Vec<Home>,
}

impl Homes {
    ghost use Rattle.coherent_memory.specs.HomeRows.{home_count, homes_in};

    /// The homes that an image and a configuration give, before any message.
    ///
    /// # Errors
    /// Where memory is short.
    pub fn make(alloc: Global, image: &Image, config: &Config) -> Result<Homes, NoMemory>
        requires { IsAllowed config.now }
        ensures count { IfOk result (λ made. home_count made ≡ config.now.processors) }
        ensures start { IfOk result (λ made. (p : ℕ) → p < config.now.processors → IsStart image.now config.now p (homes_in made p)) }
    {
        let mut list = Vec::new(alloc);
        for p in 0..config.processors {
            let home = Home::make(alloc, image, config, Node(p as u8))?;
            if list.push(home).is_err() {
                return Err(NoMemory);
            }
        }
        Ok(Homes { list })
    }

    /// Whether the home of node `p` keeps a line.
    pub fn keeps(&self, p: Node, line: Line) -> bool
        requires { p.0 < home_count self.now }
        ensures { result ≡ (homes_in self.now p.0).lines line.0 }
    {
        self.list[p.0 as usize].keeps(line)
    }

    /// Whether the home of node `p` has room for a message.
    pub fn room(&self, p: Node) -> bool
        requires { p.0 < home_count self.now }
        ensures { result ≡ has_room (homes_in self.now p.0) }
    {
        self.list[p.0 as usize].room()
    }

    /// The home of node `p` takes a message, in tick `now`.
    pub fn take(&mut self, p: Node, m: &Message, now: u64)
        requires node { p.0 < home_count self.old }
        requires room { has_room (homes_in self.old p.0) ≡ true }
        requires line { (homes_in self.old p.0).lines m.now.line.0 ≡ true }
        requires from { m.now.from.0 < (homes_in self.old p.0).nodes }
        ensures after { homes_in self.new ≡ with_at (homes_in self.old) p.0 (home_after (letter_of m.now) now (homes_in self.old p.0)) }
        ensures count { home_count self.new ≡ home_count self.old }
    {
        let home = &mut self.list[p.0 as usize];
        home.on_message(m, now);
    }

    /// The home of node `p` serves the first request that waits for an idle line, and answers whether there was one.
    pub fn serve(&mut self, p: Node, line: Line, now: u64) -> bool
        requires node { p.0 < home_count self.old }
        requires room { length (homes_in self.old p.0).outgoing + (homes_in self.old p.0).nodes ≤ 2048 }
        requires line { (homes_in self.old p.0).lines line.0 ≡ true }
        ensures serves { (home : HomeView) × Serves line.0 now (homes_in self.old p.0) home result × (homes_in self.new ≡ with_at (homes_in self.old) p.0 home) }
        ensures count { home_count self.new ≡ home_count self.old }
    {
        let home = &mut self.list[p.0 as usize];
        home.next_waiting(line, now)
    }

    /// The oldest message that the home of node `p` has to send, with the node that it is for, if it may go in tick `now`.
    pub fn outgoing(&self, p: Node, now: u64) -> Option<(Node, Message)>
        requires { p.0 < home_count self.now }
        ensures oldest { option_map told result ≡ option_map mail_of (first_outgoing (homes_in self.now p.0).latency now (homes_in self.now p.0).outgoing) }
        ensures exactly { IfSome result (λ sent. sent.1 ≡ message_of (homes_in self.now p.0).at (told sent)) }
        ensures there { OnSome result (0 < length (homes_in self.now p.0).outgoing) }
    {
        self.list[p.0 as usize].outgoing(now)
    }

    /// Takes that message off.
    pub fn sent(&mut self, p: Node)
        requires node { p.0 < home_count self.old }
        requires there { 0 < length (homes_in self.old p.0).outgoing }
        ensures after { homes_in self.new ≡ with_at (homes_in self.old) p.0 (record (homes_in self.old p.0) { outgoing = drop 1 (homes_in self.old p.0).outgoing }) }
        ensures count { home_count self.new ≡ home_count self.old }
    {
        let home = &mut self.list[p.0 as usize];
        home.sent();
    }
}
