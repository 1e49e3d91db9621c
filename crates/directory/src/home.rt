// The home of lines.
ghost use Rattle.std.specs.Prelude.{◌≡◌, ◌+◌, ◌<◌, ◌≤◌, ◌*◌, drop, length, nat_le, option_map, true, IfOk, IfSome, OnSome};
ghost use Rattle.rsim_base.specs.Limits.{max_processors};
ghost use Rattle.machine_config.specs.Allowed.{IsAllowed};
ghost use Rattle.directory.specs.Homes.{HomeView, Serves, first_outgoing, has_room, home_after, is_idle, mail_of, most_outgoing, most_waiting};
ghost use Rattle.directory.specs.HomeParts.{AreFrom, AreKnown, letters_in, records_in};
ghost use Rattle.memory_contracts.specs.Letters.{letter_of, message_of, told};
ghost use Rattle.directory.specs.Start.{IsStart};

use crate::outgoing::{MOST_OUTGOING, Outgoing};
use crate::records::Records;
use crate::share::Share;
use crate::table::HomeTable;
use crate::waiting::Waiting;
use elf64_load::Image;
use machine_config::Config;
use memory_contracts::Message;
use rsim_base::{Line, NoMemory, Node};
use std::alloc::Global;

/// How many requests may wait at a home, for each node.
const MOST_WAITING_OF_NODE: usize = 32;

/// The home of a share of the lines: it keeps their memory, notes who has them, and answers the messages of nodes.
#[derive(Drop)]
pub struct Home {
    at: Node,
    table: HomeTable,
    latency: u32,
    records: Records,
    waiting: Waiting,
    outgoing: Outgoing,
    ghost few: { table.nodes ≤ max_processors },
    ghost known: { AreKnown table.nodes (records_in records) },
    ghost asked: { AreFrom table.nodes (letters_in waiting) },
    ghost places: { waiting.most ≡ most_waiting table.nodes },
}

impl Home {
    ghost use Rattle.directory.specs.HomeViews.{home_of};

    /// The home at node `h`, before any message: nobody has a line, and memory is the image's.
    ///
    /// # Errors
    /// Where memory is short.
    pub fn make(alloc: Global, image: &Image, config: &Config, h: Node) -> Result<Home, NoMemory>
        requires allowed { IsAllowed config.now }
        requires node { h.0 < config.now.processors }
        ensures start { IfOk result (λ home. IsStart image.now config.now h.0 (home_of home)) }
    {
        let share = Share::of(config, h);
        let records = share.records(alloc, image)?;
        let waiting = Waiting::make(alloc, config.processors as usize * MOST_WAITING_OF_NODE)?;
        let outgoing = Outgoing::make(alloc)?;
        Ok(Home {
            at: h,
            table: HomeTable {
                protocol: config.protocol,
                nodes: config.processors,
            },
            latency: config.home_latency,
            records,
            waiting,
            outgoing,
        })
    }

    /// Whether the home keeps a line.
    pub fn keeps(&self, line: Line) -> bool
        ensures { result ≡ (home_of self.now).lines line.0 }
    {
        self.records.has(line)
    }

    /// Whether a message may be taken: there are places for one more request to wait, and for two messages to each node.
    pub fn room(&self) -> bool
        ensures { result ≡ has_room (home_of self.now) }
    {
        self.has_place_to_wait() && self.has_place_to_send()
    }

    fn has_place_to_wait(&self) -> bool
        ensures { result ≡ nat_le (length (home_of self.now).waiting + 1) (most_waiting (home_of self.now).nodes) }
    {
        self.waiting.len() < self.waiting.most
    }

    fn has_place_to_send(&self) -> bool
        ensures { result ≡ nat_le (length (home_of self.now).outgoing + 2 * (home_of self.now).nodes) most_outgoing }
    {
        self.outgoing.len() + 2 * self.table.nodes as usize <= MOST_OUTGOING
    }

    /// Takes a message of a node about a line of the home, in tick `now`. What is no message to a home changes nothing.
    pub fn on_message(&mut self, m: &Message, now: u64)
        requires room { has_room (home_of self.old) ≡ true }
        requires line { (home_of self.old).lines m.now.line.0 ≡ true }
        requires from { m.now.from.0 < (home_of self.old).nodes }
        ensures after { home_of self.new ≡ home_after (letter_of m.now) now (home_of self.old) }
    {
        self.take(m, now);
    }

    /// Takes the first waiting request for an idle line, in tick `now`, and answers whether it did: not where the line is not idle, or
    /// none waits for it.
    pub fn next_waiting(&mut self, line: Line, now: u64) -> bool
        requires room { length (home_of self.old).outgoing + (home_of self.old).nodes ≤ 2048 }
        requires line { (home_of self.old).lines line.0 ≡ true }
        ensures serves { Serves line.0 now (home_of self.old) (home_of self.new) result }
    {
        if !self.is_idle(line) {
            return false;
        }
        let Some(place) = self.waiting.first_for(line) else {
            return false;
        };
        let request = self.waiting.remove(place);
        self.take(&request, now);
        true
    }

    fn is_idle(&self, line: Line) -> bool
        requires { (home_of self.now).lines line.0 ≡ true }
        ensures { result ≡ is_idle ((home_of self.now).records line.0).phase }
    {
        self.records.get(line).is_idle()
    }

    // Does what the table says at a message.
    fn take(&mut self, m: &Message, now: u64)
        requires line { (home_of self.old).lines m.now.line.0 ≡ true }
        requires from { m.now.from.0 < (home_of self.old).nodes }
        requires waiting { length (home_of self.old).waiting + 1 ≤ most_waiting (home_of self.old).nodes }
        requires outgoing { length (home_of self.old).outgoing + (home_of self.old).nodes ≤ 2048 }
        ensures { home_of self.new ≡ home_after (letter_of m.now) now (home_of self.old) }
    {
        let noted = self.records.get(m.line);
        let step = self.table.step(&noted, m);
        self.records.set(m.line, step.after);
        self.waiting.push_if(step.waits, m);
        self.outgoing
            .send(self.table.nodes, m.line, now, &step.sent);
    }

    /// The oldest message, with the node that it is for, if there is one and it may go in tick `now`.
    pub fn outgoing(&self, now: u64) -> Option<(Node, Message)>
        ensures oldest { option_map told result ≡ option_map mail_of (first_outgoing (home_of self.now).latency now (home_of self.now).outgoing) }
        ensures exactly { IfSome result (λ sent. sent.1 ≡ message_of (home_of self.now).at (told sent)) }
        ensures there { OnSome result (0 < length (home_of self.now).outgoing) }
    {
        let post = self.outgoing.first()?;
        if !post.may_go(self.latency, now) {
            return None;
        }
        Some((post.to, post.word.message(post.line, self.at)))
    }

    /// Takes the oldest message off.
    pub fn sent(&mut self)
        requires { 0 < length (home_of self.old).outgoing }
        ensures { home_of self.new ≡ record (home_of self.old) { outgoing = drop 1 (home_of self.old).outgoing } }
    {
        self.outgoing.drop_first();
    }
}
