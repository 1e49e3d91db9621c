// The rooms that each node has for its messages.
ghost use Rattle.std.specs.Prelude.{◌≡◌, ℕ, ◌+◌, ◌-◌, ◌<◌, nat_le};
ghost use Rattle.rsim_base.specs.Limits.{max_processors};
ghost use Rattle.memory_contracts.specs.Rooms.{counted_of, with_counted};

use crate::exchange::MOST_NODES;
use crate::message::Class;
use rsim_base::Node;

/// How many messages of each class are under way that one node has sent.
#[derive(Clone, Copy, Default)]
pub struct Counts {
    ask: u8,
    order: u8,
    give: u8,
    reply: u8,
}

impl Counts {
    fn of(&self, class: Class) -> u8
        ensures { result ≡ counted_of self.now class }
    {
        match class {
            Class::Ask => self.ask,
            Class::Order => self.order,
            Class::Give => self.give,
            Class::Reply => self.reply,
        }
    }

    fn set(&mut self, class: Class, count: u8)
        ensures { self.new ≡ with_counted self.old class count }
    {
        match class {
            Class::Ask => self.ask = count,
            Class::Order => self.order = count,
            Class::Give => self.give = count,
            Class::Reply => self.reply = count,
        }
    }
}

/// How many messages of a class a node may have under way.
pub const ROOM: u8 = 8;

/// The rooms of each node, one for each class: how many messages are under way that the node has sent.
#[derive(Clone, Copy)]
pub struct Rooms {
    counts: [Counts; MOST_NODES],
}

impl Rooms {
    ghost use Rattle.memory_contracts.specs.Rooms.{count_in, with_count};

    /// Rooms in which nothing is.
    pub fn empty() -> Rooms
        ensures { (p : ℕ) (c : Class) → count_in result p c ≡ 0 }
    {
        Rooms {
            counts: [Counts::default(); MOST_NODES],
        }
    }

    /// Whether the room of node `p` for a class is full.
    pub fn is_full(&self, p: Node, class: Class) -> bool
        requires { p.0 < max_processors }
        ensures { result ≡ nat_le 8 (count_in self.now p.0 class) }
    {
        self.counts[p.0 as usize].of(class) >= ROOM
    }

    /// A message of node `p` enters its room.
    pub fn enter(&mut self, p: Node, class: Class)
        requires node { p.0 < max_processors }
        requires room { count_in self.old p.0 class < 8 }
        ensures { count_in self.new ≡ with_count (count_in self.old) p.0 class (count_in self.old p.0 class + 1) }
    {
        let counts = &mut self.counts[p.0 as usize];
        counts.set(class, counts.of(class) + 1);
    }

    /// A message of node `p` leaves its room.
    pub fn leave(&mut self, p: Node, class: Class)
        requires node { p.0 < max_processors }
        requires some { 0 < count_in self.old p.0 class }
        ensures { count_in self.new ≡ with_count (count_in self.old) p.0 class (count_in self.old p.0 class - 1) }
    {
        let counts = &mut self.counts[p.0 as usize];
        counts.set(class, counts.of(class) - 1);
    }
}
