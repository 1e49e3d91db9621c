// What a home has to send.
ghost use Rattle.std.specs.Prelude.{◌≡◌, ℕ, ◌+◌, ◌<◌, ◌≤◌, ◌∷◌, ◌++◌, [], map, length, drop, option_map, slice_get, IfOk};
ghost use Rattle.std.specs.VecDeque.{deque_capacity};
ghost use Rattle.rsim_base.specs.Limits.{max_processors};
ghost use Rattle.memory_contracts.specs.Protocol.HomeTable.{to_each};
ghost use Rattle.memory_contracts.specs.Protocol.Messages.{Inv};
ghost use Rattle.directory.specs.NodeSets.{set_of};

use crate::node_set::NodeSet;
use crate::step::Sent;
use crate::word::Word;
use rsim_base::{Line, NoMemory, Node};
use std::alloc::Global;
use std::collections::VecDeque;

/// What a home has to say to a node about a line.
#[derive(Clone, Copy)]
pub struct Post {
    pub line: Line,
    pub to: Node,
    pub word: Word,
    /// The tick in which that was taken which it answers.
    pub since: u64,
}

impl Post {
    ghost use Rattle.directory.specs.Homes.{may_go};
    ghost use Rattle.directory.specs.HomeParts.{post_of};

    /// Whether it may go, where a home takes so many ticks to answer.
    pub fn may_go(&self, latency: u32, now: u64) -> bool
        ensures { result ≡ may_go latency now (post_of self.now) }
    {
        now >= self.since && now - self.since >= u64::from(latency)
    }
}

/// How many messages a home may have to send.
pub const MOST_OUTGOING: usize = 2048;

/// What a home has to send, the oldest first, with memory for all that it may have.
#[derive(Drop)]
pub struct Outgoing {
    posts: VecDeque<Post>,
    ghost memory: { 2048 ≤ deque_capacity posts },
}

impl Outgoing {
    ghost use Rattle.directory.specs.Homes.{post_to, posts};
    ghost use Rattle.directory.specs.HomeParts.{post_of, posts_in};
    ghost use Rattle.directory.specs.Meanings.{sent_of};

    /// Nothing to be sent.
    ///
    /// # Errors
    /// Where memory is short.
    pub fn make(alloc: Global) -> Result<Outgoing, NoMemory>
        ensures { IfOk result (λ made. posts_in made ≡ []) }
    {
        match VecDeque::with_capacity(alloc, MOST_OUTGOING) {
            Ok(posts) => Ok(Outgoing { posts }),
            Err(_) => Err(NoMemory),
        }
    }

    /// How many there are.
    pub fn len(&self) -> usize
        ensures { result ≡ length (posts_in self.now) }
    {
        self.posts.len()
    }

    /// The oldest.
    pub fn first(&self) -> Option<Post>
        ensures { option_map post_of result ≡ slice_get (posts_in self.now) 0 }
    {
        self.posts.front().copied()
    }

    /// Takes the oldest off.
    pub fn drop_first(&mut self)
        requires { 0 < length (posts_in self.old) }
        ensures { posts_in self.new ≡ drop 1 (posts_in self.old) }
    {
        self.posts.pop_front();
    }

    fn push(&mut self, post: Post)
        requires { length (posts_in self.old) < 2048 }
        ensures { posts_in self.new ≡ posts_in self.old ++ post_of post ∷ [] }
    {
        self.posts.push_back_reserved(post);
    }

    /// Puts what is sent about a line behind the rest, to one node after the other.
    pub fn send(&mut self, nodes: u32, line: Line, now: u64, sent: &Sent)
        requires few { nodes ≤ max_processors }
        requires room { length (posts_in self.old) + nodes ≤ 2048 }
        requires known { (y : ℕ) → nodes ≤ y → sent_of sent.now y ≡ [] }
        ensures { posts_in self.new ≡ posts_in self.old ++ posts nodes line.0 now (sent_of sent.now) }
    {
        match *sent {
            Sent::Nothing => {}
            Sent::One { to, word } => self.push(Post {
                line,
                to,
                word,
                since: now,
            }),
            Sent::Invs { to } => self.send_invs(nodes, line, now, &to),
        }
    }

    // Orders these nodes to give up their copies.
    fn send_invs(&mut self, nodes: u32, line: Line, now: u64, to: &NodeSet)
        requires few { nodes ≤ max_processors }
        requires room { length (posts_in self.old) + nodes ≤ 2048 }
        ensures { posts_in self.new ≡ posts_in self.old ++ posts nodes line.0 now (to_each (set_of to.now) Inv) }
    {
        for x in 0..nodes {
            self.send_inv(line, now, to, Node(x as u8));
        }
    }

    // Orders node `x` to give up its copy, where it is among these.
    fn send_inv(&mut self, line: Line, now: u64, to: &NodeSet, x: Node)
        requires node { x.0 < max_processors }
        requires room { length (posts_in self.old) < 2048 }
        ensures posts { posts_in self.new ≡ posts_in self.old ++ map (post_to line.0 now x.0) (to_each (set_of to.now) Inv x.0) }
        ensures one { length (posts_in self.new) ≤ length (posts_in self.old) + 1 }
    {
        if to.contains(x) {
            self.push(Post {
                line,
                to: x,
                word: Word::Inv,
                since: now,
            });
        }
    }
}
