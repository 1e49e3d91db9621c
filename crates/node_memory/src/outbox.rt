// What a node has to send.
ghost use Rattle.std.specs.Prelude.{◌≡◌, ◌+◌, nat_le, ℕ, ◌<◌, ◌≤◌, ◌++◌, ◌∷◌, [], drop, length, map, option_map, slice_get, IfOk};
ghost use Rattle.std.specs.VecDeque.{deque_capacity};

use crate::word::Word;
use rsim_base::{Line, NoMemory};
use std::alloc::Global;
use std::collections::VecDeque;

/// What a node has to say to the home of a line.
#[derive(Clone, Copy)]
pub struct Post {
    pub line: Line,
    pub word: Word,
}

/// How many messages a node may have to send.
const MOST_MAILS: usize = 1024;

/// What a node has to send, the oldest first, with memory for all that it may have.
#[derive(Drop)]
pub struct Outbox {
    posts: VecDeque<Post>,
    ghost memory: { 1024 ≤ deque_capacity posts },
}

impl Outbox {
    /// Nothing to be sent.
    ///
    /// # Errors
    /// Where memory is short.
    pub fn make(alloc: Global) -> Result<Outbox, NoMemory>
        ensures { IfOk result (λ made. made.posts.items ≡ []) }
    {
        match VecDeque::with_capacity(alloc, MOST_MAILS) {
            Ok(posts) => Ok(Outbox { posts }),
            Err(_) => Err(NoMemory),
        }
    }

    /// Whether one more may be put in, and that many after it.
    pub fn has_places(&self, places: usize) -> bool
        requires { places ≤ 1024 }
        ensures { result ≡ nat_le (length self.now.posts.items + places) 1024 }
    {
        self.posts.len() <= MOST_MAILS - places
    }

    /// The oldest.
    pub fn first(&self) -> Option<Post>
        ensures { result ≡ slice_get self.now.posts.items 0 }
    {
        self.posts.front().copied()
    }

    /// Takes the oldest off.
    pub fn drop_first(&mut self)
        requires { 0 < length self.old.posts.items }
        ensures { self.new.posts.items ≡ drop 1 self.old.posts.items }
    {
        self.posts.pop_front();
    }

    /// Puts something to say about a line behind the rest.
    pub fn push(&mut self, line: Line, word: Word)
        requires { length self.old.posts.items < 1024 }
        ensures { self.new.posts.items ≡ self.old.posts.items ++ record { line = line; word = word } ∷ [] }
    {
        self.posts.push_back_reserved(Post { line, word });
    }
}
