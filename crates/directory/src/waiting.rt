// Requests that wait.
ghost use Rattle.std.specs.Prelude.{◌≡◌, ◌+◌, ◌==◌, ◌<◌, ◌≤◌, ◌∷◌, ◌++◌, [], length, slice_get, if◌then◌else◌, IfOk, IfSome, Some};
ghost use Rattle.std.specs.List.{position, remove};
ghost use Rattle.std.specs.Vec.{vec_capacity};

use memory_contracts::Message;
use rsim_base::{Line, NoMemory};
use std::alloc::Global;

/// The requests that wait at a home, in the order of their coming, with memory for all that may wait.
#[derive(Drop)]
pub struct Waiting {
    requests: Vec<Message>,
    pub most: usize,
    ghost few: { length requests.items ≤ most },
    ghost memory: { most ≤ vec_capacity requests },
}

impl Waiting {
    ghost use Rattle.directory.specs.Homes.{first_for};
    ghost use Rattle.directory.specs.HomeParts.{letters_in};
    ghost use Rattle.memory_contracts.specs.Letters.{letter_of};

    /// No request, where so many may wait.
    ///
    /// # Errors
    /// Where memory is short.
    pub fn make(alloc: Global, most: usize) -> Result<Waiting, NoMemory>
        ensures none { IfOk result (λ made. letters_in made ≡ []) }
        ensures most { IfOk result (λ made. made.most ≡ most) }
    {
        match Vec::with_capacity(alloc, most) {
            Ok(requests) => Ok(Waiting { requests, most }),
            Err(_) => Err(NoMemory),
        }
    }

    /// How many wait.
    pub fn len(&self) -> usize
        ensures { result ≡ length (letters_in self.now) }
    {
        self.requests.len()
    }

    /// Puts a request behind the others, if it waits.
    pub fn push_if(&mut self, waits: bool, m: &Message)
        requires { length (letters_in self.old) < self.old.most }
        ensures letters { letters_in self.new ≡ (if waits then letters_in self.old ++ letter_of m.now ∷ [] else letters_in self.old) }
        ensures most { self.new.most ≡ self.old.most }
    {
        if waits {
            self.requests.push_reserved(*m);
        }
    }

    /// Where the first request for a line stands.
    pub fn first_for(&self, line: Line) -> Option<usize>
        ensures first { result ≡ first_for line.0 (letters_in self.now) }
        ensures within { IfSome result (λ place. place < length (letters_in self.now)) }
    {
        place_of(self.requests.as_slice(), line)
    }

    /// Takes the request of a place off.
    pub fn remove(&mut self, place: usize) -> Message
        requires { place < length (letters_in self.old) }
        ensures stood { slice_get (letters_in self.old) place ≡ Some (letter_of result) }
        ensures rest { letters_in self.new ≡ remove (letters_in self.old) place }
        ensures less { length (letters_in self.new) + 1 ≡ length (letters_in self.old) }
        ensures most { self.new.most ≡ self.old.most }
    {
        self.requests.remove(place)
    }
}

// Where the first of these messages about a line stands.
fn place_of(messages: &[Message], line: Line) -> Option<usize>
    ensures first { result ≡ position (λ m. m.line.0 == line.0) messages.now }
    ensures within { IfSome result (λ place. place < length messages.now) }
{
    messages.iter().position(|m| m.line.0 == line.0)
}
