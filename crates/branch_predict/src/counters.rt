// Two-bit counters of branches.
ghost use Rattle.std.specs.Prelude.{◌≡◌, ◌/◌, ◌%◌, ◌<◌, IfOk, length, nat_le, replicate, slice_index, slice_set};
ghost use Rattle.branch_predict.specs.Guesses.{moved};

use rsim_base::NoMemory;
use std::alloc::Global;
use std::marker::Model;

// The most that a counter counts to, and the least at which a branch is guessed taken.
const MAX: u8 = 3;

const TAKEN: u8 = 2;

/// Counters from 0 to 3. Branches that lie as many words apart as there are counters share one.
#[derive(Drop)]
pub(crate) struct Counters {
    counts: Vec<u8>,
}

impl Model for Counters {
    ghost use Rattle.std.specs.Prelude.{List, ℕ, ◌<◌, ◌≤◌, All, length};

    ghost Value = { List ℕ };

    ghost view = { λ c. c.counts.items };

    ghost invariant = { λ c. (0 < length c.counts.items) × All (λ n. n ≤ 3) c.counts.items };
}

impl Counters {
    /// So many counters, each 1. No other call takes memory.
    ///
    /// # Errors
    /// Where memory is short.
    pub(crate) fn make(alloc: Global, size: u32) -> Result<Counters, NoMemory>
        requires { 0 < size }
        ensures { IfOk result (λ c. c ≡ replicate size 1) }
    {
        let counts = vec![in alloc; 1; size as usize].map_err(|_| NoMemory)?;
        Ok(Counters { counts })
    }

    /// Whether the branch at `pc` is guessed taken: where its counter is at least 2.
    pub(crate) fn says_taken(&self, pc: u64) -> bool
        ensures { result ≡ nat_le 2 (slice_index self.now (pc / 4 % length self.now)) }
    {
        self.counts[self.place_of(pc)] >= TAKEN
    }

    /// Moves the counter of the branch at `pc` by one, up where the branch was taken and else down.
    pub(crate) fn learn(&mut self, pc: u64, taken: bool)
        ensures { self.new ≡ slice_set self.old (pc / 4 % length self.old) (moved taken (slice_index self.old (pc / 4 % length self.old))) }
    {
        let place = self.place_of(pc);
        let count = &mut self.counts[place];
        *count = if taken {
            MAX.min(*count + 1)
        } else {
            count.saturating_sub(1)
        };
    }

    // The place of the counter of the branch at `pc`.
    fn place_of(&self, pc: u64) -> usize
        ensures place { result ≡ pc / 4 % length self.now }
        ensures within { result < length self.now }
    {
        (pc / 4) as usize % self.counts.len()
    }
}
