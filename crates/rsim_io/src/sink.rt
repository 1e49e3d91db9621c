// A stream that is only written.
ghost use Rattle.std.specs.Prelude.{◌≡◌, ℕ, List, Bool, Option, IsTrue, IsErrOf};
ghost use Rattle.rsim_io.specs.Faults.{HasCause};
ghost use Rattle.rsim_io.specs.Written.{Puts};

use crate::StoreFault;

/// A stream of bytes that a program writes, as standard output.
pub trait Sink {
    /// What was written, where the sink tells it.
    ghost written: { Self → Option (List ℕ) };

    /// How many calls have failed. It never falls, and stands still at 2^64 - 1.
    ghost faults: { Self → ℕ };

    /// Whether `put` never fails.
    ghost sure: { Self → Bool };

    /// Writes the bytes.
    ///
    /// # Errors
    /// `Failed` and `Memory`. A prefix of the bytes is then written.
    fn put(&mut self, bytes: &[u8]) -> Result<(), StoreFault>
        ensures put { Puts (written self.old) bytes.now result (written self.new) }
        ensures cause { HasCause (IsErrOf result StoreFault.Failed) (faults self.old) (faults self.new) }
        ensures sure { sure self.new ≡ sure self.old }
        ensures sure_to_store { IsTrue (sure self.old) → IsErrOf result StoreFault.Failed → ⊥ };
}
