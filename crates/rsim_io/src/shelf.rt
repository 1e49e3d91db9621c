// Files by their names.
ghost use Rattle.std.specs.Prelude.{◌≡◌, ◌-◌, ◌^◌, ◌<◌, ℕ, List, [], Bool, Option, None, IsTrue, IsErrOf, IfSome};
ghost use Rattle.std.specs.FinMap.{get};
ghost use Rattle.rsim_io.specs.Faults.{HasCause};
ghost use Rattle.rsim_io.specs.Files.{Files, Fetches, Creates, Appends};

use thiserror::Error;

/// Why a file was not fetched.
#[derive(Clone, Copy, Debug, PartialEq, Eq, Error)]
pub enum FetchFault {
    /// The file is not there or cannot be read.
    #[error("cannot read")]
    Failed,
    /// The file is longer than the limit.
    #[error("too long")]
    TooLarge,
    /// Memory could not be had.
    #[error("no memory")]
    Memory,
}

/// Why a piece was not written.
#[derive(Clone, Copy, Debug, PartialEq, Eq, Error)]
pub enum StoreFault {
    /// The file or stream did not take it.
    #[error("cannot write")]
    Failed,
    /// Memory could not be had.
    #[error("no memory")]
    Memory,
}

/// Files by their names, as a program uses them that reads some and writes one.
pub trait Shelf {
    /// The files, where the shelf tells them.
    ghost holds: { Self → Option Files };

    /// How many calls have failed. It never falls, and stands still at 2^64 - 1.
    ghost faults: { Self → ℕ };

    /// Whether `create` and `append` never fail, and `fetch` only for a name that is not held.
    ghost sure: { Self → Bool };

    /// Reads the whole file into `into`, which is empty, if it has at most `limit` bytes.
    ///
    /// # Errors
    /// `Failed` where the file cannot be read, as one that is not held; `TooLarge` where it is
    /// longer than `limit`, with its first `limit + 1` bytes in `into`; `Memory`.
    fn fetch(&mut self, name: &str, into: &mut Vec<u8>, limit: u64) -> Result<(), FetchFault>
        requires empty { into.old.items ≡ [] }
        requires limit { limit < 2 ^ 64 - 1 }
        ensures fetched { Fetches (holds self.old) name.now limit result into.new.items }
        ensures files { holds self.new ≡ holds self.old }
        ensures cause { HasCause (IsErrOf result FetchFault.Failed) (faults self.old) (faults self.new) }
        ensures sure { sure self.new ≡ sure self.old }
        ensures sure_of_held { IsTrue (sure self.old) → IsErrOf result FetchFault.Failed
            → IfSome (holds self.old) (λ files. get files name.now ≡ None) };

    /// Makes the file, or empties it.
    ///
    /// # Errors
    /// `Failed`, after which the file is as before or empty; `Memory`, after which it is as before.
    fn create(&mut self, name: &str) -> Result<(), StoreFault>
        ensures created { Creates (holds self.old) name.now result (holds self.new) }
        ensures cause { HasCause (IsErrOf result StoreFault.Failed) (faults self.old) (faults self.new) }
        ensures sure { sure self.new ≡ sure self.old }
        ensures sure_to_store { IsTrue (sure self.old) → IsErrOf result StoreFault.Failed → ⊥ };

    /// Puts the bytes behind the end of the file. A name that is not held counts as an empty file.
    ///
    /// # Errors
    /// `Failed` and `Memory`. The file has then grown by a prefix of the bytes.
    fn append(&mut self, name: &str, bytes: &[u8]) -> Result<(), StoreFault>
        ensures appended { Appends (holds self.old) name.now bytes.now result (holds self.new) }
        ensures cause { HasCause (IsErrOf result StoreFault.Failed) (faults self.old) (faults self.new) }
        ensures sure { sure self.new ≡ sure self.old }
        ensures sure_to_store { IsTrue (sure self.old) → IsErrOf result StoreFault.Failed → ⊥ };
}
