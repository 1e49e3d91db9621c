// The files of the system.
ghost use Rattle.std.specs.Prelude.{◌≡◌, ◌≢◌, ◌-◌, ◌^◌, ◌<◌, ◌≤◌, [], IfOk, IsErrOf, None, false};
ghost use Rattle.rsim_io.specs.Failures.{one_more};
ghost use Rattle.rsim_io.specs.Faults.{HasCause, Counts};
ghost use Rattle.rsim_io.specs.Files.{Fetches, Creates, Appends};

use crate::transfers::{read_up_to, write_whole};
use crate::{FetchFault, Shelf, StoreFault};
use std::fs::{File, OpenOptions};
use std::rt::Files;

/// The files of the system, by their paths. It tells nothing of their bytes, and counts the calls
/// that fail.
#[derive(Drop)]
pub struct FileShelf<R: Files + Drop> {
    rt: R,
    faults: u64,
}

impl<R: Files + Drop> FileShelf<R> {
    /// The files of this runtime, with no fault so far.
    pub fn new(rt: R) -> Self
        ensures { result.faults ≡ 0 }
    {
        FileShelf { rt, faults: 0 }
    }

    /// How many calls have failed.
    pub fn faults(&self) -> u64
        ensures { result ≡ self.now.faults }
    {
        self.faults
    }

    // Counts a call that failed.
    fn failed(&mut self)
        ensures later { self.old.faults ≤ self.new.faults }
        ensures counted { self.new.faults ≡ one_more self.old.faults }
    {
        self.faults = self.faults.saturating_add(1);
    }
}

impl<R: Files + Drop> Shelf for FileShelf<R> {
    ghost holds = { λ _. None };

    ghost faults = { λ s. s.faults };

    ghost sure = { λ _. false };

    fn fetch(&mut self, name: &str, into: &mut Vec<u8>, limit: u64) -> Result<(), FetchFault>
        requires empty { into.old.items ≡ [] }
        requires limit { limit < 2 ^ 64 - 1 }
        ensures fetched { Fetches None name.now limit result into.new.items }
        ensures cause { HasCause (IsErrOf result FetchFault.Failed) self.old.faults self.new.faults }
        ensures counts { Counts (IsErrOf result FetchFault.Failed) self.old.faults self.new.faults }
    {
        let Ok(mut file) = File::open(&self.rt, name) else {
            self.failed();
            return Err(FetchFault::Failed);
        };
        let fetched = read_up_to(&mut file, into, limit);
        if fetched == Err(FetchFault::Failed) {
            self.failed();
        }
        fetched
    }

    fn create(&mut self, name: &str) -> Result<(), StoreFault>
        ensures created { Creates None name.now result None }
        ensures cause { HasCause (IsErrOf result StoreFault.Failed) self.old.faults self.new.faults }
        ensures counts { Counts (IsErrOf result StoreFault.Failed) self.old.faults self.new.faults }
    {
        if File::create(&self.rt, name).is_err() {
            self.failed();
            return Err(StoreFault::Failed);
        }
        Ok(())
    }

    fn append(&mut self, name: &str, bytes: &[u8]) -> Result<(), StoreFault>
        ensures appended { Appends None name.now bytes.now result None }
        ensures cause { HasCause (IsErrOf result StoreFault.Failed) self.old.faults self.new.faults }
        ensures counts { Counts (IsErrOf result StoreFault.Failed) self.old.faults self.new.faults }
    {
        let Ok(mut file) = OpenOptions::new()
            .append(true)
            .create(true)
            .open(&self.rt, name)
        else {
            self.failed();
            return Err(StoreFault::Failed);
        };
        if write_whole(&mut file, bytes).is_err() {
            self.failed();
            return Err(StoreFault::Failed);
        }
        Ok(())
    }
}
