// A shelf in memory whose calls fail as they are told.
ghost use Rattle.std.specs.Prelude.{◌≡◌, ◌⊎◌, ◌↔◌, ◌-◌, ◌^◌, ◌<◌, [], IfOk, OnOk, OnErr, IsErrOf, Some, None, true, false, is_some, option_copied};
ghost use Rattle.std.specs.FinMap.{empty, get, insert};
ghost use Rattle.rsim_io.specs.Failures.{next_fails, after_next, after_next_of};
ghost use Rattle.rsim_io.specs.Faults.{HasCause};
ghost use Rattle.rsim_io.specs.Files.{Fetches, Creates, Appends};

use crate::failures::Failures;
use crate::mem_files::MemFiles;
use crate::{FetchFault, Shelf, StoreFault};
use rsim_base::NoMemory;
use std::alloc::Global;
use std::marker::Model;

/// A shelf that keeps its files in memory, and whose calls fail as they are told.
#[derive(Drop)]
pub struct MemShelf {
    files: MemFiles,
    failures: Failures,
}

impl Model for MemShelf {
    ghost use Rattle.rsim_io.specs.Memory.{ShelfInMemory, shelf_code};

    ghost Value = { ShelfInMemory };

    ghost coded = { shelf_code };

    ghost view = { λ s. record { files = s.files; failing = s.failures } };
}

impl MemShelf {
    /// A shelf with no file, whose calls of the trait with these numbers, counted from 0, fail.
    pub fn make(alloc: Global, fails: Vec<u32>) -> Result<MemShelf, NoMemory>
        ensures { IfOk result (λ shelf. shelf ≡ record { files = empty; failing = record { fails = fails.items; calls = 0; faults = 0 } }) }
    {
        Ok(MemShelf {
            files: MemFiles::new(alloc),
            failures: Failures::new(fails),
        })
    }

    /// Sets the bytes of a file. Refused, it changes nothing.
    pub fn set(&mut self, name: &str, bytes: &[u8]) -> Result<(), NoMemory>
        ensures ok { OnOk result (self.new ≡ record self.old { files = insert self.old.files name.now bytes.now }) }
        ensures err { OnErr result (self.new ≡ self.old) }
    {
        self.files.set(name, bytes)
    }

    /// The bytes of a file, if the shelf holds it.
    pub fn file(&self, name: &str) -> Option<&[u8]>
        ensures { option_copied result ≡ get self.now.files name.now }
    {
        self.files.file(name)
    }
}

impl Shelf for MemShelf {
    ghost holds = { λ s. Some s.files };

    ghost faults = { λ s. s.failing.faults };

    ghost sure = { λ _. false };

    fn fetch(&mut self, name: &str, into: &mut Vec<u8>, limit: u64) -> Result<(), FetchFault>
        requires empty { into.old.items ≡ [] }
        requires limit { limit < 2 ^ 64 - 1 }
        ensures fetched { Fetches (Some self.old.files) name.now limit result into.new.items }
        ensures files { self.new.files ≡ self.old.files }
        ensures cause { HasCause (IsErrOf result FetchFault.Failed) self.old.failing.faults self.new.failing.faults }
        ensures fails { IsErrOf result FetchFault.Failed
            ↔ (next_fails self.old.failing ≡ true) ⊎ (get self.old.files name.now ≡ None) }
        ensures counted { self.new.failing ≡ after_next_of (is_some (get self.old.files name.now)) self.old.failing }
    {
        if self.failures.count_call() {
            return Err(FetchFault::Failed);
        }
        match self.files.fetch(name, into, limit) {
            Err(FetchFault::Failed) => {
                self.failures.add_fault();
                Err(FetchFault::Failed)
            }
            fetched => fetched,
        }
    }

    fn create(&mut self, name: &str) -> Result<(), StoreFault>
        ensures created { Creates (Some self.old.files) name.now result (Some self.new.files) }
        ensures cause { HasCause (IsErrOf result StoreFault.Failed) self.old.failing.faults self.new.failing.faults }
        ensures fails { IsErrOf result StoreFault.Failed ↔ next_fails self.old.failing ≡ true }
        ensures unchanged { IsErrOf result StoreFault.Failed → self.new.files ≡ self.old.files }
        ensures counted { self.new.failing ≡ after_next self.old.failing }
    {
        if self.failures.count_call() {
            return Err(StoreFault::Failed);
        }
        self.files.create(name)
    }

    fn append(&mut self, name: &str, bytes: &[u8]) -> Result<(), StoreFault>
        ensures appended { Appends (Some self.old.files) name.now bytes.now result (Some self.new.files) }
        ensures cause { HasCause (IsErrOf result StoreFault.Failed) self.old.failing.faults self.new.failing.faults }
        ensures fails { IsErrOf result StoreFault.Failed ↔ next_fails self.old.failing ≡ true }
        ensures unchanged { IsErrOf result StoreFault.Failed → self.new.files ≡ self.old.files }
        ensures counted { self.new.failing ≡ after_next self.old.failing }
    {
        if self.failures.count_call() {
            return Err(StoreFault::Failed);
        }
        self.files.append(name, bytes)
    }
}
