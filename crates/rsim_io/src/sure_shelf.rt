// A shelf in memory that does not fail.
ghost use Rattle.std.specs.Prelude.{◌≡◌, ◌⊎◌, ◌↔◌, ◌-◌, ◌^◌, ◌<◌, [], IfOk, OnOk, OnErr, IsErrOf, Some, None, true, IsTrue, IfSome, option_copied};
ghost use Rattle.std.specs.FinMap.{empty, get, insert};
ghost use Rattle.rsim_io.specs.Faults.{HasCause, Counts};
ghost use Rattle.rsim_io.specs.Files.{Fetches, Creates, Appends};

use crate::mem_files::MemFiles;
use crate::{FetchFault, Shelf, StoreFault};
use rsim_base::NoMemory;
use std::alloc::Global;
use std::marker::Model;

/// A shelf that keeps its files in memory, and fails only where it is asked for a name that it does not
/// hold.
#[derive(Drop)]
pub struct SureShelf {
    files: MemFiles,
    faults: u64,
}

impl Model for SureShelf {
    ghost use Rattle.rsim_io.specs.Memory.{SureShelfInMemory, sure_shelf_code};

    ghost Value = { SureShelfInMemory };

    ghost coded = { sure_shelf_code };

    ghost view = { λ s. record { files = s.files; faults = s.faults } };
}

impl SureShelf {
    /// A shelf with no file.
    ///
    /// # Errors
    /// Where memory is short.
    pub fn make(alloc: Global) -> Result<SureShelf, NoMemory>
        ensures { IfOk result (λ shelf. shelf ≡ record { files = empty; faults = 0 }) }
    {
        Ok(SureShelf {
            files: MemFiles::new(alloc),
            faults: 0,
        })
    }

    /// Sets the bytes of a file.
    ///
    /// # Errors
    /// Where memory is short. Nothing has changed then.
    pub fn set(&mut self, name: &str, bytes: &[u8]) -> Result<(), NoMemory>
        ensures ok { OnOk result (self.new ≡ record self.old { files = insert self.old.files name.now bytes.now }) }
        ensures err { OnErr result (self.new ≡ self.old) }
    {
        self.files.set(name, bytes)
    }

    /// The bytes of a file, if the shelf holds it.
    pub fn file(&self, name: &str) -> Option<&[u8]>
        ensures { option_copied result ≡ get self.now.files name.now }
    {
        self.files.file(name)
    }
}

impl Shelf for SureShelf {
    ghost holds = { λ s. Some s.files };

    ghost faults = { λ s. s.faults };

    ghost sure = { λ _. true };

    fn fetch(&mut self, name: &str, into: &mut Vec<u8>, limit: u64) -> Result<(), FetchFault>
        requires empty { into.old.items ≡ [] }
        requires limit { limit < 2 ^ 64 - 1 }
        ensures fetched { Fetches (Some self.old.files) name.now limit result into.new.items }
        ensures files { self.new.files ≡ self.old.files }
        ensures cause { HasCause (IsErrOf result FetchFault.Failed) self.old.faults self.new.faults }
        ensures fails { IsErrOf result FetchFault.Failed ↔ get self.old.files name.now ≡ None }
        ensures counted { Counts (IsErrOf result FetchFault.Failed) self.old.faults self.new.faults }
    {
        match self.files.fetch(name, into, limit) {
            Err(FetchFault::Failed) => {
                self.faults = self.faults.saturating_add(1);
                Err(FetchFault::Failed)
            }
            fetched => fetched,
        }
    }

    fn create(&mut self, name: &str) -> Result<(), StoreFault>
        ensures created { Creates (Some self.old.files) name.now result (Some self.new.files) }
        ensures never { IsErrOf result StoreFault.Failed → ⊥ }
        ensures counted { self.new.faults ≡ self.old.faults }
    {
        self.files.create(name)
    }

    fn append(&mut self, name: &str, bytes: &[u8]) -> Result<(), StoreFault>
        ensures appended { Appends (Some self.old.files) name.now bytes.now result (Some self.new.files) }
        ensures never { IsErrOf result StoreFault.Failed → ⊥ }
        ensures counted { self.new.faults ≡ self.old.faults }
    {
        self.files.append(name, bytes)
    }
}
