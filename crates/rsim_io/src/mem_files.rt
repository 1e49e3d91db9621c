// Files in memory, by their names: what the shelves in memory keep.
ghost use Rattle.std.specs.Prelude.{◌≡◌, ◌↔◌, ◌-◌, ◌^◌, ◌<◌, [], OnOk, OnErr, IsErrOf, Some, None, option_copied};
ghost use Rattle.std.specs.FinMap.{empty, get, insert};
ghost use Rattle.rsim_io.specs.Files.{Fetches, Creates, Appends};

use crate::{FetchFault, StoreFault};
use rsim_base::NoMemory;
use std::alloc::Global;
use std::collections::BTreeMap;
use std::marker::Model;

// A map from names to bytes, none of whose calls fails but a fetch of a name that is not held.
#[derive(Drop)]
pub(crate) struct MemFiles {
    alloc: Global,
    files: BTreeMap<String, Vec<u8>>,
}

impl Model for MemFiles {
    ghost use Rattle.rsim_io.specs.Entries.{files_of};
    ghost use Rattle.rsim_io.specs.Files.{Files};
    ghost use Rattle.rsim_io.specs.Memory.{files_code};

    ghost Value = { Files };

    ghost coded = { files_code };

    ghost view = { λ s. files_of s.files };
}

impl MemFiles {
    pub(crate) fn new(alloc: Global) -> MemFiles
        ensures { result ≡ empty }
    {
        MemFiles {
            alloc,
            files: BTreeMap::new(alloc),
        }
    }

    // Sets the bytes of a file. Refused, it changes nothing.
    pub(crate) fn set(&mut self, name: &str, bytes: &[u8]) -> Result<(), NoMemory>
        ensures ok { OnOk result (self.new ≡ insert self.old name.now bytes.now) }
        ensures err { OnErr result (self.new ≡ self.old) }
    {
        let name = String::from_str(self.alloc, name).map_err(|_| NoMemory)?;
        let bytes = bytes.to_vec(self.alloc).map_err(|_| NoMemory)?;
        self.files.insert(name, bytes).map_err(|_| NoMemory)?;
        Ok(())
    }

    // The bytes of a file, if it is held.
    pub(crate) fn file(&self, name: &str) -> Option<&[u8]>
        ensures { option_copied result ≡ get self.now name.now }
    {
        let file = self.files.get(name)?;
        Some(file)
    }

    pub(crate) fn fetch(&self, name: &str, into: &mut Vec<u8>, limit: u64) -> Result<(), FetchFault>
        requires empty { into.old.items ≡ [] }
        requires limit { limit < 2 ^ 64 - 1 }
        ensures fetched { Fetches (Some self.now) name.now limit result into.new.items }
        ensures fails { IsErrOf result FetchFault.Failed ↔ get self.now name.now ≡ None }
    {
        let Some(file) = self.file(name) else {
            return Err(FetchFault::Failed);
        };
        if file.len() as u64 <= limit {
            return into.extend_from_slice(file).map_err(|_| FetchFault::Memory);
        }
        let first = limit as usize + 1;
        into.extend_from_slice(&file[..first])
            .map_err(|_| FetchFault::Memory)?;
        Err(FetchFault::TooLarge)
    }

    pub(crate) fn create(&mut self, name: &str) -> Result<(), StoreFault>
        ensures created { Creates (Some self.old) name.now result (Some self.new) }
        ensures never { IsErrOf result StoreFault.Failed → ⊥ }
    {
        self.set(name, &[]).map_err(|_| StoreFault::Memory)
    }

    pub(crate) fn append(&mut self, name: &str, bytes: &[u8]) -> Result<(), StoreFault>
        ensures appended { Appends (Some self.old) name.now bytes.now result (Some self.new) }
        ensures never { IsErrOf result StoreFault.Failed → ⊥ }
    {
        match self.files.get_mut(name) {
            Some(file) => file
                .extend_from_slice(bytes)
                .map_err(|_| StoreFault::Memory),
            None => self.set(name, bytes).map_err(|_| StoreFault::Memory),
        }
    }
}
