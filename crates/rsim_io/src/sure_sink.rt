// A sink in memory that does not fail.
ghost use Rattle.std.specs.Prelude.{◌≡◌, ◌++◌, [], IfOk, IsErrOf, Some, true};
ghost use Rattle.rsim_io.specs.Written.{Puts};

use crate::{Sink, StoreFault};
use rsim_base::NoMemory;
use std::alloc::Global;
use std::marker::Model;

/// A sink that keeps its bytes, and fails only where memory is short.
#[derive(Drop)]
pub struct SureSink {
    bytes: Vec<u8>,
}

impl Model for SureSink {
    ghost use Rattle.std.specs.Prelude.{ℕ, List};

    ghost Value = { List ℕ };

    ghost view = { λ s. s.bytes.items };
}

impl SureSink {
    /// A sink with nothing written.
    ///
    /// # Errors
    /// Where memory is short.
    pub fn make(alloc: Global) -> Result<SureSink, NoMemory>
        ensures { IfOk result (λ sink. sink ≡ []) }
    {
        Ok(SureSink {
            bytes: Vec::new(alloc),
        })
    }

    /// What was written.
    pub fn bytes(&self) -> &[u8]
        ensures { result.now ≡ self.now }
    {
        &self.bytes
    }
}

impl Sink for SureSink {
    ghost written = { λ s. Some s };

    ghost faults = { λ _. 0 };

    ghost sure = { λ _. true };

    fn put(&mut self, bytes: &[u8]) -> Result<(), StoreFault>
        ensures put { Puts (Some self.old) bytes.now result (Some self.new) }
        ensures never { IsErrOf result StoreFault.Failed → ⊥ }
    {
        self.bytes
            .extend_from_slice(bytes)
            .map_err(|_| StoreFault::Memory)
    }
}
