// A sink in memory.
ghost use Rattle.std.specs.Prelude.{◌≡◌, ◌↔◌, [], IfOk, IsErrOf, Some, true, false};
ghost use Rattle.rsim_io.specs.Failures.{next_fails, after_next};
ghost use Rattle.rsim_io.specs.Faults.{HasCause};
ghost use Rattle.rsim_io.specs.Written.{Puts};

use crate::failures::Failures;
use crate::{Sink, StoreFault};
use rsim_base::NoMemory;
use std::alloc::Global;
use std::marker::Model;

/// A sink that keeps its bytes, and whose calls fail as they are told.
#[derive(Drop)]
pub struct MemSink {
    bytes: Vec<u8>,
    failures: Failures,
}

impl Model for MemSink {
    ghost use Rattle.rsim_io.specs.Memory.{SinkInMemory};

    ghost Value = { SinkInMemory };

    ghost view = { λ s. record { written = s.bytes.items; failing = s.failures } };
}

impl MemSink {
    /// A sink with nothing written, whose calls with these numbers, counted from 0, fail.
    pub fn make(alloc: Global, fails: Vec<u32>) -> Result<MemSink, NoMemory>
        ensures { IfOk result (λ sink. sink ≡ record { written = []; failing = record { fails = fails.items; calls = 0; faults = 0 } }) }
    {
        Ok(MemSink {
            bytes: Vec::new(alloc),
            failures: Failures::new(fails),
        })
    }

    /// What was written.
    pub fn bytes(&self) -> &[u8]
        ensures { result.now ≡ self.now.written }
    {
        &self.bytes
    }
}

impl Sink for MemSink {
    ghost written = { λ s. Some s.written };

    ghost faults = { λ s. s.failing.faults };

    ghost sure = { λ _. false };

    fn put(&mut self, bytes: &[u8]) -> Result<(), StoreFault>
        ensures put { Puts (Some self.old.written) bytes.now result (Some self.new.written) }
        ensures cause { HasCause (IsErrOf result StoreFault.Failed) self.old.failing.faults self.new.failing.faults }
        ensures fails { IsErrOf result StoreFault.Failed ↔ next_fails self.old.failing ≡ true }
        ensures unchanged { IsErrOf result StoreFault.Failed → self.new.written ≡ self.old.written }
        ensures counted { self.new.failing ≡ after_next self.old.failing }
    {
        if self.failures.count_call() {
            return Err(StoreFault::Failed);
        }
        self.bytes
            .extend_from_slice(bytes)
            .map_err(|_| StoreFault::Memory)
    }
}
