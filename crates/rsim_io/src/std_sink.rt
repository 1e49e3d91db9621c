// Standard output.
ghost use Rattle.std.specs.Prelude.{◌≡◌, IsErrOf, None, false};
ghost use Rattle.rsim_io.specs.Faults.{HasCause, Counts};
ghost use Rattle.rsim_io.specs.Written.{Puts};

use crate::transfers::write_whole;
use crate::{Sink, StoreFault};
use std::io;

/// Standard output. It tells nothing of its bytes, and counts the writes that fail.
#[derive(Drop)]
pub struct StdSink<R: Print + Drop> {
    rt: R,
    faults: u64,
}

impl<R: Print + Drop> StdSink<R> {
    /// Standard output of this runtime, with no fault so far.
    pub fn new(rt: R) -> Self
        ensures { result.faults ≡ 0 }
    {
        StdSink { rt, faults: 0 }
    }
}

impl<R: Print + Drop> Sink for StdSink<R> {
    ghost written = { λ _. None };

    ghost faults = { λ s. s.faults };

    ghost sure = { λ _. false };

    fn put(&mut self, bytes: &[u8]) -> Result<(), StoreFault>
        ensures put { Puts None bytes.now result None }
        ensures cause { HasCause (IsErrOf result StoreFault.Failed) self.old.faults self.new.faults }
        ensures counts { Counts (IsErrOf result StoreFault.Failed) self.old.faults self.new.faults }
    {
        if write_whole(&mut io::writer(&self.rt), bytes).is_err() {
            self.faults = self.faults.saturating_add(1);
            return Err(StoreFault::Failed);
        }
        Ok(())
    }
}
