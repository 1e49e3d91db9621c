// Calls that are told to fail.
ghost use Rattle.std.specs.Prelude.{◌≡◌, ◌≤◌, IsTrue};
ghost use Rattle.rsim_io.specs.Failures.{next_fails, after_next, with_fault};
ghost use Rattle.rsim_io.specs.Faults.{HasCause, Rose};

use std::marker::Model;

// The numbers of the calls that are to fail, from 0, and how many calls came and failed so far.
#[derive(Drop)]
pub struct Failures {
    fails: Vec<u32>,
    calls: u64,
    faults: u64,
}

impl Model for Failures {
    ghost use Rattle.rsim_io.specs.Failures.{FailuresView};

    ghost Value = { FailuresView };

    ghost view = { λ f. record { fails = f.fails.items; calls = f.calls; faults = f.faults } };
}

impl Failures {
    pub fn new(fails: Vec<u32>) -> Self
        ensures { result ≡ record { fails = fails.items; calls = 0; faults = 0 } }
    {
        Failures {
            fails,
            calls: 0,
            faults: 0,
        }
    }

    // Counts a call, and says whether it is one that is to fail. Then it has failed.
    pub fn count_call(&mut self) -> bool
        ensures fails { result ≡ next_fails self.old }
        ensures after { self.new ≡ after_next self.old }
        ensures cause { HasCause (IsTrue result) self.old.faults self.new.faults }
    {
        let fails = self.is_due();
        self.calls = self.calls.saturating_add(1);
        if fails {
            self.faults = self.faults.saturating_add(1);
        }
        fails
    }

    // Whether the next call is one that is to fail.
    fn is_due(&self) -> bool
        ensures { result ≡ next_fails self.now }
    {
        self.fails
            .iter()
            .any(|number| u64::from(*number) == self.calls)
    }

    // Counts a failure of a call that was counted before.
    pub fn add_fault(&mut self)
        ensures after { self.new ≡ with_fault self.old }
        ensures later { self.old.faults ≤ self.new.faults }
        ensures rose { Rose self.old.faults self.new.faults }
    {
        self.faults = self.faults.saturating_add(1);
    }
}
