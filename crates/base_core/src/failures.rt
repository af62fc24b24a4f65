ghost use Rattle.std.specs.Prelude.{◌≡◌, IfOk, IsErr, IsTrue, ◌↔◌};
ghost use Rattle.base_core.specs.Failing.{fails_next, after_call};
ghost use Rattle.base_core.specs.Faults.{risen};

use crate::fault::Fault;
use std::alloc::{AllocError, Global};
use std::marker::Model;

/// Which calls of an object in memory fail. Calls are numbered from 1.
#[derive(Debug, Drop)]
pub struct Failures {
    fails: Vec<u64>,
    calls: u64,
    faults: u64,
}

impl Model for Failures {
    ghost use Rattle.base_core.specs.Failing.{Failing, failing_code};

    ghost Value = { Failing };

    ghost coded = { failing_code };

    ghost view = { λ f. record { fails = f.fails.items; calls = f.calls; faults = f.faults } };
}

impl Failures {
    /// No call yet. Those whose numbers are in `fails` will fail.
    pub fn new(alloc: Global, fails: &[u64]) -> Result<Failures, AllocError>
        ensures { IfOk result (λ f. f ≡ record { fails = fails.now; calls = 0; faults = 0 }) }
    {
        Ok(Failures {
            fails: Vec::from_slice(alloc, fails)?,
            calls: 0,
            faults: 0,
        })
    }

    /// Numbers a call, and fails where its number is on the list.
    pub fn call(&mut self) -> Result<(), Fault>
        ensures fails { IsErr result ↔ IsTrue (fails_next self.old) }
        ensures after { self.new ≡ after_call self.old }
    {
        self.calls = self.calls.saturating_add(1);
        if self.fails.contains(&self.calls) {
            self.count();
            return Err(Fault);
        }
        Ok(())
    }

    /// Counts a fault of the object's own, at a call whose number is not on the list.
    pub fn count(&mut self)
        ensures { self.new ≡ record self.old { faults = risen self.old.faults 1 } }
    {
        self.faults = self.faults.saturating_add(1);
    }
}
