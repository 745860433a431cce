//! The accesses of a bus, numbered, some of which are to fail.
ghost use Rattle.std.specs.Prelude.{◌≡◌, ◌↔◌, ◌+◌, IfOk, OnOk, OnErr, IsErr, IsTrue};
ghost use Rattle.fault_plan.specs.Plan.{with_call, with_failing, fails_next, one_if};
ghost use Rattle.apei_mem_bus.specs.Failures.{AreDue};

use apei_base::BusFault;
use fault_plan::Plan;
use std::alloc::{AllocError, Global};

/// Numbers the accesses of a bus from 1, and counts those that fail by plan.
///
/// Source: own choice.
#[derive(Drop)]
pub struct Attempts {
    plan: Plan,
    faults: u64,
    ghost are_due: { AreDue faults plan },
}

impl Attempts {
    ghost use Rattle.apei_mem_bus.specs.Attempts.{IsUntried, calls_in, failures_in};

    /// No access yet. Those whose numbers are in `failing` are to fail.
    pub fn new(alloc: Global, failing: &[u64]) -> Result<Attempts, AllocError>
        ensures { IfOk result (λ attempts. IsUntried attempts failing.now) }
    {
        Ok(Attempts {
            plan: Plan::new(alloc, failing)?,
            faults: 0,
        })
    }

    /// One number more is to fail, if its access was not made yet. After an error nothing has changed.
    pub fn add(&mut self, number: u64) -> Result<(), AllocError>
        ensures ok { OnOk result (calls_in self.new ≡ with_failing number (calls_in self.old)) }
        ensures err { OnErr result (calls_in self.new ≡ calls_in self.old) }
        ensures faults { failures_in self.new ≡ failures_in self.old }
    {
        self.plan.add(number)
    }

    /// How many accesses were made.
    pub fn made(&self) -> u64
        ensures { result ≡ (calls_in self.now).made }
    {
        self.plan.made()
    }

    /// How many accesses failed by plan.
    pub fn faults(&self) -> u64
        ensures { result ≡ failures_in self.now }
    {
        self.faults
    }

    /// Counts an access, and refuses one that is to fail.
    pub fn begin(&mut self) -> Result<(), BusFault>
        ensures failed { IsErr result ↔ IsTrue (fails_next (calls_in self.old)) }
        ensures counted { calls_in self.new ≡ with_call (calls_in self.old) }
        ensures raised { failures_in self.new
            ≡ failures_in self.old + one_if (fails_next (calls_in self.old)) }
    {
        if self.plan.fails_next() {
            self.faults += 1;
            return Err(BusFault);
        }
        Ok(())
    }
}
