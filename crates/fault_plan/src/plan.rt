//! Which calls of a simulated device are to fail.
ghost use Rattle.std.specs.Prelude.{◌≡◌, ◌≤◌, ◌+◌, [], IfOk, OnOk, OnErr};
ghost use Rattle.fault_plan.specs.Plan.{with_numbers};

use std::alloc::{AllocError, Global};
use std::collections::BTreeSet;
use std::marker::Model;

/// Numbers the calls of a simulated device from 1, and knows which of them are to fail.
///
/// A call after number 2^64 - 1 has no number and does not fail. Source: own choice.
#[derive(Drop)]
pub struct Plan {
    made: u64,
    failing: BTreeSet<u64>,
}

impl Model for Plan {
    ghost use Rattle.fault_plan.specs.Plan.{Calls};

    ghost Value = { Calls };

    ghost view = { λ p. record { made = p.made; failing = p.failing.keys } };
}

// The numbers of a list, each once.
fn numbers_of(alloc: Global, list: &[u64]) -> Result<BTreeSet<u64>, AllocError>
    ensures { IfOk result (λ numbers. numbers.keys ≡ with_numbers [] list.now) }
{
    let mut numbers = BTreeSet::new(alloc);
    for number in list {
        numbers.insert(*number)?;
    }
    Ok(numbers)
}

impl Plan {
    ghost use Rattle.fault_plan.specs.Plan.{no_calls, with_call, with_failing, fails_next, due, one_if};

    /// No call yet. The calls whose numbers are in `failing` are to fail, in any order.
    pub fn new(alloc: Global, failing: &[u64]) -> Result<Plan, AllocError>
        ensures { IfOk result (λ plan. plan ≡ no_calls failing.now) }
    {
        Ok(Plan {
            made: 0,
            failing: numbers_of(alloc, failing)?,
        })
    }

    /// One number more is to fail, if its call was not made yet. After an error the plan is what it was.
    pub fn add(&mut self, number: u64) -> Result<(), AllocError>
        ensures ok { OnOk result (self.new ≡ with_failing number self.old) }
        ensures err { OnErr result (self.new ≡ self.old) }
        ensures due { due self.old ≤ due self.new }
    {
        self.failing.insert(number)?;
        Ok(())
    }

    /// How many calls were made. It stays at 2^64 - 1 once it is there.
    pub fn made(&self) -> u64
        ensures { result ≡ self.now.made }
    {
        self.made
    }

    /// Counts a call, and tells whether it is to fail.
    pub fn fails_next(&mut self) -> bool
        ensures value { result ≡ fails_next self.old }
        ensures counted { self.new ≡ with_call self.old }
        ensures due { due self.old + one_if result ≤ due self.new }
        ensures grows { self.old.made ≤ self.new.made }
    {
        match self.made.checked_add(1) {
            None => false,
            Some(number) => {
                self.made = number;
                self.failing.contains(&number)
            }
        }
    }
}
