//! A bus over another that fails by plan.
ghost use Rattle.std.specs.Prelude.{◌≡◌, ◌<◌, ◌+◌, ◌^◌, is_err, IfOk, OnErr};
ghost use Rattle.apei_base.specs.Bus.{Reads, Copies, IsOneAccess, CountsFaults, reach_of, write_of};
ghost use Rattle.apei_mem_bus.specs.Faulty.{faults_of, state_of, PassesOn, IsInnerStep};

use crate::Attempts;
use apei_base::{Bus, BusFault, Firmware, Region};
use std::alloc::{AllocError, Global};

/// A bus over another, some of whose accesses are to fail.
///
/// Accesses are numbered from 1, reads, writes and copies alike. One that is to fail is not passed on and changes
/// nothing. All others are the inner bus's. Source: own choice.
#[derive(Drop)]
pub struct Faulty<P> {
    inner: P,
    attempts: Attempts,
}

impl<P> Faulty<P> {
    ghost use Rattle.apei_mem_bus.specs.Faulty.{inner_of, calls_of, HoldsInner};

    /// No access yet. Those whose numbers are in `failing` are to fail.
    pub fn new(alloc: Global, inner: P, failing: &[u64]) -> Result<Faulty<P>, AllocError>
    where
        P: Drop,
        ensures { IfOk result (λ faulty. HoldsInner faulty inner failing.now) }
    {
        Ok(Faulty {
            inner,
            attempts: Attempts::new(alloc, failing)?,
        })
    }

    /// How many accesses were made, passed on or not. It stays at 2^64 - 1 once it is there.
    pub fn accesses(&self) -> u64
        ensures { result ≡ (calls_of self.now).made }
    {
        self.attempts.made()
    }

    /// The inner bus.
    pub fn into_inner(self) -> P
        ensures { result ≡ inner_of self }
    {
        self.inner
    }
}

impl<P: Bus> Bus for Faulty<P> {
    ghost use Rattle.std.specs.Prelude.{ℕ};

    ghost State = { P.State × ℕ };

    ghost state = { state_of P.state };

    ghost step = { IsInnerStep P.step };

    ghost cells = { λ state. P.cells state.0 };

    ghost faults = { faults_of P.faults };

    ghost answers = { λ before after access step. P.answers before.0 after.0 access step.0 };

    ghost unmapped = { λ before after access step. P.unmapped before.0 after.0 access step.0 };

    fn read(&mut self, at: &Region) -> Result<u64, BusFault>
        ensures access { IsOneAccess (IsInnerStep P.step) (Reads (reach_of at.now))
            (state_of P.state self.old) result (state_of P.state self.new) }
        ensures fits { IfOk result (λ value. value < 2 ^ at.now.width) }
        ensures count { CountsFaults result
            (faults_of P.faults self.old) (faults_of P.faults self.new) }
        ensures passes { PassesOn P.faults self.old self.new (is_err result) }
    {
        self.attempts.begin()?;
        self.inner.read(at)
    }

    fn write(&mut self, at: &Region, value: u64) -> Result<(), BusFault>
        ensures access { IsOneAccess (IsInnerStep P.step) (λ _. write_of at.now value)
            (state_of P.state self.old) result (state_of P.state self.new) }
        ensures count { CountsFaults result
            (faults_of P.faults self.old) (faults_of P.faults self.new) }
        ensures passes { PassesOn P.faults self.old self.new (is_err result) }
    {
        self.attempts.begin()?;
        self.inner.write(at, value)
    }

    fn copy(&mut self, address: u64, skip: usize, into: &mut [u8]) -> Result<(), BusFault>
        ensures access { IsOneAccess (IsInnerStep P.step) (λ _. Copies (address + skip) into.new)
            (state_of P.state self.old) result (state_of P.state self.new) }
        ensures kept { OnErr result (into.new ≡ into.old) }
        ensures count { CountsFaults result
            (faults_of P.faults self.old) (faults_of P.faults self.new) }
        ensures passes { PassesOn P.faults self.old self.new (is_err result) }
    {
        self.attempts.begin()?;
        self.inner.copy(address, skip, into)
    }
}

impl<P: Firmware> Firmware for Faulty<P> {
    ghost use Rattle.apei_mem_bus.specs.Faulty.{seen_of};
    ghost use Rattle.apei_mem_bus.specs.FaultyLaws.{planned_same, planned_moves, planned_sound, few_planned};

    ghost seen = { seen_of P.seen };

    ghost same = { λ one other equal. planned_same _ _ equal (P.same one.inner other.inner) };

    ghost moves = { λ before after access step. planned_moves access _ _ _ _ step.1
        (P.moves before.inner after.inner access step.0) };

    ghost looks = { λ before after access step look.
        P.looks before.inner after.inner access step.0 look };

    ghost sound = { λ port. planned_sound (P.sound port.inner)
        (few_planned port.attempts.plan port.attempts.are_due) };
}
