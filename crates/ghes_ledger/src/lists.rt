//! The lists of a ledger, lent.
ghost use Rattle.std.specs.Prelude.{◌≡◌, ◌≤◌, length, drop};

use crate::{InjectionEnd, Ledger, Mark, PanicEntry, Report, Taken};
use ghes_call::Call;

impl Ledger {
    /// The calls.
    pub fn calls(&self) -> &[Call]
        ensures { result.now ≡ self.now.calls }
    {
        &self.calls
    }

    /// The taken blocks.
    pub fn taken(&self) -> &[Taken]
        ensures { result.now ≡ self.now.taken }
    {
        &self.taken
    }

    /// The reports. Report number r is element r - 1.
    pub fn reports(&self) -> &[Report]
        ensures { result.now ≡ self.now.reports }
    {
        &self.reports
    }

    /// The panic list.
    pub fn panic(&self) -> &[PanicEntry]
        ensures { result.now ≡ self.now.panic }
    {
        &self.panic
    }

    /// How the injections ended.
    pub fn injections(&self) -> &[InjectionEnd]
        ensures { result.now ≡ self.now.injections }
    {
        &self.injections
    }

    /// The ack cells that were looked at.
    pub fn peeks(&self) -> &[u64]
        ensures { result.now ≡ self.now.peeks }
    {
        &self.peeks
    }

    /// The marks.
    pub fn marks(&self) -> &[Mark]
        ensures { result.now ≡ self.now.marks }
    {
        &self.marks
    }

    /// The calls from this one on, counted from 0.
    pub fn calls_from(&self, start: usize) -> &[Call]
        requires { start ≤ length self.now.calls }
        ensures { result.now ≡ drop start self.now.calls }
    {
        self.calls.split_at(start).1
    }

    /// The taken blocks from this one on, counted from 0.
    pub fn taken_from(&self, start: usize) -> &[Taken]
        requires { start ≤ length self.now.taken }
        ensures { result.now ≡ drop start self.now.taken }
    {
        self.taken.split_at(start).1
    }
}
