//! How an acknowledged block ended, and the fates of a source's blocks in a ledger.
ghost use Rattle.std.specs.Prelude.{◌≡◌, IfOk};
ghost use Rattle.ghes_ledger.specs.Fates.{HasOneFateEach, AreFatesOf};

use crate::Ledger;
use crate::settling::settled;
use cper_block::Malformed;
use std::alloc::{AllocError, Global};

/// How an acknowledged block ended.
///
/// Source: own choice.
#[derive(Clone, Copy, Debug, PartialEq, Eq)]
pub enum Fate {
    /// It was given to the handlers.
    Delivered,
    /// The report of this number, from 1 on, told the same bytes shortly before.
    Duplicate(u64),
    /// It is malformed, and it was told as dropped.
    Dropped(Malformed),
    /// It stands in the panic report.
    Panic,
}

impl Ledger {
    /// The fates of a source's acknowledged blocks, by number from 1 on.
    ///
    /// It speaks of a ledger in which each of these blocks has one fate, as in each lawful one. Of any other it says nothing.
    pub fn fates(&self, alloc: Global, source: u16) -> Result<Vec<Fate>, AllocError>
        ensures { IfOk result (λ fates. HasOneFateEach source self.now → AreFatesOf source self.now fates.items) }
    {
        settled(self, alloc, source)
    }
}
