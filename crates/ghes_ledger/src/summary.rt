//! The counts that end a replay.
ghost use Rattle.std.specs.Prelude.{◌≡◌, ◌==◌, IfOk, count_by};
ghost use Rattle.ghes_ledger.specs.Counts.{is_delivery, is_drop, is_duplicate_of, is_no_slot, is_repeat, counts_of, IsSummaryOf};
ghost use Rattle.ghes_ledger.specs.Outcomes.{is_fault};

use crate::{Ledger, PanicEntry, Reported, Taken};
use ghes_call::{Call, Outcome};
use std::alloc::{AllocError, Global};

/// How many blocks of a source had each fate.
#[derive(Clone, Copy, Debug, PartialEq, Eq)]
pub struct SourceSummary {
    /// Told as a report of their own or as a repeat.
    pub delivered: u64,
    pub duplicate: u64,
    pub dropped: u64,
    /// In the panic report.
    pub panic: u64,
}

/// The counts of a replay.
///
/// Source: own choice.
#[derive(Debug, Drop)]
pub struct Summary {
    /// One for each source, in table order.
    pub sources: Vec<SourceSummary>,
    pub reports: u64,
    /// Deliveries that were told as repeats.
    pub repeats: u64,
    /// Calls that found no slot.
    pub no_slot: u64,
    /// Calls in which an access failed before the block was cleared.
    pub faults: u64,
}

// Whether a taken block is a delivery of a source.
fn is_delivery(entry: &Taken, wanted: usize) -> bool
    ensures { result ≡ is_delivery wanted entry.now }
{
    match entry {
        Taken::Delivered { source, .. } => usize::from(*source) == wanted,
        Taken::Dropped { .. } => false,
    }
}

// Whether a taken block is a drop of a source.
fn is_drop(entry: &Taken, wanted: usize) -> bool
    ensures { result ≡ is_drop wanted entry.now }
{
    match entry {
        Taken::Delivered { .. } => false,
        Taken::Dropped { source, .. } => usize::from(*source) == wanted,
    }
}

// Whether a taken block was told as a repeat.
fn is_repeat(entry: &Taken) -> bool
    ensures { result ≡ is_repeat entry.now }
{
    match entry {
        Taken::Delivered { reported, .. } => matches!(reported, Reported::Repeat(_)),
        Taken::Dropped { .. } => false,
    }
}

// Whether a call answered Duplicate for a block of a source.
fn is_duplicate_of(call: &Call, source: usize) -> bool
    ensures { result ≡ is_duplicate_of source call.entry.now }
{
    usize::from(call.source) == source && matches!(call.reply.outcome, Outcome::Duplicate(_, _))
}

fn deliveries(taken: &[Taken], source: usize) -> u64
    ensures { result ≡ count_by (is_delivery source) taken.now }
{
    taken
        .iter()
        .filter(|entry| is_delivery(entry, source))
        .count() as u64
}

fn drops(taken: &[Taken], source: usize) -> u64
    ensures { result ≡ count_by (is_drop source) taken.now }
{
    taken.iter().filter(|entry| is_drop(entry, source)).count() as u64
}

fn repeats(taken: &[Taken]) -> u64
    ensures { result ≡ count_by is_repeat taken.now }
{
    taken.iter().filter(|entry| is_repeat(entry)).count() as u64
}

fn duplicates(calls: &[Call], source: usize) -> u64
    ensures { result ≡ count_by (is_duplicate_of source) calls.now }
{
    calls
        .iter()
        .filter(|call| is_duplicate_of(call, source))
        .count() as u64
}

fn no_slots(calls: &[Call]) -> u64
    ensures { result ≡ count_by (λ call. is_no_slot call.reply.outcome) calls.now }
{
    calls
        .iter()
        .filter(|call| matches!(call.reply.outcome, Outcome::NoSlot))
        .count() as u64
}

fn faults(calls: &[Call]) -> u64
    ensures { result ≡ count_by (λ call. is_fault call.reply.outcome) calls.now }
{
    calls
        .iter()
        .filter(|call| matches!(call.reply.outcome, Outcome::Fault))
        .count() as u64
}

fn panicked(panic: &[PanicEntry], wanted: usize) -> u64
    ensures { result ≡ count_by (λ entry. entry.source == wanted) panic.now }
{
    panic
        .iter()
        .filter(|entry| usize::from(entry.source) == wanted)
        .count() as u64
}

impl Ledger {
    // How many blocks of a source had each fate.
    fn counts_of(&self, source: usize) -> SourceSummary
        ensures { result ≡ counts_of self.now source }
    {
        SourceSummary {
            delivered: deliveries(self.taken(), source),
            duplicate: duplicates(self.calls(), source),
            dropped: drops(self.taken(), source),
            panic: panicked(self.panic(), source),
        }
    }

    /// The counts of each source below `sources`, in table order, and those of the whole ledger.
    ///
    /// Blocks of sources from there on are in no source's counts.
    pub fn summary(&self, alloc: Global, sources: usize) -> Result<Summary, AllocError>
        ensures { IfOk result (λ summary. IsSummaryOf sources self.now summary) }
    {
        let mut counts = Vec::with_capacity(alloc, sources)?;
        for source in 0..sources {
            counts.push(self.counts_of(source))?;
        }
        Ok(Summary {
            sources: counts,
            reports: self.reports().len() as u64,
            repeats: repeats(self.taken()),
            no_slot: no_slots(self.calls()),
            faults: faults(self.calls()),
        })
    }
}
