//! A table of fates by the numbers of blocks, and how it is filled.
ghost use Rattle.std.specs.Prelude.{◌≡◌, IfOk, None, count_by, replicate};
ghost use Rattle.std.specs.List.{flat_map, filter_map};
ghost use Rattle.ghes_ledger.specs.Settled.{is_acknowledged, numbered_call, numbered_taken, numbered_panic, put, filled, numbered_fates, settled};

use crate::{Fate, Ledger, PanicEntry, Taken};
use ghes_call::{Call, Outcome};
use std::alloc::{AllocError, Global};

// Whether a call acknowledged a block of a source.
fn is_acknowledged(call: &Call, source: u16) -> bool
    ensures { result ≡ is_acknowledged source call.entry.now }
{
    call.source == source
        && match call.reply.outcome {
            Outcome::Queued(_)
            | Outcome::Malformed(_, _)
            | Outcome::Duplicate(_, _)
            | Outcome::Fatal(_) => true,
            Outcome::Nothing | Outcome::NoSlot | Outcome::Fault | Outcome::Stopped => false,
        }
}

// How many blocks of a source these calls acknowledged.
fn acknowledged(calls: &[Call], source: u16) -> usize
    ensures { result ≡ count_by (is_acknowledged source) calls.now }
{
    calls
        .iter()
        .filter(|call| is_acknowledged(call, source))
        .count()
}

// A table without fates.
fn empty_table(alloc: Global, len: usize) -> Result<Vec<Option<Fate>>, AllocError>
    ensures { IfOk result (λ table. table.items ≡ replicate len None) }
{
    Ok(vec![in alloc; None; len]?)
}

// Puts a fate at its block's number. A number past the table's end changes nothing.
fn put(table: &mut [Option<Fate>], number: u32, fate: Fate)
    ensures { table.new ≡ put table.old (number, fate) }
{
    let number = number as usize;
    if number < table.len() {
        table[number] = Some(fate);
    }
}

// Puts the fate that a call gives, if it is a duplicate of the source.
fn put_call(call: &Call, source: u16, table: &mut [Option<Fate>])
    ensures { table.new ≡ filled table.old (numbered_call source call.entry.now) }
{
    if call.source == source {
        if let Outcome::Duplicate(number, report) = call.reply.outcome {
            put(table, number, Fate::Duplicate(report));
        }
    }
}

// Puts the fates of the source's duplicates.
fn put_calls(calls: &[Call], source: u16, table: &mut [Option<Fate>])
    ensures { table.new ≡ filled table.old (flat_map (numbered_call source) calls.now) }
{
    for call in calls {
        put_call(call, source, table);
    }
}

// Puts the fate of a taken block, if it is one of the source.
fn put_entry(entry: &Taken, wanted: u16, table: &mut [Option<Fate>])
    ensures { table.new ≡ filled table.old (numbered_taken wanted entry.now) }
{
    match entry {
        Taken::Delivered { source, seq, .. } => {
            if *source == wanted {
                put(table, *seq, Fate::Delivered);
            }
        }
        Taken::Dropped {
            source,
            seq,
            reason,
            ..
        } => {
            if *source == wanted {
                put(table, *seq, Fate::Dropped(*reason));
            }
        }
    }
}

// Puts the fates of the source's taken blocks.
fn put_taken(taken: &[Taken], source: u16, table: &mut [Option<Fate>])
    ensures { table.new ≡ filled table.old (flat_map (numbered_taken source) taken.now) }
{
    for entry in taken {
        put_entry(entry, source, table);
    }
}

// Puts the fate of a block of the panic list, if it is one of the source.
fn put_panicked(entry: &PanicEntry, source: u16, table: &mut [Option<Fate>])
    ensures { table.new ≡ filled table.old (numbered_panic source entry.now) }
{
    if entry.source == source {
        put(table, entry.seq, Fate::Panic);
    }
}

// Puts the fates of the source's blocks in the panic list.
fn put_panic(panic: &[PanicEntry], source: u16, table: &mut [Option<Fate>])
    ensures { table.new ≡ filled table.old (flat_map (numbered_panic source) panic.now) }
{
    for entry in panic {
        put_panicked(entry, source, table);
    }
}

// Puts the fates of all of the source's blocks.
fn put_all(ledger: &Ledger, source: u16, table: &mut [Option<Fate>])
    ensures { table.new ≡ filled table.old (numbered_fates source ledger.now) }
{
    put_calls(ledger.calls(), source, table);
    put_taken(ledger.taken(), source, table);
    put_panic(ledger.panic(), source, table);
}

// The fates of a table, without the numbers that have none.
fn collected(alloc: Global, table: &[Option<Fate>]) -> Result<Vec<Fate>, AllocError>
    ensures { IfOk result (λ fates. fates.items ≡ filter_map (λ fate. fate) table.now) }
{
    let mut fates = Vec::new(alloc);
    for fate in table {
        if let Some(fate) = fate {
            fates.push(*fate)?;
        }
    }
    Ok(fates)
}

// Puts the fates of all of the source's blocks in a table, and takes them from it in order.
fn settled_in(
    ledger: &Ledger,
    alloc: Global,
    source: u16,
    table: &mut [Option<Fate>],
) -> Result<Vec<Fate>, AllocError>
    ensures { IfOk result (λ fates. fates.items ≡ filter_map (λ fate. fate) (filled table.old (numbered_fates source ledger.now))) }
{
    put_all(ledger, source, table);
    collected(alloc, table)
}

/// The fates of a source's blocks in the order of their numbers.
pub(crate) fn settled(ledger: &Ledger, alloc: Global, source: u16) -> Result<Vec<Fate>, AllocError>
    ensures { IfOk result (λ fates. fates.items ≡ settled source ledger.now) }
{
    let count = acknowledged(ledger.calls(), source);
    let mut table = empty_table(alloc, count + 1)?;
    settled_in(ledger, alloc, source, &mut table)
}
