//! The summary of a ledger.
ghost use Rattle.std.specs.Prelude.{◌≡◌, ◌++◌, OnOk, slice_get};
ghost use Rattle.std.specs.Fmt.{decimal};
ghost use Rattle.ghes_report.specs.Lines.{id_or};
ghost use Rattle.ghes_report.specs.Summary.{raised_line, fates_line, totals_line, source_text, sources_from, summary_text};

use crate::lines::id_at;
use cper_text::Text;
use ghes_ledger::{SourceSummary, Summary};
use std::alloc::AllocError;

/// Adds a count behind its words.
#[tactic(auto, using(cper_text::proofs::Joining::grouped))]
pub(crate) fn counted(text: &mut Text, words: &str, count: u64) -> Result<(), AllocError>
    ensures ok { OnOk result (text.new.added ≡ text.old.added ++ words.now ++ decimal count) }
    ensures front { text.new.front ≡ text.old.front }
{
    text.put(words.as_bytes())?;
    text.put_count(count)
}

// Adds the first part of the line of a source: what went in.
#[tactic(auto, using(cper_text::proofs::Joining::grouped), unfolding(crate::specs::Summary::raised_line))]
fn raised_line(text: &mut Text, id: u16, raised: u32, acknowledged: u32) -> Result<(), AllocError>
    ensures ok { OnOk result (text.new.added ≡ text.old.added ++ raised_line id raised acknowledged) }
    ensures front { text.new.front ≡ text.old.front }
{
    counted(text, "source ", id as u64)?;
    counted(text, ": raised ", raised as u64)?;
    counted(text, ", acknowledged ", acknowledged as u64)
}

// Adds the second part of the line of a source: what came out.
#[tactic(auto, using(cper_text::proofs::Joining::grouped), unfolding(crate::specs::Summary::fates_line))]
fn fates_line(text: &mut Text, fates: SourceSummary) -> Result<(), AllocError>
    ensures ok { OnOk result (text.new.added ≡ text.old.added ++ fates_line fates) }
    ensures front { text.new.front ≡ text.old.front }
{
    counted(text, ", delivered ", fates.delivered)?;
    counted(text, ", duplicate ", fates.duplicate)?;
    counted(text, ", dropped ", fates.dropped)?;
    counted(text, ", panic ", fates.panic)?;
    text.put(b"\n")
}

// Adds the last line.
#[tactic(auto, using(cper_text::proofs::Joining::grouped), unfolding(crate::specs::Summary::totals_line))]
fn totals_line(text: &mut Text, summary: &Summary) -> Result<(), AllocError>
    ensures ok { OnOk result (text.new.added ≡ text.old.added ++
        totals_line summary.now.reports summary.now.repeats summary.now.no_slot summary.now.faults) }
    ensures front { text.new.front ≡ text.old.front }
{
    counted(text, "reports ", summary.reports)?;
    counted(text, ", repeats ", summary.repeats)?;
    counted(text, ", no slot ", summary.no_slot)?;
    counted(text, ", fault ", summary.faults)?;
    text.put(b"\n")
}

// Adds the line of a source.
#[tactic(auto, using(cper_text::proofs::Joining::grouped))]
fn source_text(
    text: &mut Text,
    id: u16,
    raised: u32,
    acknowledged: u32,
    fates: SourceSummary,
) -> Result<(), AllocError>
    ensures ok { OnOk result (text.new.added ≡ text.old.added ++ source_text id raised acknowledged fates) }
    ensures front { text.new.front ≡ text.old.front }
{
    raised_line(text, id, raised, acknowledged)?;
    fates_line(text, fates)
}

// The number at a position, and 0 where there is none.
fn number_at(numbers: &[u32], position: usize) -> u32
    ensures { result ≡ id_or (slice_get numbers.now position) }
{
    match numbers.get(position) {
        Some(number) => *number,
        None => 0,
    }
}

// Adds the lines of the sources.
fn sources_text(
    text: &mut Text,
    sources: &[SourceSummary],
    ids: &[u16],
    raised: &[u32],
    acknowledged: &[u32],
) -> Result<(), AllocError>
    ensures ok { OnOk result (text.new.added ≡ text.old.added ++ sources_from 0 ids.now raised.now acknowledged.now sources.now) }
    ensures front { text.new.front ≡ text.old.front }
{
    let mut position = 0;
    while position < sources.len() {
        let id = id_at(ids, position);
        let before = number_at(raised, position);
        let behind = number_at(acknowledged, position);
        source_text(text, id, before, behind, sources[position])?;
        position += 1;
    }
    Ok(())
}

/// Adds a summary.
#[tactic(auto, using(cper_text::proofs::Joining::grouped))]
pub(crate) fn add_summary(
    text: &mut Text,
    summary: &Summary,
    ids: &[u16],
    raised: &[u32],
    acknowledged: &[u32],
) -> Result<(), AllocError>
    ensures ok { OnOk result (text.new.added ≡ text.old.added ++ summary_text ids.now raised.now acknowledged.now summary.now) }
    ensures front { text.new.front ≡ text.old.front }
{
    text.put(b"summary\n")?;
    sources_text(text, summary.sources.as_slice(), ids, raised, acknowledged)?;
    totals_line(text, summary)
}
