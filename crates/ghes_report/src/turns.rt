//! The lines of `run`.
ghost use Rattle.std.specs.Prelude.{◌≡◌, ◌++◌, OnOk, length};
ghost use Rattle.std.specs.List.{flat_map, range_with_len, AllByRecursion};
ghost use Rattle.ghes_report.specs.Sound.{IsSoundTaken};
ghost use Rattle.ghes_report.specs.Turns.{turns_line, call_on, taken_on, lines_on, turns_text};
ghost use Rattle.ghes_ledger.specs.Names.{packet_of};

use crate::lines::{call_text, numbered, taken_text};
use cper_text::Text;
use ghes_call::Call;
use ghes_ledger::{Report, Taken};
use std::alloc::AllocError;

// Adds the first line, by how many turns there are.
#[tactic(auto, using(cper_text::proofs::Joining::grouped), unfolding(crate::specs::Turns::turns_line))]
fn turns_line(text: &mut Text, turns: u16) -> Result<(), AllocError>
    ensures ok { OnOk result (text.new.added ≡ text.old.added ++ turns_line turns) }
    ensures front { text.new.front ≡ text.old.front }
{
    numbered(text, "run ", u32::from(turns))?;
    text.put(b"\n")
}

// Adds the line of a call, where it is on the source at this position.
fn call_on(
    text: &mut Text,
    ids: &[u16],
    reports: &[Report],
    source: usize,
    call: &Call,
) -> Result<(), AllocError>
    ensures ok { OnOk result (text.new.added ≡ text.old.added ++ call_on ids.now reports.now source call.entry.now) }
    ensures front { text.new.front ≡ text.old.front }
{
    if usize::from(call.source) != source {
        return Ok(());
    }
    call_text(text, ids, reports, call)
}

// Adds the lines of the calls on the source at this position.
fn calls_on(
    text: &mut Text,
    ids: &[u16],
    reports: &[Report],
    source: usize,
    calls: &[Call],
) -> Result<(), AllocError>
    ensures ok { OnOk result (text.new.added ≡ text.old.added ++ flat_map (call_on ids.now reports.now source) calls.now) }
    ensures front { text.new.front ≡ text.old.front }
{
    for call in calls {
        call_on(text, ids, reports, source, call)?;
    }
    Ok(())
}

// The position of the source of a taken block.
fn source_of(taken: &Taken) -> usize
    ensures { result ≡ (packet_of taken.now).source }
{
    match taken {
        Taken::Delivered { source, .. } | Taken::Dropped { source, .. } => usize::from(*source),
    }
}

// Adds the lines of a taken block, where it is of the source at this position.
fn taken_on(
    text: &mut Text,
    ids: &[u16],
    reports: &[Report],
    source: usize,
    taken: &Taken,
) -> Result<(), AllocError>
    requires { IsSoundTaken taken.now }
    ensures ok { OnOk result (text.new.added ≡ text.old.added ++ taken_on ids.now reports.now source taken.now) }
    ensures front { text.new.front ≡ text.old.front }
{
    if source_of(taken) != source {
        return Ok(());
    }
    taken_text(text, ids, reports, taken)
}

// Adds the lines of the taken blocks of the source at this position.
fn all_taken_on(
    text: &mut Text,
    ids: &[u16],
    reports: &[Report],
    source: usize,
    taken: &[Taken],
) -> Result<(), AllocError>
    requires { AllByRecursion IsSoundTaken taken.now }
    ensures ok { OnOk result (text.new.added ≡ text.old.added ++ flat_map (taken_on ids.now reports.now source) taken.now) }
    ensures front { text.new.front ≡ text.old.front }
{
    for entry in taken {
        taken_on(text, ids, reports, source, entry)?;
    }
    Ok(())
}

// Adds the lines of the source at this position: its calls, and then its taken blocks.
#[tactic(auto, using(cper_text::proofs::Joining::grouped))]
fn lines_on(
    text: &mut Text,
    ids: &[u16],
    reports: &[Report],
    calls: &[Call],
    taken: &[Taken],
    source: usize,
) -> Result<(), AllocError>
    requires { AllByRecursion IsSoundTaken taken.now }
    ensures ok { OnOk result (text.new.added ≡ text.old.added ++ lines_on ids.now reports.now calls.now taken.now source) }
    ensures front { text.new.front ≡ text.old.front }
{
    calls_on(text, ids, reports, source, calls)?;
    all_taken_on(text, ids, reports, source, taken)
}

// Adds the lines of all sources, in table order.
fn all_lines_on(
    text: &mut Text,
    ids: &[u16],
    reports: &[Report],
    calls: &[Call],
    taken: &[Taken],
) -> Result<(), AllocError>
    requires { AllByRecursion IsSoundTaken taken.now }
    ensures ok { OnOk result (text.new.added ≡ text.old.added ++
        flat_map (lines_on ids.now reports.now calls.now taken.now) (range_with_len 0 (length ids.now))) }
    ensures front { text.new.front ≡ text.old.front }
{
    for source in 0..ids.len() {
        lines_on(text, ids, reports, calls, taken, source)?;
    }
    Ok(())
}

/// Adds the lines of so many turns: by source in table order its calls, and then its taken blocks.
#[tactic(auto, using(cper_text::proofs::Joining::grouped))]
pub(crate) fn turns_text(
    text: &mut Text,
    ids: &[u16],
    reports: &[Report],
    turns: u16,
    calls: &[Call],
    taken: &[Taken],
) -> Result<(), AllocError>
    requires { AllByRecursion IsSoundTaken taken.now }
    ensures ok { OnOk result (text.new.added ≡ text.old.added ++ turns_text ids.now reports.now turns calls.now taken.now) }
    ensures front { text.new.front ≡ text.old.front }
{
    turns_line(text, turns)?;
    all_lines_on(text, ids, reports, calls, taken)
}
