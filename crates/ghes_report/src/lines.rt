//! The lines of calls and of taken blocks.
ghost use Rattle.std.specs.Prelude.{◌≡◌, ◌++◌, OnOk};
ghost use Rattle.std.specs.Fmt.{decimal};
ghost use Rattle.std.specs.List.{flat_map, AllByRecursion};
ghost use Rattle.ghes_report.specs.Lines.{id_at, told_in, told_of, told_text, outcome_text, ack_text, call_line, call_text, repeat_line, taken_text, between};
ghost use Rattle.ghes_report.specs.Sound.{IsSoundTaken};

use cper_text::{Text, add_drop, add_report, reason_text, source_and_block};
use ghes_call::{AckState, Call, Outcome};
use ghes_ledger::{Report, Reported, Taken};
use std::alloc::AllocError;

/// The block that a report told.
#[derive(Clone, Copy, Debug)]
pub(crate) struct Told {
    /// The id of its source.
    pub id: u16,
    /// Its number.
    pub seq: u32,
}

// Adds the block that a report told.
#[tactic(auto, using(cper_text::proofs::Joining::grouped), unfolding(crate::specs::Lines::told_text))]
fn told_text(text: &mut Text, told: Told) -> Result<(), AllocError>
    ensures ok { OnOk result (text.new.added ≡ text.old.added ++ told_text told) }
    ensures front { text.new.front ≡ text.old.front }
{
    source_and_block(text, "source ", told.id, told.seq)
}

/// Adds a word and a number.
#[tactic(auto, using(cper_text::proofs::Joining::grouped))]
pub(crate) fn numbered(text: &mut Text, word: &str, number: u32) -> Result<(), AllocError>
    ensures ok { OnOk result (text.new.added ≡ text.old.added ++ word.now ++ decimal number) }
    ensures front { text.new.front ≡ text.old.front }
{
    text.put(word.as_bytes())?;
    text.put_number(number)
}

// Adds how a call ended.
#[tactic(auto, using(cper_text::proofs::Joining::grouped))]
fn outcome_text(text: &mut Text, told: Told, outcome: Outcome) -> Result<(), AllocError>
    ensures ok { OnOk result (text.new.added ≡ text.old.added ++ outcome_text told outcome) }
    ensures front { text.new.front ≡ text.old.front }
{
    match outcome {
        Outcome::Nothing => text.put(b"nothing"),
        Outcome::Queued(number) => numbered(text, "queued ", number),
        Outcome::Malformed(number, reason) => {
            numbered(text, "malformed ", number)?;
            text.put(b": ")?;
            reason_text(text, reason)
        }
        Outcome::Duplicate(number, _) => {
            numbered(text, "duplicate ", number)?;
            text.put(b" of ")?;
            told_text(text, told)
        }
        Outcome::Fatal(number) => numbered(text, "fatal ", number),
        Outcome::NoSlot => text.put(b"no slot"),
        Outcome::Fault => text.put(b"fault"),
        Outcome::Stopped => text.put(b"stopped"),
    }
}

/// The id of the source at a position, and 0 where there is none.
pub(crate) fn id_at(ids: &[u16], source: usize) -> u16
    ensures { result ≡ id_at ids.now source }
{
    match ids.get(source) {
        Some(id) => *id,
        None => 0,
    }
}

// The block that the report of this number told.
fn told_in(ids: &[u16], reports: &[Report], number: u64) -> Told
    ensures { result ≡ told_in ids.now reports.now number }
{
    match reports.get(number.saturating_sub(1) as usize) {
        Some(report) => Told {
            id: id_at(ids, report.source as usize),
            seq: report.seq,
        },
        None => Told { id: 0, seq: 0 },
    }
}

// The block that the report of a duplicate told.
fn told_of(ids: &[u16], reports: &[Report], outcome: Outcome) -> Told
    ensures { result ≡ told_of ids.now reports.now outcome }
{
    match outcome {
        Outcome::Duplicate(_, report) => told_in(ids, reports, report),
        _ => Told { id: 0, seq: 0 },
    }
}

// What is told of an acknowledgement.
fn ack_text(ack: AckState) -> &'static str
    ensures { result.now ≡ ack_text ack }
{
    match ack {
        AckState::Failed => ", ack failed",
        AckState::NotAsked | AckState::Done => "",
    }
}

// Adds the line of a call.
#[tactic(auto, using(cper_text::proofs::Joining::grouped), unfolding(crate::specs::Lines::call_line))]
fn call_line(
    text: &mut Text,
    id: u16,
    told: Told,
    outcome: Outcome,
    ack: AckState,
) -> Result<(), AllocError>
    ensures ok { OnOk result (text.new.added ≡ text.old.added ++ call_line id (outcome_text told outcome) (ack_text ack)) }
    ensures front { text.new.front ≡ text.old.front }
{
    numbered(text, "nmi ", u32::from(id))?;
    text.put(b": ")?;
    outcome_text(text, told, outcome)?;
    text.put(ack_text(ack).as_bytes())?;
    text.put(b"\n")
}

/// Adds the line of a call, by the ids of the sources and the reports.
pub(crate) fn call_text(
    text: &mut Text,
    ids: &[u16],
    reports: &[Report],
    call: &Call,
) -> Result<(), AllocError>
    ensures ok { OnOk result (text.new.added ≡ text.old.added ++ call_text ids.now reports.now call.entry.now) }
    ensures front { text.new.front ≡ text.old.front }
{
    let Call { source, reply, .. } = *call;
    let told = told_of(ids, reports, reply.outcome);
    let id = id_at(ids, source as usize);
    call_line(text, id, told, reply.outcome, reply.ack)
}

/// Adds the lines of the calls.
pub(crate) fn calls_text(
    text: &mut Text,
    ids: &[u16],
    reports: &[Report],
    calls: &[Call],
) -> Result<(), AllocError>
    ensures ok { OnOk result (text.new.added ≡ text.old.added ++ flat_map (call_text ids.now reports.now) calls.now) }
    ensures front { text.new.front ≡ text.old.front }
{
    for call in calls {
        call_text(text, ids, reports, call)?;
    }
    Ok(())
}

// Adds the line of a repeat.
#[tactic(auto, using(cper_text::proofs::Joining::grouped), unfolding(crate::specs::Lines::repeat_line))]
fn repeat_line(text: &mut Text, id: u16, seq: u32, told: Told) -> Result<(), AllocError>
    ensures ok { OnOk result (text.new.added ≡ text.old.added ++ repeat_line id seq told) }
    ensures front { text.new.front ≡ text.old.front }
{
    source_and_block(text, "repeat source ", id, seq)?;
    text.put(b" of ")?;
    told_text(text, told)?;
    text.put(b"\n")
}

/// Adds the lines of a taken block.
pub(crate) fn taken_text(
    text: &mut Text,
    ids: &[u16],
    reports: &[Report],
    taken: &Taken,
) -> Result<(), AllocError>
    requires { IsSoundTaken taken.now }
    ensures ok { OnOk result (text.new.added ≡ text.old.added ++ taken_text ids.now reports.now taken.now) }
    ensures front { text.new.front ≡ text.old.front }
{
    match taken {
        Taken::Delivered {
            source,
            seq,
            bytes,
            reported: Reported::New(_),
        } => add_report(text, id_at(ids, *source as usize), *seq, bytes.as_slice()),
        Taken::Delivered {
            source,
            seq,
            reported: Reported::Repeat(number),
            ..
        } => {
            let told = told_in(ids, reports, *number);
            repeat_line(text, id_at(ids, *source as usize), *seq, told)
        }
        Taken::Dropped {
            source,
            seq,
            bytes,
            reason,
        } => add_drop(
            text,
            id_at(ids, *source as usize),
            *seq,
            *reason,
            bytes.as_slice(),
        ),
    }
}

/// Adds the lines of the taken blocks.
pub(crate) fn all_taken_text(
    text: &mut Text,
    ids: &[u16],
    reports: &[Report],
    taken: &[Taken],
) -> Result<(), AllocError>
    requires { AllByRecursion IsSoundTaken taken.now }
    ensures ok { OnOk result (text.new.added ≡ text.old.added ++ flat_map (taken_text ids.now reports.now) taken.now) }
    ensures front { text.new.front ≡ text.old.front }
{
    for entry in taken {
        taken_text(text, ids, reports, entry)?;
    }
    Ok(())
}

/// What stands in a list from one count to another.
#[tactic(auto, using(crate::proofs::BetweenLemmas::dropped_min, crate::proofs::BetweenLemmas::taken_min))]
pub(crate) fn between<T>(xs: &[T], from: u64, to: u64) -> &[T]
    ensures { result.now ≡ between from to xs.now }
{
    let (_before, rest) = xs.split_at((from as usize).min(xs.len()));
    let count = to.saturating_sub(from) as usize;
    rest.split_at(count.min(rest.len())).0
}
