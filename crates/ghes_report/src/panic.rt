//! The panic report of a ledger.
ghost use Rattle.std.specs.Prelude.{◌≡◌, ◌++◌, OnOk};
ghost use Rattle.std.specs.List.{flat_map, AllByRecursion};
ghost use Rattle.ghes_report.specs.Panic.{entry_line, entry_word, entry_text, panic_text};
ghost use Rattle.ghes_report.specs.Sound.{IsSoundEntry};

use crate::lines::id_at;
use cper_text::{Text, add_block, add_malformed, source_and_block};
use ghes_ledger::PanicEntry;
use std::alloc::AllocError;

// What a block of the panic list was.
fn entry_word(fatal: bool) -> &'static str
    ensures { result.now ≡ entry_word fatal }
{
    if fatal { "fatal" } else { "pending" }
}

// Adds the first line of a block in the panic report.
#[tactic(auto, using(cper_text::proofs::Joining::grouped), unfolding(crate::specs::Panic::entry_line))]
fn entry_line(text: &mut Text, word: &str, id: u16, seq: u32) -> Result<(), AllocError>
    ensures ok { OnOk result (text.new.added ≡ text.old.added ++ entry_line word.now id seq) }
    ensures front { text.new.front ≡ text.old.front }
{
    text.put(word.as_bytes())?;
    source_and_block(text, " source ", id, seq)?;
    text.put(b"\n")
}

// Adds the lines of a block in the panic report.
#[tactic(auto, using(cper_text::proofs::Joining::grouped))]
fn entry_text(text: &mut Text, ids: &[u16], entry: &PanicEntry) -> Result<(), AllocError>
    requires { IsSoundEntry entry.now }
    ensures ok { OnOk result (text.new.added ≡ text.old.added ++ entry_text ids.now entry.now) }
    ensures front { text.new.front ≡ text.old.front }
{
    let id = id_at(ids, entry.source as usize);
    entry_line(text, entry_word(entry.fatal), id, entry.seq)?;
    match &entry.reason {
        Some(reason) => add_malformed(text, *reason, entry.bytes.as_slice()),
        None => add_block(text, entry.bytes.as_slice()),
    }
}

// Adds the lines of the blocks of a panic list.
fn entries_text(text: &mut Text, ids: &[u16], entries: &[PanicEntry]) -> Result<(), AllocError>
    requires { AllByRecursion IsSoundEntry entries.now }
    ensures ok { OnOk result (text.new.added ≡ text.old.added ++ flat_map (entry_text ids.now) entries.now) }
    ensures front { text.new.front ≡ text.old.front }
{
    for entry in entries {
        entry_text(text, ids, entry)?;
    }
    Ok(())
}

/// Adds the panic report: nothing, where the panic list is empty.
#[tactic(auto, using(cper_text::proofs::Joining::grouped))]
pub(crate) fn add_panic(
    text: &mut Text,
    ids: &[u16],
    entries: &[PanicEntry],
) -> Result<(), AllocError>
    requires { AllByRecursion IsSoundEntry entries.now }
    ensures ok { OnOk result (text.new.added ≡ text.old.added ++ panic_text ids.now entries.now) }
    ensures front { text.new.front ≡ text.old.front }
{
    if entries.is_empty() {
        return Ok(());
    }
    text.put(b"panic\n")?;
    entries_text(text, ids, entries)?;
    text.put(b"end of panic\n")
}
