//! The lines of the data entries of a block.
ghost use Rattle.std.specs.Prelude.{◌≡◌, ◌++◌, ◌<◌, ◌^◌, length, codes, OnOk};
ghost use Rattle.std.specs.Fmt.{decimal};
ghost use Rattle.std.specs.Option.{option_copied};
ghost use Rattle.cper_block.specs.Entry.{view};
ghost use Rattle.cper_block.specs.Cut.{entries_of};
ghost use Rattle.cper_block.specs.Severity.{severity_of, severity_text};
ghost use Rattle.cper_sections.specs.Section.{view as section_view};
ghost use Rattle.cper_text.specs.Section.{type_text};
ghost use Rattle.cper_text.specs.Entry.{entry_line, fru_id_line, fru_text_line, timestamp_line, entry_text, entries_text};

use crate::bytes::{bytes_line, text_line};
use crate::section::{guid_text, section_lines, type_text};
use crate::text::Text;
use cper_block::{DataEntry, Entries, Severity};
use cper_sections::Section;
use std::alloc::AllocError;
use uuid::Uuid;

/// Adds a severity and the end of its line behind a head.
#[inline(always)]
#[tactic(auto, using(crate::proofs::Joining::grouped))]
pub(crate) fn severity_end(
    text: &mut Text,
    head: &str,
    severity: Severity,
) -> Result<(), AllocError>
    ensures ok { OnOk result (text.new.added ≡ text.old.added ++ head.now ++ severity_text severity ++ codes "\n") }
    ensures front { text.new.front ≡ text.old.front }
{
    text.put(head.as_bytes())?;
    text.put(severity.word().as_bytes())?;
    text.put(b"\n")
}

// Adds the begin of an entry's line, with its number.
#[tactic(auto, using(crate::proofs::Joining::grouped))]
fn entry_begin(text: &mut Text, number: u32) -> Result<(), AllocError>
    ensures ok { OnOk result (text.new.added ≡ text.old.added ++ codes "  entry " ++ decimal number ++ codes " ") }
    ensures front { text.new.front ≡ text.old.front }
{
    text.put(b"  entry ")?;
    text.put_number(number)?;
    text.put(b" ")
}

// Adds the line of an entry: its number, the words for the type of its section, and its severity.
#[tactic(auto, using(crate::proofs::Joining::grouped), unfolding(crate::specs::Entry::entry_line))]
fn entry_line(
    text: &mut Text,
    number: u32,
    entry: &DataEntry,
    section: &Section,
) -> Result<(), AllocError>
    ensures ok { OnOk result (text.new.added ≡ text.old.added ++
        entry_line number (type_text entry.now.guid (section_view section.now)) (severity_of entry.now.severity)) }
    ensures front { text.new.front ≡ text.old.front }
{
    entry_begin(text, number)?;
    type_text(text, &entry.guid, section)?;
    severity_end(text, " severity ", Severity::from(entry.severity))
}

// Adds the line of a FRU's id, where there is one.
#[tactic(auto, using(crate::proofs::Joining::grouped), unfolding(crate::specs::Entry::fru_id_line))]
fn fru_id_line(text: &mut Text, id: Option<Uuid>) -> Result<(), AllocError>
    ensures ok { OnOk result (text.new.added ≡ text.old.added ++ fru_id_line id) }
    ensures front { text.new.front ≡ text.old.front }
{
    let Some(id) = id else {
        return Ok(());
    };
    guid_text(text, "    fru id ", &id)?;
    text.put(b"\n")
}

// Adds the line of a FRU's text, where there is one.
#[tactic(auto, unfolding(crate::specs::Entry::fru_text_line))]
fn fru_text_line(text: &mut Text, fru_text: Option<&[u8]>) -> Result<(), AllocError>
    ensures ok { OnOk result (text.new.added ≡ text.old.added ++ fru_text_line (option_copied fru_text.entry)) }
    ensures front { text.new.front ≡ text.old.front }
{
    match fru_text {
        None => Ok(()),
        Some(bytes) => text_line(text, "    fru text ", bytes),
    }
}

// Adds the line of a timestamp, where there is one.
#[tactic(auto, unfolding(crate::specs::Entry::timestamp_line))]
fn timestamp_line(text: &mut Text, timestamp: Option<&[u8]>) -> Result<(), AllocError>
    ensures ok { OnOk result (text.new.added ≡ text.old.added ++ timestamp_line (option_copied timestamp.entry)) }
    ensures front { text.new.front ≡ text.old.front }
{
    match timestamp {
        None => Ok(()),
        Some(bytes) => bytes_line(text, "    timestamp ", bytes),
    }
}

// Adds the lines of an entry with its number.
#[tactic(auto, using(crate::proofs::Joining::grouped), unfolding(crate::specs::Entry::entry_text))]
fn entry_text(text: &mut Text, number: u32, entry: &DataEntry) -> Result<(), AllocError>
    ensures ok { OnOk result (text.new.added ≡ text.old.added ++ entry_text number (view entry.now)) }
    ensures front { text.new.front ≡ text.old.front }
{
    let section = Section::read(&entry.guid, entry.section);
    entry_line(text, number, entry, &section)?;
    fru_id_line(text, entry.fru_id)?;
    fru_text_line(text, entry.fru_text)?;
    timestamp_line(text, entry.timestamp)?;
    section_lines(text, &section)
}

/// Adds the lines of the entries, which are numbered from 0.
pub(crate) fn entries_text(text: &mut Text, entries: Entries) -> Result<(), AllocError>
    requires { length (entries_of entries) < 2 ^ 32 }
    ensures ok { OnOk result (text.new.added ≡ text.old.added ++ entries_text 0 (entries_of entries.entry)) }
    ensures front { text.new.front ≡ text.old.front }
{
    let mut number = 0u32;
    for entry in entries {
        entry_text(text, number, &entry)?;
        number += 1;
    }
    Ok(())
}
