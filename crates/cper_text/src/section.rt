//! The words and the lines of a section, by which section it is.
ghost use Rattle.std.specs.Prelude.{◌≡◌, ◌++◌, codes, OnOk};
ghost use Rattle.uuid.specs.Text.{hyphenated_text, lower};
ghost use Rattle.cper_sections.specs.Section.{view, kind_text};
ghost use Rattle.cper_text.specs.Section.{section_lines, type_text};

use crate::bytes::bytes_line;
use crate::field::field_lines;
use crate::text::Text;
use cper_sections::{Kind, Section};
use std::alloc::AllocError;
use uuid::Uuid;

/// Adds the lines of a section.
#[tactic(auto, unfolding(crate::specs::Section::section_lines, crate::specs::Section::fields_text))]
pub(crate) fn section_lines(text: &mut Text, section: &Section) -> Result<(), AllocError>
    ensures ok { OnOk result (text.new.added ≡ text.old.added ++ section_lines (view section.now)) }
    ensures front { text.new.front ≡ text.old.front }
{
    match section {
        Section::Memory(memory) => field_lines(text, memory.rows(), memory.bytes()),
        Section::Processor(cpu) => field_lines(text, cpu.rows(), cpu.bytes()),
        Section::Pcie(pcie) => field_lines(text, pcie.rows(), pcie.bytes()),
        Section::Short(_, bytes) => bytes_line(text, "    data ", bytes),
        Section::Other(bytes) => bytes_line(text, "    data ", bytes),
    }
}

// Adds the words for a short section of a kind.
#[tactic(auto, using(crate::proofs::Joining::grouped))]
fn short_text(text: &mut Text, kind: Kind) -> Result<(), AllocError>
    ensures ok { OnOk result (text.new.added ≡ text.old.added ++ kind_text kind ++ codes " short") }
    ensures front { text.new.front ≡ text.old.front }
{
    text.put(kind.word().as_bytes())?;
    text.put(b" short")
}

/// Adds a GUID behind a head.
#[tactic(auto, using(crate::proofs::Joining::grouped))]
pub(crate) fn guid_text(text: &mut Text, head: &str, guid: &Uuid) -> Result<(), AllocError>
    ensures ok { OnOk result (text.new.added ≡ text.old.added ++ head.now ++ hyphenated_text lower guid.now) }
    ensures front { text.new.front ≡ text.old.front }
{
    text.put(head.as_bytes())?;
    let mut buffer = Uuid::encode_buffer();
    text.put(guid.hyphenated().encode_lower(&mut buffer).as_bytes())
}

/// Adds the words for which section it is, under the GUID of its entry.
#[tactic(auto, unfolding(crate::specs::Section::type_text))]
pub(crate) fn type_text(text: &mut Text, guid: &Uuid, section: &Section) -> Result<(), AllocError>
    ensures ok { OnOk result (text.new.added ≡ text.old.added ++ type_text guid.now (view section.now)) }
    ensures front { text.new.front ≡ text.old.front }
{
    match section {
        Section::Memory(_) => text.put(Kind::Memory.word().as_bytes()),
        Section::Processor(_) => text.put(Kind::Processor.word().as_bytes()),
        Section::Pcie(_) => text.put(Kind::Pcie.word().as_bytes()),
        Section::Short(kind, _) => short_text(text, *kind),
        Section::Other(_) => guid_text(text, "section ", guid),
    }
}
