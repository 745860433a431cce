//! The lines of injections.
ghost use Rattle.std.specs.Prelude.{◌≡◌, ◌++◌, OnOk, codes};
ghost use Rattle.std.specs.Fmt.{decimal};
ghost use Rattle.std.specs.List.{flat_map};
ghost use Rattle.ghes_report.specs.Inject.{made_text, end_text, inject_head, injection_line};

use crate::lines::{id_at, numbered};
use cper_text::{Text, low_digits, source_and_block};
use ghes_ledger::InjectionEnd;
use std::alloc::AllocError;

// Adds the block that firmware made.
#[tactic(auto, using(cper_text::proofs::Joining::grouped), unfolding(crate::specs::Inject::made_text))]
fn made_text(text: &mut Text, id: u16, seq: u32) -> Result<(), AllocError>
    ensures ok { OnOk result (text.new.added ≡ text.old.added ++ made_text id seq) }
    ensures front { text.new.front ≡ text.old.front }
{
    source_and_block(text, "source ", id, seq)
}

// Adds the command status that an injection ended with.
#[tactic(auto, using(cper_text::proofs::Joining::grouped))]
fn status_text(text: &mut Text, value: u64) -> Result<(), AllocError>
    ensures ok { OnOk result (text.new.added ≡ text.old.added ++ codes "status " ++ decimal value) }
    ensures front { text.new.front ≡ text.old.front }
{
    text.put(b"status ")?;
    text.put_count(value)
}

// Adds how an injection ended.
#[tactic(auto, using(cper_text::proofs::Joining::grouped))]
fn end_text(text: &mut Text, ids: &[u16], end: InjectionEnd) -> Result<(), AllocError>
    ensures ok { OnOk result (text.new.added ≡ text.old.added ++ end_text ids.now end) }
    ensures front { text.new.front ≡ text.old.front }
{
    match end {
        InjectionEnd::Made { source, seq } => made_text(text, id_at(ids, source as usize), seq),
        InjectionEnd::NotAvailable => text.put(b"not available"),
        InjectionEnd::Busy => text.put(b"busy"),
        InjectionEnd::Status(value) => status_text(text, value),
        InjectionEnd::Trigger(reason) => numbered(text, "trigger ", u32::from(reason)),
        InjectionEnd::NoAddress => text.put(b"no address"),
    }
}

// Adds what stands before the end in the line of an injection.
#[tactic(auto, using(cper_text::proofs::Joining::grouped), unfolding(crate::specs::Inject::inject_head))]
fn inject_head(text: &mut Text, error: u32) -> Result<(), AllocError>
    ensures ok { OnOk result (text.new.added ≡ text.old.added ++ inject_head error) }
    ensures front { text.new.front ≡ text.old.front }
{
    text.put(b"inject 0x")?;
    low_digits(text, 4, u64::from(error))?;
    text.put(b": ")
}

// Adds the line of an injection.
#[tactic(auto, using(cper_text::proofs::Joining::grouped), unfolding(crate::specs::Inject::injection_line))]
fn injection_line(
    text: &mut Text,
    ids: &[u16],
    error: u32,
    end: InjectionEnd,
) -> Result<(), AllocError>
    ensures ok { OnOk result (text.new.added ≡ text.old.added ++ injection_line ids.now error end) }
    ensures front { text.new.front ≡ text.old.front }
{
    inject_head(text, error)?;
    end_text(text, ids, end)?;
    text.put(b"\n")
}

/// Adds the lines of injections of an error type, by how they ended.
pub(crate) fn injections_text(
    text: &mut Text,
    ids: &[u16],
    error: u32,
    ends: &[InjectionEnd],
) -> Result<(), AllocError>
    ensures ok { OnOk result (text.new.added ≡ text.old.added ++ flat_map (injection_line ids.now error) ends.now) }
    ensures front { text.new.front ≡ text.old.front }
{
    for end in ends {
        injection_line(text, ids, error, *end)?;
    }
    Ok(())
}
