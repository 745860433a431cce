//! The listing of a table of error sources, and of an injection table beside it.
ghost use Rattle.std.specs.Prelude.{◌≡◌, ◌++◌, length, is_some, OnOk, IfOk};
ghost use Rattle.std.specs.String.{string_bytes};
ghost use Rattle.std.specs.List.{flat_map};
ghost use Rattle.ghes_replay.specs.Done.{Prints, Does};
ghost use Rattle.ghes_replay.specs.Task.{Check};
ghost use Rattle.ghes_replay.specs.Views.{done_of};
ghost use Rattle.ghes_replay.specs.Check.{form_text, ghes_line, skipped_line, source_text, hest_count_line, injection_line, check_text};

use crate::Refusal;
use crate::done::Done;
use crate::loading::load_tables;
use apei_einj::Einj;
use apei_hest::{Ghes, Source};
use ghes_outside::Files;
use std::alloc::{AllocError, Global};

// The version of a generic source, and whether it is enabled.
fn form_word(ghes: &Ghes) -> &'static str
    ensures { result.now ≡ form_text (is_some ghes.now.ack) ghes.now.enabled }
{
    match (ghes.ack.is_some(), ghes.enabled) {
        (false, false) => "ghes disabled",
        (false, true) => "ghes enabled",
        (true, false) => "ghesv2 disabled",
        (true, true) => "ghesv2 enabled",
    }
}

// The line of a generic source, by the words for its form.
fn ghes_line(alloc: Global, form: &str, ghes: &Ghes) -> Result<String, AllocError>
    ensures { IfOk result (λ line. string_bytes line ≡ ghes_line form.now ghes.now) }
{
    let (id, at, kind, length) = (ghes.id, ghes.at, ghes.notify.kind, ghes.block_length);
    format!(in alloc; "{id} at {at}: {form}, notification {kind}, block length {length}\n")
}

// The line of a structure whose contents are not read.
fn skipped_line(
    alloc: Global,
    kind: u16,
    id: u16,
    at: u32,
    length: u32,
) -> Result<String, AllocError>
    ensures { IfOk result (λ line. string_bytes line ≡ skipped_line kind id at length) }
{
    format!(in alloc; "{id} at {at}: type {kind}, length {length}\n")
}

// The line of a source.
fn source_line(alloc: Global, source: &Source) -> Result<String, AllocError>
    ensures { IfOk result (λ line. string_bytes line ≡ source_text source.now) }
{
    match source {
        Source::Skipped {
            kind,
            id,
            at,
            length,
        } => skipped_line(alloc, *kind, *id, *at, *length),
        Source::Ghes(ghes) => ghes_line(alloc, form_word(ghes), ghes),
    }
}

// Appends the lines of the sources.
fn sources_text(alloc: Global, into: &mut Vec<u8>, found: &[Source]) -> Result<(), AllocError>
    ensures { OnOk result (into.new.items ≡ into.old.items ++ flat_map source_text found.now) }
{
    for source in found {
        let line = source_line(alloc, source)?;
        into.extend_from_slice(line.as_bytes())?;
    }
    Ok(())
}

// The line of a table, by how many sources it has.
fn hest_count_line(alloc: Global, count: usize) -> Result<String, AllocError>
    ensures { IfOk result (λ line. string_bytes line ≡ hest_count_line count) }
{
    format!(in alloc; "hest: {count} sources\n")
}

// The line of an injection table, by how many entries it has, or that there is none.
fn injection_line(alloc: Global, injection: &Option<Einj>) -> Result<String, AllocError>
    ensures { IfOk result (λ line. string_bytes line ≡ injection_line injection.now) }
{
    match injection {
        Some(einj) => {
            let count = einj.entries().len();
            format!(in alloc; "einj: {count} entries\n")
        }
        None => String::from_str(alloc, "einj: none\n"),
    }
}

// The listing of a table, and of an injection table where there is one.
fn list_both(alloc: Global, found: &[Source], injection: &Option<Einj>) -> Result<Done, Refusal>
    ensures { Prints (λ text. text ≡ check_text found.now injection.now) (done_of result) }
{
    let mut text = Vec::new(alloc);
    let line = hest_count_line(alloc, found.len())?;
    text.extend_from_slice(line.as_bytes())?;
    sources_text(alloc, &mut text, found)?;
    let last = injection_line(alloc, injection)?;
    text.extend_from_slice(last.as_bytes())?;
    Ok(Done { ledger: None, text })
}

/// Lists the table of a file, and the injection table of another unless its word is `-`.
pub(crate) fn check<F: Files>(
    alloc: Global,
    files: &mut F,
    hest: &str,
    einj: &str,
) -> Result<Done, Refusal>
    ensures { Does (F.seen files.old)
        (F.seen files.new) (Check hest.now einj.now) (done_of result) }
{
    match load_tables(alloc, files, hest, einj) {
        Ok((found, injection)) => list_both(alloc, found.sources(), &injection),
        Err(refusal) => Err(refusal),
    }
}
