//! Loads files, and reads what they hold.
ghost use Rattle.std.specs.Prelude.{◌≡◌, ◌<◌, ◌^◌, length};
ghost use Rattle.apei_hest.specs.Refusal.{enabled};
ghost use Rattle.ghes_replay.specs.Loading.{LoadsFile, LoadsHest, LoadsInjection, LoadsTables, LoadsScript, ReadsHest, ReadsEinj, ReadsScript, load_refusal};
ghost use Rattle.ghes_replay.specs.Seen.{limit_for};
ghost use Rattle.ghes_replay.specs.Views.{bytes_of};
ghost use Rattle.ghes_setup.specs.Machine.{setup_for};

use crate::{InputFile, Refusal};
use apei_einj::{Einj, EinjError};
use apei_hest::{Hest, HestError};
use cper_block::LARGEST_BLOCK;
use ghes_outside::{Files, LoadError};
use ghes_script::{Script, ScriptError};
use ghes_setup::read_script;
use std::alloc::Global;

// How many bytes a file may have.
fn limit_for(file: InputFile) -> usize
    ensures { result ≡ limit_for file }
{
    match file {
        InputFile::Hest | InputFile::Einj => 1048576,
        InputFile::Script => 16777216,
        InputFile::Block => LARGEST_BLOCK as usize,
    }
}

// The table that the bytes are.
fn read_hest(alloc: Global, bytes: &[u8]) -> Result<Hest, Refusal>
    ensures { ReadsHest bytes.now result }
{
    match Hest::read(alloc, bytes) {
        Ok(hest) => Ok(hest),
        Err(HestError::OutOfMemory) => Err(Refusal::OutOfMemory),
        Err(error) => Err(Refusal::Hest(error)),
    }
}

// The injection table that the bytes are, which a word names.
fn read_einj(alloc: Global, bytes: &[u8]) -> Result<Option<Einj>, Refusal>
    ensures { ReadsEinj bytes.now result }
{
    match Einj::read(alloc, bytes) {
        Ok(einj) => Ok(Some(einj)),
        Err(EinjError::OutOfMemory) => Err(Refusal::OutOfMemory),
        Err(error) => Err(Refusal::Einj(error)),
    }
}

// The script that the bytes are, of the sources of a table, with an injection table or without one.
fn read_lines(alloc: Global, hest: &Hest, injection: bool, bytes: &[u8]) -> Result<Script, Refusal>
    requires { length bytes.now < 2 ^ 32 }
    ensures { ReadsScript (setup_for (enabled hest.now) injection) bytes.now result }
{
    match read_script(alloc, hest, injection, bytes) {
        Ok(script) => Ok(script),
        Err(ScriptError::Line { line, kind }) => Err(Refusal::Script { line, kind }),
        Err(ScriptError::OutOfMemory) => Err(Refusal::OutOfMemory),
    }
}

// The refusal for a file that was not loaded.
fn load_refusal(file: InputFile, why: LoadError) -> Refusal
    ensures { result ≡ load_refusal file why }
{
    match why {
        LoadError::OutOfMemory => Refusal::OutOfMemory,
        _ => Refusal::Load(file, why),
    }
}

/// Loads a file.
pub(crate) fn load_file<F: Files>(
    alloc: Global,
    files: &mut F,
    file: InputFile,
    name: &str,
) -> Result<Vec<u8>, Refusal>
    ensures { LoadsFile (F.seen files.old) (F.seen files.new) file name.now (bytes_of result) }
{
    let mut bytes = Vec::new(alloc);
    match files.load(name, &mut bytes, limit_for(file)) {
        Ok(()) => Ok(bytes),
        Err(why) => Err(load_refusal(file, why)),
    }
}

/// Loads a table and reads its sources.
pub(crate) fn load_hest<F: Files>(alloc: Global, files: &mut F, name: &str) -> Result<Hest, Refusal>
    ensures { LoadsHest (F.seen files.old) (F.seen files.new) name.now result }
{
    match load_file(alloc, files, InputFile::Hest, name) {
        Ok(bytes) => read_hest(alloc, &bytes),
        Err(refusal) => Err(refusal),
    }
}

/// Loads the injection table that a word names, and reads its entries; `-` stands for none, and no file is read.
pub(crate) fn load_injection<F: Files>(
    alloc: Global,
    files: &mut F,
    name: &str,
) -> Result<Option<Einj>, Refusal>
    ensures { LoadsInjection (F.seen files.old) (F.seen files.new) name.now result }
{
    if name == "-" {
        return Ok(None);
    }
    match load_file(alloc, files, InputFile::Einj, name) {
        Ok(bytes) => read_einj(alloc, &bytes),
        Err(refusal) => Err(refusal),
    }
}

/// Loads a table and reads its sources, and then loads the injection table that a word names, and reads its entries.
pub(crate) fn load_tables<F: Files>(
    alloc: Global,
    files: &mut F,
    hest: &str,
    einj: &str,
) -> Result<(Hest, Option<Einj>), Refusal>
    ensures { LoadsTables (F.seen files.old) (F.seen files.new) hest.now einj.now result }
{
    let found = match load_hest(alloc, files, hest) {
        Ok(found) => found,
        Err(refusal) => return Err(refusal),
    };
    match load_injection(alloc, files, einj) {
        Ok(injection) => Ok((found, injection)),
        Err(refusal) => Err(refusal),
    }
}

/// Loads the script and reads it, for the sources of a table, with an injection table or without one.
pub(crate) fn load_script<F: Files>(
    alloc: Global,
    files: &mut F,
    name: &str,
    hest: &Hest,
    injection: bool,
) -> Result<Script, Refusal>
    ensures { LoadsScript (F.seen files.old) (F.seen files.new) name.now (setup_for (enabled hest.now) injection) result }
{
    match load_file(alloc, files, InputFile::Script, name) {
        Ok(bytes) => read_lines(alloc, hest, injection, &bytes),
        Err(refusal) => Err(refusal),
    }
}
