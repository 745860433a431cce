//! The line `inject`.
ghost use Rattle.std.specs.Prelude.{◌≡◌, Ok, IfOk, IsTrue};
ghost use Rattle.apei_einj.specs.Request.{is_error_type};
ghost use Rattle.ghes_script.specs.Asked.{place_form, memory_place, processor_place, pcie_place, place_of, table_form, error_of, injection, inject};
ghost use Rattle.ghes_script.specs.Words.{words_of};

use crate::name::is;
use crate::number::{number, number_below};
use crate::setup::Setup;
use crate::words::{next_word, one, two};
use crate::{ScriptKind, What};
use apei_einj::{Place, Request, is_error_type};

// That the words of a place are of a form that there is.
#[tactic(auto, unfolding(crate::specs::Asked::place_form))]
fn place_form(args: &[u8]) -> Result<(), ScriptKind>
    ensures { result ≡ place_form (words_of args.now) }
{
    let Some((name, args)) = next_word(args) else {
        return Ok(());
    };
    if is(name, b"memory") {
        two(args)?;
        return Ok(());
    }
    if is(name, b"processor") || is(name, b"pcie") {
        one(args)?;
        return Ok(());
    }
    Err(ScriptKind::Words)
}

// `memory ADDRESS MASK`
#[tactic(auto, unfolding(crate::specs::Asked::memory_place))]
fn memory_place(args: &[u8]) -> Result<Place, ScriptKind>
    ensures { result ≡ memory_place (words_of args.now) }
{
    let (address, mask) = two(args)?;
    let address = number(address)?;
    let mask = number(mask)?;
    Ok(Place::Memory { address, mask })
}

// `processor ID`
#[tactic(auto, unfolding(crate::specs::Asked::processor_place))]
fn processor_place(args: &[u8]) -> Result<Place, ScriptKind>
    ensures { result ≡ processor_place (words_of args.now) }
{
    let word = one(args)?;
    let id = number_below(1 << 32, word)?;
    Ok(Place::Processor(id as u32))
}

// `pcie WORD`
#[tactic(auto, unfolding(crate::specs::Asked::pcie_place))]
fn pcie_place(args: &[u8]) -> Result<Place, ScriptKind>
    ensures { result ≡ pcie_place (words_of args.now) }
{
    let word = one(args)?;
    let function = number_below(1 << 32, word)?;
    Ok(Place::Pcie(function as u32))
}

// The place that the words name.
#[tactic(auto, unfolding(crate::specs::Asked::place_of))]
fn place_of(args: &[u8]) -> Result<Place, ScriptKind>
    ensures { result ≡ place_of (words_of args.now) }
{
    let Some((name, args)) = next_word(args) else {
        return Ok(Place::Nowhere);
    };
    if is(name, b"memory") {
        return memory_place(args);
    }
    if is(name, b"processor") {
        return processor_place(args);
    }
    if is(name, b"pcie") {
        return pcie_place(args);
    }
    Err(ScriptKind::Words)
}

// The error type that a word names.
#[tactic(auto, unfolding(crate::specs::Asked::error_of))]
fn error_of(setup: &Setup<'_>, word: &[u8]) -> Result<u32, ScriptKind>
    ensures value { result ≡ error_of setup.now word.now }
    ensures fits { IfOk result (λ error. IsTrue (is_error_type error)) }
{
    let error = number(word)?;
    if setup.is_empty() {
        return Err(ScriptKind::Source);
    }
    if error > 0x800 || !is_error_type(error as u32) {
        return Err(ScriptKind::Range);
    }
    Ok(error as u32)
}

// That there is an injection table.
fn table_form(setup: &Setup<'_>) -> Result<(), ScriptKind>
    ensures { result ≡ table_form setup.now }
{
    if setup.has_injection() {
        Ok(())
    } else {
        Err(ScriptKind::NoInjection)
    }
}

// An injection of an error type at a place.
fn injection(error: u32, place: Place) -> What
    requires { IsTrue (is_error_type error) }
    ensures { injection error place ≡ Ok result }
{
    What::Inject(Request { error, place })
}

/// `inject TYPE`, and the place, if there is one.
#[tactic(auto, unfolding(crate::specs::Asked::inject))]
pub(crate) fn inject(setup: &Setup<'_>, args: &[u8]) -> Result<What, ScriptKind>
    ensures { result ≡ inject setup.now (words_of args.now) }
{
    let Some((word, rest)) = next_word(args) else {
        return Err(ScriptKind::Words);
    };
    place_form(rest)?;
    table_form(setup)?;
    let error = error_of(setup, word)?;
    let place = place_of(rest)?;
    Ok(injection(error, place))
}
