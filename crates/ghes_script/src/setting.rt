//! The settings of a script, one function for each form.
ghost use Rattle.std.specs.Prelude.{◌≡◌};
ghost use Rattle.ghes_script.specs.Asked.{slots, contexts, serve, ackcell, available, busy, status, route};
ghost use Rattle.ghes_script.specs.Words.{words_of};

use crate::name::class_of;
use crate::number::{number, number_below, number_within};
use crate::setup::Setup;
use crate::words::{one, two};
use crate::{ScriptKind, What};

/// `slots N`
#[tactic(auto, unfolding(crate::specs::Asked::slots))]
pub(crate) fn slots(args: &[u8]) -> Result<What, ScriptKind>
    ensures { result ≡ slots (words_of args.now) }
{
    let word = one(args)?;
    let n = number_within(1, 64, word)?;
    Ok(What::Slots(n as u8))
}

/// `contexts N`
#[tactic(auto, unfolding(crate::specs::Asked::contexts))]
pub(crate) fn contexts(args: &[u8]) -> Result<What, ScriptKind>
    ensures { result ≡ contexts (words_of args.now) }
{
    let word = one(args)?;
    let n = number_within(1, 16, word)?;
    Ok(What::Contexts(n as u8))
}

/// `serve SOURCE CONTEXT`, where there are so many contexts.
#[tactic(auto, unfolding(crate::specs::Asked::serve))]
pub(crate) fn serve(setup: &Setup<'_>, count: u8, args: &[u8]) -> Result<What, ScriptKind>
    ensures { result ≡ serve setup.now count (words_of args.now) }
{
    let (source, context) = two(args)?;
    let source = setup.source(source)?;
    let context = number_below(u64::from(count), context)?;
    Ok(What::Serve(source, context as u16))
}

/// `ackcell SOURCE VALUE`
#[tactic(auto, unfolding(crate::specs::Asked::ackcell))]
pub(crate) fn ackcell(setup: &Setup<'_>, args: &[u8]) -> Result<What, ScriptKind>
    ensures { result ≡ ackcell setup.now (words_of args.now) }
{
    let (source, value) = two(args)?;
    let source = setup.acked_source(source)?;
    let value = number(value)?;
    Ok(What::AckCell(source, value))
}

/// `available VALUE`
#[tactic(auto, unfolding(crate::specs::Asked::available))]
pub(crate) fn available(args: &[u8]) -> Result<What, ScriptKind>
    ensures { result ≡ available (words_of args.now) }
{
    let word = one(args)?;
    let value = number_below(1 << 32, word)?;
    Ok(What::Available(value as u32))
}

/// `busy N`
#[tactic(auto, unfolding(crate::specs::Asked::busy))]
pub(crate) fn busy(args: &[u8]) -> Result<What, ScriptKind>
    ensures { result ≡ busy (words_of args.now) }
{
    let word = one(args)?;
    let n = number_within(0, 2000, word)?;
    Ok(What::Busy(n as u32))
}

/// `status N`
#[tactic(auto, unfolding(crate::specs::Asked::status))]
pub(crate) fn status(args: &[u8]) -> Result<What, ScriptKind>
    ensures { result ≡ status (words_of args.now) }
{
    let word = one(args)?;
    let n = number_within(0, 255, word)?;
    Ok(What::Status(n as u8))
}

/// `route CLASS SOURCE`
#[tactic(auto, unfolding(crate::specs::Asked::route))]
pub(crate) fn route(setup: &Setup<'_>, args: &[u8]) -> Result<What, ScriptKind>
    ensures { result ≡ route setup.now (words_of args.now) }
{
    let (name, source) = two(args)?;
    let Some(class) = class_of(name) else {
        return Err(ScriptKind::Range);
    };
    let source = setup.source(source)?;
    Ok(What::Route(class, source))
}
