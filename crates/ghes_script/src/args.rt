//! What a line asks for, by its first word and the words behind it.
ghost use Rattle.std.specs.Prelude.{◌≡◌, IfOk};
ghost use Rattle.ghes_script.specs.Asked.{asked_by, asked};
ghost use Rattle.ghes_script.specs.Words.{words_of};

use crate::command::{clock, fail, nmi, peek, raise, run, work};
use crate::inject::inject;
use crate::name::Name;
use crate::setting::{ackcell, available, busy, contexts, route, serve, slots, status};
use crate::setup::Setup;
use crate::sofar::Sofar;
use crate::{ScriptKind, What};
use std::alloc::{AllocError, Global};

// What a line asks for whose first word has this name.
#[tactic(auto, unfolding(crate::specs::Asked::asked_by))]
fn asked_by(
    alloc: Global,
    setup: &Setup<'_>,
    sofar: Sofar,
    name: Name,
    args: &[u8],
) -> Result<Result<What, ScriptKind>, AllocError>
    ensures { IfOk result (λ read. read ≡ asked_by setup.now sofar name (words_of args.now)) }
{
    match name {
        Name::Nmi => Ok(nmi(setup, args)),
        Name::Raise => raise(alloc, setup, args),
        Name::Work => Ok(work(args)),
        Name::Clock => Ok(clock(args)),
        Name::Inject => Ok(inject(setup, args)),
        Name::Run => Ok(run(args)),
        Name::Peek => Ok(peek(setup, args)),
        Name::Fail => Ok(fail(setup, args)),
        Name::Slots => Ok(slots(args)),
        Name::Contexts => Ok(contexts(args)),
        Name::Serve => Ok(serve(setup, sofar.contexts, args)),
        Name::AckCell => Ok(ackcell(setup, args)),
        Name::Available => Ok(available(args)),
        Name::Busy => Ok(busy(args)),
        Name::Status => Ok(status(args)),
        Name::Route => Ok(route(setup, args)),
    }
}

/// What the words of a line ask for, the first of them apart.
#[tactic(auto, unfolding(crate::specs::Asked::asked))]
pub(crate) fn asked(
    alloc: Global,
    setup: &Setup<'_>,
    sofar: Sofar,
    name: &[u8],
    args: &[u8],
) -> Result<Result<What, ScriptKind>, AllocError>
    ensures { IfOk result (λ read. read ≡ asked setup.now sofar name.now (words_of args.now)) }
{
    match Name::of(name) {
        Some(named) => asked_by(alloc, setup, sofar, named, args),
        None => Ok(Err(ScriptKind::Command)),
    }
}
