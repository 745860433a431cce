//! The handlers of a run: behind a replay they are told of what stands in its ledger, and close its text.
ghost use Rattle.std.specs.Prelude.{◌≡◌, ◌≤◌, ◌++◌, vec_len, OnOk, IfErr};
ghost use Rattle.ghes_handlers.specs.Closing.{closing_texts};
ghost use Rattle.ghes_handlers.specs.Deliveries.{deliveries_of};
ghost use Rattle.ghes_replay.specs.Hearing.{Closes, Hears, IsTelling};
ghost use Rattle.ghes_replay.specs.Views.{done_of, output_of};
ghost use Rattle.ghes_replay.specs.declared.exit.Refusal.TheVariants.{HandlerMemory};

use crate::Refusal;
use crate::done::Done;
use ghes_handlers::{closings, tell_all, with_handlers};
use ghes_ledger::{Ledger, Taken};
use ghes_notify::Handler;
use std::alloc::{AllocError, Global};

/// What a task answers behind its handlers, and those.
#[derive(Drop)]
pub(crate) struct Heard<H> {
    pub answer: Result<Done, Refusal>,
    pub handlers: Vec<H>,
}

// How telling handlers ended, and those.
#[derive(Drop)]
struct Telling<H> {
    result: Result<(), Refusal>,
    handlers: Vec<H>,
}

// Tells handlers of the deliveries among taken blocks.
fn tell_taken<H: Handler>(alloc: Global, taken: &[Taken], handlers: Vec<H>) -> Telling<H>
    requires few { vec_len handlers ≤ 32 }
    ensures { IsTelling H.stands H.answers (deliveries_of taken.now)
        handlers.items result.handlers.items result.result }
{
    let mut chain = match with_handlers(alloc, handlers) {
        Ok(chain) => chain,
        Err(back) => {
            return Telling {
                result: Err(Refusal::OutOfMemory),
                handlers: back.handlers,
            };
        }
    };
    match tell_all(&mut chain, taken) {
        Ok(()) => Telling {
            result: Ok(()),
            handlers: chain.into_handlers(),
        },
        Err(_) => Telling {
            result: Err(Refusal::HandlerMemory),
            handlers: chain.into_handlers(),
        },
    }
}

// Appends the closing texts of handlers.
fn close<H: Handler>(handlers: &[H], text: &mut Vec<u8>) -> Result<(), Refusal>
    ensures ok { OnOk result (text.new.items ≡ text.old.items
        ++ closing_texts H.closing_text handlers.now) }
    ensures err { IfErr result (λ refusal. refusal ≡ HandlerMemory) }
{
    match closings(handlers, text) {
        Ok(()) => Ok(()),
        Err(AllocError) => Err(Refusal::HandlerMemory),
    }
}

// Tells handlers of what stands in a ledger, and appends their closing texts to its text.
fn tell_ledger<H: Handler>(
    alloc: Global,
    ledger: &Ledger,
    text: &mut Vec<u8>,
    handlers: Vec<H>,
) -> Telling<H>
    requires few { vec_len handlers ≤ 32 }
    ensures { Closes H.stands H.answers H.closing_text ledger.now text.old.items text.new.items
        handlers.items result.handlers.items result.result }
{
    let told = tell_taken(alloc, ledger.taken(), handlers);
    match told.result {
        Ok(()) => {
            let result = close(&told.handlers, text);
            Telling {
                result,
                handlers: told.handlers,
            }
        }
        Err(refusal) => Telling {
            result: Err(refusal),
            handlers: told.handlers,
        },
    }
}

// What a replay answers behind its handlers, by its ledger and its text.
fn hear_replay<H: Handler>(
    alloc: Global,
    ledger: Ledger,
    text: Vec<u8>,
    handlers: Vec<H>,
) -> Heard<H>
    requires few { vec_len handlers ≤ 32 }
    ensures { Hears H.stands H.answers H.closing_text (output_of (Some ledger) text)
        handlers.items result.handlers.items (done_of result.answer) }
{
    let mut whole = text;
    let told = tell_ledger(alloc, &ledger, &mut whole, handlers);
    match told.result {
        Ok(()) => Heard {
            answer: Ok(Done {
                ledger: Some(ledger),
                text: whole,
            }),
            handlers: told.handlers,
        },
        Err(refusal) => Heard {
            answer: Err(refusal),
            handlers: told.handlers,
        },
    }
}

/// What was done, behind the handlers: those of a replay are told of the deliveries in its ledger, and their closing texts
/// stand behind its text. Nothing else is told of.
pub(crate) fn hear<H: Handler>(alloc: Global, done: Done, handlers: Vec<H>) -> Heard<H>
    requires few { vec_len handlers ≤ 32 }
    ensures { Hears H.stands H.answers H.closing_text (output_of done.ledger done.text)
        handlers.items result.handlers.items (done_of result.answer) }
{
    let Done { ledger, text } = done;
    match ledger {
        Some(ledger) => hear_replay(alloc, ledger, text, handlers),
        None => Heard {
            answer: Ok(Done { ledger: None, text }),
            handlers,
        },
    }
}
