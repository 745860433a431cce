//! The program at its edge: the words as the system gives them, and the status at which it exits.
ghost use Rattle.std.specs.Prelude.{◌≡◌, ◌≢◌, ◌∷◌, [], IfOk, IfErr, drop, map};
ghost use Rattle.std.specs.Vec.Iter.{into_iter_items};
ghost use Rattle.std.specs.IoError.{error_kind};
ghost use Rattle.std.specs.Process.{exit_status};
ghost use Rattle.std.specs.String.{string_bytes};
ghost use Rattle.ghes_replay.specs.declared.exit.Refusal.TheVariants as refusals;
ghost use Rattle.ghes_replay.specs.Program.{ExitsBefore, ExitsBy, GivesArguments, GivesItems};
ghost use Rattle.ghes_replay.specs.Seen.{outside};

use crate::Refusal;
use crate::run::{ghes_run, refuse};
use ghes_notify::Handler;
use ghes_outside::{Files, Sink};
use std::alloc::Global;
use std::env::Args;
use std::io;
use std::io::ErrorKind;
use std::process::ExitCode;

// All arguments that are still to come.
fn collected(alloc: Global, args: Args) -> Result<Vec<String>, Refusal>
    ensures { GivesItems args result }
{
    match args.collect(alloc) {
        Ok(all) => Ok(all),
        Err(_) => Err(Refusal::OutOfMemory),
    }
}

// The arguments, or why there are none: those that are no text are no form of the command line.
fn arguments(alloc: Global, args: io::Result<Args>) -> Result<Vec<String>, Refusal>
    ensures { GivesArguments args result }
{
    match args {
        Ok(args) => collected(alloc, args),
        Err(error) if error.kind() == ErrorKind::OutOfMemory => Err(Refusal::OutOfMemory),
        Err(_) => Err(Refusal::Usage),
    }
}

// The words behind the program's name.
fn behind_name(all: &[String]) -> &[String]
    ensures { result.now ≡ drop 1 all.now }
{
    if all.is_empty() { all } else { &all[1..] }
}

// A list of one handler.
fn alone<H: Handler>(alloc: Global, handler: H) -> Result<Vec<H>, Refusal>
    ensures ok { IfOk result (λ handlers. handlers.items ≡ handler ∷ []) }
    ensures err { IfErr result (λ refusal. refusal ≡ refusals.OutOfMemory) }
{
    let mut handlers = Vec::new(alloc);
    match handlers.push(handler) {
        Ok(()) => Ok(handlers),
        Err(_) => Err(Refusal::OutOfMemory),
    }
}

// The status of a run on words with a handler, for which there may be no memory.
fn run_words<F: Files, K: Sink, H: Handler>(
    alloc: Global,
    words: &[String],
    handler: H,
    files: &mut F,
    out: &mut K,
) -> u8
    ensures { ExitsBy H.stands H.answers H.closing_text (map string_bytes words.now)
        (outside (F.seen files.old) (K.seen out.old))
        (outside (F.seen files.new) (K.seen out.new)) handler result }
{
    match alone(alloc, handler) {
        Ok(handlers) => ghes_run(alloc, words, files, out, handlers).status,
        Err(refusal) => refuse(alloc, out, "", refusal).status,
    }
}

// Runs the program on its arguments, or is refused for want of them.
fn run_arguments<F: Files, K: Sink, H: Handler>(
    alloc: Global,
    all: Result<Vec<String>, Refusal>,
    handler: H,
    files: &mut F,
    out: &mut K,
) -> u8
    ensures ok { IfOk all (λ a. ExitsBy H.stands H.answers H.closing_text
        (map string_bytes (drop 1 a.items))
        (outside (F.seen files.old) (K.seen out.old))
        (outside (F.seen files.new) (K.seen out.new)) handler result) }
    ensures err { IfErr all (λ refusal. ExitsBefore refusal
        (outside (F.seen files.old) (K.seen out.old))
        (outside (F.seen files.new) (K.seen out.new)) result) }
{
    match all {
        Ok(all) => run_words(alloc, behind_name(&all), handler, files, out),
        Err(refusal) => refuse(alloc, out, "", refusal).status,
    }
}

/// Runs the program on the arguments as the system gives them, of which the first is its own name, with this handler.
///
/// Arguments that are no text are refused as a command line that is none of the forms. Source: own choice.
pub fn ghes_main<F: Files, K: Sink, H: Handler>(
    alloc: Global,
    args: io::Result<Args>,
    handler: H,
    files: &mut F,
    out: &mut K,
) -> ExitCode
    // The run is that of `ghes_run` on the words behind the name with this handler, and it exits with the status of that
    // run, or memory is wanting for the words or for the list of handlers.
    ensures words { IfOk args (λ all. ExitsBy H.stands H.answers H.closing_text
        (map string_bytes (drop 1 (into_iter_items all)))
        (outside (F.seen files.old) (K.seen out.old))
        (outside (F.seen files.new) (K.seen out.new)) handler (exit_status result)) }
    ensures unread { IfErr args
        (λ error. error_kind error ≢ ErrorKind.OutOfMemory → ExitsBefore refusals.Usage
        (outside (F.seen files.old) (K.seen out.old))
        (outside (F.seen files.new) (K.seen out.new)) (exit_status result)) }
    ensures no_memory { IfErr args
        (λ error. error_kind error ≡ ErrorKind.OutOfMemory → ExitsBefore refusals.OutOfMemory
        (outside (F.seen files.old) (K.seen out.old))
        (outside (F.seen files.new) (K.seen out.new)) (exit_status result)) }
{
    let all = arguments(alloc, args);
    ExitCode::from(run_arguments(alloc, all, handler, files, out))
}
