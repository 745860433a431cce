//! The top calls: what words or names ask for is done, and its text, or the line of its refusal, is put.
ghost use Rattle.std.specs.Prelude.{◌≡◌, ◌<◌, ◌≤◌, ◌⊎◌, ◌∷◌, [], IsTrue, None, codes, length, map, vec_len};
ghost use Rattle.std.specs.String.{string_bytes};
ghost use Rattle.ghes_outside.specs.Outside.{Rose};
ghost use Rattle.ghes_replay.specs.Done.{Does, done_status};
ghost use Rattle.ghes_replay.specs.Hearing.{Untold};
ghost use Rattle.ghes_replay.specs.Run.{AreToldOf, AskNothing, EndsBy, EndsTaskWith, EndsWith, IsUnlessFault, PutsAnswer, PutsText, PutsWith, RefusedBy, bare_end, closing_behind, end_of, is_check_status, is_decode_status, is_status, is_untold_status};
ghost use Rattle.ghes_replay.specs.Seen.{Loads, NoneFailed, outside};
ghost use Rattle.ghes_replay.specs.Task.{IsFileOf, IsFileWord, task_seen};
ghost use Rattle.ghes_replay.specs.Told.{IsAccepted, HasBadTable, HasBadMachine, HasBadScript};
ghost use Rattle.ghes_replay.specs.Views.{done_of, output_of};

use crate::check::check;
use crate::decode::decode;
use crate::done::{Done, done_status};
use crate::exit::{MEMORY_LINE, Refusal};
use crate::hearing::hear;
use crate::putting::{End, end_with};
use crate::replay::replay;
use crate::task::{Task, task_of};
use ghes_handlers::SeverityCounter;
use ghes_ledger::Ledger;
use ghes_notify::Handler;
use ghes_outside::{Files, Sink};
use std::alloc::Global;

/// How a run ended.
#[derive(Drop)]
pub struct RunEnd<H = Box<dyn Handler + Send>> {
    /// The status of the program.
    pub status: u8,
    /// The ledger of a replay that was not refused.
    pub ledger: Option<Ledger>,
    /// The handlers that were handed in, in the same order.
    pub handlers: Vec<H>,
}

// Does a task.
fn answer<F: Files>(alloc: Global, task: Task<'_>, files: &mut F) -> Result<Done, Refusal>
    ensures { Does (F.seen files.old) (F.seen files.new) (task_seen task.entry) (done_of result) }
{
    match task {
        Task::Replay { hest, einj, script } => replay(alloc, files, hest, einj, script),
        Task::Check { hest, einj } => check(alloc, files, hest, einj),
        Task::Decode { block } => decode(alloc, files, block),
    }
}

/// Puts the line of a refusal, where `name` is the name of the file that it is about.
pub(crate) fn refuse<K: Sink>(alloc: Global, out: &mut K, name: &str, refusal: Refusal) -> End
    ensures { RefusedBy (K.seen out.old) (K.seen out.new) name.now refusal result }
{
    match refusal.line(alloc, name) {
        Ok(line) => end_with(out, line.as_bytes(), refusal.status(), None),
        Err(_) => end_with(out, MEMORY_LINE, 7, None),
    }
}

// An end, with the handlers.
fn with<H>(end: End, handlers: Vec<H>) -> RunEnd<H>
    ensures end { end_of result ≡ end }
    ensures handlers { result.handlers.items ≡ handlers.items }
{
    RunEnd {
        status: end.status,
        ledger: end.ledger,
        handlers,
    }
}

// Puts the text of what was done, or the line of a refusal that is about no file.
fn put_answer<K: Sink>(alloc: Global, answer: Result<Done, Refusal>, out: &mut K) -> End
    ensures { PutsAnswer (K.seen out.old) (K.seen out.new) (done_of answer) result }
{
    match answer {
        Ok(Done { ledger, text }) => end_with(out, &text, done_status(&ledger), ledger),
        Err(refusal) => refuse(alloc, out, "", refusal),
    }
}

// Lets the handlers hear what was done, and puts its text with their closing texts, or the line for want of memory.
fn put_heard<K: Sink, H: Handler>(
    alloc: Global,
    done: Done,
    out: &mut K,
    handlers: Vec<H>,
) -> RunEnd<H>
    requires few { vec_len handlers ≤ 32 }
    ensures { PutsWith H.stands H.answers H.closing_text (K.seen out.old) (K.seen out.new)
        (output_of done.ledger done.text) handlers.items result }
{
    let heard = hear(alloc, done, handlers);
    with(put_answer(alloc, heard.answer, out), heard.handlers)
}

// Does a task, and puts its text with the closing texts of the handlers, or the line of its refusal.
fn run_task<F: Files, K: Sink, H: Handler>(
    alloc: Global,
    task: Task<'_>,
    files: &mut F,
    out: &mut K,
    handlers: Vec<H>,
) -> RunEnd<H>
    requires few { vec_len handlers ≤ 32 }
    ensures ends { EndsTaskWith H.stands H.answers H.closing_text (task_seen task.entry)
        (outside (F.seen files.old) (K.seen out.old))
        (outside (F.seen files.new) (K.seen out.new)) handlers.items result }
    ensures loads { Loads (IsFileOf (task_seen task.entry)) (F.seen files.old) (F.seen files.new) }
{
    match answer(alloc, task, files) {
        Ok(done) => put_heard(alloc, done, out, handlers),
        Err(refusal) => with(
            refuse(alloc, out, task.refused_name(refusal), refusal),
            handlers,
        ),
    }
}

// Does what the words ask for, and puts its text with the closing texts of the handlers, or the line of its refusal.
fn run<F: Files, K: Sink, H: Handler>(
    alloc: Global,
    words: &[String],
    files: &mut F,
    out: &mut K,
    handlers: Vec<H>,
) -> RunEnd<H>
    requires few { vec_len handlers ≤ 32 }
    ensures ends { EndsWith H.stands H.answers H.closing_text (map string_bytes words.now)
        (outside (F.seen files.old) (K.seen out.old))
        (outside (F.seen files.new) (K.seen out.new)) handlers.items result }
    ensures loads { Loads (IsFileWord (map string_bytes words.now))
        (F.seen files.old) (F.seen files.new) }
{
    match task_of(words) {
        Some(task) => run_task(alloc, task, files, out, handlers),
        None => with(refuse(alloc, out, "", Refusal::Usage), handlers),
    }
}

/// Runs the program: does what the words after the program's name ask for, with these files, this output and these handlers,
/// which are at most 32 and come back in their order.
///
/// So far the words are `replay HEST EINJ SCRIPT`, `check HEST EINJ` or `decode BLOCK`, where HEST, EINJ, SCRIPT and BLOCK
/// name files of at most 1 MiB, 1 MiB, 16 MiB and 65,536 bytes, and `-` for EINJ stands for no injection table. The order
/// of the work is: the words, the table, the injection table, the machine of both, the script, its lines, the handlers; the
/// first refusal ends the run. All text is made first, and then put in pieces of at most 4,096 bytes.
///
/// Behind a replay the handlers are told of each delivery of its ledger, in order, by a source's position among the enabled
/// ones, and their closing texts stand behind the summary. All else tells them nothing. Where memory runs out for a handler or
/// for its closing text the run is refused with status 7.
pub fn ghes_run<F: Files, K: Sink, H: Handler>(
    alloc: Global,
    words: &[String],
    files: &mut F,
    out: &mut K,
    handlers: Vec<H>,
) -> RunEnd<H>
    requires few { vec_len handlers ≤ 32 }
    // How it ends: with the text of what was done, which is that of a lawful ledger, of accepted tables or of a judged
    // block, or with the line of a refusal that has its cause. The handlers come back, each standing for its lists followed by
    // what it was told.
    ensures ends { EndsWith H.stands H.answers H.closing_text (map string_bytes words.now)
        (outside (F.seen files.old) (K.seen out.old))
        (outside (F.seen files.new) (K.seen out.new)) handlers.items result }
    // At the statuses 0 and 1 what was asked for is done, and the bytes put are its text, with the closing texts of the
    // handlers behind that of a replay; a replay has a ledger, which is lawful, and status 1 comes exactly where that has a
    // fatal block.
    ensures done { result.status < 2 → (result.status ≡ done_status result.ledger)
        × PutsText (map string_bytes words.now) (outside (F.seen files.old) (K.seen out.old))
        (outside (F.seen files.new) (K.seen out.new)) result.ledger
        (closing_behind H.closing_text result.ledger result.handlers.items) }
    // Then each handler stands for each list that it stood for, followed by the deliveries of the ledger that it was told of.
    ensures told { result.status < 2
        → AreToldOf H.stands H.answers result.ledger handlers.items result.handlers.items }
    // At each end all handlers come back, and at a refusal that is not for want of memory each one is as it was.
    ensures back { length result.handlers.items ≡ length handlers.items }
    ensures untold { IsTrue (is_untold_status result.status)
        → result.handlers.items ≡ handlers.items }
    ensures statuses { IsTrue (is_status result.status) }
    ensures put_failed { result.status ≡ 6 → Rose (K.seen out.old).faults (K.seen out.new).faults }
    // The failed names are words of this run that stand for files, and no contents change.
    ensures loads { Loads (IsFileWord (map string_bytes words.now))
        (F.seen files.old) (F.seen files.new) }
    // Where a load failed, the run is refused for it, unless the output fails or memory runs out.
    ensures failed { (NoneFailed (F.seen files.old) (F.seen files.new) → ⊥)
        → IsUnlessFault result.status 5 }
    // Words that ask for nothing, a refused table or injection table, tables of which there is no machine and a refused
    // script get their status, unless the output fails or memory runs out.
    ensures bad_words { AskNothing (map string_bytes words.now) → IsUnlessFault result.status 2 }
    ensures bad_table { HasBadTable (map string_bytes words.now)
        (F.seen files.old) (F.seen files.new)
        → IsUnlessFault result.status 3 }
    ensures bad_machine { HasBadMachine (map string_bytes words.now)
        (F.seen files.old) (F.seen files.new)
        → IsUnlessFault result.status 8 }
    ensures bad_script { HasBadScript (map string_bytes words.now)
        (F.seen files.old) (F.seen files.new)
        → IsUnlessFault result.status 4 }
    // What is accepted is done, unless memory runs out.
    ensures complete { IsAccepted (map string_bytes words.now)
        (outside (F.seen files.old) (K.seen out.old))
        (outside (F.seen files.new) (K.seen out.new))
        → (result.status ≡ done_status result.ledger) ⊎ (result.status ≡ 7) }
{
    run(alloc, words, files, out, handlers)
}

/// Lists the error sources of the table in the file `hest`, and how many entries the injection table in the file `einj`
/// has, as the program does for the words `check HEST EINJ`, and gives the status.
///
/// Each file has at most 1 MiB. `-` for `einj` stands for no injection table, and only one file is read then. The table is
/// judged first, and the injection table is read only where that is accepted. It neither waits nor starts threads, and it
/// returns.
pub fn check_run<F: Files, K: Sink>(
    alloc: Global,
    hest: &str,
    einj: &str,
    files: &mut F,
    out: &mut K,
) -> u8
    // Each clause is that of `ghes_run` with the words `check HEST EINJ`.
    ensures ends { EndsBy (codes "check" ∷ hest.now ∷ einj.now ∷ [])
        (outside (F.seen files.old) (K.seen out.old))
        (outside (F.seen files.new) (K.seen out.new)) Untold (bare_end result) }
    ensures done { result ≡ 0 → PutsText (codes "check" ∷ hest.now ∷ einj.now ∷ [])
        (outside (F.seen files.old) (K.seen out.old))
        (outside (F.seen files.new) (K.seen out.new)) None [] }
    ensures statuses { IsTrue (is_check_status result) }
    ensures put_failed { result ≡ 6 → Rose (K.seen out.old).faults (K.seen out.new).faults }
    ensures loads { Loads (IsFileWord (codes "check" ∷ hest.now ∷ einj.now ∷ []))
        (F.seen files.old) (F.seen files.new) }
    ensures failed { (NoneFailed (F.seen files.old) (F.seen files.new) → ⊥)
        → IsUnlessFault result 5 }
    ensures bad_table { HasBadTable (codes "check" ∷ hest.now ∷ einj.now ∷ [])
        (F.seen files.old) (F.seen files.new)
        → IsUnlessFault result 3 }
    ensures complete { IsAccepted (codes "check" ∷ hest.now ∷ einj.now ∷ [])
        (outside (F.seen files.old) (K.seen out.old))
        (outside (F.seen files.new) (K.seen out.new)) → (result ≡ 0) ⊎ (result ≡ 7) }
{
    run_task(
        alloc,
        Task::Check { hest, einj },
        files,
        out,
        Vec::<SeverityCounter>::new(alloc),
    )
    .status
}

/// Prints the block at the front of the file `block`, as the program does for the words `decode BLOCK`, and gives the
/// status.
///
/// The file has at most 65,536 bytes, and those behind the block are not read. Bytes that begin with no well-formed
/// block are no refusal: the reason is printed. It neither waits nor starts threads, and it returns.
pub fn decode_run<F: Files, K: Sink>(alloc: Global, block: &str, files: &mut F, out: &mut K) -> u8
    // Each clause is that of `ghes_run` with the words `decode BLOCK`.
    ensures ends { EndsBy (codes "decode" ∷ block.now ∷ [])
        (outside (F.seen files.old) (K.seen out.old))
        (outside (F.seen files.new) (K.seen out.new)) Untold (bare_end result) }
    ensures done { result ≡ 0 → PutsText (codes "decode" ∷ block.now ∷ [])
        (outside (F.seen files.old) (K.seen out.old))
        (outside (F.seen files.new) (K.seen out.new)) None [] }
    ensures statuses { IsTrue (is_decode_status result) }
    ensures put_failed { result ≡ 6 → Rose (K.seen out.old).faults (K.seen out.new).faults }
    ensures loads { Loads (IsFileWord (codes "decode" ∷ block.now ∷ []))
        (F.seen files.old) (F.seen files.new) }
    ensures failed { (NoneFailed (F.seen files.old) (F.seen files.new) → ⊥)
        → IsUnlessFault result 5 }
    ensures complete { IsAccepted (codes "decode" ∷ block.now ∷ [])
        (outside (F.seen files.old) (K.seen out.old))
        (outside (F.seen files.new) (K.seen out.new)) → (result ≡ 0) ⊎ (result ≡ 7) }
{
    run_task(
        alloc,
        Task::Decode { block },
        files,
        out,
        Vec::<SeverityCounter>::new(alloc),
    )
    .status
}
