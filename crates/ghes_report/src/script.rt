//! The text of a replay by its script, made of its ledger behind the run.
ghost use Rattle.std.specs.Prelude.{◌≡◌, ◌++◌, OnOk, OnErr, IfOk};
ghost use Rattle.std.specs.List.{AllByRecursion};
ghost use Rattle.ghes_report.specs.Script.{told_at, told_text, script_text};
ghost use Rattle.ghes_report.specs.Sound.{IsSound, IsSoundTaken};

use crate::left::Left;
use crate::replay::{panic_text, summary_text};
use cper_text::Text;
use ghes_ledger::{Ledger, Mark};
use ghes_script::Line;
use std::alloc::{AllocError, Global};

// Adds the text of the line of a mark.
fn tell_line(
    text: &mut Text,
    ids: &[u16],
    widths: &[u8],
    ledger: &Ledger,
    left: &Left<'_>,
    mark: Mark,
) -> Result<(), AllocError>
    requires { AllByRecursion IsSoundTaken ledger.now.taken }
    ensures ok { OnOk result (text.new.added ≡ text.old.added ++ told_at ids.now widths.now ledger.now left.now mark) }
    ensures front { text.new.front ≡ text.old.front }
{
    let came = left.came(ledger, mark);
    came.add(text, ids, widths, ledger.reports(), left.prints(mark))
}

// Adds the lines of a replay.
fn tell_lines(
    text: &mut Text,
    lines: &[Line],
    ids: &[u16],
    widths: &[u8],
    ledger: &Ledger,
) -> Result<(), AllocError>
    requires { AllByRecursion IsSoundTaken ledger.now.taken }
    ensures ok { OnOk result (text.new.added ≡ text.old.added ++ told_text lines.now ids.now widths.now ledger.now) }
    ensures front { text.new.front ≡ text.old.front }
{
    let mut left = Left::whole(lines, ledger);
    for mark in ledger.marks() {
        tell_line(text, ids, widths, ledger, &left, *mark)?;
        left = left.behind(*mark);
    }
    Ok(())
}

/// Appends the lines of a replay: of each executed line of its script in order, and of the end, what it prints.
///
/// The ledger has a mark for each executed line, settings included, and one with the number 0 for the end. A source is named by its
/// position; its id and the access width of its read ack register, in bits, are the elements of `ids` and `widths` there. What is
/// printed without a reason is a well-formed block. After an error `into` is as it was. Source of the words: own choice.
pub fn told_text(
    alloc: Global,
    into: &mut Vec<u8>,
    lines: &[Line],
    ledger: &Ledger,
    ids: &[u16],
    widths: &[u8],
) -> Result<(), AllocError>
    requires { AllByRecursion IsSoundTaken ledger.now.taken }
    ensures ok { OnOk result (into.new.items ≡ into.old.items ++ told_text lines.now ids.now widths.now ledger.now) }
    ensures err { OnErr result (into.new.items ≡ into.old.items) }
{
    let mut text = Text::open(alloc, into);
    let done = tell_lines(&mut text, lines, ids, widths, ledger);
    text.close(into, done)
}

/// The text of a replay: its lines, the panic report, and the summary. It is a function of the lines of its script, the ledger, and
/// of each source its id, the access width of its read ack register in bits, and how many blocks it raised and had acknowledged.
#[tactic(auto, unfolding(crate::specs::Script::script_text), using(cper_text::proofs::Joining::grouped))]
pub fn script_text(
    alloc: Global,
    lines: &[Line],
    ledger: &Ledger,
    ids: &[u16],
    widths: &[u8],
    raised: &[u32],
    acknowledged: &[u32],
) -> Result<Vec<u8>, AllocError>
    requires { IsSound ledger.now }
    ensures { IfOk result (λ text. text.items ≡ script_text lines.now ids.now widths.now raised.now acknowledged.now ledger.now) }
{
    let summary = ledger.summary(alloc, ids.len())?;
    let mut text = Vec::new(alloc);
    told_text(alloc, &mut text, lines, ledger, ids, widths)?;
    panic_text(alloc, &mut text, ledger, ids)?;
    summary_text(alloc, &mut text, &summary, ids, raised, acknowledged)?;
    Ok(text)
}
