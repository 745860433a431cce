//! The panic report and the summary of a replay, made of its ledger behind the run.
ghost use Rattle.std.specs.Prelude.{◌≡◌, ◌++◌, OnOk, OnErr};
ghost use Rattle.std.specs.List.{AllByRecursion};
ghost use Rattle.ghes_report.specs.Panic.{panic_text};
ghost use Rattle.ghes_report.specs.Sound.{IsSoundEntry};
ghost use Rattle.ghes_report.specs.Summary.{summary_text};

use crate::panic::add_panic;
use crate::summary::add_summary;
use cper_text::Text;
use ghes_ledger::{Ledger, Summary};
use std::alloc::{AllocError, Global};

/// Appends the panic report of a ledger: nothing, where its panic list is empty.
///
/// A source is named by its id, the element of `ids` at its position. What is printed without a reason is a well-formed block.
/// After an error `into` is as it was. Source of the words: own choice.
pub fn panic_text(
    alloc: Global,
    into: &mut Vec<u8>,
    ledger: &Ledger,
    ids: &[u16],
) -> Result<(), AllocError>
    requires { AllByRecursion IsSoundEntry ledger.now.panic }
    ensures ok { OnOk result (into.new.items ≡ into.old.items ++ panic_text ids.now ledger.now.panic) }
    ensures err { OnErr result (into.new.items ≡ into.old.items) }
{
    let mut text = Text::open(alloc, into);
    let done = add_panic(&mut text, ids, ledger.panic());
    text.close(into, done)
}

/// Appends the text of a summary: a line for each source with how many blocks it raised, had acknowledged, and what became of
/// them, and a line for the whole.
///
/// `ids`, `raised` and `acknowledged` have an element for each source of the summary, in order; what is missing is told as 0.
/// After an error `into` is as it was. Source of the words: own choice.
pub fn summary_text(
    alloc: Global,
    into: &mut Vec<u8>,
    summary: &Summary,
    ids: &[u16],
    raised: &[u32],
    acknowledged: &[u32],
) -> Result<(), AllocError>
    ensures ok { OnOk result (into.new.items ≡ into.old.items ++ summary_text ids.now raised.now acknowledged.now summary.now) }
    ensures err { OnErr result (into.new.items ≡ into.old.items) }
{
    let mut text = Text::open(alloc, into);
    let done = add_summary(&mut text, summary, ids, raised, acknowledged);
    text.close(into, done)
}
