//! What came of a line of a script, and what is left of a ledger for the lines behind it.
ghost use Rattle.std.specs.Prelude.{◌≡◌, ◌++◌, take, drop, OnOk};
ghost use Rattle.std.specs.List.{AllByRecursion};
ghost use Rattle.ghes_report.specs.Left.{whole, came_of, ends_behind, cells_behind, behind};
ghost use Rattle.ghes_report.specs.Prints.{prints_at};
ghost use Rattle.ghes_report.specs.Script.{printed};
ghost use Rattle.ghes_report.specs.Sound.{IsSoundTaken};

use crate::cell::{cells_text, width_at};
use crate::inject::injections_text;
use crate::lines::{all_taken_text, between, calls_text, id_at};
use crate::prints::{Prints, prints_at};
use crate::turns::turns_text;
use cper_text::Text;
use ghes_call::Call;
use ghes_ledger::{InjectionEnd, Ledger, Mark, Report, Taken};
use ghes_script::Line;
use std::alloc::AllocError;
use std::marker::Model;

/// What came of a line: its calls, the blocks that were taken, the end of an injection, and a cell that was looked at.
#[derive(Debug, Drop)]
pub(crate) struct Came<'a> {
    calls: &'a [Call],
    taken: &'a [Taken],
    ends: &'a [InjectionEnd],
    cells: &'a [u64],
}

impl<'a> Model for Came<'a> {
    ghost use Rattle.ghes_report.specs.Left.{Came};

    ghost Value = { Came };

    ghost view = { λ c. record { calls = c.calls.now; taken = c.taken.now; ends = c.ends.now; cells = c.cells.now } };
}

impl<'a> Came<'a> {
    /// Adds what a line prints of it.
    pub(crate) fn add(
        &self,
        text: &mut Text,
        ids: &[u16],
        widths: &[u8],
        reports: &[Report],
        prints: Prints,
    ) -> Result<(), AllocError>
        requires { AllByRecursion IsSoundTaken self.now.taken }
        ensures ok { OnOk result (text.new.added ≡ text.old.added ++ printed ids.now widths.now reports.now prints self.now) }
        ensures front { text.new.front ≡ text.old.front }
    {
        match prints {
            Prints::Nothing => Ok(()),
            Prints::Calls => calls_text(text, ids, reports, self.calls),
            Prints::Taken => all_taken_text(text, ids, reports, self.taken),
            Prints::Turns(turns) => turns_text(text, ids, reports, turns, self.calls, self.taken),
            Prints::Injection(error) => injections_text(text, ids, error, self.ends),
            Prints::Cell(source) => cells_text(
                text,
                id_at(ids, source),
                width_at(widths, source),
                self.cells,
            ),
        }
    }
}

// The first so many elements of a list, and those behind them.
#[tactic(auto, using(crate::proofs::BetweenLemmas::dropped_min, crate::proofs::BetweenLemmas::taken_min))]
fn cut<T>(xs: &[T], count: usize) -> (&[T], &[T])
    ensures front { result.0.now ≡ take count xs.now }
    ensures back { result.1.now ≡ drop count xs.now }
{
    xs.split_at(count.min(xs.len()))
}

// The ends that are left behind a line.
fn ends_behind(prints: Prints, ends: &[InjectionEnd]) -> &[InjectionEnd]
    ensures { result.now ≡ ends_behind prints ends.now }
{
    match prints {
        Prints::Injection(_) => cut(ends, 1).1,
        _ => ends,
    }
}

// The cells that are left behind a line.
fn cells_behind(prints: Prints, cells: &[u64]) -> &[u64]
    ensures { result.now ≡ cells_behind prints cells.now }
{
    match prints {
        Prints::Cell(_) => cut(cells, 1).1,
        _ => cells,
    }
}

/// What is left behind some lines: the lines, how many calls and taken blocks came before, and the ends and the cells.
#[derive(Debug, Drop)]
pub(crate) struct Left<'a> {
    lines: &'a [Line],
    calls: u64,
    taken: u64,
    ends: &'a [InjectionEnd],
    cells: &'a [u64],
}

impl<'a> Model for Left<'a> {
    ghost use Rattle.ghes_report.specs.Left.{Left};

    ghost Value = { Left };

    ghost view = { λ l. record { lines = l.lines.now; calls = l.calls; taken = l.taken; ends = l.ends.now; cells = l.cells.now } };
}

impl<'a> Left<'a> {
    /// Before the first line.
    pub(crate) fn whole(lines: &'a [Line], ledger: &'a Ledger) -> Left<'a>
        ensures { result ≡ whole lines.now ledger.now }
    {
        Left {
            lines,
            calls: 0,
            taken: 0,
            ends: ledger.injections(),
            cells: ledger.peeks(),
        }
    }

    /// What the line of a mark prints.
    pub(crate) fn prints(&self, mark: Mark) -> Prints
        ensures { result ≡ prints_at mark self.now.lines }
    {
        prints_at(mark, self.lines)
    }

    /// What came of the line of a mark.
    pub(crate) fn came(&self, ledger: &'a Ledger, mark: Mark) -> Came<'a>
        ensures { result ≡ came_of ledger.now self.now mark }
    {
        Came {
            calls: between(ledger.calls(), self.calls, mark.calls),
            taken: between(ledger.taken(), self.taken, mark.taken),
            ends: cut(self.ends, 1).0,
            cells: cut(self.cells, 1).0,
        }
    }

    /// What is left behind the line of a mark.
    pub(crate) fn behind(&self, mark: Mark) -> Left<'a>
        ensures { result ≡ behind self.now mark }
    {
        let prints = prints_at(mark, self.lines);
        Left {
            lines: cut(self.lines, 1).1,
            calls: mark.calls,
            taken: mark.taken,
            ends: ends_behind(prints, self.ends),
            cells: cells_behind(prints, self.cells),
        }
    }
}
