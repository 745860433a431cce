//! What the lines of a script print.
ghost use Rattle.std.specs.Prelude.{◌≡◌};
ghost use Rattle.ghes_report.specs.Prints.{prints_of, prints_next, prints_at};

use ghes_ledger::Mark;
use ghes_script::{Line, What};

/// What a line of a script prints, beside the panic report.
#[derive(Clone, Copy, Debug)]
pub(crate) enum Prints {
    /// Nothing: a setting, `clock`, `raise` and `fail`.
    Nothing,
    /// Its calls: `nmi`.
    Calls,
    /// The blocks that were taken: `work`, and the end of a script.
    Taken,
    /// So many turns, and by source its calls and its taken blocks: `run`.
    Turns(u16),
    /// How an injection of this error type ended: `inject`.
    Injection(u32),
    /// The read ack cell of the source at this position: `peek`.
    Cell(usize),
}

// What a line prints.
fn prints_of(what: &What) -> Prints
    ensures { result ≡ prints_of what.now }
{
    match what {
        What::Inject(request) => Prints::Injection(request.error),
        What::Nmi(_) => Prints::Calls,
        What::Work => Prints::Taken,
        What::Run(turns) => Prints::Turns(*turns),
        What::Peek(source) => Prints::Cell(*source),
        _ => Prints::Nothing,
    }
}

// What the next line prints, or the end of a script.
fn prints_next(lines: &[Line]) -> Prints
    ensures { result ≡ prints_next lines.now }
{
    match lines.split_first() {
        Some((line, _behind)) => prints_of(&line.what),
        None => Prints::Taken,
    }
}

/// What is printed at a mark, where these lines are left.
pub(crate) fn prints_at(mark: Mark, lines: &[Line]) -> Prints
    ensures { result ≡ prints_at mark lines.now }
{
    if mark.line == 0 {
        return Prints::Taken;
    }
    prints_next(lines)
}
