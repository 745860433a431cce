//! Why a script is refused.
use std::alloc::{AllocError, AllocFailed};
use std::fmt;

/// What is wrong with a bad line, numbered from 1 on.
///
/// Own choice: "The kinds of a bad line" in docs/DECISIONS.md.
#[derive(Clone, Copy, Debug, PartialEq, Eq)]
pub enum ScriptKind {
    /// The first word names no setting and no command.
    Command,
    /// The number of words, or a word that is fixed, is wrong.
    Words,
    /// A word is no number.
    Number,
    /// A word is no hexadecimal block.
    Hex,
    /// A number, a class or a block is out of its range.
    Range,
    /// A setting behind a command, the contexts behind a source that is served, or a clock that falls.
    Order,
    /// A byte that may not stand in a script.
    Unprintable,
    /// More than 132,000 bytes.
    TooLong,
    /// No source has this id, or it has no read ack register where one is needed.
    Source,
    /// An injection, where there is no injection table.
    NoInjection,
}

impl fmt::Display for ScriptKind {
    ghost use Rattle.std.specs.Prelude.{Some};
    ghost use Rattle.ghes_script.specs.Text.{kind_text};

    ghost output = { λ kind. Some (kind_text kind) };

    fn fmt<W: fmt::Write>(&self, f: &mut fmt::Formatter<W>) -> fmt::Result {
        match self {
            ScriptKind::Command => f.write_str("1 command"),
            ScriptKind::Words => f.write_str("2 words"),
            ScriptKind::Number => f.write_str("3 number"),
            ScriptKind::Hex => f.write_str("4 hex"),
            ScriptKind::Range => f.write_str("5 range"),
            ScriptKind::Order => f.write_str("6 order"),
            ScriptKind::Unprintable => f.write_str("7 unprintable"),
            ScriptKind::TooLong => f.write_str("8 too long"),
            ScriptKind::Source => f.write_str("9 source"),
            ScriptKind::NoInjection => f.write_str("10 no injection"),
        }
    }
}

/// Why a script is refused.
#[derive(Clone, Copy, Debug, PartialEq, Eq)]
pub enum ScriptError {
    /// The first bad line: its number, from 1 on, and the first kind that holds of it.
    Line { line: u32, kind: ScriptKind },
    OutOfMemory,
}

impl From<AllocError> for ScriptError {
    ghost use Rattle.std.specs.Prelude.{◌≡◌};
    ghost use Rattle.ghes_script.specs.declared.error.ScriptError.TheVariants.{OutOfMemory};

    ghost from_gives = { λ _ e. e ≡ OutOfMemory };

    fn from(_: AllocError) -> ScriptError {
        ScriptError::OutOfMemory
    }
}

impl<T: Drop> From<AllocFailed<T>> for ScriptError {
    ghost use Rattle.std.specs.Prelude.{◌≡◌};
    ghost use Rattle.ghes_script.specs.declared.error.ScriptError.TheVariants.{OutOfMemory};

    ghost from_gives = { λ _ e. e ≡ OutOfMemory };

    fn from(_: AllocFailed<T>) -> ScriptError {
        ScriptError::OutOfMemory
    }
}
