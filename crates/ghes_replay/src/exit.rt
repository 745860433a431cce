//! The files of a run and its refusals, each with its status and its line.
ghost use Rattle.std.specs.Prelude.{◌≡◌, IfOk};
ghost use Rattle.std.specs.String.{string_bytes};
ghost use Rattle.ghes_replay.specs.Refusal.{status_of, line_of};

use apei_einj::EinjError;
use apei_hest::HestError;
use fw_map::FwError;
use ghes_outside::LoadError;
use ghes_script::ScriptKind;
use std::alloc::{AllocError, Global};

/// The files that a run reads.
#[derive(Clone, Copy, Debug, PartialEq, Eq)]
pub enum InputFile {
    Hest,
    Einj,
    Script,
    Block,
}

/// Why a run is refused.
#[derive(Clone, Copy, Debug, PartialEq, Eq)]
pub enum Refusal {
    /// The words are no form of the command line. Status 2.
    Usage,
    /// A file failed, or is longer than its limit. Status 5.
    Load(InputFile, LoadError),
    /// The table is refused. Status 3.
    Hest(HestError),
    /// The injection table is refused, behind an accepted table. Status 3.
    Einj(EinjError),
    /// There is no machine of the tables, behind both. Status 8.
    Platform(FwError),
    /// This is the script's first bad line, and its kind. Status 4.
    Script { line: u32, kind: ScriptKind },
    /// The line of this number makes one block more than a machine may have. Status 8.
    Full { line: u32 },
    /// Status 7.
    OutOfMemory,
    /// Memory ran out for a handler: it answered so, or its closing text found none, behind a replay. Status 7.
    HandlerMemory,
}

impl From<AllocError> for Refusal {
    ghost use Rattle.ghes_replay.specs.declared.exit.Refusal.TheVariants.{OutOfMemory};

    ghost from_gives = { λ _ e. e ≡ OutOfMemory };

    fn from(_: AllocError) -> Refusal {
        Refusal::OutOfMemory
    }
}

/// The line for want of memory, which takes none.
pub(crate) const MEMORY_LINE: &[u8] = b"ghes: out of memory\n";

impl Refusal {
    /// The status that the program ends with.
    pub fn status(self) -> u8
        ensures { result ≡ status_of self }
    {
        match self {
            Refusal::Usage => 2,
            Refusal::Hest(_) | Refusal::Einj(_) => 3,
            Refusal::Script { .. } => 4,
            Refusal::Load(_, _) => 5,
            Refusal::OutOfMemory | Refusal::HandlerMemory => 7,
            Refusal::Platform(_) | Refusal::Full { .. } => 8,
        }
    }

    /// The line that is put, where `name` is the name of the file that the refusal is about.
    pub fn line(self, alloc: Global, name: &str) -> Result<String, AllocError>
        ensures { IfOk result (λ line. string_bytes line ≡ line_of name.now self) }
    {
        match self {
            Refusal::Usage => String::from_str(
                alloc,
                "ghes: usage: replay HEST EINJ SCRIPT | check HEST EINJ | decode BLOCK | load N\n",
            ),
            Refusal::Load(_, why) => format!(in alloc; "ghes: read {name}: {why}\n"),
            Refusal::Hest(error) => format!(in alloc; "ghes: hest: {error}\n"),
            Refusal::Einj(error) => format!(in alloc; "ghes: einj: {error}\n"),
            Refusal::Platform(error) => format!(in alloc; "ghes: platform: {error}\n"),
            Refusal::Script { line, kind } => {
                format!(in alloc; "ghes: script: line {line}: {kind}\n")
            }
            Refusal::Full { .. } => String::from_str(alloc, "ghes: platform: 2 room\n"),
            Refusal::OutOfMemory | Refusal::HandlerMemory => {
                String::from_str(alloc, "ghes: out of memory\n")
            }
        }
    }
}
