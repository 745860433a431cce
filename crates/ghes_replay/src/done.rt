//! What a task gives, and its status.
ghost use Rattle.std.specs.Prelude.{◌≡◌};
ghost use Rattle.std.specs.List.{list_any};
ghost use Rattle.ghes_replay.specs.Done.{done_status};

use ghes_ledger::{Ledger, PanicEntry};

/// What was done: the ledger, where it was a replay, and the whole output.
#[derive(Drop)]
pub(crate) struct Done {
    pub ledger: Option<Ledger>,
    pub text: Vec<u8>,
}

// Whether a panic list has a fatal block.
fn has_fatal(entries: &[PanicEntry]) -> bool
    ensures { result ≡ list_any (λ entry. entry.fatal) entries.now }
{
    entries.iter().any(|entry| entry.fatal)
}

/// The status of what was done: 1 where the ledger has a fatal block, and else 0.
pub(crate) fn done_status(ledger: &Option<Ledger>) -> u8
    ensures { result ≡ done_status ledger.now }
{
    match ledger {
        Some(ledger) if has_fatal(ledger.panic()) => 1,
        _ => 0,
    }
}
