//! Puts a text in pieces, and ends the run.
ghost use Rattle.std.specs.Prelude.{◌≡◌, ◌≤◌, OnOk, OnErr};
ghost use Rattle.ghes_outside.specs.Outside.{Rose, Appends, AppendsFront};
ghost use Rattle.ghes_replay.specs.Run.{WasPut};

use ghes_ledger::Ledger;
use ghes_outside::{PutFailed, Sink};

/// How a run ended, without its handlers.
#[derive(Drop)]
pub(crate) struct End {
    pub status: u8,
    pub ledger: Option<Ledger>,
}

/// How many bytes are put at once.
const PIECE: usize = 4096;

// Puts a text in pieces.
fn put_all<K: Sink>(out: &mut K, text: &[u8]) -> Result<(), PutFailed>
    ensures ok { OnOk result (Appends (K.seen out.old).written (K.seen out.new).written text.now) }
    ensures err { OnErr result (AppendsFront (K.seen out.old).written
        (K.seen out.new).written text.now) }
    ensures cause { OnErr result (Rose (K.seen out.old).faults (K.seen out.new).faults) }
{
    let mut rest = text;
    while !rest.is_empty() {
        let (piece, after) = rest.split_at(rest.len().min(PIECE));
        out.put(piece)?;
        rest = after;
    }
    Ok(())
}

/// Puts the whole text, and ends with this status, or with 6 where the output did not take it.
pub(crate) fn end_with<K: Sink>(out: &mut K, text: &[u8], status: u8, ledger: Option<Ledger>) -> End
    ensures { WasPut (K.seen out.old) (K.seen out.new) text.now
        (record { status = status; ledger = ledger }) result }
{
    match put_all(out, text) {
        Ok(()) => End { status, ledger },
        Err(PutFailed) => End { status: 6, ledger },
    }
}
