//! The seat of the decoder.

use crate::words::Place;
use std::marker::Model;

/// What the decoder has detached and not taken.
#[derive(Drop)]
pub(crate) struct Trail {
    /// Where the rest of the chain begins: 0 for its end, or 1 more than a slot.
    pub(crate) cursor: u64,
    /// The slots that were walked, newest first.
    pub(crate) slots: Vec<u64>,
}

/// The seat of the decoder. A contract sees which shared object it belongs to, and what the decoder knows.
///
/// Source: own choice.
#[derive(Drop)]
pub struct Work {
    pub(crate) seat: Place,
    pub(crate) trail: Trail,
}

impl Model for Work {
    ghost use Rattle.ghes_rule.specs.Moves.{work_of};
    ghost use Rattle.ghes_rule.specs.Seen.{WorkSeen, WorkFits};

    ghost Value = { WorkSeen };

    ghost view = { λ w. record { table = w.seat.table_id; view = work_of w.seat.me.0 } };

    ghost invariant = { λ w. WorkFits w.seat.table_id.slots w.trail w.seat.me };
}

impl Work {
    ghost use Rattle.std.specs.Prelude.{◌≡◌, ◌+◌, ◌<◌, [], length, MatchBool};

    /// Whether the detached chain was walked to its end.
    pub fn is_walked(&self) -> bool
        ensures { MatchBool result (self.now.view.cursor ≡ 0) (0 < self.now.view.cursor) }
    {
        self.trail.cursor == 0
    }

    /// Whether a detached chain is at hand.
    pub fn has_chain(&self) -> bool
        ensures { MatchBool result (0 < self.now.view.cursor + length self.now.view.walked) ((self.now.view.cursor ≡ 0) × (self.now.view.walked ≡ [])) }
    {
        self.trail.cursor != 0 || !self.trail.slots.is_empty()
    }
}
