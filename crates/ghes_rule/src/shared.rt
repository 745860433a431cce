//! What all threads share.

use crate::words::Board;
use std::marker::Model;

/// The words and slots, lent by reference to all contexts and to the decoder.
///
/// A contract sees which one it is: what belongs to it has the same `table`, whose `slots` is the number of slots.
/// Source: own choice.
#[derive(Drop)]
pub struct Shared {
    pub(crate) table: Board,
    pub(crate) slots: usize,
    pub(crate) block_len: usize,
}

impl Model for Shared {
    ghost use Rattle.atomic_table.specs.Seated.{TableId};
    ghost use Rattle.ghes_rule.specs.Seen.{SharedFits};

    ghost Value = { TableId };

    ghost view = { λ s. s.table.shared.table_id };

    ghost invariant = { λ s. SharedFits s.slots s.block_len s.table.shared.table_id s.table.shared.key };
}

impl Shared {
    ghost use Rattle.std.specs.Prelude.{◌≡◌};

    /// How many slots there are.
    pub fn slots(&self) -> usize
        ensures { result ≡ self.now.slots }
    {
        self.slots
    }
}
