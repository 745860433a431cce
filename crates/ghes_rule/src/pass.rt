//! The seat of a context.

use crate::words::Place;
use std::marker::Model;

/// The seat of one context. A contract sees which shared object it belongs to, and what the context knows.
///
/// Source: own choice.
#[derive(Drop)]
pub struct Pass {
    pub(crate) number: u64,
    pub(crate) seat: Place,
}

impl Model for Pass {
    ghost use Rattle.ghes_rule.specs.Moves.{pass_of};
    ghost use Rattle.ghes_rule.specs.Seen.{PassSeen, PassFits};

    ghost Value = { PassSeen };

    ghost view = { λ p. record { table = p.seat.table_id; view = pass_of p.seat.me.0 } };

    ghost invariant = { λ p. PassFits p.seat.table_id.slots p.number p.seat.me };
}

impl Pass {
    ghost use Rattle.std.specs.Prelude.{◌≡◌};

    /// The number of the context, from 0 on.
    pub fn number(&self) -> u64
        ensures { result ≡ self.now.view.number }
    {
        self.number
    }
}
