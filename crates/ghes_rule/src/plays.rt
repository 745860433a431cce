//! What each step tells the seat that makes it.
ghost use Rattle.ghes_rule.specs.Moves.{told_settled, tried, freed, detached, walked_on, took_first, gave, hung, linked_up, looked, overlooked, stopped_with, join_views, split_left, split_right};
ghost use Rattle.ghes_rule.specs.declared.views.View.TheVariants.{Spent};
ghost use Rattle.ghes_rule.specs.declared.views.PacketView.{PacketView};

use crate::views::{Cell, View};
use atomic_table::{Join, Play, Split};
use std::marker::{Brand, PhantomData};

/// A pass tries a slot.
pub(crate) struct Try;

impl Play<Option<Cell>, View> for Try {
    ghost then = { tried };
}

/// A pass gives its claim up.
pub(crate) struct Free;

impl Play<Option<Cell>, View> for Free {
    ghost then = { freed };
}

/// A pass swaps its slot into the head.
pub(crate) struct Hang;

impl Play<Option<Cell>, View> for Hang {
    ghost then = { hung };
}

/// A pass stores the link of its slot.
pub(crate) struct Link;

impl Play<Option<Cell>, View> for Link {
    ghost then = { linked_up };
}

/// The decoder swaps the head for none.
pub(crate) struct Detach;

impl Play<Option<Cell>, View> for Detach {
    ghost then = { detached };
}

/// The decoder loads the link at its cursor.
pub(crate) struct Walk;

impl Play<Option<Cell>, View> for Walk {
    ghost then = { walked_on };
}

/// The decoder takes the oldest slot that was walked.
pub(crate) struct TakeFirst;

impl Play<Option<Cell>, View> for TakeFirst {
    ghost then = { took_first };
}

/// The decoder frees the slot that it holds.
pub(crate) struct GiveBack;

impl Play<Option<Cell>, View> for GiveBack {
    ghost then = { gave };
}

/// A pass loads the panic word.
pub(crate) struct Look;

impl Play<Option<Cell>, View> for Look {
    ghost then = { looked };
}

/// The decoder loads the panic word.
pub(crate) struct Overlook;

impl Play<Option<Cell>, View> for Overlook {
    ghost then = { overlooked };
}

/// A fatal block, as a proof names it.
pub(crate) trait Fatal {
    ghost packet: { PacketView };
}

impl Fatal for Brand {
    ghost use Rattle.std.specs.Prelude.{[], None};

    ghost packet = { record { source = 0; seq = 0; reason = None; bytes = [] } };
}

/// A pass sets the panic word for a fatal block.
pub(crate) struct Stop<B: Fatal>(PhantomData<B>);

impl<B: Fatal> Play<Option<Cell>, View> for Stop<B> {
    ghost then = { stopped_with B.packet };
}

/// The decoder takes a pass in.
pub(crate) struct TakeIn;

impl Join<View> for TakeIn {
    ghost both = { join_views };

    ghost spent = { Spent };
}

/// The decoder lets its first ended pass out.
pub(crate) struct LetOut;

impl Split<View> for LetOut {
    ghost left = { split_left };

    ghost right = { split_right };
}

/// The decoder learns what is settled.
pub(crate) struct Settle;

impl Play<Option<Cell>, View> for Settle {
    ghost then = { told_settled };
}
