//! The words, with K slots.
//!
//! Word i below K is 2 g where slot i is free and g claims of it have ended, and 2 g + 1 while claim g runs.
//! Word K + i is the link of slot i: 0 while it is unset, 1 for the end, else 2 more than a slot.
//! Word 2 K is the head: 0 for none, or 1 more than a slot. Word 2 K + 1 is the panic word: 0 clear, 1 set.

use crate::rule::Rule;
use crate::views::{Cell, View};
use atomic_table::{Seat, Table};
use std::alloc::Global;

/// What the table is told when it is made.
#[derive(Drop)]
pub struct About {
    /// How many bytes each packet has room for.
    pub room: u64,
    pub slots: u64,
    pub contexts: u64,
}

/// The words and the slots, under the rule.
pub type Board = Table<Option<Cell>, View, About, Rule, Global>;

/// A place at the table.
pub type Place = Seat<Option<Cell>, View>;
