//! Blocks on their way from the contexts to the decoder: a push that neither waits nor fails, a decoder that takes the oldest first,
//! and a quiet moment in which the decoder has every pass and knows all that was pushed.
//!
//! A push is a swap of the head and a store of a link. In between its slot hangs at the head with its link unset, and the decoder that
//! comes to it keeps its chain and tries again later. After Linux 6.1, drivers/acpi/apei/ghes.c, ghes_estatus_llist, which pushes by
//! compare-and-swap; that this one swaps is an own choice.
#![tactic(auto)]

mod gathered;
mod pushing;
mod taking;
#[cfg(test)]
mod tests;

pub use gathered::{Gathered, gather};
pub use ghes_rule::Held;
pub use pushing::{Swapped, begin_push, end_push, push};
pub use taking::{Took, give, take};
