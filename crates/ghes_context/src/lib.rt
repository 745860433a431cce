//! A context: one call brings a block from firmware into the pending chain, without memory and without waiting.
//!
//! A call loads the panic word, looks for a block, takes its image, looks into the report cache, claims a slot, clears the block,
//! makes it pending and acknowledges it. Each of these steps is a function. All memory is made before by `new` and `reserve`.
#![tactic(auto)]

mod ask;
mod calling;
mod context;
mod ending;
mod finding;
mod parted;
mod queueing;
mod rest;
#[cfg(test)]
mod tests;

pub use context::{Context, ContextRefused};
pub use ghes_nmi::{AckRule, Receive};
pub use parted::Parted;
