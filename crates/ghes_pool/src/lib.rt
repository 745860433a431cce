//! A pool of slots: a context claims a slot without waiting, and gives its claim up.
//!
//! The receive path claims a slot before it acknowledges a block, so that a block for which there is none stays with firmware.
//! Neither call takes memory or waits. After Linux 6.1, drivers/acpi/apei/ghes.c, ghes_estatus_pool.
#![tactic(auto)]

mod pool;
#[cfg(test)]
mod tests;

pub use ghes_rule::Claim;
pub use pool::{Claimed, claim, release};
