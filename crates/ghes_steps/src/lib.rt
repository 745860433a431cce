//! A counter of steps, for a bound that a contract promises: a call ticks it where a step is made.
//!
//! `Steps` takes no bytes, and a tick does nothing when it runs. Each crate whose calls are bounded stands on this one.
#![tactic(auto)]

mod steps;
#[cfg(test)]
mod tests;

pub use steps::Steps;
