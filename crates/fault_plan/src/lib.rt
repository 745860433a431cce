//! A plan of faults for a simulated device: its calls are numbered from 1, and some of the numbers are to fail.
//!
//! A device in memory asks `Plan::fails_next` once in each call, and fails where the answer is `true`. So a test can
//! make each call of a run fail in turn.
#![tactic(auto)]

mod plan;
#[cfg(test)]
mod tests;

pub use plan::Plan;
