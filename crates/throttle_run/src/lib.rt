//! Looks of many readers in threads of their own, beside a writer that reports.
//!
//! - `run`: each answer of a reader is that of the first j reports. Along a reader j does not fall, and it lies between the
//!   reports before and after the run.
//! - `look_alone`: where nothing is reported meanwhile, the answer is that of all the reports.
#![tactic(auto)]

mod alone;
mod lane;
#[cfg(test)]
mod tests;

pub use alone::look_alone;
pub use lane::{Lane, lanes, run};
