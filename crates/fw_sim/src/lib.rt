//! The simulated firmware of a machine: the memory of its error sources, where blocks are raised for their receivers, and
//! the machine that injects errors. It is made from the tables of the machine, and its ports can go to threads of their own
//! and come back.
#![tactic(auto)]

mod error;
mod laws;
mod place;
mod platform;
mod raising;
#[cfg(test)]
mod tests;

pub use error::RaiseError;
pub use laws::a_raise_appends_to_the_queue_of_its_source;
pub use platform::{EinjSide, Platform};
