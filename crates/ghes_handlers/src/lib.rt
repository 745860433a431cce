//! The handlers of a replay: they are registered one after another, told of the deliveries of its
//! ledger behind it, and asked for their closing texts at the end.
//!
//! The handlers are told behind the run, so they are told of what stands in the ledger, in order. A
//! block that was dropped tells nobody. A source is its position among the enabled ones, as there.
//!
//! `SeverityCounter` is the handler that the program brings.
#![tactic(auto)]

mod closing;
mod counter;
mod registering;
mod telling;
#[cfg(test)]
mod tests;

pub use closing::closings;
pub use counter::SeverityCounter;
pub use registering::{HandlersBack, with_handlers};
pub use telling::tell_all;
