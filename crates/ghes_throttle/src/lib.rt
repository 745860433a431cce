//! The cache of the last reports, and how one writer shares it with many readers.
//!
//! - `Cache` has four places. What it answers is a function of the list of all reports that were put into it.
//! - `throttle` makes a `ThrottleWriter` and its `ThrottleReader`s. The writer reports, and a reader looks at any moment,
//!   without a lock and without memory. What a reader answers by is a beginning of the writer's list.
//! - A `Told` takes the writer's list to a reader, which sees exactly this list once it has learned.
//!
//! Readers stand over `left_right`, which shares the places, and over `logbook`, which ties a number to a list, so that
//! two who have the same number are known to have the same list.
#![tactic(auto)]

mod cache;
mod history;
mod laws;
mod opening;
mod place;
mod publishing;
mod reader;
mod report;
mod ruled;
mod shown;
#[cfg(test)]
mod tests;
mod told;
mod writer;

pub use cache::Cache;
pub use laws::{a_put_adds_a_report, a_report_takes_a_place};
pub use opening::throttle;
pub use reader::ThrottleReader;
pub use report::Report;
pub use told::Told;
pub use writer::ThrottleWriter;
