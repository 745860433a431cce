//! Files and an output as traits, so that a caller's contract can speak of what they hold and of what failed.
//!
//! A program that reads whole files and puts out bytes is written over `Files` and `Sink`. Their contracts say what
//! `Ok` gives, when each error comes, and that a failure raises a count, so that no caller can fail without a cause.
//!
//! - `MemFiles` and `MemSink` are in memory. They tell all that they hold, and fail at the calls that are planned.
//! - `HostFiles` and `HostSink` are the machine's files and standard output. They tell their count of faults alone.
//! - `Steps` counts steps for a bound that a contract promises, at no cost: the one of `ghes_steps`.
#![tactic(auto)]

mod files;
mod host_files;
mod host_sink;
mod mem_files;
mod mem_sink;
mod sink;

pub use files::{Files, LoadError};
pub use ghes_steps::Steps;
pub use host_files::HostFiles;
pub use host_sink::HostSink;
pub use mem_files::MemFiles;
pub use mem_sink::MemSink;
pub use sink::{PutFailed, Sink};

#[cfg(test)]
mod tests;
