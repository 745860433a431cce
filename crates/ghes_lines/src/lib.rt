//! The lines of a script, executed on one thread over any ports of error sources, and what each line adds to the ledger. It makes no
//! text.
#![tactic(auto)]

mod error;
mod executing;
mod execution;
mod injector;
mod laws;
mod lines;
mod machine;
mod run;
mod running;
#[cfg(test)]
mod tests;

pub use error::Stop;
pub use execution::execute;
pub use injector::{Injected, Injector};
pub use laws::a_script_asks_for_what_its_machine_allows;
pub use machine::{Machine, Source};
pub use run::run_lines;
