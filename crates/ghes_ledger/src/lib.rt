//! The account of a replay: what is kept of each call and each block, and when that is lawful.
//!
//! It knows no machine and no script. A line is what it asks for, a source is what the laws say of it, and the laws are told over
//! the lines that were executed. Whoever runs a script enters what happened, and proves that the ledger is lawful. Texts and counts
//! are made of the ledger behind the run.
#![tactic(auto)]

mod entering;
mod fate;
mod laws;
mod ledger;
mod lists;
mod settling;
mod summary;
#[cfg(test)]
mod tests;

pub use fate::Fate;
pub use laws::{
    a_duplicate_was_reported, a_ledger_tells_one_history, a_plain_script_has_one_ledger,
    each_block_has_one_fate,
};
pub use ledger::{InjectionEnd, Ledger, Mark, PanicEntry, Report, Reported, Taken};
pub use summary::{SourceSummary, Summary};
