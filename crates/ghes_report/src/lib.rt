//! Makes the texts of a replay from its ledger: what each line of its script prints, the panic report and the summary; and the
//! closing line of a counter of severities. The lines of a block are those of cper_text.
//!
//! Each call appends exactly the text that specs/ spells, or nothing where memory is short.
#![tactic(auto)]

mod cell;
mod inject;
mod laws;
mod left;
mod lines;
mod panic;
mod prints;
mod replay;
mod script;
mod severities;
mod summary;
#[cfg(test)]
mod tests;
mod turns;

pub use cper_text::block_text;
pub use laws::{a_lawful_ledger_may_be_printed, a_summary_tells_its_ledger};
pub use replay::{panic_text, summary_text};
pub use script::{script_text, told_text};
pub use severities::severities_text;
