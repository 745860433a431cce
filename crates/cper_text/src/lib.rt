//! Makes the texts of one status block: of one that is reported, of one that is dropped, and of one alone. It knows no ledger.
//!
//! A text grows behind what stood before. Each call appends exactly what specs/ spells, or nothing where memory is short: the calls
//! on a list of bytes cut it back themselves, and those on a `Text` leave that to its `close`.
#![tactic(auto)]

mod body;
mod bytes;
mod entry;
mod field;
mod laws;
mod report;
mod section;
#[cfg(test)]
mod tests;
mod text;

pub use body::add_block;
pub use bytes::low_digits;
pub use laws::bytes_behind_a_block_are_not_printed;
pub use report::{
    add_drop, add_malformed, add_report, block_text, drop_text, malformed_lines, reason_text,
    report_text, source_and_block,
};
pub use text::Text;
