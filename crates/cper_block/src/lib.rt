//! Judges the bytes that firmware may leave as an error status block, and lends its parts.
#![tactic(auto)]

mod block;
mod entries;
mod entry;
mod header;
mod image;
mod laws;
mod malformed;
mod severity;
#[cfg(test)]
mod tests;

pub use block::{Block, LARGEST_BLOCK};
pub use entries::Entries;
pub use entry::DataEntry;
pub use header::Header;
pub use image::Image;
pub use laws::{
    a_block_is_its_parts, a_higher_limit_lets_a_block_in, a_reason_is_the_judgement,
    a_well_formed_block_is_its_own_image, bytes_are_judged_in_one_way, joined_parts_are_a_block,
    the_entries_are_those_of_the_cut,
};
pub use malformed::Malformed;
pub use severity::Severity;
