//! Reads the hardware error sources of a HEST, the table in which firmware lists how it reports errors. A
//! table is read whole or refused with the first reason along it.
#![tactic(auto)]

mod admitted;
mod error;
mod fields;
mod hest;
mod laws;
mod source;
mod structure;
#[cfg(test)]
mod tests;

pub use error::HestError;
pub use hest::Hest;
pub use laws::{
    a_table_is_read_in_one_way, accepted_sources_are_sound, an_accepted_table_has_sound_sources,
    an_accepted_table_is_its_structures, each_list_of_bytes_is_judged,
};
pub use source::{Ack2, Ghes, Notify, Source};
