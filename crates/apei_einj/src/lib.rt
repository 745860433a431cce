//! The error injection table (EINJ) of APEI: `Einj::read` gives the entries of the injection actions or the first
//! reason why the table is refused, `run_action` runs the entries of one action over any bus, and `inject` injects an
//! error by them.
#![tactic(auto)]

mod access;
mod action;
pub mod address_structure;
mod anchor;
mod einj;
mod entry;
mod error;
mod header;
mod inject;
mod injected;
mod instruction;
mod laws;
mod prepare;
mod request;
mod run;
#[cfg(test)]
mod tests;
mod trigger;
mod walk;

pub use einj::Einj;
pub use entry::Entry;
pub use error::EinjError;
pub use injected::{InjectError, Injected};
pub use laws::{
    a_table_whose_entries_can_be_run_is_accepted, an_accepted_table_is_its_header_and_its_entries,
    an_anchor_is_the_first_entry_that_fits, an_injection_ends_in_one_way,
    each_entry_of_an_accepted_table_can_be_run,
};
pub use request::{Place, Request, is_error_type};
pub use run::RunError;
