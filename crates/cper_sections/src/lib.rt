//! Reads the memory, processor and PCIe sections of error records: which section the bytes are, and what its fields say.
#![tactic(auto)]

mod form;
mod kind;
mod laws;
mod memory;
mod pcie;
mod processor;
mod row;
mod section;
#[cfg(test)]
mod tests;

pub use form::Form;
pub use kind::Kind;
pub use laws::{
    each_byte_is_of_one_field, each_field_lies_in_its_section_or_is_late,
    each_kind_has_its_own_guid, no_two_fields_overlap, what_stands_behind_a_field_is_not_read,
};
pub use memory::Memory;
pub use pcie::Pcie;
pub use processor::Processor;
pub use row::Row;
pub use section::Section;
