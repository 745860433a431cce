//! What all tables of APEI (the ACPI Platform Error Interfaces) share: the common table header, generic
//! addresses and the regions that they name, and the bus on which regions are read and written, with the
//! memory of an error source as its firmware and its receiver share it. Bytes that break a rule are refused
//! with the first reason in a fixed order; an access that fails changes nothing and is counted.
#![tactic(auto)]

mod bus;
mod bytes;
mod fields;
mod firmware;
mod gas;
mod laws;
mod reach;
mod region;
mod sdt;
#[cfg(test)]
mod tests;

pub use bus::{Bus, BusFault};
pub use bytes::Bytes;
pub use fields::{gas_at, u16_at, u32_at, u64_at};
pub use firmware::{Firmware, clear, copy_area, read_ack, read_status, write_ack};
pub use gas::{Gas, GasError};
pub use laws::{a_standing_block_has_a_header_and_a_status, an_area_without_a_block_is_zeros};
pub use region::{Region, Space};
pub use sdt::{Sdt, SdtError};
