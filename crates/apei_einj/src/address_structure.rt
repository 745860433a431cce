//! The address structure that tells the firmware the error and its place: where its fields stand, in bytes from its
//! start, and how many bytes it has.
//!
//! Source: ACPI 6.5, 18.6.4.

/// The error type, of 32 bits.
pub const TYPE: u64 = 0;

/// The offset of the vendor's structure, of 32 bits, which an injection leaves.
pub const VENDOR: u64 = 4;

/// The flags that say which place is named, of 32 bits.
pub const FLAGS: u64 = 8;

/// The id of the processor, of 32 bits.
pub const PROCESSOR: u64 = 12;

/// The memory address, of 64 bits.
pub const ADDRESS: u64 = 16;

/// The mask of the memory address, of 64 bits.
pub const MASK: u64 = 24;

/// The PCIe word, of 32 bits.
pub const PCIE: u64 = 32;

/// How many bytes it has.
pub const LENGTH: u64 = 36;
