//! The codes of the actions.
//!
//! Source: ACPI 6.5, 18.6.1.

/// Tells the machine that an injection begins.
pub(crate) const BEGIN: u8 = 0;

/// Gets the address of the trigger table.
pub(crate) const GET_TRIGGER_TABLE: u8 = 1;

/// Sets the error type, where the table has no address structure.
pub(crate) const SET_ERROR_TYPE: u8 = 2;

/// Gets the error types that the machine can inject, a bit each.
pub(crate) const GET_ERROR_TYPE: u8 = 3;

/// Tells the machine that the injection ends.
pub(crate) const END: u8 = 4;

/// Tells the machine to inject.
pub(crate) const EXECUTE: u8 = 5;

/// Gets whether the machine is busy, in bit 0.
pub(crate) const CHECK_BUSY: u8 = 6;

/// Gets the status, 0 for success.
pub(crate) const GET_STATUS: u8 = 7;

/// Sets the error type with its place, by the address structure at the register.
pub(crate) const SET_TYPE_WITH_ADDRESS: u8 = 8;

/// Triggers the error, in a trigger table.
pub(crate) const TRIGGER: u8 = 0xff;
