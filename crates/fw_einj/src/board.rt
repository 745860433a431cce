//! The registers of the machine, and where its trigger table is.
use crate::{AddressStructure, Register};

/// Where the machine is told the error type.
#[derive(Clone, Copy)]
pub enum Asked {
    /// In an address structure.
    Structure(AddressStructure),
    /// In the field of this entry.
    Field(Register),
}

/// The registers of the machine, and where its trigger table is. They never change.
#[derive(Clone, Copy)]
pub struct Board {
    /// Tells where the trigger table is.
    pub trigger: Register,
    /// Tells which error types can be injected.
    pub types: Register,
    /// Begins an injection where it is written.
    pub execute: Register,
    /// Tells whether the machine is busy.
    pub busy: Register,
    /// Tells the command status.
    pub status: Register,
    /// Where the error type is told.
    pub asked: Asked,
    /// The address of the trigger table.
    pub table: u64,
    /// The address of the trigger cell.
    pub cell: u64,
}
