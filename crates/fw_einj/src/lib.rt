//! The machine that injects errors, as its driver meets it: registers and an address structure in memory, a trigger
//! table, and the block that an injected error leaves for its source.
#![tactic(auto)]

mod block;
mod board;
mod class;
mod command;
mod field;
mod injection;
mod laws;
mod make;
mod part;
mod port;
mod register;
mod section;
mod setup;
mod structure;
#[cfg(test)]
mod tests;
mod trigger;

pub use block::injected_block;
pub use board::{Asked, Board};
pub use class::Class;
pub use injection::Injection;
pub use laws::{
    an_access_of_the_machine_has_one_outcome, an_injected_block_has_the_severity_of_its_type,
    an_injected_block_is_well_formed, an_injection_makes_one_block,
};
pub use port::{EinjPort, Made};
pub use register::Register;
pub use setup::Setup;
pub use structure::AddressStructure;
