//! What one call of the receive path does to firmware: the steps that a kernel reader knows, each once.
//!
//! A call peeks at the status address register, reads the header of the block, reads the rest, examines the image, clears
//! the block and acknowledges it. Each step works over any `Firmware`, takes no memory, waits for nobody, and counts each
//! of its accesses where it makes it: six at most in one call.
#![tactic(auto)]

mod answering;
mod examining;
mod laws;
mod looking;
mod receive;
mod table;
#[cfg(test)]
mod tests;

pub use answering::{acknowledge, clear};
pub use examining::{Examined, examine, examine_rest};
pub use laws::what_is_read_is_the_image;
pub use looking::{peek, read_header, read_rest};
pub use receive::{AckRule, Receive};
