//! The words of the receiver: what one call of the receive path answers, and a block's image on its way.
//!
//! The types are plain, and know neither firmware nor shared words. The receive path makes them, the pending chain
//! carries a `Packet`, and the ledger keeps each `Call`.
#![tactic(auto)]

mod buffer;
mod call;
mod packet;
#[cfg(test)]
mod tests;

pub use buffer::Buffer;
pub use call::{AckState, Call, Outcome, Reply};
pub use packet::Packet;
