//! The simulated firmware of one error source: its memory, as firmware and receiver share it. Firmware raises blocks, which
//! stand in the area of the source one after another, and the receiver reads, clears and acknowledges them by accesses, some
//! of which are to fail. A port owns its memory, so that ports can go to threads of their own.
#![tactic(auto)]

mod layout;
mod memory;
mod port;
#[cfg(test)]
mod tests;

pub use layout::SourceLayout;
pub use port::SourcePort;
