//! Contexts that push in threads of their own beside a decoder that takes, and then give everything back.
//!
//! - `burst`: each context claims, fills and pushes packet after packet, and claims again while each slot is taken; the decoder takes
//!   meanwhile. Then all passes come back, the rest is taken, and the passes go out again.
//! - `Tally`: how many packets came out, and whether those of each context came in the order in which it pushed them.
#![tactic(auto)]

mod alone;
mod pushing;
mod running;
mod taking;
mod tally;
#[cfg(test)]
mod tests;

pub use alone::one_by_one;
pub use pushing::{LONGEST, Plan, push_alone};
pub use running::{Lot, burst, fresh};
pub use taking::take_alone;
pub use tally::Tally;
