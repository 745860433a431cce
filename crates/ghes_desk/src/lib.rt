//! One call of the receiver on one thread, and what a replay has between two lines beside the memory of its sources.
//!
//! A desk has the pending packets, the ledger and the report cache. It knows no script and no machine: each call is told how its source
//! is received, and at which position. It makes no text.
#![tactic(auto)]

mod calling;
mod desk;
mod finding;
mod laws;
mod pending;
mod port;

pub use desk::Desk;
pub use laws::a_cache_answers_by_the_laws;
pub use pending::Pending;
pub use port::Port;
