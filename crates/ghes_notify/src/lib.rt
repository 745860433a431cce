//! Handlers of delivered blocks, and the chain in which they are called.
//!
//! A handler is told of each delivery, and answers whether the handlers behind it are told too. `Notifiers` calls them by
//! falling priority, and those of one priority in order of registration.
//!
//! The chain is written over any `Handler`; `Notifiers` is the chain of boxed ones.
#![tactic(auto)]

mod boxed;
mod chain;
mod deliver;
mod error;
mod handler;
mod laws;
mod order;
#[cfg(test)]
mod tests;

pub use boxed::Notifiers;
pub use chain::NotifierChain;
pub use error::{HandlerId, HandlerMemory, RegisterError};
pub use handler::{Handler, Verdict};
pub use laws::the_order_of_calls_falls;
