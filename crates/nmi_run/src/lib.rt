//! Calls of a context over the port of a simulated source: a crate of tests alone, above both.
//!
//! Each of the six accesses of a call fails in turn, and another pass holds the only slot. What holds of every port is the contract
//! of `Context::nmi`.
#![tactic(auto)]

#[cfg(test)]
mod tests;
