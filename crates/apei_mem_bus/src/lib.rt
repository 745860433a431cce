//! Simulated machines: a bus whose cells are in memory, a bus over another that fails by plan, and the smallest memory
//! of one error source. An access that fails changes nothing and is counted.
#![tactic(auto)]

mod attempts;
mod faulty;
mod laws;
mod mem_bus;
mod one_source;
#[cfg(test)]
mod tests;

pub use attempts::Attempts;
pub use faulty::Faulty;
pub use laws::an_access_in_memory_has_one_outcome;
pub use mem_bus::MemBus;
pub use one_source::OneSource;
