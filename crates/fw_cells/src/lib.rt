//! The memory cells and I/O ports of simulated firmware, as sorted runs of bytes of which no two share a cell or
//! adjoin. Ports of a simulated machine read and write their cells here; contracts see a finite map from space and
//! address to a byte. A cell is found by a binary search, and only making the cells takes memory.
#![tactic(auto)]

mod cells;
mod change;
mod finding;
mod look;
mod run;
mod span;
#[cfg(test)]
mod tests;

pub use cells::Cells;
pub use run::CellRun;
