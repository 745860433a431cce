//! The memory map of a simulated machine as its tables describe it: whose each register is, where the areas stand in
//! which the firmware puts its blocks, and which cells are mapped. Tables whose registers cannot be told apart are
//! refused, by the owners and the cell.
#![tactic(auto)]

mod areas;
mod error;
mod laws;
mod map;
mod mapped;
mod overlap;
mod place;
mod registers;
mod run;
mod taken;
#[cfg(test)]
mod tests;

pub use error::{FwError, Owner};
pub use laws::{
    a_cell_of_a_map_has_one_owner, runs_share_a_cell_where_both_have_one, tables_have_one_map,
};
pub use map::{Map, Trigger};
pub use registers::enabled_sources;
pub use run::{Register, Run};
