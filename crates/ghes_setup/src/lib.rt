//! What the tables and the settings of a script say of a simulated machine: its sources and contexts, how it answers an
//! injection, and its memory before the first line of the script is executed.
#![tactic(auto)]

mod describing;
mod injecting;
mod ports;
mod reading;
mod rig;
mod settings;
#[cfg(test)]
mod tests;

pub use describing::machine;
pub use injecting::Injecting;
pub use ports::set_cells;
pub use reading::read_script;
pub use rig::Rig;
pub use settings::setup;
