//! Reads the script of a replay: the settings of the simulated machine, and then which errors its firmware raises and
//! when the receiver is called. A script is read whole or refused at its first bad line, with the first kind that holds.
#![tactic(auto)]

mod answer;
mod args;
mod command;
mod cut;
mod error;
mod inject;
mod laws;
mod line;
mod name;
mod number;
mod script;
mod setting;
mod setup;
mod sofar;
#[cfg(test)]
mod tests;
mod words;

pub use error::{ScriptError, ScriptKind};
pub use laws::{
    a_script_comes_in_order, a_script_is_read_in_one_way, each_line_of_a_script_is_allowed,
    what_may_come_has_a_spelling,
};
pub use line::{Class, Line, What};
pub use script::Script;
pub use setup::SourceName;
