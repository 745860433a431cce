//! What the program `ghes` does for its words: it replays a script of errors on a table, to the ledger of what became of
//! each block and its text, and tells handlers of the deliveries; it lists tables; it prints one block; or it is refused, with
//! a status and a line.
#![tactic(auto)]

mod check;
mod decode;
mod done;
mod exit;
mod hearing;
mod loading;
mod playing;
mod program;
mod putting;
mod replay;
mod run;
mod task;
#[cfg(test)]
mod tests;

pub use exit::{InputFile, Refusal};
pub use ghes_call::{AckState, Call, Outcome, Reply};
pub use ghes_handlers::SeverityCounter;
pub use ghes_ledger::{
    Ledger, Mark, PanicEntry, Report, Reported, Taken, a_ledger_tells_one_history,
    each_block_has_one_fate,
};
pub use ghes_notify::{Handler, Verdict};
pub use program::ghes_main;
pub use run::{RunEnd, check_run, decode_run, ghes_run};
