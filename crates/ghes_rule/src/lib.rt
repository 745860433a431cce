//! The words that contexts and decoder share, what each seat knows of them, and what always holds of both.
//!
//! A table of words and slots stands under one rule, which each step keeps, whatever others do in between: `README.md` has the
//! parts, the layout, the rule and the steps. `ghes_pool` and `ghes_chain` call the steps; above them nobody speaks of words.
#![tactic(auto)]

mod building;
mod laws;
mod pass;
mod plays;
mod rule;
mod shared;
mod steps;
mod views;
mod words;
mod work;

pub use laws::{
    no_slot_means_claims, no_slot_means_pending, pending_is_what_was_not_taken, rule_holds,
};
pub use pass::Pass;
pub use rule::Rule;
pub use shared::Shared;
pub use steps::{
    Claim, Held, Hung, detach, free_slot, let_all_go, put_back, set_panic, settle, stopped,
    store_link, swap_in, take_in, take_out, try_slot, walk, work_stopped,
};
pub use views::{Cell, Hand, PacketView, PassView, Pushed, Stage, Turn, View, WorkView};
pub use words::{About, Board, Place};
pub use work::Work;
