//! The steps, each a function of its own, with what it makes of the view of the seat that takes it.

mod claim;
mod panic;
mod push;
mod seats;
mod take;

pub use claim::{Claim, free_slot, try_slot};
pub use panic::{set_panic, stopped, work_stopped};
pub use push::{Hung, store_link, swap_in};
pub use seats::{let_all_go, settle, take_in};
pub use take::{Held, detach, put_back, take_out, walk};
