//! Handlers in boxes.
ghost use Rattle.std.specs.Prelude.{◌≡◌, ◌++◌, OnOk, OnErr};

use crate::chain::NotifierChain;
use crate::handler::{Handler, Verdict};
use std::alloc::AllocError;

/// The chain of boxed handlers.
pub type Notifiers = NotifierChain<Box<dyn Handler + Send>>;

/// A box stands for what its handler stands for.
impl Handler for Box<dyn Handler + Send> {
    ghost stands = { λ b. (Handler-box b).stands b.value };

    ghost answers = { λ b. (Handler-box b).answers b.value };

    ghost closing_text = { λ b. (Handler-box b).closing_text b.value };

    fn notify(&mut self, source: u16, seq: u32, block: &[u8]) -> Verdict {
        (**self).notify(source, seq, block)
    }

    fn closing(&self, into: &mut Vec<u8>) -> Result<(), AllocError> {
        (**self).closing(into)
    }
}
