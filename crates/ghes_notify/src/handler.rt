//! What a handler is.
ghost use Rattle.std.specs.Prelude.{◌≡◌, ◌++◌, ℕ, List, OnOk, OnErr};
ghost use Rattle.ghes_notify.specs.declared.handler.Verdict.{Verdict};
ghost use Rattle.ghes_notify.specs.Delivery.{Delivery, delivery_of, StandsOn};

use std::alloc::AllocError;

/// What a handler answers to a delivery.
///
/// Source: after Linux 6.1, include/linux/notifier.h (`NOTIFY_OK`, `NOTIFY_STOP`); want of memory: own choice.
#[derive(Clone, Copy, Debug, PartialEq, Eq)]
pub enum Verdict {
    /// The handlers behind it are told too.
    Go,
    /// The handlers behind it are not told.
    Stop,
    /// Memory ran out: the handlers behind it are not told, and the caller learns of it.
    NoMemory,
}

/// One who is told of deliveries.
pub trait Handler: Drop {
    /// The lists of deliveries that it stands for. It need not keep a list.
    ghost stands: { Self → List Delivery → Type 0 };

    /// What it answers to a delivery.
    ghost answers: { Self → Delivery → Verdict };

    /// Its closing text.
    ghost closing_text: { Self → List ℕ };

    /// Is told of block `seq` of a source, with its bytes.
    ///
    /// Where it stood for a list, it stands afterwards for the list and this delivery, whatever it answers.
    fn notify(&mut self, source: u16, seq: u32, block: &[u8]) -> Verdict
        ensures answer { result ≡ answers self.old (delivery_of source seq block.now) }
        ensures stands { StandsOn stands (delivery_of source seq block.now) self.old self.new };

    /// Appends its closing text. After a refusal `into` is unchanged.
    fn closing(&self, into: &mut Vec<u8>) -> Result<(), AllocError>
        ensures ok { OnOk result (into.new.items ≡ into.old.items ++ closing_text self.now) }
        ensures err { OnErr result (into.new.items ≡ into.old.items) };
}
