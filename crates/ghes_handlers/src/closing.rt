//! The closing texts of handlers.
ghost use Rattle.std.specs.Prelude.{◌≡◌, ◌++◌, length, take, OnOk, OnErr};
ghost use Rattle.ghes_handlers.specs.Closing.{closing_texts};

use ghes_notify::Handler;
use std::alloc::AllocError;

// Appends the closing texts, or some of them.
fn append_each<H: Handler>(handlers: &[H], into: &mut Vec<u8>) -> Result<(), AllocError>
    ensures ok { OnOk result (into.new.items ≡ into.old.items
        ++ closing_texts H.closing_text handlers.now) }
    ensures front { take (length into.old.items) into.new.items ≡ into.old.items }
{
    for handler in handlers {
        handler.closing(into)?;
    }
    Ok(())
}

/// Appends the closing texts of the handlers, in order. After an error `into` is as it was.
///
/// Source: own choice.
pub fn closings<H: Handler>(handlers: &[H], into: &mut Vec<u8>) -> Result<(), AllocError>
    ensures ok { OnOk result (into.new.items ≡ into.old.items
        ++ closing_texts H.closing_text handlers.now) }
    ensures err { OnErr result (into.new.items ≡ into.old.items) }
{
    let start = into.len();
    match append_each(handlers, into) {
        Ok(()) => Ok(()),
        Err(short) => {
            into.truncate(start);
            Err(short)
        }
    }
}
