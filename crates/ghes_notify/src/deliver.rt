//! One delivery along the order of the handlers.
ghost use Rattle.std.specs.Prelude.{◌≡◌, ◌<◌, length, All};
ghost use Rattle.ghes_notify.specs.Delivery.{delivery_of, IsGiven, Delivers, IsWithin};

use crate::error::{HandlerId, HandlerMemory};
use crate::handler::{Handler, Verdict};
use crate::order::Rank;

// The handler at this place is told.
fn notify_at<H: Handler>(
    handlers: &mut [H],
    place: usize,
    source: u16,
    seq: u32,
    block: &[u8],
) -> Verdict
    requires { place < length handlers.old }
    ensures given { IsGiven H.stands H.answers (delivery_of source seq block.now) place handlers.old handlers.new result }
    ensures len { length handlers.new ≡ length handlers.old }
{
    handlers[place].notify(source, seq, block)
}

/// Tells the handlers in this order, up to and with the first that does not answer `Go`.
pub(crate) fn deliver<H: Handler>(
    ranks: &[Rank],
    handlers: &mut [H],
    source: u16,
    seq: u32,
    block: &[u8],
) -> Result<(), HandlerMemory>
    requires { IsWithin (length handlers.old) ranks.now }
    ensures delivers { Delivers H.stands H.answers (delivery_of source seq block.now) ranks.now handlers.old handlers.new result }
    ensures len { length handlers.new ≡ length handlers.old }
{
    let mut rest = ranks;
    while let Some((rank, tail)) = rest.split_first() {
        match notify_at(handlers, rank.place, source, seq, block) {
            Verdict::Go => {}
            Verdict::Stop => return Ok(()),
            Verdict::NoMemory => {
                return Err(HandlerMemory(HandlerId {
                    number: rank.tag.id,
                }));
            }
        }
        rest = tail;
    }
    Ok(())
}
