//! How the handlers are told of the deliveries of a ledger.
ghost use Rattle.std.specs.Prelude.{◌≡◌, length};
ghost use Rattle.ghes_notify.specs.Order.{call_order};
ghost use Rattle.ghes_notify.specs.Chain.{delivered};
ghost use Rattle.ghes_handlers.specs.Deliveries.{deliveries_by, deliveries_of};
ghost use Rattle.ghes_handlers.specs.Told.{AreDelivered, AreTold};

use ghes_ledger::Taken;
use ghes_notify::{Handler, HandlerMemory, NotifierChain};

// Tells the handlers of a taken block, where it was delivered.
fn tell<H: Handler>(chain: &mut NotifierChain<H>, entry: &Taken) -> Result<(), HandlerMemory>
    ensures told { AreDelivered H.stands H.answers (call_order chain.old.tags)
        (deliveries_by entry.now) chain.old.handlers chain.new.handlers result }
    ensures kept { chain.new ≡ delivered chain.old chain.new.handlers }
{
    match entry {
        Taken::Delivered {
            source,
            seq,
            bytes,
            ..
        } => chain.call(*source, *seq, bytes.as_slice()),
        Taken::Dropped { .. } => Ok(()),
    }
}

// Tells the handlers of the deliveries among taken blocks, in order.
fn tell_each<H: Handler>(chain: &mut NotifierChain<H>, taken: &[Taken]) -> Result<(), HandlerMemory>
    ensures told { AreDelivered H.stands H.answers (call_order chain.old.tags)
        (deliveries_of taken.now) chain.old.handlers chain.new.handlers result }
    ensures kept { chain.new ≡ delivered chain.old chain.new.handlers }
{
    let mut rest = taken;
    while let Some((entry, tail)) = rest.split_first() {
        match tell(chain, entry) {
            Ok(()) => {}
            Err(memory) => return Err(memory),
        }
        rest = tail;
    }
    Ok(())
}

/// Tells the handlers of the deliveries among taken blocks, in order, up to the first in which a
/// handler's memory ran out.
///
/// A dropped block is no delivery. A source is told as the ledger has it: by its position among the
/// enabled ones, from 0 on. Behind `HandlerMemory` nobody is told of anything more, and what was
/// told stands. Source: after Linux 6.1, kernel/notifier.c; the order of deliveries: own choice.
#[tactic(auto, using(crate::proofs::ToldLemmas::told_all))]
pub fn tell_all<H: Handler>(
    chain: &mut NotifierChain<H>,
    taken: &[Taken],
) -> Result<(), HandlerMemory>
    ensures told { AreTold H.stands H.answers (call_order chain.old.tags)
        (deliveries_of taken.now) chain.old.handlers chain.new.handlers result }
    ensures kept { chain.new ≡ delivered chain.old chain.new.handlers }
{
    tell_each(chain, taken)
}
