//! The decoder takes the oldest packet, and gives its slot back.
ghost use Rattle.std.specs.Prelude.{◌≡◌, ◌+◌, ◌≤◌, true, false, MatchBool};
ghost use Rattle.ghes_rule.specs.declared.views.Hand.TheVariants.{Bare, Full};
ghost use Rattle.ghes_rule.specs.Moves.{all_back, AllTaken, SettledIf, with_given};
ghost use Rattle.ghes_chain.specs.Take.{IsAnswer, IsSeen, GotChain, IsEmpty};

use ghes_rule::{Held, Shared, Work, detach, put_back, take_out, walk};
use ghes_steps::Steps;
use std::sync::ledger::Ledger;

/// What a take answers.
#[derive(Drop)]
pub enum Took {
    /// The oldest packet of the chain at hand.
    Packet(Held),
    /// The head was found empty, and no chain was at hand.
    Empty,
    /// A link of the chain at hand is not set yet. The chain is kept.
    Again,
}

// Detaches what hangs at the head, where no chain is at hand. It answers whether one is then.
pub(crate) fn get_chain<L: Ledger>(shared: &Shared, work: &mut Work, steps: &mut Steps<L>) -> bool
    requires belongs { work.old.table ≡ shared.now }
    requires bare { work.old.view.held ≡ Bare }
    ensures belongs { work.new.table ≡ work.old.table }
    ensures chain { MatchBool result (GotChain work.old.view work.new.view) (IsEmpty work.old.view work.new.view) }
    ensures none { result ≡ false → all_back work.old.view.passes ≡ true → AllTaken work.old.view }
    ensures settled { result ≡ false → SettledIf work.new.view }
    ensures cost { steps.new ≤ steps.old + 1 }
{
    if work.has_chain() {
        return true;
    }
    detach(shared, work, steps)
}

// Walks the chain to its end, and answers `false` at an unset link.
pub(crate) fn walk_all<L: Ledger>(shared: &Shared, work: &mut Work, steps: &mut Steps<L>) -> bool
    requires belongs { work.old.table ≡ shared.now }
    ensures belongs { work.new.table ≡ work.old.table }
    ensures seen { IsSeen work.old.view work.new.view result }
    ensures cost { steps.new ≤ steps.old + shared.now.slots }
{
    while !work.is_walked() {
        if !walk(shared, work, steps) {
            return false;
        }
    }
    true
}

/// Takes the oldest packet of the chain at hand, or of what hangs at the head where none is.
///
/// At most one swap, one load per slot, one store and one exchange. It takes no memory and does not wait. Source: own choice.
pub fn take<L: Ledger>(shared: &Shared, work: &mut Work, steps: &mut Steps<L>) -> Took
    requires belongs { work.old.table ≡ shared.now }
    requires bare { work.old.view.held ≡ Bare }
    ensures belongs { work.new.table ≡ work.old.table }
    ensures answer { IsAnswer work.old.view work.new.view result }
    ensures cost { steps.new ≤ steps.old + shared.now.slots + 3 }
{
    if !get_chain(shared, work, steps) {
        return Took::Empty;
    }
    if !walk_all(shared, work, steps) {
        return Took::Again;
    }
    Took::Packet(take_out(shared, work, steps))
}

/// Empties the packet, puts it back and frees its slot: one exchange and one store.
pub fn give<L: Ledger>(shared: &Shared, held: Held, work: &mut Work, steps: &mut Steps<L>)
    requires belongs { work.old.table ≡ shared.now }
    requires own { work.old.view.held ≡ Full held.slot held.turn }
    requires room { work.old.view.room ≤ held.cell.packet.bytes.room }
    ensures work { work.new ≡ record work.old { view = with_given work.old.view } }
    ensures settled { SettledIf work.new.view }
    ensures cost { steps.new ≡ steps.old + 2 }
{
    put_back(shared, held, work, steps);
}
