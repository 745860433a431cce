//! The decoder detaches what hangs at the head, walks it to its end, takes its oldest slot and gives it back.
ghost use Rattle.std.specs.Prelude.{◌≡◌, ◌+◌, ◌<◌, ◌≤◌, true, false, [], length, MatchBool};
ghost use Rattle.ghes_rule.specs.declared.views.Hand.TheVariants.{Bare, Full};
ghost use Rattle.ghes_rule.specs.Moves.{all_back, AllTaken, SettledIf, IsDetached, IsWalked, with_given};
ghost use Rattle.ghes_rule.specs.Taken.{IsTaken};

use crate::plays::{Detach, GiveBack, TakeFirst, Walk};
use crate::shared::Shared;
use crate::views::Cell;
use crate::work::Work;
use ghes_call::Packet;
use ghes_steps::Steps;
use std::sync::ledger::Ledger;

/// A packet that was taken, in the decoder's hands. It is spent by giving it back.
#[derive(Drop)]
pub struct Held {
    pub slot: usize,
    /// The number of the claim that holds the slot.
    pub turn: u64,
    pub cell: Cell,
}

impl Held {
    /// The packet, lent.
    pub fn packet(&self) -> &Packet
        ensures { result.now ≡ self.now.cell.packet }
    {
        &self.cell.packet
    }
}

/// Swaps the head for none, and answers whether a chain hung there.
pub fn detach<L: Ledger>(shared: &Shared, work: &mut Work, steps: &mut Steps<L>) -> bool
    requires belongs { work.old.table ≡ shared.now }
    requires none { (work.old.view.walked ≡ []) × (work.old.view.cursor ≡ 0) }
    requires bare { work.old.view.held ≡ Bare }
    ensures belongs { work.new.table ≡ work.old.table }
    ensures view { IsDetached work.old.view work.new.view result }
    ensures none { result ≡ false → all_back work.old.view.passes ≡ true → AllTaken work.old.view }
    ensures settled { SettledIf work.new.view }
    ensures cost { steps.new ≡ steps.old + 1 }
{
    steps.tick();
    let head = shared
        .table
        .shared
        .swap::<Detach>(&mut work.seat, 2 * shared.slots, 0);
    if head == 0 {
        return false;
    }
    work.trail.cursor = head;
    true
}

/// Loads the link at the cursor, and goes on to the next slot where it is set. It answers whether it was set.
pub fn walk<L: Ledger>(shared: &Shared, work: &mut Work, steps: &mut Steps<L>) -> bool
    requires belongs { work.old.table ≡ shared.now }
    requires more { 0 < work.old.view.cursor }
    ensures belongs { work.new.table ≡ work.old.table }
    ensures view { IsWalked work.old.view work.new.view result }
    ensures short { length work.old.view.walked + 1 ≤ shared.now.slots }
    ensures set { all_back work.old.view.passes ≡ true → result ≡ true }
    ensures settled { SettledIf work.new.view }
    ensures cost { steps.new ≡ steps.old + 1 }
{
    steps.tick();
    let slot = work.trail.cursor - 1;
    let link = shared
        .table
        .shared
        .load::<Walk>(&mut work.seat, shared.slots + slot as usize);
    if link == 0 {
        return false;
    }
    let Ok(()) = work.trail.slots.push(slot) else {
        unreachable!()
    };
    work.trail.cursor = link - 1;
    true
}

/// Takes the oldest slot of a chain that was walked to its end: its link becomes unset, and its cell comes out.
pub fn take_out<L: Ledger>(shared: &Shared, work: &mut Work, steps: &mut Steps<L>) -> Held
    requires belongs { work.old.table ≡ shared.now }
    requires walked { (0 < length work.old.view.walked) × (work.old.view.cursor ≡ 0) }
    requires bare { work.old.view.held ≡ Bare }
    ensures belongs { work.new.table ≡ work.old.table }
    ensures taken { IsTaken work.old.view work.new.view result }
    ensures settled { SettledIf work.new.view }
    ensures cost { steps.new ≡ steps.old + 2 }
{
    let slot = work.trail.slots.pop().unwrap() as usize;
    steps.tick();
    shared
        .table
        .shared
        .store::<TakeFirst>(&mut work.seat, shared.slots + slot, 0);
    steps.tick();
    let cell = shared
        .table
        .shared
        .exchange(&mut work.seat, slot, None)
        .unwrap();
    Held {
        slot,
        turn: cell.turn,
        cell,
    }
}

// The cell with an empty packet. Its memory stays.
fn emptied(cell: Cell) -> Cell
    ensures empty { result.packet.bytes.bytes ≡ [] }
    ensures room { cell.packet.bytes.room ≤ result.packet.bytes.room }
{
    let mut cell = cell;
    cell.packet.bytes.clear();
    cell
}

/// Puts the emptied packet back into its slot, and frees the slot.
pub fn put_back<L: Ledger>(shared: &Shared, held: Held, work: &mut Work, steps: &mut Steps<L>)
    requires belongs { work.old.table ≡ shared.now }
    requires own { work.old.view.held ≡ Full held.slot held.turn }
    requires room { work.old.view.room ≤ held.cell.packet.bytes.room }
    ensures work { work.new ≡ record work.old { view = with_given work.old.view } }
    ensures settled { SettledIf work.new.view }
    ensures cost { steps.new ≡ steps.old + 2 }
{
    let Held { slot, turn, cell } = held;
    let cell = emptied(cell);
    steps.tick();
    shared
        .table
        .shared
        .exchange(&mut work.seat, slot, Some(cell));
    steps.tick();
    shared
        .table
        .shared
        .store::<GiveBack>(&mut work.seat, slot, 2 * (turn + 1));
}
