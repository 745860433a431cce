//! A pass swaps its filled slot into the head, and then stores the slot's link.
ghost use Rattle.std.specs.Prelude.{◌≡◌, ◌+◌, ◌≤◌, [], length};
ghost use Rattle.ghes_rule.specs.declared.views.Stage.TheVariants.{Holding, Swapped};
ghost use Rattle.ghes_rule.specs.Moves.{with_push, without_claim, pushed_from};

use crate::pass::Pass;
use crate::plays::{Hang, Link};
use crate::shared::Shared;
use crate::steps::Claim;
use crate::views::Cell;
use ghes_call::Packet;
use ghes_steps::Steps;
use std::sync::ledger::Ledger;

/// What a push has in hand between its swap and its store.
pub struct Hung {
    pub slot: usize,
    /// What the swap of the head gave: 0 for none, or 1 more than a slot.
    pub old: u64,
    /// The empty packet that lay in the slot.
    pub spare: Packet,
}

/// Exchanges the slot's empty packet for this one, and swaps the slot into the head.
pub fn swap_in<L: Ledger>(
    shared: &Shared,
    claim: Claim,
    pass: &mut Pass,
    packet: Packet,
    steps: &mut Steps<L>,
) -> Hung
    requires belongs { pass.old.table ≡ shared.now }
    requires own { pass.old.view.stage ≡ Holding claim.slot claim.turn }
    requires short { length packet.bytes.bytes ≤ pass.old.view.room }
    requires room { pass.old.view.room ≤ packet.bytes.room }
    ensures belongs { pass.new.table ≡ pass.old.table }
    ensures pushed { pass.new.view ≡ with_push pass.old.view result.old (pushed_from pass.old.view.number claim.slot claim.turn packet) }
    ensures swapped { (result.slot ≡ claim.slot) × (pass.new.view.stage ≡ Swapped result.slot result.old) }
    ensures spare { (result.spare.bytes.bytes ≡ []) × (pass.old.view.room ≤ result.spare.bytes.room) }
    ensures cost { steps.new ≡ steps.old + 2 }
{
    let Claim { slot, turn } = claim;
    let cell = Cell {
        packet,
        pass: pass.number,
        turn,
    };
    steps.tick();
    let spare = shared
        .table
        .shared
        .exchange(&mut pass.seat, slot, Some(cell))
        .unwrap();
    steps.tick();
    let old = shared
        .table
        .shared
        .swap::<Hang>(&mut pass.seat, 2 * shared.slots, slot as u64 + 1);
    Hung {
        slot,
        old,
        spare: spare.packet,
    }
}

/// Stores the link of a slot that was swapped in: what the swap gave.
pub fn store_link<L: Ledger>(
    shared: &Shared,
    slot: usize,
    old: u64,
    pass: &mut Pass,
    steps: &mut Steps<L>,
)
    requires belongs { pass.old.table ≡ shared.now }
    requires own { pass.old.view.stage ≡ Swapped slot old }
    ensures pass { pass.new ≡ record pass.old { view = without_claim pass.old.view } }
    ensures cost { steps.new ≡ steps.old + 1 }
{
    steps.tick();
    shared
        .table
        .shared
        .store::<Link>(&mut pass.seat, shared.slots + slot, old + 1);
}
