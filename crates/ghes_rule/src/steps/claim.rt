//! A pass claims a slot, and gives its claim up.
ghost use Rattle.std.specs.Prelude.{◌≡◌, ℕ, ◌+◌, ◌^◌, ◌<◌, ◌≤◌, length, slice_index, IfSome, IfNone};
ghost use Rattle.ghes_rule.specs.declared.views.Stage.TheVariants.{Idle, Holding};
ghost use Rattle.ghes_rule.specs.Moves.{with_claim, with_found, without_claim};

use crate::pass::Pass;
use crate::plays::{Free, Try};
use crate::shared::Shared;
use ghes_steps::Steps;
use std::sync::ledger::Ledger;

/// The right to a slot. It must be spent: by a release or by a push.
pub struct Claim {
    pub slot: usize,
    /// How many claims of the slot ended before this one.
    pub turn: u64,
}

/// One fetch_or of 1 on the word of a slot. It gives a claim where the slot was free.
pub fn try_slot<L: Ledger>(
    shared: &Shared,
    pass: &mut Pass,
    slot: usize,
    steps: &mut Steps<L>,
) -> Option<Claim>
    requires belongs { pass.old.table ≡ shared.now }
    requires idle { pass.old.view.stage ≡ Idle }
    requires few { length pass.old.view.claims < 2 ^ 32 }
    requires slot { slot < shared.now.slots }
    ensures belongs { pass.new.table ≡ pass.old.table }
    ensures claimed { IfSome result (λ claim. (claim.slot ≡ slot) × (pass.new.view ≡ with_claim pass.old.view slot claim.turn)) }
    ensures found { IfNone result ((g : ℕ) × (slice_index pass.old.view.since slot ≤ g) × (pass.new.view ≡ with_found pass.old.view slot g)) }
    ensures cost { steps.new ≡ steps.old + 1 }
{
    steps.tick();
    let word = shared.table.shared.fetch_or::<Try>(&mut pass.seat, slot, 1);
    if word % 2 == 0 {
        Some(Claim {
            slot,
            turn: word / 2,
        })
    } else {
        None
    }
}

/// Gives a claim up, by one store of twice the number of claims that have ended then.
pub fn free_slot<L: Ledger>(shared: &Shared, claim: Claim, pass: &mut Pass, steps: &mut Steps<L>)
    requires belongs { pass.old.table ≡ shared.now }
    requires own { pass.old.view.stage ≡ Holding claim.slot claim.turn }
    ensures pass { pass.new ≡ record pass.old { view = without_claim pass.old.view } }
    ensures cost { steps.new ≡ steps.old + 1 }
{
    steps.tick();
    let Claim { slot, turn } = claim;
    shared
        .table
        .shared
        .store::<Free>(&mut pass.seat, slot, 2 * (turn + 1));
}
