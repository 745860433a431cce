//! The search for a free slot, and the release of a claim.
ghost use Rattle.std.specs.Prelude.{◌≡◌, ◌+◌, ◌^◌, ◌<◌, ◌≤◌, length};
ghost use Rattle.ghes_rule.specs.declared.views.Stage.TheVariants.{Idle, Holding};
ghost use Rattle.ghes_rule.specs.Moves.{without_claim};
ghost use Rattle.ghes_pool.specs.Search.{HasSearched};

use ghes_rule::{Claim, Pass, Shared, free_slot, try_slot};
use ghes_steps::Steps;
use std::sync::ledger::Ledger;

/// What a search answers.
pub enum Claimed {
    /// The first slot that was found free.
    Slot(Claim),
    /// Each slot was found taken.
    AllTaken,
}

/// Claims the first slot that it finds free, by at most one fetch_or of 1 per slot, in slot order.
///
/// The pass holds no claim, and has made fewer than 2^32. Source: own choice.
pub fn claim<L: Ledger>(shared: &Shared, pass: Pass, steps: &mut Steps<L>) -> (Pass, Claimed)
    requires belongs { pass.table ≡ shared.now }
    requires idle { pass.view.stage ≡ Idle }
    requires few { length pass.view.claims < 2 ^ 32 }
    ensures belongs { result.0.table ≡ pass.table }
    ensures found { HasSearched shared.now.slots pass.view result.0.view result.1 }
    ensures counted { steps.new + pass.view.steps ≡ steps.old + result.0.view.steps }
    ensures cost { steps.new ≤ steps.old + shared.now.slots }
{
    let mut pass = pass;
    for slot in 0..shared.slots() {
        if let Some(claim) = try_slot(shared, &mut pass, slot, steps) {
            return (pass, Claimed::Slot(claim));
        }
    }
    (pass, Claimed::AllTaken)
}

/// Gives a claim of this pass up, by one store.
pub fn release<L: Ledger>(shared: &Shared, claim: Claim, pass: Pass, steps: &mut Steps<L>) -> Pass
    requires belongs { pass.table ≡ shared.now }
    requires own { pass.view.stage ≡ Holding claim.slot claim.turn }
    ensures pass { result ≡ record pass { view = without_claim pass.view } }
    ensures cost { steps.new ≡ steps.old + 1 }
{
    let mut pass = pass;
    free_slot(shared, claim, &mut pass, steps);
    pass
}
