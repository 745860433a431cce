//! The push.
ghost use Rattle.std.specs.Prelude.{◌≡◌, ℕ, ◌+◌, ◌≤◌, [], length};
ghost use Rattle.ghes_rule.specs.declared.views.Stage.TheVariants.{Holding};
ghost use Rattle.ghes_rule.specs.Moves.{with_push, without_claim, pushed_from};
ghost use Rattle.ghes_chain.specs.Push.{after_push};

use ghes_call::Packet;
use ghes_rule::{Claim, Hung, Pass, Shared, store_link, swap_in};
use ghes_steps::Steps;
use std::marker::Model;
use std::sync::ledger::Ledger;

/// A push that is half made: the slot hangs at the head, and its link is not stored. A contract sees its pass.
///
/// It must be spent by the end of the push. Source: own choice.
pub struct Swapped {
    pass: Pass,
    hung: Hung,
}

impl Model for Swapped {
    ghost use Rattle.ghes_rule.specs.Seen.{PassSeen};
    ghost use Rattle.ghes_chain.specs.Push.{IsHalf};

    ghost Value = { PassSeen };

    ghost view = { λ s. s.pass };

    ghost invariant = { λ s. IsHalf s.pass.view s.hung };
}

/// Puts the packet into the slot of a claim of this pass and swaps the slot into the head: one exchange and one swap.
///
/// From then on the block is pending. It cannot fail. Source: own choice.
pub fn begin_push<L: Ledger>(
    shared: &Shared,
    claim: Claim,
    pass: Pass,
    packet: Packet,
    steps: &mut Steps<L>,
) -> Swapped
    requires belongs { pass.table ≡ shared.now }
    requires own { pass.view.stage ≡ Holding claim.slot claim.turn }
    requires short { length packet.bytes.bytes ≤ pass.view.room }
    requires room { pass.view.room ≤ packet.bytes.room }
    ensures belongs { result.table ≡ pass.table }
    ensures pushed { (old : ℕ) × (result.view ≡ with_push pass.view old (pushed_from pass.view.number claim.slot claim.turn packet)) }
    ensures cost { steps.new ≡ steps.old + 2 }
{
    let mut pass = pass;
    let hung = swap_in(shared, claim, &mut pass, packet, steps);
    Swapped { pass, hung }
}

/// Stores the link, and gives an empty packet back. It cannot fail.
pub fn end_push<L: Ledger>(
    shared: &Shared,
    swapped: Swapped,
    steps: &mut Steps<L>,
) -> (Pass, Packet)
    requires belongs { swapped.table ≡ shared.now }
    ensures pass { result.0 ≡ record swapped { view = without_claim swapped.view } }
    ensures spare { (result.1.bytes.bytes ≡ []) × (swapped.view.room ≤ result.1.bytes.room) }
    ensures cost { steps.new ≡ steps.old + 1 }
{
    let Swapped { pass, hung } = swapped;
    let mut pass = pass;
    let Hung { slot, old, spare } = hung;
    store_link(shared, slot, old, &mut pass, steps);
    (pass, spare)
}

/// Makes the packet pending, under a claim of this pass, and gives an empty packet back. It cannot fail.
pub fn push<L: Ledger>(
    shared: &Shared,
    claim: Claim,
    pass: Pass,
    packet: Packet,
    steps: &mut Steps<L>,
) -> (Pass, Packet)
    requires belongs { pass.table ≡ shared.now }
    requires own { pass.view.stage ≡ Holding claim.slot claim.turn }
    requires short { length packet.bytes.bytes ≤ pass.view.room }
    requires room { pass.view.room ≤ packet.bytes.room }
    ensures belongs { result.0.table ≡ pass.table }
    ensures pushed { result.0.view ≡ after_push pass.view (pushed_from pass.view.number claim.slot claim.turn packet) }
    ensures spare { (result.1.bytes.bytes ≡ []) × (pass.view.room ≤ result.1.bytes.room) }
    ensures cost { steps.new ≡ steps.old + 3 }
{
    let swapped = begin_push(shared, claim, pass, packet, steps);
    end_push(shared, swapped, steps)
}
