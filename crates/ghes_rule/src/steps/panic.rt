//! The panic word: a pass sets it for its fatal block, and passes and decoder load it.
ghost use Rattle.std.specs.Prelude.{◌≡◌, ◌+◌, true, Some, None};
ghost use Rattle.ghes_rule.specs.declared.views.PacketView.{PacketView};
ghost use Rattle.ghes_rule.specs.declared.views.Stage.TheVariants.{Idle};
ghost use Rattle.ghes_rule.specs.Kept.{packet_view};
ghost use Rattle.ghes_rule.specs.Moves.{with_load, with_look, with_fatal, SettledIf};

use crate::pass::Pass;
use crate::plays::{Fatal, Look, Overlook, Stop};
use crate::shared::Shared;
use crate::work::Work;
use ghes_call::Packet;
use ghes_steps::Steps;
use std::marker::Brand;
use std::sync::ledger::Ledger;

/// Whether the panic word is set, by one load of a pass. It is where this pass has a fatal block.
///
/// After Linux 6.1, drivers/acpi/apei/ghes.c, where a fatal block ends the machine. That others look is an own choice.
pub fn stopped<L: Ledger>(shared: &Shared, pass: Pass, steps: &mut Steps<L>) -> (Pass, bool)
    requires belongs { pass.table ≡ shared.now }
    ensures pass { result.0 ≡ record pass { view = with_load pass.view result.1 } }
    ensures own { (x : PacketView) → pass.view.fatal ≡ Some x → result.1 ≡ true }
    ensures cost { steps.new ≡ steps.old + 1 }
{
    let mut pass = pass;
    let set = look(shared, &mut pass, steps);
    (pass, set)
}

// One load of the panic word by a pass.
fn look<L: Ledger>(shared: &Shared, pass: &mut Pass, steps: &mut Steps<L>) -> bool
    requires belongs { pass.old.table ≡ shared.now }
    ensures pass { pass.new ≡ record pass.old { view = with_load pass.old.view result } }
    ensures own { (x : PacketView) → pass.old.view.fatal ≡ Some x → result ≡ true }
    ensures cost { steps.new ≡ steps.old + 1 }
{
    steps.tick();
    let word = shared
        .table
        .shared
        .load::<Look>(&mut pass.seat, 2 * shared.slots + 1);
    word == 1
}

/// Whether the panic word is set, by one load of the decoder.
pub fn work_stopped<L: Ledger>(shared: &Shared, work: &mut Work, steps: &mut Steps<L>) -> bool
    requires belongs { work.old.table ≡ shared.now }
    ensures work { work.new ≡ record work.old { view = with_look work.old.view result } }
    ensures settled { SettledIf work.new.view }
    ensures cost { steps.new ≡ steps.old + 1 }
{
    steps.tick();
    let word = shared
        .table
        .shared
        .load::<Overlook>(&mut work.seat, 2 * shared.slots + 1);
    word == 1
}

/// Sets the panic word, by one swap, and makes the packet the fatal block of the pass, which has none and holds no claim.
pub fn set_panic<L: Ledger>(
    shared: &Shared,
    pass: Pass,
    fatal: &Packet,
    steps: &mut Steps<L>,
) -> Pass
    requires belongs { pass.table ≡ shared.now }
    requires idle { pass.view.stage ≡ Idle }
    requires first { pass.view.fatal ≡ None }
    ensures pass { result ≡ record pass { view = with_fatal pass.view (packet_view fatal.now) } }
    ensures cost { steps.new ≡ steps.old + 1 }
{
    let mut pass = pass;
    steps.tick();
    set_word::<Brand>(shared, &mut pass, fatal);
    pass
}

// One swap of the panic word. The block is the proof's alone.
fn set_word<B: Fatal>(shared: &Shared, pass: &mut Pass, fatal: &Packet)
    requires belongs { pass.old.table ≡ shared.now }
    requires block { B.packet ≡ packet_view fatal.now }
    ensures pass { pass.new ≡ record pass.old { view = with_fatal pass.old.view (packet_view fatal.now) } }
{
    let _block = fatal;
    shared
        .table
        .shared
        .swap::<Stop<B>>(&mut pass.seat, 2 * shared.slots + 1, 1);
}
