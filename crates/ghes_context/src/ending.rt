//! Ends of a call that need no slot: a block that a report has told before, and a fatal one.
ghost use Rattle.std.specs.Prelude.{◌≡◌, ◌≤◌, ◌+◌, Some, None, is_some, IsTrue};
ghost use Rattle.apei_base.specs.Firmware.{standing};
ghost use Rattle.ghes_call.specs.Receive.{IsOfSource};
ghost use Rattle.ghes_call.specs.declared.call.Outcome.TheVariants as answers;
ghost use Rattle.ghes_rule.specs.declared.views.Stage.TheVariants.{Idle};
ghost use Rattle.ghes_nmi.specs.Receive.{receive_seen, ack_seen};
ghost use Rattle.ghes_context.specs.Ends.{or_fault, left_by, ack_by, CountsCall};
ghost use Rattle.ghes_rule.specs.Moves.{with_fatal};
ghost use Rattle.ghes_context.specs.Told.{packet_of, told_by, stopped_by};

use crate::ask::{Ask, Kept, untouched};
use apei_base::Firmware;
use core::mem::swap;
use ghes_call::{Buffer, Outcome, Reply};
use ghes_nmi::{acknowledge, clear};
use ghes_rule::{Pass, set_panic};
use ghes_steps::Steps;
use std::sync::ledger::Ledger;

/// Clears and acknowledges a block that the report of this number has told before.
#[inline(always)]
pub(crate) fn end_duplicate<P: Firmware, L: Ledger>(
    ask: &Ask<'_>,
    address: u64,
    report: u64,
    port: &mut P,
    steps: &mut Steps<L>,
) -> Reply
    requires source { IsOfSource (receive_seen ask.now.receive.now) (P.seen port.old).layout }
    requires at { address ≡ (P.seen port.old).layout.area }
    requires stands { IsTrue (is_some (standing (P.seen port.old))) }
    ensures outcome { result.outcome ≡ or_fault result.outcome (answers.Duplicate ask.now.seq report) }
    ensures port { P.seen port.new ≡ left_by (ack_seen ask.now.receive.now.ack) result (P.seen port.old) }
    ensures ack { result.ack ≡ ack_by (ack_seen ask.now.receive.now.ack) result }
    ensures count { CountsCall result.outcome result.ack (P.faults port.old) (P.faults port.new) }
    ensures cost { steps.new ≤ steps.old + 3 }
{
    if clear(address, port, steps).is_err() {
        return untouched(Outcome::Fault);
    }
    Reply {
        outcome: Outcome::Duplicate(ask.seq, report),
        ack: acknowledge(&ask.receive.ack, port, steps),
    }
}

// Keeps the image as the fatal block of the context, and sets the panic word. The buffers change places.
#[inline(always)]
fn keep_fatal<L: Ledger>(
    ask: &Ask<'_>,
    pass: Pass,
    image: &mut Buffer,
    fatal: &mut Kept,
    steps: &mut Steps<L>,
) -> Pass
    requires belongs { pass.table ≡ ask.now.shared.now }
    requires idle { pass.view.stage ≡ Idle }
    requires first { pass.view.fatal ≡ None }
    ensures pass { result ≡ record pass { view = with_fatal pass.view (packet_of ask.now.source ask.now.seq None image.old.bytes) } }
    ensures kept { told_by fatal.new ≡ Some (packet_of ask.now.source ask.now.seq None image.old.bytes) }
    ensures rooms { (image.new.room ≡ fatal.old.packet.bytes.room) × (fatal.new.packet.bytes.room ≡ image.old.room) }
    ensures cost { steps.new ≡ steps.old + 1 }
{
    swap(image, &mut fatal.packet.bytes);
    fatal.packet.source = ask.source;
    fatal.packet.seq = ask.seq;
    fatal.packet.reason = None;
    fatal.is_some = true;
    set_panic(ask.shared, pass, &fatal.packet, steps)
}

/// Clears a fatal block, keeps its image, sets the panic word, and acknowledges the block. It needs no slot.
#[inline(always)]
pub(crate) fn end_fatal<P: Firmware, L: Ledger>(
    ask: &Ask<'_>,
    address: u64,
    pass: Pass,
    image: &mut Buffer,
    fatal: &mut Kept,
    port: &mut P,
    steps: &mut Steps<L>,
) -> (Pass, Reply)
    requires source { IsOfSource (receive_seen ask.now.receive.now) (P.seen port.old).layout }
    requires at { address ≡ (P.seen port.old).layout.area }
    requires stands { IsTrue (is_some (standing (P.seen port.old))) }
    requires belongs { pass.table ≡ ask.now.shared.now }
    requires idle { pass.view.stage ≡ Idle }
    requires first { pass.view.fatal ≡ None }
    requires kept { told_by fatal.old ≡ None }
    requires rooms { (pass.view.room ≤ image.old.room) × (pass.view.room ≤ fatal.old.packet.bytes.room) }
    ensures outcome { result.1.outcome ≡ or_fault result.1.outcome (answers.Fatal ask.now.seq) }
    ensures port { P.seen port.new ≡ left_by (ack_seen ask.now.receive.now.ack) result.1 (P.seen port.old) }
    ensures ack { result.1.ack ≡ ack_by (ack_seen ask.now.receive.now.ack) result.1 }
    ensures count { CountsCall result.1.outcome result.1.ack (P.faults port.old) (P.faults port.new) }
    ensures pass { result.0 ≡ record pass { view = stopped_by result.1.outcome (packet_of ask.now.source ask.now.seq None image.old.bytes) pass.view } }
    ensures kept { told_by fatal.new ≡ result.0.view.fatal }
    ensures rooms { (pass.view.room ≤ image.new.room) × (pass.view.room ≤ fatal.new.packet.bytes.room) }
    ensures cost { steps.new ≤ steps.old + 4 }
{
    if clear(address, port, steps).is_err() {
        return (pass, untouched(Outcome::Fault));
    }
    let pass = keep_fatal(ask, pass, image, fatal, steps);
    let reply = Reply {
        outcome: Outcome::Fatal(ask.seq),
        ack: acknowledge(&ask.receive.ack, port, steps),
    };
    (pass, reply)
}
