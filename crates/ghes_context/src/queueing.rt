//! The end of a call that needs a slot: a block that is news, or malformed.
ghost use Rattle.std.specs.Prelude.{◌≡◌, ◌≤◌, ◌<◌, ◌+◌, ◌^◌, None, true, false, length, is_some, IsTrue};
ghost use Rattle.apei_base.specs.Firmware.{standing};
ghost use Rattle.ghes_call.specs.Call.{outcome_of_image};
ghost use Rattle.ghes_call.specs.Receive.{IsOfSource};
ghost use Rattle.ghes_rule.specs.declared.views.Stage.TheVariants.{Idle, Holding};
ghost use Rattle.ghes_nmi.specs.Receive.{receive_seen, ack_seen};
ghost use Rattle.ghes_context.specs.Ends.{or_fault, left_by, ack_by, is_no_slot, CountsCall};
ghost use Rattle.ghes_chain.specs.Push.{after_push};
ghost use Rattle.ghes_context.specs.Told.{packet_of, push_by, slot_spent, HasTold, IsSeated};

use crate::ask::{Ask, untouched};
use apei_base::Firmware;
use core::mem::replace;
use cper_block::Malformed;
use ghes_call::{Buffer, Outcome, Packet, Reply};
use ghes_chain::push;
use ghes_nmi::{acknowledge, clear};
use ghes_pool::{Claimed, claim, release};
use ghes_rule::{Claim, Pass};
use ghes_steps::Steps;
use std::sync::ledger::Ledger;

// What a block that was acknowledged and is pending is answered with.
#[inline(always)]
fn pending(seq: u32, reason: Option<Malformed>) -> Outcome
    ensures { result ≡ outcome_of_image seq reason false None false }
{
    match reason {
        None => Outcome::Queued(seq),
        Some(reason) => Outcome::Malformed(seq, reason),
    }
}

// Makes the image pending in the slot of a claim, and leaves an empty buffer.
#[inline(always)]
fn put<L: Ledger>(
    ask: &Ask<'_>,
    reason: Option<Malformed>,
    claim: Claim,
    pass: Pass,
    image: &mut Buffer,
    steps: &mut Steps<L>,
) -> Pass
    requires belongs { pass.table ≡ ask.now.shared.now }
    requires own { pass.view.stage ≡ Holding claim.slot claim.turn }
    requires short { length image.old.bytes ≤ pass.view.room }
    requires room { pass.view.room ≤ image.old.room }
    ensures belongs { result.table ≡ pass.table }
    ensures view { result.view ≡ after_push pass.view (push_by pass.view claim.slot claim.turn (packet_of ask.now.source ask.now.seq reason image.old.bytes)) }
    ensures room { pass.view.room ≤ image.new.room }
    ensures cost { steps.new ≡ steps.old + 3 }
{
    let unused = Buffer::none(*image.memory.allocator());
    let packet = Packet {
        source: ask.source,
        seq: ask.seq,
        reason,
        bytes: replace(image, unused),
    };
    let (pass, spare) = push(ask.shared, claim, pass, packet, steps);
    *image = spare.bytes;
    pass
}

// Clears the block whose slot is claimed, makes it pending, and acknowledges it. Where the clear fails the claim is given up.
#[inline(always)]
fn use_slot<P: Firmware, L: Ledger>(
    ask: &Ask<'_>,
    address: u64,
    reason: Option<Malformed>,
    claim: Claim,
    pass: Pass,
    image: &mut Buffer,
    port: &mut P,
    steps: &mut Steps<L>,
) -> (Pass, Reply)
    requires source { IsOfSource (receive_seen ask.now.receive.now) (P.seen port.old).layout }
    requires at { address ≡ (P.seen port.old).layout.area }
    requires stands { IsTrue (is_some (standing (P.seen port.old))) }
    requires belongs { pass.table ≡ ask.now.shared.now }
    requires own { pass.view.stage ≡ Holding claim.slot claim.turn }
    requires short { length image.old.bytes ≤ pass.view.room }
    requires room { pass.view.room ≤ image.old.room }
    ensures outcome { result.1.outcome
        ≡ or_fault result.1.outcome (outcome_of_image ask.now.seq reason false None false) }
    ensures port { P.seen port.new ≡ left_by (ack_seen ask.now.receive.now.ack) result.1 (P.seen port.old) }
    ensures ack { result.1.ack ≡ ack_by (ack_seen ask.now.receive.now.ack) result.1 }
    ensures count { CountsCall result.1.outcome result.1.ack (P.faults port.old) (P.faults port.new) }
    ensures belongs { result.0.table ≡ pass.table }
    ensures view { result.0.view ≡ slot_spent result.1.outcome claim.slot claim.turn (packet_of ask.now.source ask.now.seq reason image.old.bytes) pass.view }
    ensures room { pass.view.room ≤ image.new.room }
    ensures cost { steps.new ≤ steps.old + 6 }
{
    if clear(address, port, steps).is_err() {
        let pass = release(ask.shared, claim, pass, steps);
        return (pass, untouched(Outcome::Fault));
    }
    let pass = put(ask, reason, claim, pass, image, steps);
    let reply = Reply {
        outcome: pending(ask.seq, reason),
        ack: acknowledge(&ask.receive.ack, port, steps),
    };
    (pass, reply)
}

/// Claims a slot, clears the block, makes it pending, and acknowledges it: in this order, so that a block for which there is no slot
/// stays with firmware.
#[inline(always)]
pub(crate) fn end_pending<P: Firmware, L: Ledger>(
    ask: &Ask<'_>,
    address: u64,
    reason: Option<Malformed>,
    pass: Pass,
    image: &mut Buffer,
    port: &mut P,
    steps: &mut Steps<L>,
) -> (Pass, Reply)
    requires source { IsOfSource (receive_seen ask.now.receive.now) (P.seen port.old).layout }
    requires at { address ≡ (P.seen port.old).layout.area }
    requires stands { IsTrue (is_some (standing (P.seen port.old))) }
    requires belongs { pass.table ≡ ask.now.shared.now }
    requires idle { pass.view.stage ≡ Idle }
    requires few { length pass.view.claims < 2 ^ 32 }
    requires short { length image.old.bytes ≤ pass.view.room }
    requires room { pass.view.room ≤ image.old.room }
    ensures outcome { result.1.outcome
        ≡ or_fault result.1.outcome (outcome_of_image ask.now.seq reason false None (is_no_slot result.1.outcome)) }
    ensures port { P.seen port.new ≡ left_by (ack_seen ask.now.receive.now.ack) result.1 (P.seen port.old) }
    ensures ack { result.1.ack ≡ ack_by (ack_seen ask.now.receive.now.ack) result.1 }
    ensures count { CountsCall result.1.outcome result.1.ack (P.faults port.old) (P.faults port.new) }
    ensures belongs { result.0.table ≡ pass.table }
    ensures told { HasTold ask.now.shared.now.slots (packet_of ask.now.source ask.now.seq reason image.old.bytes) pass.view result.0.view result.1.outcome }
    ensures seated { IsSeated pass.view result.0.view }
    ensures fatal { result.0.view.fatal ≡ pass.view.fatal }
    ensures room { pass.view.room ≤ image.new.room }
    ensures cost { steps.new ≤ steps.old + ask.now.shared.now.slots + 6 }
{
    let (pass, claimed) = claim(ask.shared, pass, steps);
    match claimed {
        Claimed::AllTaken => (pass, untouched(Outcome::NoSlot)),
        Claimed::Slot(claim) => use_slot(ask, address, reason, claim, pass, image, port, steps),
    }
}
