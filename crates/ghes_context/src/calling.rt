//! One call, over the pass of its context.
ghost use Rattle.std.specs.Prelude.{◌≡◌, ◌≤◌, ◌<◌, ◌+◌, ◌^◌, None, length, is_some, IsTrue};
ghost use mathlib.Core.List.{IsPrefix};
ghost use Rattle.apei_base.specs.Firmware.{standing, standing_number};
ghost use Rattle.ghes_call.specs.Call.{outcome_of, outcome_of_news};
ghost use Rattle.ghes_call.specs.Receive.{IsOfSource};
ghost use Rattle.ghes_rule.specs.Moves.{with_load};
ghost use Rattle.ghes_rule.specs.declared.views.Stage.TheVariants.{Idle};
ghost use Rattle.ghes_throttle.specs.Reports.{hit};
ghost use Rattle.ghes_nmi.specs.Receive.{receive_seen, ack_seen};
ghost use Rattle.ghes_context.specs.Ends.{or_fault, left_by, ack_by, is_stopped, is_no_slot, saw_by, CountsCall};
ghost use Rattle.ghes_context.specs.Found.{standing_image, outcome_said, reason_said};
ghost use Rattle.ghes_context.specs.Told.{packet_of, told_by, HasTold, IsSeated, standing_packet};

use crate::ask::{Ask, Kept, untouched};
use crate::ending::{end_duplicate, end_fatal};
use crate::finding::{Found, find};
use crate::queueing::end_pending;
use apei_base::{BusFault, Firmware};
use ghes_call::{Buffer, Outcome, Reply};
use ghes_nmi::Examined;
use ghes_rule::{Pass, stopped};
use ghes_steps::Steps;
use ghes_throttle::ThrottleReader;
use std::sync::ledger::Ledger;

// A well-formed block that is not fatal: a look into the report cache, and the end of a duplicate or of news.
#[inline(always)]
fn end_news<P: Firmware, L: Ledger>(
    ask: &Ask<'_>,
    address: u64,
    pass: Pass,
    image: &mut Buffer,
    reader: &mut ThrottleReader,
    port: &mut P,
    steps: &mut Steps<L>,
) -> (Pass, Reply)
    requires source { IsOfSource (receive_seen ask.now.receive.now) (P.seen port.old).layout }
    requires at { address ≡ (P.seen port.old).layout.area }
    requires stands { IsTrue (is_some (standing (P.seen port.old))) }
    requires belongs { pass.table ≡ ask.now.shared.now }
    requires idle { pass.view.stage ≡ Idle }
    requires few { length pass.view.claims < 2 ^ 32 }
    requires short { length image.old.bytes ≤ pass.view.room }
    requires room { pass.view.room ≤ image.old.room }
    ensures outcome { result.1.outcome ≡ or_fault result.1.outcome
        (outcome_of_news ask.now.seq (hit reader.new.list image.old.bytes ask.now.time) (is_no_slot result.1.outcome)) }
    ensures port { P.seen port.new ≡ left_by (ack_seen ask.now.receive.now.ack) result.1 (P.seen port.old) }
    ensures ack { result.1.ack ≡ ack_by (ack_seen ask.now.receive.now.ack) result.1 }
    ensures count { CountsCall result.1.outcome result.1.ack (P.faults port.old) (P.faults port.new) }
    ensures belongs { result.0.table ≡ pass.table }
    ensures told { HasTold ask.now.shared.now.slots (packet_of ask.now.source ask.now.seq None image.old.bytes) pass.view result.0.view result.1.outcome }
    ensures seated { IsSeated pass.view result.0.view }
    ensures fatal { result.0.view.fatal ≡ pass.view.fatal }
    ensures room { pass.view.room ≤ image.new.room }
    ensures book { reader.new.book ≡ reader.old.book }
    ensures list { IsPrefix reader.old.list reader.new.list }
    ensures cost { steps.new ≤ steps.old + ask.now.shared.now.slots + 7 }
{
    steps.tick();
    match reader.look(image.as_slice(), ask.time) {
        Some(report) => {
            let reply = end_duplicate(ask, address, report, port, steps);
            (pass, reply)
        }
        None => end_pending(ask, address, None, pass, image, port, steps),
    }
}

// The end of a call that found a block.
#[inline(always)]
fn end_found<P: Firmware, L: Ledger>(
    ask: &Ask<'_>,
    found: Found,
    pass: Pass,
    image: &mut Buffer,
    reader: &mut ThrottleReader,
    fatal: &mut Kept,
    port: &mut P,
    steps: &mut Steps<L>,
) -> (Pass, Reply)
    requires source { IsOfSource (receive_seen ask.now.receive.now) (P.seen port.old).layout }
    requires at { found.address ≡ (P.seen port.old).layout.area }
    requires stands { IsTrue (is_some (standing (P.seen port.old))) }
    requires belongs { pass.table ≡ ask.now.shared.now }
    requires idle { pass.view.stage ≡ Idle }
    requires few { length pass.view.claims < 2 ^ 32 }
    requires short { length image.old.bytes ≤ pass.view.room }
    requires first { pass.view.fatal ≡ None }
    requires kept { told_by fatal.old ≡ None }
    requires rooms { (pass.view.room ≤ image.old.room) × (pass.view.room ≤ fatal.old.packet.bytes.room) }
    ensures outcome { result.1.outcome ≡ or_fault result.1.outcome
        (outcome_said ask.now.seq found.said (hit reader.new.list image.old.bytes ask.now.time) (is_no_slot result.1.outcome)) }
    ensures port { P.seen port.new ≡ left_by (ack_seen ask.now.receive.now.ack) result.1 (P.seen port.old) }
    ensures ack { result.1.ack ≡ ack_by (ack_seen ask.now.receive.now.ack) result.1 }
    ensures count { CountsCall result.1.outcome result.1.ack (P.faults port.old) (P.faults port.new) }
    ensures belongs { result.0.table ≡ pass.table }
    ensures told { HasTold ask.now.shared.now.slots (packet_of ask.now.source ask.now.seq (reason_said found.said) image.old.bytes) pass.view result.0.view result.1.outcome }
    ensures seated { IsSeated pass.view result.0.view }
    ensures kept { told_by fatal.new ≡ result.0.view.fatal }
    ensures rooms { (pass.view.room ≤ image.new.room) × (pass.view.room ≤ fatal.new.packet.bytes.room) }
    ensures book { reader.new.book ≡ reader.old.book }
    ensures list { IsPrefix reader.old.list reader.new.list }
    ensures cost { steps.new ≤ steps.old + ask.now.shared.now.slots + 7 }
{
    match found.said {
        Examined::Malformed(reason) => {
            end_pending(ask, found.address, Some(reason), pass, image, port, steps)
        }
        Examined::News => end_news(ask, found.address, pass, image, reader, port, steps),
        Examined::Fatal => end_fatal(ask, found.address, pass, image, fatal, port, steps),
    }
}

/// One call: at most so many steps as there are slots, and 11 more. It takes no memory and does not wait.
#[inline(always)]
pub(crate) fn call<P: Firmware, L: Ledger>(
    ask: &Ask<'_>,
    pass: Pass,
    image: &mut Buffer,
    reader: &mut ThrottleReader,
    fatal: &mut Kept,
    port: &mut P,
    steps: &mut Steps<L>,
) -> (Pass, Reply)
    requires source { IsOfSource (receive_seen ask.now.receive.now) (P.seen port.old).layout }
    requires number { ask.now.seq ≡ standing_number (P.seen port.old) }
    requires header { 20 ≤ ask.now.receive.now.limit }
    requires limit { ask.now.receive.now.limit ≤ pass.view.room }
    requires belongs { pass.table ≡ ask.now.shared.now }
    requires idle { pass.view.stage ≡ Idle }
    requires few { length pass.view.claims < 2 ^ 32 }
    requires kept { told_by fatal.old ≡ pass.view.fatal }
    requires rooms { (pass.view.room ≤ image.old.room) × (pass.view.room ≤ fatal.old.packet.bytes.room) }
    ensures outcome { result.1.outcome ≡ outcome_of ask.now.receive.now.limit
        (saw_by (P.seen port.old) (hit reader.new.list (standing_image ask.now.receive.now.limit (P.seen port.old)) ask.now.time) result.1) }
    ensures port { P.seen port.new ≡ left_by (ack_seen ask.now.receive.now.ack) result.1 (P.seen port.old) }
    ensures ack { result.1.ack ≡ ack_by (ack_seen ask.now.receive.now.ack) result.1 }
    ensures count { CountsCall result.1.outcome result.1.ack (P.faults port.old) (P.faults port.new) }
    ensures belongs { result.0.table ≡ pass.table }
    ensures told { HasTold ask.now.shared.now.slots (standing_packet ask.now.source ask.now.receive.now.limit (P.seen port.old))
        (with_load pass.view (is_stopped result.1.outcome)) result.0.view result.1.outcome }
    ensures seated { IsSeated pass.view result.0.view }
    ensures kept { told_by fatal.new ≡ result.0.view.fatal }
    ensures rooms { (pass.view.room ≤ image.new.room) × (pass.view.room ≤ fatal.new.packet.bytes.room) }
    ensures book { reader.new.book ≡ reader.old.book }
    ensures list { IsPrefix reader.old.list reader.new.list }
    ensures cost { steps.new ≤ steps.old + ask.now.shared.now.slots + 11 }
{
    let (pass, set) = stopped(ask.shared, pass, steps);
    if set {
        return (pass, untouched(Outcome::Stopped));
    }
    match find(ask.receive, image, port, steps) {
        Err(BusFault) => (pass, untouched(Outcome::Fault)),
        Ok(None) => (pass, untouched(Outcome::Nothing)),
        Ok(Some(found)) => end_found(ask, found, pass, image, reader, fatal, port, steps),
    }
}
