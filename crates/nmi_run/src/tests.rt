//! Calls on a source of version 2, whose accesses fail in turn, and beside a claim; a person worked the answers out from the rules.
mod setting;

ghost use Rattle.std.specs.Prelude.{◌≡◌, ◌^◌, ◌<◌, ◌≤◌, [], length};
ghost use Rattle.fw_port.specs.Port.{seen};
ghost use Rattle.ghes_rule.specs.declared.views.Hand.TheVariants.{Bare};
ghost use Rattle.ghes_rule.specs.declared.views.Stage.TheVariants.{Idle, Holding};
ghost use Rattle.ghes_context.specs.Nmi.{IsPortOf};

use cper_block::Malformed;
use fw_port::SourcePort;
use ghes_call::{AckState, Outcome, Reply};
use ghes_chain::{Took, give, take};
use ghes_context::Context;
use ghes_pool::{Claim, Claimed, claim, release};
use ghes_rule::{Pass, Shared, Work};
use ghes_steps::Steps;
use ghes_throttle::throttle;
use setting::{BLOCK, CELL, FATAL, LIMIT, TOO_LONG, called, last, placed, raised, seated_at};
use std::alloc::{AllocError, Global};
use std::marker::Brand;
use std::process::Abort;
use std::sync::Wait;
use std::sync::ledger::{Blank, Ledger};
use std::test::Fail;

// The number of the packet that is taken, 0 for nothing.
fn taken<L: Ledger>(shared: &Shared, work: &mut Work, steps: &mut Steps<L>) -> u32
    requires { (work.old.table ≡ shared.now) × (work.old.view.held ≡ Bare) }
    ensures { (work.new.table ≡ work.old.table) × (work.new.view.held ≡ Bare) }
{
    match take(shared, work, steps) {
        Took::Packet(held) => {
            let number = held.packet().seq;
            give(shared, held, work, steps);
            number
        }
        Took::Empty | Took::Again => 0,
    }
}

/// What is seen behind a call, and what a second one answers.
#[derive(Clone, Copy, Debug, PartialEq, Eq)]
struct Answer {
    outcome: Outcome,
    ack: AckState,
    acknowledged: u32,
    /// What the read ack register holds.
    cell: Option<u64>,
    /// The number of the packet that is pending behind the first call, 0 for none.
    pending: u32,
    again: Outcome,
}

// Two calls, and a take behind the first.
fn calls<L: Ledger>(
    blank: Blank,
    shared: &Shared,
    work: Work,
    context: Context,
    port: SourcePort,
) -> Answer
    requires blank { (blank.name ≡ L.name) × (blank.parts ≡ L.parts) × (0 < blank.parts) }
    requires work { (work.table ≡ shared.now) × (work.view.held ≡ Bare) }
    requires belongs { (context.pass.table ≡ shared.now) × (context.pass.view.claims ≡ []) }
    requires room { (0 < length context.sources) × (context.calls ≡ []) × (2 ≤ context.room) }
    requires port { IsPortOf context 0 (seen port) }
{
    let mut steps = Steps::<L>::new(blank);
    let mut work = work;
    let mut context = context;
    let mut port = port;
    let Reply { outcome, ack } = called(shared, &mut context, &mut port, &mut steps);
    let (acknowledged, cell) = (port.acknowledged(), port.ack_cell());
    let pending = taken(shared, &mut work, &mut steps);
    let again = called(shared, &mut context, &mut port, &mut steps).outcome;
    Answer {
        outcome,
        ack,
        acknowledged,
        cell,
        pending,
        again,
    }
}

// Two calls with one slot, where the access of this number fails.
fn answered<R: Abort + Wait>(rt: &R, alloc: Global, failing: u64) -> Result<Answer, AllocError> {
    let block = raised(rt, alloc, BLOCK);
    let (shared, work, mut passes) = Shared::build(alloc, 1, LIMIT, 1)?;
    let pass = last(rt, &shared, &mut passes);
    let (port, receive) = placed(alloc, block.as_slice(), failing)?;
    let (writer, mut readers) = throttle(rt, alloc, LIMIT, 1)?;
    let reader = readers.pop().expect(rt, "a reader");
    let context = seated_at(rt, alloc, &port, pass, reader, receive);
    let answer = calls::<Brand>(Blank::new(1), &shared, work, context, port);
    writer.end(rt);
    Ok(answer)
}

const NEWS: Outcome = Outcome::Queued(1);

const NO: AckState = AckState::NotAsked;

// The access that fails, and behind the call: its reply, how many blocks are acknowledged, what the read ack register holds, and
// the number of what is pending. At the end what a second call answers: the only slot is free again where nothing is pending, and
// the second block stands only behind an acknowledgement. The seventh access is the first of the second call.
type Row = (u64, Outcome, AckState, u32, u64, u32, Outcome);

#[rattlefmt::skip]
const ROWS: [Row; 8] = [
    (0, NEWS, AckState::Done, 1, 0xabcd_00f1, 1, Outcome::Queued(2)),
    (1, Outcome::Fault, NO, 0, CELL, 0, NEWS),
    (2, Outcome::Fault, NO, 0, CELL, 0, NEWS),
    (3, Outcome::Fault, NO, 0, CELL, 0, NEWS),
    (4, Outcome::Fault, NO, 0, CELL, 0, NEWS),
    (5, NEWS, AckState::Failed, 1, CELL, 1, Outcome::Nothing),
    (6, NEWS, AckState::Failed, 1, CELL, 1, Outcome::Nothing),
    (7, NEWS, AckState::Done, 1, 0xabcd_00f1, 1, Outcome::Fault),
];

#[test]
fn each_access_of_a_call_fails_in_turn(rt: HostRuntime) -> Result<(), Fail> {
    for row in &ROWS {
        let (failing, outcome, ack, acknowledged, cell, pending, again) = *row;
        let wanted = Answer {
            outcome,
            ack,
            acknowledged,
            cell: Some(cell),
            pending,
            again,
        };
        let answer = answered(&rt, rt.alloc(), failing)?;
        assert_eq!(rt; answer, wanted, "access {failing} fails");
    }
    Ok(())
}

// The claim of the only slot.
fn held<R: Abort, L: Ledger>(
    rt: &R,
    shared: &Shared,
    pass: Pass,
    steps: &mut Steps<L>,
) -> (Pass, Claim)
    requires { (pass.table ≡ shared.now) × (pass.view.stage ≡ Idle) × (length pass.view.claims < 2 ^ 32) }
    ensures { (result.0.table ≡ shared.now) × (result.0.view.stage ≡ Holding result.1.slot result.1.turn) }
{
    let (pass, claimed) = claim(shared, pass, steps);
    match claimed {
        Claimed::Slot(claim) => (pass, claim),
        Claimed::AllTaken => panic!(rt; "no slot was free"),
    }
}

/// What a call answers while another pass holds the only slot, and what a second one answers behind its release.
#[derive(Clone, Copy, Debug, PartialEq, Eq)]
struct Beside {
    reply: Reply,
    acknowledged: u32,
    again: Outcome,
}

// A call while the other pass holds the only slot, and one behind its release.
fn beside_a_claim<R: Abort, L: Ledger>(
    rt: &R,
    blank: Blank,
    shared: &Shared,
    other: Pass,
    context: Context,
    port: SourcePort,
) -> Beside
    requires blank { (blank.name ≡ L.name) × (blank.parts ≡ L.parts) × (0 < blank.parts) }
    requires other { (other.table ≡ shared.now) × (other.view.stage ≡ Idle) × (other.view.claims ≡ []) }
    requires belongs { (context.pass.table ≡ shared.now) × (context.pass.view.claims ≡ []) }
    requires room { (0 < length context.sources) × (context.calls ≡ []) × (2 ≤ context.room) }
    requires port { IsPortOf context 0 (seen port) }
{
    let mut steps = Steps::<L>::new(blank);
    let mut context = context;
    let mut port = port;
    let (other, claim) = held(rt, shared, other, &mut steps);
    let reply = called(shared, &mut context, &mut port, &mut steps);
    let acknowledged = port.acknowledged();
    let _other = release(shared, claim, other, &mut steps);
    let again = called(shared, &mut context, &mut port, &mut steps).outcome;
    Beside {
        reply,
        acknowledged,
        again,
    }
}

// Two calls on the block of these digits, the first beside a claim of the only slot.
fn answered_beside<R: Abort + Wait>(
    rt: &R,
    alloc: Global,
    digits: &str,
) -> Result<Beside, AllocError> {
    let block = raised(rt, alloc, digits);
    let (shared, _work, mut passes) = Shared::build(alloc, 1, LIMIT, 2)?;
    let pass = last(rt, &shared, &mut passes);
    let other = last(rt, &shared, &mut passes);
    let (port, receive) = placed(alloc, block.as_slice(), 0)?;
    let (writer, mut readers) = throttle(rt, alloc, LIMIT, 1)?;
    let reader = readers.pop().expect(rt, "a reader");
    let context = seated_at(rt, alloc, &port, pass, reader, receive);
    let answer = beside_a_claim::<R, Brand>(rt, Blank::new(1), &shared, other, context, port);
    writer.end(rt);
    Ok(answer)
}

// A block, and of a call on it while another pass holds the only slot: its reply, and how many blocks are acknowledged. At the end
// what a call answers behind the release. Only a fatal block needs no slot.
type Held = (&'static str, Outcome, AckState, u32, Outcome);

#[rattlefmt::skip]
const HELD: [Held; 3] = [
    (BLOCK, Outcome::NoSlot, NO, 0, NEWS),
    (TOO_LONG, Outcome::NoSlot, NO, 0, Outcome::Malformed(1, Malformed::TooLong)),
    (FATAL, Outcome::Fatal(1), AckState::Done, 1, Outcome::Stopped),
];

#[test]
fn a_call_finds_no_slot_where_another_pass_holds_it(rt: HostRuntime) -> Result<(), Fail> {
    for row in &HELD {
        let (digits, outcome, ack, acknowledged, again) = *row;
        let reply = Reply { outcome, ack };
        let wanted = Beside {
            reply,
            acknowledged,
            again,
        };
        let answer = answered_beside(&rt, rt.alloc(), digits)?;
        assert_eq!(rt; answer, wanted, "on {digits}");
    }
    Ok(())
}
