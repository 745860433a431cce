//! Calls whose answers a person worked out from the rules, each on the memory of one source.
ghost use Rattle.std.specs.Prelude.{◌≡◌, ◌+◌, ◌*◌, ◌^◌, ◌<◌, ◌≤◌, ◌∷◌, true, false, [], None, Some, length, is_some, option_map, IfOk};
ghost use Rattle.apei_base.specs.Firmware.{IsRaised};
ghost use Rattle.apei_base.specs.declared.region.Space.TheVariants.{Memory};
ghost use Rattle.ghes_call.specs.Receive.{IsOfSource};
ghost use Rattle.ghes_rule.specs.declared.views.Hand.TheVariants.{Bare};
ghost use Rattle.ghes_rule.specs.declared.views.Stage.TheVariants.{Idle};
ghost use Rattle.ghes_rule.specs.Kept.{first_pass};
ghost use Rattle.ghes_rule.specs.Seen.{AreFirst, at_work, pass_seen};
ghost use Rattle.ghes_nmi.specs.Receive.{receive_seen};
ghost use Rattle.ghes_context.specs.Nmi.{IsPortOf};

use crate::{AckRule, Context, Receive};
use apei_base::{Bytes, Firmware, Region, u32_at};
use apei_mem_bus::{Faulty, OneSource};
use cper_block::Malformed;
use ghes_call::{AckState, Call, Outcome, Reply};
use ghes_chain::{Took, give, take};
use ghes_rule::{Pass, Shared, Work};
use ghes_steps::Steps;
use ghes_throttle::{ThrottleReader, throttle};
use std::alloc::{AllocError, Global};
use std::marker::Brand;
use std::process::Abort;
use std::sync::Wait;
use std::sync::ledger::{Blank, Ledger};
use std::test::Fail;

// How many bytes a block has at most.
const LIMIT: usize = 4096;

// Blocks of 20 bytes: a corrected error, and a fatal one.
const CORRECTED: &str = "0200000000000000000000000000000002000000";

const FATAL: &str = "0100000000000000000000000000000001000000";
// A corrected memory error in one entry: 164 bytes.
const MEMORY: &str =
    "12000000000000000000000090000000020000001411bca5646fde4eb8633e83ed7c83b102000000010200005000000000000000000000000000000000000000000000000000000000000000000000000000000006400000000000000000000000000000005034120000000000f0ffffffffffff000000000000000000000000000000000000000000000000000000000000000000000000000000000200000000000000";
// Raw data at 20 of 0xffffffff bytes: their end is 19 in 32 bits.
const WRAPPED_RAW: &str = "0200000014000000ffffffff0000000002000000";
// One entry of 0xffffffc0 bytes behind its header of 64: its end is 0 in 32 bits.
const WRAPPED_ENTRY: &str =
    "12000000000000000000000040000000020000001411bca5646fde4eb8633e83ed7c83b10200000001020000c0ffffff000000000000000000000000000000000000000000000000000000000000000000000000";

// The last of the passes at the start.
fn last<R: Abort>(rt: &R, shared: &Shared, passes: &mut Vec<Pass>) -> Pass
    requires { AreFirst shared.now 4096 shared.now.slots (length passes.old.items) passes.old.items }
    ensures rest { AreFirst shared.now 4096 shared.now.slots (length passes.new.items) passes.new.items }
    ensures count { length passes.old.items ≡ length passes.new.items + 1 }
    ensures pass { result ≡ pass_seen shared.now (first_pass 4096 shared.now.slots (length passes.new.items)) }
{
    passes.pop().expect(rt, "a pass")
}

// Bytes that firmware can raise.
fn raised<R: Abort>(rt: &R, bytes: Vec<u8>) -> Bytes
    ensures { IsRaised result }
{
    assert!(rt; bytes.len() >= 20, "a block has a header");
    assert!(rt; u32_at(&bytes, 0) != 0, "a block has a status");
    Bytes(bytes)
}

// A source of version 1 that raised this block.
fn source_1(alloc: Global, block: Bytes) -> Result<OneSource, AllocError>
    requires { IsRaised block }
    ensures { IfOk result (λ source. (source.room ≡ 4096) × (source.acknowledged ≡ 0)) }
{
    Ok(OneSource {
        status: Region::memory(0x7f00_0000, 64),
        ack: None,
        area: 0x7f01_0000,
        room: LIMIT as u32,
        cell: 0,
        made: vec![in alloc; block]?,
        acknowledged: 0,
        waits: false,
    })
}

// A source of version 2 that raised this block. Its read ack register of 32 bits holds 0xabcd00f0.
fn source_2(alloc: Global, block: Bytes) -> Result<OneSource, AllocError>
    requires { IsRaised block }
    ensures { IfOk result (λ source. (source.room ≡ 4096) × (source.acknowledged ≡ 0)) }
{
    Ok(OneSource {
        status: Region::memory(0x7f00_0008, 64),
        ack: Some(Region::memory(0x7f00_1000, 32)),
        area: 0x7f01_0000,
        room: LIMIT as u32,
        cell: 0xabcd_00f0,
        made: vec![in alloc; block]?,
        acknowledged: 0,
        waits: false,
    })
}

// How the source is received: of the read ack register all bits but the lowest are kept, and that one is set.
fn received(source: &OneSource) -> Receive
    requires { source.now.room ≡ 4096 }
    ensures source { IsOfSource (receive_seen result) (⟦<OneSource as Firmware>⟧.seen source.now).layout }
    ensures limit { result.limit ≡ 4096 }
{
    let ack = match source.ack {
        Some(register) => Some(AckRule {
            register,
            bit_offset: 0,
            preserve: 0xffff_fffe,
            write: 1,
        }),
        None => None,
    };
    Receive {
        status: source.status,
        limit: source.room,
        ack,
    }
}

// A context of one source, with room for two calls.
fn seated<R: Abort>(
    rt: &R,
    alloc: Global,
    pass: Pass,
    reader: ThrottleReader,
    receive: Receive,
) -> Context
    requires idle { (pass.view.stage ≡ Idle) × (pass.view.fatal ≡ None) × (pass.view.claims ≡ []) }
    requires number { pass.view.number < 2 ^ 16 }
    requires long { (pass.view.room ≡ 4096) × (receive.limit ≡ 4096) }
    ensures pass { result.pass ≡ pass }
    ensures sources { (result.sources ≡ receive ∷ []) × (result.acknowledged ≡ 0 ∷ []) }
    ensures reports { result.reports ≡ reader }
    ensures room { (result.calls ≡ []) × (2 ≤ result.room) }
{
    let number = pass.number() as u16;
    match Context::new(alloc, number, pass, reader, &[receive], LIMIT) {
        Ok(mut context) => match context.reserve(2) {
            Ok(()) => context,
            Err(_) => panic!(rt; "memory for two calls"),
        },
        Err(_) => panic!(rt; "memory for a context"),
    }
}

// The number of the packet that is taken, 0 for nothing.
fn taken<L: Ledger>(shared: &Shared, work: &mut Work, steps: &mut Steps<L>) -> u32
    requires { (work.old.table ≡ shared.now) × (work.old.view.held ≡ Bare) }
    ensures { (work.new.table ≡ work.old.table) × (work.new.view.held ≡ Bare) }
{
    match take(shared, work, steps) {
        Took::Packet(held) => {
            let number = held.packet().seq;
            give(shared, held, work, steps);
            number
        }
        Took::Empty | Took::Again => 0,
    }
}

/// What is called on.
#[derive(Clone, Copy)]
struct Case {
    slots: usize,
    /// The block that another context is called on before.
    before: Option<&'static str>,
    /// The block was reported before.
    reported: bool,
    block: &'static str,
    version_2: bool,
    /// The number of the access that fails, 0 for none.
    failing: u64,
}

/// What is seen behind one call or two.
#[derive(Clone, Copy, Debug, PartialEq, Eq)]
struct Answer {
    /// Of the last call.
    reply: Reply,
    accesses: u64,
    acknowledged: usize,
    /// What the read ack register holds.
    cell: u64,
    /// The numbers of the first two packets that are pending, 0 for none.
    pending: [u32; 2],
}

const QUIET: Case = Case {
    slots: 1,
    before: None,
    reported: false,
    block: CORRECTED,
    version_2: false,
    failing: 0,
};

// A call at time 0 on the one source of a context.
fn called<P: Firmware, L: Ledger>(
    shared: &Shared,
    context: &mut Context,
    port: &mut P,
    steps: &mut Steps<L>,
) -> Reply
    requires belongs { context.old.pass.table ≡ shared.now }
    requires source { 0 < length context.old.sources }
    requires port { IsPortOf context.old 0 (P.seen port.old) }
    requires few { length context.old.pass.view.claims < 2 ^ 32 }
    requires room { length context.old.calls < context.old.room }
    ensures belongs { context.new.pass.table ≡ context.old.pass.table }
    ensures sources { context.new.sources ≡ context.old.sources }
    ensures port { IsPortOf context.new 0 (P.seen port.new) }
    ensures few { length context.new.pass.view.claims ≤ length context.old.pass.view.claims + 1 }
    ensures calls { length context.new.calls ≡ length context.old.calls + 1 }
    ensures room { context.old.room ≤ context.new.room }
{
    context.nmi(shared, 0, port, 0, steps)
}

// What is seen behind one call of the second context, or two. The first is called before where the case says so.
fn calls_of<L: Ledger>(
    blank: Blank,
    case: &Case,
    twice: bool,
    shared: &Shared,
    work: Work,
    first: (Context, OneSource),
    second: (Context, Faulty<OneSource>),
) -> Answer
    requires blank { (blank.name ≡ L.name) × (blank.parts ≡ L.parts) × (0 < blank.parts) }
    requires work { (work.table ≡ shared.now) × (work.view.held ≡ Bare) }
    requires first { (first.0.pass.table ≡ shared.now) × (first.0.pass.view.claims ≡ []) × (0 < length first.0.sources) × (first.0.calls ≡ []) × (2 ≤ first.0.room) }
    requires before { IsPortOf first.0 0 (⟦<OneSource as Firmware>⟧.seen first.1) }
    requires second { (second.0.pass.table ≡ shared.now) × (second.0.pass.view.claims ≡ []) × (0 < length second.0.sources) × (second.0.calls ≡ []) × (2 ≤ second.0.room) }
    requires port { IsPortOf second.0 0 (⟦<Faulty<OneSource> as Firmware>⟧.seen second.1) }
{
    let mut steps = Steps::<L>::new(blank);
    let mut work = work;
    let (mut first, mut memory) = first;
    let (mut second, mut port) = second;
    if case.before.is_some() {
        called(shared, &mut first, &mut memory, &mut steps);
    }
    let mut reply = called(shared, &mut second, &mut port, &mut steps);
    let accesses = port.accesses();
    if twice {
        reply = called(shared, &mut second, &mut port, &mut steps);
    }
    let one = taken(shared, &mut work, &mut steps);
    let other = taken(shared, &mut work, &mut steps);
    let memory = port.into_inner();
    Answer {
        reply,
        accesses,
        acknowledged: memory.acknowledged,
        cell: memory.cell,
        pending: [one, other],
    }
}

// The memory of a source that raised this block.
fn memory<R: Abort>(rt: &R, alloc: Global, block: Bytes, version_2: bool) -> OneSource
    requires { IsRaised block }
    ensures { (result.room ≡ 4096) × (result.acknowledged ≡ 0) }
{
    let source = if version_2 {
        source_2(alloc, block)
    } else {
        source_1(alloc, block)
    };
    source.expect(rt, "memory for a source")
}

// The two contexts with their memories.
fn placed<R: Abort>(
    rt: &R,
    alloc: Global,
    memory: &OneSource,
    pass: Pass,
    reader: ThrottleReader,
) -> Context
    requires idle { (pass.view.stage ≡ Idle) × (pass.view.fatal ≡ None) × (pass.view.claims ≡ []) }
    requires number { pass.view.number < 2 ^ 16 }
    requires long { pass.view.room ≡ 4096 }
    requires memory { (memory.now.room ≡ 4096) × (memory.now.acknowledged ≡ 0) }
    ensures pass { result.pass ≡ pass }
    ensures port { IsPortOf result 0 (⟦<OneSource as Firmware>⟧.seen memory.now) }
    ensures sources { 0 < length result.sources }
    ensures reports { result.reports ≡ reader }
    ensures room { (result.calls ≡ []) × (2 ≤ result.room) }
{
    seated(rt, alloc, pass, reader, received(memory))
}

// The memory, of which the access of this number is to fail.
fn failing_at<R: Abort>(rt: &R, alloc: Global, memory: OneSource, number: u64) -> Faulty<OneSource>
    ensures layout { (⟦<Faulty<OneSource> as Firmware>⟧.seen result).layout ≡ (⟦<OneSource as Firmware>⟧.seen memory).layout }
    ensures acknowledged { (⟦<Faulty<OneSource> as Firmware>⟧.seen result).acknowledged ≡ (⟦<OneSource as Firmware>⟧.seen memory).acknowledged }
{
    match Faulty::new(alloc, memory, &[number]) {
        Ok(faulty) => faulty,
        Err(_) => panic!(rt; "memory for a plan"),
    }
}

// One call of a case, or two.
fn answered<R: Abort + Wait>(
    rt: &R,
    alloc: Global,
    case: &Case,
    block: Vec<u8>,
    twice: bool,
) -> Result<Answer, AllocError> {
    assert!(rt; 0 < case.slots && case.slots <= 64, "{} slots", case.slots);
    let (shared, work, mut passes) = Shared::build(alloc, case.slots, LIMIT, 2)?;
    let second = last(rt, &shared, &mut passes);
    let first = last(rt, &shared, &mut passes);
    let block = raised(rt, block);
    let told = Bytes::copy(alloc, block.as_slice())?;
    let before = hex::decode(alloc, case.before.unwrap_or(CORRECTED)).expect(rt, "hex digits");
    let before = memory(rt, alloc, raised(rt, before), false);
    let source = memory(rt, alloc, block, case.version_2);
    let (mut writer, mut readers) = throttle(rt, alloc, LIMIT, 2)?;
    let (two, one) = (readers.pop(), readers.pop());
    let first = placed(rt, alloc, &before, first, one.expect(rt, "a reader"));
    let second = placed(rt, alloc, &source, second, two.expect(rt, "a reader"));
    let port = failing_at(rt, alloc, source, case.failing);
    if case.reported {
        assert!(rt; told.as_slice().len() <= LIMIT, "a report of a block");
        let number = writer
            .report(rt, told.as_slice(), 0)
            .expect(rt, "memory for a report");
        assert_eq!(rt; number, 1);
    }
    let answer = calls_of::<Brand>(
        Blank::new(1),
        case,
        twice,
        &shared,
        work,
        (first, before),
        (second, port),
    );
    writer.end(rt);
    Ok(answer)
}

// A fatal block of the first context stops the second, and a corrected one takes its slot.
const BEHIND_FATAL: Case = Case {
    before: Some(FATAL),
    ..QUIET
};

const BEHIND_ONE: Case = Case {
    before: Some(CORRECTED),
    ..QUIET
};

// A block of 164 bytes at a source with a read ack register: six accesses.
const WITH_REGISTER: Case = Case {
    block: MEMORY,
    version_2: true,
    ..QUIET
};

const REPORTED: Case = Case {
    reported: true,
    ..QUIET
};

// A case, and behind one call: what it answered, how many accesses it made, how many blocks are acknowledged, what the register
// holds, and the numbers of what is pending. At the end what a second call answers.
type Row = (Case, Outcome, AckState, u64, usize, u64, [u32; 2], Outcome);

const NEWS: Outcome = Outcome::Queued(1);

const NO: AckState = AckState::NotAsked;

#[rattlefmt::skip]
const ROWS: [Row; 20] = [
    (QUIET, NEWS, NO, 3, 1, 0, [1, 0], Outcome::Nothing),
    (WITH_REGISTER, NEWS, AckState::Done, 6, 1, 0xabcd_00f1, [1, 0], Outcome::Nothing),
    (BEHIND_ONE, Outcome::NoSlot, NO, 2, 0, 0, [1, 0], Outcome::NoSlot),
    (Case { slots: 2, ..BEHIND_ONE }, NEWS, NO, 3, 1, 0, [1, 1], Outcome::Nothing),
    (Case { block: FATAL, ..QUIET }, Outcome::Fatal(1), NO, 3, 1, 0, [0, 0], Outcome::Stopped),
    // Linux asks for memory from its pool first, and does not act on a fatal block where that is full.
    (Case { block: FATAL, ..BEHIND_ONE }, Outcome::Fatal(1), NO, 3, 1, 0, [1, 0], Outcome::Stopped),
    (Case { block: FATAL, failing: 3, ..QUIET }, Outcome::Fault, NO, 3, 0, 0, [0, 0], Outcome::Fatal(1)),
    (BEHIND_FATAL, Outcome::Stopped, NO, 0, 0, 0, [0, 0], Outcome::Stopped),
    // The only slot is free again behind a clear that fails.
    (Case { failing: 3, ..QUIET }, Outcome::Fault, NO, 3, 0, 0, [0, 0], NEWS),
    (Case { failing: 1, ..WITH_REGISTER }, Outcome::Fault, NO, 1, 0, 0xabcd_00f0, [0, 0], NEWS),
    (Case { failing: 2, ..WITH_REGISTER }, Outcome::Fault, NO, 2, 0, 0xabcd_00f0, [0, 0], NEWS),
    (Case { failing: 3, ..WITH_REGISTER }, Outcome::Fault, NO, 3, 0, 0xabcd_00f0, [0, 0], NEWS),
    (Case { failing: 4, ..WITH_REGISTER }, Outcome::Fault, NO, 4, 0, 0xabcd_00f0, [0, 0], NEWS),
    (Case { failing: 5, ..WITH_REGISTER }, NEWS, AckState::Failed, 5, 1, 0xabcd_00f0, [1, 0], Outcome::Nothing),
    (Case { failing: 6, ..WITH_REGISTER }, NEWS, AckState::Failed, 6, 1, 0xabcd_00f0, [1, 0], Outcome::Nothing),
    (Case { slots: 1, ..REPORTED }, Outcome::Duplicate(1, 1), NO, 3, 1, 0, [0, 0], Outcome::Nothing),
    // A duplicate needs no slot.
    (Case { reported: true, before: Some(CORRECTED), ..WITH_REGISTER }, Outcome::Duplicate(1, 1), AckState::Done, 6, 1, 0xabcd_00f1, [1, 0], Outcome::Nothing),
    (Case { failing: 3, ..REPORTED }, Outcome::Fault, NO, 3, 0, 0, [0, 0], Outcome::Duplicate(1, 1)),
    // Linux adds offset and length in 32 bits, and walks over an entry whose length wraps for ever.
    (Case { block: WRAPPED_RAW, ..QUIET }, Outcome::Malformed(1, Malformed::TooLong), NO, 3, 1, 0, [1, 0], Outcome::Nothing),
    (Case { block: WRAPPED_ENTRY, ..QUIET }, Outcome::Malformed(1, Malformed::EntryTruncated(0)), NO, 4, 1, 0, [1, 0], Outcome::Nothing),
];

#[test]
fn a_call_makes_its_accesses_and_answers_what_it_saw(rt: HostRuntime) -> Result<(), Fail> {
    for (at, row) in ROWS.iter().enumerate() {
        let (case, outcome, ack, accesses, acknowledged, cell, pending, again) = *row;
        let block = hex::decode(rt.alloc(), case.block)?;
        let twice = answered(&rt, rt.alloc(), &case, block.clone()?, true)?;
        let once = answered(&rt, rt.alloc(), &case, block, false)?;
        let reply = Reply { outcome, ack };
        let wanted = Answer {
            reply,
            accesses,
            acknowledged,
            cell,
            pending,
        };
        assert_eq!(rt; once, wanted, "row {at}");
        assert_eq!(rt; twice.reply.outcome, again, "again in row {at}");
    }
    Ok(())
}

#[test]
fn bytes_left_over_behind_the_last_entry_make_a_block_malformed(
    rt: HostRuntime,
) -> Result<(), Fail> {
    for count in 1..22u8 {
        let mut block = hex::decode(rt.alloc(), MEMORY)?;
        assert!(rt; block.len() > 12, "the length of the data");
        block[12] = 144 + count;
        block.extend_from_slice(&[0; 21][..usize::from(count)])?;
        let seen = answered(&rt, rt.alloc(), &QUIET, block, false)?;
        let outcome = Outcome::Malformed(1, Malformed::Leftover);
        assert_eq!(rt;
            (seen.reply.outcome, seen.accesses),
            (outcome, 4),
            "{count} left over"
        );
    }
    Ok(())
}

// A call finds a fatal block, the pass goes away and comes back, and the next call stops.
fn comes_back<R: Abort, L: Ledger>(
    rt: &R,
    blank: Blank,
    shared: &Shared,
    context: Context,
    memory: OneSource,
)
    requires blank { (blank.name ≡ L.name) × (blank.parts ≡ L.parts) × (0 < blank.parts) }
    requires belongs { context.pass.table ≡ shared.now }
    requires source { 0 < length context.sources }
    requires port { IsPortOf context 0 (⟦<OneSource as Firmware>⟧.seen memory) }
    requires room { (context.pass.view.claims ≡ []) × (context.calls ≡ []) × (2 ≤ context.room) }
{
    let mut steps = Steps::<L>::new(blank);
    let mut context = context;
    let mut memory = memory;
    assert!(rt; context.fatal().is_none(), "nothing fatal yet");
    let reply = called(shared, &mut context, &mut memory, &mut steps);
    let (parted, pass) = context.part();
    let mut context = parted.sit(pass);
    called(shared, &mut context, &mut memory, &mut steps);
    let first = Call {
        context: 0,
        source: 0,
        now: 0,
        reply,
    };
    assert_eq!(rt; context.calls().len(), 2, "each call is in the log");
    assert_eq!(rt; context.calls()[0], first, "the call on the fatal block");
    assert_eq!(rt;
        context.calls()[1].reply.outcome,
        Outcome::Stopped,
        "the call behind it"
    );
    match context.fatal() {
        Some(packet) => assert_eq!(rt;
            (packet.seq, packet.bytes.as_slice().len()),
            (1, 20),
            "the fatal block"
        ),
        None => panic!(rt; "a fatal block"),
    }
}

#[test]
fn a_context_keeps_its_log_and_its_fatal_block_while_its_pass_is_away(
    rt: HostRuntime,
) -> Result<(), Fail> {
    let (shared, _work, mut passes) = Shared::build(rt.alloc(), 1, LIMIT, 1)?;
    let pass = last(&rt, &shared, &mut passes);
    let block = raised(&rt, hex::decode(rt.alloc(), FATAL)?);
    let memory = memory(&rt, rt.alloc(), block, false);
    let (writer, mut readers) = throttle(&rt, rt.alloc(), LIMIT, 1)?;
    let reader = readers.pop().expect(&rt, "a reader");
    let mut context = placed(&rt, rt.alloc(), &memory, pass, reader);
    context.learn(&rt, &writer.tell());
    comes_back::<HostRuntime, Brand>(&rt, Blank::new(1), &shared, context, memory);
    writer.end(&rt);
    Ok(())
}
