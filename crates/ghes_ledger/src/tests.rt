//! What no clause says: that calls succeed where there is memory, and one large ledger.
use crate::{Fate, Ledger, Mark, SourceSummary};
use cper_block::Malformed;
use ghes_call::{AckState, Call, Outcome, Packet, Reply};
use std::alloc::{AllocError, Global};
use std::test::Fail;

// What is entered in a ledger. A packet is of a source and a number.
#[derive(Clone, Copy)]
enum Entry {
    // A call for a source.
    Call(u16, Outcome),
    // A packet that is taken, why it is malformed, and the report that told the same bytes.
    Taken(u16, u32, Option<Malformed>, Option<u64>),
    // A fatal packet.
    Panic(u16, u32),
    Mark(u32),
}

fn call(source: u16, outcome: Outcome) -> Call {
    let ack = AckState::NotAsked;
    Call {
        context: 0,
        source,
        now: 0,
        reply: Reply { outcome, ack },
    }
}

fn packet(
    alloc: Global,
    source: u16,
    seq: u32,
    reason: Option<Malformed>,
) -> Result<Packet, AllocError> {
    let mut packet = Packet::empty(alloc, 8)?;
    packet.source = source;
    packet.seq = seq;
    packet.reason = reason;
    Ok(packet)
}

fn enter(ledger: &mut Ledger, alloc: Global, what: Entry) -> Result<(), AllocError> {
    match what {
        Entry::Call(source, outcome) => ledger.enter_call(call(source, outcome)),
        Entry::Taken(source, seq, reason, found) => {
            ledger.enter_taken(alloc, &packet(alloc, source, seq, reason)?, found, 5)
        }
        Entry::Panic(source, seq) => {
            ledger.enter_panic(alloc, &packet(alloc, source, seq, None)?, true)
        }
        Entry::Mark(line) => ledger.enter_mark(line),
    }
}

const BAD: Malformed = Malformed::DataLength;

// A ledger of two sources.
const ENTERED: [Entry; 13] = [
    Entry::Call(0, Outcome::Queued(1)),
    Entry::Call(0, Outcome::Malformed(2, BAD)),
    Entry::Call(1, Outcome::Queued(1)),
    Entry::Call(1, Outcome::NoSlot),
    Entry::Taken(0, 1, None, None),
    Entry::Taken(1, 1, None, Some(1)),
    Entry::Taken(0, 2, Some(BAD), None),
    Entry::Mark(7),
    Entry::Call(0, Outcome::Duplicate(3, 1)),
    Entry::Call(0, Outcome::Fault),
    Entry::Call(0, Outcome::Fatal(4)),
    Entry::Panic(0, 4),
    Entry::Mark(0),
];

fn ledger(alloc: Global) -> Result<Ledger, AllocError> {
    let mut ledger = Ledger::new(alloc);
    for what in ENTERED {
        enter(&mut ledger, alloc, what)?;
    }
    Ok(ledger)
}

// The fates of its blocks, by source. There is no third one.
const FATES: [(u16, &[Fate]); 3] = [
    (
        0,
        &[
            Fate::Delivered,
            Fate::Dropped(BAD),
            Fate::Duplicate(1),
            Fate::Panic,
        ],
    ),
    (1, &[Fate::Delivered]),
    (2, &[]),
];

const MARKS: [Mark; 2] = [
    Mark {
        line: 7,
        calls: 4,
        taken: 3,
    },
    Mark {
        line: 0,
        calls: 7,
        taken: 3,
    },
];

#[test]
fn each_fate_is_told(rt: HostRuntime) -> Result<(), Fail> {
    let ledger = ledger(rt.alloc())?;
    for (source, wanted) in FATES {
        let fates = ledger.fates(rt.alloc(), source)?;
        assert_eq!(rt; fates.as_slice(), wanted, "source {source}");
    }
    assert_eq!(rt; ledger.marks(), MARKS.as_slice());
    Ok(())
}

const COUNTS: [SourceSummary; 2] = [
    SourceSummary {
        delivered: 1,
        duplicate: 1,
        dropped: 1,
        panic: 1,
    },
    SourceSummary {
        delivered: 1,
        duplicate: 0,
        dropped: 0,
        panic: 0,
    },
];

#[test]
fn each_fate_is_counted(rt: HostRuntime) -> Result<(), Fail> {
    let ledger = ledger(rt.alloc())?;
    let summary = ledger.summary(rt.alloc(), 2)?;
    assert_eq!(rt; summary.sources.as_slice(), COUNTS.as_slice());
    let totals = [
        summary.reports,
        summary.repeats,
        summary.no_slot,
        summary.faults,
    ];
    assert_eq!(rt; totals, [1, 1, 1, 1]);
    Ok(())
}

#[test]
fn a_large_ledger_has_all_its_fates(rt: HostRuntime) -> Result<(), Fail> {
    let mut ledger = Ledger::new(rt.alloc());
    for number in 1..65_537u32 {
        ledger.enter_call(call(0, Outcome::Duplicate(number, 1)))?;
    }
    assert_eq!(rt; ledger.fates(rt.alloc(), 0)?.len(), 65_536);
    Ok(())
}
