// The text of a replay by its script. What is wanted was worked out by hand from docs/FORMATS.md.
ghost use Rattle.std.specs.Prelude.{IfOk, None};
ghost use Rattle.std.specs.List.{AllByRecursion};
ghost use Rattle.cper_block.specs.Block.{Judges, largest_block};
ghost use Rattle.ghes_report.specs.Sound.{IsSoundTaken, IsSoundEntry};

use crate::{script_text, severities_text, told_text};
use apei_base::Bytes;
use cper_block::{Block, Malformed};
use ghes_call::{AckState, Call, Outcome, Reply};
use ghes_ledger::{InjectionEnd, Ledger, Mark, PanicEntry, Report, Reported, Taken};
use ghes_script::{Script, SourceName};
use std::alloc::{AllocError, Global};
use std::test::Fail;

// A block without data, corrected.
const BARE: &str = "0200000000000000000000000000000002000000";

// Four sources, of which the last three have read ack registers, of 32, 8 and 64 bits.
const NAMES: [SourceName; 4] = [
    SourceName { id: 1, v2: false },
    SourceName { id: 2, v2: true },
    SourceName { id: 40, v2: true },
    SourceName {
        id: 65535,
        v2: true,
    },
];

const IDS: [u16; 4] = [1, 2, 40, 65535];

const WIDTHS: [u8; 4] = [0, 32, 8, 64];

// A call: its source, how it ended, and its acknowledgement.
type Told = (u16, Outcome, AckState);

// A line that was executed: its number, and how many calls and taken blocks there were behind it.
type Line = (u32, u64, u64);

// A script, what came of it, and its lines.
type Row = (
    &'static str,
    &'static [Told],
    &'static [InjectionEnd],
    &'static [u64],
    &'static [Line],
    &'static str,
);

const ROWS: [Row; 5] = [
    // Each way in which a call ends. The report is of source 1, block 1.
    (
        "slots 3\nnmi 1\nnmi 1\nnmi 2\nnmi 2\nnmi 1\nnmi 65535\nnmi 1\nnmi 2\n",
        &[
            (0, Outcome::Nothing, AckState::NotAsked),
            (0, Outcome::Queued(1), AckState::NotAsked),
            (1, Outcome::Malformed(1, Malformed::TooLong), AckState::Done),
            (1, Outcome::Duplicate(2, 1), AckState::Failed),
            (0, Outcome::NoSlot, AckState::NotAsked),
            (3, Outcome::Fault, AckState::NotAsked),
            (0, Outcome::Fatal(9), AckState::Failed),
            (1, Outcome::Stopped, AckState::NotAsked),
        ],
        &[],
        &[],
        &[
            (1, 0, 0),
            (2, 1, 0),
            (3, 2, 0),
            (4, 3, 0),
            (5, 4, 0),
            (6, 5, 0),
            (7, 6, 0),
            (8, 7, 0),
            (9, 8, 0),
            (0, 8, 0),
        ],
        "nmi 1: nothing\nnmi 1: queued 1\nnmi 2: malformed 1: 2 too long\n\
        nmi 2: duplicate 2 of source 1 block 1, ack failed\nnmi 1: no slot\nnmi 65535: fault\n\
        nmi 1: fatal 9, ack failed\nnmi 2: stopped\n",
    ),
    // Each way in which an injection ends.
    (
        "available 0xfff\ninject 0x8\ninject 8 memory 1 2\ninject 0x800\ninject 1 processor 7\n\
        inject 0x40 pcie 1\ninject 0x400\ninject 16\nnmi 1\n",
        &[(0, Outcome::Queued(1), AckState::NotAsked)],
        &[
            InjectionEnd::Made { source: 0, seq: 1 },
            InjectionEnd::NotAvailable,
            InjectionEnd::Busy,
            InjectionEnd::Status(2),
            InjectionEnd::Trigger(3),
            InjectionEnd::NoAddress,
            InjectionEnd::Made {
                source: 3,
                seq: 4_294_967_295,
            },
        ],
        &[],
        &[
            (1, 0, 0),
            (2, 0, 0),
            (3, 0, 0),
            (4, 0, 0),
            (5, 0, 0),
            (6, 0, 0),
            (7, 0, 0),
            (8, 0, 0),
            (9, 1, 0),
            (0, 1, 0),
        ],
        "inject 0x00000008: source 1 block 1\ninject 0x00000008: not available\n\
        inject 0x00000800: busy\ninject 0x00000001: status 2\ninject 0x00000040: trigger 3\n\
        inject 0x00000400: no address\ninject 0x00000010: source 65535 block 4294967295\n\
        nmi 1: queued 1\n",
    ),
    // Cells of each width, and lines that print nothing.
    (
        "ackcell 2 0xabcd00f0\npeek 2\ninject 0x8\npeek 40\nclock 5\npeek 65535\nfail 1 1\npeek 2\n\
        raise 1 0200000000000000000000000000000002000000\nwork\n",
        &[],
        &[InjectionEnd::Busy],
        &[0xabcd_00f1, 0xf, 0x0123_4567_89ab_cdef, 0],
        &[
            (1, 0, 0),
            (2, 0, 0),
            (3, 0, 0),
            (4, 0, 0),
            (5, 0, 0),
            (6, 0, 0),
            (7, 0, 0),
            (8, 0, 0),
            (9, 0, 0),
            (10, 0, 0),
            (0, 0, 0),
        ],
        "cell 2: 0xabcd00f1\ninject 0x00000008: busy\ncell 40: 0x0f\n\
        cell 65535: 0x0123456789abcdef\ncell 2: 0x00000000\n",
    ),
    // Calls by turn are told by source.
    (
        "contexts 2\n# turns\nrun 0002\nnmi 2\n",
        &[
            (0, Outcome::Queued(1), AckState::NotAsked),
            (2, Outcome::NoSlot, AckState::NotAsked),
            (1, Outcome::Queued(1), AckState::Done),
            (0, Outcome::Nothing, AckState::NotAsked),
            (1, Outcome::Fault, AckState::NotAsked),
            (1, Outcome::Nothing, AckState::NotAsked),
        ],
        &[],
        &[],
        &[(1, 0, 0), (3, 5, 0), (4, 6, 0), (0, 6, 0)],
        "run 2\nnmi 1: queued 1\nnmi 1: nothing\nnmi 2: queued 1\nnmi 2: fault\n\
        nmi 40: no slot\nnmi 2: nothing\n",
    ),
    // Lines behind a fatal call print nothing.
    (
        "nmi 1\ninject 0x8\npeek 2\nnmi 2\n",
        &[(0, Outcome::Fatal(3), AckState::NotAsked)],
        &[],
        &[],
        &[(1, 1, 0), (0, 1, 0)],
        "nmi 1: fatal 3\n",
    ),
];

// The calls of a ledger.
fn calls(alloc: Global, told: &[Told]) -> Result<Vec<Call>, AllocError> {
    let mut calls = Vec::new(alloc);
    for (source, outcome, ack) in told {
        calls.push(Call {
            context: 0,
            source: *source,
            now: 0,
            reply: Reply {
                outcome: *outcome,
                ack: *ack,
            },
        })?;
    }
    Ok(calls)
}

// The marks of a ledger.
fn marks(alloc: Global, lines: &[Line]) -> Result<Vec<Mark>, AllocError> {
    let mut marks = Vec::new(alloc);
    for (line, calls, taken) in lines {
        marks.push(Mark {
            line: *line,
            calls: *calls,
            taken: *taken,
        })?;
    }
    Ok(marks)
}

// The one report: of the first source, block 1.
fn reports(alloc: Global) -> Result<Vec<Report>, AllocError> {
    let mut reports = Vec::new(alloc);
    reports.push(Report {
        source: 0,
        seq: 1,
        time: 0,
        bytes: Bytes::copy(alloc, &[])?,
    })?;
    Ok(reports)
}

// The script of these bytes.
fn script(alloc: Global, text: &str) -> Result<Script, Fail> {
    if text.len() > 1 << 20 {
        return Err(Fail::new("long"));
    }
    Ok(Script::read(alloc, text.as_bytes(), &NAMES, true)?)
}

// The lines of a row.
fn lines(alloc: Global, row: &Row) -> Result<Vec<u8>, Fail> {
    let (text, told, ends, cells, lines, _) = *row;
    let ledger = Ledger {
        calls: calls(alloc, told)?,
        taken: Vec::new(alloc),
        reports: reports(alloc)?,
        panic: Vec::new(alloc),
        injections: Vec::from_slice(alloc, ends)?,
        peeks: Vec::from_slice(alloc, cells)?,
        marks: marks(alloc, lines)?,
    };
    let script = script(alloc, text)?;
    let mut into = Vec::from_slice(alloc, b"before\n")?;
    told_text(alloc, &mut into, script.lines(), &ledger, &IDS, &WIDTHS)?;
    Ok(into)
}

#[test]
fn each_line_prints_what_came_of_it(rt: HostRuntime) -> Result<(), Fail> {
    for row in &ROWS {
        let wanted = format!(in rt.alloc(); "before\n{}", row.5)?;
        let lines = lines(rt.alloc(), row)?;
        assert!(rt; lines.as_slice() == wanted.as_bytes(), "at {}", row.0);
    }
    Ok(())
}

// A block that was delivered.
fn delivered(
    alloc: Global,
    source: u16,
    seq: u32,
    reported: Reported,
    block: &[u8],
) -> Result<Taken, AllocError>
    requires { Judges block.now largest_block None }
    ensures { IfOk result IsSoundTaken }
{
    Ok(Taken::Delivered {
        source,
        seq,
        bytes: Bytes::copy(alloc, block)?,
        reported,
    })
}

// A block that was dropped.
fn dropped(alloc: Global, source: u16, seq: u32) -> Result<Taken, AllocError>
    ensures { IfOk result IsSoundTaken }
{
    Ok(Taken::Dropped {
        source,
        seq,
        bytes: Bytes::copy(alloc, &[0, 255])?,
        reason: Malformed::TooLong,
    })
}

// Two blocks of source 1, the second as a repeat, and one of source 2 between them.
fn taken(alloc: Global, block: &[u8]) -> Result<Vec<Taken>, AllocError>
    requires { Judges block.now largest_block None }
    ensures { IfOk result (λ taken. AllByRecursion IsSoundTaken taken.items) }
{
    let mut taken = Vec::new(alloc);
    taken.push(delivered(alloc, 0, 1, Reported::New(1), block)?)?;
    taken.push(dropped(alloc, 1, 1)?)?;
    taken.push(delivered(alloc, 0, 2, Reported::Repeat(1), block)?)?;
    Ok(taken)
}

// A block that was pending when a fatal one came.
fn pending(alloc: Global) -> Result<Vec<PanicEntry>, AllocError>
    ensures { IfOk result (λ panic. AllByRecursion IsSoundEntry panic.items) }
{
    let mut panic = Vec::new(alloc);
    panic.push(PanicEntry {
        source: 1,
        seq: 2,
        bytes: Bytes::copy(alloc, &[])?,
        reason: Some(Malformed::TooShort),
        fatal: false,
    })?;
    Ok(panic)
}

const TURNS: &str = "\
run 3
nmi 1: queued 1
nmi 1: queued 2
report source 1 block 1
  severity corrected
repeat source 1 block 2 of source 1 block 1
nmi 2: malformed 1: 2 too long
dropped source 2 block 1: 2 too long
  data 00ff
nmi 2: malformed 2: 1 too short
panic
pending source 2 block 2
  malformed 1 too short
  data empty
end of panic
summary
source 1: raised 2, acknowledged 2, delivered 2, duplicate 0, dropped 0, panic 0
source 2: raised 3, acknowledged 2, delivered 0, duplicate 0, dropped 1, panic 1
reports 1, repeats 1, no slot 0, fault 0
";

#[test]
fn turns_are_told_by_source_and_the_summary_has_a_line_for_each(
    rt: HostRuntime,
) -> Result<(), Fail> {
    let alloc = rt.alloc();
    let block = hex::decode(alloc, BARE)?;
    Block::read(&block, 65536)?;
    let told = [
        (0, Outcome::Queued(1), AckState::NotAsked),
        (1, Outcome::Malformed(1, Malformed::TooLong), AckState::Done),
        (0, Outcome::Queued(2), AckState::NotAsked),
        (
            1,
            Outcome::Malformed(2, Malformed::TooShort),
            AckState::Done,
        ),
    ];
    let ledger = Ledger {
        calls: calls(alloc, &told)?,
        taken: taken(alloc, &block)?,
        reports: reports(alloc)?,
        panic: pending(alloc)?,
        injections: Vec::new(alloc),
        peeks: Vec::new(alloc),
        marks: marks(alloc, &[(1, 3, 3), (2, 4, 3), (0, 4, 3)])?,
    };
    let script = script(alloc, "run 3\nnmi 2\n")?;
    let text = script_text(
        alloc,
        script.lines(),
        &ledger,
        &[1, 2],
        &[0, 32],
        &[2, 3],
        &[2, 2],
    )?;
    assert!(rt; text.as_slice() == TURNS.as_bytes(), "turns");
    let mut closing = Vec::from_slice(alloc, b"before\n")?;
    severities_text(alloc, &mut closing, 1, 0, 20, 18_446_744_073_709_551_615)?;
    let wanted =
        "before\nseverities: recoverable 1, fatal 0, corrected 20, none 18446744073709551615\n";
    assert!(rt; closing.as_slice() == wanted.as_bytes(), "severities");
    Ok(())
}
