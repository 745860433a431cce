//! Scripts over three sources, and what their ledgers tell. What is wanted was worked out by hand.
mod machine;

ghost use Rattle.std.specs.Prelude.{◌≡◌, ◌<◌, length, IfOk};
ghost use Rattle.std.specs.List.{AllByRecursion};
ghost use Rattle.ghes_lines.specs.Lines.{IsAllowed};
ghost use Rattle.ghes_lines.specs.declared.machine.Machine.{Machine};

use crate::{Stop, a_script_asks_for_what_its_machine_allows, run_lines};
use ghes_call::{AckState, Call, Outcome};
use ghes_ledger::{InjectionEnd, Ledger, Reported, Taken};
use ghes_script::{Script, ScriptError, SourceName, each_line_of_a_script_is_allowed};
use ghes_steps::Steps;
use machine::{Sample, three_sources};
use std::alloc::{AllocError, Global};
use std::marker::Brand;
use std::sync::ledger;
use std::sync::ledger::Blank;
use std::test::Fail;

// The sources: 1 and 3 are of context 0, and 2 is of context 1. 3 has a read ack register of 32 bits.
const NAMES: [SourceName; 3] = [
    SourceName { id: 1, v2: false },
    SourceName { id: 2, v2: false },
    SourceName { id: 3, v2: true },
];

// Blocks of 20 bytes: a corrected error, an informational one, a fatal one, and one whose raw part ends past 4,096 bytes.
const Z: &str = "0200000000000000000000000000000002000000";

const INFORMATIONAL: &str = "0200000000000000000000000000000003000000";

const FATAL: &str = "0100000000000000000000000000000001000000";

const MALFORMED: &str = "0200000014000000ed0f00000000000002000000";

// A corrected memory error in one entry: 164 bytes, which are copied in two accesses.
const MEMORY: &str = "1200000000000000000000009000000002000000\
    1411bca5646fde4eb8633e83ed7c83b1\
    020000000102000050000000\
    000000000000000000000000000000000000000000000000000000000000000000000000\
    06400000000000000000000000000000005034120000000000f0ffffffffffff\
    00000000000000000000000000000000000000000000000000000000000000000000000000000000\
    0200000000000000";

// A script, whose blocks are told by capital letters, and whose lines end in semicolons.
fn spelled(alloc: Global, short: &str) -> Result<Vec<u8>, AllocError> {
    let mut text = Vec::new(alloc);
    for byte in short.as_bytes() {
        match *byte {
            b'Z' => text.extend_from_slice(Z.as_bytes())?,
            b'I' => text.extend_from_slice(INFORMATIONAL.as_bytes())?,
            b'F' => text.extend_from_slice(FATAL.as_bytes())?,
            b'X' => text.extend_from_slice(MALFORMED.as_bytes())?,
            b'M' => text.extend_from_slice(MEMORY.as_bytes())?,
            b';' => text.push(b'\n')?,
            byte => text.push(byte)?,
        }
    }
    Ok(text)
}

// The script of a text. What it asks for is allowed over three sources.
fn read_script(alloc: Global, text: &[u8]) -> Result<Script, ScriptError>
    ensures { IfOk result (λ script. (machine : Machine) → length machine.sources.items ≡ 3
        → AllByRecursion (λ line. IsAllowed machine line.what) script) }
{
    each_line_of_a_script_is_allowed();
    a_script_asks_for_what_its_machine_allows();
    if text.len() > 65_536 {
        return Err(ScriptError::OutOfMemory);
    }
    Script::read(alloc, text, &NAMES, true)
}

// The ledger of a script, where so many packets may be pending.
fn ledger_of<L: ledger::Ledger>(
    alloc: Global,
    blank: Blank,
    script: &Script,
    slots: u8,
) -> Result<Ledger, Stop>
    requires name { blank.name ≡ L.name }
    requires parts { blank.parts ≡ L.parts }
    requires some { 0 < blank.parts }
    requires allowed { (machine : Machine) → length machine.sources.items ≡ 3
        → AllByRecursion (λ line. IsAllowed machine line.what) script.now }
{
    let (machine, mut ports) = three_sources(alloc, slots)?;
    let mut injector = Sample { alloc, left: 1 };
    let mut steps = Steps::<L>::new(blank);
    run_lines(
        alloc,
        &machine,
        4096,
        &mut ports,
        &mut injector,
        script.lines(),
        &mut steps,
    )
}

// An outcome, and the number of its block.
fn outcome(outcome: Outcome) -> (&'static str, u32) {
    match outcome {
        Outcome::Nothing => (".", 0),
        Outcome::Queued(number) => ("Q", number),
        Outcome::Malformed(number, _) => ("M", number),
        Outcome::Duplicate(number, _) => ("D", number),
        Outcome::Fatal(number) => ("F", number),
        Outcome::NoSlot => ("-", 0),
        Outcome::Fault => ("!", 0),
        Outcome::Stopped => ("S", 0),
    }
}

// The number of the report behind a duplicate.
fn report_text(alloc: Global, outcome: Outcome) -> Result<String, AllocError> {
    match outcome {
        Outcome::Duplicate(_, report) => format!(in alloc; "/{report}"),
        _ => Ok(String::new(alloc)),
    }
}

// The context, the source, the outcome with its number and its report, and a mark of the acknowledgement.
fn call_text(alloc: Global, call: &Call) -> Result<String, AllocError> {
    let (letter, number) = outcome(call.reply.outcome);
    let report = report_text(alloc, call.reply.outcome)?;
    let ack = match call.reply.ack {
        AckState::NotAsked => "",
        AckState::Done => "+",
        AckState::Failed => "x",
    };
    format!(in alloc;
        " {}{}{letter}{number}{report}{ack}",
        call.context, call.source
    )
}

// How a delivered block was reported: nothing where it is a report of its own, else the report that it repeats.
fn repeat_text(alloc: Global, reported: &Reported) -> Result<String, AllocError> {
    match reported {
        Reported::New(_) => Ok(String::new(alloc)),
        Reported::Repeat(report) => format!(in alloc; "/{report}"),
    }
}

// A letter, a source, and the number of a block, with the report that it repeats.
fn taken_text(alloc: Global, taken: &Taken) -> Result<String, AllocError> {
    match taken {
        Taken::Delivered {
            source,
            seq,
            reported,
            ..
        } => {
            let report = repeat_text(alloc, reported)?;
            format!(in alloc; " t{source}{seq}{report}")
        }
        Taken::Dropped { source, seq, .. } => format!(in alloc; " d{source}{seq}"),
    }
}

fn end_text(alloc: Global, end: &InjectionEnd) -> Result<String, AllocError> {
    match end {
        InjectionEnd::Made { source, seq } => format!(in alloc; " i{source}{seq}"),
        _ => format!(in alloc; " i--"),
    }
}

// The calls, what was taken, the panic list, the injections, the cells that were looked at, and how many marks there are.
fn told(alloc: Global, ledger: &Ledger) -> Result<String, AllocError> {
    let mut text = String::new(alloc);
    for call in ledger.calls() {
        text.push_str(&call_text(alloc, call)?)?;
    }
    for taken in ledger.taken() {
        text.push_str(&taken_text(alloc, taken)?)?;
    }
    for entry in ledger.panic() {
        let letter = if entry.fatal { "P" } else { "p" };
        text.push_str(&format!(in alloc; " {letter}{}{}", entry.source, entry.seq)?)?;
    }
    for end in ledger.injections() {
        text.push_str(&end_text(alloc, end)?)?;
    }
    for cell in ledger.peeks() {
        text.push_str(&format!(in alloc; " ={cell:x}")?)?;
    }
    text.push_str(&format!(in alloc; " #{}", ledger.marks().len())?)?;
    Ok(text)
}

// What the ledger of a script tells, where so many packets may be pending.
fn told_of(alloc: Global, slots: u8, short: &str) -> Result<String, AllocError> {
    let text = spelled(alloc, short)?;
    let Ok(script) = read_script(alloc, &text) else {
        return format!(in alloc; "no script");
    };
    match ledger_of::<Brand>(alloc, Blank::new(1), &script, slots) {
        Ok(ledger) => told(alloc, &ledger),
        Err(_) => format!(in alloc; "stopped"),
    }
}

// How many lines `SLOTS|SCRIPT|TOLD` are right, up to the first that is not.
fn right(alloc: Global, lines: &str) -> Result<usize, Fail> {
    let mut count = 0usize;
    for line in lines.split('\n') {
        let (slots, rest) = line.split_once('|').unwrap_or(("", ""));
        let (script, want) = rest.split_once('|').unwrap_or(("", ""));
        if told_of(alloc, slots.parse::<u8>()?, script)?.as_str() != want {
            return Ok(count);
        }
        count = count.saturating_add(1);
    }
    Ok(count)
}

// Calls line by line. With one slot, a second block stands until the first is taken; an acknowledgement keeps what its rule keeps of the
// cell; a fatal block needs no slot, and no line is executed behind it; a malformed block; an injection makes a block, and another none.
const LINES: &str = "1|raise 1 Z;raise 2 I;nmi 1;nmi 2;work;nmi 2;| 00Q1 11-0 11Q1 t01 t11 #7\n\
    16|raise 3 Z;peek 3;nmi 3;peek 3;| 02Q1+ t21 =abcd00f0 =abcd00f1 #5\n\
    2|raise 1 Z;raise 1 I;raise 1 F;nmi 1;nmi 1;nmi 1;nmi 1;| 00Q1 00Q2 00F3 p01 p02 P03 #7\n\
    16|raise 1 X;nmi 1;| 00M1 d01 #3\n\
    16|inject 0x8;nmi 2;inject 0x8;| 11Q1 t11 i11 i-- #4";

#[test]
fn each_line_leaves_its_part_of_the_ledger(rt: HostRuntime) -> Result<(), Fail> {
    assert_eq!(rt; right(rt.alloc(), LINES)?, 5);
    Ok(())
}

// Turns of two contexts on three sources: the calls are told by source, and what was taken by the turns of context 0 and then of
// context 1; blocks that are equal to the first repeat its report. With one slot, a context finds none while another's block is pending,
// and a block that found none stands to the end.
const RUNS: &str = "16|raise 1 Z;raise 1 Z;raise 2 Z;raise 3 Z;run 2;\
    | 00Q1 00Q2 11Q1 11.0 02Q1+ 02.0 t01 t21/1 t02/1 t11/1 #6\n\
    1|raise 2 I;raise 1 Z;run 1;nmi 2;| 00Q1 11-0 02.0 11Q1 t01 t11 #5\n\
    1|raise 1 Z;raise 1 Z;run 2;| 00Q1 00-0 11.0 11.0 02.0 02.0 t01 #4";

// A fatal block within a run, where other blocks are pending: of context 0 in its first call, of context 0 in its second turn, and of
// context 1 behind all turns of context 0. No line is executed behind it.
const FATAL_RUNS: &str = "16|raise 2 Z;nmi 2;raise 1 F;raise 3 Z;raise 2 Z;run 3;work;\
    | 11Q1 00F1 11S0 p11 P01 #7\n\
    16|raise 2 Z;nmi 2;raise 1 Z;raise 1 F;raise 3 I;run 3;work;\
    | 11Q1 00Q1 00F2 11S0 02Q1+ p11 p01 p21 P02 #7\n\
    16|raise 1 Z;raise 2 F;run 2;| 00Q1 00.0 11F1 02.0 02.0 p01 P11 #4";

#[test]
fn each_run_makes_its_turns(rt: HostRuntime) -> Result<(), Fail> {
    assert_eq!(rt; right(rt.alloc(), RUNS)?, 3);
    assert_eq!(rt; right(rt.alloc(), FATAL_RUNS)?, 3);
    Ok(())
}

// Accesses fail in turn: each of the three up to the clear of a source of version 1; of six of a source of version 2 each of the four up
// to the clear, and then a call that succeeds; the fifth and the sixth, so that no block stands any more; the seventh, the first of the
// next call. A block of 20 bytes takes one access fewer.
const FAULTS: &str = "16|raise 1 Z;fail 1 1;nmi 1;fail 1 2;nmi 1;fail 1 3;nmi 1;nmi 1;\
    | 00!0 00!0 00!0 00Q1 t01 #9\n\
    16|raise 3 M;fail 3 1;nmi 3;fail 3 2;nmi 3;fail 3 3;nmi 3;fail 3 4;nmi 3;peek 3;nmi 3;\
    | 02!0 02!0 02!0 02!0 02Q1+ t21 =abcd00f0 #12\n\
    16|raise 3 M;raise 3 I;fail 3 5;nmi 3;peek 3;nmi 3;| 02Q1x 02.0 t21 =abcd00f0 #7\n\
    16|raise 3 M;raise 3 I;fail 3 6;nmi 3;peek 3;nmi 3;| 02Q1x 02.0 t21 =abcd00f0 #7\n\
    16|raise 3 M;raise 3 I;fail 3 7;nmi 3;nmi 3;nmi 3;| 02Q1+ 02!0 02Q2+ t21 t22 #7\n\
    16|raise 3 Z;raise 3 I;fail 3 5;nmi 3;nmi 3;| 02Q1x 02.0 t21 #6";

#[test]
fn each_access_of_a_call_fails_in_turn(rt: HostRuntime) -> Result<(), Fail> {
    assert_eq!(rt; right(rt.alloc(), FAULTS)?, 6);
    Ok(())
}

// Blocks whose bytes were reported before. Of two that are pending the second repeats the report of the first. From the report on to 10 s
// behind it, less a nanosecond, a block of any source is a duplicate, and at 10 s it is news. Malformed blocks make no report.
const REPEATS: &str = "16|raise 1 Z;raise 2 Z;nmi 2;nmi 1;work;| 11Q1 00Q1 t11 t01/1 #6\n\
    16|raise 1 Z;clock 5;nmi 1;clock 7;work;clock 10000000006;raise 2 Z;nmi 2;| 00Q1 11D1/1 t01 #9\n\
    16|raise 1 Z;clock 5;nmi 1;clock 7;work;clock 10000000007;raise 1 Z;nmi 1;| 00Q1 00Q2 t01 t02 #9\n\
    16|raise 1 X;nmi 1;work;raise 1 X;nmi 1;| 00M1 00M2 d01 d02 #6\n\
    16|raise 1 Z;run 1;raise 1 Z;raise 2 Z;run 2;\
    | 00Q1 11.0 02.0 00D2/1 00.0 11D1/1 11.0 02.0 02.0 t01 #6";

// A duplicate needs no slot, and is cleared and acknowledged as each block is; where its clear fails it stands, and where its
// acknowledgement fails no block stands any more.
const DUPLICATES: &str = "1|raise 3 Z;nmi 3;work;raise 1 I;nmi 1;raise 3 Z;nmi 3;peek 3;\
    | 02Q1+ 00Q1 02D2/1+ t21 t01 =abcd00f1 #9\n\
    16|raise 1 Z;nmi 1;work;raise 1 Z;fail 1 3;nmi 1;nmi 1;| 00Q1 00!0 00D2/1 t01 #8\n\
    16|raise 3 Z;nmi 3;work;raise 3 Z;raise 3 I;fail 3 5;nmi 3;nmi 3;| 02Q1+ 02D2/1x 02.0 t21 #9";

#[test]
fn a_block_that_was_reported_shortly_before_is_no_news(rt: HostRuntime) -> Result<(), Fail> {
    assert_eq!(rt; right(rt.alloc(), REPEATS)?, 5);
    assert_eq!(rt; right(rt.alloc(), DUPLICATES)?, 3);
    Ok(())
}
