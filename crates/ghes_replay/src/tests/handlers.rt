//! Replays with handlers: what they are told, what they close with, and that they come back at every end.
ghost use Rattle.std.specs.Prelude.{◌≤◌, IfOk, vec_len};

use super::probe::Probe;
use super::{FATES, Ran, USAGE, all_files, ask};
use crate::SeverityCounter;
use ghes_notify::{Handler, Verdict};
use std::alloc::Global;
use std::test::*;

// The report of one block with a memory section, and the summary of it.
const MEMORY: &str =
    "nmi 1: queued 1\nreport source 1 block 1\n  severity corrected\n  entry 0 memory severity corrected\n\
    \x20   physical address 0x0000000012345000\n    mask 0xfffffffffffff000\n    type 0x02\nsummary\n\
    source 1: raised 1, acknowledged 1, delivered 1, duplicate 0, dropped 0, panic 0\n\
    reports 1, repeats 0, no slot 0, fault 0\n";

// A script of table "hest", the status, and the closing line of a counter.
const COUNTED: [(&str, u8, &str); 5] = [
    // Of a delivered, and not of a dropped block.
    ("fates", 0, "recoverable 0, fatal 0, corrected 1, none 0"),
    // What a panic report has was not delivered.
    ("fatal", 1, "recoverable 0, fatal 0, corrected 0, none 0"),
    // A repeat is delivered.
    ("twice", 0, "recoverable 0, fatal 0, corrected 2, none 0"),
    // A duplicate is not.
    ("later", 0, "recoverable 0, fatal 0, corrected 1, none 0"),
    ("words", 0, "recoverable 1, fatal 0, corrected 0, none 1"),
];

#[test]
fn a_counter_closes_with_what_was_delivered(rt: HostRuntime) -> Result<(), Fail> {
    let alloc = rt.alloc();
    for (script, status, counts) in &COUNTED {
        let handlers = Vec::from_array(alloc, [SeverityCounter::new()])?;
        let words = ["replay", "hest", "-", *script];
        let ran = ask(alloc, &words, all_files(alloc, &[])?, &[], handlers)?;
        let line = format!(in alloc; "fault 0\nseverities: {counts}\n")?;
        assert_eq!(rt; ran.end.status, *status, "at {script}");
        assert!(rt; ran.out.written().ends_with(line.as_bytes()), "at {script}");
    }
    Ok(())
}

#[test]
fn two_counters_close_one_after_the_other_and_come_back(rt: HostRuntime) -> Result<(), Fail> {
    let alloc = rt.alloc();
    let mut handlers: Vec<Box<dyn Handler + Send>> = Vec::new(alloc);
    handlers.push(Box::new(alloc, SeverityCounter::new())?)?;
    handlers.push(Box::new(alloc, SeverityCounter::new())?)?;
    let words = ["replay", "hest", "-", "memory"];
    let Ran { end, out } = ask(alloc, &words, all_files(alloc, &[])?, &[], handlers)?;
    let line = "severities: recoverable 0, fatal 0, corrected 1, none 0\n";
    let text = format!(in alloc; "{MEMORY}{line}{line}")?;
    assert_eq!(rt; end.status, 0);
    assert!(rt; out.written() == text.as_bytes());
    let mut handlers = end.handlers;
    assert_eq!(rt; handlers.len(), 2);
    // A box that came back is dropped, and the other closes again.
    handlers.remove(0);
    let mut closing = Vec::new(alloc);
    handlers[0].closing(&mut closing)?;
    assert!(rt; closing.as_slice() == line.as_bytes());
    Ok(())
}

// Two probes, of which the first goes on so often, then answers so, and finds memory for its closing text or none.
fn probes(alloc: Global, after: u8, verdict: Verdict, closes: bool) -> Result<Vec<Probe>, Fail>
    ensures { IfOk result (λ handlers. vec_len handlers ≤ 32) }
{
    let first = Probe {
        after,
        verdict,
        closes,
        ..Probe::new(b'a')
    };
    Ok(Vec::from_array(alloc, [first, Probe::new(b'b')])?)
}

// How the first of two handlers ends three deliveries, the status, and how often each was told.
const ENDINGS: [(u8, Verdict, bool, u8, [u8; 2]); 5] = [
    (0, Verdict::Go, true, 0, [3, 3]),
    (0, Verdict::Stop, true, 0, [3, 0]),
    (1, Verdict::Stop, true, 0, [3, 1]),
    (1, Verdict::NoMemory, true, 7, [2, 1]),
    (9, Verdict::Go, false, 7, [3, 3]),
];

#[test]
fn a_handler_ends_a_delivery_or_the_run_and_all_come_back(rt: HostRuntime) -> Result<(), Fail> {
    let alloc = rt.alloc();
    for (after, verdict, closes, status, told) in ENDINGS {
        let handlers = probes(alloc, after, verdict, closes)?;
        let words = ["replay", "hest", "-", "three"];
        let ran = ask(alloc, &words, all_files(alloc, &[])?, &[], handlers)?;
        let [first, second] = ran.end.handlers.as_slice() else {
            panic!(rt; "two handlers were handed in");
        };
        assert_eq!(rt; ran.end.status, status);
        assert_eq!(rt; (first.name, second.name), (b'a', b'b'));
        assert_eq!(rt; [first.told, second.told], told);
        assert_eq!(rt; ran.end.ledger.is_some(), status == 0);
        if status == 0 {
            assert!(rt; ran.out.written().ends_with(&[b'a', told[0], b'b', told[1]]));
        } else {
            assert!(rt; ran.out.written() == b"ghes: out of memory\n".as_slice());
        }
    }
    Ok(())
}

// The words, the puts that fail, the status, and how often each handler was told.
const ENDS: [(&[&str], &[u64], u8, u8); 9] = [
    (&["replay", "hest", "-", "three"], &[1], 6, 3),
    (&["replay", "hest", "-", "bad"], &[1], 6, 0),
    (&["replay", "sum", "-", "three"], &[], 3, 0),
    (&["replay", "hest", "-", "bad"], &[], 4, 0),
    (&["replay", "hest", "-", "none"], &[], 5, 0),
    (&["replay", "lap", "-", "three"], &[], 8, 0),
    (&["replay"], &[], 2, 0),
    (&["check", "hest", "-"], &[], 0, 0),
    (&["decode", "block"], &[], 0, 0),
];

#[test]
fn at_every_end_the_handlers_come_back_in_their_order(rt: HostRuntime) -> Result<(), Fail> {
    let alloc = rt.alloc();
    for (words, puts, status, told) in &ENDS {
        let handlers = probes(alloc, 9, Verdict::Go, true)?;
        let ran = ask(alloc, words, all_files(alloc, &[])?, puts, handlers)?;
        let [first, second] = ran.end.handlers.as_slice() else {
            panic!(rt; "two handlers were handed in");
        };
        assert_eq!(rt; ran.end.status, *status, "at {words:?}");
        assert_eq!(rt; (first.name, second.name), (b'a', b'b'), "at {words:?}");
        assert_eq!(rt; (first.told, second.told), (*told, *told), "at {words:?}");
    }
    Ok(())
}
