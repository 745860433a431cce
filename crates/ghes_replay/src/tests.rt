//! Runs over files and an output in memory. Many more runs, of the built program, stand in checks/runs.py.
mod handlers;
mod probe;

ghost use Rattle.std.specs.Prelude.{◌≤◌, vec_len};

use crate::{Outcome, Reported, RunEnd, SeverityCounter, Taken, check_run, decode_run, ghes_run};
use ghes_notify::Handler;
use ghes_outside::{MemFiles, MemSink};
use std::alloc::Global;
use std::test::Fail;

// Files by name, as hexadecimal digits: the tables "one source" and "injection" of docs/FORMATS.md, the first with another
// checksum, and with its source disabled, the table "two sources", and with two registers that overlap, a block with three raw
// bytes, and a file of one byte.
const BYTES: [(&str, &str); 8] = [
    (
        "hest",
        "484553546800000001404748455352545245504c4159303101000000474845530100000001000000\
        09000100ffff0001010000000100000000000000004000040000007f00000000\
        041c000000000000000000000000000000000000000000000000000000100000",
    ),
    (
        "sum",
        "484553546800000001414748455352545245504c4159303101000000474845530100000001000000\
        09000100ffff0001010000000100000000000000004000040000007f00000000\
        041c000000000000000000000000000000000000000000000000000000100000",
    ),
    (
        "off",
        "484553546800000001414748455352545245504c4159303101000000474845530100000001000000\
        09000100ffff0000010000000100000000000000004000040000007f00000000\
        041c000000000000000000000000000000000000000000000000000000100000",
    ),
    (
        "einj",
        "45494e4a5001000001714748455352545245504c4159303101000000474845530100000030000000\
        0000000009000000\
        0004000000000000000000000000000000000000000000000000000000000000\
        01000000004000040000007e000000000000000000000000ffffffffffffffff\
        02020000002000030800007e000000000000000000000000ffffffff00000000\
        03000000002000030c00007e000000000000000000000000ffffffff00000000\
        0404000000000000000000000000000000000000000000000000000000000000\
        0503000001080001b2000000000000009a00000000000000ff00000000000000\
        06010000002000031000007e0000000001000000000000000100000000000000\
        07000000000801031000007e000000000000000000000000ff00000000000000\
        08020000002000034000007e000000000000000000000000ffffffff00000000",
    ),
    (
        "two",
        "48455354c4000000012d4748455352545245504c4159303101000000474845530100000002000000\
        09000100ffff0001010000000100000000000000004000040000007f00000000\
        041c000000000000000000000000000000000000000000000000000000100000\
        0a000200ffff0001010000000100000000000000004000040800007f00000000\
        041c000000000000000000000000000000000000000000000000000000100000\
        002000030010007f00000000feffffff000000000100000000000000",
    ),
    (
        "lap",
        "48455354c400000001314748455352545245504c4159303101000000474845530100000002000000\
        09000100ffff0001010000000100000000000000004000040000007f00000000\
        041c000000000000000000000000000000000000000000000000000000100000\
        0a000200ffff0001010000000100000000000000004000040400007f00000000\
        041c000000000000000000000000000000000000000000000000000000100000\
        002000030010007f00000000feffffff000000000100000000000000",
    ),
    (
        "block",
        "0200000018000000030000000000000001000000ffffffff010203",
    ),
    ("-", "ff"),
];

// Scripts by name.
const SCRIPTS: [(&str, &str); 10] = [
    (
        "fates",
        "raise 1 0200000000000000000000000000000002000000\nraise 1 0200000000000000000000000100000002000000\n\
        nmi 1\nnmi 1\nwork\nnmi 1\n",
    ),
    (
        "fatal",
        "raise 1 0200000000000000000000000000000003000000\nraise 1 0100000000000000000000000000000001000000\n\
        nmi 1\nnmi 1\nnmi 1\n",
    ),
    ("bad", "work\nnmi 1\nworks\nnmi 7\n"),
    (
        "pool",
        "slots 1\nackcell 2 0xabcd00f0\nraise 1 0200000000000000000000000000000002000000\n\
        raise 2 0200000000000000000000000000000003000000\nnmi 1\nnmi 2\nwork\nnmi 2\npeek 2\n",
    ),
    (
        "inject",
        "busy 2\ninject 0x8 memory 0x12345678 0xfffffffffffff000\nnmi 1\n",
    ),
    (
        "memory",
        "raise 1 12000000000000000000000090000000020000001411bca5646fde4eb8633e83ed7c83b1\
        020000000102000050000000000000000000000000000000000000000000000000000000\
        00000000000000000000000006400000000000000000000000000000005034120000000000f0ffffffffffff\
        000000000000000000000000000000000000000000000000000000000000000000000000000000000200000000000000\n\
        nmi 1\nwork\n",
    ),
    (
        "twice",
        "raise 1 0200000000000000000000000000000002000000\nraise 1 0200000000000000000000000000000002000000\n\
        nmi 1\nnmi 1\nwork\n",
    ),
    (
        "later",
        "raise 1 0200000000000000000000000000000002000000\nnmi 1\nwork\n\
        raise 1 0200000000000000000000000000000002000000\nnmi 1\n",
    ),
    (
        "words",
        "raise 1 0200000000000000000000000000000003000000\nraise 1 0200000000000000000000000000000000000000\n\
        nmi 1\nnmi 1\n",
    ),
    (
        "three",
        "raise 1 1200000000000000000000000000000002000000\nraise 1 2200000000000000000000000000000002000000\n\
        raise 1 3200000000000000000000000000000002000000\nnmi 1\nnmi 1\nwork\nnmi 1\n",
    ),
];

const FATES: &str =
    "nmi 1: queued 1\nnmi 1: malformed 2: 3 data length\nreport source 1 block 1\n  severity corrected\n\
    dropped source 1 block 2: 3 data length\n  data 0200000000000000000000000100000002000000\nnmi 1: nothing\nsummary\n\
    source 1: raised 2, acknowledged 2, delivered 1, duplicate 0, dropped 1, panic 0\n\
    reports 1, repeats 0, no slot 0, fault 0\n";

const FATAL: &str =
    "nmi 1: queued 1\nnmi 1: fatal 2\npanic\npending source 1 block 1\n  severity none\n\
    fatal source 1 block 2\n  severity fatal\nend of panic\nsummary\n\
    source 1: raised 2, acknowledged 2, delivered 0, duplicate 0, dropped 0, panic 2\n\
    reports 0, repeats 0, no slot 0, fault 0\n";

const POOL: &str =
    "nmi 1: queued 1\nnmi 2: no slot\nreport source 1 block 1\n  severity corrected\nnmi 2: queued 1\n\
    cell 2: 0xabcd00f1\nreport source 2 block 1\n  severity none\nsummary\n\
    source 1: raised 1, acknowledged 1, delivered 1, duplicate 0, dropped 0, panic 0\n\
    source 2: raised 1, acknowledged 1, delivered 1, duplicate 0, dropped 0, panic 0\n\
    reports 2, repeats 0, no slot 1, fault 0\n";

const INJECTED: &str =
    "inject 0x00000008: source 1 block 1\nnmi 1: queued 1\nreport source 1 block 1\n  severity corrected\n\
    \x20 entry 0 memory severity corrected\n    physical address 0x0000000012345678\n\
    \x20   mask 0xfffffffffffff000\n    type 0x02\nsummary\n\
    source 1: raised 1, acknowledged 1, delivered 1, duplicate 0, dropped 0, panic 0\n\
    reports 1, repeats 0, no slot 0, fault 0\n";

const LISTED: &str = "hest: 1 sources\n1 at 40: ghes enabled, notification 4, block length 4096\n";

const USAGE: &str =
    "ghes: usage: replay HEST EINJ SCRIPT | check HEST EINJ | decode BLOCK | load N\n";

// A run that ended, and its output.
#[derive(Drop)]
struct Ran<H> {
    end: RunEnd<H>,
    out: MemSink,
}

// The files and the scripts. The numbered loads fail.
fn all_files(alloc: Global, failing: &[u64]) -> Result<MemFiles, Fail> {
    let mut files = MemFiles::new(alloc, failing)?;
    for (name, digits) in &BYTES {
        files.add(name, &hex::decode(alloc, digits)?)?;
    }
    for (name, script) in &SCRIPTS {
        files.add(name, script.as_bytes())?;
    }
    Ok(files)
}

// Does what the words ask for, with these files, an output on which the numbered puts fail, and these handlers.
fn ask<H: Handler>(
    alloc: Global,
    words: &[&str],
    mut files: MemFiles,
    puts: &[u64],
    handlers: Vec<H>,
) -> Result<Ran<H>, Fail>
    requires { vec_len handlers ≤ 32 }
{
    let mut all = Vec::new(alloc);
    for word in words {
        all.push(String::from_str(alloc, word)?)?;
    }
    let mut out = MemSink::new(alloc, 2_000_000, puts)?;
    let end = ghes_run(alloc, &all, &mut files, &mut out, handlers);
    Ok(Ran { end, out })
}

// The same with no handlers.
fn ask_alone(
    alloc: Global,
    words: &[&str],
    files: MemFiles,
    puts: &[u64],
) -> Result<Ran<SeverityCounter>, Fail> {
    ask(alloc, words, files, puts, Vec::new(alloc))
}

// The words, the loads and the puts that fail, the status and the output.
type Case = (
    &'static [&'static str],
    &'static [u64],
    &'static [u64],
    u8,
    &'static [&'static str],
);

const CASES: [Case; 22] = [
    // The load and the put behind those that a run makes would fail.
    (&["replay", "hest", "-", "fates"], &[3], &[2], 0, &[FATES]),
    (&["replay", "hest", "-", "fatal"], &[], &[], 1, &[FATAL]),
    (
        &["replay", "hest", "einj", "fates"],
        &[4],
        &[2],
        0,
        &[FATES],
    ),
    (
        &["replay", "hest", "einj", "inject"],
        &[],
        &[],
        0,
        &[INJECTED],
    ),
    (&["replay", "two", "-", "pool"], &[], &[], 0, &[POOL]),
    (
        &["replay", "lap", "-", "none"],
        &[],
        &[],
        8,
        &["ghes: platform: 1 overlap of source 1 and source 2 at memory 0x000000007f000004\n"],
    ),
    (
        &["check", "hest", "-"],
        &[2],
        &[2],
        0,
        &[LISTED, "einj: none\n"],
    ),
    (
        &["check", "hest", "einj"],
        &[3],
        &[2],
        0,
        &[LISTED, "einj: 9 entries\n"],
    ),
    (
        &["decode", "block"],
        &[2],
        &[2],
        0,
        &["block of 27 bytes\n  severity fatal\n  raw 3 bytes\n"],
    ),
    (&["decode", "-"], &[], &[], 0, &["malformed 1 too short\n"]),
    (&[], &[], &[], 2, &[USAGE]),
    (&["replay", "hest", "einj"], &[], &[], 2, &[USAGE]),
    (
        &["replay", "sum", "-", "bad"],
        &[],
        &[],
        3,
        &["ghes: hest: 1 table: 4 checksum\n"],
    ),
    (
        &["replay", "off", "-", "bad"],
        &[],
        &[],
        4,
        &["ghes: script: line 2: 9 source\n"],
    ),
    (
        &["check", "hest", "hest"],
        &[],
        &[],
        3,
        &["ghes: einj: 1 table: 2 signature\n"],
    ),
    (
        &["replay", "hest", "-", "bad"],
        &[],
        &[],
        4,
        &["ghes: script: line 3: 1 command\n"],
    ),
    (
        &["replay", "hest", "-", "none"],
        &[],
        &[],
        5,
        &["ghes: read none: 1 failed\n"],
    ),
    (
        &["replay", "hest", "-", "fates"],
        &[2],
        &[],
        5,
        &["ghes: read fates: 1 failed\n"],
    ),
    (
        &["check", "hest", "einj"],
        &[2],
        &[],
        5,
        &["ghes: read einj: 1 failed\n"],
    ),
    (
        &["decode", "block"],
        &[1],
        &[],
        5,
        &["ghes: read block: 1 failed\n"],
    ),
    (&["check", "hest", "einj"], &[], &[1], 6, &[]),
    (&["replay", "hest", "-", "bad"], &[], &[1], 6, &[]),
];

#[test]
fn a_run_ends_with_its_status_and_its_text(rt: HostRuntime) -> Result<(), Fail> {
    let alloc = rt.alloc();
    for (words, loads, puts, status, pieces) in &CASES {
        let ran = ask_alone(alloc, words, all_files(alloc, loads)?, puts)?;
        let mut text = String::new(alloc);
        for piece in *pieces {
            text.push_str(piece)?;
        }
        assert_eq!(rt; ran.end.status, *status, "at {words:?}");
        assert!(rt; ran.out.written() == text.as_bytes(), "at {words:?}");
    }
    Ok(())
}

#[test]
fn the_calls_without_words_answer_as_the_words_do(rt: HostRuntime) -> Result<(), Fail> {
    let alloc = rt.alloc();
    // The second load fails: a listing without an injection table makes one.
    let mut files = all_files(alloc, &[2])?;
    let mut out = MemSink::new(alloc, 1000, &[])?;
    let ends = [
        check_run(alloc, "hest", "-", &mut files, &mut out),
        check_run(alloc, "hest", "einj", &mut files, &mut out),
        decode_run(alloc, "-", &mut files, &mut out),
        decode_run(alloc, "x", &mut files, &mut out),
    ];
    let text = format!(in alloc;
        "{LISTED}einj: none\nghes: read hest: 1 failed\nmalformed 1 too short\nghes: read x: 1 failed\n"
    )?;
    assert!(rt; ends == [0, 5, 0, 5]);
    assert!(rt; out.written() == text.as_bytes());
    Ok(())
}

#[test]
fn the_ledger_has_the_calls_the_blocks_the_reports_and_the_marks(
    rt: HostRuntime,
) -> Result<(), Fail> {
    let alloc = rt.alloc();
    let words = ["replay", "hest", "-", "fates"];
    let end = ask_alone(alloc, &words, all_files(alloc, &[])?, &[])?.end;
    let ledger = end.ledger.ok_or("no ledger")?;
    assert_eq!(rt; ledger.calls.len(), 3);
    assert_eq!(rt; ledger.calls[0].reply.outcome, Outcome::Queued(1));
    assert_eq!(rt; ledger.taken.len(), 2);
    assert!(rt;
        matches!(
            &ledger.taken[0],
            Taken::Delivered {
                seq: 1,
                reported: Reported::New(1),
                ..
            }
        )
    );
    assert!(rt; matches!(&ledger.taken[1], Taken::Dropped { seq: 2, .. }));
    assert_eq!(rt; ledger.reports.len(), 1);
    // A mark for each of the six lines, and one for the end.
    assert_eq!(rt; ledger.marks.len(), 7);
    let end = &ledger.marks[6];
    assert_eq!(rt; (end.line, end.calls, end.taken), (0, 3, 2));
    Ok(())
}

#[test]
fn long_inputs_are_taken_whole_and_cut_outputs_keep_a_front(rt: HostRuntime) -> Result<(), Fail> {
    let alloc = rt.alloc();
    // 100,000 lines of the script, of which each prints 15 bytes, in 366 pieces and a rest.
    let mut script = Vec::new(alloc);
    for _ in 0..100_000 {
        script.extend_from_slice(b"nmi 1\n")?;
    }
    for (puts, status, length) in [(&[][..], 0, 1_500_000), (&[101][..], 6, 409_600)] {
        let mut files = all_files(alloc, &[])?;
        files.add("long", &script)?;
        let ran = ask_alone(alloc, &["replay", "hest", "-", "long"], files, puts)?;
        assert_eq!(rt; ran.end.status, status);
        assert_eq!(rt; ran.out.written().len() / 4096, length / 4096);
        assert!(rt; ran.end.ledger.is_some());
    }
    Ok(())
}
