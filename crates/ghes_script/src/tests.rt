//! What scripts ask for, and how they are refused.
use crate::ScriptKind::{
    Command, Hex, NoInjection, Number, Order, Range, Source, TooLong, Unprintable, Words,
};
use crate::{Class, Script, ScriptError, ScriptKind, SourceName, What};
use apei_einj::{Place, Request};
use std::alloc::{AllocError, Global};
use std::test::Fail;

const NAMES: [SourceName; 3] = [
    SourceName { id: 1, v2: false },
    SourceName { id: 2, v2: true },
    SourceName {
        id: 65535,
        v2: true,
    },
];

// The number of a class.
fn class(class: Class) -> u64 {
    match class {
        Class::Processor => 1,
        Class::Memory => 2,
        Class::Pcie => 3,
        Class::Platform => 4,
    }
}

// What an injection is of, in short.
fn injected(request: &Request) -> (&'static str, [u64; 3]) {
    let error = u64::from(request.error);
    match request.place {
        Place::Nowhere => ("inject", [error, 0, 0]),
        Place::Memory { address, mask } => ("inject memory", [error, address, mask]),
        Place::Processor(id) => ("inject processor", [error, u64::from(id), 0]),
        Place::Pcie(word) => ("inject pcie", [error, u64::from(word), 0]),
    }
}

// What a line asks for, in short: its name and its numbers, and of a block its size.
fn short(what: &What) -> (&'static str, [u64; 3]) {
    match what {
        What::Slots(n) => ("slots", [u64::from(*n), 0, 0]),
        What::Contexts(n) => ("contexts", [u64::from(*n), 0, 0]),
        What::Serve(at, context) => ("serve", [*at as u64, u64::from(*context), 0]),
        What::AckCell(at, value) => ("ackcell", [*at as u64, *value, 0]),
        What::Available(value) => ("available", [u64::from(*value), 0, 0]),
        What::Busy(n) => ("busy", [u64::from(*n), 0, 0]),
        What::Status(n) => ("status", [u64::from(*n), 0, 0]),
        What::Route(of, at) => ("route", [class(*of), *at as u64, 0]),
        What::Clock(time) => ("clock", [*time, 0, 0]),
        What::Raise(at, block) => ("raise", [*at as u64, block.as_slice().len() as u64, 0]),
        What::Inject(request) => injected(request),
        What::Nmi(at) => ("nmi", [*at as u64, 0, 0]),
        What::Work => ("work", [0, 0, 0]),
        What::Run(n) => ("run", [u64::from(*n), 0, 0]),
        What::Peek(at) => ("peek", [*at as u64, 0, 0]),
        What::Fail(at, n) => ("fail", [*at as u64, *n, 0]),
    }
}

// A line of each form, and lines that are skipped.
const SCRIPT: &str = "# the settings\n\
    \x20\n\
    slots 64\n\
    contexts 0x3\n\
    serve 1 2\n\
    serve 65535 0\n\
    serve 1 1\n\
    ackcell 2 0xfFFFFFFFFFFFFFFF\n\
    available 4294967295\n\
    busy 002000\n\
    status 255\n\
    route memory 2\n\
    route processor 1\n\
    route pcie 1\n\
    route platform 65535\n\
    \n\
    #the commands ~\n\
    \x20 clock   5  \n\
    clock 5\n\
    raise 2 fA0000000000000000000000000000000200Ff0A\n\
    inject 0x8\n\
    inject 1 memory 0x1000 0xfff\n\
    inject 0x800 processor 4294967295\n\
    inject 64 pcie 0x0\n\
    nmi 2\n\
    work\n\
    run 1000\n\
    peek 65535\n\
    fail 1 16\n\
    clock 18446744073709551615";

// The lines of the script that are not skipped.
const LINES: [(u32, &str, [u64; 3]); 26] = [
    (3, "slots", [64, 0, 0]),
    (4, "contexts", [3, 0, 0]),
    (5, "serve", [0, 2, 0]),
    (6, "serve", [2, 0, 0]),
    (7, "serve", [0, 1, 0]),
    (8, "ackcell", [1, 0xffff_ffff_ffff_ffff, 0]),
    (9, "available", [0xffff_ffff, 0, 0]),
    (10, "busy", [2000, 0, 0]),
    (11, "status", [255, 0, 0]),
    (12, "route", [2, 1, 0]),
    (13, "route", [1, 0, 0]),
    (14, "route", [3, 0, 0]),
    (15, "route", [4, 2, 0]),
    (18, "clock", [5, 0, 0]),
    (19, "clock", [5, 0, 0]),
    (20, "raise", [1, 20, 0]),
    (21, "inject", [8, 0, 0]),
    (22, "inject memory", [1, 0x1000, 0xfff]),
    (23, "inject processor", [0x800, 0xffff_ffff, 0]),
    (24, "inject pcie", [64, 0, 0]),
    (25, "nmi", [1, 0, 0]),
    (26, "work", [0, 0, 0]),
    (27, "run", [1000, 0, 0]),
    (28, "peek", [2, 0, 0]),
    (29, "fail", [0, 16, 0]),
    (30, "clock", [18446744073709551615, 0, 0]),
];

#[test]
fn each_line_asks_for_what_it_spells(rt: HostRuntime) -> Result<(), Fail> {
    let script = Script::read(rt.alloc(), SCRIPT.as_bytes(), &NAMES, true)
        .ok()
        .ok_or("refused")?;
    let lines = script.lines();
    assert_eq!(rt; lines.len(), LINES.len());
    for (line, (number, name, numbers)) in lines.iter().zip(&LINES) {
        assert_eq!(rt;
            (line.number, short(&line.what)),
            (*number, (*name, *numbers))
        );
        if let What::Raise(_, block) = &line.what {
            let bytes = [
                0xfa, 0, 0, 0, 0, 0, 0, 0, 0, 0, 0, 0, 0, 0, 0, 0, 2, 0, 0xff, 0x0a,
            ];
            assert_eq!(rt; block.as_slice(), bytes.as_slice());
        }
    }
    Ok(())
}

// Scripts over all sources and an injection table, the number of the first bad line, and its kind.
const BAD: [(&str, u32, ScriptKind); 78] = [
    ("halt", 1, Command),
    ("Nmi 1", 1, Command),
    ("nmi1", 1, Command),
    ("1 nmi", 1, Command),
    ("raise # 1", 1, Number),
    ("nmi", 1, Words),
    ("nmi 1 1", 1, Words),
    ("work 1", 1, Words),
    ("raise 1", 1, Words),
    ("raise x zz zz", 1, Words),
    ("serve any", 1, Words),
    ("clock", 1, Words),
    ("clock 1 # late", 1, Words),
    ("inject", 1, Words),
    ("inject 1 cache", 1, Words),
    ("inject x cache 1", 1, Words),
    ("inject 1 memory 1", 1, Words),
    ("inject 1 memory 1 2 3", 1, Words),
    ("inject 1 processor", 1, Words),
    ("inject 1 processor 1 2", 1, Words),
    ("inject 1 pcie 1 2", 1, Words),
    ("clock 18446744073709551616", 1, Number),
    ("clock 99999999999999999999999999999999999999", 1, Number),
    ("clock +5", 1, Number),
    ("clock -5", 1, Number),
    ("clock 5a", 1, Number),
    ("clock 0x", 1, Number),
    ("clock 0X5", 1, Number),
    ("clock 0xg", 1, Number),
    ("clock 0x00000000000000005", 1, Number),
    ("clock x5", 1, Number),
    ("clock 1_000", 1, Number),
    ("nmi x", 1, Number),
    ("fail 1 x", 1, Number),
    ("fail x 17", 1, Number),
    ("ackcell 2 x", 1, Number),
    ("inject x", 1, Number),
    ("inject 1 memory 0 x", 1, Number),
    ("inject 1 memory x 0", 1, Number),
    ("inject 1 processor x", 1, Number),
    ("raise 1 020", 1, Hex),
    ("raise 1 zz", 1, Hex),
    ("raise 1 0x02", 1, Hex),
    ("raise 1 020000000000000000000000000000000200000z", 1, Hex),
    ("raise 1 02000000000000000000000000000000020000", 1, Range),
    ("raise 1 0000000000000000000000000000000000000000", 1, Range),
    ("raise 1 0000000001000000000000000000000002000000", 1, Range),
    ("slots 0", 1, Range),
    ("slots 65", 1, Range),
    ("contexts 0", 1, Range),
    ("contexts 17", 1, Range),
    ("serve 1 1", 1, Range),
    ("contexts 2\nserve 1 2", 2, Range),
    ("contexts 2\nserve 1 65536", 2, Range),
    ("available 4294967296", 1, Range),
    ("busy 2001", 1, Range),
    ("status 256", 1, Range),
    ("route foo 7", 1, Range),
    ("run 0", 1, Range),
    ("run 1001", 1, Range),
    ("fail 1 0", 1, Range),
    ("fail 1 17", 1, Range),
    ("inject 0", 1, Range),
    ("inject 0x3 memory x", 1, Words),
    ("inject 0x3", 1, Range),
    ("inject 0x1000", 1, Range),
    ("inject 0x100000001", 1, Range),
    ("inject 1 processor 0x100000000", 1, Range),
    ("inject 1 pcie 4294967296", 1, Range),
    ("nmi 1\nslots 999", 2, Range),
    ("nmi 1\nslots 2", 2, Order),
    ("clock 0\n\n#\nstatus 0", 4, Order),
    ("serve 1 0\ncontexts 1", 2, Order),
    ("clock 5\nclock 4", 2, Order),
    ("nmi 7", 1, Source),
    ("nmi 65537", 1, Source),
    ("peek 1", 1, Source),
    ("ackcell 1 x", 1, Source),
];

// Bytes that may not stand, behind what is skipped or bad in another way; the kind is 7.
const UNPRINTABLE: [&str; 9] = [
    "work\r\n",
    "#\t",
    "\t",
    " \u{0}",
    "#\u{7f}",
    "# \u{e9}",
    "halt \u{1f}",
    "raise 1 zz\u{b}",
    "\rwork",
];

// Scripts without an injection table, or without sources.
const OTHERS: [(bool, bool, &str, ScriptKind); 8] = [
    (true, false, "inject 0x8", NoInjection),
    (true, false, "inject x", NoInjection),
    (true, false, "inject x cache", Words),
    (false, false, "inject 0x8", NoInjection),
    (false, true, "inject 0x3", Source),
    (false, true, "inject x", Number),
    (false, true, "nmi 1", Source),
    (false, true, "route foo 7", Range),
];

// The refusal of a script.
fn refusal(
    alloc: Global,
    bytes: &[u8],
    names: &[SourceName],
    injection: bool,
) -> Option<ScriptError> {
    if bytes.len() > 1 << 30 {
        return None;
    }
    Script::read(alloc, bytes, names, injection).err()
}

#[test]
fn the_first_bad_line_is_told_with_its_first_kind(rt: HostRuntime) -> Result<(), Fail> {
    for (script, line, kind) in &BAD {
        let refused = refusal(rt.alloc(), script.as_bytes(), &NAMES, true);
        let at = ScriptError::Line {
            line: *line,
            kind: *kind,
        };
        assert_eq!(rt; refused, Some(at), "at {script}");
    }
    for script in &UNPRINTABLE {
        let refused = refusal(rt.alloc(), script.as_bytes(), &NAMES, true);
        let at = ScriptError::Line {
            line: 1,
            kind: Unprintable,
        };
        assert_eq!(rt; refused, Some(at), "at {script:?}");
    }
    for (sources, injection, script, kind) in &OTHERS {
        let names: &[SourceName] = if *sources { &NAMES } else { &[] };
        let refused = refusal(rt.alloc(), script.as_bytes(), names, *injection);
        let at = ScriptError::Line {
            line: 1,
            kind: *kind,
        };
        assert_eq!(rt; refused, Some(at), "at {script}");
    }
    Ok(())
}

// A front, a piece so many times, and a back.
fn repeated(
    alloc: Global,
    front: &[u8],
    piece: &[u8],
    times: usize,
    back: &[u8],
) -> Result<Vec<u8>, AllocError> {
    let mut bytes = Vec::from_slice(alloc, front)?;
    for _ in 0..times {
        bytes.extend_from_slice(piece)?;
    }
    bytes.extend_from_slice(back)?;
    Ok(bytes)
}

// Large scripts, and the kind of line 1, or none where they are accepted.
const LARGE: [(&[u8], &[u8], usize, &[u8], Option<ScriptKind>); 10] = [
    (b"", b"#", 132_000, b"\n", None),
    (b"", b"#", 132_001, b"", Some(TooLong)),
    (b"", b"\t", 132_001, b"", Some(TooLong)),
    (b"", b" ", 132_000, b"", None),
    (b"", b"#", 16 << 20, b"", Some(TooLong)),
    (b"", b"\n", 16 << 20, b"", None),
    (b"clock ", b"0", 100_000, b"7", None),
    (b"raise 1 01", b"00", 65_535, b"", None),
    (b"raise 1 01", b"00", 65_536, b"", Some(Range)),
    (b"raise 1 01", b"0", 131_071, b"", Some(Hex)),
];

#[test]
fn large_scripts_are_read(rt: HostRuntime) -> Result<(), Fail> {
    for (front, piece, times, back, kind) in &LARGE {
        let bytes = repeated(rt.alloc(), front, piece, *times, back)?;
        let refused = refusal(rt.alloc(), &bytes, &NAMES, true);
        let wanted = kind.map(|kind| ScriptError::Line { line: 1, kind });
        assert_eq!(rt; refused, wanted, "at {times}");
    }
    let block =
        "raise 1 01000000000000000000000000000000020000001111111111111111111111111111111111\n";
    let bytes = repeated(rt.alloc(), b"", block.as_bytes(), 60_000, b"nmi 1\nhalt")?;
    assert!(rt; bytes.len() > 4 << 20);
    let at = ScriptError::Line {
        line: 60_002,
        kind: Command,
    };
    assert_eq!(rt; refusal(rt.alloc(), &bytes, &NAMES, true), Some(at));
    let calls = repeated(rt.alloc(), b"", b"nmi 1\n", 20_000, b"")?;
    assert!(rt; calls.len() < 1 << 30);
    let script = Script::read(rt.alloc(), &calls, &NAMES, false)
        .ok()
        .ok_or("refused")?;
    assert_eq!(rt; script.lines().len(), 20_000);
    Ok(())
}
