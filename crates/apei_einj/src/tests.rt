// Tables by their bytes. The sample "injection" stands in docs/FORMATS.md.
mod inject;
mod machine;
mod run;
mod structure;
mod trigger;

use crate::{Einj, Entry};
use apei_base::Gas;
use std::alloc::Global;
use std::test::Fail;

// The headers of the sample: the common one, and the injection header.
const HEADERS: &str = "45494e4a5001000001714748455352545245504c41593031010000004748455301000000\
    300000000000000009000000";

// Its nine entries, of the actions 0 to 8.
const ENTRIES: &str = "0004000000000000000000000000000000000000000000000000000000000000\
    01000000004000040000007e000000000000000000000000ffffffffffffffff\
    02020000002000030800007e000000000000000000000000ffffffff00000000\
    03000000002000030c00007e000000000000000000000000ffffffff00000000\
    0404000000000000000000000000000000000000000000000000000000000000\
    0503000001080001b2000000000000009a00000000000000ff00000000000000\
    06010000002000031000007e0000000001000000000000000100000000000000\
    07000000000801031000007e000000000000000000000000ff00000000000000\
    08020000002000034000007e000000000000000000000000ffffffff00000000";

// A second entry of action 3, which is like the one of the sample.
const SECOND_3: &str = "03000000002000030c00007e000000000000000000000000ffffffff00000000";

// An entry of action 0 that does nothing.
const IDLE: &str = "0004000000000000000000000000000000000000000000000000000000000000";

// An entry of action 9 whose instruction and register are unknown.
const UNKNOWN: &str = "0907000005ffffffffffffffffffffff00000000000000000000000000000000";

// Writes bytes at an offset, as far as there is room.
fn put(bytes: &mut [u8], at: usize, value: &[u8]) {
    let mut next = at;
    for byte in value {
        if next < bytes.len() {
            bytes[next] = *byte;
            next += 1;
        }
    }
}

// The sample with these bytes at an offset and this checksum.
fn changed(alloc: Global, at: usize, value: &[u8], checksum: u8) -> Result<Vec<u8>, Fail> {
    let mut bytes = hex::decode(alloc, HEADERS)?;
    bytes.extend_from_slice(&hex::decode(alloc, ENTRIES)?)?;
    put(&mut bytes, at, value);
    put(&mut bytes, 9, &[checksum]);
    Ok(bytes)
}

// An entry, and how often it stands behind the nine of the sample; the bytes of the table's length, of its count, and its
// checksum; and how many entries are kept.
type More = (&'static str, usize, &'static [u8], &'static [u8], u8, usize);

// The sample with more entries.
fn with_more(alloc: Global, more: &More) -> Result<Vec<u8>, Fail> {
    let (entry, times, length, count, checksum, _kept) = *more;
    let mut bytes = changed(alloc, 44, count, checksum)?;
    put(&mut bytes, 4, length);
    let entry = hex::decode(alloc, entry)?;
    for _ in 0..times {
        bytes.extend_from_slice(&entry)?;
    }
    Ok(bytes)
}

// The refusal of a table in words, or that it is accepted.
fn told(alloc: Global, bytes: &[u8]) -> Result<String, Fail> {
    match Einj::read(alloc, bytes) {
        Ok(_) => Ok("accepted".to_string(alloc)?),
        Err(error) => Ok(error.to_string(alloc)?),
    }
}

// Two entries of the sample, each with all its fields.
const CHECK_BUSY: Entry = Entry {
    at: 240,
    action: 6,
    instruction: 1,
    flags: 0,
    register: Gas {
        space: 0,
        bit_width: 32,
        bit_offset: 0,
        access: 3,
        address: 0x7e00_0010,
    },
    value: 1,
    mask: 1,
};

const EXECUTE: Entry = Entry {
    at: 208,
    action: 5,
    instruction: 3,
    flags: 0,
    register: Gas {
        space: 1,
        bit_width: 8,
        bit_offset: 0,
        access: 1,
        address: 0xb2,
    },
    value: 0x9a,
    mask: 0xff,
};

// Where the anchors of the sample begin, by their actions.
const ANCHORS: [(u8, Option<u32>); 10] = [
    (0, None),
    (1, Some(80)),
    (2, Some(112)),
    (3, Some(144)),
    (4, None),
    (5, Some(208)),
    (6, Some(240)),
    (7, Some(272)),
    (8, Some(304)),
    (9, None),
];

// A second entry of an action is no anchor, one of an unknown action is passed over, and there is room for many: 32,713
// entries are a table of 1,046,864 bytes.
const MORE: [More; 3] = [
    (SECOND_3, 1, &[0x70], &[10], 0xa4, 10),
    (UNKNOWN, 1, &[0x70], &[10], 0x46, 9),
    (
        IDLE,
        32_704,
        &[0x50, 0xf9, 0x0f],
        &[0xc9, 0x7f],
        0x2b,
        32_713,
    ),
];

// The sample.
fn sample(alloc: Global) -> Result<Einj, Fail> {
    Ok(Einj::read(alloc, &changed(alloc, 44, &[9], 0x71)?)?)
}

// Where the anchor of an action begins.
fn begins(einj: &Einj, action: u8) -> Option<u32> {
    einj.anchor(action).map(|anchor| anchor.at)
}

#[test]
fn the_sample_gives_its_entries_and_their_anchors(rt: HostRuntime) -> Result<(), Fail> {
    let einj = sample(rt.alloc())?;
    assert_eq!(rt; einj.entries().len(), 9);
    assert_eq!(rt; einj.entries().get(5).copied(), Some(EXECUTE));
    assert_eq!(rt; einj.entries().get(6).copied(), Some(CHECK_BUSY));
    for (action, want) in ANCHORS {
        assert_eq!(rt; begins(&einj, action), want);
    }
    Ok(())
}

// How many entries are kept of the sample with more, and where the anchor of action 3 begins.
fn kept(alloc: Global, more: &More) -> Result<(usize, Option<u32>), Fail> {
    let einj = Einj::read(alloc, &with_more(alloc, more)?)?;
    Ok((einj.entries().len(), begins(&einj, 3)))
}

#[test]
fn more_entries_leave_the_anchors(rt: HostRuntime) -> Result<(), Fail> {
    for more in &MORE {
        assert_eq!(rt; kept(rt.alloc(), more)?, (more.5, Some(144)));
    }
    Ok(())
}

// What is changed in the sample: bytes at an offset, and the checksum; and what is told then.
const CHANGED: [(&str, usize, &[u8], u8, &str); 13] = [
    ("nothing", 44, &[9], 0x71, "accepted"),
    ("checksum", 44, &[9], 0x72, "1 table: 4 checksum"),
    ("header size 16", 36, &[16], 0x91, "2 header size"),
    ("header size 12", 36, &[12], 0x95, "accepted"),
    ("count 10", 44, &[10], 0x70, "3 count says 10, found 9"),
    ("instruction 5", 49, &[5], 0x70, "4 instruction at 48"),
    ("space 2", 148, &[2], 0x6f, "5 register at 144: 1 space"),
    (
        "no room for 36 bytes",
        312,
        &[0xe0, 0xff, 0xff, 0xff, 0xff, 0xff, 0xff, 0xff],
        0x56,
        "5 register at 304: 5 past end",
    ),
    (
        "room for 36 bytes",
        312,
        &[0xdc, 0xff, 0xff, 0xff, 0xff, 0xff, 0xff, 0xff],
        0x5a,
        "accepted",
    ),
    ("no action 1", 80, &[9], 0x69, "6 missing action 1"),
    ("no action 7", 272, &[9], 0x6f, "6 missing action 7"),
    ("no action 2", 112, &[9], 0x6a, "accepted"),
    ("no action 8", 304, &[9], 0x70, "accepted"),
];

// What is told of the sample with these bytes at an offset and this checksum.
fn told_of(alloc: Global, at: usize, value: &[u8], checksum: u8) -> Result<String, Fail> {
    told(alloc, &changed(alloc, at, value, checksum)?)
}

#[test]
fn a_changed_sample_is_refused_in_its_words(rt: HostRuntime) -> Result<(), Fail> {
    for (name, at, value, checksum, want) in &CHANGED {
        let text = told_of(rt.alloc(), *at, value, *checksum)?;
        assert_eq!(rt; text.as_str(), *want, "{name}");
    }
    let bytes = changed(rt.alloc(), 44, &[9], 0x71)?;
    let text = told(rt.alloc(), bytes.get(..35).unwrap_or(&[]))?;
    assert_eq!(rt; text.as_str(), "1 table: 1 short");
    Ok(())
}
