// Registers that overlap, and those that are too narrow.
use super::map_of;
use crate::FwError;
use std::alloc::Global;
use std::test::Fail;

// What is changed in the sample, and what is said. The status address register of source 1 has the cells 0x7f000000 to 0x7f000007, the
// registers of source 2 have 0x7f000008 to 0x7f00000f and 0x7f001000 to 0x7f001003, and the address structure has 0x7e000040 to
// 0x7e000063. Two entries have one cell. The registers of one source share one byte, or stand beside one another. Where a register
// shares cells with two others, the earlier pair is named.
const OVERLAPS: &str = ": a map\n\
    /: a map\n\
    128=04: 1 overlap of source 1 and source 2 at memory 0x000000007f000004\n\
    172=0f00: 1 overlap of source 2 and source 2 at memory 0x000000007f00000f\n\
    172=1000: a map\n\
    172=0600: 1 overlap of source 1 and source 2 at memory 0x000000007f000006\n\
    172=0000 / 120=0000007f: 1 overlap of source 1 and source 2 at memory 0x000000007f000000\n\
    / 120=0700007f: 1 overlap of source 1 and injection at memory 0x000000007f000007";

// In the last bytes of the address structure, behind them, and where no entry is its anchor; in I/O space, and at the same address in
// memory; at the end of the address space; and of a source that is not enabled, which has no registers.
const EDGES: &str =
    "64=6000007e /: 1 overlap of source 1 and injection at memory 0x000000007e000060\n\
    64=6400007e /: a map\n\
    64=6000007e / 305=00: a map\n\
    60=01200003b0000000 /: 1 overlap of source 1 and injection at port 0x00000000000000b2\n\
    60=00200003b0000000 /: a map\n\
    64=f8ffffffffffffff 172=fcffffffffffffff: \
        1 overlap of source 1 and source 2 at memory 0xfffffffffffffffc\n\
    47=00 128=04: a map";

// An overlap comes before a narrow register.
const NARROW: &str = "124=00100002: 3 narrow source 2\n\
    60=00080001 124=00080001: 3 narrow source 1\n\
    60=00200003: a map\n\
    60=00100002 128=01: 1 overlap of source 1 and source 2 at memory 0x000000007f000001";

fn told(alloc: Global, words: &str) -> Result<String, Fail> {
    match map_of(alloc, words)? {
        Ok(_) => Ok("a map".to_string(alloc)?),
        Err(error) => Ok(error.to_string(alloc)?),
    }
}

// How many lines `WORDS: TOLD` are right, up to the first that is not.
fn right(alloc: Global, lines: &str) -> Result<usize, Fail> {
    let mut count = 0usize;
    for line in lines.split('\n') {
        let (words, want) = line.split_once(": ").unwrap_or(("", ""));
        if told(alloc, words)?.as_str() != want {
            return Ok(count);
        }
        count = count.saturating_add(1);
    }
    Ok(count)
}

#[test]
fn registers_that_overlap_or_are_narrow_are_named(rt: HostRuntime) -> Result<(), Fail> {
    assert_eq!(rt; right(rt.alloc(), OVERLAPS)?, 8);
    assert_eq!(rt; right(rt.alloc(), EDGES)?, 7);
    assert_eq!(rt; right(rt.alloc(), NARROW)?, 4);
    let room = FwError::Room.to_string(rt.alloc())?;
    assert_eq!(rt; room.as_str(), "2 room");
    Ok(())
}
