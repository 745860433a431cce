// Texts of whole blocks.
use super::entries::{ENTRIES, shown};
use super::sections::SECTIONS;
use super::{MEMORY, bytes_of, lines_of, right};
use crate::{drop_text, report_text};
use cper_block::{Block, Malformed};
use std::alloc::Global;
use std::test::Fail;

const BLOCKS: &str = "\
no data
0200000000000000000000000000000002000000
  severity corrected
# bytes behind
0200000000000000000000000000000002000000*29
  severity corrected
# severity 0
0100000000000000000000000000000000000000
  severity recoverable
# severity 3
0200000000000000000000000000000003000000
  severity none
# severity 4
0200000000000000000000000000000004000000
  severity fatal
# raw data
0200000014000000ec0f00000000000002000000*4096
  severity corrected
  raw 4076 bytes
# raw data behind a gap
0200000018000000010000000000000002000000*25
  severity corrected
  raw 1 bytes
";

#[test]
fn each_block_has_its_lines(rt: HostRuntime) -> Result<(), Fail> {
    let alloc = rt.alloc();
    let counts = [
        right(alloc, BLOCKS)?,
        right(alloc, ENTRIES)?,
        right(alloc, SECTIONS)?,
        shown(alloc)?,
    ];
    assert_eq!(rt; counts, [7, 2, 4, 5]);
    Ok(())
}

// Appends the report of a block of these digits.
fn report(alloc: Global, into: &mut Vec<u8>, id: u16, seq: u32, digits: &str) -> Result<(), Fail> {
    let bytes = bytes_of(alloc, digits)?;
    Block::read(&bytes, 65536)?;
    Ok(report_text(alloc, into, id, seq, &bytes)?)
}

// Appends the drop of a block of these digits, the block 2 of the source 1.
fn drop(alloc: Global, into: &mut Vec<u8>, reason: Malformed, digits: &str) -> Result<(), Fail> {
    let bytes = bytes_of(alloc, digits)?;
    Ok(drop_text(alloc, into, 1, 2, &reason, &bytes)?)
}

const TOLD: &str = "before
report source 65535 block 4294967295
  severity corrected
report source 0 block 12
  severity corrected
  entry 0 memory severity corrected
    physical address 0x0000000012345000
    mask 0xfffffffffffff000
    type 0x02
dropped source 1 block 2: 1 too short
  data empty
dropped source 1 block 2: 2 too long
  data 0200000014000000ed0f00000000000002000000
dropped source 1 block 2: 5 entry 3 truncated
  data 00ff10
dropped source 1 block 2: 6 left over
  data 09
";

#[test]
fn reports_and_drops_stand_behind_what_was_there(rt: HostRuntime) -> Result<(), Fail> {
    let alloc = rt.alloc();
    let mut text = Vec::from_slice(alloc, b"before\n")?;
    let bare = "0200000000000000000000000000000002000000";
    report(alloc, &mut text, 65535, 4_294_967_295, bare)?;
    report(alloc, &mut text, 0, 12, MEMORY)?;
    let long = "0200000014000000ed0f00000000000002000000";
    drop(alloc, &mut text, Malformed::TooShort, "")?;
    drop(alloc, &mut text, Malformed::TooLong, long)?;
    drop(alloc, &mut text, Malformed::EntryTruncated(3), "00ff10")?;
    drop(alloc, &mut text, Malformed::Leftover, "09")?;
    assert!(rt; text.as_slice() == TOLD.as_bytes());
    Ok(())
}

// How long the lines of a block are, where they end so.
fn length_with(alloc: Global, words: &str, end: &str) -> Result<usize, Fail> {
    let lines = lines_of(alloc, words)?;
    let ends = lines.as_slice().ends_with(end.as_bytes());
    Ok(if ends { lines.len() } else { 0 })
}

#[test]
fn large_blocks_are_told_whole(rt: HostRuntime) -> Result<(), Fail> {
    // 1,000 entries without a section.
    let many = "02000000000000000000000000fa000002000000*64020";
    assert_eq!(rt; length_with(rt.alloc(), many, "\n    data empty\n")?, 92911);
    // One entry, whose section fills the largest block.
    let long = "020000000000000000000000ecff000002000000\
        000000000000000000000000000000000000000000000000acff0000*65536";
    assert_eq!(rt; length_with(rt.alloc(), long, "00000000\n")?, 131011);
    Ok(())
}
