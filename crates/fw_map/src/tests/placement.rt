// Where areas stand, and which cells are mapped.
use super::map_of;
use crate::Map;
use fw_cells::Cells;
use std::alloc::Global;
use std::test::Fail;

// What is changed in the sample, and where the areas of its sources, the trigger table and the trigger cell begin; 0 for one that is
// not there. Each area of a source has 4,096 bytes, unless the block length says otherwise.
// In order: as it is, without an injection table, and with source 1 alone enabled. Then a register stands at the lowest place; is in
// the way of the last byte of an area, and not in that of the 48 bytes of the trigger table; stands behind the area; and stands before
// it with its last bytes in the way. Then the area of 8,192 bytes has no room there, and that of 4,096 bytes has; a port is in the way
// of no area; and an area has 65,536 bytes at most.
const PLACES: &str = "/: 10000000 10010000 10020000 10030000\n\
    : 10000000 10010000 0 0\n\
    111=00 /: 10000000 0 10010000 10020000\n\
    64=00000010 /: 10010000 10020000 10030000 10040000\n\
    64=ff0f0010 /: 10010000 10020000 10000000 10030000\n\
    64=00100010 /: 10000000 10010000 10020000 10030000\n\
    64=fcffff0f /: 10010000 10020000 10030000 10040000\n\
    64=00100010 100=0020 /: 10010000 10000000 10020000 10030000\n\
    60=0120000300000010 /: 10000000 10010000 10020000 10030000\n\
    100=00000200 /: 10000000 10010000 10020000 10030000";

// Where the areas of a map begin, in order.
fn begins(alloc: Global, map: &Map) -> Result<String, Fail> {
    let mut found = [0u64; 4];
    for (place, area) in map.areas.iter().enumerate() {
        if place < 2 {
            found[place] = area.first;
        }
    }
    if let Some(trigger) = &map.trigger {
        found[2] = trigger.table.first;
        found[3] = trigger.cell.first;
    }
    let [first, second, table, cell] = found;
    Ok(format!(in alloc; "{first:x} {second:x} {table:x} {cell:x}")?)
}

// How many lines `WORDS: PLACES` are right, up to the first that is not.
fn right(alloc: Global, lines: &str) -> Result<usize, Fail> {
    let mut count = 0usize;
    for line in lines.split('\n') {
        let (words, want) = line.split_once(": ").unwrap_or(("", ""));
        let map = map_of(alloc, words)??;
        if begins(alloc, &map)?.as_str() != want {
            return Ok(count);
        }
        count = count.saturating_add(1);
    }
    Ok(count)
}

#[test]
fn areas_stand_at_the_lowest_places_that_are_free(rt: HostRuntime) -> Result<(), Fail> {
    assert_eq!(rt; right(rt.alloc(), PLACES)?, 10);
    Ok(())
}

// The registers of the samples, by owner, space, first address and number of bytes. Entries of the actions 0 and 4 have none.
const REGISTERS: &str = "source 1 Memory 7f000000 8\n\
    source 2 Memory 7f000008 8\n\
    source 2 Memory 7f001000 4\n\
    injection Memory 7e000000 8\n\
    injection Memory 7e000008 4\n\
    injection Memory 7e00000c 4\n\
    injection Port b2 1\n\
    injection Memory 7e000010 4\n\
    injection Memory 7e000010 4\n\
    injection Memory 7e000040 36\n";

// The regions of mapped cells, by space, first address and number of bytes.
const REGIONS: &str = "Memory 10000000 4096\n\
    Memory 10010000 4096\n\
    Memory 10020000 48\n\
    Memory 10030000 4\n\
    Memory 7e000000 20\n\
    Memory 7e000040 36\n\
    Memory 7f000000 16\n\
    Memory 7f001000 4\n\
    Port b2 1\n";

fn registers_of(alloc: Global, map: &Map) -> Result<String, Fail> {
    let mut text = String::new(alloc);
    for register in &map.registers {
        let run = register.run;
        let (owner, space, first, bytes) = (register.owner, run.space, run.first, run.bytes);
        text.push_str(&format!(in alloc; "{owner} {space:?} {first:x} {bytes}\n")?)?;
    }
    Ok(text)
}

fn regions_of(alloc: Global, cells: &Cells) -> Result<String, Fail> {
    let mut text = String::new(alloc);
    for region in cells.regions() {
        let (space, first, bytes) = (region.space, region.first, region.bytes.as_slice().len());
        text.push_str(&format!(in alloc; "{space:?} {first:x} {bytes}\n")?)?;
    }
    Ok(text)
}

#[test]
fn the_cells_of_registers_and_areas_are_mapped(rt: HostRuntime) -> Result<(), Fail> {
    let map = map_of(rt.alloc(), "/")??;
    assert_eq!(rt; registers_of(rt.alloc(), &map)?.as_str(), REGISTERS);
    let cells = map.cells(rt.alloc())?;
    assert_eq!(rt; regions_of(rt.alloc(), &cells)?.as_str(), REGIONS);
    Ok(())
}
