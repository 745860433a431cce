ghost use Rattle.std.specs.Prelude.{◌≡◌, ◌<◌};

use crate::Cells;
use apei_base::{Gas, GasError, Region, Space};
use ghes_steps::Steps;
use std::marker::Brand;
use std::sync::ledger::{Blank, Ledger};
use std::test::Fail;

// Listed runs in no order, of which some overlap or adjoin; then each region by its space, first address and length.
const LISTED: [(Space, u64, u32); 8] = [
    (Space::Port, 0xb0, 4),
    (Space::Memory, 0x1008, 8),
    (Space::Memory, 0x1000, 4),
    (Space::Memory, 0x1000, 12),
    (Space::Memory, 0x1010, 1),
    (Space::Memory, 0x2000, 0),
    (Space::Memory, 0x1020, 2),
    (Space::Memory, 0xffff_ffff_ffff_fffe, 4),
];

const REGIONS: [(Space, u64, usize); 4] = [
    (Space::Memory, 0x1000, 17),
    (Space::Memory, 0x1020, 2),
    (Space::Memory, 0xffff_ffff_ffff_fffe, 2),
    (Space::Port, 0xb0, 4),
];

#[test]
fn listed_runs_that_overlap_or_adjoin_are_one_region(rt: HostRuntime) -> Result<(), Fail> {
    let cells = Cells::new(rt.alloc(), &LISTED)?;
    let regions = cells.regions();
    assert_eq!(rt; regions.len(), REGIONS.len());
    for (region, (space, first, length)) in regions.iter().zip(REGIONS) {
        assert_eq!(rt; (region.space, region.first), (space, first));
        assert_eq!(rt; region.bytes.as_slice().len(), length, "at {first}");
    }
    Ok(())
}

// A space (0 memory, 1 ports), an address, the code of the width (1 byte, 2 word, 3 dword, 4 qword) and what is written
// there; then a place in the same space, by its address and width, and what is read there.
const CASES: [(u8, u64, u8, u64, u64, u8, u64); 7] = [
    (0, 0x1000, 1, 0x1ff, 0x1000, 2, 0xff),
    (0, 0x1008, 4, 0x0123_4567_89ab_cdef, 0x100c, 3, 0x0123_4567),
    // Half of it lies past the region, and drops.
    (0, 0x100d, 4, 0x1122_3344_5566_7788, 0x100d, 4, 0x5566_7788),
    // The whole of a region and a gap behind it, read with the gap before it.
    (0, 0x1020, 3, 0x8877_6655, 0x101c, 4, 0x6655_0000_0000),
    (0, 0x3000, 1, 0x5a, 0x3000, 1, 0),
    (1, 0xaf, 2, 0xffff, 0xaf, 2, 0xff00),
    (
        0,
        0xffff_ffff_ffff_fff8,
        4,
        0x1122_3344_5566_7788,
        0xffff_ffff_ffff_fffe,
        2,
        0x1122,
    ),
];

fn region(space: u8, address: u64, access: u8) -> Result<Region, GasError> {
    let gas = Gas {
        space,
        bit_width: 8,
        bit_offset: 0,
        access,
        address,
    };
    gas.check()
}

#[test]
fn an_access_past_the_end_of_a_region_reads_0_and_drops(rt: HostRuntime) -> Result<(), Fail> {
    for (space, address, width, value, other, read, answer) in CASES {
        let mut cells = Cells::new(rt.alloc(), &LISTED)?;
        cells.write(&region(space, address, width)?, value);
        let read = region(space, other, read)?;
        assert_eq!(rt; cells.read(&read), answer, "at {address}");
    }
    Ok(())
}

#[test]
fn a_block_is_put_with_zeros_behind_it(rt: HostRuntime) -> Result<(), Fail> {
    let mut cells = Cells::new(rt.alloc(), &LISTED)?;
    let mut bytes = [0xee; 6];
    cells.put(0x1000, &[1, 2, 3, 4, 5, 6, 7], 7);
    cells.put(0x1002, &[8, 9], 3);
    cells.copy(0x1000, 1, &mut bytes);
    assert_eq!(rt; bytes, [2, 8, 9, 0, 6, 7]);
    // Cut at its room, and past the region.
    cells.put(0x100f, &[1, 2, 3, 4], 3);
    cells.copy(0x100e, 0, &mut bytes);
    assert_eq!(rt; bytes, [0, 1, 2, 0, 0, 0]);
    cells.copy(0xffff_ffff_ffff_ffff, 2, &mut bytes);
    assert_eq!(rt; bytes, [0; 6]);
    Ok(())
}

// Where a cell is, with the steps of a blank ledger.
fn found<L: Ledger>(cells: &Cells, space: Space, address: u64, blank: Blank) -> Option<usize>
    requires name { blank.name ≡ L.name }
    requires parts { blank.parts ≡ L.parts }
    requires some { 0 < blank.parts }
{
    let mut steps = Steps::<L>::new(blank);
    cells.find(space, address, &mut steps)
}

#[test]
fn a_cell_is_found_in_its_region(rt: HostRuntime) -> Result<(), Fail> {
    let none = Cells::new(rt.alloc(), &[])?;
    assert_eq!(rt;
        found::<Brand>(&none, Space::Memory, 0, Blank::new(1)),
        None
    );
    let cells = Cells::new(rt.alloc(), &LISTED)?;
    let cases = [
        (Space::Memory, 0xfff, None),
        (Space::Memory, 0x1000, Some(0)),
        (Space::Memory, 0x1010, Some(0)),
        (Space::Memory, 0x1011, None),
        (Space::Memory, 0x1021, Some(1)),
        (Space::Memory, 0xb0, None),
        (Space::Memory, 0xffff_ffff_ffff_ffff, Some(2)),
        (Space::Port, 0xb3, Some(3)),
        (Space::Port, 0x1000, None),
    ];
    for (space, address, place) in cases {
        assert_eq!(rt;
            found::<Brand>(&cells, space, address, Blank::new(1)),
            place,
            "at {address}"
        );
    }
    Ok(())
}
