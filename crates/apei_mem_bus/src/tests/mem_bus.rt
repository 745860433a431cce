use crate::MemBus;
use apei_base::{Bus, BusFault, Gas, GasError, Region, Space};
use std::test::Fail;

const RUNS: [(Space, u64, u32); 4] = [
    (Space::Memory, 0x1000, 12),
    (Space::Memory, 0x1008, 8),
    (Space::Port, 0xb0, 4),
    (Space::Memory, 0xffff_ffff_ffff_fffe, 4),
];

// A space, an address, the code of the width (1 byte, 2 word, 3 dword, 4 qword) and what is written there; then a place
// in the same space, by its address and width, and what is read there.
const CASES: [(u8, u64, u8, u64, u64, u8, u64); 8] = [
    (0, 0x1000, 1, 0x1ff, 0x1000, 2, 0xff),
    (0, 0x1002, 2, 0x1234, 0x1003, 1, 0x12),
    (0, 0x1004, 3, 0x89ab_cdef, 0x1006, 2, 0x89ab),
    (0, 0x1008, 4, 0x0123_4567_89ab_cdef, 0x100c, 3, 0x0123_4567),
    // Half of it lies past the run, and drops.
    (0, 0x100c, 4, 0x1122_3344_5566_7788, 0x100c, 4, 0x5566_7788),
    (0, 0x2000, 1, 0x5a, 0x2000, 1, 0),
    (1, 0xb2, 2, 0x5aa5, 0xb2, 2, 0x5aa5),
    (1, 0xaf, 2, 0xffff, 0xaf, 2, 0xff00),
];

fn region(space: u8, address: u64, access: u8) -> Result<Region, GasError> {
    let gas = Gas {
        space,
        bit_width: 8,
        bit_offset: 0,
        access,
        address,
    };
    gas.check()
}

#[test]
fn a_mapped_cell_keeps_what_is_written_lowest_byte_first(rt: HostRuntime) -> Result<(), Fail> {
    let mut bus = MemBus::new(rt.alloc(), &RUNS, &[])?;
    for (space, address, access, value, other, width, answer) in CASES {
        assert_eq!(rt; bus.write(&region(space, address, access)?, value), Ok(()));
        assert_eq!(rt;
            bus.read(&region(space, other, width)?),
            Ok(answer),
            "at {address}"
        );
    }
    Ok(())
}

#[test]
fn no_cell_past_the_greatest_address_is_reached(rt: HostRuntime) -> Result<(), Fail> {
    let mut bus = MemBus::new(rt.alloc(), &[RUNS[3], (Space::Memory, 0, 4)], &[])?;
    let place = Region::memory(0xffff_ffff_ffff_fffe, 32);
    assert_eq!(rt; bus.write(&place, 0x1122_3344), Ok(()));
    assert_eq!(rt; bus.read(&place), Ok(0x3344));
    assert_eq!(rt; bus.read(&Region::memory(0, 16)), Ok(0));
    Ok(())
}

#[test]
fn a_planned_fault_changes_nothing(rt: HostRuntime) -> Result<(), Fail> {
    let mut bus = MemBus::new(rt.alloc(), &RUNS, &[2, 4])?;
    let place = Region::memory(0x1000, 32);
    let mut bytes = [7; 3];
    assert_eq!(rt; bus.write(&place, 0x4433_2211), Ok(()));
    assert_eq!(rt; bus.write(&place, 0x8877_6655), Err(BusFault));
    assert_eq!(rt; bus.read(&place), Ok(0x4433_2211));
    assert_eq!(rt; bus.copy(0x1000, 1, &mut bytes), Err(BusFault));
    assert_eq!(rt; bytes, [7; 3]);
    assert_eq!(rt; bus.copy(0x1000, 2, &mut bytes), Ok(()));
    assert_eq!(rt; bytes, [0x33, 0x44, 0]);
    Ok(())
}
