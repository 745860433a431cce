ghost use Rattle.std.specs.Prelude.{◌≡◌, ◌<◌, IsTrue, IfOk, is_some};
ghost use Rattle.fw_port.specs.Port.{seen};

use crate::{SourceLayout, SourcePort};
use apei_base::{Bus, BusFault, Region, u32_at};
use std::alloc::{AllocError, Global};
use std::test::Fail;

const AREA: u64 = 0x1000_0000;

// The registers, and places in the area or beside it.
#[rattlefmt::skip]
mod at {
    use apei_base::{Region, Space};

    pub const STATUS: Region = Region { space: Space::Memory, address: 0x7f00_0000, width: 64 };
    pub const STATUS_PART: Region = Region { space: Space::Memory, address: 0x7f00_0002, width: 16 };
    pub const ACK: Region = Region { space: Space::Memory, address: 0x7f00_1000, width: 32 };
    pub const ACK_PART: Region = Region { space: Space::Memory, address: 0x7f00_1000, width: 8 };
    pub const BEFORE_ACK: Region = Region { space: Space::Memory, address: 0x7f00_0ffe, width: 64 };
    pub const CLEAR: Region = Region { space: Space::Memory, address: 0x1000_0000, width: 32 };
    pub const BYTE: Region = Region { space: Space::Memory, address: 0x1000_0000, width: 8 };
    pub const WIDE: Region = Region { space: Space::Memory, address: 0x1000_0000, width: 64 };
    pub const NEXT: Region = Region { space: Space::Memory, address: 0x1000_0001, width: 32 };
    pub const PORT: Region = Region { space: Space::Port, address: 0x1000_0000, width: 32 };
}

// What is done to a port, each with an answer.
#[derive(Clone, Copy)]
enum Do {
    // Raises a block of 24 bytes, all the same. Answers its number.
    Raise(u8),
    // Names the n-th access from here on. Answers 0.
    Fail(u64),
    // Answers how many blocks are acknowledged.
    Count,
    Read(Region),
    Write(Region, u64),
    // Copies 24 bytes. Answers the first and the last, as two hexadecimal digits each.
    Copy(u64, usize),
}

type Answer = Result<u64, BusFault>;

// The port of a source of version 1 whose area has so many bytes.
fn first_version(alloc: Global, room: u32) -> Result<SourcePort, AllocError>
    requires header { 20 < room }
    requires most { room < 65537 }
{
    let layout = SourceLayout {
        status: at::STATUS,
        area: AREA,
        room,
        ack: None,
    };
    SourcePort::new(alloc, layout)
}

// The port of a source of version 2 whose area has 4,096 bytes.
fn second_version(alloc: Global) -> Result<SourcePort, AllocError>
    ensures { IfOk result (λ port. IsTrue (is_some (seen port).layout.ack)) }
{
    let layout = SourceLayout {
        status: at::STATUS,
        area: AREA,
        room: 4096,
        ack: Some(at::ACK),
    };
    SourcePort::new(alloc, layout)
}

// Raises a block that may be raised, where fewer than 70,000 were raised.
fn raise(port: &mut SourcePort, block: &[u8]) -> Result<u32, AllocError> {
    if block.len() >= 20 && u32_at(block, 0) != 0 && port.raised() < 70_000 {
        port.raise(block)
    } else {
        Err(AllocError)
    }
}

// The first and the last byte of 24 that are copied.
fn copied(port: &mut SourcePort, address: u64, skip: usize) -> Answer {
    let mut bytes = [0xee; 24];
    port.copy(address, skip, &mut bytes)?;
    Ok(u64::from(u16::from_be_bytes([bytes[0], bytes[23]])))
}

fn answer(port: &mut SourcePort, what: Do) -> Result<Answer, AllocError> {
    Ok(match what {
        Do::Raise(byte) => Ok(u64::from(raise(port, &[byte; 24])?)),
        Do::Fail(n) => {
            port.fail(n)?;
            Ok(0)
        }
        Do::Count => Ok(u64::from(port.acknowledged())),
        Do::Read(at) => port.read(&at),
        Do::Write(at, value) => port.write(&at, value).map(|()| 0),
        Do::Copy(address, skip) => copied(port, address, skip),
    })
}

// The place of the first row whose answer is another one, and how many rows there are where none is.
fn first_other(port: &mut SourcePort, rows: &[(Do, Answer)]) -> Result<usize, AllocError> {
    for place in 0..rows.len() {
        let (what, wanted) = rows[place];
        if answer(port, what)? != wanted {
            return Ok(place);
        }
    }
    Ok(rows.len())
}

const VERSION_1: [(Do, Answer); 18] = [
    (Do::Read(at::STATUS), Ok(0)),
    (Do::Copy(AREA, 0), Ok(0)),
    (Do::Raise(0x11), Ok(1)),
    (Do::Raise(0x22), Ok(2)),
    (Do::Read(at::STATUS), Ok(AREA)),
    (Do::Copy(AREA, 0), Ok(0x1111)),
    (Do::Write(at::CLEAR, 0), Ok(0)),
    (Do::Count, Ok(1)),
    // The next one stands at once.
    (Do::Copy(AREA, 1), Ok(0x2200)),
    (Do::Write(at::CLEAR, 0), Ok(0)),
    (Do::Copy(AREA, 0), Ok(0)),
    // The address of the area stays, and a write of 0 where no block stands acknowledges none.
    (Do::Read(at::STATUS), Ok(AREA)),
    (Do::Write(at::CLEAR, 0), Ok(0)),
    (Do::Count, Ok(2)),
    // A source of version 1 has no cells at the read ack register.
    (Do::Write(at::ACK, 5), Ok(0)),
    (Do::Read(at::ACK), Ok(0)),
    (Do::Raise(0x33), Ok(3)),
    (Do::Copy(AREA, 0), Ok(0x3333)),
];

const VERSION_2: [(Do, Answer); 16] = [
    (Do::Read(at::ACK), Ok(0xabcd_00f0)),
    (Do::Raise(0x11), Ok(1)),
    (Do::Raise(0x22), Ok(2)),
    // A write to the register that clears nothing leaves the standing block.
    (Do::Write(at::ACK, 0x1_0000_0005), Ok(0)),
    (Do::Read(at::ACK), Ok(5)),
    (Do::Copy(AREA, 0), Ok(0x1111)),
    (Do::Write(at::CLEAR, 0), Ok(0)),
    // The next one does not stand yet, and cannot be cleared.
    (Do::Copy(AREA, 0), Ok(0)),
    (Do::Read(at::STATUS), Ok(AREA)),
    (Do::Write(at::CLEAR, 0), Ok(0)),
    (Do::Count, Ok(1)),
    (Do::Write(at::ACK_PART, 1), Ok(0)),
    (Do::Copy(AREA, 0), Ok(0)),
    (Do::Write(at::ACK, 0xabcd_00f1), Ok(0)),
    (Do::Copy(AREA, 0), Ok(0x2222)),
    (Do::Read(at::ACK), Ok(0xabcd_00f1)),
];

// Writes that change nothing, each with what is read there afterwards.
const WRITES: [(Region, u64, u64); 10] = [
    (at::CLEAR, 1, 0x1111_1111),
    (at::CLEAR, 0x1_0000_0001, 0x1111_1111),
    (at::BYTE, 0, 0x11),
    (at::WIDE, 0, 0x1111_1111_1111_1111),
    (at::NEXT, 0, 0x1111_1111),
    (at::PORT, 0, 0),
    (at::STATUS, 0, AREA),
    (at::STATUS_PART, 5, 0x1000),
    (at::ACK_PART, 1, 0xf0),
    (at::BEFORE_ACK, 0, 0xabcd_00f0_0000),
];

const FAULTS: [(Do, Answer); 22] = [
    (Do::Raise(0x11), Ok(1)),
    // The status read, the copy, and the clear of one call after another.
    (Do::Fail(1), Ok(0)),
    (Do::Read(at::STATUS), Err(BusFault)),
    (Do::Fail(2), Ok(0)),
    (Do::Read(at::STATUS), Ok(AREA)),
    (Do::Copy(AREA, 0), Err(BusFault)),
    (Do::Fail(3), Ok(0)),
    (Do::Read(at::STATUS), Ok(AREA)),
    (Do::Copy(AREA, 0), Ok(0x1111)),
    (Do::Write(at::CLEAR, 0), Err(BusFault)),
    (Do::Count, Ok(0)),
    (Do::Copy(AREA, 0), Ok(0x1111)),
    // Two names of one access, and names of none.
    (Do::Fail(2), Ok(0)),
    (Do::Fail(0), Ok(0)),
    (Do::Fail(0xffff_ffff_ffff_ffff), Ok(0)),
    (Do::Read(at::STATUS), Ok(AREA)),
    (Do::Fail(1), Ok(0)),
    (Do::Write(at::CLEAR, 0), Err(BusFault)),
    (Do::Count, Ok(0)),
    (Do::Write(at::CLEAR, 0), Ok(0)),
    (Do::Count, Ok(1)),
    (Do::Read(at::STATUS), Ok(AREA)),
];

// An area of 21 bytes: within it, past its end, behind it and before it.
const CUT: [(Do, Answer); 6] = [
    (Do::Raise(0x11), Ok(1)),
    (Do::Copy(AREA, 0), Ok(0x1100)),
    (Do::Copy(AREA, 20), Ok(0x1100)),
    (Do::Copy(AREA, 21), Ok(0)),
    (Do::Copy(AREA - 4, 0), Ok(0x11)),
    (Do::Copy(AREA - 4, 1), Ok(0x11)),
];

#[test]
fn each_access_answers_and_leaves_what_its_row_says(rt: HostRuntime) -> Result<(), Fail> {
    let mut first = first_version(rt.alloc(), 4096)?;
    assert_eq!(rt; first_other(&mut first, &VERSION_1)?, VERSION_1.len());
    assert_eq!(rt; (first.raised(), first.ack_cell()), (3, None));
    let mut second = second_version(rt.alloc())?;
    second.set_ack_cell(0x12_abcd_00f0);
    assert_eq!(rt; first_other(&mut second, &VERSION_2)?, VERSION_2.len());
    assert_eq!(rt; second.ack_cell(), Some(0xabcd_00f1));
    let mut failing = first_version(rt.alloc(), 4096)?;
    assert_eq!(rt; first_other(&mut failing, &FAULTS)?, FAULTS.len());
    let mut short = first_version(rt.alloc(), 21)?;
    assert_eq!(rt; first_other(&mut short, &CUT)?, CUT.len());
    Ok(())
}

#[test]
fn any_other_write_changes_nothing(rt: HostRuntime) -> Result<(), Fail> {
    let mut port = second_version(rt.alloc())?;
    port.set_ack_cell(0xabcd_00f0);
    raise(&mut port, &[0x11; 24])?;
    for (at, value, read) in WRITES {
        let rows = [
            (Do::Write(at, value), Ok(0)),
            (Do::Read(at), Ok(read)),
            (Do::Count, Ok(0)),
            (Do::Read(at::ACK), Ok(0xabcd_00f0)),
        ];
        assert_eq!(rt; first_other(&mut port, &rows)?, 4, "at {value}");
    }
    Ok(())
}

#[test]
fn there_may_be_65537_blocks_and_long_ones(rt: HostRuntime) -> Result<(), Fail> {
    let mut port = first_version(rt.alloc(), 65_536)?;
    let mut long = vec![in rt.alloc(); 0x5au8; 65_537]?;
    raise(&mut port, &long)?;
    for _ in 0..65_536u32 {
        raise(&mut port, &[1; 20])?;
    }
    assert_eq!(rt; port.copy(AREA, 1, &mut long), Ok(()));
    assert_eq!(rt; (long[0], long[65_534], long[65_535]), (0x5a, 0x5a, 0));
    for _ in 0..65_537u32 {
        assert_eq!(rt; port.write(&at::CLEAR, 0), Ok(()));
    }
    assert_eq!(rt; (port.raised(), port.acknowledged()), (65_537, 65_537));
    Ok(())
}
