// Machines of the samples "two sources" and "injection" of docs/FORMATS.md. What is wanted was worked out by hand.
use crate::{Platform, RaiseError};
use apei_base::{Bus, Region, u32_at};
use apei_einj::{Einj, Place, Request};
use apei_hest::Hest;
use fw_einj::Setup;
use std::alloc::Global;
use std::test::Fail;

// A source of version 1 with the status address register 0x7F000000, and one of version 2 with 0x7F000008.
const HEST: &str = "48455354c4000000012d4748455352545245504c415930310100000047484553\
    0100000002000000\
    09000100ffff0001010000000100000000000000004000040000007f00000000\
    041c0000000000000000000000000000000000000000000000000000\
    00100000\
    0a000200ffff0001010000000100000000000000004000040800007f00000000\
    041c0000000000000000000000000000000000000000000000000000\
    00100000\
    002000030010007f00000000\
    feffffff00000000\
    0100000000000000";

const EINJ: &str = "45494e4a5001000001714748455352545245504c41593031010000004748455301000000\
    300000000000000009000000\
    0004000000000000000000000000000000000000000000000000000000000000\
    01000000004000040000007e000000000000000000000000ffffffffffffffff\
    02020000002000030800007e000000000000000000000000ffffffff00000000\
    03000000002000030c00007e000000000000000000000000ffffffff00000000\
    0404000000000000000000000000000000000000000000000000000000000000\
    0503000001080001b2000000000000009a00000000000000ff00000000000000\
    06010000002000031000007e0000000001000000000000000100000000000000\
    07000000000801031000007e000000000000000000000000ff00000000000000\
    08020000002000034000007e000000000000000000000000ffffffff00000000";

const FIRST_STATUS: u64 = 0x7f00_0000;

const SECOND_STATUS: u64 = 0x7f00_0008;

fn machine(alloc: Global, injects: bool) -> Result<(Platform, Einj), Fail> {
    let hest = Hest::read(alloc, &hex::decode(alloc, HEST)?)?;
    let einj = Einj::read(alloc, &hex::decode(alloc, EINJ)?)?;
    let platform = Platform::new(alloc, &hest, if injects { Some(&einj) } else { None })?;
    Ok((platform, einj))
}

// Raises a block that may be raised.
fn raise(platform: &mut Platform, source: usize, block: &[u8]) -> Result<u32, RaiseError> {
    if block.len() >= 20 && u32_at(block, 0) != 0 {
        platform.raise(source, block)
    } else {
        Err(RaiseError::OutOfMemory)
    }
}

// What the status address register of a source says, and the first four bytes that stand there.
fn standing(platform: &mut Platform, source: usize, status: u64) -> Option<(u64, [u8; 4])> {
    let port = platform.port(source)?;
    let address = port.read(&Region::memory(status, 64)).ok()?;
    let mut bytes = [0xee; 4];
    port.copy(address, 0, &mut bytes).ok()?;
    Some((address, bytes))
}

#[test]
fn blocks_are_numbered_by_source_and_stand_in_their_areas(rt: HostRuntime) -> Result<(), Fail> {
    let (mut platform, _) = machine(rt.alloc(), false)?;
    assert_eq!(rt; standing(&mut platform, 0, FIRST_STATUS), Some((0, [0; 4])));
    for (source, byte, number) in [(0, 1, 1), (1, 2, 1), (0, 3, 2)] {
        assert_eq!(rt;
            raise(&mut platform, source, &[byte; 20]),
            Ok(number),
            "at {byte}"
        );
    }
    let (side, ports) = platform.split();
    let mut platform = Platform::rejoin(side, ports);
    let wanted = [
        standing(&mut platform, 0, FIRST_STATUS),
        standing(&mut platform, 1, SECOND_STATUS),
        standing(&mut platform, 2, SECOND_STATUS),
    ];
    assert_eq!(rt;
        wanted,
        [
            Some((0x1000_0000, [1; 4])),
            Some((0x1001_0000, [2; 4])),
            None,
        ]
    );
    assert_eq!(rt; raise(&mut platform, 1, &[4; 20]), Ok(2));
    assert_eq!(rt; platform.settle(), Ok(None));
    Ok(())
}

#[test]
fn a_block_is_refused_by_its_source_then_its_length_then_the_room(
    rt: HostRuntime,
) -> Result<(), Fail> {
    let (mut platform, _) = machine(rt.alloc(), false)?;
    let long = vec![in rt.alloc(); 1u8; 65_537]?;
    assert_eq!(rt; raise(&mut platform, 0, &long[..65_536]), Ok(1));
    for number in 1..65_536u32 {
        assert_eq!(rt; raise(&mut platform, 1, &[1; 20]), Ok(number));
    }
    let answers = [
        raise(&mut platform, 2, &long),
        raise(&mut platform, 1, &long),
        raise(&mut platform, 1, &[1; 20]),
    ];
    assert_eq!(rt;
        answers,
        [
            Err(RaiseError::NoSource),
            Err(RaiseError::TooLong),
            Err(RaiseError::Full),
        ]
    );
    Ok(())
}

// A corrected memory error.
const REQUEST: Request = Request {
    error: 8,
    place: Place::Nowhere,
};

// What settling answers after an injection, where memory errors are told by a source.
fn injected(
    platform: &mut Platform,
    einj: &Einj,
    memory: usize,
) -> Option<Result<Option<(usize, u32)>, RaiseError>> {
    platform.set(&Setup {
        available: 0xfff,
        busy: 2,
        status: 0,
        routes: [0, memory, 0, 0],
    });
    platform.inject(einj, &REQUEST)?.ok()?;
    Some(platform.settle())
}

#[test]
fn the_block_of_an_injection_is_raised_once_for_its_source(rt: HostRuntime) -> Result<(), Fail> {
    let (mut none, einj) = machine(rt.alloc(), false)?;
    assert_eq!(rt; injected(&mut none, &einj, 1), None);
    assert_eq!(rt; none.injector().is_none(), true);
    let (mut platform, einj) = machine(rt.alloc(), true)?;
    assert_eq!(rt; injected(&mut platform, &einj, 1), Some(Ok(Some((1, 1)))));
    assert_eq!(rt; platform.settle(), Ok(None));
    let block = standing(&mut platform, 1, SECOND_STATUS);
    assert_eq!(rt; block, Some((0x1001_0000, [0x12, 0, 0, 0])));
    assert_eq!(rt; injected(&mut platform, &einj, 1), Some(Ok(Some((1, 2)))));
    let refused = Some(Err(RaiseError::NoSource));
    assert_eq!(rt; injected(&mut platform, &einj, 2), refused);
    assert_eq!(rt; platform.settle(), Err(RaiseError::NoSource));
    Ok(())
}
