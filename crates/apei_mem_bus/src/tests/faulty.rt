use crate::{Faulty, MemBus, OneSource};
use apei_base::{
    Bus, BusFault, Bytes, Firmware, Region, Space, clear, copy_area, read_ack, read_status,
    write_ack,
};
use std::alloc::{AllocError, Global};
use std::test::Fail;

// A write, a copy and a read.
fn accesses<B: Bus>(bus: &mut B, place: &Region) -> [Result<(), BusFault>; 3] {
    let mut bytes = [0];
    [
        bus.write(place, 0x5a),
        bus.copy(place.address, 0, &mut bytes),
        bus.read(place).map(|_| ()),
    ]
}

#[test]
fn each_access_fails_where_its_number_is_planned(rt: HostRuntime) -> Result<(), Fail> {
    let place = Region::memory(0x1000, 8);
    // The planned number, what each access answers, and what then stands in the inner bus.
    let cases = [
        (0, [Ok(()), Ok(()), Ok(())], 0x5a),
        (1, [Err(BusFault), Ok(()), Ok(())], 0),
        (2, [Ok(()), Err(BusFault), Ok(())], 0x5a),
        (3, [Ok(()), Ok(()), Err(BusFault)], 0x5a),
    ];
    for (number, answers, byte) in cases {
        let inner = MemBus::new(rt.alloc(), &[(Space::Memory, 0x1000, 1)], &[])?;
        let mut bus = Faulty::new(rt.alloc(), inner, &[number])?;
        assert_eq!(rt; accesses(&mut bus, &place), answers, "at {number}");
        assert_eq!(rt; bus.accesses(), 3);
        assert_eq!(rt; bus.into_inner().read(&place), Ok(byte), "at {number}");
    }
    Ok(())
}

#[test]
fn an_access_fails_where_the_inner_one_does(rt: HostRuntime) -> Result<(), Fail> {
    let inner = MemBus::new(rt.alloc(), &[], &[2])?;
    let mut bus = Faulty::new(rt.alloc(), inner, &[1])?;
    // The first is not passed on, so the third is the inner bus's second.
    let answers = [Err(BusFault), Ok(()), Err(BusFault)];
    assert_eq!(rt; accesses(&mut bus, &Region::memory(0x1000, 8)), answers);
    Ok(())
}

// The two registers of the sources here.
const STATUS: Region = Region {
    space: Space::Memory,
    address: 0x1000,
    width: 64,
};

const ACK: Region = Region {
    space: Space::Memory,
    address: 0x1008,
    width: 64,
};

// A source of either version with two blocks of 20 bytes, of which none is acknowledged.
fn two_blocks(alloc: Global, version_2: bool) -> Result<OneSource, AllocError> {
    let first = Bytes::copy(alloc, &[1; 20])?;
    let second = Bytes::copy(alloc, &[2; 20])?;
    Ok(OneSource {
        status: STATUS,
        ack: if version_2 { Some(ACK) } else { None },
        area: 0x2000,
        room: 64,
        cell: 0,
        made: vec![in alloc; first, second]?,
        acknowledged: 0,
        waits: false,
    })
}

// Where the area is, the first bytes there, and then the clear and the acknowledgement.
fn receive<P: Firmware>(port: &mut P) -> Result<(u64, [u8; 3]), BusFault> {
    let mut bytes = [0xee; 3];
    let area = port.read(&STATUS)?;
    port.copy(area, 18, &mut bytes)?;
    port.write(&Region::memory(area, 32), 0)?;
    port.write(&ACK, 1)?;
    Ok((area, bytes))
}

#[test]
fn a_firmware_under_faults_gives_each_block_in_turn(rt: HostRuntime) -> Result<(), Fail> {
    let answers = [
        // The copy fails, and nothing is lost.
        Err(BusFault),
        Ok((0x2000, [1, 1, 0])),
        Ok((0x2000, [2, 2, 0])),
        Ok((0x2000, [0, 0, 0])),
    ];
    for version_2 in [true, false] {
        let mut port = Faulty::new(rt.alloc(), two_blocks(rt.alloc(), version_2)?, &[2])?;
        for answer in &answers {
            assert_eq!(rt;
                receive(&mut port),
                *answer,
                "with a read ack register: {version_2}"
            );
        }
    }
    Ok(())
}

#[test]
fn each_access_of_a_receiver_is_one(rt: HostRuntime) -> Result<(), Fail> {
    let alloc = rt.alloc();
    let status = STATUS;
    let ack = ACK;
    let block = Bytes::copy(alloc, &[1; 20])?;
    let source = OneSource {
        status,
        ack: Some(ack),
        area: 0x2000,
        room: 64,
        cell: 0,
        made: vec![in alloc; block]?,
        acknowledged: 0,
        waits: false,
    };
    let mut port = Faulty::new(alloc, source, &[])?;
    let mut bytes = [0xee; 3];
    assert_eq!(rt; read_status(&mut port, &status), Ok(0x2000));
    assert_eq!(rt; port.accesses(), 1);
    assert_eq!(rt; copy_area(&mut port, 0x2000, 18, &mut bytes), Ok(()));
    assert_eq!(rt; (port.accesses(), bytes), (2, [1, 1, 0]));
    assert_eq!(rt; clear(&mut port, 0x2000), Ok(()));
    assert_eq!(rt; port.accesses(), 3);
    assert_eq!(rt; read_ack(&mut port, &ack), Ok(0));
    assert_eq!(rt; port.accesses(), 4);
    assert_eq!(rt; write_ack(&mut port, &ack, 1), Ok(()));
    assert_eq!(rt; port.accesses(), 5);
    Ok(())
}
