// The address structure that an injection writes, and how much of it stands where an access fails.
use super::machine::{DONE, ERROR_TYPE, EXECUTED, End, FIRST, IN_MEMORY, NOWHERE, machine};
use super::sample;
use crate::{Einj, InjectError, Place, Request};
use apei_base::{Bus, Region, Space};
use apei_mem_bus::{Faulty, MemBus};
use std::alloc::Global;
use std::test::Fail;

#[rattlefmt::skip]
const VENDOR: Region = Region { space: Space::Memory, address: 0x7e00_0044, width: 32 };

#[rattlefmt::skip]
const FLAGS: Region = Region { space: Space::Memory, address: 0x7e00_0048, width: 32 };

#[rattlefmt::skip]
const PROCESSOR: Region = Region { space: Space::Memory, address: 0x7e00_004c, width: 32 };

#[rattlefmt::skip]
const ADDRESS: Region = Region { space: Space::Memory, address: 0x7e00_0050, width: 64 };

#[rattlefmt::skip]
const MASK: Region = Region { space: Space::Memory, address: 0x7e00_0058, width: 64 };

#[rattlefmt::skip]
const PCIE: Region = Region { space: Space::Memory, address: 0x7e00_0060, width: 32 };

const WORDS: [Region; 7] = [ERROR_TYPE, VENDOR, FLAGS, PROCESSOR, ADDRESS, MASK, PCIE];

// What each word holds before, by its width, so that a 0 that is written shows.
const HELD: u64 = 0xeeee_eeee;

const HELD_LONG: u64 = 0xeeee_eeee_eeee_eeee;

// The machine with its address structure full of this.
fn full(alloc: Global) -> Result<MemBus, Fail> {
    let mut bus = machine(alloc)?;
    for word in &WORDS {
        bus.write(word, HELD_LONG)?;
    }
    Ok(bus)
}

// The words of the address structure behind an injection.
fn words(alloc: Global, einj: &Einj, asked: &Request) -> Result<[u64; 7], Fail> {
    let mut bus = full(alloc)?;
    einj.inject(asked, &mut bus)?;
    let mut words = [0; 7];
    for index in 0..7usize {
        words[index] = bus.read(&WORDS[index])?;
    }
    Ok(words)
}

// The words of each place. The vendor's offset is not written. The PCIe function is that of segment 0xa5, bus 0x17,
// device 3 and function 2.
#[rattlefmt::skip]
const PLACES: [(Request, [u64; 7]); 4] = [
    (IN_MEMORY, [8, HELD, 2, 0, 0x12_3456_7000, 0xffff_ffff_ffff_f000, 0]),
    (Request { error: 1, place: Place::Processor(0xfedc_ba98) }, [1, HELD, 1, 0xfedc_ba98, 0, 0, 0]),
    (Request { error: 0x40, place: Place::Pcie(0xa517_1a00) }, [0x40, HELD, 4, 0, 0, 0, 0xa517_1a00]),
    (NOWHERE, [8, HELD, 0, 0, 0, 0, 0]),
];

// The writes of an injection: which access each is, what its region held, and what it holds then.
const WRITES: [(u64, Region, u64, u64); 8] = [
    (2, ERROR_TYPE, HELD, 8),
    (3, FLAGS, HELD, 2),
    (4, PROCESSOR, HELD, 0),
    (5, ADDRESS, HELD_LONG, 0x12_3456_7000),
    (6, MASK, HELD_LONG, 0xffff_ffff_ffff_f000),
    (7, PCIE, HELD, 0),
    (8, EXECUTED, 0, 0x9a),
    (14, FIRST, 0, 1),
];

// How many of the writes are as an injection leaves them whose access of a number fails, up to the first that is not.
fn written(bus: &mut MemBus, number: u64) -> Result<usize, Fail> {
    for place in 0..WRITES.len() {
        let (at, region, before, after) = WRITES[place];
        let want = if at < number { after } else { before };
        if bus.read(&region)? != want {
            return Ok(place);
        }
    }
    Ok(WRITES.len())
}

// What an injection ends with where the access of a number fails, how many there were, and how many writes are as they should
// be then.
fn cut_off(alloc: Global, einj: &Einj, number: u64) -> Result<(End, u64, usize), Fail> {
    let mut bus = Faulty::new(alloc, full(alloc)?, &[number])?;
    let end = einj.inject(&IN_MEMORY, &mut bus);
    let accesses = bus.accesses();
    let mut inner = bus.into_inner();
    Ok((end, accesses, written(&mut inner, number)?))
}

#[test]
fn an_injection_writes_the_words_of_its_place(rt: HostRuntime) -> Result<(), Fail> {
    let einj = sample(rt.alloc())?;
    for (asked, want) in &PLACES {
        assert_eq!(rt; words(rt.alloc(), &einj, asked)?, *want, "{asked:?}");
    }
    Ok(())
}

// What an injection of 14 accesses ends with where the access of a number fails, and how many there are.
fn ends(number: u64) -> (End, u64) {
    if number < 15 {
        (Err(InjectError::Fault), number)
    } else {
        (DONE, 14)
    }
}

#[test]
fn an_injection_ends_at_the_access_that_fails(rt: HostRuntime) -> Result<(), Fail> {
    let einj = sample(rt.alloc())?;
    for number in 1..16 {
        let (end, accesses) = ends(number);
        let told = cut_off(rt.alloc(), &einj, number)?;
        assert_eq!(rt; told, (end, accesses, WRITES.len()), "at {number}");
    }
    Ok(())
}
