//! Makes the map of a machine, so that `bench/maps.py` can time it.
//!
//! One word: how many entries the injection table has, from 6 on. The machine has 64 sources, and each entry behind the
//! first six has its register at the next place of an area, so that no place below the last of these is free.
#![tactic(auto)]

ghost use Rattle.std.specs.Prelude.{◌≤◌};

use apei_einj::Einj;
use apei_hest::Hest;
use fw_map::Map;
use std::alloc::{AllocError, Global};
use std::rt::Env;
use std::{env, io};

// How many sources the machine has.
const SOURCES: u16 = 64;

// How many entries a table needs: one of each of these actions, with its instruction.
const NEEDED: [(u8, u8); 6] = [(1, 0), (2, 2), (3, 0), (5, 3), (6, 1), (7, 0)];

// The most entries that a table of 1 MiB has.
const MOST: u32 = 32_766;

// A source of version 1, without its id and the address of its register.
const SOURCE: [u8; 64] = [
    9, 0, 0, 0, 0xff, 0xff, 0, 1, 1, 0, 0, 0, 1, 0, 0, 0, 0, 0, 0, 0, 0, 64, 0, 4, 0, 0, 0, 0, 0,
    0, 0, 0, 4, 28, 0, 0, 0, 0, 0, 0, 0, 0, 0, 0, 0, 0, 0, 0, 0, 0, 0, 0, 0, 0, 0, 0, 0, 0, 0, 0,
    0, 0x10, 0, 0,
];

// The number of the first word after the program's name, and 0 where there is none.
fn number(rt: &(impl Env + AllocGlobal)) -> u32 {
    match env::args(rt) {
        Ok(mut words) => words
            .nth(1)
            .and_then(|word| word.parse::<u32>().ok())
            .unwrap_or(0),
        Err(_) => 0,
    }
}

// Writes bytes at an offset, as far as there is room.
fn put(bytes: &mut [u8], at: usize, value: &[u8]) {
    for (place, byte) in bytes.iter_mut().skip(at).zip(value) {
        *place = *byte;
    }
}

// Sets the length of a table, and the checksum that makes its bytes add up to 0.
fn mend(bytes: &mut [u8]) {
    let length = u32::try_from(bytes.len()).unwrap_or(0);
    put(bytes, 4, &length.to_le_bytes());
    let mut total = 0u8;
    for byte in &*bytes {
        total = total.wrapping_add(*byte);
    }
    put(bytes, 9, &[0u8.wrapping_sub(total)]);
}

// A header of so many bytes, with its signature and its count at an offset.
fn header(
    alloc: Global,
    signature: &[u8],
    length: usize,
    at: usize,
    count: u32,
) -> Result<Vec<u8>, AllocError> {
    let mut bytes = vec![in alloc; 0u8; length]?;
    put(&mut bytes, 0, signature);
    put(&mut bytes, at, &count.to_le_bytes());
    Ok(bytes)
}

// The table of the sources.
fn hest(alloc: Global) -> Result<Vec<u8>, AllocError> {
    let mut bytes = header(alloc, b"HEST", 40, 36, u32::from(SOURCES))?;
    for id in 0..SOURCES {
        let mut source = SOURCE;
        put(&mut source, 2, &id.to_le_bytes());
        put(&mut source, 24, &(0x1000 + 8 * u64::from(id)).to_le_bytes());
        bytes.extend_from_slice(&source)?;
    }
    mend(&mut bytes);
    Ok(bytes)
}

// An entry with a register of 32 bits in memory.
fn push_entry(
    bytes: &mut Vec<u8>,
    action: u8,
    instruction: u8,
    address: u64,
) -> Result<(), AllocError> {
    let mut entry = [0u8; 32];
    put(&mut entry, 0, &[action, instruction, 0, 0, 0, 32, 0, 3]);
    put(&mut entry, 8, &address.to_le_bytes());
    bytes.extend_from_slice(&entry)?;
    Ok(())
}

// The injection table with so many entries.
fn einj(alloc: Global, count: u32) -> Result<Vec<u8>, AllocError> {
    let mut bytes = header(alloc, b"EINJ", 48, 44, count)?;
    put(&mut bytes, 36, &[48]);
    for (action, instruction) in NEEDED {
        push_entry(
            &mut bytes,
            action,
            instruction,
            0x2000 + 8 * u64::from(action),
        )?;
    }
    for place in 6..count {
        push_entry(
            &mut bytes,
            0,
            0,
            0x1000_0000 + 0x1_0000 * (u64::from(place) - 6),
        )?;
    }
    mend(&mut bytes);
    Ok(bytes)
}

// Where the area of the last source begins in the map of the machine, if it has one.
fn last_area(alloc: Global, count: u32) -> Option<u64> {
    let hest = Hest::read(alloc, &hest(alloc).ok()?).ok()?;
    let einj = Einj::read(alloc, &einj(alloc, count).ok()?).ok()?;
    let map = Map::of(alloc, &hest, Some(&einj)).ok()?;
    Some(map.areas.last()?.first)
}

fn main(rt: HostRuntime) -> io::Result<()> {
    let count = number(&rt).clamp(6, MOST);
    match last_area(rt.alloc(), count) {
        Some(first) => println!(rt; "{count} entries, the last area at {first}"),
        None => println!(rt; "{count} entries, no map"),
    }
}
