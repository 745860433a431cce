// Tables by their bytes. The samples "two sources" and "injection" stand in docs/FORMATS.md.
mod placement;
mod refusals;

use crate::{FwError, Map};
use apei_einj::Einj;
use apei_hest::Hest;
use std::alloc::Global;
use std::test::Fail;

// The headers of the sample of two sources, with its count.
const HEST: &str = "484553546800000001404748455352545245504c415930310100000047484553\
    0100000002000000";

// Its sources: 1, of version 1, and 2, of version 2.
const SOURCES: &str = "09000100ffff0001010000000100000000000000004000040000007f00000000\
    041c0000000000000000000000000000000000000000000000000000\
    00100000\
    0a000200ffff0001010000000100000000000000004000040800007f00000000\
    041c0000000000000000000000000000000000000000000000000000\
    00100000\
    002000030010007f00000000\
    feffffff00000000\
    0100000000000000";

// The headers of the sample of an injection table, and its nine entries, of the actions 0 to 8.
const EINJ: &str = "45494e4a5001000001714748455352545245504c41593031010000004748455301000000\
    300000000000000009000000";

const ENTRIES: &str = "0004000000000000000000000000000000000000000000000000000000000000\
    01000000004000040000007e000000000000000000000000ffffffffffffffff\
    02020000002000030800007e000000000000000000000000ffffffff00000000\
    03000000002000030c00007e000000000000000000000000ffffffff00000000\
    0404000000000000000000000000000000000000000000000000000000000000\
    0503000001080001b2000000000000009a00000000000000ff00000000000000\
    06010000002000031000007e0000000001000000000000000100000000000000\
    07000000000801031000007e000000000000000000000000ff00000000000000\
    08020000002000034000007e000000000000000000000000ffffffff00000000";

// Writes bytes at an offset, as far as there is room.
fn put(bytes: &mut [u8], at: usize, value: &[u8]) {
    let mut next = at;
    for byte in value {
        if next < bytes.len() {
            bytes[next] = *byte;
            next += 1;
        }
    }
}

// Sets the length of a table, and the checksum that makes its bytes add up to 0.
fn mend(bytes: &mut [u8]) {
    let length = u32::try_from(bytes.len()).unwrap_or(0);
    put(bytes, 4, &length.to_le_bytes());
    put(bytes, 9, &[0]);
    let mut total = 0u8;
    for byte in &*bytes {
        total = total.wrapping_add(*byte);
    }
    put(bytes, 9, &[0u8.wrapping_sub(total)]);
}

// Changes a table by words: `AT=HEX` puts bytes at an offset from its start.
fn change(alloc: Global, bytes: &mut [u8], words: &str) -> Result<(), Fail> {
    for word in words.split_whitespace() {
        if let Some((at, digits)) = word.split_once('=') {
            put(bytes, at.parse::<usize>()?, &hex::decode(alloc, digits)?);
        }
    }
    Ok(())
}

// The table of two parts in hexadecimal, changed by words.
fn table(alloc: Global, front: &str, rest: &str, words: &str) -> Result<Vec<u8>, Fail> {
    let mut bytes = hex::decode(alloc, front)?;
    bytes.extend_from_slice(&hex::decode(alloc, rest)?)?;
    change(alloc, &mut bytes, words)?;
    mend(&mut bytes);
    Ok(bytes)
}

// The sample of two sources, changed by words. Of the first source, 47 says whether it is enabled, 60 is its status address register
// with the address at 64, and 100 its block length; of the second these are 111, 124, 128 and 164, and 172 is the address of its read
// ack register.
fn hest(alloc: Global, words: &str) -> Result<Hest, Fail> {
    Ok(Hest::read(alloc, &table(alloc, HEST, SOURCES, words)?)?)
}

// The sample of an injection table, changed by words.
fn einj(alloc: Global, words: &str) -> Result<Einj, Fail> {
    Ok(Einj::read(alloc, &table(alloc, EINJ, ENTRIES, words)?)?)
}

// A map, or why there is none: of the sources changed by words, and where there is a slash, of an injection table changed by those
// behind it.
fn map_of(alloc: Global, words: &str) -> Result<Result<Map, FwError>, Fail> {
    match words.split_once('/') {
        Some((sources, injection)) => {
            let hest = hest(alloc, sources)?;
            let einj = einj(alloc, injection)?;
            Ok(Map::of(alloc, &hest, Some(&einj)))
        }
        None => Ok(Map::of(alloc, &hest(alloc, words)?, None)),
    }
}
