// Tables by their bytes. The samples stand in docs/FORMATS.md.
mod fields;
mod lengths;
mod limits;
mod refusals;

use crate::{Ack2, Ghes, Hest, Notify, Source};
use apei_base::Gas;
use std::alloc::Global;
use std::test::Fail;

// What each table begins with: the header of the sample of one source.
const HEADER: &str = "484553546800000001404748455352545245504c415930310100000047484553\
    01000000";

// The structure of that sample, of type 9 and id 1: its front, its notification and its block length.
const SOURCE: &str = "09000100ffff0001010000000100000000000000004000040000007f00000000\
    041c0000000000000000000000000000000000000000000000000000\
    00100000";

// A structure of type 10 and id 2, and behind its block length its read ack register, and what is kept and set in it.
const SOURCE_2: &str = "0a000200ffff0001010000000100000000000000004000040800007f00000000\
    041c0000000000000000000000000000000000000000000000000000\
    00100000\
    002000030010007f00000000\
    feffffff00000000\
    0100000000000000";

// Writes bytes at an offset, as far as there is room.
fn put(bytes: &mut [u8], at: usize, value: &[u8]) {
    let mut next = at;
    for byte in value {
        if next < bytes.len() {
            bytes[next] = *byte;
            next += 1;
        }
    }
}

// Sets the length of a table, and the checksum that makes its bytes add up to 0.
fn mend(bytes: &mut [u8]) {
    let length = u32::try_from(bytes.len()).unwrap_or(0);
    put(bytes, 4, &length.to_le_bytes());
    put(bytes, 9, &[0]);
    let mut total = 0u8;
    for byte in &*bytes {
        total = total.wrapping_add(*byte);
    }
    put(bytes, 9, &[0u8.wrapping_sub(total)]);
}

// The bytes that a word says: `one` and `two` are the structures of the sample and of version 2, and other words are in
// hexadecimal. Behind a star stands how long they are; zeros fill them up. A word that changes a table says none.
fn structure(alloc: Global, word: &str) -> Result<Vec<u8>, Fail> {
    if word.split_once('=').is_some() {
        return Ok(Vec::new(alloc));
    }
    if let Some((digits, length)) = word.split_once('*') {
        let mut bytes = hex::decode(alloc, digits)?;
        bytes.resize(length.parse::<usize>()?, 0)?;
        return Ok(bytes);
    }
    let digits = match word {
        "one" => SOURCE,
        "two" => SOURCE_2,
        _ => word,
    };
    Ok(hex::decode(alloc, digits)?)
}

// Changes a table by words: `AT=HEX` puts bytes at an offset from its start, and `AT=` cuts it off there.
fn change(alloc: Global, bytes: &mut Vec<u8>, words: &str) -> Result<(), Fail> {
    for word in words.split_whitespace() {
        if let Some((at, digits)) = word.split_once('=') {
            let at = at.parse::<usize>()?;
            put(bytes, at, &hex::decode(alloc, digits)?);
            if digits.is_empty() {
                bytes.truncate(at);
            }
        }
    }
    Ok(())
}

// The table that states this count and has these bytes behind it.
fn table(alloc: Global, count: u32, structures: &[u8]) -> Result<Vec<u8>, Fail> {
    let mut bytes = hex::decode(alloc, HEADER)?;
    bytes.extend_from_slice(&count.to_le_bytes())?;
    bytes.extend_from_slice(structures)?;
    mend(&mut bytes);
    Ok(bytes)
}

// The table of a count and words. Its length and its checksum are mended, but where a word says them.
fn table_of(alloc: Global, count: u32, words: &str) -> Result<Vec<u8>, Fail> {
    let mut structures = Vec::new(alloc);
    for word in words.split_whitespace() {
        structures.extend_from_slice(&structure(alloc, word)?)?;
    }
    let mut bytes = table(alloc, count, &structures)?;
    change(alloc, &mut bytes, words)?;
    mend(&mut bytes);
    change(alloc, &mut bytes, words)?;
    Ok(bytes)
}

// Whether the table of a count and words gives these sources.
fn gives(alloc: Global, count: u32, words: &str, want: &[Source]) -> Result<bool, Fail> {
    let hest = Hest::read(alloc, &table_of(alloc, count, words)?)?;
    Ok(hest.sources() == want)
}

// The refusal of a table in words, or that it is accepted.
fn told(alloc: Global, bytes: &[u8]) -> Result<String, Fail> {
    match Hest::read(alloc, bytes) {
        Ok(_) => Ok("accepted".to_string(alloc)?),
        Err(error) => Ok(error.to_string(alloc)?),
    }
}

// How many lines `WORDS: COUNT: TOLD` are right, up to the first that is not.
fn right(alloc: Global, lines: &str) -> Result<usize, Fail> {
    let mut count = 0usize;
    for line in lines.split('\n') {
        let (words, rest) = line.split_once(": ").unwrap_or(("", ""));
        let (said, want) = rest.split_once(": ").unwrap_or(("0", ""));
        let bytes = table_of(alloc, said.parse::<u32>()?, words)?;
        if told(alloc, &bytes)?.as_str() != want {
            return Ok(count);
        }
        count = count.saturating_add(1);
    }
    Ok(count)
}

// What the structure of the sample says with another id, place, address and acknowledgement.
fn sample(id: u16, at: u32, address: u64, ack: Option<Ack2>) -> Ghes {
    Ghes {
        id,
        at,
        related: 0xffff,
        flags: 0,
        enabled: true,
        records: 1,
        sections: 1,
        raw: 0,
        status: Gas {
            space: 0,
            bit_width: 64,
            bit_offset: 0,
            access: 4,
            address,
        },
        notify: sample_notify(4),
        block_length: 4096,
        ack,
    }
}

fn sample_notify(kind: u8) -> Notify {
    Notify {
        kind,
        length: 28,
        write_enable: 0,
        poll: 0,
        vector: 0,
        poll_threshold: 0,
        poll_window: 0,
        error_threshold: 0,
        error_window: 0,
    }
}
