// Status blocks by their bytes. The memory block stands in docs/FORMATS.md.
mod fields;
mod images;
mod refusals;
mod words;

use crate::{Block, Image, LARGEST_BLOCK, Malformed};
use std::alloc::Global;
use std::test::Fail;

const LIMIT: u32 = 4096;

// A block of one memory error: its header, the entry's GUID, its severity, revision, validation, flags and length,
// the rest of its header, and its section in three parts.
const MEMORY: &str = "1200000000000000000000009000000002000000\
    1411bca5646fde4eb8633e83ed7c83b1\
    020000000102000050000000\
    000000000000000000000000000000000000000000000000000000000000000000000000\
    06400000000000000000000000000000005034120000000000f0ffffffffffff\
    00000000000000000000000000000000000000000000000000000000000000000000000000000000\
    0200000000000000";

// A block of two entries, of the revisions 0x0201 and 0x0300: each has its GUID, its severity to length, its FRU id,
// its FRU text and its section, and the second a timestamp before that.
const TWO: &str = "2200000000000000000000009000000002000000\
    33221100554477668899aabbccddeeff020000000102000004000000\
    000000000000000000000000000000000000000000000000000000000000000000000000\
    01020304\
    33221100554477668899aabbccddeeff020000000003000004000000\
    000000000000000000000000000000000000000000000000000000000000000000000000\
    0000000000000000\
    01020304";

// The same with validation 7, and with each optional field.
const TWO_WITH_ALL: &str = "2200000000000000000000009000000002000000\
    33221100554477668899aabbccddeeff020000000102070004000000\
    00112233445566778899aabbccddeeff\
    44494d4d20413100000000000000000000000000\
    01020304\
    33221100554477668899aabbccddeeff020000000003070004000000\
    00112233445566778899aabbccddeeff\
    44494d4d20413100000000000000000000000000\
    1112131415161718\
    01020304";

// The bytes that a word says: `memory` and `two` are the blocks of these names, and other words are in hexadecimal. Behind a star stands
// how many they are; zeros fill them up. A word that changes bytes says none.
fn piece(alloc: Global, word: &str) -> Result<Vec<u8>, Fail> {
    if word.split_once('=').is_some() {
        return Ok(Vec::new(alloc));
    }
    if let Some((digits, length)) = word.split_once('*') {
        let mut bytes = hex::decode(alloc, digits)?;
        bytes.resize(length.parse::<usize>()?, 0)?;
        return Ok(bytes);
    }
    let digits = match word {
        "memory" => MEMORY,
        "two" => TWO,
        _ => word,
    };
    Ok(hex::decode(alloc, digits)?)
}

// Puts a byte at an offset, if there is one.
fn put(bytes: &mut [u8], at: usize, byte: u8) {
    if at < bytes.len() {
        bytes[at] = byte;
    }
}

// The bytes of words, one behind another. `AT=BYTE`, in decimal, puts another byte at an offset.
fn bytes_of(alloc: Global, words: &str) -> Result<Vec<u8>, Fail> {
    let mut bytes = Vec::new(alloc);
    for word in words.split_whitespace() {
        bytes.extend_from_slice(&piece(alloc, word)?)?;
        if let Some((at, byte)) = word.split_once('=') {
            put(&mut bytes, at.parse::<usize>()?, byte.parse::<u8>()?);
        }
    }
    Ok(bytes)
}

// What is told of bytes.
#[derive(Clone, Copy)]
enum Tell {
    // That they are a block, or why they are none.
    Block,
    // How long its image is, whether it is fatal, and the same of the image.
    Image,
    // How many raw bytes and entries the largest block has, the entries counted in both ways to see it as a block.
    Sizes,
}

fn reason_text(alloc: Global, reason: Option<Malformed>) -> Result<String, Fail> {
    match reason {
        Some(reason) => Ok(reason.to_string(alloc)?),
        None => Ok("a block".to_string(alloc)?),
    }
}

fn sizes(bytes: &[u8]) -> Result<(usize, usize, usize), Fail> {
    let block = Block::read(bytes, LARGEST_BLOCK)?;
    let entries = block.entries().count();
    Ok((
        block.raw().len(),
        entries,
        Block::of(bytes).entries().count(),
    ))
}

fn told(alloc: Global, tell: Tell, bytes: &[u8], limit: u32) -> Result<String, Fail> {
    match tell {
        Tell::Block => reason_text(alloc, Block::read(bytes, limit).err()),
        Tell::Image => {
            let image = Image::take(alloc, bytes, limit)?;
            let (length, fatal) = (image.bytes.as_slice().len(), image.fatal);
            let reason = reason_text(alloc, image.reason)?;
            Ok(format!(in alloc; "{length} {fatal} {reason}")?)
        }
        Tell::Sizes => {
            let (raw, entries, again) = sizes(bytes)?;
            Ok(format!(in alloc; "{raw} {entries} {again}")?)
        }
    }
}

// How many lines `WORDS: LIMIT: TOLD` are right, up to the first that is not.
fn right(alloc: Global, tell: Tell, lines: &str) -> Result<usize, Fail> {
    let mut count = 0usize;
    for line in lines.split('\n') {
        let (words, rest) = line.split_once(": ").unwrap_or(("", ""));
        let (limit, want) = rest.split_once(": ").unwrap_or(("0", ""));
        let bytes = bytes_of(alloc, words)?;
        if told(alloc, tell, &bytes, limit.parse::<u32>()?)?.as_str() != want {
            return Ok(count);
        }
        count = count.saturating_add(1);
    }
    Ok(count)
}
