// Texts of blocks by their bytes. The memory block stands in docs/FORMATS.md.
mod blocks;
mod entries;
mod memory;
mod sections;

use crate::block_text;
use cper_block::Block;
use std::alloc::Global;
use std::test::Fail;

// A block of one memory error: its header, the entry's GUID, its severity, revision, validation, flags and length,
// the rest of its header, and its section in three parts.
const MEMORY: &str = "1200000000000000000000009000000002000000\
    1411bca5646fde4eb8633e83ed7c83b1\
    020000000102000050000000\
    000000000000000000000000000000000000000000000000000000000000000000000000\
    06400000000000000000000000000000005034120000000000f0ffffffffffff\
    00000000000000000000000000000000000000000000000000000000000000000000000000000000\
    0200000000000000";

// The bytes of words in hexadecimal, one behind another. Behind a star stands how many a word says; zeros fill it up.
fn bytes_of(alloc: Global, words: &str) -> Result<Vec<u8>, Fail> {
    let mut bytes = Vec::new(alloc);
    for word in words.split_whitespace() {
        let (digits, length) = word.split_once('*').unwrap_or((word, "0"));
        let mut piece = hex::decode(alloc, digits)?;
        let length = length.parse::<usize>()?.max(piece.len());
        piece.resize(length, 0)?;
        bytes.extend_from_slice(&piece)?;
    }
    Ok(bytes)
}

// The lines of the block at the front of the bytes of words.
fn lines_of(alloc: Global, words: &str) -> Result<Vec<u8>, Fail> {
    let bytes = bytes_of(alloc, words)?;
    Block::read(&bytes, 65536)?;
    let mut lines = Vec::new(alloc);
    block_text(alloc, &mut lines, &bytes)?;
    Ok(lines)
}

// How many cases are right, up to the first that is not. A case begins with a number sign and its name; then come the words of a block,
// and its lines, of which each begins with two spaces.
fn right(alloc: Global, cases: &str) -> Result<usize, Fail> {
    let mut count = 0usize;
    for case in cases.split('#') {
        let (front, rest) = case.split_once("\n  ").unwrap_or(("", ""));
        let (_name, words) = front.split_once('\n').unwrap_or(("", ""));
        let wanted = format!(in alloc; "  {rest}")?;
        if lines_of(alloc, words)?.as_slice() != wanted.as_bytes() {
            return Ok(count);
        }
        count = count.saturating_add(1);
    }
    Ok(count)
}
