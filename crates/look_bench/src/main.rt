//! Looks into the report cache, so that `bench/looks.py` can count what one costs.
//!
//! Five or six words: the length of the block that is looked for, up to 164 bytes, how many reports are made, how many looks follow
//! each report, how many more follow the last, and what is looked for: the number of one of four memory errors, 0 to 3, which are
//! reported in turn; or `other`, a block whose last byte no report has. The sixth word is where the four differ, as an offset in the
//! block; without it, in their physical address. The answer is how many looks hit.
#![tactic(auto)]

ghost use Rattle.std.specs.Prelude.{◌≡◌, ◌<◌, length};

use ghes_throttle::{ThrottleReader, ThrottleWriter, throttle};
use std::rt::Env;
use std::sync::Wait;
use std::{env, io};

/// The length of each report's block, in bytes.
const LONGEST: usize = 164;

/// Where the physical address stands in the block of a memory error: 16 bytes into its section, which is 84 bytes into the block.
///
/// Source: UEFI 2.10, N.2.5 and ACPI 6.5, 18.3.2.7.
const ADDRESS: usize = 100;

// This word after the program's name, and an empty one where there is none.
fn word(rt: &(impl Env + AllocGlobal), index: usize) -> String {
    match env::args(rt) {
        Ok(mut words) => words.nth(index).unwrap_or_else(|| String::new(rt.alloc())),
        Err(_) => String::new(rt.alloc()),
    }
}

// The number that a word says, and 0 where it is none.
fn number(rt: &(impl Env + AllocGlobal), index: usize) -> u64 {
    word(rt, index).parse::<u64>().unwrap_or(0)
}

// How many of so many looks hit.
fn looks(reader: &mut ThrottleReader, block: &[u8], times: u64) -> u64 {
    let mut hits = 0u64;
    for _ in 0..times {
        if reader.look(block, 0).is_some() {
            hits = hits.wrapping_add(1);
        }
    }
    hits
}

// The block of a memory error, 164 bytes, one of four that differ in the byte at this offset.
fn error_at(index: u32, offset: usize) -> [u8; LONGEST] {
    let mut block = [7u8; LONGEST];
    if let Some(byte) = block.get_mut(offset) {
        *byte = (index % 4) as u8;
    }
    block
}

// Reports so often, with so many looks after each report, and so many more after the last.
fn reports<R: Wait>(
    rt: &R,
    writer: &mut ThrottleWriter,
    reader: &mut ThrottleReader,
    block: &[u8],
    times: u32,
    each: u64,
    last: u64,
    offset: usize,
) -> u64
    requires { (writer.old.block_len ≡ 164) × (length writer.old.list < 2) }
{
    let mut hits = 0u64;
    for index in 0..times {
        let _ = writer.report(rt, &error_at(index, offset), 0);
        hits = hits.wrapping_add(looks(reader, block, each));
    }
    hits.wrapping_add(looks(reader, block, last))
}

// The block that is looked for, of 164 bytes.
fn sought(what: &str, offset: usize) -> [u8; LONGEST] {
    let mut block = error_at(what.parse::<u32>().unwrap_or(0), offset);
    if what == "other" {
        block[LONGEST - 1] = 8;
    }
    block
}

fn main(rt: HostRuntime) -> io::Result<()> {
    let length = number(&rt, 1).min(LONGEST as u64) as usize;
    let times = number(&rt, 2).min(1_000_000) as u32;
    let (each, last) = (number(&rt, 3), number(&rt, 4));
    let offset = match number(&rt, 6) {
        0 => ADDRESS,
        told => told as usize,
    };
    let block = sought(word(&rt, 5).as_str(), offset);
    let (mut writer, mut readers) = throttle(&rt, rt.alloc(), LONGEST, 1)?;
    let hits = reports(
        &rt,
        &mut writer,
        &mut readers[0],
        &block[..length],
        times,
        each,
        last,
        offset,
    );
    writer.end(&rt);
    println!(rt; "{hits} hits")
}
