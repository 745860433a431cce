//! Prints reports of one memory error, so that `bench/reports.py` can count what one costs.
//!
//! One word: how many reports are made. The answer is how many bytes they have together.
#![tactic(auto)]

ghost use Rattle.std.specs.Prelude.{◌≡◌, None};
ghost use Rattle.cper_block.specs.Block.{Judges, largest_block};

use cper_block::{Block, LARGEST_BLOCK};
use cper_text::report_text;
use std::alloc::{AllocError, Global};
use std::rt::Env;
use std::{env, io};

/// A block of one memory error, with its physical address, its mask and its type.
const MEMORY: &str = "1200000000000000000000009000000002000000\
    1411bca5646fde4eb8633e83ed7c83b1\
    020000000102000050000000\
    000000000000000000000000000000000000000000000000000000000000000000000000\
    06400000000000000000000000000000005034120000000000f0ffffffffffff\
    00000000000000000000000000000000000000000000000000000000000000000000000000000000\
    0200000000000000";

// The number of reports that the first word asks for, and 0 where there is none.
fn times(rt: &(impl Env + AllocGlobal)) -> u32 {
    match env::args(rt) {
        Ok(mut words) => words
            .nth(1)
            .and_then(|word| word.parse::<u32>().ok())
            .unwrap_or(0),
        Err(_) => 0,
    }
}

// How many bytes so many reports of a block have, each in the room of the one before.
fn reports(alloc: Global, block: &[u8], times: u32) -> Result<u64, AllocError>
    requires { Judges block.now largest_block None }
{
    let mut told = 0u64;
    let mut text = Vec::new(alloc);
    for seq in 0..times {
        text.clear();
        report_text(alloc, &mut text, 1, seq, block)?;
        told = told.saturating_add(text.len() as u64);
    }
    Ok(told)
}

fn main(rt: HostRuntime) -> io::Result<()> {
    let alloc = rt.alloc();
    let Ok(block) = hex::decode(alloc, MEMORY) else {
        println!(rt; "no digits")?;
        return Ok(());
    };
    if Block::read(&block, LARGEST_BLOCK).is_err() {
        println!(rt; "no block")?;
        return Ok(());
    }
    let told = reports(alloc, &block, times(&rt))?;
    println!(rt; "{told} bytes")
}
