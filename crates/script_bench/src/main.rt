//! Reads a script of one line that stands in it again and again, so that `bench/scripts.py` can count what a byte costs.
//!
//! Four words: `raise`, `bare` or `nmi`, how many lines there are, how many sources, and how often the script is read. The answer is how
//! many bytes the script has, and how many lines were read.
#![tactic(auto)]

ghost use Rattle.std.specs.Prelude.{◌<◌, ◌^◌, length};

use ghes_script::{Script, ScriptError, SourceName};
use std::alloc::{AllocError, Global};
use std::rt::Env;
use std::{env, io};

/// A line that raises a block of one memory error.
const RAISE: &str = "raise 1 1200000000000000000000009000000002000000\
    1411bca5646fde4eb8633e83ed7c83b1\
    020000000102000050000000\
    000000000000000000000000000000000000000000000000000000000000000000000000\
    06400000000000000000000000000000005034120000000000f0ffffffffffff\
    00000000000000000000000000000000000000000000000000000000000000000000000000000000\
    0200000000000000\n";

/// A line that raises a block without data.
const BARE: &str = "raise 1 0200000000000000000000000000000002000000\n";

/// A line that calls the receiver.
const NMI: &str = "nmi 1\n";

// The number of this word after the program's name, and 0 where there is none.
fn number(rt: &(impl Env + AllocGlobal), index: usize) -> u32 {
    match env::args(rt) {
        Ok(mut words) => words
            .nth(index)
            .and_then(|word| word.parse::<u32>().ok())
            .unwrap_or(0),
        Err(_) => 0,
    }
}

// The line that the first word names.
fn line(rt: &(impl Env + AllocGlobal)) -> &'static str {
    let Ok(mut words) = env::args(rt) else {
        return NMI;
    };
    match words.nth(1) {
        Some(word) if word.as_str() == "raise" => RAISE,
        Some(word) if word.as_str() == "bare" => BARE,
        _ => NMI,
    }
}

// So many sources, with the ids from 1 on.
fn sources(alloc: Global, count: u16) -> Result<Vec<SourceName>, AllocError> {
    let mut names = Vec::new(alloc);
    for number in 0..count {
        let id = number.saturating_add(1);
        names.push(SourceName { id, v2: false })?;
    }
    Ok(names)
}

// A script of so many times this line.
fn script(alloc: Global, line: &str, times: u32) -> Result<Vec<u8>, AllocError> {
    let mut bytes = Vec::new(alloc);
    for _ in 0..times {
        bytes.extend_from_slice(line.as_bytes())?;
    }
    Ok(bytes)
}

// How many lines there are, where the script is read so often.
fn lines(alloc: Global, bytes: &[u8], names: &[SourceName], times: u32) -> Result<u64, ScriptError>
    requires { length bytes.now < 2 ^ 32 }
{
    let mut lines = 0u64;
    for _ in 0..times {
        let script = Script::read(alloc, bytes, names, false)?;
        lines = lines.saturating_add(script.lines().len() as u64);
    }
    Ok(lines)
}

fn main(rt: HostRuntime) -> io::Result<()> {
    let alloc = rt.alloc();
    let names = sources(alloc, number(&rt, 3).min(64) as u16)?;
    let bytes = script(alloc, line(&rt), number(&rt, 2).min(1_000_000))?;
    let size = bytes.len();
    if size >= 1 << 32 {
        println!(rt; "too long")?;
        return Ok(());
    }
    match lines(alloc, &bytes, &names, number(&rt, 4)) {
        Ok(lines) => println!(rt; "{size} bytes, {lines} lines"),
        Err(_) => println!(rt; "refused"),
    }
}
