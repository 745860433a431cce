//! Files and outputs, in memory and of the machine.
use super::{Files, HostFiles, HostSink, LoadError, MemFiles, MemSink, PutFailed, Sink};
use std::alloc::Global;
use std::fmt::Display;
use std::io::ErrorKind;
use std::test::Fail;
use std::{fs, io};

// What a load leaves of what stood there before, and behind it the words for its refusal.
fn loaded<F: Files>(
    alloc: Global,
    files: &mut F,
    name: &str,
    limit: usize,
) -> Result<Vec<u8>, Fail> {
    let mut into = b"before".to_vec(alloc)?;
    if let Err(error) = files.load(name, &mut into, limit) {
        into.extend_from_slice(error.to_string(alloc)?.as_bytes())?;
    }
    Ok(into)
}

// How many loads `NAME LIMIT: WHAT` come out so, up to the first that does not. `whole` are these bytes.
fn right<F: Files>(alloc: Global, files: &mut F, whole: &[u8], lines: &str) -> Result<usize, Fail> {
    let mut count = 0usize;
    for line in lines.split('\n') {
        let (front, word) = line.split_once(": ").unwrap_or(("", ""));
        let (name, limit) = front.split_once(' ').unwrap_or(("", "0"));
        let wanted = if word == "whole" {
            whole
        } else {
            word.as_bytes()
        };
        if loaded(alloc, files, name, limit.parse::<usize>()?)?.as_slice() != wanted {
            return Ok(count);
        }
        count = count.saturating_add(1);
    }
    Ok(count)
}

// The second and the seventh load fail.
const LOADS: &str = "a 3: whole
a 3: 1 failed
a 2: 2 too long
a 4: whole
b 0: \nc 9: 1 failed
a 3: 1 failed
a 3: whole";

#[test]
fn files_in_memory_are_loaded_up_to_a_limit_and_fail_as_planned(
    rt: HostRuntime,
) -> Result<(), Fail> {
    let mut files = MemFiles::new(rt.alloc(), &[2, 7])?;
    files.add("a", b"old")?;
    files.add("b", b"")?;
    files.add("a", b"abc")?;
    assert_eq!(rt; right(rt.alloc(), &mut files, b"abc", LOADS)?, 8);
    let words = LoadError::OutOfMemory.to_string(rt.alloc())?;
    assert_eq!(rt; words.as_str(), "out of memory");
    Ok(())
}

// Which of the puts of "abc", "de" and "f" were taken, by a plus or a minus, and the bytes that were. The third put fails.
fn taken(alloc: Global, room: usize) -> Result<Vec<u8>, Fail> {
    let mut sink = MemSink::new(alloc, room, &[3])?;
    let mut told = Vec::new(alloc);
    for piece in "abc de f".split(' ') {
        let taken = sink.put(piece.as_bytes()).is_ok();
        told.push(if taken { b'+' } else { b'-' })?;
    }
    told.extend_from_slice(sink.written())?;
    Ok(told)
}

#[test]
fn an_output_in_memory_takes_what_fits_and_fails_as_planned(rt: HostRuntime) -> Result<(), Fail> {
    for line in "6 ++-abcde\n5 ++-abcde\n4 +--abc".split('\n') {
        let (room, wanted) = line.split_once(' ').unwrap_or(("0", ""));
        let told = taken(rt.alloc(), room.parse::<usize>()?)?;
        assert!(rt; told.as_slice() == wanted.as_bytes(), "room {room}");
    }
    Ok(())
}

// Longer than the longest read of std, which is 128 KiB.
const LONG: usize = 300_000;

const LOADS_OF_THE_MACHINE: &str = "loaded_up_to_its_limit.bin 300000: whole
loaded_up_to_its_limit.bin 299999: 2 too long
loaded_up_to_its_limit.bin 18446744073709551615: whole
no_file_of_this_name 9: 1 failed
. 9: 1 failed
nul\0inside 9: 1 failed
 9: 1 failed";

#[test]
fn a_file_of_the_machine_is_loaded_up_to_its_limit(rt: HostRuntime) -> Result<(), Fail> {
    let path = "loaded_up_to_its_limit.bin";
    let bytes = vec![in rt.alloc(); 7u8; LONG]?;
    fs::write(&rt, path, bytes.as_slice())?;
    let mut files = HostFiles::new(&rt);
    assert_eq!(rt;
        right(rt.alloc(), &mut files, &bytes, LOADS_OF_THE_MACHINE)?,
        7
    );
    fs::remove_file(&rt, path)?;
    Ok(())
}

// An output whose device is full.
#[derive(Drop)]
struct Full;

impl Print for Full {
    fn print<D: Display + Drop>(&self, _value: D) -> io::Result<()> {
        Err(io::Error::from(ErrorKind::StorageFull))
    }

    fn println<D: Display + Drop>(&self, _value: D) -> io::Result<()> {
        Err(io::Error::from(ErrorKind::StorageFull))
    }

    fn write_all(&self, _bytes: &[u8]) -> io::Result<()> {
        Err(io::Error::from(ErrorKind::StorageFull))
    }
}

#[test]
fn the_standard_output_takes_a_line_and_a_full_device_none(rt: HostRuntime) {
    assert_eq!(rt; HostSink::new(&rt).put(b"one line\n"), Ok(()));
    assert_eq!(rt; HostSink::new(Full).put(b"one line\n"), Err(PutFailed));
}
