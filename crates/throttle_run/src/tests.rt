//! Readers look in threads while the caller reports.
ghost use Rattle.std.specs.Prelude.{◌≤◌, ◌<◌, length};

use crate::{lanes, look_alone, run};
use ghes_throttle::{ThrottleReader, throttle};
use std::alloc::AllocError;
use std::process::Abort;
use std::sync::Wait;
use std::test::*;
use std::thread::{self, Threads, for_each_mut, join_mut};
use std::time::Duration;

const Z: [u8; 4] = [1, 2, 3, 4];

#[test]
fn two_readers_look_in_threads_while_the_caller_reports(rt: HostRuntime) -> Result<(), Fail> {
    let (mut writer, readers) = throttle(&rt, rt.alloc(), 64, 2)?;
    let made = match lanes(rt.alloc(), readers) {
        Ok(mut all) => {
            run(&rt, &mut writer, all.as_mut_slice(), &Z, 0, 100);
            true
        }
        Err(_) => false,
    };
    let own = writer.hit(&Z, 0);
    writer.end(&rt);
    // Each report from the fifth on takes the lowest of four equal times.
    assert!(rt; made && own == Some(100));
    Ok(())
}

#[test]
fn a_look_with_nothing_reported_is_of_all_reports(rt: HostRuntime) -> Result<(), Fail> {
    let (mut writer, mut readers) = throttle(&rt, rt.alloc(), 64, 1)?;
    let none = look_alone(&rt, &writer, &mut readers[0], &Z, 0);
    let number = writer.report(&rt, &Z, 0);
    readers[0].learn(&rt, &writer.tell());
    let one = look_alone(&rt, &writer, &mut readers[0], &Z, 0);
    writer.end(&rt);
    assert_eq!(rt; (none, number?, one), (None, 1, Some(1)));
    Ok(())
}

// Looks until it sees a report, at most so often.
fn look_until(reader: &mut ThrottleReader, bytes: &[u8]) -> Option<u64> {
    for _ in 0..100_000_000u64 {
        if let Some(number) = reader.look(bytes, 0) {
            return Some(number);
        }
        thread::yield_now();
    }
    None
}

/// A reader, and what it saw at last.
#[derive(Drop)]
struct Watch {
    reader: ThrottleReader,
    seen: Option<u64>,
}

#[test]
fn threads_see_what_is_reported_meanwhile(rt: HostRuntime) -> Result<(), Fail> {
    let (mut writer, readers) = throttle(&rt, rt.alloc(), 64, 2)?;
    let mut watches = Vec::new(rt.alloc());
    let mut made = true;
    for reader in readers {
        if watches.push(Watch { reader, seen: None }).is_err() {
            made = false;
        }
    }
    let all = watches.as_mut_slice();
    let (_, number) = join_mut(
        &rt,
        &mut || for_each_mut(
            &rt,
            all,
            1,
            &|_, watch: &mut Watch| {
                watch.seen = look_until(&mut watch.reader, &Z);
            },
        ),
        &mut || -> Result<u64, AllocError>
            requires { (4 ≤ writer.block_len) × (length writer.list < 1000) }
        {
            thread::sleep(&rt, Duration::from_millis(50));
            writer.report(&rt, &Z, 0)
        },
    );
    writer.end(&rt);
    assert!(rt; made);
    assert_eq!(rt; number?, 1);
    for watch in watches {
        assert_eq!(rt; watch.seen, Some(1));
    }
    Ok(())
}
