//! Puts and hits that a person worked out from the rules, and looks beside reports.
ghost use Rattle.std.specs.Prelude.{◌≡◌, ◌≤◌, ◌<◌, ◌+◌, ◌-◌, ◌^◌, length};

use crate::{Cache, ThrottleReader, ThrottleWriter, throttle};
use std::alloc::{AllocError, Global};
use std::process::Abort;
use std::sync::Wait;
use std::test::*;

const WINDOW: u64 = 10_000_000_000;

const LAST: u64 = u64::MAX;

/// Blocks that differ in their last byte alone.
fn block(n: u8) -> [u8; 4] {
    [2, 0, 0, n]
}

/// Reports 1 to 4 at these times, and then report 5, where it has a time.
fn filled(alloc: Global, times: [u64; 4], fifth: Option<u64>) -> Result<Cache, AllocError> {
    let mut cache = Cache::new(alloc, 4)?;
    cache.put(&block(1), times[0], 1);
    cache.put(&block(2), times[1], 2);
    cache.put(&block(3), times[2], 3);
    cache.put(&block(4), times[3], 4);
    if let Some(time) = fifth {
        cache.put(&block(5), time, 5);
    }
    Ok(cache)
}

/// The times of reports 1 to 4, that of report 5, when the cache is asked, and which report hits for blocks 1 to 5.
const CASES: [([u64; 4], Option<u64>, u64, [Option<u64>; 5]); 10] = [
    // A report hits for less than the window, and not before its time.
    (
        [0, 1, 2, 3],
        None,
        WINDOW - 1,
        [Some(1), Some(2), Some(3), Some(4), None],
    ),
    (
        [0, 1, 2, 3],
        None,
        WINDOW,
        [None, Some(2), Some(3), Some(4), None],
    ),
    ([0, 1, 2, 3], None, 1, [Some(1), Some(2), None, None, None]),
    // Of equal times the lowest place is taken.
    (
        [0, 0, 0, 0],
        Some(0),
        0,
        [None, Some(2), Some(3), Some(4), Some(5)],
    ),
    (
        [9, 7, 7, 8],
        Some(9),
        9,
        [Some(1), None, Some(3), Some(4), Some(5)],
    ),
    // The lowest place whose window is over is taken before the oldest, from the window's length on.
    (
        [3, 2, 9, 9],
        Some(WINDOW + 5),
        WINDOW + 1,
        [None, Some(2), Some(3), Some(4), None],
    ),
    (
        [1, 0, 9, 9],
        Some(WINDOW + 1),
        WINDOW - 1,
        [None, Some(2), Some(3), Some(4), None],
    ),
    // The last moment there is.
    (
        [LAST, LAST, LAST, LAST],
        Some(LAST),
        LAST,
        [None, Some(2), Some(3), Some(4), Some(5)],
    ),
    (
        [LAST, LAST, LAST, LAST],
        Some(LAST),
        LAST - 1,
        [None, None, None, None, None],
    ),
    (
        [LAST, LAST - 1, LAST, LAST],
        Some(0),
        LAST,
        [Some(1), None, Some(3), Some(4), None],
    ),
];

#[test]
fn the_lowest_place_is_taken_and_the_newest_reports_hit(rt: HostRuntime) -> Result<(), Fail> {
    for (times, fifth, now, hits) in CASES {
        let cache = filled(rt.alloc(), times, fifth)?;
        let found = [
            cache.hit(&block(1), now),
            cache.hit(&block(2), now),
            cache.hit(&block(3), now),
            cache.hit(&block(4), now),
            cache.hit(&block(5), now),
        ];
        assert_eq!(rt; found, hits);
    }
    Ok(())
}

#[test]
fn a_look_sees_a_report_that_no_reader_was_told_of(rt: HostRuntime) -> Result<(), Fail> {
    let (mut writer, mut readers) = throttle(&rt, rt.alloc(), 20, 2)?;
    let before = readers[0].look(&block(1), 0);
    let number = writer.report(&rt, &block(1), 0);
    let seen = readers[0].look(&block(1), 0);
    let late = readers[0].look(&block(1), WINDOW);
    let other = readers[1].look(&block(1), WINDOW - 1);
    let own = writer.hit(&block(1), 0);
    writer.end(&rt);
    assert_eq!(rt; before, None);
    assert_eq!(rt; number?, 1);
    assert_eq!(rt; (seen, late, other, own), (Some(1), None, Some(1), Some(1)));
    Ok(())
}

#[test]
fn a_reader_looks_and_learns_in_turn(rt: HostRuntime) -> Result<(), Fail> {
    let (mut writer, mut readers) = throttle(&rt, rt.alloc(), 20, 1)?;
    let none = readers[0].look(&block(1), 0);
    readers[0].learn(&rt, &writer.tell());
    let still_none = readers[0].look(&block(1), 0);
    let number = writer.report(&rt, &block(1), 0);
    readers[0].learn(&rt, &writer.tell());
    let one = readers[0].look(&block(1), 0);
    let other = readers[0].look(&block(2), 0);
    writer.end(&rt);
    assert_eq!(rt; number?, 1);
    assert_eq!(rt; (none, still_none, one, other), (None, None, Some(1), None));
    Ok(())
}

/// The number of a report. Where it was refused first, nothing may have changed, and the next try succeeds, or it is 0.
fn reported<R: Wait>(
    rt: &R,
    writer: &mut ThrottleWriter,
    reader: &mut ThrottleReader,
    bytes: &[u8],
) -> u64
    requires { (length bytes.now ≤ writer.old.block_len) × (length writer.old.list < 1000) }
    ensures { (writer.new.block_len ≡ writer.old.block_len) × (length writer.new.list ≤ length writer.old.list + 1) }
{
    match writer.report(rt, bytes, 0) {
        Ok(number) => number,
        Err(_) => {
            let same = writer.hit(bytes, 0).is_none() && reader.look(bytes, 0).is_none();
            match writer.report(rt, bytes, 0) {
                Ok(number) => if same { number } else { 0 },
                Err(_) => 0,
            }
        }
    }
}

/// To be run with each allocation failing in turn.
#[test]
fn a_report_after_a_refused_one_succeeds(rt: HostRuntime) -> Result<(), Fail> {
    let made = match throttle(&rt, rt.alloc(), 20, 1) {
        Ok(made) => Ok(made),
        Err(_) => throttle(&rt, rt.alloc(), 20, 1),
    };
    let (mut writer, mut readers) = made?;
    let first = reported(&rt, &mut writer, &mut readers[0], &block(1));
    let second = reported(&rt, &mut writer, &mut readers[0], &block(2));
    let third = reported(&rt, &mut writer, &mut readers[0], &block(3));
    let seen = readers[0].look(&block(2), 0);
    writer.end(&rt);
    assert_eq!(rt; (first, second, third, seen), (1, 2, 3, Some(2)));
    Ok(())
}

/// The number of the last of so many reports, or 0 where one was refused.
fn last_number<R: Wait>(rt: &R, writer: &mut ThrottleWriter, bytes: &[u8], times: usize) -> u64
    requires fits { length bytes.now ≤ writer.old.block_len }
    requires few { length writer.old.list + times < 2 ^ 64 - 1 }
{
    let mut last = 0;
    for _ in 0..times {
        match writer.report(rt, bytes, 0) {
            Ok(number) => last = number,
            Err(_) => return 0,
        }
    }
    last
}

/// A body that gives up above some size meets each clause.
#[test]
fn large_blocks_many_reports_and_many_readers_find_memory(rt: HostRuntime) -> Result<(), Fail> {
    let bytes = vec![in rt.alloc(); 7u8; 65_536]?;
    let (mut writer, mut readers) = throttle(&rt, rt.alloc(), 65_536, 64)?;
    let last = last_number(&rt, &mut writer, &bytes, 1000);
    let seen = readers[63].look(&bytes, 0);
    writer.end(&rt);
    assert_eq!(rt; (last, seen), (1000, Some(1000)));
    Ok(())
}
