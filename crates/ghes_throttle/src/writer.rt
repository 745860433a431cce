//! The writer of the reports.
ghost use Rattle.std.specs.Prelude.{◌≡◌, ◌≤◌, ◌<◌, ◌+◌, ◌-◌, ◌^◌, [], length, All, vec_len, IfOk, OnOk, OnErr};
ghost use Rattle.ghes_throttle.specs.Reports.{hit};
ghost use Rattle.ghes_throttle.specs.Shown.{Known, Writing, Knows, reported};

use crate::cache::Cache;
use crate::history::{History, Mark};
use crate::publishing::{ShownWriter, show, warmed};
use crate::reader::ThrottleReader;
use crate::ruled::{Takes, Twice};
use crate::shown::{Line, Shown};
use crate::told::Told;
use core::mem::replace_with;
use left_right::writer::Writer;
use std::alloc::{AllocError, Global};
use std::marker::Model;
use std::sync::Wait;

/// The writer of the reports. It cannot be dropped: `end` lets it go.
///
/// Contracts see its list, and the history that tells which writer it is. Times are in nanoseconds. Reports are numbered
/// from 1.
pub struct ThrottleWriter {
    writer: ShownWriter,
    history: History,
    mark: Mark,
    count: u64,
    alloc: Global,
}

impl Model for ThrottleWriter {
    ghost use Rattle.std.specs.Prelude.{◌≡◌, [], length, drop, Some};
    ghost use Rattle.left_right.specs.Sides.{view as view_of};
    ghost use Rattle.ghes_throttle.specs.Shown.{Writing, ShowsItsList};

    ghost Value = { Writing };

    ghost view = { λ w. record { book = w.mark.book; list = w.mark.list; block_len = w.writer.desk.shown.value.cache.block_len } };

    ghost invariant = { λ w. (drop w.writer.behind w.writer.log.items ≡ []) × (view_of w.writer.desk.place ≡ Some w.writer.desk.shown.value) × (w.writer.desk.shown.value.mark ≡ w.mark) × ShowsItsList w.writer.desk.shown.value × (w.history ≡ w.mark.book) × (w.count ≡ length w.mark.list) };
}

fn copied(alloc: Global, bytes: &[u8]) -> Result<Vec<u8>, AllocError>
    ensures { IfOk result (λ copy. copy.items ≡ bytes.now) }
{
    let mut copy = Vec::with_capacity(alloc, bytes.len())?;
    copy.extend_from_slice(bytes)?;
    Ok(copy)
}

impl ThrottleWriter {
    /// A writer with an empty list, for so many readers.
    pub(crate) fn new<R: Wait>(
        rt: &R,
        alloc: Global,
        block_len: usize,
        readers: usize,
    ) -> Result<ThrottleWriter, AllocError>
        requires { (0 < readers) × (readers < 2 ^ 32) }
        ensures { IfOk result (λ w. (w.list ≡ []) × (w.block_len ≡ block_len)) }
    {
        let (history, mark) = History::new();
        let first = Shown::empty(alloc, block_len, mark.again())?;
        let second = Shown::empty(alloc, block_len, mark.again())?;
        let writer = Writer::new(alloc, first, second, readers)?;
        match warmed(writer, rt) {
            Ok(writer) => Ok(ThrottleWriter {
                writer,
                history,
                mark,
                count: 0,
                alloc,
            }),
            Err(writer) => {
                writer.take(rt);
                Err(AllocError)
            }
        }
    }

    // A reader that has seen what is shown.
    fn reader(&mut self) -> Result<ThrottleReader, AllocError>
        ensures same { self.new ≡ self.old }
        ensures seen { IfOk result (Knows self.old.book self.old.list) }
    {
        let shown = self.writer.published();
        let mut cache = Cache::new(self.alloc, shown.cache.block_len())?;
        cache.follow(&shown.cache);
        let own = Box::new(
            self.alloc,
            Shown {
                cache,
                mark: self.mark.again(),
            },
        )?;
        let mut reader = self.writer.factory().reader()?;
        reader.learn::<Takes>(self.writer.tell::<Twice>());
        Ok(ThrottleReader { reader, own })
    }

    /// So many readers, each of which has seen what is shown.
    pub(crate) fn readers(&mut self, count: usize) -> Result<Vec<ThrottleReader>, AllocError>
        ensures same { self.new ≡ self.old }
        ensures count { IfOk result (λ all. vec_len all ≡ count) }
        ensures seen { IfOk result (λ all. All (Knows self.old.book self.old.list) all.items) }
    {
        let mut all = Vec::with_capacity(self.alloc, count)?;
        for _ in 0..count {
            all.push(self.reader()?)?;
        }
        Ok(all)
    }

    /// The number of the report that hits. It takes no memory.
    pub fn hit(&self, bytes: &[u8], now: u64) -> Option<u64>
        ensures { result ≡ hit self.now.list bytes.now now }
    {
        self.writer.published().cache.hit(bytes, now)
    }

    /// Its list, for its readers to learn. It takes no memory.
    pub fn tell(&self) -> Told<'_>
        ensures book { result.book ≡ self.now.book }
        ensures list { result.list ≡ self.now.list }
    {
        Told { mark: &self.mark }
    }

    /// Lets it go. It waits for a reader that is inside a look.
    pub fn end<R: Wait>(self, rt: &R) {
        let ThrottleWriter {
            writer,
            history: _,
            mark: _,
            count: _,
            alloc: _,
        } = self;
        writer.take(rt);
    }

    fn reported<R: Wait>(
        self,
        rt: &R,
        bytes: &[u8],
        time: u64,
    ) -> (ThrottleWriter, Result<u64, AllocError>)
        requires fits { length bytes.now ≤ self.block_len }
        requires few { length self.list < 2 ^ 64 - 1 }
        ensures number { IfOk result.1 (λ n. n ≡ length self.list + 1) }
        ensures ok { OnOk result.1 (result.0 ≡ reported self bytes.now time) }
        ensures err { OnErr result.1 (result.0 ≡ self) }
    {
        let Ok(copy) = copied(self.alloc, bytes) else {
            return (self, Err(AllocError));
        };
        let ThrottleWriter {
            mut writer,
            mut history,
            mark,
            count,
            alloc,
        } = self;
        let Some(next) = history.add(&mark, bytes, time) else {
            let same = ThrottleWriter {
                writer,
                history,
                mark,
                count,
                alloc,
            };
            return (same, Err(AllocError));
        };
        let line = Line {
            bytes: copy,
            time,
            number: count + 1,
            mark: next.again(),
        };
        let (writer, done) = show(writer, rt, line);
        if !done {
            let same = ThrottleWriter {
                writer,
                history,
                mark,
                count,
                alloc,
            };
            return (same, Err(AllocError));
        }
        let after = ThrottleWriter {
            writer,
            history,
            mark: next,
            count: count + 1,
            alloc,
        };
        (after, Ok(count + 1))
    }

    /// Appends a report to the list, publishes it, and then answers its number.
    ///
    /// Where memory is wanting nothing changes. It waits for a reader that is inside a look.
    pub fn report<R: Wait>(&mut self, rt: &R, bytes: &[u8], now: u64) -> Result<u64, AllocError>
        requires fits { length bytes.now ≤ self.old.block_len }
        requires few { length self.old.list < 2 ^ 64 - 1 }
        ensures number { IfOk result (λ n. n ≡ length self.old.list + 1) }
        ensures ok { OnOk result (self.new ≡ reported self.old bytes.now now) }
        ensures err { OnErr result (self.new ≡ self.old) }
    {
        replace_with(
            self,
            (rt, bytes, now),
            |writer, ask| writer.reported(ask.0, ask.1, ask.2),
        )
    }
}
