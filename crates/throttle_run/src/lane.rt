//! A reader with what its looks answered, and many of them in threads.
ghost use Rattle.std.specs.Prelude.{◌≡◌, ◌≤◌, ◌<◌, ◌+◌, ◌-◌, ◌*◌, ◌^◌, ◌∷◌, ◌++◌, ℕ, [], length, All, List, IfOk, if◌then◌else◌, slice_index_or};
ghost use Rattle.ghes_throttle.specs.declared.report.Report.{Report};
ghost use Rattle.ghes_throttle.specs.Shown.{Book, Knows};
ghost use mathlib.Core.List.{IsPrefix};
ghost use Rattle.throttle_run.specs.Looks.{Laned, Answers, HitsOf, Looked, Learned, IsFresh};
ghost use Rattle.throttle_run.specs.declared.lane.Lane.{Lane};
ghost use Rattle.ghes_throttle.specs.Reports.{hit};

use ghes_throttle::{ThrottleReader, ThrottleWriter, Told};
use std::alloc::{AllocError, Global};
use std::marker::Model;
use std::sync::Wait;
use std::thread::{Threads, for_each_mut, join_mut};

/// A reader, and what its looks answered.
#[derive(Drop)]
pub struct Lane {
    reader: ThrottleReader,
    answers: Vec<Option<u64>>,
}

impl Model for Lane {
    ghost use Rattle.throttle_run.specs.Looks.{Laned};

    ghost Value = { Laned };

    ghost view = { λ l. record { book = l.reader.book; list = l.reader.list; answers = l.answers.items } };
}

impl Lane {
    pub fn new(alloc: Global, reader: ThrottleReader) -> Lane
        ensures { result ≡ record { book = reader.book; list = reader.list; answers = [] } }
    {
        Lane {
            reader,
            answers: Vec::new(alloc),
        }
    }

    pub fn answers(&self) -> &[Option<u64>]
        ensures { result.now ≡ self.now.answers }
    {
        self.answers.as_slice()
    }

    // Looks once. Where there is no memory for the answer, it answers false.
    fn look_once(&mut self, bytes: &[u8], now: u64) -> bool
        ensures book { self.new.book ≡ self.old.book }
        ensures list { IsPrefix self.old.list self.new.list }
        ensures answers { self.new.answers ≡ (if result then self.old.answers ++ hit self.new.list bytes.now now ∷ [] else self.old.answers) }
    {
        let answer = self.reader.look(bytes, now);
        self.answers.push(answer).is_ok()
    }

    /// Looks so often, while there is memory for the answers.
    #[tactic(auto, using(crate::proofs::Answering::answers_last, crate::proofs::Answering::answers_longer, crate::proofs::Answering::answers_none))]
    pub fn look(&mut self, bytes: &[u8], now: u64, times: usize)
        requires { self.old.answers ≡ [] }
        ensures book { self.new.book ≡ self.old.book }
        ensures answers { Answers bytes.now now self.old.list self.new.answers self.new.list }
    {
        for _ in 0..times {
            if !self.look_once(bytes, now) {
                return;
            }
        }
    }

    /// Sees the list that was told.
    pub fn learn<R: Wait>(&mut self, rt: &R, told: &Told<'_>)
        requires { told.now.book ≡ self.old.book }
        ensures { Learned told.now.list self.old self.new }
    {
        self.reader.learn(rt, told);
    }
}

/// Each reader with no answer yet, the last one first.
pub fn lanes(alloc: Global, readers: Vec<ThrottleReader>) -> Result<Vec<Lane>, AllocError>
    ensures { IfOk result (λ all. (book : Book) (list : List Report) → All (Knows book list) readers.items → All (IsFresh book list) all.items) }
{
    let mut left = readers;
    let mut all = Vec::with_capacity(alloc, left.len())?;
    while let Some(reader) = left.pop() {
        all.push(Lane::new(alloc, reader))?;
    }
    Ok(all)
}

/// Reports the bytes so often. It stops where memory runs out.
fn report_all<R: Wait>(rt: &R, writer: &mut ThrottleWriter, bytes: &[u8], now: u64, times: usize)
    requires fits { length bytes.now ≤ writer.old.block_len }
    requires few { length writer.old.list + times < 2 ^ 64 - 1 }
    ensures book { writer.new.book ≡ writer.old.book }
    ensures list { IsPrefix writer.old.list writer.new.list }
{
    for _ in 0..times {
        if writer.report(rt, bytes, now).is_err() {
            return;
        }
    }
}

// Each lane looks, in a thread of its own where one can be made.
fn look_in_threads<R: Threads + Sync>(
    rt: &R,
    lanes: &mut [Lane],
    bytes: &[u8],
    now: u64,
    times: usize,
)
    requires { All (λ l. l.answers ≡ []) lanes.old }
    ensures len { length lanes.new ≡ length lanes.old }
    ensures each { (i : ℕ) (d : Lane) → i < length lanes.old → Looked bytes.now now (slice_index_or lanes.old i d) (slice_index_or lanes.new i d) }
{
    for_each_mut(
        rt,
        lanes,
        64,
        &|_, lane: &mut Lane| lane.look(bytes, now, times),
    );
}

// Each lane learns.
fn learn_all<R: Threads + Wait + Sync>(rt: &R, lanes: &mut [Lane], told: &Told<'_>)
    requires { All (λ l. l.book ≡ told.now.book) lanes.old }
    ensures len { length lanes.new ≡ length lanes.old }
    ensures each { (i : ℕ) (d : Lane) → i < length lanes.old → Learned told.now.list (slice_index_or lanes.old i d) (slice_index_or lanes.new i d) }
{
    for_each_mut(
        rt,
        lanes,
        1,
        &|_, lane: &mut Lane| -> ()
            requires { lane.old.book ≡ told.now.book }
            ensures { Learned told.entry.now.list lane.old lane.new }
        { lane.learn(rt, told) },
    );
}

/// Each lane looks in a thread, while the caller reports. Each answer of a lane is the hit of the first j reports, where j does
/// not fall and lies between the reports before and after.
pub fn run<R: Threads + Wait + Sync>(
    rt: &R,
    writer: &mut ThrottleWriter,
    lanes: &mut [Lane],
    bytes: &[u8],
    now: u64,
    times: usize,
)
    requires fits { length bytes.now ≤ writer.old.block_len }
    requires few { length writer.old.list + times < 2 ^ 64 - 1 }
    requires lanes { All (IsFresh writer.old.book writer.old.list) lanes.old }
    ensures list { IsPrefix writer.old.list writer.new.list }
    ensures len { length lanes.new ≡ length lanes.old }
    ensures answers { (i : ℕ) (d : Lane) → i < length lanes.old → HitsOf writer.new.list bytes.now now (length writer.old.list) (slice_index_or lanes.new i d).answers }
    ensures told { (i : ℕ) (d : Lane) → i < length lanes.old → (slice_index_or lanes.new i d).list ≡ writer.new.list }
{
    look_all(rt, writer, lanes, bytes, now, times);
    learn_all(rt, lanes, &writer.tell());
}

// The looks and the reports.
fn look_all<R: Threads + Wait + Sync>(
    rt: &R,
    writer: &mut ThrottleWriter,
    lanes: &mut [Lane],
    bytes: &[u8],
    now: u64,
    times: usize,
)
    requires fits { length bytes.now ≤ writer.old.block_len }
    requires few { length writer.old.list + times < 2 ^ 64 - 1 }
    requires lanes { All (λ l. l.answers ≡ []) lanes.old }
    ensures book { writer.new.book ≡ writer.old.book }
    ensures list { IsPrefix writer.old.list writer.new.list }
    ensures len { length lanes.new ≡ length lanes.old }
    ensures each { (i : ℕ) (d : Lane) → i < length lanes.old → Looked bytes.now now (slice_index_or lanes.old i d) (slice_index_or lanes.new i d) }
{
    join_mut(
        rt,
        &mut || -> ()
            requires { All (λ l. l.answers ≡ []) lanes.now }
        { look_in_threads(rt, lanes, bytes, now, times) },
        &mut || report_all(rt, writer, bytes, now, times),
    );
}
