//! The cache of the last reports.
ghost use Rattle.std.specs.Prelude.{◌≡◌, ◌≤◌, ◌+◌, [], List, length, IfOk};
ghost use Rattle.ghes_throttle.specs.declared.report.Report.{Report};
ghost use Rattle.ghes_throttle.specs.Cache.{CacheState, empty_places, first_at, is_empty, is_over, is_least, hit_of, place_for, with_put, put_into};
ghost use Rattle.ghes_throttle.specs.Reports.{IsCacheOf, hit, with_report};

use crate::place::{Place, byte_sum, sample};
use std::alloc::{AllocError, Global};
use std::marker::Model;

/// The last reports, in four places that are numbered from 0.
///
/// Times are in nanoseconds. Contracts see the places, and what they are of a whole list of reports.
/// Source: after Linux 6.1, drivers/acpi/apei/ghes.c. Which place a report takes: own choice.
#[derive(Drop)]
pub struct Cache {
    first: Place,
    second: Place,
    third: Place,
    fourth: Place,
    block_len: usize,
}

impl Model for Cache {
    ghost use Rattle.std.specs.Prelude.{◌≡◌, [], ◌∷◌};
    ghost use Rattle.ghes_throttle.specs.Cache.{CacheState};

    ghost Value = { CacheState };

    ghost view = { λ c. record { places = c.first.held ∷ c.second.held ∷ c.third.held ∷ c.fourth.held ∷ []; block_len = c.block_len } };

    ghost invariant = { λ c. (c.first.room ≡ c.block_len) × (c.second.room ≡ c.block_len) × (c.third.room ≡ c.block_len) × (c.fourth.room ≡ c.block_len) };
}

impl Cache {
    /// Four empty places, each with room for a block of `block_len` bytes.
    #[tactic(auto, using(crate::proofs::Caching::empty_cache))]
    pub fn new(alloc: Global, block_len: usize) -> Result<Cache, AllocError>
        ensures ok { IfOk result (λ cache. cache ≡ record { places = empty_places; block_len = block_len }) }
        ensures reports { IfOk result (λ cache. IsCacheOf [] cache) }
    {
        Ok(Cache {
            first: Place::new(alloc, block_len)?,
            second: Place::new(alloc, block_len)?,
            third: Place::new(alloc, block_len)?,
            fourth: Place::new(alloc, block_len)?,
            block_len,
        })
    }

    /// The longest block that it has room for, in bytes.
    pub(crate) fn block_len(&self) -> usize
        ensures { result ≡ self.now.block_len }
    {
        self.block_len
    }

    /// The number of the report in the lowest place that hits. It takes no memory.
    pub fn hit(&self, bytes: &[u8], now: u64) -> Option<u64>
        ensures value { result ≡ hit_of self.now.places bytes.now now }
        ensures reports { (list : List Report) → IsCacheOf list self.now → result ≡ hit list bytes.now now }
    {
        self.lowest_hit(bytes, now)
    }

    #[tactic(auto, unfolding(crate::specs::Cache::hit_of))]
    fn lowest_hit(&self, bytes: &[u8], now: u64) -> Option<u64>
        ensures { result ≡ hit_of self.now.places bytes.now now }
    {
        let sample = sample(bytes);
        match self.first.answer(bytes, sample, now) {
            None => return self.lowest_twin(bytes, now),
            Some(true) => return Some(self.first.number()),
            Some(false) => {}
        }
        match self.second.answer(bytes, sample, now) {
            None => return self.lowest_twin(bytes, now),
            Some(true) => return Some(self.second.number()),
            Some(false) => {}
        }
        match self.third.answer(bytes, sample, now) {
            None => return self.lowest_twin(bytes, now),
            Some(true) => return Some(self.third.number()),
            Some(false) => {}
        }
        match self.fourth.answer(bytes, sample, now) {
            None => self.lowest_twin(bytes, now),
            Some(true) => Some(self.fourth.number()),
            Some(false) => None,
        }
    }

    // The lowest hit where places have one sample: with the sum at hand the bytes of most are not compared.
    #[inline(never)]
    #[tactic(auto, unfolding(crate::specs::Cache::hit_of))]
    fn lowest_twin(&self, bytes: &[u8], now: u64) -> Option<u64>
        ensures { result ≡ hit_of self.now.places bytes.now now }
    {
        let total = byte_sum(bytes);
        if self.first.hits(bytes, total, now) {
            return Some(self.first.number());
        }
        if self.second.hits(bytes, total, now) {
            return Some(self.second.number());
        }
        if self.third.hits(bytes, total, now) {
            return Some(self.third.number());
        }
        if self.fourth.hits(bytes, total, now) {
            return Some(self.fourth.number());
        }
        None
    }

    // Tells each place whether another one has the same sample.
    fn tell_twins(&mut self)
        ensures { self.new ≡ self.old }
    {
        let samples = [
            self.first.sample(),
            self.second.sample(),
            self.third.sample(),
            self.fourth.sample(),
        ];
        self.first.tell_twin(&samples);
        self.second.tell_twin(&samples);
        self.third.tell_twin(&samples);
        self.fourth.tell_twin(&samples);
    }

    #[tactic(auto, unfolding(crate::specs::Cache::first_at))]
    fn empty_place(&self) -> Option<usize>
        ensures { result ≡ first_at is_empty self.now.places }
    {
        if self.first.is_empty() {
            return Some(0);
        }
        if self.second.is_empty() {
            return Some(1);
        }
        if self.third.is_empty() {
            return Some(2);
        }
        if self.fourth.is_empty() {
            return Some(3);
        }
        None
    }

    #[tactic(auto, unfolding(crate::specs::Cache::first_at))]
    fn over_place(&self, now: u64) -> Option<usize>
        ensures { result ≡ first_at (is_over now) self.now.places }
    {
        if self.first.is_over(now) {
            return Some(0);
        }
        if self.second.is_over(now) {
            return Some(1);
        }
        if self.third.is_over(now) {
            return Some(2);
        }
        if self.fourth.is_over(now) {
            return Some(3);
        }
        None
    }

    #[tactic(auto, unfolding(crate::specs::Cache::is_least))]
    fn is_least(&self, place: &Place) -> bool
        ensures { result ≡ is_least self.now.places place.now.held }
    {
        if self.first.time() < place.time() {
            return false;
        }
        if self.second.time() < place.time() {
            return false;
        }
        if self.third.time() < place.time() {
            return false;
        }
        if self.fourth.time() < place.time() {
            return false;
        }
        true
    }

    #[tactic(auto, unfolding(crate::specs::Cache::first_at))]
    fn least_place(&self) -> Option<usize>
        ensures { result ≡ first_at (is_least self.now.places) self.now.places }
    {
        if self.is_least(&self.first) {
            return Some(0);
        }
        if self.is_least(&self.second) {
            return Some(1);
        }
        if self.is_least(&self.third) {
            return Some(2);
        }
        if self.is_least(&self.fourth) {
            return Some(3);
        }
        None
    }

    // The place that a report at this time takes.
    #[tactic(auto, unfolding(crate::specs::Cache::place_for))]
    fn place_for(&self, now: u64) -> usize
        ensures { result ≡ place_for self.now.places now }
    {
        if let Some(i) = self.empty_place() {
            return i;
        }
        if let Some(i) = self.over_place(now) {
            return i;
        }
        self.least_place().unwrap_or(0)
    }

    /// Puts a report into the lowest empty place, else into the lowest whose window is over, else into the lowest of
    /// those with the least time. It takes no memory.
    pub fn put(&mut self, bytes: &[u8], now: u64, number: u64)
        requires fits { length bytes.now ≤ self.old.block_len }
        ensures value { self.new ≡ put_into self.old bytes.now now number }
        ensures reports { (list : List Report) → IsCacheOf list self.old → number ≡ length list + 1 → IsCacheOf (with_report list bytes.now now) self.new }
    {
        self.put_into(bytes, now, number);
    }

    #[tactic(auto, unfolding(crate::specs::Cache::with_put))]
    fn put_into(&mut self, bytes: &[u8], now: u64, number: u64)
        requires { length bytes.now ≤ self.old.block_len }
        ensures { self.new ≡ put_into self.old bytes.now now number }
    {
        match self.place_for(now) {
            0 => self.first.set(bytes, now, number),
            1 => self.second.set(bytes, now, number),
            2 => self.third.set(bytes, now, number),
            3 => self.fourth.set(bytes, now, number),
            _ => {}
        }
        self.tell_twins();
    }

    /// Becomes equal to another cache of the same room. It takes no memory.
    pub(crate) fn follow(&mut self, other: &Cache)
        requires { other.now.block_len ≡ self.old.block_len }
        ensures { self.new ≡ other.now }
    {
        self.first.follow(&other.first);
        self.second.follow(&other.second);
        self.third.follow(&other.third);
        self.fourth.follow(&other.fourth);
    }
}
