//! One place of the report cache.
ghost use Rattle.std.specs.Prelude.{◌≡◌, ◌≤◌, ◌<◌, ◌%◌, length, sum, IfOk, IfSome};
ghost use Rattle.ghes_throttle.specs.Cache.{PlaceBuffer, empty_place, place_with, is_empty, is_over, agrees, hits, sample_of, three_words};

use byteorder::{ByteOrder, LittleEndian};
use std::alloc::{AllocError, Global};
use std::marker::Model;

/// How long a report hits, in nanoseconds.
const WINDOW: u64 = 10_000_000_000;

// Three words of the last 88 bytes of a block, added: those at their front and at the front of their last 64, and the last.
#[inline(always)]
fn three_words(last: &[u8]) -> u64
    requires { 88 ≤ length last.now }
    ensures { result ≡ three_words last.now }
{
    LittleEndian::read_u64(last)
        .wrapping_add(LittleEndian::read_u64(last.split_at(24).1))
        .wrapping_add(LittleEndian::read_u64(last.split_at(80).1))
}

/// Three words of a block, added: those at the front of its last 88 and of its last 64 bytes, and its last; 2^64 - 1 where it has
/// fewer than 88 bytes.
///
/// Blocks that differ in it are not compared. Where a block ends with a memory error of 80 bytes, the first is the time stamp of its
/// entry, and the second the physical address. Source: UEFI 2.10, N.2.5, and ACPI 6.5, 18.3.2.7.1.
#[tactic(auto, unfolding(crate::specs::Cache::sample_of))]
pub(crate) fn sample(bytes: &[u8]) -> u64
    ensures { result ≡ sample_of bytes.now }
{
    if bytes.len() < 88 {
        return u64::MAX;
    }
    three_words(bytes.split_at(bytes.len() - 88).1)
}

/// What the bytes add up to, modulo 256. Blocks that differ in it are not compared.
pub(crate) fn byte_sum(bytes: &[u8]) -> u8
    ensures { result ≡ sum bytes.now % 256 }
{
    let mut total = 0u8;
    for byte in bytes {
        total = total.wrapping_add(*byte);
    }
    total
}

/// A place, with a buffer of a fixed room in bytes.
#[derive(Drop)]
pub(crate) struct Place {
    full: bool,
    /// Whether it is empty, or another place of its cache has the same sample: then it is looked at with care.
    doubtful: bool,
    bytes: Vec<u8>,
    /// The sample of the bytes.
    sample: u64,
    /// What the bytes add up to, modulo 256.
    total: u8,
    time: u64,
    number: u64,
    room: usize,
}

impl Model for Place {
    ghost use Rattle.std.specs.Prelude.{◌≡◌, ◌≤◌, ◌%◌, true, false, sum, vec_len, vec_capacity};
    ghost use Rattle.ghes_throttle.specs.Cache.{PlaceBuffer, sample_of};

    ghost Value = { PlaceBuffer };

    ghost view = { λ p. record { held = record { full = p.full; bytes = p.bytes.items; time = p.time; number = p.number }; room = p.room } };

    ghost invariant = { λ p. (vec_len p.bytes ≤ p.room) × (p.room ≤ vec_capacity p.bytes) × (p.total ≡ sum p.bytes.items % 256) × (p.sample ≡ sample_of p.bytes.items) × (p.doubtful ≡ false → p.full ≡ true) };
}

impl Place {
    /// An empty place.
    #[tactic(auto, unfolding(crate::specs::Cache::sample_of))]
    pub(crate) fn new(alloc: Global, room: usize) -> Result<Place, AllocError>
        ensures { IfOk result (λ place. place ≡ record { held = empty_place; room = room }) }
    {
        Ok(Place {
            full: false,
            doubtful: true,
            bytes: Vec::with_capacity(alloc, room)?,
            sample: u64::MAX,
            total: 0,
            time: 0,
            number: 0,
            room,
        })
    }

    pub(crate) fn time(&self) -> u64
        ensures { result ≡ self.now.held.time }
    {
        self.time
    }

    pub(crate) fn number(&self) -> u64
        ensures { result ≡ self.now.held.number }
    {
        self.number
    }

    pub(crate) fn is_empty(&self) -> bool
        ensures { result ≡ is_empty self.now.held }
    {
        !self.full
    }

    /// Its report is of the window's length before this time, or longer.
    pub(crate) fn is_over(&self, now: u64) -> bool
        ensures { result ≡ is_over now self.now.held }
    {
        self.time <= now && now - self.time >= WINDOW
    }

    /// The sample of its bytes.
    pub(crate) fn sample(&self) -> u64 {
        self.sample
    }

    /// Is told the sample of each place, its own among them.
    pub(crate) fn tell_twin(&mut self, samples: &[u64; 4])
        ensures { self.new ≡ self.old }
    {
        let own = self.sample;
        let alone = samples.iter().filter(|&&sample| sample == own).count() < 2;
        self.doubtful = !(self.full && alone);
    }

    // Its report, if it has one, is of these bytes, and from within the window before this time.
    fn agrees(&self, bytes: &[u8], now: u64) -> bool
        ensures { result ≡ agrees bytes.now now self.now.held }
    {
        self.time <= now
            && now - self.time < WINDOW
            && self.bytes.len() == bytes.len()
            && self.bytes.as_slice() == bytes
    }

    /// Whether it has a report of these bytes, from within the window before this time; none where they have its sample, and it is to
    /// be looked at with care.
    ///
    /// Bytes of another sample or length are not looked at.
    #[tactic(auto, using(crate::proofs::Places::other_sample))]
    pub(crate) fn answer(&self, bytes: &[u8], sample: u64, now: u64) -> Option<bool>
        requires { sample ≡ sample_of bytes.now }
        ensures { IfSome result (λ hit. hit ≡ hits bytes.now now self.now.held) }
    {
        if self.sample != sample {
            return Some(false);
        }
        if self.doubtful {
            return None;
        }
        Some(self.agrees(bytes, now))
    }

    /// It has a report of these bytes, which add up to this, from within the window before this time.
    ///
    /// Bytes that add up to something else are not looked at.
    #[tactic(auto, using(crate::proofs::Places::other_sum))]
    pub(crate) fn hits(&self, bytes: &[u8], total: u8, now: u64) -> bool
        requires { total ≡ sum bytes.now % 256 }
        ensures { result ≡ hits bytes.now now self.now.held }
    {
        self.total == total && self.full && self.agrees(bytes, now)
    }

    // Holds a report whose bytes have this sample and add up to this.
    fn hold(&mut self, bytes: &[u8], sample: u64, total: u8, time: u64, number: u64)
        requires fits { length bytes.now ≤ self.old.room }
        requires sample { sample ≡ sample_of bytes.now }
        requires total { total ≡ sum bytes.now % 256 }
        ensures { self.new ≡ record { held = place_with bytes.now time number; room = self.old.room } }
    {
        self.bytes.clear();
        let fits = self.bytes.extend_from_slice(bytes).is_ok();
        prove!(fits);
        self.sample = sample;
        self.total = total;
        self.time = time;
        self.number = number;
        self.full = true;
    }

    /// Holds a report in the place of what was there. It takes no memory.
    pub(crate) fn set(&mut self, bytes: &[u8], time: u64, number: u64)
        requires { length bytes.now ≤ self.old.room }
        ensures { self.new ≡ record { held = place_with bytes.now time number; room = self.old.room } }
    {
        self.hold(bytes, sample(bytes), byte_sum(bytes), time, number);
    }

    /// Becomes equal to another place. It takes no memory.
    pub(crate) fn follow(&mut self, other: &Place)
        requires { other.now.room ≡ self.old.room }
        ensures { self.new ≡ other.now }
    {
        self.hold(
            &other.bytes,
            other.sample,
            other.total,
            other.time,
            other.number,
        );
        self.full = other.full;
        self.doubtful = other.doubtful;
    }
}
