//! What readers take, and what the writer changes in it.
ghost use Rattle.std.specs.Prelude.{◌≡◌, [], IfOk};
ghost use Rattle.ghes_throttle.specs.Cache.{empty_places};
ghost use Rattle.ghes_throttle.specs.Shown.{Precedes, ShowsItsList};

use crate::cache::Cache;
use crate::history::Mark;
use left_right::Absorb;
use std::alloc::{AllocError, Global};

/// The cache of a report list, and the list's mark.
#[derive(Drop)]
pub(crate) struct Shown {
    pub(crate) cache: Cache,
    pub(crate) mark: Mark,
}

/// A report with its number, and the mark of the list that ends with it.
#[derive(Drop)]
pub(crate) struct Line {
    pub(crate) bytes: Vec<u8>,
    pub(crate) time: u64,
    pub(crate) number: u64,
    pub(crate) mark: Mark,
}

/// What the writer does to both copies.
#[derive(Drop)]
pub(crate) enum Change {
    /// Nothing.
    Blank,
    /// A report goes into the cache.
    Put(Line),
}

impl Absorb<Change> for Shown {
    ghost use Rattle.ghes_throttle.specs.Shown.{changed};

    type State = Shown;

    ghost state = { λ s. s };

    ghost applied = { changed };

    ghost never_fails = { Unit {0} };

    fn absorb_first(&mut self, operation: &Change, _other: &Shown) -> Result<(), AllocError> {
        if let Change::Put(line) = operation {
            if line.bytes.len() <= self.cache.block_len() {
                self.cache.put(&line.bytes, line.time, line.number);
                self.mark = line.mark.again();
            }
        }
        Ok(())
    }
}

impl Shown {
    /// What shows the empty list of a mark.
    pub(crate) fn empty(alloc: Global, block_len: usize, mark: Mark) -> Result<Shown, AllocError>
        requires { mark.list ≡ [] }
        ensures shown { IfOk result (λ shown. shown ≡ record { cache = record { places = empty_places; block_len = block_len }; mark = mark }) }
        ensures list { IfOk result (λ shown. ShowsItsList shown) }
    {
        Ok(Shown {
            cache: Cache::new(alloc, block_len)?,
            mark,
        })
    }

    /// Becomes equal to a later state. The cache is copied only where it has changed. It takes no memory.
    pub(crate) fn follow(&mut self, later: &Shown)
        requires later { Precedes self.old later.now }
        requires places { ShowsItsList self.old × ShowsItsList later.now }
        ensures { self.new ≡ later.now }
    {
        if self.mark.number() == later.mark.number() {
            self.mark.agree(&later.mark);
        } else {
            self.cache.follow(&later.cache);
            self.mark = later.mark.again();
        }
    }
}
