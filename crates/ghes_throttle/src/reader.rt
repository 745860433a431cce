//! A reader of the reports.
ghost use Rattle.std.specs.Prelude.{◌≡◌};
ghost use mathlib.Core.List.{IsPrefix};
ghost use Rattle.ghes_throttle.specs.Reports.{hit};
ghost use Rattle.ghes_throttle.specs.Shown.{Known};

use crate::ruled::{Ruled, Sees};
use crate::shown::Shown;
use crate::told::Told;
use core::mem::replace_with;
use left_right::reader::Reader;
use std::marker::Model;
use std::sync::Wait;

/// A reader, with a copy of the cache that it saw last.
///
/// Contracts see the list that it saw last, and of which writer it is. Times are in nanoseconds.
#[derive(Drop)]
pub struct ThrottleReader {
    pub(crate) reader: Reader<Shown, Option<Shown>, Ruled>,
    // Boxed, since a look moves the reader by value.
    pub(crate) own: Box<Shown>,
}

impl Model for ThrottleReader {
    ghost use Rattle.std.specs.Prelude.{◌≡◌, Some};
    ghost use Rattle.left_right.specs.Sides.{view as view_of};
    ghost use Rattle.ghes_throttle.specs.Shown.{Known, ShowsItsList};

    ghost Value = { Known };

    ghost view = { λ r. record { book = r.own.value.mark.book; list = r.own.value.mark.list } };

    ghost invariant = { λ r. (view_of r.reader.place ≡ Some r.own.value) × ShowsItsList r.own.value };
}

impl ThrottleReader {
    // Enters once, and has seen what is shown. Where the entry is refused it has seen what it had.
    fn entered(self) -> ThrottleReader
        ensures book { result.book ≡ self.book }
        ensures list { IsPrefix self.list result.list }
    {
        let ThrottleReader { reader, mut own } = self;
        match reader.enter_as::<Sees>() {
            Ok(reading) => {
                own.follow(reading.get());
                ThrottleReader {
                    reader: reading.leave(),
                    own,
                }
            }
            Err(reader) => ThrottleReader { reader, own },
        }
    }

    fn learned<R: Wait>(self, rt: &R, told: &Told<'_>) -> ThrottleReader
        requires { told.now.book ≡ self.book }
        ensures book { result.book ≡ self.book }
        ensures seen { IsPrefix self.list result.list }
        ensures told { result.list ≡ told.now.list }
    {
        let mut reader = self;
        for _ in rt.forever() {
            reader = reader.entered();
            if reader.own.mark.number() == told.mark.number() {
                reader.own.mark.agree(told.mark);
                return reader;
            }
        }
        unreachable!()
    }

    /// The number of the report that hits, of the list that it sees now.
    ///
    /// That list goes on from what it saw before and was told of. Where `left_right` refuses the entry, the list is the
    /// one that it saw before. It takes no memory and waits for nobody.
    pub fn look(&mut self, bytes: &[u8], now: u64) -> Option<u64>
        ensures book { self.new.book ≡ self.old.book }
        ensures list { IsPrefix self.old.list self.new.list }
        ensures hit { result ≡ hit self.new.list bytes.now now }
    {
        replace_with(self, (), |reader, _| (reader.entered(), ()));
        self.own.cache.hit(bytes, now)
    }

    /// Sees the list that was told. It takes no memory, and waits until an entry shows that list.
    pub fn learn<R: Wait>(&mut self, rt: &R, told: &Told<'_>)
        requires belongs { told.now.book ≡ self.old.book }
        ensures book { self.new.book ≡ self.old.book }
        ensures seen { IsPrefix self.old.list self.new.list }
        ensures told { self.new.list ≡ told.now.list }
    {
        replace_with(
            self,
            (rt, told),
            |reader, ask| (reader.learned(ask.0, ask.1), ()),
        )
    }
}
