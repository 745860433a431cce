//! The counter.

use std::marker::Model;
use std::sync::ledger::{Blank, Book, Ledger, Share};

/// How many steps were taken. It takes no bytes, and only `tick` changes the number.
///
/// A function that promises a bound takes a `&mut Steps<L>` for any ledger `L`, and ticks where the work is done.
/// A caller that counts nothing writes a function over `L` that takes a `Blank` and makes the steps of it, and calls that
/// with `Blank::new(1)` and `std::marker::Brand`, picking the ledger's name and parts from the blank in its proof.
/// Source: own choice.
#[derive(Drop)]
pub struct Steps<L: Ledger> {
    book: Book<L>,
    share: Share<L>,
}

impl<L: Ledger> Model for Steps<L> {
    ghost use Rattle.std.specs.Prelude.{ℕ, ◌<◌};

    ghost Value = { ℕ };

    ghost view = { λ s. s.book.total };

    ghost invariant = { λ s. 0 < s.share.parts };
}

impl<L: Ledger> Steps<L> {
    ghost use Rattle.std.specs.Prelude.{◌≡◌, ◌<◌, ◌+◌};

    /// No steps yet, on a ledger of its own.
    pub fn new(blank: Blank) -> Steps<L>
        requires name { blank.name ≡ L.name }
        requires parts { blank.parts ≡ L.parts }
        requires some { 0 < blank.parts }
        ensures { result ≡ 0 }
    {
        let (book, share) = blank.open::<L>();
        Steps { book, share }
    }

    /// Counts one step. It does nothing when it runs.
    pub fn tick(&mut self)
        ensures { self.new ≡ self.old + 1 }
    {
        self.book.add(&mut self.share, 1);
    }
}
