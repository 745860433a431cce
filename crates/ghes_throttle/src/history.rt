//! Marks in one history of report lists. Two marks of one history with equal numbers are of equal lists.
ghost use Rattle.std.specs.Prelude.{◌≡◌, [], IfSome};
ghost use Rattle.ghes_throttle.specs.History.{Marked};
ghost use Rattle.ghes_throttle.specs.Reports.{with_report};

use crate::report::Version;
use logbook::{Gain, Offer, Plain, Play, Rule, Seen, Start, Word};
use std::marker::Model;

/// The rule of a history: its word is the number of its versions.
pub(crate) struct Law;

impl Rule<Version, u64> for Law {
    ghost use Rattle.std.specs.Prelude.{[]};
    ghost use base.Fml.{ftrue};
    ghost use Rattle.ghes_throttle.specs.History.{IsKept};

    ghost holds = { λ cells log. IsKept cells log };

    ghost first = { [] };

    ghost hinted = { λ n log. Unit {0} };

    ghost shows = { λ log. [] };

    ghost keeps = { λ names log. ftrue };

    ghost moves = { λ ask before after answer. Unit {0} };
}

/// Callers trade nothing.
pub(crate) struct Nothing;

impl Gain<Version, u64> for Nothing {
    ghost use base.Fml.{ftrue};

    ghost after = { λ names about answer. ftrue };
}

/// The step that adds a version.
pub(crate) struct Add;

impl Play<Version, u64> for Add {
    ghost use Rattle.ghes_throttle.specs.History.{Adds};

    ghost then = { Adds };
}

/// The report that is to follow a list.
#[derive(Clone, Copy)]
pub(crate) struct Next<'a> {
    pub(crate) before: &'a Mark,
    pub(crate) bytes: &'a [u8],
    pub(crate) time: u64,
}

impl<'a> Plain<Next<'a>, Version, u64> for Add {
    ghost use Rattle.std.specs.Prelude.{None};
    ghost use Rattle.ghes_throttle.specs.Reports.{with_report};

    ghost ask = { λ next. record { reports = with_report next.before.now.list next.bytes.now next.time } };

    ghost state = { λ next. None };
}

/// The version of a number in a history. It is a number for the machine, and a whole list for a proof.
#[derive(Drop)]
pub(crate) struct Mark {
    number: u64,
    seen: Seen<Version, u64, Law>,
}

impl Model for Mark {
    ghost use Rattle.std.specs.Prelude.{◌≡◌, length};
    ghost use Rattle.ghes_throttle.specs.History.{Marked, newest};

    ghost Value = { Marked };

    ghost view = { λ m. record { book = m.seen.book; number = m.number; list = newest m.seen.log } };

    ghost invariant = { λ m. m.number ≡ length m.seen.log };
}

impl Mark {
    pub(crate) fn number(&self) -> u64
        ensures { result ≡ self.now.number }
    {
        self.number
    }

    /// A copy.
    pub(crate) fn again(&self) -> Mark
        ensures { result ≡ self.now }
    {
        Mark {
            number: self.number,
            seen: self.seen.again(),
        }
    }

    /// Marks of one history with equal numbers are of equal lists.
    pub(crate) fn agree(&self, other: &Mark)
        requires { other.now.book ≡ self.now.book }
        ensures { self.now.number ≡ other.now.number → self.now.list ≡ other.now.list }
    {
        let mut both = self.seen.again();
        both.learn(&other.seen);
    }
}

/// A history, as the one who adds to it has it. Contracts see which history it is.
#[derive(Drop)]
pub(crate) struct History {
    head: Word<Version, u64, Law>,
    /// So many versions it has.
    top: u64,
}

impl Model for History {
    ghost use Rattle.std.specs.Prelude.{◌≡◌};
    ghost use Rattle.logbook.specs.Pages.{Book};
    ghost use Rattle.ghes_throttle.specs.History.{head_of};

    ghost Value = { Book };

    ghost view = { λ h. h.head.book };

    ghost invariant = { λ h. h.head ≡ head_of h.head.book };
}

impl History {
    /// A new history, and the mark of the empty list.
    pub(crate) fn new() -> (History, Mark)
        ensures { (result.1.book ≡ result.0) × (result.1.list ≡ []) }
    {
        let (seen, mut first, _second) = Seen::open(Start::alone(), 0, 0);
        (
            History {
                head: Word::tracked(0, &mut first),
                top: 0,
            },
            Mark { number: 0, seen },
        )
    }

    /// Adds the list of a mark with one report more. None where 2^64 - 1 versions were added.
    ///
    /// A version that no reader is shown later does no harm: the next one goes on from the mark of the last that was.
    pub(crate) fn add(&mut self, before: &Mark, bytes: &[u8], time: u64) -> Option<Mark>
        requires { before.now.book ≡ self.old }
        ensures same { self.new ≡ self.old }
        ensures added { IfSome result (λ mark. (mark.book ≡ self.old) × (mark.list ≡ with_report before.now.list bytes.now time)) }
    {
        if self.top == u64::MAX {
            return None;
        }
        let expected = self.top;
        let mut seen = before.seen.again();
        let next = Next {
            before,
            bytes,
            time,
        };
        let mut offer: Offer<Version, u64, Law, Nothing> = seen.plain::<Nothing, Next<'_>, Add>(
            &next,
        );
        let mut pen = seen.no_pen();
        let found = self
            .head
            .compare_exchange::<Add, Nothing>(
                expected,
                expected + 1,
                &mut seen,
                &mut offer,
                &mut pen,
            );
        // Nobody else has this word, but its rule does not know that.
        if found != expected {
            self.top = found;
            return None;
        }
        self.top = expected + 1;
        Some(Mark {
            number: expected + 1,
            seen,
        })
    }
}
