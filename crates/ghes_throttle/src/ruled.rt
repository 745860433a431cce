//! The rule of what is shown, and the steps under it.

use crate::shown::Shown;
use atomic_table::{Join, Split};
use crossbeam_utils::rule::{Outcome, Protocol};

/// The places are those of the list, and each view is an earlier state. A view is what a seat saw last.
pub(crate) struct Ruled;

impl Protocol<Shown, Option<Shown>> for Ruled {
    ghost use Rattle.std.specs.Prelude.{None};
    ghost use Rattle.ghes_throttle.specs.Shown.{IsRuled};

    ghost holds = { IsRuled };

    ghost first = { None };
}

/// A step that sees what is shown after it.
pub(crate) struct Sees;

impl Outcome<Shown, Option<Shown>> for Sees {
    ghost use Rattle.ghes_throttle.specs.Shown.{Sees};

    ghost then = { Sees };
}

/// Both seats have seen what the one had.
pub(crate) struct Twice;

impl Split<Option<Shown>> for Twice {
    ghost left = { λ v. v };

    ghost right = { λ v. v };
}

/// A seat takes what another has seen.
pub(crate) struct Takes;

impl Join<Option<Shown>> for Takes {
    ghost use Rattle.std.specs.Prelude.{None};

    ghost both = { λ v w. w };

    ghost spent = { None };
}
