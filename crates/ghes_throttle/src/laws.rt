//! Laws of the report cache.
ghost use Rattle.std.specs.Prelude.{ℕ, ◌≡◌, ◌+◌, ◌<◌, ◌∷◌, ◌++◌, [], List, length};
ghost use Rattle.ghes_throttle.specs.declared.report.Report.{Report};
ghost use Rattle.ghes_throttle.specs.Cache.{PlaceState, place_for, with_put, empty_places};
ghost use Rattle.ghes_throttle.specs.Reports.{cache_of};

/// The cache of a list with one report more is the cache of the list, into which that report is put with its number.
pub fn a_put_adds_a_report()
    ensures none { cache_of [] ≡ empty_places }
    ensures more { (list : List Report) (r : Report) → cache_of (list ++ r ∷ []) ≡ with_put (cache_of list) r.bytes r.time (length list + 1) }
{}

/// Each report takes one of the four places, and there are always four.
pub fn a_report_takes_a_place()
    ensures four { (list : List Report) → length (cache_of list) ≡ 4 }
    ensures place { (list : List Report) (now : ℕ) → place_for (cache_of list) now < 4 }
{}
