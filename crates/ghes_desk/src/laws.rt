//! Laws over the definitions, each the contract of a function that does nothing.
ghost use Rattle.std.specs.Prelude.{◌≡◌, ℕ, List};
ghost use Rattle.ghes_ledger.specs.Reports.{hit};
ghost use Rattle.ghes_ledger.specs.declared.ledger.Report.{Report};
ghost use Rattle.ghes_throttle.specs.Reports.{hit as hit_of_cache};
ghost use Rattle.ghes_desk.specs.Cache.{puts_of};

/// What the cache of the reports of a ledger answers is what the laws of a ledger say of a look in four places.
pub fn a_cache_answers_by_the_laws()
    ensures { (reports : List Report) (bytes : List ℕ) (now : ℕ) → hit_of_cache (puts_of reports) bytes now ≡ hit 4 reports bytes now }
{}
