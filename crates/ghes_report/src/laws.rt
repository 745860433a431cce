//! Laws over the texts, each the contract of a function that does nothing.
ghost use Rattle.std.specs.Prelude.{◌≡◌, ◌≤◌, ℕ, List, length};
ghost use Rattle.ghes_ledger.specs.declared.summary.Summary.{Summary};
ghost use Rattle.ghes_ledger.specs.Counts.{IsSummaryOf};
ghost use Rattle.ghes_ledger.specs.History.{Act, Executed};
ghost use Rattle.ghes_ledger.specs.Kept.{Kept};
ghost use Rattle.ghes_ledger.specs.Lawful.{IsLawful};
ghost use Rattle.ghes_ledger.specs.Plan.{Plan};
ghost use Rattle.ghes_report.specs.Sound.{IsSound};
ghost use Rattle.ghes_report.specs.Summary.{summary_text, ledger_summary};

/// The text of a summary that was made of a ledger is that of the ledger.
pub fn a_summary_tells_its_ledger()
    ensures { (ids raised acknowledged : List ℕ) (kept : Kept) (summary : Summary) → IsSummaryOf (length ids) kept summary → summary_text ids raised acknowledged summary ≡ ledger_summary ids raised acknowledged kept }
{}

/// All blocks of a lawful ledger may be printed, where no source has a limit above 65,536 bytes.
pub fn a_lawful_ledger_may_be_printed()
    ensures { (plan : Plan) (lines : List Act) (kept : Kept) (history : List Executed) → ((s : ℕ) → plan.limit s ≤ 65536) → IsLawful plan lines kept history → IsSound kept }
{}
