//! Laws of the rule and of quiet moments, each a function with no body whose contract is the law.
ghost use Rattle.std.specs.Prelude.{◌≡◌, ℕ, ◌+◌, ◌<◌, ◌≤◌, List, Option, ◌++◌, length};
ghost use Rattle.atomic_table.specs.Table.{State};
ghost use Rattle.ghes_rule.specs.declared.views.Cell.{Cell};
ghost use Rattle.ghes_rule.specs.declared.views.Turn.{Turn};
ghost use Rattle.ghes_rule.specs.declared.views.View.{View};
ghost use Rattle.ghes_rule.specs.declared.views.WorkView.{WorkView};
ghost use Rattle.ghes_rule.specs.Kept.{IsKept, sum_to};
ghost use Rattle.ghes_rule.specs.Moves.{Settled, view_at};
ghost use Rattle.ghes_rule.specs.Rule.{HasRule};
ghost use Rattle.ghes_rule.specs.Finds.{FoundAll, MadeIn, pending_count};

/// What each step keeps implies the rule, in its own words.
pub fn rule_holds()
    ensures { (room n : ℕ) (s : State (Option Cell) View) → IsKept room n s → HasRule room n s }
{}

/// In a quiet moment, the pending pushes are those that were made and not taken.
pub fn pending_is_what_was_not_taken()
    ensures { (w : WorkView) (s : Settled w) → length s.pending ≡ pending_count w }
{}

/// Between two quiet moments, a search that found each slot taken, where no claim was made, met as many pending blocks as there are slots.
pub fn no_slot_means_pending()
    ensures { (k : ℕ) (w w' : WorkView) → Settled w → Settled w' → FoundAll k w w' → MadeIn w w' (λ _. 0) → k ≤ pending_count w }
{}

/// Between two quiet moments, a search that found each slot taken met as many blocks as there are slots: each was pending before, or is
/// that of a claim that a pass made in between.
pub fn no_slot_means_claims()
    ensures { (k : ℕ) (w w' : WorkView) (made : ℕ → ℕ) → Settled w → Settled w' → FoundAll k w w' → MadeIn w w' made → k ≤ pending_count w + sum_to (length w.passes) made }
{}
