//! What always holds of the words, the slots and the views: `HasRule` of specs/ says it, and `IsKept` is what each step keeps.
use crate::views::{Cell, View};
use crate::words::About;
use atomic_table::TableRule;

/// The rule.
pub struct Rule;

impl TableRule<Option<Cell>, View, About> for Rule {
    ghost use Rattle.ghes_rule.specs.Kept.{IsKept, first_view};

    ghost holds = { λ k. IsKept k.room k.contexts };

    ghost first = { λ k. first_view k.room k.slots k.contexts };
}
