//! Laws over the texts of a block, each the contract of a function that does nothing.
ghost use Rattle.std.specs.Prelude.{◌≡◌, ℕ, List, ◌++◌, None};
ghost use Rattle.cper_block.specs.Block.{Judges};
ghost use Rattle.cper_text.specs.Body.{block_text};

/// The lines of a block are those of its own bytes: what lies behind it is not printed.
pub fn bytes_behind_a_block_are_not_printed()
    ensures { (block behind : List ℕ) (limit : ℕ) → Judges block limit None → block_text (block ++ behind) ≡ block_text block }
{}
