//! A run of cells, and a register with its owner.
ghost use Rattle.std.specs.Prelude.{◌≡◌, ◌+◌};

use crate::Owner;
use apei_base::Space;

/// Cells that follow one another in one space.
///
/// Source: Own choice.
#[derive(Clone, Copy, Debug, PartialEq, Eq)]
pub struct Run {
    /// Where the cells are.
    pub space: Space,
    /// The address of the first cell.
    pub first: u64,
    /// How many cells there are, of a byte each.
    pub bytes: u32,
}

/// A register, and whose it is.
///
/// Source: Own choice.
#[derive(Clone, Copy, Debug, PartialEq, Eq)]
pub struct Register {
    /// The source that has it, or the injection table.
    pub owner: Owner,
    /// Its cells.
    pub run: Run,
}

impl Run {
    ghost use Rattle.fw_map.specs.Runs.{end_of, shares};

    /// The address behind the last cell.
    pub(crate) fn end(&self) -> u128
        ensures { result ≡ end_of self.now }
    {
        u128::from(self.first) + u128::from(self.bytes)
    }

    /// Whether both have a cell.
    pub(crate) fn shares(&self, other: &Run) -> bool
        ensures { result ≡ shares self.now other.now }
    {
        let begun = u128::from(self.first.max(other.first));
        self.space.is_same(other.space) && begun < self.end() && begun < other.end()
    }
}
