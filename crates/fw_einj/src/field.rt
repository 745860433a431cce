//! The field of bits in the register of an action.
ghost use Rattle.std.specs.Prelude.{◌≡◌, ◌<◌, ◌^◌};
ghost use Rattle.apei_base.specs.Bus.{reach_of};
ghost use Rattle.apei_einj.specs.Action.{entry_reach};
ghost use Rattle.fw_cells.specs.Runs.{cells_of};
ghost use Rattle.fw_einj.specs.Field.{shares, field_in, field_set};

use crate::Register;
use apei_base::Region;
use fw_cells::Cells;

/// Whether two regions share a cell.
pub(crate) fn shares(one: &Region, other: &Region) -> bool
    ensures { result ≡ shares (reach_of one.now) (reach_of other.now) }
{
    let one_first = u128::from(one.address);
    let other_first = u128::from(other.address);
    one.space.is_same(other.space)
        && one_first < other_first + u128::from(other.width / 8)
        && other_first < one_first + u128::from(one.width / 8)
}

impl Register {
    /// The region of the register.
    pub(crate) fn region(&self) -> Region
        ensures { reach_of result ≡ entry_reach self.now.entry }
    {
        self.entry.region()
    }

    /// The field in what the register holds.
    #[tactic(auto, unfolding(crate::specs::Field::field_in))]
    pub(crate) fn field(&self, cells: &Cells) -> u64
        ensures { result ≡ field_in self.now (cells_of cells.now) }
    {
        self.entry.field(cells.read(&self.region()))
    }

    /// Sets the field to a value, and keeps the bits outside.
    pub(crate) fn set_field(&self, cells: &mut Cells, value: u64)
        ensures { cells_of cells.new ≡ field_set self.now value (cells_of cells.old) }
    {
        let region = self.region();
        let cell = cells.read(&region);
        cells.write(&region, self.entry.with_field(cell, value));
    }
}
