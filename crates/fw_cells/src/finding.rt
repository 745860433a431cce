//! Which run has a cell, by binary search.
ghost use Rattle.std.specs.Prelude.{◌≡◌, ◌<◌, ◌≤◌, ◌↔◌, ◌+◌, ◌-◌, ◌*◌, ◌^◌, None, length, IfSome, IsNone, slice_index_or};
ghost use Rattle.fw_cells.specs.Runs.{cells_of, AreRuns, HasCellAt};
ghost use Rattle.fw_cells.specs.Parts.{IsSideAt};

use crate::CellRun;
use crate::run::{Side, place_of};
use apei_base::Space;
use ghes_steps::Steps;
use std::marker::Brand;
use std::sync::ledger::{Blank, Ledger};

// Where a cell stands to the run at a place, by the cell's place among all cells.
fn side_at(runs: &[CellRun], at: usize, place: u128) -> Side
    requires { at < length runs.now }
    ensures { IsSideAt runs.now at place result }
{
    runs[at].side_of(place)
}

/// The place of the run that has the cell, none where no run has it. A step is one comparison with a run.
pub fn find_in<L: Ledger>(
    runs: &[CellRun],
    space: Space,
    address: u64,
    steps: &mut Steps<L>,
) -> Option<usize>
    requires { AreRuns runs.now }
    ensures found { IfSome result (HasCellAt runs.now space address) }
    ensures none { IsNone result ↔ (cells_of runs.now space address ≡ None) }
    ensures grows { steps.old ≤ steps.new }
    ensures cost { 2 ^ (steps.new - steps.old) ≤ 2 * length runs.now + 1 }
{
    let place = place_of(space, address);
    let mut low = 0;
    let mut high = runs.len();
    while low < high {
        let middle = low + (high - low) / 2;
        steps.tick();
        match side_at(runs, middle, place) {
            Side::Before => high = middle,
            Side::In => return Some(middle),
            Side::Behind => low = middle + 1,
        }
    }
    None
}

// The same, where nobody counts the steps.
fn find_uncounted<L: Ledger>(
    runs: &[CellRun],
    space: Space,
    address: u64,
    blank: Blank,
) -> Option<usize>
    requires order { AreRuns runs.now }
    requires name { blank.name ≡ L.name }
    requires parts { blank.parts ≡ L.parts }
    requires some { 0 < blank.parts }
    ensures found { IfSome result (HasCellAt runs.now space address) }
    ensures none { IsNone result ↔ (cells_of runs.now space address ≡ None) }
{
    let mut steps = Steps::<L>::new(blank);
    find_in(runs, space, address, &mut steps)
}

/// The place of the run that has the cell, none where no run has it.
pub fn look_up(runs: &[CellRun], space: Space, address: u64) -> Option<usize>
    requires { AreRuns runs.now }
    ensures found { IfSome result (HasCellAt runs.now space address) }
    ensures none { IsNone result ↔ (cells_of runs.now space address ≡ None) }
{
    find_uncounted::<Brand>(runs, space, address, Blank::new(1))
}
