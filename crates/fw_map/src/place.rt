//! Where one area stands.
ghost use Rattle.std.specs.Prelude.{◌≡◌, ◌≤◌, ◌<◌, ℕ, true, false, length};
ghost use Rattle.fw_map.specs.Placement.{place_at, area_at, IsLowest};
ghost use Rattle.fw_map.specs.Runs.{shares};
ghost use Rattle.fw_map.specs.Taken.{AreSorted};

use crate::Run;
use apei_base::Space;

// The lowest place of an area, and how far places are apart.
const FIRST_PLACE: u128 = 0x1000_0000;

const PLACE: u128 = 0x1_0000;

/// The address of the place of a number.
pub(crate) fn place_at(number: u64) -> u128
    ensures { result ≡ place_at number }
{
    FIRST_PLACE + PLACE * u128::from(number)
}

// Whether a run has a cell of so many bytes at the place of this number.
fn is_in_way(run: &Run, bytes: u32, number: u64) -> bool
    ensures { result ≡ shares run.now (area_at bytes number) }
{
    let place = place_at(number);
    let begun = place.max(u128::from(run.first));
    run.space.is_same(Space::Memory) && begun < run.end() && begun < place + u128::from(bytes)
}

// The number of the first place, from one on, where the run is not in the way.
fn past(run: &Run, bytes: u32, from: u64) -> u64
    ensures from { from ≤ result }
    ensures free { shares run.now (area_at bytes result) ≡ false }
    ensures taken { (number : ℕ) → from ≤ number → number < result
        → shares run.now (area_at bytes number) ≡ true }
{
    let mut number = from;
    while is_in_way(run, bytes, number) {
        number += 1;
    }
    number
}

/// The number of the lowest place where so many bytes share no cell with any of the runs, which stand in the order of their
/// first cells.
pub(crate) fn lowest(runs: &[Run], bytes: u32) -> u64
    requires { AreSorted runs.now }
    ensures { IsLowest runs.now bytes result }
{
    let mut number = 0;
    for run in runs {
        number = past(run, bytes, number);
    }
    number
}
