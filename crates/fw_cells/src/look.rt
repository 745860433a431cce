//! What stands in cells, read from the runs.
ghost use Rattle.std.specs.Prelude.{◌≡◌, ◌<◌, ◌≤◌, ◌+◌, ◌-◌, ◌^◌, length, slice_index, slice_index_or};
ghost use Rattle.std.specs.Bool.{OnTrue, OnFalse};
ghost use Rattle.apei_base.specs.Bus.{byte_at, bytes_at};
ghost use Rattle.fw_cells.specs.Runs.{cells_of, AreRuns, HasCellAt};

use crate::CellRun;
use crate::finding::look_up;
use apei_base::Space;

// The byte in a cell of the run at a place.
fn byte_of(runs: &[CellRun], at: usize, address: u64, space: Space) -> u8
    requires order { AreRuns runs.now }
    requires has { HasCellAt runs.now space address at }
    ensures { result ≡ byte_at (cells_of runs.now) space address }
{
    let run = &runs[at];
    run.bytes.as_slice()[(address - run.first) as usize]
}

// The byte in a cell, 0 where it is not mapped.
fn byte(runs: &[CellRun], space: Space, address: u128) -> u8
    requires { AreRuns runs.now }
    ensures { result ≡ byte_at (cells_of runs.now) space address }
{
    let Ok(address) = u64::try_from(address) else {
        return 0;
    };
    match look_up(runs, space, address) {
        Some(at) => byte_of(runs, at, address, space),
        None => 0,
    }
}

// Copies bytes from the run that has the first cell, if it has them all, and tells whether it has.
fn copy_whole(runs: &[CellRun], space: Space, first: u64, into: &mut [u8]) -> bool
    requires { AreRuns runs.now }
    ensures copied { OnTrue result
        (into.new ≡ bytes_at (cells_of runs.now) space first (length into.old)) }
    ensures kept { OnFalse result (into.new ≡ into.old) }
{
    match look_up(runs, space, first) {
        None => false,
        Some(at) => {
            let run = &runs[at];
            run.copy((first - run.first) as usize, into)
        }
    }
}

// Copies bytes from an address on, one by one.
fn copy_each(runs: &[CellRun], space: Space, first: u128, into: &mut [u8])
    requires order { AreRuns runs.now }
    requires within { first < 2 ^ 65 }
    ensures { into.new ≡ bytes_at (cells_of runs.now) space first (length into.old) }
{
    for step in 0..into.len() {
        into[step] = byte(runs, space, first + step as u128);
    }
}

/// Copies the bytes from an address on; one that is not mapped, or past the greatest address, is 0.
pub fn copy_bytes(runs: &[CellRun], space: Space, first: u128, into: &mut [u8])
    requires order { AreRuns runs.now }
    requires within { first < 2 ^ 65 }
    ensures { into.new ≡ bytes_at (cells_of runs.now) space first (length into.old) }
{
    if let Ok(address) = u64::try_from(first) {
        if copy_whole(runs, space, address, into) {
            return;
        }
    }
    copy_each(runs, space, first, into);
}
