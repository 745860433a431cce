//! What a write leaves in the runs.
ghost use Rattle.std.specs.Prelude.{◌≡◌, ◌<◌, ◌≤◌, ◌+◌, ◌-◌, ◌^◌, [], ◌∷◌, length, slice_index, IsTrue};
ghost use Rattle.std.specs.Bool.{OnTrue, OnFalse};
ghost use Rattle.apei_base.specs.Firmware.{shown};
ghost use Rattle.fw_cells.specs.Runs.{cells_of, AreRuns, HasCellAt};
ghost use Rattle.fw_cells.specs.Changes.{with_bytes_at, AreSame};
ghost use Rattle.fw_cells.specs.Parts.{IsPutAt};

use crate::CellRun;
use crate::finding::look_up;
use apei_base::Space;

// Writes a block, cut at `room` or followed by zeros, from a cell of the run at a place on, if the run has as many cells
// from there on, and tells whether it has.
fn put_at(
    runs: &mut Vec<CellRun>,
    at: usize,
    address: u64,
    block: &[u8],
    room: usize,
    space: Space,
) -> bool
    requires { HasCellAt runs.old.items space address at }
    ensures put { OnTrue result
        (IsPutAt runs.old.items at address (shown 0 room block.now) runs.new.items) }
    ensures kept { OnFalse result (runs.new.items ≡ runs.old.items) }
    ensures one { room ≤ 1 → IsTrue result }
{
    let run = &mut runs[at];
    let from = (address - run.first) as usize;
    run.put(from, block, room)
}

// Writes the same from an address on, if the run that has the first cell has them all, and tells whether it has.
fn put_whole(runs: &mut Vec<CellRun>, space: Space, first: u64, block: &[u8], room: usize) -> bool
    requires { AreRuns runs.old.items }
    ensures order { AreRuns runs.new.items }
    ensures put { OnTrue result (AreSame (cells_of runs.new.items)
        (with_bytes_at (cells_of runs.old.items) space first (shown 0 room block.now))) }
    ensures kept { OnFalse result (runs.new.items ≡ runs.old.items) }
{
    match look_up(runs.as_slice(), space, first) {
        None => false,
        Some(at) => put_at(runs, at, first, block, room, space),
    }
}

// Writes a byte to a cell, if it is mapped.
fn put_byte(runs: &mut Vec<CellRun>, space: Space, at: u128, byte: u8)
    requires { AreRuns runs.old.items }
    ensures order { AreRuns runs.new.items }
    ensures put { AreSame (cells_of runs.new.items)
        (with_bytes_at (cells_of runs.old.items) space at (byte ∷ [])) }
{
    if let Ok(address) = u64::try_from(at) {
        if let Some(place) = look_up(runs.as_slice(), space, address) {
            put_at(runs, place, address, &[byte], 1, space);
        }
    }
}

// The byte of a block at a step, 0 behind its end.
fn byte_or_zero(block: &[u8], step: usize) -> u8
    ensures { result ≡ slice_index block.now step }
{
    block.get(step).copied().unwrap_or(0)
}

// Writes a block, cut at `room` or followed by zeros, from an address on, byte by byte.
fn put_each(runs: &mut Vec<CellRun>, space: Space, first: u64, block: &[u8], room: usize)
    requires { AreRuns runs.old.items }
    ensures order { AreRuns runs.new.items }
    ensures put { AreSame (cells_of runs.new.items)
        (with_bytes_at (cells_of runs.old.items) space first (shown 0 room block.now)) }
{
    for step in 0..room {
        let byte = byte_or_zero(block, step);
        put_byte(runs, space, u128::from(first) + step as u128, byte);
    }
}

/// Writes `room` bytes from an address on, those of a block, cut at `room` or followed by zeros; one whose cell is not
/// mapped is dropped.
pub fn put_bytes(runs: &mut Vec<CellRun>, space: Space, first: u64, block: &[u8], room: usize)
    requires { AreRuns runs.old.items }
    ensures order { AreRuns runs.new.items }
    ensures put { AreSame (cells_of runs.new.items)
        (with_bytes_at (cells_of runs.old.items) space first (shown 0 room block.now)) }
{
    if !put_whole(runs, space, first, block, room) {
        put_each(runs, space, first, block, room);
    }
}
