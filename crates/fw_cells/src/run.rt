//! One run of cells: what one comparison, one copy and one write do there.
ghost use Rattle.std.specs.Prelude.{◌≡◌, ◌≤◌, ◌+◌, length, take, drop, nat_le};
ghost use Rattle.std.specs.Bool.{OnTrue, OnFalse};
ghost use Rattle.apei_base.specs.Firmware.{shown};
ghost use Rattle.fw_cells.specs.Runs.{place_of};
ghost use Rattle.fw_cells.specs.Parts.{with_part};

use apei_base::{Bytes, Space};

/// Cells that follow one another in one space, with their bytes.
///
/// Source: own choice.
#[derive(Debug, Drop)]
pub struct CellRun {
    /// Where the cells are.
    pub space: Space,
    /// The address of the first cell.
    pub first: u64,
    /// The byte in each cell, from the first one on.
    pub bytes: Bytes,
}

/// Where a cell stands to a run.
#[derive(Clone, Copy, Debug, PartialEq, Eq)]
pub enum Side {
    Before,
    In,
    Behind,
}

/// Where a cell stands among all cells: memory before ports, and then by address.
pub fn place_of(space: Space, address: u64) -> u128
    ensures { result ≡ place_of space address }
{
    match space {
        Space::Memory => u128::from(address),
        Space::Port => (1 << 65) + u128::from(address),
    }
}

// The bytes of a block in a whole area: cut at its end, or followed by zeros.
fn show(block: &[u8], area: &mut [u8])
    ensures { area.new ≡ shown 0 (length area.old) block.now }
{
    let count = block.len().min(area.len());
    let (front, back) = area.split_at_mut(count);
    front.copy_from_slice(&block[..count]);
    back.fill(0);
}

// The same in an area that is a part of some bytes.
fn show_in(bytes: &mut Vec<u8>, from: usize, block: &[u8], room: usize)
    requires { from + room ≤ length bytes.old.items }
    ensures { bytes.new.items ≡ with_part bytes.old.items from (shown 0 room block.now) }
{
    show(block, &mut bytes[from..from + room]);
}

impl CellRun {
    ghost use Rattle.fw_cells.specs.Parts.{side_of, run_with};

    /// Where a cell stands to the run, by its place among all cells.
    pub fn side_of(&self, place: u128) -> Side
        ensures { result ≡ side_of self.now place }
    {
        let start = place_of(self.space, self.first);
        if place < start {
            Side::Before
        } else if place - start < self.bytes.as_slice().len() as u128 {
            Side::In
        } else {
            Side::Behind
        }
    }

    /// Copies the bytes from a place in the run on, if it has as many, and tells whether it has.
    pub fn copy(&self, from: usize, into: &mut [u8]) -> bool
        requires { from ≤ length self.now.bytes }
        ensures value { result ≡ nat_le (from + length into.old) (length self.now.bytes) }
        ensures copied { OnTrue result
            (into.new ≡ take (length into.old) (drop from self.now.bytes)) }
        ensures kept { OnFalse result (into.new ≡ into.old) }
    {
        let bytes = self.bytes.as_slice();
        if into.len() > bytes.len() - from {
            return false;
        }
        into.copy_from_slice(&bytes[from..from + into.len()]);
        true
    }

    /// Writes a block, cut at `room` or followed by zeros, from a place in the run on, if it has as many bytes, and
    /// tells whether it has.
    pub fn put(&mut self, from: usize, block: &[u8], room: usize) -> bool
        requires { from ≤ length self.old.bytes }
        ensures value { result ≡ nat_le (from + room) (length self.old.bytes) }
        ensures put { OnTrue result (self.new ≡ run_with self.old from (shown 0 room block.now)) }
        ensures kept { OnFalse result (self.new ≡ self.old) }
    {
        if room > self.bytes.as_slice().len() - from {
            return false;
        }
        show_in(&mut self.bytes.0, from, block, room);
        true
    }
}
