//! The cells of a simulated machine, or of one of its ports.
ghost use Rattle.std.specs.Prelude.{◌≡◌, ◌<◌, ◌≤◌, ◌↔◌, ◌+◌, ◌-◌, ◌*◌, ◌%◌, ◌^◌, ◌/◌, None, length, take, IfOk, IfSome, IsNone};
ghost use Rattle.apei_base.specs.Bus.{bytes_at, value_at, reach_of};
ghost use Rattle.apei_base.specs.Firmware.{shown};
ghost use Rattle.apei_base.specs.declared.region.Space.TheVariants.{Memory};
ghost use Rattle.fw_cells.specs.Runs.{cells_of, AreRuns, HasCellAt};
ghost use Rattle.fw_cells.specs.Mapping.{IsMapped};
ghost use Rattle.fw_cells.specs.Changes.{with_bytes_at, with_value, AreSame};

use crate::CellRun;
use crate::change::put_bytes;
use crate::finding::find_in;
use crate::look::copy_bytes;
use crate::span::mapped_runs;
use apei_base::{Region, Space};
use byteorder::{ByteOrder, LittleEndian};
use ghes_steps::Steps;
use std::alloc::{AllocError, Global};
use std::marker::Model;
use std::sync::ledger::Ledger;

/// Memory cells and I/O ports, each a byte by its space and address.
///
/// A cell that is not mapped reads as 0 and drops what is written. Which cells are mapped never changes.
/// Source: own choice.
#[derive(Drop)]
pub struct Cells {
    runs: Vec<CellRun>,
}

impl Model for Cells {
    ghost use Rattle.std.specs.Prelude.{List};
    ghost use Rattle.fw_cells.specs.declared.run.CellRun.{CellRun};

    ghost Value = { List CellRun };

    ghost use Rattle.fw_cells.specs.Runs.{AreRuns};

    ghost view = { λ c. c.runs.items };

    ghost invariant = { λ c. AreRuns c.runs.items };
}

impl Cells {
    /// Maps runs of cells, all 0.
    ///
    /// A run is a space, the address of its first byte, and its length in bytes. Runs may overlap or adjoin. Nothing is
    /// mapped past the greatest address, 2^64 - 1.
    pub fn new(alloc: Global, mapped: &[(Space, u64, u32)]) -> Result<Cells, AllocError>
        ensures { IfOk result (λ cells. IsMapped (cells_of cells) mapped.now) }
    {
        Ok(Cells {
            runs: mapped_runs(alloc, mapped)?,
        })
    }

    /// The runs of mapped cells: memory before ports, and then by address. No two share a cell or adjoin.
    pub fn regions(&self) -> &[CellRun]
        ensures value { result.now ≡ self.now }
        ensures order { AreRuns result.now }
    {
        self.runs.as_slice()
    }

    /// The place in `regions` of the run that has the cell, none where it is not mapped.
    ///
    /// A step is one comparison with a run.
    pub fn find<L: Ledger>(&self, space: Space, address: u64, steps: &mut Steps<L>) -> Option<usize>
        ensures found { IfSome result (HasCellAt self.now space address) }
        ensures none { IsNone result ↔ (cells_of self.now space address ≡ None) }
        ensures grows { steps.old ≤ steps.new }
        ensures cost { 2 ^ (steps.new - steps.old) ≤ 2 * length self.now + 1 }
    {
        find_in(self.runs.as_slice(), space, address, steps)
    }

    // The bytes of a region, and zeros behind them.
    fn region_bytes(&self, at: &Region) -> [u8; 8]
        ensures { take (at.now.width / 8) result
            ≡ bytes_at (cells_of self.now) at.now.space at.now.address (at.now.width / 8) }
    {
        let mut bytes = [0u8; 8];
        copy_bytes(
            self.runs.as_slice(),
            at.space,
            u128::from(at.address),
            &mut bytes[..usize::from(at.width / 8)],
        );
        bytes
    }

    /// Reads the value of a region, the lowest byte first.
    pub fn read(&self, at: &Region) -> u64
        ensures value { result ≡ value_at (cells_of self.now) (reach_of at.now) }
        ensures fits { result < 2 ^ at.now.width }
    {
        let count = usize::from(at.width / 8);
        let bytes = self.region_bytes(at);
        LittleEndian::read_uint(&bytes[..count], count)
    }

    /// Copies memory from `address + skip` on, as many bytes as `into` has. Past the greatest address there are zeros.
    pub fn copy(&self, address: u64, skip: usize, into: &mut [u8])
        ensures { into.new
            ≡ bytes_at (cells_of self.now) Memory (address + skip) (length into.old) }
    {
        let first = u128::from(address) + skip as u128;
        copy_bytes(self.runs.as_slice(), Space::Memory, first, into);
    }

    /// Writes the low bits of a value to a region, as many as it is wide, the lowest byte first.
    pub fn write(&mut self, at: &Region, value: u64)
        ensures { AreSame (cells_of self.new)
            (with_value (cells_of self.old) (reach_of at.now) (value % 2 ^ at.now.width)) }
    {
        let bytes = value.to_le_bytes();
        let count = usize::from(at.width / 8);
        put_bytes(&mut self.runs, at.space, at.address, &bytes, count);
    }

    /// Writes `room` bytes of memory from an address on: those of a block, cut at `room` or followed by zeros.
    pub fn put(&mut self, address: u64, block: &[u8], room: usize)
        ensures { AreSame (cells_of self.new)
            (with_bytes_at (cells_of self.old) Memory address (shown 0 room block.now)) }
    {
        put_bytes(&mut self.runs, Space::Memory, address, block, room);
    }
}
