//! The cells of a machine.
ghost use Rattle.std.specs.Prelude.{◌≡◌, ◌++◌, IfOk, OnOk};
ghost use Rattle.fw_cells.specs.Mapping.{IsMapped};
ghost use Rattle.fw_cells.specs.Runs.{cells_of};
ghost use Rattle.fw_map.specs.Mapped.{listed, listed_runs, mapped_runs};
ghost use Rattle.fw_map.specs.Registers.{runs_of};

use crate::{Map, Register, Run};
use apei_base::Space;
use fw_cells::Cells;
use std::alloc::{AllocError, Global};

impl Run {
    // Its space, the address of its first cell, and how many cells it has.
    fn listed(&self) -> (Space, u64, u32)
        ensures { result ≡ listed self.now }
    {
        (self.space, self.first, self.bytes)
    }
}

// Adds the cells of registers to a list.
fn list_registers(
    list: &mut Vec<(Space, u64, u32)>,
    registers: &[Register],
) -> Result<(), AllocError>
    ensures { OnOk result
        (list.new.items ≡ list.old.items ++ listed_runs (runs_of registers.now)) }
{
    for register in registers {
        list.push(register.run.listed())?;
    }
    Ok(())
}

// Adds the cells of areas to a list.
fn list_areas(list: &mut Vec<(Space, u64, u32)>, areas: &[Run]) -> Result<(), AllocError>
    ensures { OnOk result (list.new.items ≡ list.old.items ++ listed_runs areas.now) }
{
    for area in areas {
        list.push(area.listed())?;
    }
    Ok(())
}

impl Map {
    /// The cells of the machine, all 0: those of the registers and of all areas, and no others.
    pub fn cells(&self, alloc: Global) -> Result<Cells, AllocError>
        ensures { IfOk result
            (λ cells. IsMapped (cells_of cells) (listed_runs (mapped_runs self.now))) }
    {
        let mut list = Vec::new(alloc);
        list_registers(&mut list, &self.registers)?;
        list_areas(&mut list, &self.areas)?;
        if let Some(trigger) = &self.trigger {
            list_areas(&mut list, &[trigger.table, trigger.cell])?;
        }
        Cells::new(alloc, &list)
    }
}
