//! The runs that are taken, in the order of their first cells.
ghost use Rattle.std.specs.Prelude.{◌≡◌, IfOk, OnOk};
ghost use Rattle.fw_map.specs.Registers.{runs_of};
ghost use Rattle.fw_map.specs.Taken.{AreSorted, TakeSame, TakesAlso};

use crate::{Register, Run};
use std::alloc::{AllocError, Global};

/// The cells of registers, in order.
pub(crate) fn sorted_runs(alloc: Global, registers: &[Register]) -> Result<Vec<Run>, AllocError>
    ensures sorted { IfOk result (λ runs. AreSorted runs.items) }
    ensures same { IfOk result (λ runs. TakeSame runs.items (runs_of registers.now)) }
{
    let mut runs = Vec::new(alloc);
    for register in registers {
        runs.push(register.run)?;
    }
    runs.sort_by_key(|run| run.first)?;
    Ok(runs)
}

/// Puts one more run in its place.
pub(crate) fn insert(runs: &mut Vec<Run>, run: Run) -> Result<(), AllocError>
    requires { AreSorted runs.old.items }
    ensures sorted { AreSorted runs.new.items }
    ensures also { OnOk result (TakesAlso run runs.old.items runs.new.items) }
{
    let place = runs.partition_point(|other| other.first < run.first);
    runs.insert(place, run)?;
    Ok(())
}
