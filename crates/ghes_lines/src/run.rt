//! A run of the lines of a script, from nothing to a lawful ledger.
ghost use Rattle.std.specs.Prelude.{◌≡◌, length, IfOk, IfErr};
ghost use Rattle.std.specs.List.{AllByRecursion};
ghost use Rattle.ghes_lines.specs.Lines.{IsAllowed};
ghost use Rattle.ghes_lines.specs.Machine.{IsMachine};
ghost use Rattle.ghes_lines.specs.Run.{AreFresh, IsRun, IsStopOf};

use crate::error::Stop;
use crate::executing::finish;
use crate::execution::execute;
use crate::injector::Injector;
use crate::machine::Machine;
use ghes_desk::{Desk, Port};
use ghes_ledger::Ledger;
use ghes_script::Line;
use ghes_steps::Steps;
use std::alloc::Global;
use std::sync::ledger;

/// Runs the lines of a script, up to the first with a fatal block, and then the end of the script.
///
/// The memory of each source is at its start, and no block is longer than so many bytes. The ledger is lawful.
pub fn run_lines<P: Port, I: Injector, L: ledger::Ledger>(
    alloc: Global,
    machine: &Machine,
    block_len: usize,
    ports: &mut [P],
    injector: &mut I,
    lines: &[Line],
    steps: &mut Steps<L>,
) -> Result<Ledger, Stop>
    requires machine { IsMachine block_len machine.now }
    requires allowed { AllByRecursion (λ line. IsAllowed machine.now line.what) lines.now }
    requires injects { I.sources injector.old ≡ length machine.now.sources.items }
    requires fresh { AreFresh P.seen machine.now ports.old }
    ensures ok { IfOk result (IsRun P.seen P.faults I.does machine.now lines.now (I.state injector.old) (I.state injector.new) ports.new) }
    ensures err { IfErr result (IsStopOf P.seen P.faults I.does machine.now (I.state injector.old) lines.now) }
{
    let mut desk = Desk::new(alloc, usize::from(machine.slots), block_len)?;
    let mut next = 0;
    while next < lines.len() && !desk.is_stopped() {
        match execute(
            alloc,
            machine,
            ports,
            injector,
            &mut desk,
            &lines[next],
            steps,
        ) {
            Ok(()) => next += 1,
            Err(stop) => return Err(stop),
        }
    }
    finish(alloc, machine, ports, &mut desk)?;
    Ok(desk.into_ledger())
}
