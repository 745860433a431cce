//! Executes the lines of a script, from nothing to a lawful ledger.
ghost use Rattle.std.specs.Prelude.{◌≡◌, [], length, IfErr, OnOk};
ghost use Rattle.ghes_lines.specs.Lines.{act_of, IsAllowed, IsLed, Executes, InjectsBy, IsStopAt};
ghost use Rattle.ghes_lines.specs.Machine.{IsMachine};

use crate::error::Stop;
use crate::executing::{clock, ended, fail, has_room, injected, nmi, peek, raise, setting, work};
use crate::injector::{Injected, Injector};
use crate::machine::Machine;
use crate::running::run;
use ghes_desk::{Desk, Port};
use ghes_script::{Line, What};
use ghes_steps::Steps;
use std::alloc::Global;
use std::sync::ledger;

/// Executes one line, and marks it.
pub fn execute<P: Port, I: Injector, L: ledger::Ledger>(
    alloc: Global,
    machine: &Machine,
    ports: &mut [P],
    injector: &mut I,
    desk: &mut Desk,
    line: &Line,
    steps: &mut Steps<L>,
) -> Result<(), Stop>
    requires machine { IsMachine desk.old.block_len machine.now }
    requires allowed { IsAllowed machine.now line.now.what }
    requires injects { I.sources injector.old ≡ length machine.now.sources.items }
    requires running { desk.old.ledger.panic ≡ [] }
    requires led { IsLed P.seen P.faults machine.now ports.old desk.old }
    ensures ok { OnOk result (Executes P.seen P.faults machine.now (act_of line.now) ports.old desk.old ports.new desk.new) }
    ensures injected { OnOk result (InjectsBy P.seen P.faults I.does machine.now line.now.number line.now.what
        (I.state injector.old) ports.old desk.old (I.state injector.new) ports.new desk.new) }
    ensures full { IfErr result (IsStopAt line.now desk.old.blocks) }
    ensures injects { I.sources injector.new ≡ I.sources injector.old }
    ensures block_len { OnOk result (desk.new.block_len ≡ desk.old.block_len) }
{
    let number = line.number;
    match &line.what {
        What::Clock(time) => clock(machine, ports, desk, number, *time)?,
        What::Raise(at, block) => {
            has_room(desk, number)?;
            raise(machine, ports, desk, number, *at, block.as_slice())?;
        }
        What::Inject(request) => match injector.inject(request)? {
            Injected::Made { source, block } => {
                has_room(desk, number)?;
                injected(machine, ports, desk, number, source, block.as_slice())?;
            }
            Injected::Ended(end) => ended(machine, ports, desk, number, end)?,
        },
        What::Nmi(at) => nmi(alloc, machine, ports, desk, number, *at, steps)?,
        What::Work => work(alloc, machine, ports, desk, number)?,
        What::Peek(at) => peek(machine, ports, desk, number, *at)?,
        What::Fail(at, access) => fail(machine, ports, desk, number, *at, *access)?,
        What::Run(n) => run(alloc, machine, ports, desk, number, *n, steps)?,
        _ => setting(machine, ports, desk, number)?,
    }
    Ok(())
}
