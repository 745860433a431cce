//! Executes one line, and marks it.
ghost use Rattle.std.specs.Prelude.{◌≡◌, ◌<◌, ◌≤◌, [], length, IfErr, OnOk};
ghost use Rattle.apei_base.specs.Firmware.{IsRaised};
ghost use Rattle.ghes_ledger.specs.Asks.{Setting, Clock, Fail, Peek, Quiet, Makes, Injects, Calls, Drains};
ghost use Rattle.ghes_ledger.specs.History.{script_end};
ghost use Rattle.ghes_lines.specs.Injector.{IsTold, IsWithoutBlock};
ghost use Rattle.ghes_lines.specs.declared.injector.Injected.TheVariants.{Made, Ended};
ghost use Rattle.ghes_lines.specs.declared.error.Stop.TheVariants.{Full};
ghost use Rattle.ghes_lines.specs.Lines.{IsLed, Executes, ExecutesTelling};
ghost use Rattle.ghes_lines.specs.Machine.{IsMachine};

use crate::error::Stop;
use crate::lines::{cell_at, fail_at, nmi_at, raise_at, raised_at};
use crate::machine::Machine;
use ghes_desk::{Desk, Port};
use ghes_ledger::InjectionEnd;
use ghes_steps::Steps;
use std::alloc::{AllocError, Global};
use std::sync::ledger;

/// `raise`: firmware has a new block for the source at a position, where the machine has room for one.
pub(crate) fn raise<P: Port>(
    machine: &Machine,
    ports: &mut [P],
    desk: &mut Desk,
    number: u32,
    at: usize,
    block: &[u8],
) -> Result<(), AllocError>
    requires within { at < length machine.now.sources.items }
    requires raised { IsRaised block.now }
    requires room { desk.old.blocks < 65536 }
    requires running { desk.old.ledger.panic ≡ [] }
    requires led { IsLed P.seen P.faults machine.now ports.old desk.old }
    ensures ok { OnOk result (Executes P.seen P.faults machine.now (record { number = number; asks = Makes at block.now }) ports.old desk.old ports.new desk.new) }
    ensures block_len { OnOk result (desk.new.block_len ≡ desk.old.block_len) }
{
    raise_at(ports, at, block)?;
    desk.count();
    desk.mark(number)
}

/// A setting, which was told beforehand.
pub(crate) fn setting<P: Port>(
    machine: &Machine,
    ports: &mut [P],
    desk: &mut Desk,
    number: u32,
) -> Result<(), AllocError>
    requires running { desk.old.ledger.panic ≡ [] }
    ensures ok { OnOk result (Executes P.seen P.faults machine.now (record { number = number; asks = Quiet Setting }) ports.old desk.old ports.new desk.new) }
    ensures block_len { OnOk result (desk.new.block_len ≡ desk.old.block_len) }
{
    desk.mark(number)
}

/// `clock`: from here on it is this time.
pub(crate) fn clock<P: Port>(
    machine: &Machine,
    ports: &mut [P],
    desk: &mut Desk,
    number: u32,
    time: u64,
) -> Result<(), AllocError>
    requires running { desk.old.ledger.panic ≡ [] }
    ensures ok { OnOk result (Executes P.seen P.faults machine.now (record { number = number; asks = Quiet (Clock time) }) ports.old desk.old ports.new desk.new) }
    ensures block_len { OnOk result (desk.new.block_len ≡ desk.old.block_len) }
{
    desk.set_clock(time);
    desk.mark(number)
}

/// `fail`: an access through the port of the source at a position is to fail.
pub(crate) fn fail<P: Port>(
    machine: &Machine,
    ports: &mut [P],
    desk: &mut Desk,
    number: u32,
    at: usize,
    access: u64,
) -> Result<(), AllocError>
    requires within { at < length machine.now.sources.items }
    requires running { desk.old.ledger.panic ≡ [] }
    requires led { IsLed P.seen P.faults machine.now ports.old desk.old }
    ensures ok { OnOk result (Executes P.seen P.faults machine.now (record { number = number; asks = Quiet (Fail at) }) ports.old desk.old ports.new desk.new) }
    ensures block_len { OnOk result (desk.new.block_len ≡ desk.old.block_len) }
{
    fail_at(ports, at, access)?;
    desk.mark(number)
}

/// `peek`: the read ack register of the source at a position is looked at.
pub(crate) fn peek<P: Port>(
    machine: &Machine,
    ports: &mut [P],
    desk: &mut Desk,
    number: u32,
    at: usize,
) -> Result<(), AllocError>
    requires within { at < length machine.now.sources.items }
    requires running { desk.old.ledger.panic ≡ [] }
    requires led { IsLed P.seen P.faults machine.now ports.old desk.old }
    ensures ok { OnOk result (Executes P.seen P.faults machine.now (record { number = number; asks = Quiet (Peek at) }) ports.old desk.old ports.new desk.new) }
    ensures block_len { OnOk result (desk.new.block_len ≡ desk.old.block_len) }
{
    desk.peek(cell_at(ports, at))?;
    desk.mark(number)
}

/// `nmi`: one call on the source at a position, by the context that serves it.
pub(crate) fn nmi<P: Port, L: ledger::Ledger>(
    alloc: Global,
    machine: &Machine,
    ports: &mut [P],
    desk: &mut Desk,
    number: u32,
    at: usize,
    steps: &mut Steps<L>,
) -> Result<(), AllocError>
    requires within { at < length machine.now.sources.items }
    requires machine { IsMachine desk.old.block_len machine.now }
    requires running { desk.old.ledger.panic ≡ [] }
    requires led { IsLed P.seen P.faults machine.now ports.old desk.old }
    ensures ok { OnOk result (Executes P.seen P.faults machine.now (record { number = number; asks = Calls at }) ports.old desk.old ports.new desk.new) }
    ensures block_len { OnOk result (desk.new.block_len ≡ desk.old.block_len) }
{
    let source = machine.sources[at];
    nmi_at(alloc, &source, at as u16, ports, desk, steps)?;
    desk.mark(number)
}

/// `work`: all that is pending is taken.
pub(crate) fn work<P: Port>(
    alloc: Global,
    machine: &Machine,
    ports: &mut [P],
    desk: &mut Desk,
    number: u32,
) -> Result<(), AllocError>
    requires running { desk.old.ledger.panic ≡ [] }
    ensures ok { OnOk result (Executes P.seen P.faults machine.now (record { number = number; asks = Drains }) ports.old desk.old ports.new desk.new) }
    ensures block_len { OnOk result (desk.new.block_len ≡ desk.old.block_len) }
{
    desk.work(alloc)?;
    desk.mark(number)
}

/// The end of the script: all that is pending is taken.
pub(crate) fn finish<P: Port>(
    alloc: Global,
    machine: &Machine,
    ports: &mut [P],
    desk: &mut Desk,
) -> Result<(), AllocError>
    ensures ok { OnOk result (Executes P.seen P.faults machine.now script_end ports.old desk.old ports.new desk.new) }
    ensures block_len { OnOk result (desk.new.block_len ≡ desk.old.block_len) }
    ensures empty { OnOk result (desk.new.pending.packets ≡ []) }
{
    desk.work(alloc)?;
    desk.mark(0)
}

/// That the machine has room for one more block.
pub(crate) fn has_room(desk: &Desk, number: u32) -> Result<(), Stop>
    ensures ok { OnOk result (desk.now.blocks < 65536) }
    ensures full { IfErr result (λ stop. (stop ≡ Full number) × (65536 ≤ desk.now.blocks)) }
{
    if desk.is_full() {
        return Err(Stop::Full { line: number });
    }
    Ok(())
}

/// The block of an injection: firmware raises it for its source.
pub(crate) fn injected<P: Port>(
    machine: &Machine,
    ports: &mut [P],
    desk: &mut Desk,
    number: u32,
    source: u16,
    block: &[u8],
) -> Result<(), AllocError>
    requires within { source < length machine.now.sources.items }
    requires raised { IsRaised block.now }
    requires room { desk.old.blocks < 65536 }
    requires running { desk.old.ledger.panic ≡ [] }
    requires led { IsLed P.seen P.faults machine.now ports.old desk.old }
    ensures ok { OnOk result (Executes P.seen P.faults machine.now (record { number = number; asks = Injects }) ports.old desk.old ports.new desk.new) }
    ensures told { OnOk result (ExecutesTelling (IsTold (Made source block.now)) P.seen P.faults machine.now
        (record { number = number; asks = Injects }) ports.old desk.old ports.new desk.new) }
    ensures block_len { OnOk result (desk.new.block_len ≡ desk.old.block_len) }
{
    let at = usize::from(source);
    let seq = raised_at(ports, at) + 1;
    raise_at(ports, at, block)?;
    desk.count();
    desk.end_injection(InjectionEnd::Made { source, seq })?;
    desk.mark(number)
}

/// An injection that made no block.
pub(crate) fn ended<P: Port>(
    machine: &Machine,
    ports: &mut [P],
    desk: &mut Desk,
    number: u32,
    end: InjectionEnd,
) -> Result<(), AllocError>
    requires none { IsWithoutBlock end }
    requires running { desk.old.ledger.panic ≡ [] }
    ensures ok { OnOk result (Executes P.seen P.faults machine.now (record { number = number; asks = Injects }) ports.old desk.old ports.new desk.new) }
    ensures told { OnOk result (ExecutesTelling (IsTold (Ended end)) P.seen P.faults machine.now
        (record { number = number; asks = Injects }) ports.old desk.old ports.new desk.new) }
    ensures block_len { OnOk result (desk.new.block_len ≡ desk.old.block_len) }
{
    desk.end_injection(end)?;
    desk.mark(number)
}
