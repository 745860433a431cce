//! What each line does.
ghost use Rattle.std.specs.Prelude.{◌≡◌, ◌<◌, ◌≤◌, ◌+◌, ◌-◌, ◌^◌, [], length, slice_get, unwrap_or, Some, IfOk, OnOk};
ghost use Rattle.apei_base.specs.Firmware.{IsRaised};
ghost use Rattle.ghes_call.specs.Receive.{IsOfSource};
ghost use Rattle.ghes_nmi.specs.Receive.{receive_seen};
ghost use Rattle.ghes_desk.specs.Desk.{IsNmi, IsTurn};
ghost use Rattle.ghes_lines.specs.Lines.{IsAt};
ghost use Rattle.fw_port.specs.Port.{raised};
ghost use Rattle.ghes_desk.specs.Port.{IsPlanned, ack_cell_of};
ghost use Rattle.ghes_lines.specs.declared.machine.Source.{Source};

use crate::machine::Source;
use ghes_call::Call;
use ghes_desk::{Desk, Port};
use ghes_steps::Steps;
use std::alloc::{AllocError, Global};
use std::sync::ledger;

/// Firmware has a new block for the source at a position.
pub(crate) fn raise_at<P: Port>(ports: &mut [P], at: usize, block: &[u8]) -> Result<(), AllocError>
    requires within { at < length ports.old }
    requires raised { IsRaised block.now }
    requires few { (port : P) → slice_get ports.old at ≡ Some port → length (P.seen port).made + 1 < 2 ^ 32 - 1 }
    ensures ok { OnOk result (IsAt at ports.old ports.new (λ before after.
        (P.seen after ≡ raised block.now (P.seen before)) × (P.faults after ≡ P.faults before))) }
{
    ports[at].raise(block)
}

/// The access of this number through the port of the source at a position is to fail.
pub(crate) fn fail_at<P: Port>(ports: &mut [P], at: usize, number: u64) -> Result<(), AllocError>
    requires { at < length ports.old }
    ensures { OnOk result (IsAt at ports.old ports.new (λ before after.
        IsPlanned (P.seen before) (P.seen after) × (P.faults after ≡ P.faults before))) }
{
    ports[at].fail(number)
}

/// How many blocks firmware has raised for the source at a position.
pub(crate) fn raised_at<P: Port>(ports: &[P], at: usize) -> u32
    requires { at < length ports.now }
    ensures value { (port : P) → slice_get ports.now at ≡ Some port → result ≡ length (P.seen port).made }
    ensures few { result < 2 ^ 32 - 1 }
{
    ports[at].raised()
}

/// What the read ack register of the source at a position holds, and 0 where there is none.
pub(crate) fn cell_at<P: Port>(ports: &[P], at: usize) -> u64
    requires { at < length ports.now }
    ensures { (port : P) → slice_get ports.now at ≡ Some port → result ≡ unwrap_or (ack_cell_of (P.seen port)) 0 }
{
    ports[at].ack_cell().unwrap_or(0)
}

/// One call on the source at a position.
pub(crate) fn nmi_at<P: Port, L: ledger::Ledger>(
    alloc: Global,
    source: &Source,
    at: u16,
    ports: &mut [P],
    desk: &mut Desk,
    steps: &mut Steps<L>,
) -> Result<(), AllocError>
    requires within { at < length ports.old }
    requires source { (port : P) → slice_get ports.old at ≡ Some port → IsOfSource (receive_seen source.now.receive) (P.seen port).layout }
    requires header { 20 ≤ source.now.receive.limit }
    requires limit { source.now.receive.limit ≤ desk.old.block_len }
    ensures ok { OnOk result (IsAt at ports.old ports.new (λ before after.
        IsNmi (receive_seen source.now.receive) source.now.server at (P.seen before) (P.seen after)
        (P.faults before) (P.faults after) desk.old desk.new)) }
    ensures room { desk.new.block_len ≡ desk.old.block_len }
{
    desk.nmi(
        alloc,
        &source.receive,
        source.server,
        at,
        &mut ports[usize::from(at)],
        steps,
    )
}

/// One call of a line with many, on the source at a position.
pub(crate) fn turn_at<P: Port, L: ledger::Ledger>(
    alloc: Global,
    source: &Source,
    at: u16,
    ports: &mut [P],
    desk: &mut Desk,
    steps: &mut Steps<L>,
) -> Result<Call, AllocError>
    requires within { at < length ports.old }
    requires source { (port : P) → slice_get ports.old at ≡ Some port → IsOfSource (receive_seen source.now.receive) (P.seen port).layout }
    requires header { 20 ≤ source.now.receive.limit }
    requires limit { source.now.receive.limit ≤ desk.old.block_len }
    ensures ok { IfOk result (λ call. IsAt at ports.old ports.new (λ before after.
        IsTurn (receive_seen source.now.receive) source.now.server at (P.seen before) (P.seen after)
        (P.faults before) (P.faults after) desk.old desk.new call)) }
    ensures room { desk.new.block_len ≡ desk.old.block_len }
{
    desk.turn(
        alloc,
        &source.receive,
        source.server,
        at,
        &mut ports[usize::from(at)],
        steps,
    )
}
