//! Executes a line `run`: the turns of each context, one context after another on one thread.
ghost use Rattle.std.specs.Prelude.{◌≡◌, ◌<◌, List, [], ◌∷◌, ◌++◌, length, slice_get, Some, true, IfOk, OnOk};
ghost use Rattle.ghes_call.specs.declared.call.Call.{Call};
ghost use Rattle.ghes_call.specs.Receive.{IsOfSource};
ghost use Rattle.ghes_ledger.specs.Asks.{Runs};
ghost use Rattle.ghes_ledger.specs.Outcomes.{ends_turns};
ghost use Rattle.ghes_ledger.specs.Plan.{served};
ghost use Rattle.ghes_ledger.specs.Turns.{turns as turns_of, AreTurns};
ghost use Rattle.ghes_nmi.specs.Receive.{receive_seen};
ghost use Rattle.ghes_lines.specs.Lines.{IsLed, Executes};
ghost use Rattle.ghes_lines.specs.Machine.{IsMachine, plan_of};
ghost use Rattle.ghes_lines.specs.Midway.{IsAmid, Continues, IsPart, Visits, MakesTurn};
ghost use Rattle.ghes_lines.specs.declared.machine.Source.{Source};

use crate::lines::turn_at;
use crate::machine::Machine;
use ghes_call::{Call, Outcome};
use ghes_desk::{Desk, Port};
use ghes_steps::Steps;
use std::alloc::{AllocError, Global};
use std::sync::ledger;

// Whether a context makes no further call in a line behind one that was answered so.
fn is_last(outcome: Outcome) -> bool
    ensures { result ≡ ends_turns outcome }
{
    match outcome {
        Outcome::Fatal(_) | Outcome::Stopped => true,
        _ => false,
    }
}

// One call on the source at a position, by the context that serves it: behind a fatal block it is stopped.
fn answer<P: Port, L: ledger::Ledger>(
    alloc: Global,
    machine: &Machine,
    at: usize,
    ports: &mut [P],
    desk: &mut Desk,
    steps: &mut Steps<L>,
) -> Result<Call, AllocError>
    requires inside { at < length machine.now.sources.items }
    requires within { at < length ports.old }
    requires machine { IsMachine desk.old.block_len machine.now }
    requires source { (source : Source) (port : P) → slice_get machine.now.sources.items at ≡ Some source → slice_get ports.old at ≡ Some port
        → IsOfSource (receive_seen source.receive) (P.seen port).layout }
    ensures goes { IfOk result (λ call. (calls : List Call)
        → Continues P.seen P.faults machine.now ports.old desk.old calls ports.new desk.new (calls ++ call ∷ [])) }
    ensures source { IfOk result (λ call. call.source ≡ at) }
    ensures context { IfOk result (λ call. call.context ≡ (plan_of machine.now).server at) }
    ensures block_len { desk.new.block_len ≡ desk.old.block_len }
{
    let source = machine.sources[at];
    if desk.is_stopped() {
        return Ok(desk.stopped_call(source.server, at as u16));
    }
    turn_at(alloc, &source, at as u16, ports, desk, steps)
}

// One call on the source at a position, where the context serves it. It is true where the context makes no further call in the line.
fn visit<P: Port, L: ledger::Ledger>(
    alloc: Global,
    machine: &Machine,
    context: u16,
    at: usize,
    ports: &mut [P],
    desk: &mut Desk,
    calls: &mut Vec<Call>,
    steps: &mut Steps<L>,
) -> Result<bool, AllocError>
    requires inside { at < length machine.now.sources.items }
    requires machine { IsMachine desk.old.block_len machine.now }
    requires amid { IsAmid P.seen P.faults machine.now ports.old desk.old calls.old.items }
    ensures goes { IfOk result (λ _. Continues P.seen P.faults machine.now ports.old desk.old calls.old.items ports.new desk.new calls.new.items) }
    ensures visits { IfOk result (λ ended. Visits (plan_of machine.now) context at ended calls.old.items calls.new.items) }
    ensures block_len { desk.new.block_len ≡ desk.old.block_len }
{
    if machine.sources[at].server != context {
        return Ok(false);
    }
    let call = answer(alloc, machine, at, ports, desk, steps)?;
    calls.push(call)?;
    Ok(is_last(call.reply.outcome))
}

// One turn of a context: one call on each of its sources in table order. It is true where the context makes no further call in the line.
fn turn<P: Port, L: ledger::Ledger>(
    alloc: Global,
    machine: &Machine,
    context: u16,
    ports: &mut [P],
    desk: &mut Desk,
    calls: &mut Vec<Call>,
    steps: &mut Steps<L>,
) -> Result<bool, AllocError>
    requires machine { IsMachine desk.old.block_len machine.now }
    requires amid { IsAmid P.seen P.faults machine.now ports.old desk.old calls.old.items }
    ensures goes { IfOk result (λ _. Continues P.seen P.faults machine.now ports.old desk.old calls.old.items ports.new desk.new calls.new.items) }
    ensures turns { IfOk result (λ ended. MakesTurn (plan_of machine.now) context ended calls.old.items calls.new.items) }
    ensures block_len { desk.new.block_len ≡ desk.old.block_len }
{
    let mut at = 0;
    let mut ended = false;
    while at < machine.sources.len() && !ended {
        ended = visit(alloc, machine, context, at, ports, desk, calls, steps)?;
        at += 1;
    }
    Ok(ended)
}

// So many turns of a context, up to a call behind which it makes no further one.
fn turns<P: Port, L: ledger::Ledger>(
    alloc: Global,
    machine: &Machine,
    context: u16,
    n: u16,
    ports: &mut [P],
    desk: &mut Desk,
    calls: &mut Vec<Call>,
    steps: &mut Steps<L>,
) -> Result<(), AllocError>
    requires machine { IsMachine desk.old.block_len machine.now }
    requires amid { IsAmid P.seen P.faults machine.now ports.old desk.old calls.old.items }
    ensures goes { OnOk result (Continues P.seen P.faults machine.now ports.old desk.old calls.old.items ports.new desk.new calls.new.items) }
    ensures turns { OnOk result (IsPart context (turns_of n (served (plan_of machine.now) context)) [] true calls.old.items calls.new.items) }
    ensures block_len { desk.new.block_len ≡ desk.old.block_len }
{
    let mut left = n;
    let mut ended = false;
    while 0 < left && !ended {
        ended = turn(alloc, machine, context, ports, desk, calls, steps)?;
        left -= 1;
    }
    Ok(())
}

// So many turns of each context, all of a context before those of the next.
fn all_turns<P: Port, L: ledger::Ledger>(
    alloc: Global,
    machine: &Machine,
    n: u16,
    ports: &mut [P],
    desk: &mut Desk,
    calls: &mut Vec<Call>,
    steps: &mut Steps<L>,
) -> Result<(), AllocError>
    requires machine { IsMachine desk.old.block_len machine.now }
    requires amid { IsAmid P.seen P.faults machine.now ports.old desk.old calls.old.items }
    requires none { calls.old.items ≡ [] }
    ensures goes { OnOk result (Continues P.seen P.faults machine.now ports.old desk.old calls.old.items ports.new desk.new calls.new.items) }
    ensures turns { OnOk result (AreTurns (plan_of machine.now) n calls.new.items) }
    ensures block_len { desk.new.block_len ≡ desk.old.block_len }
{
    for context in 0..machine.contexts {
        turns(alloc, machine, context, n, ports, desk, calls, steps)?;
    }
    Ok(())
}

/// `run`: so many turns of each context, and then all that is pending is taken. Behind a fatal block each further context is stopped at
/// its first call, and nothing is taken.
pub(crate) fn run<P: Port, L: ledger::Ledger>(
    alloc: Global,
    machine: &Machine,
    ports: &mut [P],
    desk: &mut Desk,
    number: u32,
    n: u16,
    steps: &mut Steps<L>,
) -> Result<(), AllocError>
    requires machine { IsMachine desk.old.block_len machine.now }
    requires running { desk.old.ledger.panic ≡ [] }
    requires led { IsLed P.seen P.faults machine.now ports.old desk.old }
    ensures ok { OnOk result (Executes P.seen P.faults machine.now (record { number = number; asks = Runs n }) ports.old desk.old ports.new desk.new) }
    ensures block_len { OnOk result (desk.new.block_len ≡ desk.old.block_len) }
{
    let mut calls = Vec::new(alloc);
    all_turns(alloc, machine, n, ports, desk, &mut calls, steps)?;
    desk.enter_calls(&calls, machine.sources.len())?;
    desk.work(alloc)?;
    desk.mark(number)
}
