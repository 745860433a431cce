//! Replays the lines of a script on the machine that its tables and its settings describe.
ghost use Rattle.std.specs.Prelude.{◌≡◌, ◌<◌, map, option_copied, IfOk, IfErr};
ghost use Rattle.apei_hest.specs.Refusal.{enabled};
ghost use Rattle.fw_port.specs.Port.{seen, faults_of};
ghost use Rattle.fw_sim.specs.Platform.{IsPlatformOf};
ghost use Rattle.ghes_lines.specs.Run.{IsRun, IsStopOf};
ghost use Rattle.ghes_replay.specs.Done.{RunsLines, output, IsToldOf};
ghost use Rattle.ghes_replay.specs.Planned.{NoMachine, machine_refusal, width_of, raised_of, acknowledged_of, stop_refusal, text_of};
ghost use Rattle.ghes_replay.specs.Views.{done_of};
ghost use Rattle.ghes_replay.specs.declared.exit.Refusal.TheVariants.{OutOfMemory};
ghost use Rattle.ghes_report.specs.Sound.{IsSound};
ghost use Rattle.ghes_setup.specs.Injecting.{Injects, seen_of};
ghost use Rattle.ghes_setup.specs.Machine.{AreAllowedFor};
ghost use Rattle.ghes_setup.specs.Rig.{IsReady};

use crate::Refusal;
use crate::done::Done;
use apei_einj::Einj;
use apei_hest::Hest;
use fw_map::FwError;
use fw_port::SourcePort;
use fw_sim::Platform;
use ghes_ledger::Ledger;
use ghes_lines::{Machine, Source, Stop, run_lines};
use ghes_report::script_text;
use ghes_script::Line;
use ghes_setup::Rig;
use ghes_steps::Steps;
use std::alloc::{AllocError, Global};
use std::marker::Brand;
use std::sync::ledger::{self, Blank};

// How long a block is at most, in bytes.
const LONGEST: usize = 65_536;

// The refusal for tables of which there is no machine.
fn machine_refusal(error: FwError) -> Refusal
    ensures { result ≡ machine_refusal error }
{
    match error {
        FwError::OutOfMemory => Refusal::OutOfMemory,
        FwError::Overlap { .. } | FwError::Room | FwError::Narrow(_) => Refusal::Platform(error),
    }
}

/// The machine of these tables, to which nothing has happened.
pub(crate) fn build(alloc: Global, hest: &Hest, einj: Option<&Einj>) -> Result<Platform, Refusal>
    ensures found { IfOk result (IsPlatformOf (enabled hest.now) (option_copied einj.entry)) }
    ensures refused { IfErr result (NoMachine (enabled hest.now) (option_copied einj.entry)) }
{
    match Platform::new(alloc, hest, einj) {
        Ok(platform) => Ok(platform),
        Err(error) => Err(machine_refusal(error)),
    }
}

// The id of each source.
fn ids(alloc: Global, sources: &[Source]) -> Result<Vec<u16>, AllocError>
    ensures { IfOk result (λ ids. ids.items ≡ map (λ source. source.id) sources.now) }
{
    let mut ids = Vec::new(alloc);
    for source in sources {
        ids.push(source.id)?;
    }
    Ok(ids)
}

// How wide the read ack register of a source is, in bits, and 0 where it has none.
fn width(source: &Source) -> u8
    ensures { result ≡ width_of source.now }
{
    match source.receive.ack {
        Some(rule) => rule.register.width,
        None => 0,
    }
}

// The same of each source.
fn widths(alloc: Global, sources: &[Source]) -> Result<Vec<u8>, AllocError>
    ensures { IfOk result (λ widths. widths.items ≡ map width_of sources.now) }
{
    let mut widths = Vec::new(alloc);
    for source in sources {
        widths.push(width(source))?;
    }
    Ok(widths)
}

// How many blocks firmware has raised for each source.
fn raised(alloc: Global, ports: &[SourcePort]) -> Result<Vec<u32>, AllocError>
    ensures { IfOk result (λ raised. raised.items ≡ map raised_of ports.now) }
{
    let mut raised = Vec::new(alloc);
    for port in ports {
        raised.push(port.raised())?;
    }
    Ok(raised)
}

// How many of them are acknowledged.
fn acknowledged(alloc: Global, ports: &[SourcePort]) -> Result<Vec<u32>, AllocError>
    ensures { IfOk result (λ acknowledged. acknowledged.items ≡ map acknowledged_of ports.now) }
{
    let mut acknowledged = Vec::new(alloc);
    for port in ports {
        acknowledged.push(port.acknowledged())?;
    }
    Ok(acknowledged)
}

// The text of a ledger of lines, on a machine whose memory was left so.
fn text(
    alloc: Global,
    machine: &Machine,
    lines: &[Line],
    ports: &[SourcePort],
    ledger: &Ledger,
) -> Result<Vec<u8>, AllocError>
    requires { IsSound ledger.now }
    ensures { IfOk result (λ text. text.items ≡ text_of machine.now lines.now ports.now ledger.now) }
{
    let ids = ids(alloc, &machine.sources)?;
    let widths = widths(alloc, &machine.sources)?;
    let raised = raised(alloc, ports)?;
    let acknowledged = acknowledged(alloc, ports)?;
    script_text(alloc, lines, ledger, &ids, &widths, &raised, &acknowledged)
}

// The refusal for lines that were not executed to their end.
fn stopped(stop: Stop) -> Refusal
    ensures { result ≡ stop_refusal stop }
{
    match stop {
        Stop::Full { line } => Refusal::Full { line },
        Stop::OutOfMemory => Refusal::OutOfMemory,
    }
}

// Runs the lines of a script on its machine, where nobody counts the steps.
fn run_uncounted<L: ledger::Ledger>(
    alloc: Global,
    rig: &mut Rig,
    lines: &[Line],
    blank: Blank,
) -> Result<Ledger, Stop>
    requires name { blank.name ≡ L.name }
    requires parts { blank.parts ≡ L.parts }
    requires some { 0 < blank.parts }
    requires ready { IsReady lines.now rig.old }
    ensures machine { rig.new.machine ≡ rig.old.machine }
    ensures ok { IfOk result (IsRun seen faults_of Injects rig.old.machine lines.now
        (seen_of rig.old.injecting) (seen_of rig.new.injecting) rig.new.ports.items) }
    ensures err { IfErr result (IsStopOf seen faults_of Injects rig.old.machine (seen_of rig.old.injecting) lines.now) }
{
    let mut steps = Steps::<L>::new(blank);
    run_lines(
        alloc,
        &rig.machine,
        LONGEST,
        &mut rig.ports,
        &mut rig.injecting,
        lines,
        &mut steps,
    )
}

// What a run of lines gives: its ledger, and the text of it.
fn told(alloc: Global, rig: &Rig, lines: &[Line], ledger: Ledger) -> Result<Done, AllocError>
    requires { IsSound ledger }
    ensures { IfOk result (λ done. IsToldOf rig.now lines.now ledger (output done.ledger done.text.items)) }
{
    let text = text(alloc, &rig.machine, lines, &rig.ports, &ledger)?;
    Ok(Done {
        ledger: Some(ledger),
        text,
    })
}

// The same, where only memory can be wanting.
fn ended(alloc: Global, rig: &Rig, lines: &[Line], ledger: Ledger) -> Result<Done, Refusal>
    requires { IsSound ledger }
    ensures told { IfOk (done_of result) (IsToldOf rig.now lines.now ledger) }
    ensures refused { IfErr (done_of result) (λ refusal. refusal ≡ OutOfMemory) }
{
    match told(alloc, rig, lines, ledger) {
        Ok(done) => Ok(done),
        Err(AllocError) => Err(Refusal::OutOfMemory),
    }
}

/// Replays lines that a script of the sources may have, on the machine of these tables: runs them, and makes the text of the
/// ledger behind the run.
pub(crate) fn replay_lines(
    alloc: Global,
    hest: &Hest,
    einj: Option<Einj>,
    platform: Platform,
    lines: &[Line],
) -> Result<Done, Refusal>
    requires platform { IsPlatformOf (enabled hest.now) einj platform }
    requires allowed { AreAllowedFor (enabled hest.now) lines.now }
    ensures { RunsLines hest.now einj lines.now (done_of result) }
{
    let mut rig = Rig::new(alloc, hest, einj, platform, lines)?;
    match run_uncounted::<Brand>(alloc, &mut rig, lines, Blank::new(1)) {
        Ok(ledger) => ended(alloc, &rig, lines, ledger),
        Err(stop) => Err(stopped(stop)),
    }
}
