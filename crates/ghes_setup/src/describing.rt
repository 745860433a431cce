//! The machine that the tables and the settings of a script describe.
ghost use Rattle.std.specs.Prelude.{◌≡◌, ◌≤◌, ◌<◌, length, IfOk};
ghost use Rattle.std.specs.List.{AllByRecursion};
ghost use Rattle.apei_hest.specs.Refusal.{enabled};
ghost use Rattle.apei_hest.specs.Sound.{IsSound};
ghost use Rattle.ghes_lines.specs.Lines.{IsAllowed};
ghost use Rattle.ghes_lines.specs.Machine.{IsMachine};
ghost use Rattle.ghes_setup.specs.Machine.{AreAllowedFor, IsSourceOf, AreSourcesOf, IsMachineOf};
ghost use Rattle.ghes_setup.specs.Settings.{contexts_of, settings_of};

use crate::settings::{cell, contexts, server, settings_of, slots};
use apei_hest::{Ghes, Hest, accepted_sources_are_sound};
use fw_map::enabled_sources;
use ghes_lines::{Machine, Source, a_script_asks_for_what_its_machine_allows};
use ghes_nmi::Receive;
use ghes_script::Line;
use std::alloc::{AllocError, Global};

// The source at a position, of a machine of so many contexts.
fn source_at(settings: &[Line], at: usize, ghes: &Ghes, contexts: u16) -> Source
    requires sound { IsSound ghes.now }
    requires some { 0 < contexts }
    requires contexts { contexts ≡ contexts_of settings.now }
    ensures { IsSourceOf settings.now at ghes.now result }
{
    let Ok(receive) = Receive::of(ghes) else {
        unreachable!()
    };
    let turn = at % usize::from(contexts);
    Source {
        id: ghes.id,
        receive,
        server: server(settings, at, turn as u16),
        cell: cell(settings, at),
    }
}

// The sources of a machine of so many contexts.
fn sources_of(
    alloc: Global,
    settings: &[Line],
    found: &[Ghes],
    contexts: u16,
) -> Result<Vec<Source>, AllocError>
    requires sound { AllByRecursion IsSound found.now }
    requires some { 0 < contexts }
    requires contexts { contexts ≡ contexts_of settings.now }
    ensures { IfOk result (λ sources. AreSourcesOf settings.now found.now sources.items) }
{
    let mut sources = Vec::new(alloc);
    for at in 0..found.len() {
        sources.push(source_at(settings, at, &found[at], contexts))?;
    }
    Ok(sources)
}

/// The machine of the enabled sources of a table and of the settings of a script that was read for it.
///
/// A block has at most 65,536 bytes there, and the lines of the script ask for nothing but what it allows.
pub fn machine(alloc: Global, hest: &Hest, lines: &[Line]) -> Result<Machine, AllocError>
    requires allowed { AreAllowedFor (enabled hest.now) lines.now }
    ensures machine { IfOk result (IsMachineOf (enabled hest.now) lines.now) }
    ensures sound { IfOk result (IsMachine 65536) }
    ensures few { IfOk result (λ machine. length machine.sources.items ≤ 64) }
    ensures allowed { IfOk result (λ machine. AllByRecursion (λ line. IsAllowed machine line.what) lines.now) }
{
    accepted_sources_are_sound();
    a_script_asks_for_what_its_machine_allows();
    let settings = settings_of(lines);
    let found = enabled_sources(alloc, hest.sources())?;
    let contexts = contexts(settings);
    Ok(Machine {
        sources: sources_of(alloc, settings, &found, contexts)?,
        contexts,
        slots: slots(settings),
    })
}
