//! A simulated machine.
ghost use Rattle.std.specs.Prelude.{◌≡◌, ◌≤◌, ◌<◌, ◌+◌, ◌↔◌, None, IfOk, IfErr, IsNone, option_copied, option_map, length};
ghost use Rattle.std.specs.List.{AllByRecursion};
ghost use Rattle.std.specs.Borrow.{sem};
ghost use Rattle.apei_hest.specs.Refusal.{enabled};
ghost use Rattle.apei_hest.specs.Sound.{IsSound};
ghost use Rattle.fw_map.specs.Apart.{AreToldApart};
ghost use Rattle.fw_einj.specs.Machine.{set_up};
ghost use Rattle.fw_map.specs.Areas.{lengths_of, trigger_areas, trigger_lengths};
ghost use Rattle.fw_map.specs.Map.{IsRefusedWith};
ghost use Rattle.fw_sim.specs.Platform.{IsPlatformOf, IsInjectorOf, IsPortAt, ArePortsOf};

use crate::place::source_layout;
use apei_einj::{Einj, InjectError, Injected, Request};
use apei_hest::{Ghes, Hest};
use fw_einj::{EinjPort, Setup};
use fw_map::{FwError, Map, Run, Trigger, enabled_sources};
use fw_port::SourcePort;
use std::alloc::{AllocError, Global};

/// The simulated firmware of a machine. A source is named by its position among the enabled generic sources, in table
/// order.
///
/// Source: own choice.
#[derive(Drop)]
pub struct Platform {
    pub(crate) ports: Vec<SourcePort>,
    pub(crate) injector: Option<EinjPort>,
}

/// What of a machine is left while its ports are elsewhere.
///
/// Source: own choice.
#[derive(Drop)]
pub struct EinjSide {
    injector: Option<EinjPort>,
}

// The port of the source at a place, to which nothing has happened.
fn port_at(
    alloc: Global,
    sources: &[Ghes],
    areas: &[Run],
    place: usize,
) -> Result<SourcePort, AllocError>
    requires sound { AllByRecursion IsSound sources.now }
    requires apart { AreToldApart sources.now areas.now }
    requires within { place < length sources.now }
    ensures { IfOk result (IsPortAt sources.now areas.now place) }
{
    SourcePort::new(alloc, source_layout(&sources[place], &areas[place]))
}

// The ports of sources, each of which has its area.
fn ports_of(alloc: Global, sources: &[Ghes], areas: &[Run]) -> Result<Vec<SourcePort>, AllocError>
    requires sound { AllByRecursion IsSound sources.now }
    requires apart { AreToldApart sources.now areas.now }
    ensures { IfOk result (λ ports. ArePortsOf sources.now areas.now ports.items) }
{
    let mut ports = Vec::new(alloc);
    for place in 0..sources.len() {
        ports.push(port_at(alloc, sources, areas, place)?)?;
    }
    Ok(ports)
}

// The machine that injects, where there is an injection table.
fn injector_of(
    alloc: Global,
    einj: Option<&Einj>,
    trigger: Option<Trigger>,
) -> Result<Option<EinjPort>, AllocError>
    requires { lengths_of (trigger_areas trigger) ≡ trigger_lengths (option_copied einj) }
    ensures { IfOk result (IsInjectorOf (option_copied einj.entry) trigger) }
{
    let Some(einj) = einj else {
        return Ok(None);
    };
    let Some(trigger) = trigger else {
        unreachable!()
    };
    let port = EinjPort::new(alloc, einj, trigger.table.first, trigger.cell.first)?;
    Ok(Some(port))
}

impl EinjSide {
    ghost use Rattle.fw_sim.specs.Platform.{side_injector};

    /// The machine that injects, where there is an injection table.
    pub fn into_injector(self) -> Option<EinjPort>
        ensures { result ≡ side_injector self }
    {
        self.injector
    }
}

impl Platform {
    ghost use Rattle.fw_sim.specs.Platform.{ports_in, injector_in, machine_in, side_injector, IsInjectedBy, LendsPort};

    /// The machine that has these tables, to which nothing has happened.
    ///
    /// It is refused as its map is.
    pub fn new(alloc: Global, hest: &Hest, einj: Option<&Einj>) -> Result<Platform, FwError>
        ensures found { IfOk result
            (λ platform. IsPlatformOf (enabled hest.now) (option_copied einj.entry) platform) }
        ensures refused { IfErr result
            (λ error. IsRefusedWith (enabled hest.now) (option_copied einj.entry) error) }
    {
        let map = match Map::of(alloc, hest, einj) {
            Ok(map) => map,
            Err(error) => return Err(error),
        };
        let sources = enabled_sources(alloc, hest.sources())?;
        Ok(Platform {
            ports: ports_of(alloc, &sources, &map.areas)?,
            injector: injector_of(alloc, einj, map.trigger)?,
        })
    }

    /// The port of a source, none where there is no source at this position.
    pub fn port(&mut self, source: usize) -> Option<&mut SourcePort>
        ensures* writes { sem 𝓛 (LendsPort self.entry source result) }
        ensures none { IsNone result ↔ (length (ports_in self.old) ≤ source) }
    {
        self.ports.get_mut(source)
    }

    /// The machine that injects, none where there is no injection table.
    pub fn injector(&mut self) -> Option<&mut EinjPort>
        ensures none { IsNone result ↔ IsNone (injector_in self.old) }
    {
        self.injector.as_mut()
    }

    /// Injects an error by the entries of a table, through the port of the machine that injects. None where there is no
    /// such machine.
    pub fn inject(
        &mut self,
        einj: &Einj,
        request: &Request,
    ) -> Option<Result<Injected, InjectError>>
        ensures does { IsInjectedBy einj.now request.now
            (machine_in self.old) result (machine_in self.new) }
        ensures ports { ports_in self.new ≡ ports_in self.old }
    {
        match &mut self.injector {
            Some(injector) => Some(einj.inject(request, injector)),
            None => None,
        }
    }

    /// Sets up the machine that injects, where there is one.
    pub fn set(&mut self, setup: &Setup)
        ensures machine { machine_in self.new ≡ option_map (set_up setup.now) (machine_in self.old) }
        ensures ports { ports_in self.new ≡ ports_in self.old }
    {
        if let Some(injector) = &mut self.injector {
            injector.set(setup);
        }
    }

    /// The ports of all sources, in order, and the rest of the machine.
    pub fn split(self) -> (EinjSide, Vec<SourcePort>)
        ensures ports { result.1.items ≡ ports_in self }
        ensures side { side_injector result.0 ≡ injector_in self }
    {
        (
            EinjSide {
                injector: self.injector,
            },
            self.ports,
        )
    }

    /// The machine whose ports these are.
    pub fn rejoin(side: EinjSide, ports: Vec<SourcePort>) -> Platform
        ensures ports { ports_in result ≡ ports.items }
        ensures side { injector_in result ≡ side_injector side }
    {
        Platform {
            ports,
            injector: side.injector,
        }
    }
}
