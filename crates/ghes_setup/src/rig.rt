//! A machine that is ready for the first line of a script.
ghost use Rattle.std.specs.Prelude.{◌≡◌, IfOk};
ghost use Rattle.apei_hest.specs.Refusal.{enabled};
ghost use Rattle.fw_sim.specs.Platform.{IsPlatformOf, machine_in};
ghost use Rattle.ghes_setup.specs.Machine.{AreAllowedFor};
ghost use Rattle.ghes_setup.specs.Rig.{IsRigOf};

use crate::describing::machine;
use crate::injecting::Injecting;
use crate::ports::set_cells;
use crate::settings::setup;
use apei_einj::Einj;
use apei_hest::Hest;
use fw_port::SourcePort;
use fw_sim::Platform;
use ghes_lines::Machine;
use ghes_script::Line;
use std::alloc::{AllocError, Global};

/// A machine that is ready for the first line of a script: what its tables and settings say, the memory of its sources, and
/// what makes its injections.
#[derive(Drop)]
pub struct Rig {
    pub machine: Machine,
    pub ports: Vec<SourcePort>,
    pub injecting: Injecting,
}

impl Rig {
    /// The machine of these tables, set up by the settings of a script.
    ///
    /// The script was read for the sources of the table. Source: own choice.
    pub fn new(
        alloc: Global,
        hest: &Hest,
        einj: Option<Einj>,
        platform: Platform,
        lines: &[Line],
    ) -> Result<Rig, AllocError>
        requires platform { IsPlatformOf (enabled hest.now) einj platform }
        requires allowed { AreAllowedFor (enabled hest.now) lines.now }
        ensures { IfOk result (IsRigOf (enabled hest.now) einj (machine_in platform) lines.now) }
    {
        let machine = machine(alloc, hest, lines)?;
        let mut platform = platform;
        platform.set(&setup(lines));
        let (side, ports) = platform.split();
        let mut ports = ports;
        set_cells(&machine, &mut ports);
        let sources = machine.sources.len() as u16;
        Ok(Rig {
            injecting: Injecting::new(alloc, sources, einj, side.into_injector()),
            machine,
            ports,
        })
    }
}
