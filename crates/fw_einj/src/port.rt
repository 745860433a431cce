//! The port of the machine that injects: what it holds, and its accesses.
ghost use Rattle.std.specs.Prelude.{◌≡◌, ◌%◌, ◌^◌, ◌+◌, ℕ, None, Some, length, IfOk, OnErr};
ghost use Rattle.apei_base.specs.Bus.{Reads, Copies, IsOneAccess, CountsFaults, reach_of, write_of};
ghost use Rattle.fw_einj.specs.Machine.{machine_of};

use crate::{Board, Injection, Setup};
use apei_base::{Bus, BusFault, Region};
use fw_cells::Cells;

/// What a trigger made: an error that is told by the source at a position.
#[derive(Clone, Copy, Debug, PartialEq, Eq)]
pub struct Made {
    pub source: usize,
    pub injection: Injection,
}

/// The machine that injects, as its driver reaches it. No access fails, and none takes memory.
///
/// Source: own choice.
#[derive(Drop)]
pub struct EinjPort {
    pub(crate) board: Board,
    pub(crate) setup: Setup,
    pub(crate) cells: Cells,
    pub(crate) busy: u32,
    pub(crate) armed: Option<Injection>,
    pub(crate) made: Option<Made>,
}

impl EinjPort {
    ghost use Rattle.fw_einj.specs.Machine.{set_up, settled};

    /// Sets the machine up: which types can be injected, how it answers, and which sources tell.
    #[tactic(auto, unfolding(crate::specs::Machine::set_up))]
    pub fn set(&mut self, setup: &Setup)
        ensures { machine_of self.new ≡ set_up setup.now (machine_of self.old) }
    {
        self.setup = *setup;
        self.board
            .types
            .set_field(&mut self.cells, u64::from(setup.available));
    }

    /// What the last trigger made, none where it was taken, or none has made anything.
    pub fn made(&self) -> Option<Made>
        ensures { result ≡ (machine_of self.now).made }
    {
        self.made
    }

    /// Takes what the last trigger made.
    #[tactic(auto, unfolding(crate::specs::Machine::settled))]
    pub fn take_made(&mut self) -> Option<Made>
        ensures value { result ≡ (machine_of self.old).made }
        ensures taken { machine_of self.new ≡ settled (machine_of self.old) }
    {
        let made = self.made;
        self.made = None;
        made
    }
}

impl Bus for EinjPort {
    ghost use Rattle.fw_einj.specs.Machine.{Machine, IsMachineStep};
    ghost use Rattle.fw_einj.specs.BusLaws.{machine_answers, machine_unmapped};

    ghost State = { Machine };

    ghost state = { machine_of };

    ghost step = { IsMachineStep };

    ghost cells = { λ machine. Some machine.cells };

    ghost faults = { λ _. 0 };

    ghost answers = { machine_answers };

    ghost unmapped = { machine_unmapped };

    fn read(&mut self, at: &Region) -> Result<u64, BusFault> {
        let value = self.cells.read(at);
        self.count_down(at);
        Ok(value)
    }

    fn write(&mut self, at: &Region, value: u64) -> Result<(), BusFault> {
        self.put(at, value);
        self.obey(at);
        self.trigger(at);
        Ok(())
    }

    fn copy(&mut self, address: u64, skip: usize, into: &mut [u8]) -> Result<(), BusFault> {
        self.cells.copy(address, skip, into);
        Ok(())
    }
}
