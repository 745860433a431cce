//! What the machine does after a read and after a write: it counts down, and is triggered.
ghost use Rattle.std.specs.Prelude.{◌≡◌, ◌%◌, ◌^◌, ◌<◌, ◌&&◌, nat_lt};
ghost use Rattle.std.specs.Bool.{OnTrue};
ghost use Rattle.apei_base.specs.Bus.{reach_of};
ghost use Rattle.apei_einj.specs.Action.{entry_reach};
ghost use Rattle.fw_einj.specs.Field.{shares};
ghost use Rattle.fw_einj.specs.Machine.{machine_of};

use crate::field::shares;
use crate::{Class, EinjPort, Injection, Made, Register};
use apei_base::Region;

impl Class {
    ghost use Rattle.fw_einj.specs.Machine.{class_index};

    // The position of the class among the routes.
    fn index(self) -> usize
        ensures value { result ≡ class_index self }
        ensures within { result < 4 }
    {
        match self {
            Class::Processor => 0,
            Class::Memory => 1,
            Class::Pcie => 2,
            Class::Platform => 3,
        }
    }
}

impl Register {
    ghost use Rattle.fw_einj.specs.Machine.{busy_value, idle_value};

    /// What the busy field is set to while the machine is busy.
    pub(crate) fn busy_value(&self) -> u64
        ensures { result ≡ busy_value self.now }
    {
        if self.entry.instruction == 0 {
            1
        } else {
            self.entry.value
        }
    }

    /// What the busy field is set to where the machine is not busy.
    pub(crate) fn idle_value(&self) -> u64
        ensures { result ≡ idle_value self.now }
    {
        if self.entry.instruction == 0 {
            0
        } else {
            u64::MAX - self.entry.value
        }
    }
}

impl EinjPort {
    ghost use Rattle.fw_einj.specs.Machine.{made_of, trigger_reach, triggered_by, is_triggered, after_trigger, written, counted_down, after_read};

    /// Writes a value to a region.
    pub(crate) fn put(&mut self, at: &Region, value: u64)
        ensures { machine_of self.new
            ≡ written (reach_of at.now) (value % 2 ^ at.now.width) (machine_of self.old) }
    {
        self.cells.write(at, value);
    }

    // One read less finds the machine busy.
    fn count(&mut self)
        requires { 0 < self.old.busy }
        ensures { machine_of self.new ≡ counted_down (machine_of self.old) }
    {
        let value = self.board.busy.idle_value();
        self.busy -= 1;
        if self.busy == 0 {
            self.board.busy.set_field(&mut self.cells, value);
        }
    }

    // Whether a read of a region asks whether the machine is busy, and it is.
    fn is_asked(&self, at: &Region) -> bool
        ensures value { result ≡ (shares (reach_of at.now) (entry_reach self.now.board.busy.entry)
            && nat_lt 0 self.now.busy) }
        ensures some { OnTrue result (0 < self.now.busy) }
    {
        shares(at, &self.board.busy.region()) && self.busy > 0
    }

    /// Counts down, where a read of a region asked whether the machine is busy.
    #[tactic(auto, unfolding(crate::specs::Machine::after_read))]
    pub(crate) fn count_down(&mut self, at: &Region)
        ensures { machine_of self.new ≡ after_read (reach_of at.now) (machine_of self.old) }
    {
        if self.is_asked(at) {
            self.count();
        }
    }

    // The trigger cell.
    fn trigger_region(&self) -> Region
        ensures { reach_of result ≡ trigger_reach (machine_of self.now) }
    {
        Region::memory(self.board.cell, 32)
    }

    // What a trigger makes of an injection.
    fn made_of(&self, injection: Injection) -> Made
        ensures { result ≡ made_of self.now.setup injection }
    {
        Made {
            source: self.setup.routes[Class::of(injection.error).index()],
            injection,
        }
    }

    // Makes what the machine is armed with.
    fn fire(&mut self)
        ensures { machine_of self.new ≡ triggered_by self.old.armed (machine_of self.old) }
    {
        match self.armed {
            None => {}
            Some(injection) => {
                let made = self.made_of(injection);
                self.put(&self.trigger_region(), 0);
                self.armed = None;
                self.made = Some(made);
            }
        }
    }

    // Whether a write to a region triggered.
    #[tactic(auto, unfolding(crate::specs::Machine::is_triggered))]
    fn is_triggered(&self, at: &Region) -> bool
        ensures { result ≡ is_triggered (reach_of at.now) (machine_of self.now) }
    {
        let cell = self.trigger_region();
        shares(at, &cell) && self.cells.read(&cell) == 1
    }

    /// Makes what the machine is armed with, where a write to a region triggered.
    #[tactic(auto, unfolding(crate::specs::Machine::after_trigger))]
    pub(crate) fn trigger(&mut self, at: &Region)
        ensures { machine_of self.new ≡ after_trigger (reach_of at.now) (machine_of self.old) }
    {
        if self.is_triggered(at) {
            self.fire();
        }
    }
}
