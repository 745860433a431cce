//! A port of one source.
ghost use Rattle.std.specs.Prelude.{◌≡◌, ◌<◌, ◌+◌, ◌-◌, ◌^◌, Some, is_some, length, is_err, IsTrue, IfOk, OnOk, OnErr};
ghost use Rattle.apei_base.specs.Bus.{Reads, Copies, IsOneAccess, CountsFaults, reach_of, write_of};
ghost use Rattle.apei_base.specs.Firmware.{IsRaised};
ghost use Rattle.fw_port.specs.Port.{seen, accesses_of, faults_of, IsCounted};
ghost use Rattle.fw_port.specs.Source.{IsSourceStep, source_cells};

use crate::SourceLayout;
use crate::memory::SourceMemory;
use apei_base::{Bus, BusFault, Firmware, Region};
use apei_mem_bus::Attempts;
use std::alloc::{AllocError, Global};

/// The memory of one source, as firmware and receiver share it, some of whose accesses are to fail.
///
/// Firmware raises blocks, and each stands in the area until it is cleared. Of a source of version 1 the next block stands
/// at once then, and of one of version 2 only after the next write to its read ack register. Accesses are numbered from 1,
/// reads, writes and copies alike; one that is to fail changes nothing. Only a raise takes memory, and a fault that is
/// named.
/// Source: ACPI 6.5, 18.3.2.7 and 18.3.2.8. What the firmware does: Own choice.
#[derive(Drop)]
pub struct SourcePort {
    memory: SourceMemory,
    attempts: Attempts,
}

impl SourcePort {
    ghost use Rattle.fw_port.specs.Port.{layout_of, raised, cell_of, with_cell, with_named, IsUnused, IsOtherwiseSame, KeepsAccesses};

    /// The port of a source that nothing has happened to.
    #[tactic(auto, unfolding(fault_plan::specs::Plan::with_numbers))]
    pub fn new(alloc: Global, layout: SourceLayout) -> Result<SourcePort, AllocError>
        ensures { IfOk result (λ port. IsUnused port (layout_of layout)) }
    {
        Ok(SourcePort {
            memory: SourceMemory::new(alloc, layout),
            attempts: Attempts::new(alloc, &[])?,
        })
    }

    /// Firmware raises a block: it is the last of its source's. Answers its number, from 1 on.
    ///
    /// After an error nothing has changed.
    pub fn raise(&mut self, block: &[u8]) -> Result<u32, AllocError>
        requires block { IsRaised block.now }
        requires few { length (seen self.old).made + 1 < 2 ^ 32 - 1 }
        ensures number { IfOk result (λ number. number ≡ length (seen self.old).made + 1) }
        ensures ok { OnOk result (seen self.new ≡ raised block.now (seen self.old)) }
        ensures err { OnErr result (seen self.new ≡ seen self.old) }
        ensures kept { KeepsAccesses self.old self.new }
    {
        self.memory.raise(block)?;
        Ok(self.raised())
    }

    /// How many blocks were raised.
    pub fn raised(&self) -> u32
        ensures { result ≡ length (seen self.now).made }
    {
        self.memory.made.len() as u32
    }

    /// How many blocks are acknowledged.
    pub fn acknowledged(&self) -> u32
        ensures value { result ≡ (seen self.now).acknowledged }
        ensures few { result < 2 ^ 32 - 1 }
    {
        self.memory.acknowledged as u32
    }

    /// What the read ack register holds, none for a source of version 1.
    pub fn ack_cell(&self) -> Option<u64>
        ensures { result ≡ cell_of (seen self.now).layout.ack (seen self.now).cell }
    {
        match &self.memory.layout.ack {
            Some(_) => Some(self.memory.cell),
            None => None,
        }
    }

    /// The read ack register holds the low bits of a value, as many as it is wide. That is no access.
    pub fn set_ack_cell(&mut self, value: u64)
        requires { IsTrue (is_some (seen self.old).layout.ack) }
        ensures cell { seen self.new ≡ with_cell value (seen self.old) }
        ensures kept { KeepsAccesses self.old self.new }
    {
        if let Some(ack) = self.memory.layout.ack {
            self.memory.set_cell(&ack, value);
        }
    }

    /// Names the n-th access from here on as one that is to fail.
    ///
    /// One that was named already is not named twice. There is no access past number 2^64 - 1. After an error nothing has
    /// changed.
    pub fn fail(&mut self, n: u64) -> Result<(), AllocError>
        ensures ok { OnOk result (accesses_of self.new ≡ with_named n (accesses_of self.old)) }
        ensures err { OnErr result (accesses_of self.new ≡ accesses_of self.old) }
        ensures kept { IsOtherwiseSame self.old self.new }
    {
        if n == 0 {
            return Ok(());
        }
        match self.attempts.made().checked_add(n) {
            Some(number) => self.attempts.add(number),
            None => Ok(()),
        }
    }
}

impl Bus for SourcePort {
    ghost use Rattle.apei_base.specs.Firmware.{Seen};
    ghost use Rattle.fw_port.specs.SourceLaws.{none_mapped};

    ghost State = { Seen };

    ghost state = { seen };

    ghost step = { IsSourceStep };

    ghost cells = { λ state. Some (source_cells state) };

    ghost faults = { faults_of };

    ghost answers = { λ before after access step. step.answers };

    ghost unmapped = { none_mapped };

    fn read(&mut self, at: &Region) -> Result<u64, BusFault>
        ensures access { IsOneAccess IsSourceStep (Reads (reach_of at.now))
            (seen self.old) result (seen self.new) }
        ensures fits { IfOk result (λ value. value < 2 ^ at.now.width) }
        ensures count { CountsFaults result (faults_of self.old) (faults_of self.new) }
        ensures counted { IsCounted self.old self.new (is_err result) }
    {
        self.attempts.begin()?;
        Ok(self.memory.read(at))
    }

    fn write(&mut self, at: &Region, value: u64) -> Result<(), BusFault>
        ensures access { IsOneAccess IsSourceStep (λ _. write_of at.now value)
            (seen self.old) result (seen self.new) }
        ensures count { CountsFaults result (faults_of self.old) (faults_of self.new) }
        ensures counted { IsCounted self.old self.new (is_err result) }
    {
        self.attempts.begin()?;
        // An access that is to fail ends above, and writes nothing.
        self.memory.write(at, value);
        Ok(())
    }

    fn copy(&mut self, address: u64, skip: usize, into: &mut [u8]) -> Result<(), BusFault>
        ensures access { IsOneAccess IsSourceStep (λ _. Copies (address + skip) into.new)
            (seen self.old) result (seen self.new) }
        ensures kept { OnErr result (into.new ≡ into.old) }
        ensures count { CountsFaults result (faults_of self.old) (faults_of self.new) }
        ensures counted { IsCounted self.old self.new (is_err result) }
    {
        self.attempts.begin()?;
        self.memory.copy(u128::from(address) + skip as u128, into);
        Ok(())
    }
}

impl Firmware for SourcePort {
    ghost use Rattle.apei_mem_bus.specs.FaultyLaws.{few_planned};
    ghost use Rattle.fw_port.specs.SourceLaws.{answered, looks_keep, port_sound};

    ghost seen = { seen };

    ghost same = { λ one other equal. equal };

    ghost moves = { λ before after access step. (answered (seen before) access before.memory.layout.is before.memory.is.fits step.answers, step.leaves) };

    ghost looks = { λ before after access step look. looks_keep _ _ access step look };

    ghost sound = { λ port. port_sound port.memory.is (few_planned port.attempts.plan port.attempts.are_due) };
}
