//! Blocks are raised.
ghost use Rattle.std.specs.Prelude.{◌≡◌, ◌≤◌, ◌<◌, ◌+◌, ◌-◌, None, option_map, length, IfSome, IfOk, IfErr, OnOk, OnErr};
ghost use Rattle.apei_base.specs.Firmware.{IsRaised};
ghost use Rattle.fw_einj.specs.Block.{block_of};
ghost use Rattle.fw_einj.specs.Machine.{settled};
ghost use Rattle.fw_sim.specs.Raise.{blocks_in, length_refusal, raise_refusal, IsRefused, IsRaisedAt, IsNumberAt, AreSamePorts};

use crate::{Platform, RaiseError};
use apei_base::Bytes;
use fw_einj::{Made, an_injected_block_is_well_formed, injected_block};
use fw_port::SourcePort;
use std::alloc::AllocError;

/// How long a block is at most, in bytes.
const LONGEST: usize = 65_536;

/// How many blocks a machine has at most.
const MOST: u32 = 65_536;

// How many blocks more there may be.
fn room_left(ports: &[SourcePort]) -> u32
    ensures { result ≡ 65536 - blocks_in ports.now }
{
    let mut left = MOST;
    for port in ports {
        left = left.saturating_sub(port.raised());
    }
    left
}

// Why a block of so many bytes is not raised.
fn refusal(ports: &[SourcePort], source: usize, bytes: usize) -> Option<RaiseError>
    ensures value { result ≡ length_refusal ports.now source bytes }
    ensures refused { IfSome result (IsRefused (length_refusal ports.now source bytes)) }
{
    if source >= ports.len() {
        Some(RaiseError::NoSource)
    } else if bytes > LONGEST {
        Some(RaiseError::TooLong)
    } else if room_left(ports) == 0 {
        Some(RaiseError::Full)
    } else {
        None
    }
}

// Raises a block for the source at a position, where it is not refused.
fn raise_at(ports: &mut Vec<SourcePort>, source: usize, block: &[u8]) -> Result<u32, AllocError>
    requires raised { IsRaised block.now }
    requires within { source < length ports.old.items }
    requires few { blocks_in ports.old.items < 65536 }
    ensures number { IfOk result (IsNumberAt ports.new.items source) }
    ensures ok { OnOk result (IsRaisedAt ports.old.items source block.now ports.new.items) }
    ensures err { OnErr result (AreSamePorts ports.old.items ports.new.items) }
{
    ports[source].raise(block)
}

impl Platform {
    ghost use Rattle.fw_sim.specs.Platform.{ports_in, injector_in, machine_in};
    ghost use Rattle.fw_sim.specs.Raise.{made_by, IsSettled, IsSettleRefused};

    /// Firmware raises a block for a source. Answers its number in its source, from 1 on.
    ///
    /// After a refusal nothing has changed.
    pub fn raise(&mut self, source: usize, block: &[u8]) -> Result<u32, RaiseError>
        requires { IsRaised block.now }
        ensures accepted { OnOk result (raise_refusal (ports_in self.old) source block.now ≡ None) }
        ensures refused { IfErr result
            (IsRefused (raise_refusal (ports_in self.old) source block.now)) }
        ensures number { IfOk result (IsNumberAt (ports_in self.new) source) }
        ensures ok { OnOk result
            (IsRaisedAt (ports_in self.old) source block.now (ports_in self.new)) }
        ensures err { OnErr result (AreSamePorts (ports_in self.old) (ports_in self.new)) }
        ensures kept { injector_in self.new ≡ injector_in self.old }
    {
        if let Some(error) = refusal(&self.ports, source, block.len()) {
            return Err(error);
        }
        match raise_at(&mut self.ports, source, block) {
            Ok(number) => Ok(number),
            Err(AllocError) => Err(RaiseError::OutOfMemory),
        }
    }

    // What the last trigger made, none where nothing was made since it was settled.
    fn made(&self) -> Option<Made>
        ensures { result ≡ made_by (machine_in self.now) }
    {
        match &self.injector {
            Some(injector) => injector.made(),
            None => None,
        }
    }

    // What the last trigger made is settled.
    fn take_made(&mut self)
        ensures ports { ports_in self.new ≡ ports_in self.old }
        ensures machine { machine_in self.new ≡ option_map settled (machine_in self.old) }
    {
        if let Some(injector) = &mut self.injector {
            injector.take_made();
        }
    }

    // The block of what was made, where it is not refused.
    fn made_block(&self, made: &Made) -> Result<Bytes, RaiseError>
        ensures found { IfOk result (λ block. block ≡ block_of made.now.injection) }
        ensures raised { IfOk result (λ block. IsRaised block) }
        ensures refused { IfErr result (IsRefused
            (raise_refusal (ports_in self.now) made.now.source (block_of made.now.injection))) }
    {
        an_injected_block_is_well_formed();
        if let Some(error) = refusal(&self.ports, made.source, 0) {
            return Err(error);
        }
        match injected_block(*self.ports.allocator(), &made.injection) {
            Ok(block) => Ok(block),
            Err(AllocError) => Err(RaiseError::OutOfMemory),
        }
    }

    /// Firmware raises the block that the last injection made, if it made one since the last time. Answers the position of
    /// its source and its number there.
    ///
    /// After a refusal nothing has changed. A block of an injection is never too long.
    pub fn settle(&mut self) -> Result<Option<(usize, u32)>, RaiseError>
        ensures settled { IfOk result (IsSettled (made_by (machine_in self.old))
            (ports_in self.old) (ports_in self.new) (machine_in self.old) (machine_in self.new)) }
        ensures refused { IfErr result
            (IsSettleRefused (made_by (machine_in self.old)) (ports_in self.old)) }
        ensures err { OnErr result (AreSamePorts (ports_in self.old) (ports_in self.new)) }
        ensures kept { OnErr result (machine_in self.new ≡ machine_in self.old) }
    {
        let Some(made) = self.made() else {
            return Ok(None);
        };
        let block = match self.made_block(&made) {
            Ok(block) => block,
            Err(error) => return Err(error),
        };
        let number = match self.raise(made.source, block.as_slice()) {
            Ok(number) => number,
            Err(error) => return Err(error),
        };
        self.take_made();
        Ok(Some((made.source, number)))
    }
}
