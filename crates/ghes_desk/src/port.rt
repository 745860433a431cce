//! The memory of one error source, and what a simulated machine does there beside the receiver.
ghost use Rattle.std.specs.Prelude.{◌≡◌, ◌<◌, ◌+◌, ◌-◌, ◌^◌, length, OnOk, OnErr};
ghost use Rattle.apei_base.specs.Firmware.{IsRaised};
ghost use Rattle.fw_port.specs.Port.{raised};
ghost use Rattle.ghes_desk.specs.Port.{IsPlanned, ack_cell_of};

use apei_base::Firmware;
use fw_port::SourcePort;
use std::alloc::AllocError;

/// The memory of one error source of a simulated machine, where firmware raises blocks and accesses fail on demand.
///
/// Source: own choice.
pub trait Port: Firmware {
    /// Firmware has a new block for the source, behind those that it has.
    fn raise(&mut self, block: &[u8]) -> Result<(), AllocError>
        requires raised { IsRaised block.now }
        requires few { length (Self.seen self.old).made + 1 < 2 ^ 32 - 1 }
        ensures ok { OnOk result (Self.seen self.new ≡ raised block.now (Self.seen self.old)) }
        ensures err { OnErr result (Self.seen self.new ≡ Self.seen self.old) }
        ensures faults { Self.faults self.new ≡ Self.faults self.old };

    /// The access of this number is to fail, counted from 1 for the next one.
    fn fail(&mut self, number: u64) -> Result<(), AllocError>
        ensures ok { OnOk result (IsPlanned (Self.seen self.old) (Self.seen self.new)) }
        ensures err { OnErr result (Self.seen self.new ≡ Self.seen self.old) }
        ensures faults { Self.faults self.new ≡ Self.faults self.old };

    /// What the read ack register holds, if there is one.
    fn ack_cell(&self) -> Option<u64>
        ensures { result ≡ ack_cell_of (Self.seen self.now) };

    /// How many blocks firmware has raised.
    fn raised(&self) -> u32
        ensures value { result ≡ length (Self.seen self.now).made }
        ensures few { result < 2 ^ 32 - 1 };

    /// How many of them are acknowledged.
    fn acknowledged(&self) -> u32
        ensures value { result ≡ (Self.seen self.now).acknowledged }
        ensures few { result < 2 ^ 32 - 1 };
}

impl Port for SourcePort {
    fn raise(&mut self, block: &[u8]) -> Result<(), AllocError> {
        SourcePort::raise(self, block)?;
        Ok(())
    }

    fn fail(&mut self, number: u64) -> Result<(), AllocError> {
        SourcePort::fail(self, number)
    }

    fn ack_cell(&self) -> Option<u64> {
        SourcePort::ack_cell(self)
    }

    fn raised(&self) -> u32 {
        SourcePort::raised(self)
    }

    fn acknowledged(&self) -> u32 {
        SourcePort::acknowledged(self)
    }
}
