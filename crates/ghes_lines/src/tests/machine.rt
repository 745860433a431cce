//! A machine of three sources, and what makes its injections.
ghost use Rattle.std.specs.Prelude.{◌≡◌, ◌-◌, ℕ, length, IfOk};
ghost use Rattle.fw_port.specs.Port.{seen};
ghost use Rattle.ghes_lines.specs.Machine.{FitsSource, IsMachine};
ghost use Rattle.ghes_lines.specs.Run.{AreFresh, IsFresh};

use crate::{Injected, Injector, Machine, Source};
use apei_base::{Bytes, u32_at};
use apei_einj::Request;
use fw_port::{SourceLayout, SourcePort};
use ghes_ledger::InjectionEnd;
use ghes_nmi::{AckRule, Receive};
use std::alloc::{AllocError, Global};

// The status address registers, and the read ack register.
#[rattlefmt::skip]
mod at {
    use apei_base::{Region, Space};

    pub const FIRST: Region = Region { space: Space::Memory, address: 0x7f00_0000, width: 64 };
    pub const SECOND: Region = Region { space: Space::Memory, address: 0x7f00_0100, width: 64 };
    pub const THIRD: Region = Region { space: Space::Memory, address: 0x7f00_0200, width: 64 };
    pub const ACK: Region = Region { space: Space::Memory, address: 0x7f00_1000, width: 32 };
}

fn first(alloc: Global) -> Result<(Source, SourcePort), AllocError>
    ensures { IfOk result (λ made. IsFresh made.0 (seen made.1) × FitsSource 2 4096 made.0) }
{
    let layout = SourceLayout {
        status: at::FIRST,
        area: 0x1000_0000,
        room: 4096,
        ack: None,
    };
    let receive = Receive {
        status: at::FIRST,
        limit: 4096,
        ack: None,
    };
    let source = Source {
        id: 1,
        receive,
        server: 0,
        cell: 0,
    };
    Ok((source, SourcePort::new(alloc, layout)?))
}

fn second(alloc: Global) -> Result<(Source, SourcePort), AllocError>
    ensures { IfOk result (λ made. IsFresh made.0 (seen made.1) × FitsSource 2 4096 made.0) }
{
    let layout = SourceLayout {
        status: at::SECOND,
        area: 0x1001_0000,
        room: 4096,
        ack: None,
    };
    let receive = Receive {
        status: at::SECOND,
        limit: 4096,
        ack: None,
    };
    let source = Source {
        id: 2,
        receive,
        server: 1,
        cell: 0,
    };
    Ok((source, SourcePort::new(alloc, layout)?))
}

fn third(alloc: Global) -> Result<(Source, SourcePort), AllocError>
    ensures { IfOk result (λ made. IsFresh made.0 (seen made.1) × FitsSource 2 4096 made.0) }
{
    let layout = SourceLayout {
        status: at::THIRD,
        area: 0x1002_0000,
        room: 4096,
        ack: Some(at::ACK),
    };
    let rule = AckRule {
        register: at::ACK,
        bit_offset: 0,
        preserve: 0xffff_fffe,
        write: 1,
    };
    let receive = Receive {
        status: at::THIRD,
        limit: 4096,
        ack: Some(rule),
    };
    let source = Source {
        id: 3,
        receive,
        server: 0,
        cell: 0xabcd_00f0,
    };
    let mut port = SourcePort::new(alloc, layout)?;
    port.set_ack_cell(0xabcd_00f0);
    Ok((source, port))
}

// The machine of these sources, where so many packets may be pending, and their memories.
pub(super) fn three_sources(
    alloc: Global,
    slots: u8,
) -> Result<(Machine, Vec<SourcePort>), AllocError>
    ensures machine { IfOk result (λ made. IsMachine 4096 made.0) }
    ensures three { IfOk result (λ made. length made.0.sources.items ≡ 3) }
    ensures fresh { IfOk result (λ made. AreFresh seen made.0 made.1.items) }
{
    let (first, first_port) = first(alloc)?;
    let (second, second_port) = second(alloc)?;
    let (third, third_port) = third(alloc)?;
    let ports = vec![in alloc; first_port, second_port, third_port]?;
    let machine = Machine {
        sources: vec![in alloc; first, second, third]?,
        contexts: 2,
        slots,
    };
    Ok((machine, ports))
}

// Its first injections, so many, make a block for source 2; each later one ends as busy.
#[derive(Drop)]
pub(super) struct Sample {
    pub(super) alloc: Global,
    pub(super) left: u8,
}

impl Injector for Sample {
    ghost sources = { λ _. 3 };

    ghost State = { ℕ };

    ghost state = { λ s. s.left };

    ghost does = { λ before _ _ after. after ≡ before - 1 };

    fn inject(&mut self, _request: &Request) -> Result<Injected, AllocError> {
        let alloc = self.alloc;
        let some = 0 < self.left;
        self.left = self.left.saturating_sub(1);
        let mut block = vec![in alloc; 0u8; 20]?;
        block[0] = 2;
        block[16] = 2;
        if some && u32_at(&block, 0) != 0 {
            return Ok(Injected::Made {
                source: 1,
                block: Bytes(block),
            });
        }
        Ok(Injected::Ended(InjectionEnd::Busy))
    }
}
