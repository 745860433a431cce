//! What the callers call on, made before.
ghost use Rattle.std.specs.Prelude.{◌≡◌, ◌<◌, ◌-◌, ◌^◌, ℕ};
ghost use Rattle.apei_base.specs.Firmware.{IsRaised};
ghost use Rattle.ghes_call.specs.Receive.{IsOfSource};
ghost use Rattle.ghes_nmi.specs.Receive.{receive_seen};
ghost use Rattle.ghes_rule.specs.Kept.{first_pass};
ghost use Rattle.ghes_rule.specs.Seen.{pass_seen};
ghost use Rattle.nmi_bench.specs.Memory.{port_layout};

use crate::caller::Caller;
use crate::port::{ACK, AREA, Port, STATUS};
use apei_base::Region;
use ghes_context::{AckRule, Context, Receive};
use ghes_rule::{Pass, Shared};
use ghes_throttle::ThrottleReader;
use std::alloc::{AllocError, Global};

/// How many bytes a block has at most.
pub const LIMIT: usize = 4096;

/// How many slots there are.
pub const SLOTS: usize = 16;

/// The length of each block in bytes.
pub const LONG: usize = 164;

/// A corrected error in one entry, 164 bytes.
pub fn block() -> [u8; LONG]
    ensures { IsRaised result }
{
    let mut block = [0u8; LONG];
    block[0] = 0x12;
    block[12] = 144;
    block[16] = 2;
    block[44] = 80;
    block
}

// The memory of a source with a read ack register that is to raise so many blocks.
pub(crate) fn port(raised: usize) -> Port
    requires few { raised < 2 ^ 32 - 1 }
    ensures { result.acknowledged ≡ 0 }
{
    Port {
        block: block(),
        raised,
        acknowledged: 0,
        waits: false,
        stands: raised > 0,
        status: if raised > 0 { AREA } else { 0 },
        cell: 0,
    }
}

// How such a source is received.
pub(crate) fn received() -> Receive
    ensures source { IsOfSource (receive_seen result) port_layout }
    ensures limit { result.limit ≡ 4096 }
{
    Receive {
        status: Region::memory(STATUS, 64),
        limit: LIMIT as u32,
        ack: Some(AckRule {
            register: Region::memory(ACK, 32),
            bit_offset: 0,
            preserve: 0xffff_fffe,
            write: 1,
        }),
    }
}

/// A context that is to make so many calls on the source of its number, which is to raise so many blocks.
pub fn caller(
    alloc: Global,
    shared: &Shared,
    pass: Pass,
    reader: ThrottleReader,
    raised: usize,
    calls: usize,
) -> Result<Caller<'_>, AllocError>
    requires pass { (n : ℕ) × (n < 4) × (pass ≡ pass_seen shared.now (first_pass 4096 16 n)) }
    requires raised { raised < 2 ^ 32 - 1 }
    requires calls { calls < 2 ^ 32 }
{
    let source = pass.number() as usize;
    let sources = [received(); 4];
    let Ok(mut context) = Context::new(alloc, source as u16, pass, reader, &sources, LIMIT) else {
        return Err(AllocError);
    };
    context.reserve(calls)?;
    Ok(Caller {
        shared,
        context,
        source,
        port: port(raised),
        left: calls,
    })
}
