//! Sources of version 2 with their ports, and the context of one.
ghost use Rattle.std.specs.Prelude.{◌≡◌, ◌+◌, ◌^◌, ◌<◌, ◌≤◌, ◌∷◌, [], None, length, IfOk, OnOk};
ghost use Rattle.apei_base.specs.Firmware.{IsRaised};
ghost use Rattle.fw_port.specs.Port.{seen};
ghost use Rattle.ghes_call.specs.Receive.{IsOfSource};
ghost use Rattle.ghes_rule.specs.declared.views.Stage.TheVariants.{Idle};
ghost use Rattle.ghes_rule.specs.Kept.{first_pass};
ghost use Rattle.ghes_rule.specs.Seen.{AreFirst, pass_seen};
ghost use Rattle.ghes_nmi.specs.Receive.{receive_seen};
ghost use Rattle.ghes_context.specs.Nmi.{IsPortOf};

use apei_base::{Bytes, Firmware, Region, Space, u32_at};
use fw_port::{SourceLayout, SourcePort};
use ghes_call::Reply;
use ghes_context::{AckRule, Context, Receive};
use ghes_rule::{Pass, Shared};
use ghes_steps::Steps;
use ghes_throttle::ThrottleReader;
use std::alloc::{AllocError, Global};
use std::process::Abort;
use std::sync::ledger::Ledger;

// How many bytes a block has at most.
pub(super) const LIMIT: usize = 4096;

// A corrected memory error in one entry: 164 bytes.
pub(super) const BLOCK: &str = "1200000000000000000000009000000002000000\
    1411bca5646fde4eb8633e83ed7c83b1\
    020000000102000050000000\
    000000000000000000000000000000000000000000000000000000000000000000000000\
    06400000000000000000000000000000005034120000000000f0ffffffffffff\
    00000000000000000000000000000000000000000000000000000000000000000000000000000000\
    0200000000000000";

// Blocks of 20 bytes: a fatal one, and one whose raw part ends past 4,096 bytes.
pub(super) const FATAL: &str = "0100000000000000000000000000000001000000";

pub(super) const TOO_LONG: &str = "0200000014000000ed0f00000000000002000000";

const STATUS: Region = Region {
    space: Space::Memory,
    address: 0x7f00_0008,
    width: 64,
};

const ACK: Region = Region {
    space: Space::Memory,
    address: 0x7f00_1000,
    width: 32,
};

// What the read ack register holds at first. A call sets its lowest bit.
pub(super) const CELL: u64 = 0xabcd_00f0;

// The port of a source that nothing has happened to, and how the source is received.
fn source(alloc: Global) -> Result<(SourcePort, Receive), AllocError>
    ensures source { IfOk result (λ made. IsOfSource (receive_seen made.1) (seen made.0).layout) }
    ensures limit { IfOk result (λ made. made.1.limit ≡ 4096) }
    ensures none { IfOk result (λ made. ((seen made.0).made ≡ []) × ((seen made.0).acknowledged ≡ 0)) }
{
    let layout = SourceLayout {
        status: STATUS,
        area: 0x1000_0000,
        room: LIMIT as u32,
        ack: Some(ACK),
    };
    let rule = AckRule {
        register: ACK,
        bit_offset: 0,
        preserve: 0xffff_fffe,
        write: 1,
    };
    let receive = Receive {
        status: STATUS,
        limit: LIMIT as u32,
        ack: Some(rule),
    };
    let mut port = SourcePort::new(alloc, layout)?;
    port.set_ack_cell(CELL);
    Ok((port, receive))
}

// Firmware raises a block twice.
fn raise_twice(port: &mut SourcePort, block: &[u8]) -> Result<(), AllocError>
    requires block { IsRaised block.now }
    requires none { (seen port.old).made ≡ [] }
    ensures layout { OnOk result ((seen port.new).layout ≡ (seen port.old).layout) }
    ensures acknowledged { OnOk result ((seen port.new).acknowledged ≡ (seen port.old).acknowledged) }
{
    port.raise(block)?;
    port.raise(block)?;
    Ok(())
}

// The port of a source that raised this block twice, of which the access of this number is to fail, 0 for none; and how the source
// is received.
pub(super) fn placed(
    alloc: Global,
    block: &[u8],
    failing: u64,
) -> Result<(SourcePort, Receive), AllocError>
    requires { IsRaised block.now }
    ensures source { IfOk result (λ made. IsOfSource (receive_seen made.1) (seen made.0).layout) }
    ensures limit { IfOk result (λ made. made.1.limit ≡ 4096) }
    ensures none { IfOk result (λ made. (seen made.0).acknowledged ≡ 0) }
{
    let (mut port, receive) = source(alloc)?;
    raise_twice(&mut port, block)?;
    port.fail(failing)?;
    Ok((port, receive))
}

// The block of these digits, which firmware can raise.
pub(super) fn raised<R: Abort>(rt: &R, alloc: Global, digits: &str) -> Bytes
    ensures { IsRaised result }
{
    let bytes = hex::decode(alloc, digits).expect(rt, "hex digits");
    assert!(rt; bytes.len() >= 20, "a block has a header");
    assert!(rt; u32_at(&bytes, 0) != 0, "a block has a status");
    Bytes(bytes)
}

// The last of the passes at the start.
pub(super) fn last<R: Abort>(rt: &R, shared: &Shared, passes: &mut Vec<Pass>) -> Pass
    requires { AreFirst shared.now 4096 shared.now.slots (length passes.old.items) passes.old.items }
    ensures rest { AreFirst shared.now 4096 shared.now.slots (length passes.new.items) passes.new.items }
    ensures count { length passes.old.items ≡ length passes.new.items + 1 }
    ensures pass { result ≡ pass_seen shared.now (first_pass 4096 shared.now.slots (length passes.new.items)) }
{
    passes.pop().expect(rt, "a pass")
}

// A context of one source, with room for two calls.
fn seated<R: Abort>(
    rt: &R,
    alloc: Global,
    pass: Pass,
    reader: ThrottleReader,
    receive: Receive,
) -> Context
    requires idle { (pass.view.stage ≡ Idle) × (pass.view.fatal ≡ None) × (pass.view.claims ≡ []) }
    requires number { pass.view.number < 2 ^ 16 }
    requires long { (pass.view.room ≡ 4096) × (receive.limit ≡ 4096) }
    ensures pass { result.pass ≡ pass }
    ensures sources { (result.sources ≡ receive ∷ []) × (result.acknowledged ≡ 0 ∷ []) }
    ensures room { (result.calls ≡ []) × (2 ≤ result.room) }
{
    let number = pass.number() as u16;
    match Context::new(alloc, number, pass, reader, &[receive], LIMIT) {
        Ok(mut context) => match context.reserve(2) {
            Ok(()) => context,
            Err(_) => panic!(rt; "memory for two calls"),
        },
        Err(_) => panic!(rt; "memory for a context"),
    }
}

// The context of the source of this port.
pub(super) fn seated_at<R: Abort>(
    rt: &R,
    alloc: Global,
    port: &SourcePort,
    pass: Pass,
    reader: ThrottleReader,
    receive: Receive,
) -> Context
    requires idle { (pass.view.stage ≡ Idle) × (pass.view.fatal ≡ None) × (pass.view.claims ≡ []) }
    requires number { pass.view.number < 2 ^ 16 }
    requires long { (pass.view.room ≡ 4096) × (receive.limit ≡ 4096) }
    requires source { IsOfSource (receive_seen receive) (seen port.now).layout }
    requires none { (seen port.now).acknowledged ≡ 0 }
    ensures pass { result.pass ≡ pass }
    ensures port { IsPortOf result 0 (seen port.now) }
    ensures sources { 0 < length result.sources }
    ensures room { (result.calls ≡ []) × (2 ≤ result.room) }
{
    seated(rt, alloc, pass, reader, receive)
}

// A call at time 0 on the one source of a context.
pub(super) fn called<P: Firmware, L: Ledger>(
    shared: &Shared,
    context: &mut Context,
    port: &mut P,
    steps: &mut Steps<L>,
) -> Reply
    requires belongs { context.old.pass.table ≡ shared.now }
    requires source { 0 < length context.old.sources }
    requires port { IsPortOf context.old 0 (P.seen port.old) }
    requires few { length context.old.pass.view.claims < 2 ^ 32 }
    requires room { length context.old.calls < context.old.room }
    ensures belongs { context.new.pass.table ≡ context.old.pass.table }
    ensures sources { context.new.sources ≡ context.old.sources }
    ensures port { IsPortOf context.new 0 (P.seen port.new) }
    ensures few { length context.new.pass.view.claims ≤ length context.old.pass.view.claims + 1 }
    ensures calls { length context.new.calls ≡ length context.old.calls + 1 }
    ensures room { context.old.room ≤ context.new.room }
{
    context.nmi(shared, 0, port, 0, steps)
}
