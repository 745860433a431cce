ghost use Rattle.std.specs.Prelude.{◌≡◌, ◌≤◌, ◌<◌, IfOk};
ghost use Rattle.apei_base.specs.Firmware.{IsRaised};
ghost use Rattle.apei_base.specs.declared.region.Space.TheVariants.{Memory};
ghost use Rattle.ghes_call.specs.Receive.{IsOfSource};
ghost use Rattle.ghes_nmi.specs.Receive.{receive_seen};

use crate::{
    AckRule, Examined, Receive, acknowledge, clear, examine, peek, read_header, read_rest,
};
use apei_base::{BusFault, Bytes, Firmware, Region, u32_at};
use apei_mem_bus::{Faulty, OneSource};
use ghes_call::{AckState, Buffer};
use ghes_steps::Steps;
use std::alloc::{AllocError, Global};
use std::marker::Brand;
use std::process::Abort;
use std::sync::ledger::{Blank, Ledger};
use std::test::Fail;

// The steps of a call on a block that is well formed, in their order.
fn call<P: Firmware, L: Ledger>(
    receive: &Receive,
    image: &mut Buffer,
    port: &mut P,
    steps: &mut Steps<L>,
) -> Result<(Examined, AckState), BusFault>
    requires belongs { IsOfSource (receive_seen receive.now) (P.seen port.old).layout }
    requires header { 20 ≤ receive.now.limit }
    requires room { receive.now.limit ≤ image.old.room }
{
    let Some(address) = peek(receive, port, steps)? else {
        return Err(BusFault);
    };
    let Some(header) = read_header(address, image, port, steps)? else {
        return Err(BusFault);
    };
    let Ok(count) = header.check(receive.limit) else {
        return Err(BusFault);
    };
    read_rest(address, count as usize, image, port, steps)?;
    let examined = examine(image.as_slice(), receive.limit);
    clear(address, port, steps)?;
    Ok((examined, acknowledge(&receive.ack, port, steps)))
}

/// What is called on: a block, the source's register and rule, and the access that fails.
#[derive(Clone, Copy)]
struct Case {
    /// How many bytes the block has: 20, or more with one entry.
    length: usize,
    fatal: bool,
    /// The width of the read ack register in bits, 0 for none. It holds all ones.
    width: u8,
    bit_offset: u8,
    preserve: u64,
    write: u64,
    /// The number of the access that fails, 0 for none.
    failing: u64,
}

// A corrected block of 164 bytes at a source with a read ack register of 16 bits.
const LONG: Case = Case {
    length: 164,
    fatal: false,
    width: 16,
    bit_offset: 4,
    preserve: 0xf0,
    write: 0x0a,
    failing: 0,
};

// A block of 20 bytes at a source without a register.
const SHORT: Case = Case {
    length: 20,
    width: 0,
    ..LONG
};

// A block with one entry, or of 20 bytes.
fn block<R: Abort>(rt: &R, alloc: Global, case: &Case) -> Result<Bytes, AllocError>
    ensures { IfOk result (λ block. IsRaised block) }
{
    let length = case.length.clamp(20, 200);
    let mut block = vec![in alloc; 0u8; length]?;
    block[0] = 2;
    block[12] = (length - 20) as u8;
    block[16] = if case.fatal { 1 } else { 2 };
    if length > 84 {
        block[44] = (length - 84) as u8;
    }
    assert!(rt; u32_at(&block, 0) != 0, "a block has a status");
    Ok(Bytes(block))
}

// The read ack register.
fn register(width: u8) -> Region
    ensures { (result.space ≡ Memory) × (result.address ≡ 4104) }
{
    match width {
        8 => Region::memory(0x1008, 8),
        16 => Region::memory(0x1008, 16),
        32 => Region::memory(0x1008, 32),
        _ => Region::memory(0x1008, 64),
    }
}

// A source with a register that raised this block.
fn source_2(alloc: Global, block: Bytes, width: u8) -> Result<OneSource, AllocError>
    requires { IsRaised block }
    ensures { IfOk result (λ source. source.room ≡ 4096) }
{
    let register = register(width);
    Ok(OneSource {
        status: Region::memory(0x1000, 64),
        ack: Some(register),
        area: 0x2000,
        room: 4096,
        cell: register.low_bits(u64::MAX),
        made: vec![in alloc; block]?,
        acknowledged: 0,
        waits: false,
    })
}

// A source without a register that raised this block.
fn source_1(alloc: Global, block: Bytes) -> Result<OneSource, AllocError>
    requires { IsRaised block }
    ensures { IfOk result (λ source. source.room ≡ 4096) }
{
    Ok(OneSource {
        status: Region::memory(0x1000, 64),
        ack: None,
        area: 0x2000,
        room: 4096,
        cell: 0,
        made: vec![in alloc; block]?,
        acknowledged: 0,
        waits: false,
    })
}

// The source of a case.
fn source<R: Abort>(rt: &R, alloc: Global, case: &Case) -> Result<OneSource, AllocError>
    ensures { IfOk result (λ source. source.room ≡ 4096) }
{
    let block = block(rt, alloc, case)?;
    if case.width == 0 {
        source_1(alloc, block)
    } else {
        source_2(alloc, block, case.width)
    }
}

// How the source is received.
fn received(source: &OneSource, case: &Case) -> Receive
    requires { source.now.room ≡ 4096 }
    ensures source { IsOfSource (receive_seen result) (⟦<OneSource as Firmware>⟧.seen source.now).layout }
    ensures limit { result.limit ≡ 4096 }
{
    let ack = match source.ack {
        Some(register) => Some(AckRule {
            register,
            bit_offset: case.bit_offset.min(64),
            preserve: case.preserve,
            write: case.write,
        }),
        None => None,
    };
    Receive {
        status: source.status,
        limit: source.room,
        ack,
    }
}

// What one call answers, how many accesses it made, how many blocks are acknowledged then, and what the register holds.
type Answer = (Result<(Examined, AckState), BusFault>, u64, usize, u64);

// One call of a case.
fn one_call<R: Abort, L: Ledger>(
    rt: &R,
    alloc: Global,
    blank: Blank,
    case: &Case,
) -> Result<Answer, AllocError>
    requires name { blank.name ≡ L.name }
    requires parts { blank.parts ≡ L.parts }
    requires some { 0 < blank.parts }
{
    let source = source(rt, alloc, case)?;
    let receive = received(&source, case);
    let mut image = Buffer::with_room(alloc, 4096)?;
    let mut port = Faulty::new(alloc, source, &[case.failing])?;
    let mut steps = Steps::<L>::new(blank);
    let answer = call(&receive, &mut image, &mut port, &mut steps);
    let accesses = port.accesses();
    let after = port.into_inner();
    Ok((answer, accesses, after.acknowledged, after.cell))
}

const NEWS: Result<(Examined, AckState), BusFault> = Ok((Examined::News, AckState::Done));

const LATE: Result<(Examined, AckState), BusFault> = Ok((Examined::News, AckState::Failed));

const FAULT: Result<(Examined, AckState), BusFault> = Err(BusFault);

#[rattlefmt::skip]
const CASES: [(Case, Answer); 17] = [
    // 0xffff keeps 0xf00 under the shifted mask, and 0xa0 is set. Each access of six fails in turn.
    (LONG, (NEWS, 6, 1, 0xfa0)),
    (Case { failing: 1, ..LONG }, (FAULT, 1, 0, 0xffff)),
    (Case { failing: 2, ..LONG }, (FAULT, 2, 0, 0xffff)),
    (Case { failing: 3, ..LONG }, (FAULT, 3, 0, 0xffff)),
    (Case { failing: 4, ..LONG }, (FAULT, 4, 0, 0xffff)),
    (Case { failing: 5, ..LONG }, (LATE, 5, 1, 0xffff)),
    (Case { failing: 6, ..LONG }, (LATE, 6, 1, 0xffff)),
    // Of 8 bits nothing that is kept is left.
    (Case { width: 8, ..LONG }, (NEWS, 6, 1, 0xa0)),
    (Case { width: 32, ..LONG }, (NEWS, 6, 1, 0xfa0)),
    (Case { width: 64, ..LONG }, (NEWS, 6, 1, 0xfa0)),
    // What is shifted past the register is cut.
    (Case { width: 32, bit_offset: 28, preserve: 1, write: 0x1e, ..LONG }, (NEWS, 6, 1, 0xf000_0000)),
    (Case { width: 64, bit_offset: 60, preserve: 0, write: 0x1f, ..LONG }, (NEWS, 6, 1, 0xf000_0000_0000_0000)),
    // A block of 20 bytes is copied once, and a source without a register is not asked.
    (SHORT, (Ok((Examined::News, AckState::NotAsked)), 3, 1, 0)),
    (Case { length: 164, ..SHORT }, (Ok((Examined::News, AckState::NotAsked)), 4, 1, 0)),
    (Case { width: 16, ..SHORT }, (NEWS, 5, 1, 0xfa0)),
    (Case { fatal: true, ..SHORT }, (Ok((Examined::Fatal, AckState::NotAsked)), 3, 1, 0)),
    (Case { failing: 3, ..SHORT }, (FAULT, 3, 0, 0)),
];

#[test]
fn each_access_that_fails_ends_the_call_or_the_acknowledgement_alone(
    rt: HostRuntime,
) -> Result<(), Fail> {
    for (at, (case, answer)) in CASES.iter().enumerate() {
        assert_eq!(rt;
            one_call::<HostRuntime, Brand>(&rt, rt.alloc(), Blank::new(1), case)?,
            *answer,
            "case {at}"
        );
    }
    Ok(())
}
