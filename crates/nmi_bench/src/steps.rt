//! The steps of a call in the memory of a source alone, without what contexts share.
ghost use Rattle.std.specs.Prelude.{◌≡◌, ◌≤◌, ◌<◌};
ghost use Rattle.ghes_call.specs.Receive.{IsOfSource};
ghost use Rattle.ghes_nmi.specs.Receive.{receive_seen};

use crate::setting::{LIMIT, port, received};
use apei_base::{BusFault, Firmware};
use ghes_call::{AckState, Buffer};
use ghes_context::Receive;
use ghes_nmi::{acknowledge, clear, examine_rest, peek, read_header, read_rest};
use ghes_steps::Steps;
use std::alloc::{AllocError, Global};
use std::marker::Brand;
use std::sync::ledger::{Blank, Ledger};

// The steps of a call on a block, in their order. It has a place of its own in a profile.
#[inline(never)]
fn steps_of_a_call<P: Firmware, L: Ledger>(
    receive: &Receive,
    image: &mut Buffer,
    memory: &mut P,
    steps: &mut Steps<L>,
) -> Result<AckState, BusFault>
    requires belongs { IsOfSource (receive_seen receive.now) (P.seen memory.old).layout }
    requires header { 20 ≤ receive.now.limit }
    requires room { receive.now.limit ≤ image.old.room }
{
    let Some(address) = peek(receive, memory, steps)? else {
        return Err(BusFault);
    };
    let Some(header) = read_header(address, image, memory, steps)? else {
        return Err(BusFault);
    };
    let Ok(count) = header.check(receive.limit) else {
        return Err(BusFault);
    };
    read_rest(address, count as usize, image, memory, steps)?;
    let _examined = examine_rest(image.as_slice(), &header);
    clear(address, memory, steps)?;
    Ok(acknowledge(&receive.ack, memory, steps))
}

// So often, each time on a source of its own.
fn repeated<L: Ledger>(alloc: Global, blank: Blank, times: usize) -> Result<(), AllocError>
    requires blank { (blank.name ≡ L.name) × (blank.parts ≡ L.parts) × (0 < blank.parts) }
{
    let mut steps = Steps::<L>::new(blank);
    for _ in 0..times {
        let mut port = port(1);
        let receive = received();
        let mut image = Buffer::with_room(alloc, LIMIT)?;
        let _state = steps_of_a_call(&receive, &mut image, &mut port, &mut steps);
    }
    Ok(())
}

/// The steps of a call so often, each time on a source of its own.
pub fn steps_alone(alloc: Global, times: usize) -> Result<(), AllocError> {
    repeated::<Brand>(alloc, Blank::new(1), times)
}
