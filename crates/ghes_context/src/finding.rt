//! The steps that look: whether a block stands, its image, and what the image says.
ghost use Rattle.std.specs.Prelude.{◌≡◌, ◌≤◌, ◌+◌, Some, length, IfOk, OnOk, IfSome};
ghost use Rattle.ghes_nmi.specs.Steps.{standing_header};
ghost use Rattle.apei_base.specs.Bus.{CountsFaults};
ghost use Rattle.cper_block.specs.Header.{header_of};
ghost use Rattle.ghes_call.specs.Receive.{IsOfSource};
ghost use Rattle.ghes_nmi.specs.Receive.{receive_seen};
ghost use Rattle.ghes_context.specs.Found.{Finds, IsFound};

use apei_base::{BusFault, Firmware};
use cper_block::Header;
use ghes_call::Buffer;
use ghes_nmi::{Examined, Receive, examine_rest, peek, read_header, read_rest};
use ghes_steps::Steps;
use std::sync::ledger::Ledger;

/// A block that stands: where, and what its image says.
#[derive(Clone, Copy)]
pub(crate) struct Found {
    pub(crate) address: u64,
    pub(crate) said: Examined,
}

// Takes the image of the block whose header is in the buffer. Where the header is refused the image is the header alone.
#[inline(always)]
fn take_image<P: Firmware, L: Ledger>(
    address: u64,
    header: &Header,
    receive: &Receive,
    image: &mut Buffer,
    port: &mut P,
    steps: &mut Steps<L>,
) -> Result<Found, BusFault>
    requires source { IsOfSource (receive_seen receive.now) (P.seen port.old).layout }
    requires header { 20 ≤ receive.now.limit }
    requires room { receive.now.limit ≤ image.old.room }
    requires at { address ≡ (P.seen port.old).layout.area }
    requires read { Some image.old.bytes ≡ standing_header (P.seen port.old) }
    requires says { header.now ≡ header_of image.old.bytes }
    ensures found { IfOk result (λ found. IsFound receive.now.limit (P.seen port.old) image.new.bytes found) }
    ensures short { OnOk result (length image.new.bytes ≤ receive.now.limit) }
    ensures room { image.old.room ≤ image.new.room }
    ensures kept { P.seen port.new ≡ P.seen port.old }
    ensures count { CountsFaults result (P.faults port.old) (P.faults port.new) }
    ensures cost { steps.new ≤ steps.old + 1 }
{
    match header.check(receive.limit) {
        Err(reason) => Ok(Found {
            address,
            said: Examined::Malformed(reason),
        }),
        Ok(count) => {
            read_rest(address, count as usize, image, port, steps)?;
            Ok(Found {
                address,
                said: examine_rest(image.as_slice(), header),
            })
        }
    }
}

/// Looks for a block, and takes its image into the buffer: three accesses at most.
///
/// It is `None` where no block stands. An access that fails leaves the source as it is.
#[inline(always)]
pub(crate) fn find<P: Firmware, L: Ledger>(
    receive: &Receive,
    image: &mut Buffer,
    port: &mut P,
    steps: &mut Steps<L>,
) -> Result<Option<Found>, BusFault>
    requires source { IsOfSource (receive_seen receive.now) (P.seen port.old).layout }
    requires header { 20 ≤ receive.now.limit }
    requires room { receive.now.limit ≤ image.old.room }
    ensures found { IfOk result (λ found. Finds receive.now.limit (P.seen port.old) image.new.bytes found) }
    ensures short { IfOk result (λ found. IfSome found (λ _. length image.new.bytes ≤ receive.now.limit)) }
    ensures room { image.old.room ≤ image.new.room }
    ensures kept { P.seen port.new ≡ P.seen port.old }
    ensures count { CountsFaults result (P.faults port.old) (P.faults port.new) }
    ensures cost { steps.new ≤ steps.old + 3 }
{
    let Some(address) = peek(receive, port, steps)? else {
        return Ok(None);
    };
    let Some(header) = read_header(address, image, port, steps)? else {
        return Ok(None);
    };
    let found = take_image(address, &header, receive, image, port, steps)?;
    Ok(Some(found))
}
