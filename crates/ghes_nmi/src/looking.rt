//! The steps that look at a source: its status address register, the header of a block, and the rest of its image.
ghost use Rattle.std.specs.Prelude.{◌≡◌, ◌≤◌, ◌+◌, ◌-◌, ◌++◌, [], length, take, Some, unwrap_or, IfOk, OnOk};
ghost use Rattle.apei_base.specs.Bus.{reach_of, CountsFaults};
ghost use Rattle.apei_base.specs.Firmware.{status_value, standing, area_bytes};
ghost use Rattle.cper_block.specs.Header.{header_of};
ghost use Rattle.cper_block.specs.Image.{padded};
ghost use Rattle.ghes_nmi.specs.Steps.{place_of, IsPlace, IsHeaderOf, standing_header, accesses_behind};

use crate::Receive;
use apei_base::{BusFault, Firmware, copy_area, read_status, u32_at};
use cper_block::Header;
use ghes_call::Buffer;
use ghes_steps::Steps;
use std::sync::ledger::Ledger;

/// Reads the status address register whole, without shift or mask: the address of the block's area, or none where no block
/// has stood yet.
///
/// One access. After Linux 6.1, drivers/acpi/apei/ghes.c.
#[inline(always)]
pub fn peek<P: Firmware, L: Ledger>(
    receive: &Receive,
    port: &mut P,
    steps: &mut Steps<L>,
) -> Result<Option<u64>, BusFault>
    requires { reach_of receive.now.status ≡ (P.seen port.old).layout.status }
    ensures value { IfOk result (λ place. place ≡ place_of (status_value (P.seen port.old))) }
    ensures place { IfOk result (λ place. IsPlace (P.seen port.old) place) }
    ensures kept { P.seen port.new ≡ P.seen port.old }
    ensures count { CountsFaults result (P.faults port.old) (P.faults port.new) }
    ensures cost { steps.new ≡ steps.old + 1 }
{
    steps.tick();
    match read_status(port, &receive.status) {
        Err(fault) => Err(fault),
        Ok(0) => Ok(None),
        Ok(address) => Ok(Some(address)),
    }
}

// The header at the front of the bytes.
#[inline(always)]
fn header_at(bytes: &[u8]) -> Header
    requires { 20 ≤ length bytes.now }
    ensures { result ≡ header_of bytes.now }
{
    Header {
        status: u32_at(bytes, 0),
        raw_offset: u32_at(bytes, 4),
        raw_length: u32_at(bytes, 8),
        length: u32_at(bytes, 12),
        severity: u32_at(bytes, 16),
    }
}

// Copies the header of the block at `address` to the front of the memory.
#[inline(always)]
fn copy_header<P: Firmware>(address: u64, memory: &mut [u8], port: &mut P) -> Result<(), BusFault>
    requires at { address ≡ (P.seen port.old).layout.area }
    requires within { 20 ≤ (P.seen port.old).layout.room }
    requires fits { 20 ≤ length memory.old }
    ensures value { OnOk result (take 20 memory.new ≡ area_bytes 0 20 (P.seen port.old)) }
    ensures size { length memory.new ≡ length memory.old }
    ensures kept { P.seen port.new ≡ P.seen port.old }
    ensures count { CountsFaults result (P.faults port.old) (P.faults port.new) }
{
    let (front, _behind) = memory.split_at_mut(20);
    copy_area(port, address, 0, front)
}

/// Copies the header of the block at `address` into the buffer, whose bytes are that header from then on, and reads it. It is
/// `None` where no block stands: its block status is 0.
///
/// One access. After Linux 6.1, drivers/acpi/apei/ghes.c.
#[inline(always)]
pub fn read_header<P: Firmware, L: Ledger>(
    address: u64,
    image: &mut Buffer,
    port: &mut P,
    steps: &mut Steps<L>,
) -> Result<Option<Header>, BusFault>
    requires at { address ≡ (P.seen port.old).layout.area }
    requires within { 20 ≤ (P.seen port.old).layout.room }
    requires room { 20 ≤ image.old.room }
    ensures value { IfOk result (λ header. IsHeaderOf (standing_header (P.seen port.old)) image.new.bytes header) }
    ensures room { image.old.room ≤ image.new.room }
    ensures kept { P.seen port.new ≡ P.seen port.old }
    ensures count { CountsFaults result (P.faults port.old) (P.faults port.new) }
    ensures cost { steps.new ≡ steps.old + 1 }
{
    steps.tick();
    copy_header(address, &mut image.memory, port)?;
    image.len = 20;
    let header = header_at(image.as_slice());
    if header.status == 0 {
        return Ok(None);
    }
    Ok(Some(header))
}

// Copies what is behind the header of the block at `address` into the memory behind its first 20 bytes, up to so many bytes in all, if
// there is more of the block.
#[inline(always)]
fn copy_behind<P: Firmware, L: Ledger>(
    address: u64,
    count: usize,
    memory: &mut [u8],
    port: &mut P,
    steps: &mut Steps<L>,
) -> Result<(), BusFault>
    requires at { address ≡ (P.seen port.old).layout.area }
    requires within { count ≤ (P.seen port.old).layout.room }
    requires whole { 20 ≤ count }
    requires fits { count ≤ length memory.old }
    ensures value { OnOk result
        (take count memory.new ≡ take 20 memory.old ++ area_bytes 20 (count - 20) (P.seen port.old)) }
    ensures size { length memory.new ≡ length memory.old }
    ensures kept { P.seen port.new ≡ P.seen port.old }
    ensures count { CountsFaults result (P.faults port.old) (P.faults port.new) }
    ensures cost { steps.new ≡ steps.old + accesses_behind count }
{
    let (bytes, _behind) = memory.split_at_mut(count);
    let (_header, rest) = bytes.split_at_mut(20);
    if rest.is_empty() {
        return Ok(());
    }
    steps.tick();
    copy_area(port, address, 20, rest)
}

/// Copies what is behind the header of the block at `address` into the buffer, whose bytes are that header, and are the image from
/// then on: the header, and the rest up to `count` bytes.
///
/// One access where the block is longer than its header, and else none.
/// After Linux 6.1, drivers/acpi/apei/ghes.c.
#[inline(always)]
pub fn read_rest<P: Firmware, L: Ledger>(
    address: u64,
    count: usize,
    image: &mut Buffer,
    port: &mut P,
    steps: &mut Steps<L>,
) -> Result<(), BusFault>
    requires at { address ≡ (P.seen port.old).layout.area }
    requires within { count ≤ (P.seen port.old).layout.room }
    requires whole { 20 ≤ count }
    requires room { count ≤ image.old.room }
    requires header { Some image.old.bytes ≡ standing_header (P.seen port.old) }
    ensures value { OnOk result
        (image.new.bytes ≡ padded count (unwrap_or (standing (P.seen port.old)) [])) }
    ensures front { OnOk result (header_of image.new.bytes ≡ header_of image.old.bytes) }
    ensures long { OnOk result (length image.new.bytes ≡ count) }
    ensures room { image.old.room ≤ image.new.room }
    ensures kept { P.seen port.new ≡ P.seen port.old }
    ensures count { CountsFaults result (P.faults port.old) (P.faults port.new) }
    ensures cost { steps.new ≡ steps.old + accesses_behind count }
{
    image.len = count;
    copy_behind(address, count, &mut image.memory, port, steps)
}
