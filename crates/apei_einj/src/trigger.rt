//! The trigger table: it is copied, tested, and run.
ghost use Rattle.std.specs.Prelude.{◌≡◌, ◌≢◌, ◌≤◌, ◌<◌, ◌+◌, ◌*◌, Some, Err, length, slice_get, OnOk};
ghost use Rattle.std.specs.Result.{result_err};
ghost use Rattle.apei_einj.specs.Entry.{of_action};
ghost use Rattle.apei_einj.specs.Part.{IsDone};
ghost use Rattle.apei_einj.specs.Trigger.{Triggers, TriggersBehind, trigger_count, trigger_header_refusal, trigger_entries, trigger_reason, first_reason};
ghost use Rattle.apei_einj.specs.declared.injected.InjectError.TheVariants.{Fault};

use crate::access::{act_own, take, take_any};
use crate::action::TRIGGER;
use crate::header::ENTRY_SIZE;
use crate::instruction::NO_OPERATION;
use crate::{Entry, InjectError};
use apei_base::{Bus, u32_at};

/// How many bytes the header has.
const HEADER: usize = 16;

/// How many bytes a table has at most.
const LARGEST: u32 = 4096;

// Where the fields of the header stand, in bytes from its start.
const HEADER_SIZE: usize = 0;

const TABLE_SIZE: usize = 8;

const COUNT: usize = 12;

// Tests the header.
fn check_header(header: &[u8; 16]) -> Result<(), InjectError>
    ensures value { result_err result ≡ trigger_header_refusal header.now }
    ensures unfailed { result ≢ Err Fault }
    ensures few { OnOk result (trigger_count header.now ≤ 127) }
{
    let size = u32_at(header, TABLE_SIZE);
    if u32_at(header, HEADER_SIZE) != HEADER as u32 {
        return Err(InjectError::Trigger(1));
    }
    if size < HEADER as u32 || size > LARGEST {
        return Err(InjectError::Trigger(2));
    }
    if size as usize != HEADER + ENTRY_SIZE * u32_at(header, COUNT) as usize {
        return Err(InjectError::Trigger(3));
    }
    Ok(())
}

// The entry at an index, from the bytes behind the header.
fn entry_at(bytes: &[u8], index: usize) -> Entry
    requires there { 32 * index + 32 ≤ length bytes.now }
    requires few { length bytes.now ≤ 4080 }
    ensures { slice_get (trigger_entries bytes.now) index ≡ Some result }
{
    let (_before, rest) = bytes.split_at(ENTRY_SIZE * index);
    let (piece, _behind) = rest.split_at(ENTRY_SIZE);
    Entry::read(piece, (HEADER + ENTRY_SIZE * index) as u32)
}

// Tests an entry of the trigger action.
fn check_entry(entry: &Entry) -> Result<(), InjectError>
    ensures value { result_err result ≡ trigger_reason entry.now }
    ensures unfailed { result ≢ Err Fault }
{
    if entry.instruction > NO_OPERATION {
        return Err(InjectError::Trigger(4));
    }
    if entry.instruction < NO_OPERATION && entry.register.check().is_err() {
        return Err(InjectError::Trigger(5));
    }
    Ok(())
}

// Reads the entries behind the header, as many as `into` has room for.
fn read_entries(bytes: &[u8], into: &mut [Entry])
    requires whole { 32 * length into.old ≡ length bytes.now }
    requires few { length bytes.now ≤ 4080 }
    ensures { into.new ≡ trigger_entries bytes.now }
{
    for index in 0..into.len() {
        into[index] = entry_at(bytes, index);
    }
}

// Tests the entries of the trigger action.
fn check_entries(entries: &[Entry]) -> Result<(), InjectError>
    ensures value { result_err result ≡ first_reason (of_action 0xff entries.now) }
    ensures unfailed { result ≢ Err Fault }
{
    for entry in entries {
        if entry.action == TRIGGER {
            check_entry(entry)?;
        }
    }
    Ok(())
}

// Copies the entries behind the header at an address, tests them, and runs them.
fn run_behind<B: Bus>(
    bus: &mut B,
    address: u64,
    bytes: &mut [u8],
    entries: &mut [Entry],
) -> Result<(), InjectError>
    requires whole { 32 * length entries.old ≡ length bytes.old }
    requires few { length bytes.old ≤ 4080 }
    ensures { IsDone (TriggersBehind B.step address (length bytes.old))
        (B.state bus.old) (B.faults bus.old) result (B.state bus.new) (B.faults bus.new) }
{
    take_any(bus, address, HEADER, bytes)?;
    read_entries(bytes, entries);
    check_entries(entries)?;
    act_own(entries, TRIGGER, 0, bus)?;
    Ok(())
}

// Runs the table at an address, behind its header, with so many entries.
fn run_counted<B: Bus>(bus: &mut B, address: u64, count: usize) -> Result<(), InjectError>
    requires { count ≤ 127 }
    ensures { IsDone (TriggersBehind B.step address (32 * count))
        (B.state bus.old) (B.faults bus.old) result (B.state bus.new) (B.faults bus.new) }
{
    let mut bytes = [0u8; 4064];
    let mut entries = [Entry::NOTHING; 127];
    run_behind(
        bus,
        address,
        &mut bytes[..ENTRY_SIZE * count],
        &mut entries[..count],
    )
}

/// Runs the trigger table at an address.
pub(crate) fn trigger<B: Bus>(bus: &mut B, address: u64) -> Result<(), InjectError>
    ensures { IsDone (Triggers B.step address)
        (B.state bus.old) (B.faults bus.old) result (B.state bus.new) (B.faults bus.new) }
{
    let mut header = [0u8; HEADER];
    take(bus, address, 0, &mut header)?;
    check_header(&header)?;
    run_counted(bus, address, u32_at(&header, COUNT) as usize)
}
