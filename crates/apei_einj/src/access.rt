//! The accesses of an injection, each of which ends it where it fails.
ghost use Rattle.std.specs.Prelude.{◌≡◌, ◌<◌, ◌+◌, ◌^◌, None, length, IsTrue};
ghost use Rattle.apei_base.specs.Width.{is_width};
ghost use Rattle.apei_einj.specs.Entry.{of_action};
ghost use Rattle.apei_einj.specs.Part.{IsDone, Stores, Takes, TakesAny, Acts, filled};
ghost use Rattle.apei_einj.specs.Refusal.{first_refusal};

use crate::run::run_entries;
use crate::{Entry, InjectError};
use apei_base::{Bus, Region};

/// Writes a value to memory, by its address and its width in bits.
pub(crate) fn store<B: Bus>(
    bus: &mut B,
    address: u64,
    width: u8,
    value: u64,
) -> Result<(), InjectError>
    requires width { IsTrue (is_width width) }
    requires fits { value < 2 ^ width }
    ensures { IsDone (Stores B.step address width value)
        (B.state bus.old) (B.faults bus.old) result (B.state bus.new) (B.faults bus.new) }
{
    bus.write(&Region::memory(address, width), value)?;
    Ok(())
}

/// Copies memory from `address + skip` on, as many bytes as `into` has.
pub(crate) fn take<B: Bus>(
    bus: &mut B,
    address: u64,
    skip: usize,
    into: &mut [u8],
) -> Result<(), InjectError>
    ensures { IsDone (Takes B.step (address + skip) (length into.old))
        (B.state bus.old) (B.faults bus.old) (filled into.new result)
        (B.state bus.new) (B.faults bus.new) }
{
    bus.copy(address, skip, into)?;
    Ok(())
}

/// Copies memory from `address + skip` on, as many bytes as `into` has, and makes no access where it has no room.
pub(crate) fn take_any<B: Bus>(
    bus: &mut B,
    address: u64,
    skip: usize,
    into: &mut [u8],
) -> Result<(), InjectError>
    ensures { IsDone (TakesAny B.step (address + skip) (length into.old))
        (B.state bus.old) (B.faults bus.old) (filled into.new result)
        (B.state bus.new) (B.faults bus.new) }
{
    if into.is_empty() {
        return Ok(());
    }
    take(bus, address, skip, into)
}

/// Runs the entries of an action, none of which is refused, on a value, and gives the value that they leave.
pub(crate) fn act_own<B: Bus>(
    entries: &[Entry],
    action: u8,
    value: u64,
    bus: &mut B,
) -> Result<u64, InjectError>
    requires { first_refusal (of_action action entries.now) ≡ None }
    ensures { IsDone (Acts B.step entries.now action value)
        (B.state bus.old) (B.faults bus.old) result (B.state bus.new) (B.faults bus.new) }
{
    Ok(run_entries(entries, action, value, bus)?)
}

/// Runs the entries of an action among entries that are not refused, on a value, and gives the value that they leave.
pub(crate) fn act<B: Bus>(
    entries: &[Entry],
    action: u8,
    value: u64,
    bus: &mut B,
) -> Result<u64, InjectError>
    requires { first_refusal entries.now ≡ None }
    ensures { IsDone (Acts B.step entries.now action value)
        (B.state bus.old) (B.faults bus.old) result (B.state bus.new) (B.faults bus.new) }
{
    act_own(entries, action, value, bus)
}
