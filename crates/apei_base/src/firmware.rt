//! The memory of one error source, and the accesses that its receiver makes there.
ghost use Rattle.std.specs.Prelude.{◌≡◌, ◌≤◌, ◌+◌, ◌%◌, ◌^◌, Some, is_some, length, IfOk, OnOk, OnErr, IsTrue};
ghost use Rattle.apei_base.specs.Bus.{Access, Reads, Writes, Copies, IsOneAccess, CountsFaults, IsLook, reach_of, write_of};
ghost use Rattle.apei_base.specs.Firmware.{Seen, status_value, area_bytes, standing, block_status, cleared, ack_written, after_access, IsAnswered, IsSound};

use crate::{Bus, BusFault, Region};

/// The memory of one error source, as firmware and receiver share it.
///
/// It has a status address register, an area where blocks stand one after another, and a read ack register where the
/// source is of version 2.
/// Source: ACPI 6.5, 18.3.2.7 and 18.3.2.8. That one write of 0 clears a block: After Linux 6.1,
/// drivers/acpi/apei/ghes.c.
pub trait Firmware: Bus {
    /// What the memory means.
    ghost seen: { Self → Seen };

    /// It means the same in the same state.
    ghost same: { (one other : Self) → Self.state one ≡ Self.state other → seen one ≡ seen other };

    /// What an access answers, and what it leaves.
    ghost moves: { (before after : Self) (access : Access)
        → Self.step (Self.state before) access (Self.state after)
        → IsAnswered access (seen before) × (seen after ≡ after_access access (seen before)) };

    /// A read and a copy leave the cells.
    ghost looks: { (before after : Self) (access : Access)
        → Self.step (Self.state before) access (Self.state after) → IsLook access
        → Self.cells (Self.state after) ≡ Self.cells (Self.state before) };

    /// What holds at all times.
    ghost sound: { (port : Self) → IsSound (seen port) (Self.faults port) };
}

/// Reads the status address register: the address of the area, or 0 where no block has stood yet.
///
/// One access is made.
pub fn read_status<P: Firmware>(port: &mut P, register: &Region) -> Result<u64, BusFault>
    requires { reach_of register.now ≡ (P.seen port.old).layout.status }
    ensures access { IsOneAccess P.step (Reads (reach_of register.now))
        (P.state port.old) result (P.state port.new) }
    ensures value { IfOk result (λ address. address ≡ status_value (P.seen port.old)) }
    ensures kept { P.seen port.new ≡ P.seen port.old }
    ensures count { CountsFaults result (P.faults port.old) (P.faults port.new) }
{
    port.read(register)
}

/// Copies the area at `address` from `skip` on: what stands there of the block, followed by zeros.
///
/// One access is made.
pub fn copy_area<P: Firmware>(
    port: &mut P,
    address: u64,
    skip: usize,
    into: &mut [u8],
) -> Result<(), BusFault>
    requires at { address ≡ (P.seen port.old).layout.area }
    requires within { skip + length into.old ≤ (P.seen port.old).layout.room }
    ensures access { IsOneAccess P.step (λ _. Copies (address + skip) into.new)
        (P.state port.old) result (P.state port.new) }
    ensures copied { OnOk result (into.new ≡ area_bytes skip (length into.old) (P.seen port.old)) }
    ensures err { OnErr result (into.new ≡ into.old) }
    ensures kept { P.seen port.new ≡ P.seen port.old }
    ensures count { CountsFaults result (P.faults port.old) (P.faults port.new) }
{
    port.copy(address, skip, into)
}

/// Clears the block that stands in the area at `address`, by a 32-bit write of 0, and so acknowledges it.
///
/// One access is made.
pub fn clear<P: Firmware>(port: &mut P, address: u64) -> Result<(), BusFault>
    requires at { address ≡ (P.seen port.old).layout.area }
    requires stands { IsTrue (is_some (standing (P.seen port.old))) }
    ensures access { IsOneAccess P.step (λ _. Writes (block_status (P.seen port.old).layout) 0)
        (P.state port.old) result (P.state port.new) }
    ensures ok { OnOk result (P.seen port.new ≡ cleared (P.seen port.old)) }
    ensures err { OnErr result (P.seen port.new ≡ P.seen port.old) }
    ensures count { CountsFaults result (P.faults port.old) (P.faults port.new) }
{
    port.write(&Region::memory(address, 32), 0)
}

/// Reads the read ack register.
///
/// One access is made.
pub fn read_ack<P: Firmware>(port: &mut P, ack: &Region) -> Result<u64, BusFault>
    requires { Some (reach_of ack.now) ≡ (P.seen port.old).layout.ack }
    ensures access { IsOneAccess P.step (Reads (reach_of ack.now))
        (P.state port.old) result (P.state port.new) }
    ensures value { IfOk result (λ cell. cell ≡ (P.seen port.old).cell) }
    ensures kept { P.seen port.new ≡ P.seen port.old }
    ensures count { CountsFaults result (P.faults port.old) (P.faults port.new) }
{
    port.read(ack)
}

/// Writes the low bits of a value to the read ack register, as many as it is wide.
///
/// One access is made.
pub fn write_ack<P: Firmware>(port: &mut P, ack: &Region, value: u64) -> Result<(), BusFault>
    requires { Some (reach_of ack.now) ≡ (P.seen port.old).layout.ack }
    ensures access { IsOneAccess P.step (λ _. write_of ack.now value)
        (P.state port.old) result (P.state port.new) }
    ensures ok { OnOk result
        (P.seen port.new ≡ ack_written (value % 2 ^ ack.now.width) (P.seen port.old)) }
    ensures err { OnErr result (P.seen port.new ≡ P.seen port.old) }
    ensures count { CountsFaults result (P.faults port.old) (P.faults port.new) }
{
    port.write(ack, value)
}
