//! The fields of a table, each read at its offset.
ghost use Rattle.std.specs.Prelude.{◌≡◌, ◌≤◌, ◌+◌, length};
ghost use Rattle.apei_base.specs.Number.{number_at};
ghost use Rattle.apei_base.specs.Region.{gas_at};

use crate::Gas;
use byteorder::{ByteOrder, LittleEndian};

/// The number in the two bytes at an offset, the lowest byte first.
pub fn u16_at(bytes: &[u8], offset: usize) -> u16
    requires { offset + 2 ≤ length bytes.now }
    ensures { result ≡ number_at offset 2 bytes.now }
{
    LittleEndian::read_u16(&bytes[offset..])
}

/// The number in the four bytes at an offset, the lowest byte first.
pub fn u32_at(bytes: &[u8], offset: usize) -> u32
    requires { offset + 4 ≤ length bytes.now }
    ensures { result ≡ number_at offset 4 bytes.now }
{
    LittleEndian::read_u32(&bytes[offset..])
}

/// The number in the eight bytes at an offset, the lowest byte first.
pub fn u64_at(bytes: &[u8], offset: usize) -> u64
    requires { offset + 8 ≤ length bytes.now }
    ensures { result ≡ number_at offset 8 bytes.now }
{
    LittleEndian::read_u64(&bytes[offset..])
}

/// The generic address in the twelve bytes at an offset.
pub fn gas_at(bytes: &[u8], offset: usize) -> Gas
    requires { offset + 12 ≤ length bytes.now }
    ensures { result ≡ gas_at offset bytes.now }
{
    let mut address = [0u8; 12];
    address.copy_from_slice(&bytes[offset..offset + 12]);
    Gas::read(&address)
}
