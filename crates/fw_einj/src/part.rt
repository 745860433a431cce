//! The parts of a block, added one behind the other.
ghost use Rattle.std.specs.Prelude.{◌≡◌, ◌++◌, OnOk};
ghost use Rattle.byteorder.specs.Endian.{little_bytes};

use std::alloc::AllocError;

/// Adds these bytes.
pub(crate) fn add(bytes: &mut Vec<u8>, part: &[u8]) -> Result<(), AllocError>
    ensures { OnOk result (bytes.new.items ≡ bytes.old.items ++ part.now) }
{
    bytes.extend_from_slice(part)
}

/// Adds a number of 16 bits, the lowest byte first.
pub(crate) fn add_u16(bytes: &mut Vec<u8>, number: u16) -> Result<(), AllocError>
    ensures { OnOk result (bytes.new.items ≡ bytes.old.items ++ little_bytes 2 number) }
{
    bytes.extend_from_slice(&number.to_le_bytes())
}

/// Adds a number of 32 bits, the lowest byte first.
pub(crate) fn add_u32(bytes: &mut Vec<u8>, number: u32) -> Result<(), AllocError>
    ensures { OnOk result (bytes.new.items ≡ bytes.old.items ++ little_bytes 4 number) }
{
    bytes.extend_from_slice(&number.to_le_bytes())
}

/// Adds a number of 64 bits, the lowest byte first.
pub(crate) fn add_u64(bytes: &mut Vec<u8>, number: u64) -> Result<(), AllocError>
    ensures { OnOk result (bytes.new.items ≡ bytes.old.items ++ little_bytes 8 number) }
{
    bytes.extend_from_slice(&number.to_le_bytes())
}
