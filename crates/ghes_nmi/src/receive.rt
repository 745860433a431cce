//! Where a source is read, and how a block of it is acknowledged.
ghost use Rattle.std.specs.Prelude.{◌≤◌};

use apei_base::Region;

/// How a block is acknowledged: the register is read, `preserve` is kept of it, `write` is set, and it is written.
///
/// Both masks are shifted up by `bit_offset` bits first. Source: ACPI 6.5, 18.3.2.8.
#[derive(Clone, Copy, Debug, PartialEq, Eq)]
pub struct AckRule {
    pub register: Region,
    /// In bits.
    pub bit_offset: u8,
    pub preserve: u64,
    pub write: u64,
    pub ghost shift_is: { bit_offset ≤ 64 },
}

/// Where a source is read, how long a block is at most in bytes, and how one is acknowledged.
///
/// Source: ACPI 6.5, 18.3.2.7 and 18.3.2.8.
#[derive(Clone, Copy, Debug, PartialEq, Eq)]
pub struct Receive {
    /// The status address register, read whole.
    pub status: Region,
    pub limit: u32,
    /// None for a source of version 1.
    pub ack: Option<AckRule>,
}
