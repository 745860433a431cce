//! The generic address of a table, and the region that it names.
ghost use Rattle.std.specs.Prelude.{◌≡◌, ◌≤◌, ◌+◌, ◌/◌, ◌^◌, IfOk, IsTrue};
ghost use Rattle.apei_base.specs.Width.{is_width};
ghost use Rattle.apei_base.specs.Region.{smallest_width};

use crate::{Region, Space};
use byteorder::{ByteOrder, LittleEndian};
use std::error::Error;
use std::fmt;

/// A generic address (GAS) as a table has it, not checked: a register, and the field of bits in it that counts.
///
/// Source: ACPI 6.5, 5.2.3.2.
#[derive(Clone, Copy, Debug, PartialEq, Eq)]
pub struct Gas {
    /// The address space: 0 memory, 1 I/O ports. Other codes are refused by `check`.
    pub space: u8,
    /// How wide the field is, in bits.
    pub bit_width: u8,
    /// Where the field begins, in bits from the lowest bit of the register.
    pub bit_offset: u8,
    /// The code of the access size: 1 byte, 2 word, 3 dword, 4 qword, 0 undefined.
    pub access: u8,
    /// The address of the register's first byte.
    pub address: u64,
}

/// Why a generic address names no region, in the order of the tests.
#[derive(Clone, Copy, Debug, PartialEq, Eq)]
pub enum GasError {
    /// The space is neither memory nor I/O ports.
    Space,
    /// The code of the access size is above 4.
    AccessSize,
    /// The field ends behind the last bit of one access.
    TooWide,
    /// An I/O region of 64 bits: a port is read in 8, 16 or 32.
    PortWidth,
    /// The region's last byte lies past the greatest address, 2^64 - 1.
    PastEnd,
}

impl fmt::Display for GasError {
    ghost use Rattle.std.specs.Prelude.{Some};
    ghost use Rattle.apei_base.specs.Text.{gas_error_text};

    ghost output = { λ e. Some (gas_error_text e) };

    fn fmt<W: fmt::Write>(&self, f: &mut fmt::Formatter<W>) -> fmt::Result {
        match self {
            GasError::Space => f.write_str("1 space"),
            GasError::AccessSize => f.write_str("2 access size"),
            GasError::TooWide => f.write_str("3 too wide"),
            GasError::PortWidth => f.write_str("4 port width"),
            GasError::PastEnd => f.write_str("5 past end"),
        }
    }
}

impl Error for GasError {}

// The smallest width that holds so many bits, or 64.
fn smallest_width(bits: u16) -> u8
    ensures { result ≡ smallest_width bits }
{
    match bits {
        0..=8 => 8,
        9..=16 => 16,
        17..=32 => 32,
        _ => 64,
    }
}

impl Gas {
    ghost use Rattle.std.specs.Result.{result_err};
    ghost use Rattle.apei_base.specs.Region.{gas_of, gas_refusal, coded_width, is_whole, access_width, space_of};
    ghost use Rattle.apei_base.specs.declared.region.Space.TheVariants.{Port};

    /// Reads the generic address that the bytes spell.
    pub fn read(bytes: &[u8; 12]) -> Gas
        ensures { result ≡ gas_of bytes.now }
    {
        Gas {
            space: bytes[0],
            bit_width: bytes[1],
            bit_offset: bytes[2],
            access: bytes[3],
            address: LittleEndian::read_u64(&bytes[4..]),
        }
    }

    // The width in bits that an access has by the code, and by the field where the code is 0.
    fn coded_width(&self) -> u8
        ensures { result ≡ coded_width self.now }
    {
        match self.access {
            0 => smallest_width(u16::from(self.bit_offset) + u16::from(self.bit_width)),
            1 => 8,
            2 => 16,
            3 => 32,
            _ => 64,
        }
    }

    // Whether the field is a whole register of this width, in bits, at an aligned address.
    fn is_whole(&self, width: u8) -> bool
        requires { 8 ≤ width }
        ensures { result ≡ is_whole self.now width }
    {
        self.bit_width == width && self.bit_offset == 0 && self.address % u64::from(width / 8) == 0
    }

    // The width in bits of one access.
    fn access_width(&self) -> u8
        ensures value { result ≡ access_width self.now }
        ensures is_width { IsTrue (is_width result) }
    {
        if self.is_whole(64) {
            64
        } else if self.is_whole(32) {
            self.coded_width().max(32)
        } else {
            self.coded_width()
        }
    }

    /// The region that the address names: the whole access, not only the field in it.
    ///
    /// The refusals are tested in the order of `GasError`. An access is as wide as its code says, but a whole
    /// aligned register of 32 or 64 bits is never read in narrower parts: firmware often states such a
    /// register with the code for bytes.
    /// Source: ACPI 6.5, 5.2.3.2. The whole register: After Linux 6.1, drivers/acpi/apei/apei-base.c.
    /// Access code 0, and the order of the refusals: Own choice.
    pub fn check(&self) -> Result<Region, GasError>
        ensures err { result_err result ≡ gas_refusal self.now }
        ensures space { IfOk result (λ region. region.space ≡ space_of self.now.space) }
        ensures address { IfOk result (λ region. region.address ≡ self.now.address) }
        ensures width { IfOk result (λ region. region.width ≡ access_width self.now) }

        // What a region is, whatever the rule for its width: the field lies in one access, which an I/O port
        // can make, and whose bytes all have an address.
        ensures within { IfOk result
            (λ region. self.now.bit_offset + self.now.bit_width ≤ region.width) }
        ensures no_wide_port { IfOk result (λ region. region.space ≡ Port → region.width ≤ 32) }
        ensures in_space { IfOk result (λ region. region.address + region.width / 8 ≤ 2 ^ 64) }
    {
        if self.space > 1 {
            return Err(GasError::Space);
        }
        if self.access > 4 {
            return Err(GasError::AccessSize);
        }
        let width = self.access_width();
        if u16::from(self.bit_offset) + u16::from(self.bit_width) > u16::from(width) {
            return Err(GasError::TooWide);
        }
        if self.space == 1 && width == 64 {
            return Err(GasError::PortWidth);
        }
        if self.address > u64::MAX - u64::from(width / 8 - 1) {
            return Err(GasError::PastEnd);
        }
        let space = if self.space == 0 {
            Space::Memory
        } else {
            Space::Port
        };
        Ok(Region {
            space,
            address: self.address,
            width,
        })
    }
}
