//! The header and the checksum that all tables have.
ghost use Rattle.std.specs.Prelude.{◌≡◌, ◌<◌, ◌↔◌, ℕ, ◌%◌, ◌^◌, sum, length, drop, slice_index, IsOk, IfOk, OnOk};
ghost use Rattle.std.specs.Result.{result_err};

use byteorder::{ByteOrder, LittleEndian};
use std::error::Error;
use std::fmt;

/// Why bytes are no table of the signature that was asked for, in the order of the tests.
#[derive(Clone, Copy, Debug, PartialEq, Eq)]
pub enum SdtError {
    /// Fewer than the 36 bytes of the header.
    Short,
    /// The first four bytes are another signature.
    Signature,
    /// The length that the header states is not the number of bytes.
    Length,
    /// The bytes do not add up to 0 modulo 256.
    Checksum,
}

impl fmt::Display for SdtError {
    ghost use Rattle.std.specs.Prelude.{Some};
    ghost use Rattle.apei_base.specs.Text.{sdt_error_text};

    ghost output = { λ e. Some (sdt_error_text e) };

    fn fmt<W: fmt::Write>(&self, f: &mut fmt::Formatter<W>) -> fmt::Result {
        match self {
            SdtError::Short => f.write_str("1 short"),
            SdtError::Signature => f.write_str("2 signature"),
            SdtError::Length => f.write_str("3 length"),
            SdtError::Checksum => f.write_str("4 checksum"),
        }
    }
}

impl Error for SdtError {}

/// A system description table (SDT): what its header says, and the bytes behind it.
///
/// Source: ACPI 6.5, 5.2.6.
#[derive(Debug, Drop)]
pub struct Sdt<'a> {
    /// The revision of the table's form, the byte at offset 8.
    pub revision: u8,
    /// The table from byte 36 on.
    pub body: &'a [u8],
}

/// How many bytes the common header has.
const HEADER_LENGTH: usize = 36;

// What the bytes add up to, modulo 256.
fn byte_sum(bytes: &[u8]) -> u8
    ensures { result ≡ sum bytes.now % 256 }
{
    let mut total = 0u8;
    for byte in bytes {
        total = total.wrapping_add(*byte);
    }
    total
}

impl<'a> Sdt<'a> {
    ghost use Rattle.apei_base.specs.Table.{IsTable, sdt_refusal};

    /// Reads the header of a table, and tests its signature, its length and its checksum.
    ///
    /// `bytes` is the whole table and no byte more. The refusals are tested in the order of `SdtError`.
    /// Source: ACPI 6.5, 5.2.6. The order of the refusals: Own choice.
    pub fn read(bytes: &'a [u8], signature: &[u8; 4]) -> Result<Sdt<'a>, SdtError>
        ensures table { IsOk result ↔ IsTable signature.now bytes.now }
        ensures err { result_err result ≡ sdt_refusal signature.now bytes.now }
        ensures small { OnOk result (length bytes.now < 2 ^ 32) }
        ensures revision { IfOk result (λ table. table.revision ≡ slice_index bytes.now 8) }
        ensures body { IfOk result (λ table. table.body.now ≡ drop 36 bytes.now) }
    {
        if bytes.len() < HEADER_LENGTH {
            return Err(SdtError::Short);
        }
        if &bytes[..4] != signature.as_slice() {
            return Err(SdtError::Signature);
        }
        if LittleEndian::read_u32(&bytes[4..]) as usize != bytes.len() {
            return Err(SdtError::Length);
        }
        if byte_sum(bytes) != 0 {
            return Err(SdtError::Checksum);
        }
        let (header, body) = bytes.split_at(HEADER_LENGTH);
        Ok(Sdt {
            revision: header[8],
            body,
        })
    }
}
