//! The header of a block, and what it says of the block.
ghost use Rattle.std.specs.Prelude.{◌≡◌, ◌≤◌, ◌+◌, IfOk};
ghost use Rattle.std.specs.Result.{result_err};

use crate::entry::ENTRY_HEADER_SIZE;
use crate::{Malformed, Severity};
use apei_base::u32_at;

/// The header of an error status block.
///
/// Offsets and lengths are in bytes, offsets from the start of the block. Source: ACPI 6.5, 18.3.2.7.1.
#[derive(Clone, Copy, Debug, PartialEq, Eq)]
pub struct Header {
    /// The block status: which kinds of error there are, and how many entries. 0 where no block stands.
    pub status: u32,
    pub raw_offset: u32,
    pub raw_length: u32,
    /// Of all data entries together.
    pub length: u32,
    /// The code of the severity.
    pub severity: u32,
}

/// How many bytes the header of a block has.
pub(crate) const HEADER_SIZE: usize = 20;

impl Header {
    ghost use Rattle.std.specs.Prelude.{length};
    ghost use Rattle.cper_block.specs.Header.{header_size, header_of, block_length, header_reason};
    ghost use Rattle.cper_block.specs.Severity.{severity_of};

    /// The header at the front of the bytes.
    pub(crate) fn at(bytes: &[u8]) -> Header
        requires { header_size ≤ length bytes.now }
        ensures { result ≡ header_of bytes.now }
    {
        let mut front = [0u8; HEADER_SIZE];
        front.copy_from_slice(bytes.split_at(HEADER_SIZE).0);
        Header::read(&front)
    }

    /// Reads the header.
    pub fn read(bytes: &[u8; 20]) -> Header
        ensures { result ≡ header_of bytes.now }
    {
        Header {
            status: u32_at(bytes, 0),
            raw_offset: u32_at(bytes, 4),
            raw_length: u32_at(bytes, 8),
            length: u32_at(bytes, 12),
            severity: u32_at(bytes, 16),
        }
    }

    /// How long the block is in bytes, by its header alone, under no limit.
    pub fn block_length(&self) -> u64
        ensures { result ≡ block_length self.now }
    {
        if self.raw_length == 0 {
            HEADER_SIZE as u64 + u64::from(self.length)
        } else {
            u64::from(self.raw_offset) + u64::from(self.raw_length)
        }
    }

    /// The length of the block in bytes, by its header alone, where a block may have `limit` bytes.
    ///
    /// The reasons are tested in the order of `Malformed`, up to `RawOffset`.
    pub fn check(&self, limit: u32) -> Result<u32, Malformed>
        ensures err { result_err result ≡ header_reason self.now limit }
        ensures length { IfOk result (λ length. length ≡ block_length self.now) }
        ensures entries { IfOk result (λ length. header_size + self.now.length ≤ length) }
        ensures within { IfOk result (λ length. length ≤ limit) }
    {
        let length = self.block_length();
        if length < HEADER_SIZE as u64 {
            return Err(Malformed::TooShort);
        }
        if length > u64::from(limit) {
            return Err(Malformed::TooLong);
        }
        if 0 < self.length && self.length < ENTRY_HEADER_SIZE as u32 {
            return Err(Malformed::DataLength);
        }
        let entries_end = HEADER_SIZE as u64 + u64::from(self.length);
        if self.raw_length != 0 && u64::from(self.raw_offset) < entries_end {
            return Err(Malformed::RawOffset);
        }
        Ok(length as u32)
    }

    /// How bad the error is.
    pub fn severity(&self) -> Severity
        ensures { result ≡ severity_of self.now.severity }
    {
        Severity::from(self.severity)
    }
}
