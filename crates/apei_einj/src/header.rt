//! The injection header: its size, and the count of the entries behind it.
ghost use Rattle.std.specs.Prelude.{◌≡◌, ◌≤◌, ◌<◌, ◌*◌, ◌^◌, length, drop, OnOk};
ghost use Rattle.std.specs.Result.{result_err};
ghost use Rattle.apei_einj.specs.Table.{stated_count, header_refusal, count_refusal};

use crate::EinjError;
use apei_base::u32_at;

// Where the fields of the injection header stand, in bytes from the start of the table.
const HEADER_SIZE: usize = 36;

const COUNT: usize = 44;

/// Where the first entry begins, in bytes from the start of the table.
pub(crate) const FIRST_ENTRY: usize = 48;

/// How many bytes an entry has.
pub(crate) const ENTRY_SIZE: usize = 32;

/// Tests that the table has room for the injection header, and states the size of both headers or of this one.
pub(crate) fn check_header(bytes: &[u8]) -> Result<(), EinjError>
    ensures err { result_err result ≡ header_refusal bytes.now }
    ensures whole { OnOk result (48 ≤ length bytes.now) }
{
    if bytes.len() < FIRST_ENTRY {
        return Err(EinjError::HeaderSize);
    }
    match u32_at(bytes, HEADER_SIZE) {
        48 | 12 => Ok(()),
        _ => Err(EinjError::HeaderSize),
    }
}

/// Tests that the bytes behind the injection header are the entries that are stated, and no more.
pub(crate) fn check_count(bytes: &[u8]) -> Result<(), EinjError>
    requires whole { 48 ≤ length bytes.now }
    requires small { length bytes.now < 2 ^ 32 }
    ensures err { result_err result ≡ count_refusal bytes.now }
    ensures counted { OnOk result (32 * stated_count bytes.now ≡ length (drop 48 bytes.now)) }
{
    let said = u32_at(bytes, COUNT);
    let behind = bytes.len() - FIRST_ENTRY;
    if said as usize * ENTRY_SIZE == behind {
        return Ok(());
    }
    Err(EinjError::CountMismatch {
        said,
        found: (behind / ENTRY_SIZE) as u32,
    })
}
