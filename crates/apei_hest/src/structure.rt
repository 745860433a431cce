//! One structure at the front of bytes: its length, by its type.
ghost use Rattle.std.specs.Prelude.{◌≡◌, ◌≤◌, length, Some, IfOk};
ghost use Rattle.std.specs.Result.{result_err};
ghost use Rattle.apei_hest.specs.Structure.{with_banks, structure_length, structure_refusal};

use crate::HestError;
use apei_base::u16_at;

// The length with the banks, of 28 bytes each, whose count is the byte at an offset.
fn with_banks(fixed: usize, offset: usize, bytes: &[u8]) -> usize
    requires { fixed ≤ 48 }
    ensures { result ≡ with_banks fixed offset bytes.now }
{
    let banks = bytes.get(offset).copied().unwrap_or(0);
    fixed + 28 * usize::from(banks)
}

// The length of the structure that begins the bytes, by its type. Bytes that end before their bank count are shorter
// than this length.
#[tactic(auto, unfolding(crate::specs::Structure::structure_length))]
fn structure_length(bytes: &[u8]) -> Option<usize>
    requires { 2 ≤ length bytes.now }
    ensures { result ≡ structure_length bytes.now }
{
    match u16_at(bytes, 0) {
        0 => Some(with_banks(40, 32, bytes)),
        1 | 11 => Some(with_banks(48, 44, bytes)),
        2 => Some(20),
        6 => Some(48),
        7 => Some(44),
        8 => Some(56),
        9 => Some(64),
        10 => Some(92),
        _ => None,
    }
}

/// The length of the whole structure that begins the bytes, which stand at `at` in their table.
pub(crate) fn whole_length(bytes: &[u8], at: u32) -> Result<usize, HestError>
    ensures err { result_err result ≡ structure_refusal at bytes.now }
    ensures found { IfOk result (λ n. structure_length bytes.now ≡ Some n) }
    ensures within { IfOk result (λ n. n ≤ length bytes.now) }
{
    if bytes.len() < 4 {
        return Err(HestError::Truncated { at });
    }
    match structure_length(bytes) {
        None => Err(HestError::SourceType {
            at,
            kind: u16_at(bytes, 0),
        }),
        Some(n) if bytes.len() < n => Err(HestError::Truncated { at }),
        Some(n) => Ok(n),
    }
}
