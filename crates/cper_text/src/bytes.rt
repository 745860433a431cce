//! Bytes in a text: as digits, and as characters.
ghost use Rattle.std.specs.Prelude.{◌≡◌, ◌≤◌, ◌++◌, length, OnOk};
ghost use Rattle.std.specs.Int.{bytes_high_first};
ghost use Rattle.hex.specs.Hex.{encode_lower};
ghost use Rattle.cper_text.specs.Bytes.{bytes_text, bytes_line, shown, shown_text, text_line};

use crate::text::Text;
use std::alloc::AllocError;

// How many bytes are made digits at once: 64 digits.
const CHUNK: usize = 32;

// Adds the digits of at most so many bytes.
fn few_digits(text: &mut Text, bytes: &[u8]) -> Result<(), AllocError>
    requires { length bytes.now ≤ 32 }
    ensures ok { OnOk result (text.new.added ≡ text.old.added ++ encode_lower bytes.now) }
    ensures front { text.new.front ≡ text.old.front }
{
    let mut buffer = [0u8; 64];
    let (digits, _unused) = buffer.split_at_mut(2 * bytes.len());
    hex::encode_to_slice(bytes, digits).unwrap();
    text.put(digits)
}

/// Adds the digits of so many of the lowest bytes of a number, the highest of them first.
#[tactic(auto, using(crate::proofs::DigitLemmas::low_bytes))]
pub fn low_digits(text: &mut Text, bytes: usize, number: u64) -> Result<(), AllocError>
    requires { bytes ≤ 8 }
    ensures ok { OnOk result (text.new.added ≡ text.old.added ++ encode_lower (bytes_high_first bytes number)) }
    ensures front { text.new.front ≡ text.old.front }
{
    few_digits(text, number.to_be_bytes().split_at(8 - bytes).1)
}

// Adds the digits of the bytes.
fn digits(text: &mut Text, bytes: &[u8]) -> Result<(), AllocError>
    ensures ok { OnOk result (text.new.added ≡ text.old.added ++ encode_lower bytes.now) }
    ensures front { text.new.front ≡ text.old.front }
{
    let mut rest = bytes;
    while !rest.is_empty() {
        let (chunk, behind) = rest.split_at(rest.len().min(CHUNK));
        few_digits(text, chunk)?;
        rest = behind;
    }
    Ok(())
}

// Adds the digits of the bytes, or a word where there are none.
fn bytes_text(text: &mut Text, bytes: &[u8]) -> Result<(), AllocError>
    ensures ok { OnOk result (text.new.added ≡ text.old.added ++ bytes_text bytes.now) }
    ensures front { text.new.front ≡ text.old.front }
{
    if bytes.is_empty() {
        return text.put(b"empty");
    }
    digits(text, bytes)
}

/// Adds a line of bytes behind a head.
#[tactic(auto, using(crate::proofs::Joining::grouped), unfolding(crate::specs::Bytes::bytes_line))]
pub(crate) fn bytes_line(text: &mut Text, head: &str, bytes: &[u8]) -> Result<(), AllocError>
    ensures ok { OnOk result (text.new.added ≡ text.old.added ++ bytes_line head.now bytes.now) }
    ensures front { text.new.front ≡ text.old.front }
{
    text.put(head.as_bytes())?;
    bytes_text(text, bytes)?;
    text.put(b"\n")
}

// What is printed for a byte of a text.
fn shown(byte: u8) -> u8
    ensures { result ≡ shown byte }
{
    match byte {
        0x20..=0x7e => byte,
        _ => b'.',
    }
}

// Adds the characters of a text up to its first 0.
fn shown_text(text: &mut Text, bytes: &[u8]) -> Result<(), AllocError>
    ensures ok { OnOk result (text.new.added ≡ text.old.added ++ shown_text bytes.now) }
    ensures front { text.new.front ≡ text.old.front }
{
    for byte in bytes {
        if *byte == 0 {
            return Ok(());
        }
        text.put(&[shown(*byte)])?;
    }
    Ok(())
}

/// Adds a line of a text behind a head, between quotation marks.
#[tactic(auto, using(crate::proofs::Joining::grouped), unfolding(crate::specs::Bytes::text_line))]
pub(crate) fn text_line(text: &mut Text, head: &str, bytes: &[u8]) -> Result<(), AllocError>
    ensures ok { OnOk result (text.new.added ≡ text.old.added ++ text_line head.now bytes.now) }
    ensures front { text.new.front ≡ text.old.front }
{
    text.put(head.as_bytes())?;
    text.put(b"\"")?;
    shown_text(text, bytes)?;
    text.put(b"\"\n")
}
