//! A row of a table of fields, and the one reader over rows.
ghost use Rattle.std.specs.Prelude.{◌≡◌, ◌<◌, ◌≤◌, ◌+◌, ◌==◌, length, true, IfSome};
ghost use Rattle.std.specs.List.{before_first, position_from};

use crate::Form;
use byteorder::{ByteOrder, LittleEndian};

/// A field of a section: its name, its bit of the validation number, its offset from the start of the section and its
/// width, both in bytes, and how it is read. Each row of a section can be read (`is_field`): a number has 1 to 8 bytes.
#[derive(Clone, Copy, Debug)]
pub struct Row {
    pub name: &'static str,
    pub bit: u32,
    pub at: usize,
    pub width: usize,
    pub form: Form,
}

// Where the first 0 is.
fn first_zero(bytes: &[u8]) -> Option<usize>
    ensures place { result ≡ position_from (λ byte. byte == 0) 0 bytes.now }
    ensures bound { IfSome result (λ i. i < length bytes.now) }
{
    bytes.iter().position(|&byte| byte == 0)
}

// The bytes before the first 0, or all.
#[tactic(auto, using(crate::proofs::TextLemmas::take_to_first))]
fn before_zero(bytes: &[u8]) -> &[u8]
    ensures { result.now ≡ before_first (λ byte. byte == 0) bytes.now }
{
    let end = first_zero(bytes).unwrap_or(bytes.len());
    bytes.split_at(end).0
}

impl Row {
    ghost use Rattle.std.specs.Prelude.{drop, if◌then◌else◌, Some, None};
    ghost use Rattle.std.specs.Option.{option_copied};
    ghost use Rattle.cper_sections.specs.declared.form.Form.TheVariants.{Number};
    ghost use Rattle.cper_sections.specs.Field.{is_field, is_given, number_of, bytes_of, text_of};
    ghost use Rattle.cper_sections.specs.Row.{field_of};

    /// Whether the field is given: its bit is set, and all its bytes are at hand.
    #[tactic(auto, using(crate::proofs::RowLemmas::bit_in, crate::proofs::RowLemmas::end_in))]
    pub fn is_given(&self, bytes: &[u8]) -> bool
        requires field { is_field (field_of self.now) ≡ true }
        requires validation { 8 ≤ length bytes.now }
        ensures { result ≡ is_given self.now.bit self.now.at self.now.width bytes.now }
    {
        LittleEndian::read_u64(bytes) >> self.bit & 1 == 1 && self.at + self.width <= bytes.len()
    }

    /// The bytes from the field on, where it is given.
    pub(crate) fn begun<'a>(&self, bytes: &'a [u8]) -> Option<&'a [u8]>
        requires field { is_field (field_of self.now) ≡ true }
        requires validation { 8 ≤ length bytes.now }
        ensures value { option_copied result ≡ (if is_given self.now.bit self.now.at self.now.width bytes.now
            then Some (drop self.now.at bytes.now) else None) }
        ensures whole { IfSome result (λ rest. self.now.width ≤ length rest.now) }
    {
        if self.is_given(bytes) {
            Some(bytes.split_at(self.at).1)
        } else {
            None
        }
    }

    /// The number of a field of one byte, where it is given.
    pub(crate) fn u8(&self, bytes: &[u8]) -> Option<u8>
        requires field { is_field (field_of self.now) ≡ true }
        requires validation { 8 ≤ length bytes.now }
        requires width { self.now.width ≡ 1 }
        ensures { result ≡ number_of (field_of self.now) bytes.now }
    {
        Some(self.begun(bytes)?[0])
    }

    /// The number of a field of two bytes, where it is given.
    pub(crate) fn u16(&self, bytes: &[u8]) -> Option<u16>
        requires field { is_field (field_of self.now) ≡ true }
        requires validation { 8 ≤ length bytes.now }
        requires width { self.now.width ≡ 2 }
        ensures { result ≡ number_of (field_of self.now) bytes.now }
    {
        Some(LittleEndian::read_u16(self.begun(bytes)?))
    }

    /// The number of a field of four bytes, where it is given.
    pub(crate) fn u32(&self, bytes: &[u8]) -> Option<u32>
        requires field { is_field (field_of self.now) ≡ true }
        requires validation { 8 ≤ length bytes.now }
        requires width { self.now.width ≡ 4 }
        ensures { result ≡ number_of (field_of self.now) bytes.now }
    {
        Some(LittleEndian::read_u32(self.begun(bytes)?))
    }

    /// The number of a field of eight bytes, where it is given.
    pub(crate) fn u64(&self, bytes: &[u8]) -> Option<u64>
        requires field { is_field (field_of self.now) ≡ true }
        requires validation { 8 ≤ length bytes.now }
        requires width { self.now.width ≡ 8 }
        ensures { result ≡ number_of (field_of self.now) bytes.now }
    {
        Some(LittleEndian::read_u64(self.begun(bytes)?))
    }

    /// The number of a field that is one, where it is given.
    #[tactic(auto, using(crate::proofs::RowLemmas::least_width, crate::proofs::RowLemmas::most_width))]
    pub fn number(&self, bytes: &[u8]) -> Option<u64>
        requires field { is_field (field_of self.now) ≡ true }
        requires validation { 8 ≤ length bytes.now }
        requires form { self.now.form ≡ Number }
        ensures { result ≡ number_of (field_of self.now) bytes.now }
    {
        let rest = self.begun(bytes)?;
        if self.width == 8 {
            return Some(LittleEndian::read_u64(rest));
        }
        Some(LittleEndian::read_uint(rest, self.width))
    }

    /// The bytes of a field, where it is given.
    pub fn bytes<'a>(&self, bytes: &'a [u8]) -> Option<&'a [u8]>
        requires field { is_field (field_of self.now) ≡ true }
        requires validation { 8 ≤ length bytes.now }
        ensures { option_copied result ≡ bytes_of (field_of self.now) bytes.now }
    {
        Some(self.begun(bytes)?.split_at(self.width).0)
    }

    /// The text of a field, its bytes before the first 0, where it is given.
    pub fn text<'a>(&self, bytes: &'a [u8]) -> Option<&'a [u8]>
        requires field { is_field (field_of self.now) ≡ true }
        requires validation { 8 ≤ length bytes.now }
        ensures { option_copied result ≡ text_of (field_of self.now) bytes.now }
    {
        Some(before_zero(self.bytes(bytes)?))
    }
}
