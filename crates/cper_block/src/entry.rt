//! A data entry of a block: its length, its header's fields, its section.
ghost use Rattle.std.specs.Prelude.{◌≡◌, ◌≤◌, ◌+◌, length, false, None, IfSome};
ghost use Rattle.std.specs.Option.{option_copied};
ghost use Rattle.cper_block.specs.Cut.{begins_entry};
ghost use Rattle.cper_block.specs.Entry.{entry_header_size, entry_header_length, section_length, entry_length, guid_at, is_valid, view, fields_of};

use apei_base::{u16_at, u32_at};
use uuid::Uuid;

/// How many bytes the header of an entry has at least.
pub(crate) const ENTRY_HEADER_SIZE: usize = 64;

// How many bytes it has with a timestamp.
const LONG_ENTRY_HEADER_SIZE: usize = 72;

/// A data entry of a block: what its header says, and its section.
///
/// Source: ACPI 6.5, 18.3.2.7.1, and UEFI 2.10, appendix N.2.
#[derive(Clone, Copy, Debug)]
pub struct DataEntry<'a> {
    /// The type of the section.
    pub guid: Uuid,
    /// The code of the severity.
    pub severity: u32,
    pub revision: u16,
    /// Which of the optional fields are there: bit 0 FRU id, bit 1 FRU text, bit 2 timestamp.
    pub validation: u8,
    pub flags: u8,
    pub fru_id: Option<Uuid>,
    /// All 20 bytes of the text.
    pub fru_text: Option<&'a [u8]>,
    /// The 8 bytes of the timestamp. Only a header of 72 bytes has one.
    pub timestamp: Option<&'a [u8]>,
    pub section: &'a [u8],
}

// The GUID in the 16 bytes at an offset.
fn guid_at(bytes: &[u8], offset: usize) -> Uuid
    requires { offset + 16 ≤ length bytes.now }
    ensures { result ≡ guid_at offset bytes.now }
{
    let mut guid = [0u8; 16];
    guid.copy_from_slice(bytes.split_at(offset).1.split_at(16).0);
    Uuid::from_bytes_le(guid)
}

// Whether a bit of the validation byte is set.
fn is_valid(bytes: &[u8], mask: u8) -> bool
    requires { entry_header_size ≤ length bytes.now }
    ensures { result ≡ is_valid mask bytes.now }
{
    bytes[22] & mask != 0
}

// How many bytes the header of the entry has that begins the bytes.
fn entry_header_length(bytes: &[u8]) -> usize
    requires { entry_header_size ≤ length bytes.now }
    ensures { result ≡ entry_header_length bytes.now }
{
    if u16_at(bytes, 20) / 256 >= 3 {
        LONG_ENTRY_HEADER_SIZE
    } else {
        ENTRY_HEADER_SIZE
    }
}

// How many bytes the entry has that begins the bytes.
fn entry_length(bytes: &[u8]) -> usize
    requires { entry_header_size ≤ length bytes.now }
    ensures value { result ≡ entry_length bytes.now }
    ensures header { entry_header_length bytes.now ≤ result }
{
    entry_header_length(bytes) + u32_at(bytes, 24) as usize
}

/// How many bytes the entry has that begins the bytes, where a whole one does.
pub(crate) fn whole_entry(bytes: &[u8]) -> Option<usize>
    ensures found { IfSome result (λ n. n ≡ entry_length bytes.now) }
    ensures none { result ≡ None → begins_entry bytes.now ≡ false }
    ensures long { IfSome result (λ n. entry_header_size ≤ length bytes.now) }
    ensures within { IfSome result (λ n. n ≤ length bytes.now) }
    ensures header { IfSome result (λ n. entry_header_length bytes.now ≤ n) }
{
    if bytes.len() < ENTRY_HEADER_SIZE {
        return None;
    }
    let length = entry_length(bytes);
    if length <= bytes.len() {
        Some(length)
    } else {
        None
    }
}

// The text of the FRU, where it is there.
#[tactic(auto, unfolding(crate::specs::Entry::fields_of))]
fn fru_text(bytes: &[u8]) -> Option<&[u8]>
    requires { entry_header_size ≤ length bytes.now }
    ensures { option_copied result ≡ (fields_of bytes.now).fru_text }
{
    if is_valid(bytes, 2) {
        Some(bytes.split_at(44).1.split_at(20).0)
    } else {
        None
    }
}

// The timestamp, where it is there.
#[tactic(auto, unfolding(crate::specs::Entry::fields_of))]
fn timestamp(bytes: &[u8]) -> Option<&[u8]>
    requires header { entry_header_size ≤ length bytes.now }
    requires whole { entry_header_length bytes.now ≤ length bytes.now }
    ensures { option_copied result ≡ (fields_of bytes.now).timestamp }
{
    if is_valid(bytes, 4) && entry_header_length(bytes) == LONG_ENTRY_HEADER_SIZE {
        Some(bytes.split_at(ENTRY_HEADER_SIZE).1.split_at(8).0)
    } else {
        None
    }
}

// The id of the FRU, where it is there.
#[tactic(auto, unfolding(crate::specs::Entry::fields_of))]
fn fru_id(bytes: &[u8]) -> Option<Uuid>
    requires { entry_header_size ≤ length bytes.now }
    ensures { result ≡ (fields_of bytes.now).fru_id }
{
    if is_valid(bytes, 1) {
        Some(guid_at(bytes, 28))
    } else {
        None
    }
}

impl<'a> DataEntry<'a> {
    /// The entry that the bytes are.
    #[tactic(auto, unfolding(crate::specs::Entry::fields_of))]
    pub(crate) fn read(bytes: &'a [u8]) -> DataEntry<'a>
        requires header { entry_header_size ≤ length bytes.now }
        requires whole { entry_header_length bytes.now ≤ length bytes.now }
        ensures { view result ≡ fields_of bytes.now }
    {
        DataEntry {
            guid: guid_at(bytes, 0),
            severity: u32_at(bytes, 16),
            revision: u16_at(bytes, 20),
            validation: bytes[22],
            flags: bytes[23],
            fru_id: fru_id(bytes),
            fru_text: fru_text(bytes),
            timestamp: timestamp(bytes),
            section: bytes.split_at(entry_header_length(bytes)).1,
        }
    }
}
