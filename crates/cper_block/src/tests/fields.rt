// What the parts of a block and the fields of its entries are.
use super::{LIMIT, MEMORY, TWO, TWO_WITH_ALL, Tell, right};
use crate::{Block, DataEntry, Header};
use hex::FromHex;
use std::test::Fail;
use uuid::Uuid;

// An entry: its GUID, its revision, its validation, its FRU id, FRU text and timestamp as far as they are given, and the length of its
// section with its first byte.
type Fields = (
    &'static str,
    u16,
    u8,
    Option<&'static str>,
    &'static [u8],
    &'static [u8],
    usize,
    u8,
);

const GUID: &str = "00112233-4455-6677-8899-aabbccddeeff";

const FRU: &str = "33221100-5544-7766-8899-aabbccddeeff";

const TEXT: &[u8] = b"DIMM A1\0\0\0\0\0\0\0\0\0\0\0\0\0";

const TIME: &[u8] = &[0x11, 0x12, 0x13, 0x14, 0x15, 0x16, 0x17, 0x18];

const MEMORY_GUID: &str = "a5bc1114-6f64-4ede-b863-3e83ed7c83b1";

// Blocks of 164 bytes without raw data, of the severity 2: their status and their entries.
const BLOCKS: [(&str, u32, &[Fields]); 3] = [
    (
        MEMORY,
        0x12,
        &[(MEMORY_GUID, 0x0201, 0, None, &[], &[], 80, 0x06)],
    ),
    (
        TWO,
        0x22,
        &[
            (GUID, 0x0201, 0, None, &[], &[], 4, 1),
            (GUID, 0x0300, 0, None, &[], &[], 4, 1),
        ],
    ),
    (
        TWO_WITH_ALL,
        0x22,
        &[
            (GUID, 0x0201, 7, Some(FRU), TEXT, &[], 4, 1),
            (GUID, 0x0300, 7, Some(FRU), TEXT, TIME, 4, 1),
        ],
    ),
];

fn uuid_of(digits: Option<&str>) -> Result<Option<Uuid>, Fail> {
    match digits {
        Some(digits) => Ok(Some(Uuid::parse_str(digits)?)),
        None => Ok(None),
    }
}

// Whether an entry of severity 2 and without flags has these fields.
fn has(entry: &DataEntry<'_>, fields: Fields) -> Result<bool, Fail> {
    let (guid, revision, validation, fru, text, time, length, first) = fields;
    let codes = (
        entry.severity,
        entry.revision,
        entry.validation,
        entry.flags,
    );
    let ids = (Some(entry.guid), entry.fru_id);
    let section = (entry.section.len(), entry.section.first().copied());
    Ok(
        codes == (2, revision, validation, 0)
            && ids == (uuid_of(Some(guid))?, uuid_of(fru)?)
            && section == (length, Some(first))
            && entry.fru_text.unwrap_or(&[]) == text
            && entry.timestamp.unwrap_or(&[]) == time,
    )
}

// How many entries of a block have the fields of their rows, up to the first that has others.
fn alike(block: &Block<'_>, rows: &[Fields]) -> Result<usize, Fail> {
    let mut place = 0usize;
    for (entry, fields) in block.entries().zip(rows) {
        if !has(&entry, *fields)? {
            return Ok(place);
        }
        place = place.saturating_add(1);
    }
    Ok(place)
}

// The header of a block of 164 bytes with this status.
fn header_of(status: u32) -> Header {
    Header {
        status,
        raw_offset: 0,
        raw_length: 0,
        length: 144,
        severity: 2,
    }
}

#[test]
fn a_block_gives_its_parts_and_its_entries(rt: HostRuntime) -> Result<(), Fail> {
    for (digits, status, rows) in &BLOCKS {
        let bytes = <[u8; 164]>::from_hex(digits)?;
        let block = Block::read(&bytes, LIMIT)?;
        assert_eq!(rt; block.header(), header_of(*status));
        assert_eq!(rt; block.entries().count(), rows.len());
        assert_eq!(rt; alike(&block, *rows)?, rows.len());
    }
    Ok(())
}

// Raw bytes and entries of blocks under the highest limit.
const LARGE: &str = "0200000000000000000000000000000002000000: 65536: 0 0 0\n\
    0200000000000000000000000000000002000000*29: 65536: 0 0 0\n\
    0200000014000000010000000000000002000000*21: 65536: 1 0 0\n\
    0200000014000000ecff00000000000002000000*65536: 65536: 65516 0 0\n\
    02000000000000000000000000fa000002000000*64020: 65536: 0 1000 1000";

#[test]
fn a_block_may_have_much_behind_its_header(rt: HostRuntime) -> Result<(), Fail> {
    assert_eq!(rt; right(rt.alloc(), Tell::Sizes, LARGE)?, 5);
    Ok(())
}
