// Which kind of section a GUID names, and how many bytes it needs.
use super::{MEMORY, PCIE, PROCESSOR, counted};
use crate::{Kind, Section};
use hex::FromHex;
use std::test::Fail;
use uuid::Uuid;

// The kind of a section, none of one whose fields are not read, and whether it is short.
fn kind_of(section: &Section) -> (Option<Kind>, bool) {
    match section {
        Section::Memory(_) => (Some(Kind::Memory), false),
        Section::Processor(_) => (Some(Kind::Processor), false),
        Section::Pcie(_) => (Some(Kind::Pcie), false),
        Section::Short(kind, _) => (Some(*kind), true),
        Section::Other(_) => (None, false),
    }
}

// GUIDs as they lie in a block.
const GUIDS: [(&str, Option<Kind>); 6] = [
    ("1411bca5646fde4eb8633e83ed7c83b1", Some(Kind::Memory)),
    ("adcc7698b447db4bb65e16f193c4f3db", Some(Kind::Processor)),
    ("54e995d9c1bb0f43ad91b44dcb3c6f35", Some(Kind::Pcie)),
    ("a5bc11146f644edeb8633e83ed7c83b1", None),
    ("1411bca5646fde4eb8633e83ed7c83b0", None),
    ("00000000000000000000000000000000", None),
];

// Lengths, and whether a section of the kind is short of them.
const LENGTHS: [(&str, Kind, usize, bool); 12] = [
    (MEMORY, Kind::Memory, 0, true),
    (MEMORY, Kind::Memory, 7, true),
    (MEMORY, Kind::Memory, 72, true),
    (MEMORY, Kind::Memory, 73, false),
    (PROCESSOR, Kind::Processor, 0, true),
    (PROCESSOR, Kind::Processor, 73, true),
    (PROCESSOR, Kind::Processor, 191, true),
    (PROCESSOR, Kind::Processor, 192, false),
    (PCIE, Kind::Pcie, 0, true),
    (PCIE, Kind::Pcie, 192, true),
    (PCIE, Kind::Pcie, 207, true),
    (PCIE, Kind::Pcie, 208, false),
];

#[test]
fn a_guid_names_a_kind(rt: HostRuntime) -> Result<(), Fail> {
    let bytes = counted(0x3_ffff);
    for (block, kind) in &GUIDS {
        let guid = Uuid::from_bytes_le(<[u8; 16]>::from_hex(block)?);
        let found = kind_of(&Section::read(&guid, &bytes));
        assert_eq!(rt; found, (*kind, false), "at {block}");
    }
    Ok(())
}

#[test]
fn fewer_bytes_than_a_kind_needs_are_short(rt: HostRuntime) -> Result<(), Fail> {
    let bytes = counted(0x3_ffff);
    for (guid, kind, length, short) in &LENGTHS {
        let front = bytes.split_at(*length).0;
        let found = kind_of(&Section::read(&Uuid::parse_str(guid)?, front));
        assert_eq!(rt; found, (Some(*kind), *short), "of {length} bytes");
    }
    Ok(())
}
