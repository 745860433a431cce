use crate::{Bytes, Gas, GasError, Region, Sdt, SdtError, Space};
use hex::FromHex;
use std::test::Fail;

// The sample table "one source": its header, the count of its sources, and one structure with its
// notification and its block length.
const ONE_SOURCE: &str =
    "484553546800000001404748455352545245504c4159303101000000474845530100000001000000\
    09000100ffff0001010000000100000000000000004000040000007f00000000\
    041c0000000000000000000000000000000000000000000000000000\
    00100000";

// The table with another checksum.
fn with_checksum(mut table: [u8; 104], checksum: u8) -> [u8; 104] {
    table[9] = checksum;
    table
}

#[test]
fn a_table_gives_its_revision_and_what_stands_behind_its_header(
    rt: HostRuntime,
) -> Result<(), Fail> {
    let bytes = <[u8; 104]>::from_hex(ONE_SOURCE)?;
    let table = Sdt::read(&bytes, b"HEST")?;
    assert_eq!(rt; table.revision, 1);
    assert_eq!(rt; table.body, &bytes[36..]);
    Ok(())
}

#[test]
fn bytes_that_are_no_table_are_refused_for_the_first_reason(rt: HostRuntime) -> Result<(), Fail> {
    let table = <[u8; 104]>::from_hex(ONE_SOURCE)?;
    let wrong = with_checksum(table, 0x41);
    let cases = [
        ("no byte", &table[..0], b"HEST", SdtError::Short),
        ("35 bytes", &table[..35], b"HEST", SdtError::Short),
        ("the header alone", &table[..36], b"HEST", SdtError::Length),
        ("one byte fewer", &table[..103], b"HEST", SdtError::Length),
        (
            "signature, length",
            &table[..103],
            b"HESU",
            SdtError::Signature,
        ),
        ("signature", &table[..], b"HESU", SdtError::Signature),
        (
            "signature, checksum",
            &wrong[..],
            b"HESU",
            SdtError::Signature,
        ),
        ("another checksum", &wrong[..], b"HEST", SdtError::Checksum),
    ];
    for (name, bytes, signature, refusal) in cases {
        assert_eq!(rt; Sdt::read(bytes, signature).err(), Some(refusal), "{name}");
    }
    Ok(())
}

#[test]
fn a_generic_address_is_read_field_by_field(rt: HostRuntime) -> Result<(), Fail> {
    let gas = Gas::read(&<[u8; 12]>::from_hex("0140020308070605f4f3f2f1")?);
    assert_eq!(rt;
        (gas.space, gas.bit_width, gas.bit_offset, gas.access),
        (1, 64, 2, 3)
    );
    assert_eq!(rt; gas.address, 0xf1f2_f3f4_0506_0708);
    Ok(())
}

// Space, bit width, bit offset, access size code and address; then what they name: a space and a width.
const CASES: [(u8, u8, u8, u8, u64, Result<(Space, u8), GasError>); 21] = [
    (0, 64, 0, 0, 0x7f00_0000, Ok((Space::Memory, 64))),
    (0, 64, 0, 1, 0x7f00_0000, Ok((Space::Memory, 64))),
    (0, 64, 0, 1, 0x7f00_0004, Err(GasError::TooWide)),
    (0, 64, 1, 0, 0x7f00_0000, Err(GasError::TooWide)),
    (1, 8, 0, 1, 0xb2, Ok((Space::Port, 8))),
    (1, 64, 0, 4, 0xb0, Err(GasError::PortWidth)),
    (2, 8, 0, 1, 0, Err(GasError::Space)),
    (0, 8, 0, 5, 0, Err(GasError::AccessSize)),
    (0, 64, 0, 4, 0xffff_ffff_ffff_fffc, Err(GasError::PastEnd)),
    // A whole register of 32 bits: never narrower, and as wide as its code where that is wider.
    (0, 32, 0, 1, 0x1004, Ok((Space::Memory, 32))),
    (0, 32, 0, 4, 0x1004, Ok((Space::Memory, 64))),
    (0, 32, 0, 1, 0x1002, Err(GasError::TooWide)),
    // A field that ends with the access, and one that ends a bit behind it.
    (0, 4, 4, 1, 0x1000, Ok((Space::Memory, 8))),
    (0, 4, 5, 1, 0x1000, Err(GasError::TooWide)),
    (0, 4, 5, 0, 0x1000, Ok((Space::Memory, 16))),
    // Regions that end with the last address, and one that does not.
    (0, 64, 0, 4, 0xffff_ffff_ffff_fff8, Ok((Space::Memory, 64))),
    (0, 8, 0, 1, 0xffff_ffff_ffff_ffff, Ok((Space::Memory, 8))),
    (0, 16, 0, 2, 0xffff_ffff_ffff_ffff, Err(GasError::PastEnd)),
    // Of two reasons the first is told.
    (2, 8, 0, 5, 0, Err(GasError::Space)),
    (1, 64, 1, 4, 0xb0, Err(GasError::TooWide)),
    (1, 64, 0, 4, 0xffff_ffff_ffff_fffc, Err(GasError::PortWidth)),
];

#[test]
fn a_generic_address_names_a_region_or_is_refused(rt: HostRuntime) {
    for (space, bit_width, bit_offset, access, address, answer) in CASES {
        let gas = Gas {
            space,
            bit_width,
            bit_offset,
            access,
            address,
        };
        let region = gas.check();
        assert_eq!(rt;
            region.map(|found| (found.space, found.width)),
            answer,
            "at {gas:?}"
        );
        assert_eq!(rt;
            region.map_or(address, |found| found.address),
            address,
            "at {gas:?}"
        );
    }
}

#[test]
fn a_region_of_memory_has_its_address_and_width(rt: HostRuntime) {
    let region = Region::memory(0x1000, 32);
    assert_eq!(rt;
        (region.space, region.address, region.width),
        (Space::Memory, 0x1000, 32)
    );
}

#[test]
fn a_region_has_its_cells_and_the_low_bits_that_fit_it(rt: HostRuntime) -> Result<(), Fail> {
    let value = 0x0123_4567_89ab_cdef;
    for (width, low) in [(8, 0xef), (16, 0xcdef), (32, 0x89ab_cdef), (64, value)] {
        let region = Region::memory(0x1000, width);
        assert_eq!(rt; region.low_bits(value), low, "at {width}");
    }
    let region = Region::memory(0x1000, 8);
    let mut port = Region::memory(0x1000, 8);
    port.space = Space::Port;
    let cases = [
        ("itself", region, true),
        ("another address", Region::memory(0x1001, 8), false),
        ("another width", Region::memory(0x1000, 16), false),
        ("a port", port, false),
    ];
    for (name, other, same) in cases {
        assert_eq!(rt; region.is_same(&other), same, "{name}");
    }
    Ok(())
}

#[test]
fn each_refusal_prints_its_number_and_its_words(rt: HostRuntime) -> Result<(), Fail> {
    let alloc = rt.alloc();
    let tables = [
        (SdtError::Short, "1 short"),
        (SdtError::Signature, "2 signature"),
        (SdtError::Length, "3 length"),
        (SdtError::Checksum, "4 checksum"),
    ];
    for (error, text) in tables {
        assert_eq!(rt; error.to_string(alloc)?.as_str(), text);
    }
    let addresses = [
        (GasError::Space, "1 space"),
        (GasError::AccessSize, "2 access size"),
        (GasError::TooWide, "3 too wide"),
        (GasError::PortWidth, "4 port width"),
        (GasError::PastEnd, "5 past end"),
    ];
    for (error, text) in addresses {
        assert_eq!(rt; error.to_string(alloc)?.as_str(), text);
    }
    Ok(())
}

#[test]
fn copied_bytes_are_the_bytes(rt: HostRuntime) -> Result<(), Fail> {
    let bytes = Bytes::copy(rt.alloc(), &[1, 2, 3])?;
    assert_eq!(rt; bytes.as_slice(), [1, 2, 3].as_slice());
    // A table of 1 MiB.
    let mut table = Vec::new(rt.alloc());
    table.resize(1_048_576, 7u8)?;
    let bytes = Bytes::copy(rt.alloc(), &table)?;
    assert!(rt; bytes.as_slice() == table.as_slice());
    Ok(())
}
