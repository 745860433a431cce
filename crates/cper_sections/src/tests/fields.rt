// The fields of each kind of section. Each byte behind the validation number is its own offset.
use super::{MEMORY, PCIE, PROCESSOR, counted};
use crate::{Memory, Pcie, Processor, Section};
use std::test::Fail;
use uuid::Uuid;

// The fields of a memory section: of 8 bytes, of 2 bytes at its front and behind, and of one.
#[rattlefmt::skip]
fn memory_of(m: &Memory<'_>) -> ([Option<u64>; 6], [Option<u16>; 4], [Option<u16>; 7], Option<u8>) {
    (
        [m.status(), m.physical_address(), m.mask(), m.requestor(), m.responder(), m.target()],
        [m.node(), m.card(), m.module(), m.bank()],
        [m.device(), m.row(), m.column(), m.bit_position(), m.rank(), m.card_handle(), m.module_handle()],
        m.kind(),
    )
}

#[rattlefmt::skip]
fn is_memory(section: &Section<'_>) -> bool {
    let Section::Memory(m) = section else {
        return false;
    };
    memory_of(m) == (
        [
            Some(0x0f0e_0d0c_0b0a_0908), Some(0x1716_1514_1312_1110), Some(0x1f1e_1d1c_1b1a_1918),
            Some(0x3736_3534_3332_3130), Some(0x3f3e_3d3c_3b3a_3938), Some(0x4746_4544_4342_4140),
        ],
        [Some(0x2120), Some(0x2322), Some(0x2524), Some(0x2726)],
        [Some(0x2928), Some(0x2b2a), Some(0x2d2c), Some(0x2f2e), Some(0x4b4a), Some(0x4d4c), Some(0x4f4e)],
        Some(0x48),
    )
}

// How many bytes a field has, and its first and its last.
fn ends(field: Option<&[u8]>) -> (usize, Option<u8>, Option<u8>) {
    let bytes = field.unwrap_or(&[]);
    (bytes.len(), bytes.first().copied(), bytes.last().copied())
}

// The fields of a processor section: of one byte, and of 8.
#[rattlefmt::skip]
fn processor_of(p: &Processor<'_>) -> ([Option<u8>; 6], [Option<u64>; 6]) {
    (
        [p.processor_type(), p.isa(), p.error_type(), p.operation(), p.flags(), p.level()],
        [p.version(), p.id(), p.target_address(), p.requestor(), p.responder(), p.instruction_pointer()],
    )
}

#[rattlefmt::skip]
fn is_processor(section: &Section<'_>) -> bool {
    let Section::Processor(p) = section else {
        return false;
    };
    ends(p.brand()) == (128, Some(24), Some(151)) && processor_of(p) == (
        [Some(8), Some(9), Some(10), Some(11), Some(12), Some(13)],
        [
            Some(0x1716_1514_1312_1110), Some(0x9f9e_9d9c_9b9a_9998), Some(0xa7a6_a5a4_a3a2_a1a0),
            Some(0xafae_adac_abaa_a9a8), Some(0xb7b6_b5b4_b3b2_b1b0), Some(0xbfbe_bdbc_bbba_b9b8),
        ],
    )
}

// The fields of a PCIe section that are numbers: of one byte, and of 2.
#[rattlefmt::skip]
fn pcie_of(p: &Pcie<'_>) -> ([Option<u8>; 6], [Option<u16>; 8]) {
    (
        [p.version_minor(), p.version_major(), p.function(), p.device(), p.bus(), p.secondary_bus()],
        [p.command(), p.status(), p.vendor(), p.device_id(), p.segment(), p.slot(), p.bridge_status(), p.bridge_control()],
    )
}

// Whether its fields that are bytes begin and end with their offsets.
#[rattlefmt::skip]
fn has_bytes(p: &Pcie<'_>) -> bool {
    p.class().unwrap_or(&[]) == [28, 29, 30].as_slice()
        && p.serial().unwrap_or(&[]) == [40, 41, 42, 43, 44, 45, 46, 47].as_slice()
        && ends(p.capability()) == (60, Some(52), Some(111))
        && ends(p.aer()) == (96, Some(112), Some(207))
}

#[rattlefmt::skip]
fn is_pcie(section: &Section<'_>) -> bool {
    let Section::Pcie(p) = section else {
        return false;
    };
    p.port_type() == Some(0x0b0a_0908) && has_bytes(p) && pcie_of(p) == (
        [Some(12), Some(13), Some(31), Some(32), Some(35), Some(36)],
        [
            Some(0x1110), Some(0x1312), Some(0x1918), Some(0x1b1a),
            Some(0x2221), Some(0x2625), Some(0x3130), Some(0x3332),
        ],
    )
}

#[test]
fn each_field_of_a_memory_section_has_its_place(rt: HostRuntime) -> Result<(), Fail> {
    let bytes = counted(0x3_ffff);
    for length in [80, 81, 216] {
        let section = Section::read(&Uuid::parse_str(MEMORY)?, bytes.split_at(length).0);
        assert!(rt; is_memory(&section), "of {length} bytes");
    }
    Ok(())
}

#[test]
fn each_field_of_a_processor_section_has_its_place(rt: HostRuntime) -> Result<(), Fail> {
    let bytes = counted(0x1fff);
    for length in [192, 193, 216] {
        let section = Section::read(&Uuid::parse_str(PROCESSOR)?, bytes.split_at(length).0);
        assert!(rt; is_processor(&section), "of {length} bytes");
    }
    Ok(())
}

#[test]
fn each_field_of_a_pcie_section_has_its_place(rt: HostRuntime) -> Result<(), Fail> {
    let bytes = counted(0xff);
    for length in [208, 209, 216] {
        let section = Section::read(&Uuid::parse_str(PCIE)?, bytes.split_at(length).0);
        assert!(rt; is_pcie(&section), "of {length} bytes");
    }
    Ok(())
}
