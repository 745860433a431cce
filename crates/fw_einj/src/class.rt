//! The classes of error types.
ghost use Rattle.std.specs.Prelude.{◌≡◌};
ghost use Rattle.fw_einj.specs.Class.{class_of};

/// A class of error types: of the processor, of memory, of PCIe, and of the platform.
///
/// Source: ACPI 6.5, 18.6.4.
#[derive(Clone, Copy, Debug, PartialEq, Eq)]
pub enum Class {
    Processor,
    Memory,
    Pcie,
    Platform,
}

// The GUIDs of the sections, as they lie in a block.
#[rattlefmt::skip]
const PROCESSOR: [u8; 16] =
    [0xad, 0xcc, 0x76, 0x98, 0xb4, 0x47, 0xdb, 0x4b, 0xb6, 0x5e, 0x16, 0xf1, 0x93, 0xc4, 0xf3, 0xdb];

#[rattlefmt::skip]
const MEMORY: [u8; 16] =
    [0x14, 0x11, 0xbc, 0xa5, 0x64, 0x6f, 0xde, 0x4e, 0xb8, 0x63, 0x3e, 0x83, 0xed, 0x7c, 0x83, 0xb1];

#[rattlefmt::skip]
const PCIE: [u8; 16] =
    [0x54, 0xe9, 0x95, 0xd9, 0xc1, 0xbb, 0x0f, 0x43, 0xad, 0x91, 0xb4, 0x4d, 0xcb, 0x3c, 0x6f, 0x35];

#[rattlefmt::skip]
const PLATFORM: [u8; 16] =
    [0x52, 0x0c, 0x1d, 0x6b, 0xf4, 0x98, 0x3a, 0x4c, 0x8e, 0x0b, 0x2f, 0x7a, 0x51, 0xc0, 0xd9, 0xe3];

impl Class {
    ghost use Rattle.fw_einj.specs.Class.{guid_bytes};

    /// The class of an error type.
    pub fn of(error: u32) -> Class
        ensures { result ≡ class_of error }
    {
        match error {
            0x001 | 0x002 | 0x004 => Class::Processor,
            0x008 | 0x010 | 0x020 => Class::Memory,
            0x040 | 0x080 | 0x100 => Class::Pcie,
            _ => Class::Platform,
        }
    }

    /// The GUID of the section that tells an error of the class, as it lies in a block.
    pub(crate) fn guid(self) -> [u8; 16]
        ensures { result ≡ guid_bytes self }
    {
        match self {
            Class::Processor => PROCESSOR,
            Class::Memory => MEMORY,
            Class::Pcie => PCIE,
            Class::Platform => PLATFORM,
        }
    }
}
