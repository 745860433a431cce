//! What is to be injected, and where.
ghost use Rattle.std.specs.Prelude.{◌≡◌, ◌<◌, ◌^◌, IsTrue};
ghost use Rattle.apei_einj.specs.Request.{is_error_type, has_place, flags_of, processor_of, address_of, mask_of, pcie_of};

/// Where an error is to be injected.
///
/// Source: ACPI 6.5, 18.6.4.
#[derive(Clone, Copy, Debug, PartialEq, Eq)]
pub enum Place {
    /// The firmware chooses.
    Nowhere,
    /// A physical address, and the mask of those of its bits that count.
    Memory { address: u64, mask: u64 },
    /// A processor, by its APIC id.
    Processor(u32),
    /// A PCIe function: the segment in bits 24 to 31, the bus in 16 to 23, the device in 11 to 15, and the function in
    /// 8 to 10. Source: Own choice.
    Pcie(u32),
}

/// An error that is to be injected.
#[derive(Clone, Copy, Debug, PartialEq, Eq)]
pub struct Request {
    /// The error type: one of the bits 0 to 11. Bits 0 to 2 are of the processor, 3 to 5 of memory, 6 to 8 of PCIe and
    /// 9 to 11 of the platform; of each three the first is correctable, the second uncorrectable but not fatal, and the
    /// third fatal. Source: ACPI 6.5, 18.6.4.
    pub error: u32,
    pub place: Place,
    pub ghost error_is: { IsTrue (is_error_type error) },
}

/// Whether a number is an error type: one of the bits 0 to 11, and no other.
///
/// Source: ACPI 6.5, 18.6.4.
pub fn is_error_type(error: u32) -> bool
    ensures { result ≡ is_error_type error }
{
    matches!(
        error,
        0x001
            | 0x002
            | 0x004
            | 0x008
            | 0x010
            | 0x020
            | 0x040
            | 0x080
            | 0x100
            | 0x200
            | 0x400
            | 0x800
    )
}

impl Place {
    /// Whether the place is named, and not the firmware's choice.
    pub(crate) fn is_named(&self) -> bool
        ensures { result ≡ has_place self.now }
    {
        !matches!(self, Place::Nowhere)
    }

    /// The flags of the address structure.
    pub(crate) fn flags(&self) -> u32
        ensures { result ≡ flags_of self.now }
    {
        match self {
            Place::Nowhere => 0,
            Place::Processor(_) => 1,
            Place::Memory { .. } => 2,
            Place::Pcie(_) => 4,
        }
    }

    /// The id of the processor, else 0.
    pub(crate) fn processor(&self) -> u32
        ensures { result ≡ processor_of self.now }
    {
        match *self {
            Place::Processor(id) => id,
            _ => 0,
        }
    }

    /// The memory address, else 0.
    pub(crate) fn address(&self) -> u64
        ensures { result ≡ address_of self.now }
    {
        match *self {
            Place::Memory { address, .. } => address,
            _ => 0,
        }
    }

    /// The mask of the memory address, else 0.
    pub(crate) fn mask(&self) -> u64
        ensures { result ≡ mask_of self.now }
    {
        match *self {
            Place::Memory { mask, .. } => mask,
            _ => 0,
        }
    }

    /// The PCIe word, else 0.
    pub(crate) fn pcie(&self) -> u32
        ensures { result ≡ pcie_of self.now }
    {
        match *self {
            Place::Pcie(word) => word,
            _ => 0,
        }
    }
}
