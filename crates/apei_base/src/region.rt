//! A place that is read or written in one access.
ghost use Rattle.std.specs.Prelude.{◌≡◌, IsTrue};
ghost use Rattle.apei_base.specs.Width.{is_width};

/// The address spaces that a region may be in.
///
/// Source: ACPI 6.5, 5.2.3.2.
#[derive(Clone, Copy, Debug, PartialEq, Eq)]
pub enum Space {
    /// System memory, by physical address.
    Memory,
    /// I/O ports, by number.
    Port,
}

/// A place that is read or written in one access.
#[derive(Clone, Copy, Debug, PartialEq, Eq)]
pub struct Region {
    pub space: Space,
    /// The address of its first byte.
    pub address: u64,
    /// How wide the access is, in bits: 8, 16, 32 or 64.
    pub width: u8,
    pub ghost width_is: { IsTrue (is_width width) },
}

impl Region {
    ghost use Rattle.apei_base.specs.declared.region.Space.TheVariants.{Memory};

    /// The region of the memory space at an address, with a width in bits.
    pub fn memory(address: u64, width: u8) -> Region
        requires { IsTrue (is_width width) }
        ensures space { result.space ≡ Memory }
        ensures address { result.address ≡ address }
        ensures width { result.width ≡ width }
    {
        Region {
            space: Space::Memory,
            address,
            width,
        }
    }
}
