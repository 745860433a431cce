//! The address structure.
ghost use Rattle.std.specs.Prelude.{◌+◌, ◌^◌, nat_le, IsTrue};

/// Where the machine is told the error type and its place: 36 bytes of memory from an address on.
///
/// Source: ACPI 6.5, 18.6.4.
#[derive(Clone, Copy)]
pub struct AddressStructure {
    pub at: u64,
    pub ghost whole: { IsTrue (nat_le (at + 36) (2 ^ 64)) },
}
