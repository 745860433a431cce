//! Where a source stands.
ghost use Rattle.std.specs.Prelude.{option_map};
ghost use Rattle.apei_base.specs.Bus.{reach_of};
ghost use Rattle.fw_port.specs.Layout.{IsLayout};

use apei_base::Region;

/// Where an error source stands, no two of whose parts share a cell.
///
/// Source: ACPI 6.5, 18.3.2.7 and 18.3.2.8.
#[derive(Clone, Copy, Debug, PartialEq, Eq)]
pub struct SourceLayout {
    /// The status address register, which holds the address of the area.
    pub status: Region,
    /// The address of the area where blocks stand.
    pub area: u64,
    /// The length of the area in bytes: the receiver's limit of the source.
    pub room: u32,
    /// The read ack register, none where the source is of version 1.
    pub ack: Option<Region>,
    pub ghost is: { IsLayout (reach_of status) area room (option_map reach_of ack) },
}
