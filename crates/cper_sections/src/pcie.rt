//! The fields of a PCIe section.
ghost use Rattle.std.specs.Prelude.{◌≡◌};

use crate::{Form, Row};
use std::marker::Model;

/// A PCIe section of at least 208 bytes, borrowed. Each reader gives its field exactly where it is valid and whole.
///
/// Source: UEFI 2.10, appendix N.2.7.
#[derive(Debug, Drop)]
pub struct Pcie<'a> {
    bytes: &'a [u8],
}

impl<'a> Model for Pcie<'a> {
    ghost use Rattle.std.specs.Prelude.{◌≤◌, ℕ, List, length};

    ghost Value = { List ℕ };

    ghost invariant = { λ section. 208 ≤ length section.bytes.now };

    ghost view = { λ section. section.bytes.now };
}

// The rows of a PCIe section: name, bit of the validation number, offset and width in bytes, form (UEFI 2.10, appendix N.2.7).
#[rattlefmt::skip]
impl Pcie<'_> {
    const PORT_TYPE:      Row = Row { name: "port type",           bit:  0, at:   8, width:   4, form: Form::Number };
    const VERSION_MINOR:  Row = Row { name: "version minor",       bit:  1, at:  12, width:   1, form: Form::Number };
    const VERSION_MAJOR:  Row = Row { name: "version major",       bit:  1, at:  13, width:   1, form: Form::Number };
    const COMMAND:        Row = Row { name: "command",             bit:  2, at:  16, width:   2, form: Form::Number };
    const STATUS:         Row = Row { name: "status",              bit:  2, at:  18, width:   2, form: Form::Number };
    const VENDOR:         Row = Row { name: "vendor",              bit:  3, at:  24, width:   2, form: Form::Number };
    const DEVICE_ID:      Row = Row { name: "device id",           bit:  3, at:  26, width:   2, form: Form::Number };
    const CLASS:          Row = Row { name: "class",               bit:  3, at:  28, width:   3, form: Form::Bytes };
    const FUNCTION:       Row = Row { name: "function",            bit:  3, at:  31, width:   1, form: Form::Number };
    const DEVICE:         Row = Row { name: "device",              bit:  3, at:  32, width:   1, form: Form::Number };
    const SEGMENT:        Row = Row { name: "segment",             bit:  3, at:  33, width:   2, form: Form::Number };
    const BUS:            Row = Row { name: "bus",                 bit:  3, at:  35, width:   1, form: Form::Number };
    const SECONDARY_BUS:  Row = Row { name: "secondary bus",       bit:  3, at:  36, width:   1, form: Form::Number };
    const SLOT:           Row = Row { name: "slot",                bit:  3, at:  37, width:   2, form: Form::Number };
    const SERIAL:         Row = Row { name: "serial",              bit:  4, at:  40, width:   8, form: Form::Bytes };
    const BRIDGE_STATUS:  Row = Row { name: "bridge status",       bit:  5, at:  48, width:   2, form: Form::Number };
    const BRIDGE_CONTROL: Row = Row { name: "bridge control",      bit:  5, at:  50, width:   2, form: Form::Number };
    const CAPABILITY:     Row = Row { name: "capability",          bit:  6, at:  52, width:  60, form: Form::Bytes };
    const AER:            Row = Row { name: "aer",                 bit:  7, at: 112, width:  96, form: Form::Bytes };

    // All of them, in order.
    const ROWS: [Row; 19] = [
        Self::PORT_TYPE, Self::VERSION_MINOR, Self::VERSION_MAJOR, Self::COMMAND, Self::STATUS, Self::VENDOR,
        Self::DEVICE_ID, Self::CLASS, Self::FUNCTION, Self::DEVICE, Self::SEGMENT, Self::BUS, Self::SECONDARY_BUS,
        Self::SLOT, Self::SERIAL, Self::BRIDGE_STATUS, Self::BRIDGE_CONTROL, Self::CAPABILITY, Self::AER,
    ];
}

impl<'a> Pcie<'a> {
    ghost use Rattle.std.specs.Prelude.{◌≤◌, length, map, true};
    ghost use Rattle.std.specs.List.{list_all};
    ghost use Rattle.std.specs.Option.{option_copied};
    ghost use Rattle.cper_sections.specs.Field.{is_field, number_of, bytes_of};
    ghost use Rattle.cper_sections.specs.Row.{field_of};
    ghost use Rattle.cper_sections.specs.Pcie as fields;

    /// The section that the bytes are.
    pub(crate) fn of(bytes: &'a [u8]) -> Pcie<'a>
        requires { 208 ≤ length bytes.now }
        ensures { result ≡ bytes.now }
    {
        Pcie { bytes }
    }

    /// The table of the fields, in order.
    pub fn rows(&self) -> &'static [Row]
        ensures value { map field_of result.now ≡ fields.pcie_fields }
        ensures sound { list_all is_field (map field_of result.now) ≡ true }
    {
        &Self::ROWS
    }

    /// The bytes of the section.
    pub fn bytes(&self) -> &'a [u8]
        ensures value { result.now ≡ self.now }
        ensures validation { 8 ≤ length result.now }
    {
        self.bytes
    }

    /// The code of the kind of device or port.
    pub fn port_type(&self) -> Option<u32>
        ensures { result ≡ number_of fields.port_type self.now }
    {
        Self::PORT_TYPE.u32(self.bytes)
    }

    /// The minor version of the PCIe standard.
    pub fn version_minor(&self) -> Option<u8>
        ensures { result ≡ number_of fields.version_minor self.now }
    {
        Self::VERSION_MINOR.u8(self.bytes)
    }

    /// The major version of the PCIe standard.
    pub fn version_major(&self) -> Option<u8>
        ensures { result ≡ number_of fields.version_major self.now }
    {
        Self::VERSION_MAJOR.u8(self.bytes)
    }

    /// The command register.
    pub fn command(&self) -> Option<u16>
        ensures { result ≡ number_of fields.command self.now }
    {
        Self::COMMAND.u16(self.bytes)
    }

    /// The status register.
    pub fn status(&self) -> Option<u16>
        ensures { result ≡ number_of fields.status self.now }
    {
        Self::STATUS.u16(self.bytes)
    }

    /// The vendor's id.
    pub fn vendor(&self) -> Option<u16>
        ensures { result ≡ number_of fields.vendor self.now }
    {
        Self::VENDOR.u16(self.bytes)
    }

    /// The device's id, as its vendor gives it.
    pub fn device_id(&self) -> Option<u16>
        ensures { result ≡ number_of fields.device_id self.now }
    {
        Self::DEVICE_ID.u16(self.bytes)
    }

    /// The class code, 3 bytes.
    pub fn class(&self) -> Option<&'a [u8]>
        ensures { option_copied result ≡ bytes_of fields.class self.now }
    {
        Self::CLASS.bytes(self.bytes)
    }

    /// The number of the function.
    pub fn function(&self) -> Option<u8>
        ensures { result ≡ number_of fields.function self.now }
    {
        Self::FUNCTION.u8(self.bytes)
    }

    /// The number of the device on its bus.
    pub fn device(&self) -> Option<u8>
        ensures { result ≡ number_of fields.device self.now }
    {
        Self::DEVICE.u8(self.bytes)
    }

    /// The number of the segment.
    pub fn segment(&self) -> Option<u16>
        ensures { result ≡ number_of fields.segment self.now }
    {
        Self::SEGMENT.u16(self.bytes)
    }

    /// The number of the bus.
    pub fn bus(&self) -> Option<u8>
        ensures { result ≡ number_of fields.bus self.now }
    {
        Self::BUS.u8(self.bytes)
    }

    /// The number of the bus behind a bridge.
    pub fn secondary_bus(&self) -> Option<u8>
        ensures { result ≡ number_of fields.secondary_bus self.now }
    {
        Self::SECONDARY_BUS.u8(self.bytes)
    }

    /// The two bytes of the slot: its number stands from bit 3 on.
    pub fn slot(&self) -> Option<u16>
        ensures { result ≡ number_of fields.slot self.now }
    {
        Self::SLOT.u16(self.bytes)
    }

    /// The serial number, 8 bytes.
    pub fn serial(&self) -> Option<&'a [u8]>
        ensures { option_copied result ≡ bytes_of fields.serial self.now }
    {
        Self::SERIAL.bytes(self.bytes)
    }

    /// The secondary status register of a bridge.
    pub fn bridge_status(&self) -> Option<u16>
        ensures { result ≡ number_of fields.bridge_status self.now }
    {
        Self::BRIDGE_STATUS.u16(self.bytes)
    }

    /// The control register of a bridge.
    pub fn bridge_control(&self) -> Option<u16>
        ensures { result ≡ number_of fields.bridge_control self.now }
    {
        Self::BRIDGE_CONTROL.u16(self.bytes)
    }

    /// The PCIe capability structure, 60 bytes.
    pub fn capability(&self) -> Option<&'a [u8]>
        ensures { option_copied result ≡ bytes_of fields.capability self.now }
    {
        Self::CAPABILITY.bytes(self.bytes)
    }

    /// The advanced error reporting capability structure, 96 bytes.
    pub fn aer(&self) -> Option<&'a [u8]>
        ensures { option_copied result ≡ bytes_of fields.aer self.now }
    {
        Self::AER.bytes(self.bytes)
    }
}
