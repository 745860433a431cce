//! The fields of a memory section.
ghost use Rattle.std.specs.Prelude.{◌≡◌};

use crate::{Form, Row};
use std::marker::Model;

/// A memory section of at least 73 bytes, borrowed. Each reader gives its field exactly where it is valid and whole.
///
/// Source: UEFI 2.10, appendix N.2.5.
#[derive(Debug, Drop)]
pub struct Memory<'a> {
    bytes: &'a [u8],
}

impl<'a> Model for Memory<'a> {
    ghost use Rattle.std.specs.Prelude.{◌≤◌, ℕ, List, length};

    ghost Value = { List ℕ };

    ghost invariant = { λ section. 73 ≤ length section.bytes.now };

    ghost view = { λ section. section.bytes.now };
}

// The rows of a memory section: name, bit of the validation number, offset and width in bytes, form (UEFI 2.10, appendix N.2.5).
#[rattlefmt::skip]
impl Memory<'_> {
    const STATUS:           Row = Row { name: "status",              bit:  0, at:   8, width:   8, form: Form::Number };
    const PHYSICAL_ADDRESS: Row = Row { name: "physical address",    bit:  1, at:  16, width:   8, form: Form::Number };
    const MASK:             Row = Row { name: "mask",                bit:  2, at:  24, width:   8, form: Form::Number };
    const NODE:             Row = Row { name: "node",                bit:  3, at:  32, width:   2, form: Form::Number };
    const CARD:             Row = Row { name: "card",                bit:  4, at:  34, width:   2, form: Form::Number };
    const MODULE:           Row = Row { name: "module",              bit:  5, at:  36, width:   2, form: Form::Number };
    const BANK:             Row = Row { name: "bank",                bit:  6, at:  38, width:   2, form: Form::Number };
    const DEVICE:           Row = Row { name: "device",              bit:  7, at:  40, width:   2, form: Form::Number };
    const ROW:              Row = Row { name: "row",                 bit:  8, at:  42, width:   2, form: Form::Number };
    const COLUMN:           Row = Row { name: "column",              bit:  9, at:  44, width:   2, form: Form::Number };
    const BIT_POSITION:     Row = Row { name: "bit position",        bit: 10, at:  46, width:   2, form: Form::Number };
    const REQUESTOR:        Row = Row { name: "requestor",           bit: 11, at:  48, width:   8, form: Form::Number };
    const RESPONDER:        Row = Row { name: "responder",           bit: 12, at:  56, width:   8, form: Form::Number };
    const TARGET:           Row = Row { name: "target",              bit: 13, at:  64, width:   8, form: Form::Number };
    const KIND:             Row = Row { name: "type",                bit: 14, at:  72, width:   1, form: Form::Number };
    const RANK:             Row = Row { name: "rank",                bit: 15, at:  74, width:   2, form: Form::Number };
    const CARD_HANDLE:      Row = Row { name: "card handle",         bit: 16, at:  76, width:   2, form: Form::Number };
    const MODULE_HANDLE:    Row = Row { name: "module handle",       bit: 17, at:  78, width:   2, form: Form::Number };

    // All of them, in order.
    const ROWS: [Row; 18] = [
        Self::STATUS, Self::PHYSICAL_ADDRESS, Self::MASK, Self::NODE, Self::CARD, Self::MODULE,
        Self::BANK, Self::DEVICE, Self::ROW, Self::COLUMN, Self::BIT_POSITION, Self::REQUESTOR,
        Self::RESPONDER, Self::TARGET, Self::KIND, Self::RANK, Self::CARD_HANDLE, Self::MODULE_HANDLE,
    ];
}

impl<'a> Memory<'a> {
    ghost use Rattle.std.specs.Prelude.{◌≤◌, length, map, true};
    ghost use Rattle.std.specs.List.{list_all};
    ghost use Rattle.cper_sections.specs.Field.{is_field, number_of};
    ghost use Rattle.cper_sections.specs.Row.{field_of};
    ghost use Rattle.cper_sections.specs.Memory as fields;

    /// The section that the bytes are.
    pub(crate) fn of(bytes: &'a [u8]) -> Memory<'a>
        requires { 73 ≤ length bytes.now }
        ensures { result ≡ bytes.now }
    {
        Memory { bytes }
    }

    /// The table of the fields, in order.
    pub fn rows(&self) -> &'static [Row]
        ensures value { map field_of result.now ≡ fields.memory_fields }
        ensures sound { list_all is_field (map field_of result.now) ≡ true }
    {
        &Self::ROWS
    }

    /// The bytes of the section.
    pub fn bytes(&self) -> &'a [u8]
        ensures value { result.now ≡ self.now }
        ensures validation { 8 ≤ length result.now }
    {
        self.bytes
    }

    /// The error status.
    pub fn status(&self) -> Option<u64>
        ensures { result ≡ number_of fields.status self.now }
    {
        Self::STATUS.u64(self.bytes)
    }

    /// The physical address of the error.
    pub fn physical_address(&self) -> Option<u64>
        ensures { result ≡ number_of fields.physical_address self.now }
    {
        Self::PHYSICAL_ADDRESS.u64(self.bytes)
    }

    /// Which bits of the physical address are valid.
    pub fn mask(&self) -> Option<u64>
        ensures { result ≡ number_of fields.mask self.now }
    {
        Self::MASK.u64(self.bytes)
    }

    /// The number of the node, where there are several.
    pub fn node(&self) -> Option<u16>
        ensures { result ≡ number_of fields.node self.now }
    {
        Self::NODE.u16(self.bytes)
    }

    /// The number of the card.
    pub fn card(&self) -> Option<u16>
        ensures { result ≡ number_of fields.card self.now }
    {
        Self::CARD.u16(self.bytes)
    }

    /// The number of the module.
    pub fn module(&self) -> Option<u16>
        ensures { result ≡ number_of fields.«module» self.now }
    {
        Self::MODULE.u16(self.bytes)
    }

    /// The number of the bank.
    pub fn bank(&self) -> Option<u16>
        ensures { result ≡ number_of fields.bank self.now }
    {
        Self::BANK.u16(self.bytes)
    }

    /// The number of the device on the module.
    pub fn device(&self) -> Option<u16>
        ensures { result ≡ number_of fields.device self.now }
    {
        Self::DEVICE.u16(self.bytes)
    }

    /// The number of the row.
    pub fn row(&self) -> Option<u16>
        ensures { result ≡ number_of fields.row self.now }
    {
        Self::ROW.u16(self.bytes)
    }

    /// The number of the column.
    pub fn column(&self) -> Option<u16>
        ensures { result ≡ number_of fields.column self.now }
    {
        Self::COLUMN.u16(self.bytes)
    }

    /// The bit at which the error is, in the word.
    pub fn bit_position(&self) -> Option<u16>
        ensures { result ≡ number_of fields.bit_position self.now }
    {
        Self::BIT_POSITION.u16(self.bytes)
    }

    /// The id of the device that asked.
    pub fn requestor(&self) -> Option<u64>
        ensures { result ≡ number_of fields.requestor self.now }
    {
        Self::REQUESTOR.u64(self.bytes)
    }

    /// The id of the device that answered.
    pub fn responder(&self) -> Option<u64>
        ensures { result ≡ number_of fields.responder self.now }
    {
        Self::RESPONDER.u64(self.bytes)
    }

    /// The id of the device that was asked.
    pub fn target(&self) -> Option<u64>
        ensures { result ≡ number_of fields.target self.now }
    {
        Self::TARGET.u64(self.bytes)
    }

    /// The code of the type of memory error.
    pub fn kind(&self) -> Option<u8>
        ensures { result ≡ number_of fields.kind self.now }
    {
        Self::KIND.u8(self.bytes)
    }

    /// The number of the rank.
    pub fn rank(&self) -> Option<u16>
        ensures { result ≡ number_of fields.rank self.now }
    {
        Self::RANK.u16(self.bytes)
    }

    /// The SMBIOS handle of the memory array.
    pub fn card_handle(&self) -> Option<u16>
        ensures { result ≡ number_of fields.card_handle self.now }
    {
        Self::CARD_HANDLE.u16(self.bytes)
    }

    /// The SMBIOS handle of the memory device.
    pub fn module_handle(&self) -> Option<u16>
        ensures { result ≡ number_of fields.module_handle self.now }
    {
        Self::MODULE_HANDLE.u16(self.bytes)
    }
}
