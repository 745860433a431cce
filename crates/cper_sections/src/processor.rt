//! The fields of a processor section.
ghost use Rattle.std.specs.Prelude.{◌≡◌};

use crate::{Form, Row};
use std::marker::Model;

/// A processor section of at least 192 bytes, borrowed. Each reader gives its field exactly where it is valid and whole.
///
/// Source: UEFI 2.10, appendix N.2.4.1.
#[derive(Debug, Drop)]
pub struct Processor<'a> {
    bytes: &'a [u8],
}

impl<'a> Model for Processor<'a> {
    ghost use Rattle.std.specs.Prelude.{◌≤◌, ℕ, List, length};

    ghost Value = { List ℕ };

    ghost invariant = { λ section. 192 ≤ length section.bytes.now };

    ghost view = { λ section. section.bytes.now };
}

// The rows of a processor section: name, bit of the validation number, offset and width in bytes, form (UEFI 2.10, appendix N.2.4.1).
#[rattlefmt::skip]
impl Processor<'_> {
    const PROCESSOR_TYPE:      Row = Row { name: "processor type",      bit:  0, at:   8, width:   1, form: Form::Number };
    const ISA:                 Row = Row { name: "isa",                 bit:  1, at:   9, width:   1, form: Form::Number };
    const ERROR_TYPE:          Row = Row { name: "error type",          bit:  2, at:  10, width:   1, form: Form::Number };
    const OPERATION:           Row = Row { name: "operation",           bit:  3, at:  11, width:   1, form: Form::Number };
    const FLAGS:               Row = Row { name: "flags",               bit:  4, at:  12, width:   1, form: Form::Number };
    const LEVEL:               Row = Row { name: "level",               bit:  5, at:  13, width:   1, form: Form::Number };
    const VERSION:             Row = Row { name: "version",             bit:  6, at:  16, width:   8, form: Form::Number };
    const BRAND:               Row = Row { name: "brand",               bit:  7, at:  24, width: 128, form: Form::Text };
    const ID:                  Row = Row { name: "id",                  bit:  8, at: 152, width:   8, form: Form::Number };
    const TARGET_ADDRESS:      Row = Row { name: "target address",      bit:  9, at: 160, width:   8, form: Form::Number };
    const REQUESTOR:           Row = Row { name: "requestor",           bit: 10, at: 168, width:   8, form: Form::Number };
    const RESPONDER:           Row = Row { name: "responder",           bit: 11, at: 176, width:   8, form: Form::Number };
    const INSTRUCTION_POINTER: Row = Row { name: "instruction pointer", bit: 12, at: 184, width:   8, form: Form::Number };

    // All of them, in order.
    const ROWS: [Row; 13] = [
        Self::PROCESSOR_TYPE, Self::ISA, Self::ERROR_TYPE, Self::OPERATION, Self::FLAGS,
        Self::LEVEL, Self::VERSION, Self::BRAND, Self::ID, Self::TARGET_ADDRESS,
        Self::REQUESTOR, Self::RESPONDER, Self::INSTRUCTION_POINTER,
    ];
}

impl<'a> Processor<'a> {
    ghost use Rattle.std.specs.Prelude.{◌≤◌, length, map, true};
    ghost use Rattle.std.specs.List.{list_all};
    ghost use Rattle.std.specs.Option.{option_copied};
    ghost use Rattle.cper_sections.specs.Field.{is_field, number_of, text_of};
    ghost use Rattle.cper_sections.specs.Row.{field_of};
    ghost use Rattle.cper_sections.specs.Processor as fields;

    /// The section that the bytes are.
    pub(crate) fn of(bytes: &'a [u8]) -> Processor<'a>
        requires { 192 ≤ length bytes.now }
        ensures { result ≡ bytes.now }
    {
        Processor { bytes }
    }

    /// The table of the fields, in order.
    pub fn rows(&self) -> &'static [Row]
        ensures value { map field_of result.now ≡ fields.processor_fields }
        ensures sound { list_all is_field (map field_of result.now) ≡ true }
    {
        &Self::ROWS
    }

    /// The bytes of the section.
    pub fn bytes(&self) -> &'a [u8]
        ensures value { result.now ≡ self.now }
        ensures validation { 8 ≤ length result.now }
    {
        self.bytes
    }

    /// The code of the processor's architecture.
    pub fn processor_type(&self) -> Option<u8>
        ensures { result ≡ number_of fields.processor_type self.now }
    {
        Self::PROCESSOR_TYPE.u8(self.bytes)
    }

    /// The code of the instruction set in use.
    pub fn isa(&self) -> Option<u8>
        ensures { result ≡ number_of fields.isa self.now }
    {
        Self::ISA.u8(self.bytes)
    }

    /// The bits of the error types: cache, TLB, bus, micro-architecture.
    pub fn error_type(&self) -> Option<u8>
        ensures { result ≡ number_of fields.error_type self.now }
    {
        Self::ERROR_TYPE.u8(self.bytes)
    }

    /// The code of the kind of operation.
    pub fn operation(&self) -> Option<u8>
        ensures { result ≡ number_of fields.operation self.now }
    {
        Self::OPERATION.u8(self.bytes)
    }

    /// The bits for restartable, precise, overflow and corrected.
    pub fn flags(&self) -> Option<u8>
        ensures { result ≡ number_of fields.flags self.now }
    {
        Self::FLAGS.u8(self.bytes)
    }

    /// The level at which the error is, 0 the lowest.
    pub fn level(&self) -> Option<u8>
        ensures { result ≡ number_of fields.level self.now }
    {
        Self::LEVEL.u8(self.bytes)
    }

    /// The processor's version, by its architecture.
    pub fn version(&self) -> Option<u64>
        ensures { result ≡ number_of fields.version self.now }
    {
        Self::VERSION.u64(self.bytes)
    }

    /// The processor's brand string, without its ending 0.
    pub fn brand(&self) -> Option<&'a [u8]>
        ensures { option_copied result ≡ text_of fields.brand self.now }
    {
        Self::BRAND.text(self.bytes)
    }

    /// The processor's id, by its architecture.
    pub fn id(&self) -> Option<u64>
        ensures { result ≡ number_of fields.id self.now }
    {
        Self::ID.u64(self.bytes)
    }

    /// The address that the error is about.
    pub fn target_address(&self) -> Option<u64>
        ensures { result ≡ number_of fields.target_address self.now }
    {
        Self::TARGET_ADDRESS.u64(self.bytes)
    }

    /// The id of the requestor.
    pub fn requestor(&self) -> Option<u64>
        ensures { result ≡ number_of fields.requestor self.now }
    {
        Self::REQUESTOR.u64(self.bytes)
    }

    /// The id of the responder.
    pub fn responder(&self) -> Option<u64>
        ensures { result ≡ number_of fields.responder self.now }
    {
        Self::RESPONDER.u64(self.bytes)
    }

    /// The instruction pointer at the error.
    pub fn instruction_pointer(&self) -> Option<u64>
        ensures { result ≡ number_of fields.instruction_pointer self.now }
    {
        Self::INSTRUCTION_POINTER.u64(self.bytes)
    }
}
