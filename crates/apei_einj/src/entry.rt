//! An injection entry: its fields and why it is refused.
ghost use Rattle.std.specs.Prelude.{◌≡◌, ◌≤◌, length};
ghost use Rattle.apei_einj.specs.Anchor.{may_anchor};
ghost use Rattle.apei_einj.specs.Entry.{entry_of, is_injection, reads_register, writes_register};
ghost use Rattle.apei_einj.specs.Refusal.{register_reason, entry_refusal};

use crate::action::{
    CHECK_BUSY, EXECUTE, GET_ERROR_TYPE, GET_STATUS, GET_TRIGGER_TABLE, SET_ERROR_TYPE,
    SET_TYPE_WITH_ADDRESS,
};
use crate::instruction::{
    NO_OPERATION, READ_REGISTER, READ_REGISTER_VALUE, WRITE_REGISTER, WRITE_REGISTER_VALUE,
};
use crate::{EinjError, address_structure};
use apei_base::{Gas, GasError, gas_at, u64_at};

/// An injection entry: one instruction of an action, with the register that it is about.
///
/// Source: ACPI 6.5, 18.6.2.
#[derive(Clone, Copy, Debug, PartialEq, Eq)]
pub struct Entry {
    /// Where the entry begins, in bytes from the start of its table.
    pub at: u32,
    /// The code of the action: 0 begin, 1 get trigger table, 2 set error type, 3 get error type, 4 end, 5 execute,
    /// 6 check busy, 7 get command status, 8 set error type with address, 0xFF trigger.
    pub action: u8,
    /// The code of the instruction: 0 read register, 1 read register value, 2 write register, 3 write register value,
    /// 4 no operation.
    pub instruction: u8,
    /// Bit 0: a write keeps the bits of the register that the mask leaves out.
    pub flags: u8,
    /// The register, and the field of bits in it.
    pub register: Gas,
    /// The value that is compared or written.
    pub value: u64,
    /// The mask of the field, from the field's lowest bit on.
    pub mask: u64,
}

impl Entry {
    /// An entry that does nothing.
    pub(crate) const NOTHING: Entry = Entry {
        at: 0,
        action: 0,
        instruction: NO_OPERATION,
        flags: 0,
        register: Gas {
            space: 0,
            bit_width: 0,
            bit_offset: 0,
            access: 0,
            address: 0,
        },
        value: 0,
        mask: 0,
    };

    /// The entry that the bytes spell, and that begins at `at` in its table.
    pub(crate) fn read(bytes: &[u8], at: u32) -> Entry
        requires { 32 ≤ length bytes.now }
        ensures { result ≡ entry_of bytes.now at }
    {
        Entry {
            at,
            action: bytes[0],
            instruction: bytes[1],
            flags: bytes[2],
            register: gas_at(bytes, 4),
            value: u64_at(bytes, 16),
            mask: u64_at(bytes, 24),
        }
    }

    /// Whether an injection runs the entry's action.
    pub(crate) fn is_injection(&self) -> bool
        ensures { result ≡ is_injection self.now }
    {
        self.action <= SET_TYPE_WITH_ADDRESS
    }

    // Whether the entry reads its register.
    fn reads_register(&self) -> bool
        ensures { result ≡ reads_register self.now }
    {
        matches!(self.instruction, READ_REGISTER | READ_REGISTER_VALUE)
    }

    // Whether the entry writes its register.
    fn writes_register(&self) -> bool
        ensures { result ≡ writes_register self.now }
    {
        matches!(self.instruction, WRITE_REGISTER | WRITE_REGISTER_VALUE)
    }

    /// Whether the entry may be the anchor of an action.
    pub(crate) fn may_anchor(&self, action: u8) -> bool
        ensures { result ≡ may_anchor action self.now }
    {
        match action {
            GET_TRIGGER_TABLE | GET_ERROR_TYPE | CHECK_BUSY | GET_STATUS => self.reads_register(),
            SET_ERROR_TYPE | EXECUTE => self.writes_register(),
            SET_TYPE_WITH_ADDRESS => self.writes_register() && self.register.space == 0,
            _ => false,
        }
    }

    // Why the entry's register is refused.
    fn register_reason(&self) -> Option<GasError>
        ensures { result ≡ register_reason self.now }
    {
        if let Err(why) = self.register.check() {
            return Some(why);
        }
        if self.action == SET_TYPE_WITH_ADDRESS
            && self.register.address > u64::MAX - (address_structure::LENGTH - 1)
        {
            return Some(GasError::PastEnd);
        }
        None
    }

    /// Why the entry is refused, as one of an action that an injection runs.
    pub(crate) fn refusal(&self) -> Option<EinjError>
        ensures { result ≡ entry_refusal self.now }
    {
        if self.instruction > NO_OPERATION {
            return Some(EinjError::Instruction { at: self.at });
        }
        if self.instruction == NO_OPERATION {
            return None;
        }
        match self.register_reason() {
            Some(why) => Some(EinjError::Register { at: self.at, why }),
            None => None,
        }
    }
}
