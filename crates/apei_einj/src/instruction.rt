//! What one entry does: its instruction, on a value and a bus.
ghost use Rattle.std.specs.Prelude.{◌≡◌, ◌≤◌, ◌%◌, ◌^◌, None, IfOk, OnOk, OnErr};
ghost use Rattle.apei_base.specs.Bus.{CountsFaults, reach_of};
ghost use Rattle.apei_base.specs.Region.{gas_refusal, access_width};
ghost use Rattle.apei_einj.specs.Action.{instruction_of, entry_reach, field_of, placed, outside, with_field, preserves, Puts, Does, IsPutCutOff, IsCutIn};
ghost use Rattle.apei_einj.specs.Refusal.{entry_refusal};

use crate::Entry;
use crate::run::RunError;
use apei_base::{Bus, Region};

// The codes of the instructions. Source: ACPI 6.5, 18.6.3.
pub(crate) const READ_REGISTER: u8 = 0;

pub(crate) const READ_REGISTER_VALUE: u8 = 1;

pub(crate) const WRITE_REGISTER: u8 = 2;

pub(crate) const WRITE_REGISTER_VALUE: u8 = 3;

/// No operation, the greatest code.
pub(crate) const NO_OPERATION: u8 = 4;

// The low 64 bits of a number.
fn low_bits(number: u128) -> u64
    ensures { result ≡ number % 2 ^ 64 }
{
    (number & u128::from(u64::MAX)) as u64
}

impl Entry {
    /// The region of the register.
    pub fn region(&self) -> Region
        requires { gas_refusal self.now.register ≡ None }
        ensures reach { reach_of result ≡ entry_reach self.now }
        ensures offset { self.now.register.bit_offset ≤ 64 }
    {
        let Ok(region) = self.register.check() else {
            unreachable!()
        };
        region
    }

    /// The field in what the register holds, from bit 0 on.
    pub fn field(&self, cell: u64) -> u64
        ensures { result ≡ field_of self.now cell }
    {
        let shifted = cell.checked_shr(u32::from(self.register.bit_offset));
        shifted.unwrap_or(0) & self.mask
    }

    // A value in the place of the field: the whole number, which may reach past the register.
    fn placed(&self, value: u64) -> u128
        requires { self.now.register.bit_offset ≤ 64 }
        ensures { result ≡ placed self.now value }
    {
        u128::from(value & self.mask) << self.register.bit_offset
    }

    // What the register holds outside the field.
    fn outside(&self, cell: u64) -> u128
        requires { self.now.register.bit_offset ≤ 64 }
        ensures { result ≡ outside self.now cell }
    {
        let cell = u128::from(cell);
        let mask = u128::from(self.mask) << self.register.bit_offset;
        cell - (cell & mask)
    }

    /// What the register holds after its field was set to a value, where it held `cell` before.
    ///
    /// The bits outside the field are kept. Those of the value that reach past the register are dropped.
    pub fn with_field(&self, cell: u64, value: u64) -> u64
        requires { gas_refusal self.now.register ≡ None }
        ensures { result ≡ with_field self.now cell value }
    {
        let region = self.region();
        region.low_bits(low_bits(self.outside(cell) | self.placed(value)))
    }
}

// Sets the field of an entry's register to a value, and keeps what is outside where the flags say so.
fn put<B: Bus>(entry: &Entry, value: u64, bus: &mut B) -> Result<(), RunError>
    requires { gas_refusal entry.now.register ≡ None }
    ensures ok { OnOk result (Puts B.step (preserves entry.now) entry.now value
        (B.state bus.old) (B.state bus.new)) }
    ensures err { OnErr result (IsPutCutOff B.step (preserves entry.now) entry.now
        (B.state bus.old) (B.state bus.new)) }
    ensures count { CountsFaults result (B.faults bus.old) (B.faults bus.new) }
{
    let region = entry.region();
    if entry.flags % 2 == 1 {
        let cell = bus.read(&region)?;
        bus.write(&region, entry.with_field(cell, value))?;
    } else {
        bus.write(&region, low_bits(entry.placed(value)))?;
    }
    Ok(())
}

/// Runs one entry that is not refused on a value, and gives the value that it leaves.
#[tactic(auto, using(crate::proofs::RefusedLemmas::gas_refusal_accepted))]
pub(crate) fn run_entry<B: Bus>(entry: &Entry, value: u64, bus: &mut B) -> Result<u64, RunError>
    requires { entry_refusal entry.now ≡ None }
    ensures ok { IfOk result (λ next. Does B.step (instruction_of entry.now.instruction)
        entry.now value (B.state bus.old) next (B.state bus.new)) }
    ensures err { OnErr result (IsCutIn B.step (instruction_of entry.now.instruction) entry.now
        (B.state bus.old) (B.state bus.new)) }
    ensures count { CountsFaults result (B.faults bus.old) (B.faults bus.new) }
{
    match entry.instruction {
        READ_REGISTER => {
            let cell = bus.read(&entry.region())?;
            Ok(entry.field(cell))
        }
        READ_REGISTER_VALUE => {
            let cell = bus.read(&entry.region())?;
            Ok(u64::from(entry.field(cell) == entry.value))
        }
        WRITE_REGISTER => {
            put(entry, value, bus)?;
            Ok(value)
        }
        WRITE_REGISTER_VALUE => {
            put(entry, entry.value, bus)?;
            Ok(value)
        }
        _ => Ok(value),
    }
}
