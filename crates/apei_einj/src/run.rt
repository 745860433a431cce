//! The interpreter: the entries of an action are run over a bus, in table order.
ghost use Rattle.std.specs.Prelude.{◌≡◌, ◌<◌, None, Ok, IfOk, OnErr};
ghost use Rattle.apei_base.specs.Bus.{CountsFaults};
ghost use Rattle.apei_einj.specs.Action.{Runs, IsCutOff};
ghost use Rattle.apei_einj.specs.Entry.{of_action};
ghost use Rattle.apei_einj.specs.Refusal.{first_refusal};

use crate::instruction::run_entry;
use crate::{Einj, Entry};
use apei_base::{Bus, BusFault};

/// Why an action was cut off.
#[derive(Clone, Copy, Debug, PartialEq, Eq)]
pub enum RunError {
    /// An access of the bus failed.
    Fault,
}

impl From<BusFault> for RunError {
    ghost use Rattle.std.specs.Prelude.{◌≡◌};
    ghost use Rattle.apei_einj.specs.declared.run.RunError.TheVariants.{Fault};

    ghost from_gives = { λ _ e. e ≡ Fault };

    fn from(_: BusFault) -> RunError {
        RunError::Fault
    }
}

/// Runs the entries of an action among entries that are not refused, on a value, and gives the value that they leave.
///
/// After an error the entries before the failed access have run, and none after it.
/// Source: ACPI 6.5, 18.6.3.
pub(crate) fn run_entries<B: Bus>(
    entries: &[Entry],
    action: u8,
    mut value: u64,
    bus: &mut B,
) -> Result<u64, RunError>
    requires { first_refusal (of_action action entries.now) ≡ None }
    ensures ok { IfOk result (λ next. Runs B.step (of_action action entries.now) value
        (B.state bus.old) next (B.state bus.new)) }
    ensures err { OnErr result (IsCutOff B.step (of_action action entries.now) value
        (B.state bus.old) (B.state bus.new)) }
    ensures count { CountsFaults result (B.faults bus.old) (B.faults bus.new) }
{
    for entry in entries {
        if entry.action == action {
            value = run_entry(entry, value, bus)?;
        }
    }
    Ok(value)
}

impl Einj {
    /// Runs the entries of an action on a value, and gives the value that they leave.
    ///
    /// An action with no entries, as each above 8, gives the value back. After an error the entries before the failed
    /// access have run, and none after it. The call takes no memory.
    /// Source: ACPI 6.5, 18.6.3.
    pub fn run_action<B: Bus>(&self, action: u8, value: u64, bus: &mut B) -> Result<u64, RunError>
        ensures ok { IfOk result (λ next. Runs B.step (of_action action self.now) value
            (B.state bus.old) next (B.state bus.new)) }
        ensures err { OnErr result (IsCutOff B.step (of_action action self.now) value
            (B.state bus.old) (B.state bus.new)) }
        ensures count { CountsFaults result (B.faults bus.old) (B.faults bus.new) }
        ensures above { 8 < action → (result ≡ Ok value) × (B.state bus.new ≡ B.state bus.old) }
    {
        run_entries(&self.entries, action, value, bus)
    }
}
