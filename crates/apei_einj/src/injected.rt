//! How an injection ends.
use crate::RunError;
use apei_base::BusFault;
use std::error::Error;
use std::fmt;

/// An error was injected.
#[derive(Clone, Copy, Debug, PartialEq, Eq)]
pub struct Injected {
    /// How many times the machine said that it is busy, of at most 999.
    pub busy_reads: u32,
}

/// Why no error was injected, or an injection was cut off. What was done before is not undone.
///
/// Source: After Linux 6.1, drivers/acpi/apei/einj.c; the limits: Own choice.
#[derive(Clone, Copy, Debug, PartialEq, Eq)]
pub enum InjectError {
    /// The machine cannot inject an error of this type.
    NotAvailable,
    /// The machine was busy 1,000 times.
    Busy,
    /// The machine answered with this status, which is not 0.
    Status(u64),
    /// The trigger table is refused: 1 for the size of its header, 2 for its size, 3 for the count of its entries, 4 for
    /// an instruction and 5 for a register of an entry.
    Trigger(u8),
    /// An access of the bus failed.
    Fault,
    /// The request names a place, and the table has no address structure to tell it.
    NoAddress,
}

impl From<BusFault> for InjectError {
    ghost use Rattle.std.specs.Prelude.{◌≡◌};
    ghost use Rattle.apei_einj.specs.declared.injected.InjectError.TheVariants.{Fault};

    ghost from_gives = { λ _ e. e ≡ Fault };

    fn from(_: BusFault) -> InjectError {
        InjectError::Fault
    }
}

impl From<RunError> for InjectError {
    ghost use Rattle.std.specs.Prelude.{◌≡◌};
    ghost use Rattle.apei_einj.specs.declared.injected.InjectError.TheVariants.{Fault};

    ghost from_gives = { λ _ e. e ≡ Fault };

    fn from(_: RunError) -> InjectError {
        InjectError::Fault
    }
}

impl fmt::Display for InjectError {
    ghost use Rattle.std.specs.Prelude.{Some};
    ghost use Rattle.apei_einj.specs.Text.{inject_error_text};

    ghost output = { λ e. Some (inject_error_text e) };

    fn fmt<W: fmt::Write>(&self, f: &mut fmt::Formatter<W>) -> fmt::Result {
        match self {
            InjectError::NotAvailable => f.write_str("not available"),
            InjectError::Busy => f.write_str("busy"),
            InjectError::Status(value) => write!(f, "status {value}"),
            InjectError::Trigger(reason) => write!(f, "trigger {reason}"),
            InjectError::Fault => f.write_str("fault"),
            InjectError::NoAddress => f.write_str("no address"),
        }
    }
}

impl Error for InjectError {}
