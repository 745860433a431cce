//! Why an EINJ is refused.
use apei_base::{GasError, SdtError};
use std::alloc::{AllocError, AllocFailed};
use std::error::Error;
use std::fmt;

/// Why an EINJ is refused: the first reason, in the order of the variants.
///
/// `Instruction` and `Register` are tested entry by entry along the table, `Instruction` first.
#[derive(Clone, Copy, Debug, PartialEq, Eq)]
pub enum EinjError {
    /// The bytes are no table with the signature EINJ.
    Table(SdtError),
    /// The table has no room for the injection header, or states a header of neither 48 nor 12 bytes.
    HeaderSize,
    /// The table says that it has so many entries, and so many whole ones stand behind the header; or bytes are left.
    CountMismatch { said: u32, found: u32 },
    /// The entry at `at` has an instruction above 4; in bytes from the start of the table.
    Instruction { at: u32 },
    /// The register of the entry at `at` names no region, or has no room for the address structure of action 8.
    Register { at: u32, why: GasError },
    /// No entry of this action does what an injection needs of it.
    Missing { action: u8 },
    /// There is no memory for the entries.
    OutOfMemory,
}

impl From<AllocError> for EinjError {
    ghost use Rattle.std.specs.Prelude.{◌≡◌};
    ghost use Rattle.apei_einj.specs.declared.error.EinjError.TheVariants.{OutOfMemory};

    ghost from_gives = { λ _ e. e ≡ OutOfMemory };

    fn from(_: AllocError) -> EinjError {
        EinjError::OutOfMemory
    }
}

impl<T: Drop> From<AllocFailed<T>> for EinjError {
    ghost use Rattle.std.specs.Prelude.{◌≡◌};
    ghost use Rattle.apei_einj.specs.declared.error.EinjError.TheVariants.{OutOfMemory};

    ghost from_gives = { λ _ e. e ≡ OutOfMemory };

    fn from(_: AllocFailed<T>) -> EinjError {
        EinjError::OutOfMemory
    }
}

impl From<SdtError> for EinjError {
    ghost use Rattle.std.specs.Prelude.{◌≡◌};
    ghost use Rattle.apei_einj.specs.declared.error.EinjError.TheVariants.{Table};

    ghost from_gives = { λ error e. e ≡ Table error };

    fn from(error: SdtError) -> EinjError {
        EinjError::Table(error)
    }
}

impl fmt::Display for EinjError {
    ghost use Rattle.std.specs.Prelude.{Some};
    ghost use Rattle.apei_einj.specs.Text.{einj_error_text};

    ghost output = { λ e. Some (einj_error_text e) };

    fn fmt<W: fmt::Write>(&self, f: &mut fmt::Formatter<W>) -> fmt::Result {
        match self {
            EinjError::Table(why) => write!(f, "1 table: {why}"),
            EinjError::HeaderSize => f.write_str("2 header size"),
            EinjError::CountMismatch { said, found } => {
                write!(f, "3 count says {said}, found {found}")
            }
            EinjError::Instruction { at } => write!(f, "4 instruction at {at}"),
            EinjError::Register { at, why } => write!(f, "5 register at {at}: {why}"),
            EinjError::Missing { action } => write!(f, "6 missing action {action}"),
            EinjError::OutOfMemory => f.write_str("out of memory"),
        }
    }
}

impl Error for EinjError {}
