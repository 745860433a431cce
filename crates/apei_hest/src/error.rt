//! Why a HEST is refused.
use apei_base::{GasError, SdtError};
use std::alloc::{AllocError, AllocFailed};
use std::error::Error;
use std::fmt;

/// Why a HEST is refused: the first reason along the table.
///
/// Bytes that are no table are refused before all else. At one structure the tests are made in the order
/// `SourceType`, `Truncated`, `DuplicateId`, `TooMany`, `Register`, `BlockLength`; the count is tested last.
#[derive(Clone, Copy, Debug, PartialEq, Eq)]
pub enum HestError {
    /// The bytes are no table with the signature HEST.
    Table(SdtError),
    /// The table ends within the structure at `at`, or within the count at 36; in bytes from its start.
    Truncated { at: u32 },
    /// The structure at `at` has a type that is not read.
    SourceType { at: u32, kind: u16 },
    /// The table says that it has so many sources, and so many are found.
    CountMismatch { said: u32, found: u32 },
    /// Two generic sources have this id, enabled or not.
    DuplicateId { id: u16 },
    /// A register of an enabled source names no region: its status address, or else its read ack register.
    Register { id: u16, why: GasError },
    /// The block of an enabled source has no room for the 20 bytes of a header.
    BlockLength { id: u16 },
    /// There are more than 64 enabled generic sources.
    TooMany,
    /// There is no memory for the sources.
    OutOfMemory,
}

impl From<AllocError> for HestError {
    ghost use Rattle.std.specs.Prelude.{◌≡◌};
    ghost use Rattle.apei_hest.specs.declared.error.HestError.TheVariants.{OutOfMemory};

    ghost from_gives = { λ _ e. e ≡ OutOfMemory };

    fn from(_: AllocError) -> HestError {
        HestError::OutOfMemory
    }
}

impl<T: Drop> From<AllocFailed<T>> for HestError {
    ghost use Rattle.std.specs.Prelude.{◌≡◌};
    ghost use Rattle.apei_hest.specs.declared.error.HestError.TheVariants.{OutOfMemory};

    ghost from_gives = { λ _ e. e ≡ OutOfMemory };

    fn from(_: AllocFailed<T>) -> HestError {
        HestError::OutOfMemory
    }
}

impl From<SdtError> for HestError {
    ghost use Rattle.std.specs.Prelude.{◌≡◌};
    ghost use Rattle.apei_hest.specs.declared.error.HestError.TheVariants.{Table};

    ghost from_gives = { λ error e. e ≡ Table error };

    fn from(error: SdtError) -> HestError {
        HestError::Table(error)
    }
}

impl fmt::Display for HestError {
    ghost use Rattle.std.specs.Prelude.{Some};
    ghost use Rattle.apei_hest.specs.Text.{hest_error_text};

    ghost output = { λ e. Some (hest_error_text e) };

    fn fmt<W: fmt::Write>(&self, f: &mut fmt::Formatter<W>) -> fmt::Result {
        match self {
            HestError::Table(why) => write!(f, "1 table: {why}"),
            HestError::Truncated { at } => write!(f, "2 truncated at {at}"),
            HestError::SourceType { at, kind } => write!(f, "3 source type {kind} at {at}"),
            HestError::CountMismatch { said, found } => {
                write!(f, "4 count says {said}, found {found}")
            }
            HestError::DuplicateId { id } => write!(f, "5 source {id} twice"),
            HestError::Register { id, why } => write!(f, "6 register of source {id}: {why}"),
            HestError::BlockLength { id } => write!(f, "7 block length of source {id}"),
            HestError::TooMany => f.write_str("8 too many"),
            HestError::OutOfMemory => f.write_str("out of memory"),
        }
    }
}

impl Error for HestError {}
