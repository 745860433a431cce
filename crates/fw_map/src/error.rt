//! Why the tables of a machine are refused together.
ghost use Rattle.std.specs.Prelude.{◌≡◌};
ghost use Rattle.fw_map.specs.Text.{space_text};

use apei_base::Space;
use std::alloc::{AllocError, AllocFailed};
use std::error::Error;
use std::fmt;

/// Whose a register is.
///
/// Source: Own choice.
#[derive(Clone, Copy, Debug, PartialEq, Eq)]
pub enum Owner {
    /// An error source, by its id.
    Source(u16),
    /// The injection table.
    Injection,
}

/// Why a machine has no map, or, for `Room`, no place for one more block.
///
/// An overlap comes before a narrow register. Source: Own choice.
#[derive(Clone, Copy, Debug, PartialEq, Eq)]
pub enum FwError {
    /// Two registers share a cell that have different owners, or are the two of one source; the lowest such cell.
    Overlap {
        /// Whose the earlier register is.
        first: Owner,
        /// Whose the later one is.
        second: Owner,
        /// The space of both.
        space: Space,
        /// The address of the lowest cell that both have.
        address: u64,
    },
    /// The machine has as many blocks as it can have. No map is refused so.
    Room,
    /// The address of the area of the source with this id does not fit its status address register.
    Narrow(u16),
    /// There is no memory for the map.
    OutOfMemory,
}

impl From<AllocError> for FwError {
    ghost use Rattle.std.specs.Prelude.{◌≡◌};
    ghost use Rattle.fw_map.specs.declared.error.FwError.TheVariants.{OutOfMemory};

    ghost from_gives = { λ _ e. e ≡ OutOfMemory };

    fn from(_: AllocError) -> FwError {
        FwError::OutOfMemory
    }
}

impl<T: Drop> From<AllocFailed<T>> for FwError {
    ghost use Rattle.std.specs.Prelude.{◌≡◌};
    ghost use Rattle.fw_map.specs.declared.error.FwError.TheVariants.{OutOfMemory};

    ghost from_gives = { λ _ e. e ≡ OutOfMemory };

    fn from(_: AllocFailed<T>) -> FwError {
        FwError::OutOfMemory
    }
}

impl fmt::Display for Owner {
    ghost use Rattle.std.specs.Prelude.{Some};
    ghost use Rattle.fw_map.specs.Text.{owner_text};

    ghost output = { λ o. Some (owner_text o) };

    fn fmt<W: fmt::Write>(&self, f: &mut fmt::Formatter<W>) -> fmt::Result {
        match self {
            Owner::Source(id) => write!(f, "source {id}"),
            Owner::Injection => f.write_str("injection"),
        }
    }
}

// The word for a space.
fn word(space: Space) -> &'static str
    ensures { result.now ≡ space_text space }
{
    match space {
        Space::Memory => "memory",
        Space::Port => "port",
    }
}

impl fmt::Display for FwError {
    ghost use Rattle.std.specs.Prelude.{Some};
    ghost use Rattle.fw_map.specs.Text.{fw_error_text};

    ghost output = { λ e. Some (fw_error_text e) };

    fn fmt<W: fmt::Write>(&self, f: &mut fmt::Formatter<W>) -> fmt::Result {
        match self {
            FwError::Overlap {
                first,
                second,
                space,
                address,
            } => {
                let space = word(*space);
                write!(
                    f,
                    "1 overlap of {first} and {second} at {space} 0x{address:016x}"
                )
            }
            FwError::Room => f.write_str("2 room"),
            FwError::Narrow(id) => write!(f, "3 narrow source {id}"),
            FwError::OutOfMemory => f.write_str("out of memory"),
        }
    }
}

impl Error for FwError {}
