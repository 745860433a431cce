//! Why a block is not raised.

use std::alloc::AllocError;

/// Why a block is not raised, in the order of the tests.
///
/// Source: own choice.
#[derive(Clone, Copy, Debug, PartialEq, Eq)]
pub enum RaiseError {
    /// There is no source at this position.
    NoSource,
    /// The block is longer than 65,536 bytes.
    TooLong,
    /// The machine has 65,536 blocks.
    Full,
    /// There is no memory for the block.
    OutOfMemory,
}

impl From<AllocError> for RaiseError {
    ghost use Rattle.std.specs.Prelude.{◌≡◌};
    ghost use Rattle.fw_sim.specs.declared.error.RaiseError.TheVariants.{OutOfMemory};

    ghost from_gives = { λ _ e. e ≡ OutOfMemory };

    fn from(_: AllocError) -> RaiseError {
        RaiseError::OutOfMemory
    }
}
