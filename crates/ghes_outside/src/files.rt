//! Files that are loaded whole, and why one is not.
ghost use Rattle.std.specs.Prelude.{◌≡◌, ◌≢◌, ◌≤◌, ℕ, List, [], Err, IsErrOf, OnOk, OnErr, vec_len};
ghost use Rattle.ghes_outside.specs.Outside.{FilesSeen, Rose, Agrees, IsLonger, names_after};

use std::alloc::{AllocError, AllocFailed};
use std::error::Error;
use std::fmt;

/// Why a file was not loaded.
#[derive(Clone, Copy, Debug, PartialEq, Eq)]
pub enum LoadError {
    /// The file could not be opened or read to its end.
    Failed,
    /// The file has more bytes than the limit.
    TooLong,
    OutOfMemory,
}

impl From<AllocError> for LoadError {
    ghost use Rattle.ghes_outside.specs.declared.files.LoadError.TheVariants.{OutOfMemory};

    ghost from_gives = { λ _ e. e ≡ OutOfMemory };

    fn from(_: AllocError) -> LoadError {
        LoadError::OutOfMemory
    }
}

impl<T: Drop> From<AllocFailed<T>> for LoadError {
    ghost use Rattle.ghes_outside.specs.declared.files.LoadError.TheVariants.{OutOfMemory};

    ghost from_gives = { λ _ e. e ≡ OutOfMemory };

    fn from(_: AllocFailed<T>) -> LoadError {
        LoadError::OutOfMemory
    }
}

impl fmt::Display for LoadError {
    ghost use Rattle.std.specs.Prelude.{Some};
    ghost use Rattle.ghes_outside.specs.Text.{load_error_text};

    ghost output = { λ e. Some (load_error_text e) };

    fn fmt<W: fmt::Write>(&self, f: &mut fmt::Formatter<W>) -> fmt::Result {
        match self {
            LoadError::Failed => f.write_str("1 failed"),
            LoadError::TooLong => f.write_str("2 too long"),
            LoadError::OutOfMemory => f.write_str("out of memory"),
        }
    }
}

impl Error for LoadError {}

/// Files that are loaded whole, by name.
pub trait Files {
    /// What the files tell, where they tell it. The count of failed loads stays at 2^64 - 1 once it is there.
    ghost seen: { Self → FilesSeen };

    /// Loads a whole file of at most `limit` bytes in the place of what `into` held.
    fn load(&mut self, name: &str, into: &mut Vec<u8>, limit: usize) -> Result<(), LoadError>
        ensures ok { OnOk result (Agrees ((seen self.old).contents name.now) into.new.items) }
        ensures within { OnOk result (vec_len into.new ≤ limit) }
        ensures err { OnErr result (into.new.items ≡ []) }

        ensures failed { IsErrOf result LoadError.Failed
            → Rose (seen self.old).faults (seen self.new).faults }
        ensures too_long { IsErrOf result LoadError.TooLong
            → IsLonger ((seen self.old).contents name.now) limit }
        ensures unfailed { result ≢ Err LoadError.Failed
            → (seen self.new).faults ≡ (seen self.old).faults }
        ensures names { (seen self.new).failed
            ≡ names_after result name.now (seen self.old).failed }

        ensures contents { (other : List ℕ)
            → (seen self.new).contents other ≡ (seen self.old).contents other }
        ensures grows { (seen self.old).faults ≤ (seen self.new).faults };
}
