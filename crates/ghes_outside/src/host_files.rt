//! The files of the machine.
ghost use Rattle.std.specs.Prelude.{◌≡◌, ◌≢◌, ◌≤◌, ◌<◌, ◌-◌, ◌^◌, [], IsErrOf, OnOk, OnErr, vec_len};
ghost use Rattle.ghes_outside.specs.Outside.{Agrees, IsLonger};

use crate::{Files, LoadError};
use std::fs::File;
use std::io::{Error, ErrorKind, Read};

/// The files of the machine, by path.
///
/// It tells nothing of what they hold. The count of faults starts at 0.
#[derive(Drop)]
pub struct HostFiles<R> {
    rt: R,
    faults: u64,
}

impl<R> HostFiles<R> {
    ghost use Rattle.std.specs.Prelude.{◌≡◌};
    ghost use Rattle.ghes_outside.specs.Host.{load_faults};

    /// The files that the runtime reaches. It takes no memory.
    pub fn new(rt: R) -> HostFiles<R>
        ensures { load_faults result ≡ 0 }
    {
        HostFiles { rt, faults: 0 }
    }
}

impl<R: std::rt::Files> Files for HostFiles<R> {
    ghost use Rattle.ghes_outside.specs.Host.{files_of_host};

    ghost seen = { files_of_host };

    /// Reads to the end of the file, and at most one byte past the limit.
    ///
    /// The size that the system tells is not asked, since it is 0 for most files of `/sys` and `/proc`.
    /// An error of the system is `Failed`, its own want of memory too; `OutOfMemory` is a want of `into`.
    /// Source: own choice.
    fn load(&mut self, name: &str, into: &mut Vec<u8>, limit: usize) -> Result<(), LoadError> {
        into.clear();
        match load_from(&self.rt, name, into, limit) {
            Err(LoadError::Failed) => {
                self.faults = self.faults.saturating_add(1);
                Err(LoadError::Failed)
            }
            outcome => outcome,
        }
    }
}

// Opens and reads one file.
fn load_from<R: std::rt::Files>(
    rt: &R,
    name: &str,
    into: &mut Vec<u8>,
    limit: usize,
) -> Result<(), LoadError>
    requires { into.old.items ≡ [] }
    ensures within { OnOk result (vec_len into.new ≤ limit) }
    ensures err { OnErr result (into.new.items ≡ []) }
{
    match File::open(rt, name) {
        Ok(file) => read_whole(file, into, limit),
        Err(error) => Err(cause_of(&error)),
    }
}

// std reads in long pieces, tries again where a signal interrupts, and ends at a read of no bytes.
// Where a reader tells its bytes, `Ok` has all of them, and `TooLong` says that there are more than the limit.
fn read_whole<F: Read + Drop>(file: F, into: &mut Vec<u8>, limit: usize) -> Result<(), LoadError>
    requires { into.old.items ≡ [] }
    ensures whole { limit < 2 ^ 64 - 1 → OnOk result (Agrees (F.remaining file) into.new.items) }
    ensures too_long { IsErrOf result LoadError.TooLong → IsLonger (F.remaining file) limit }
    ensures within { OnOk result (vec_len into.new ≤ limit) }
    ensures err { OnErr result (into.new.items ≡ []) }
{
    let most = (limit as u64).saturating_add(1);
    match file.take(most).read_to_end(into) {
        Ok(_) => keep_within(into, limit),
        Err(error) => {
            into.clear();
            Err(cause_of(&error))
        }
    }
}

// Keeps bytes up to the limit, and none where there are more.
fn keep_within(into: &mut Vec<u8>, limit: usize) -> Result<(), LoadError>
    ensures ok { OnOk result ((into.new.items ≡ into.old.items) × (vec_len into.new ≤ limit)) }
    ensures err { OnErr result ((into.new.items ≡ []) × (limit < vec_len into.old)) }
{
    if into.len() > limit {
        into.clear();
        return Err(LoadError::TooLong);
    }
    Ok(())
}

// An error with a number is the system's. One without is of std, and its want of memory is that of a `Vec`.
fn cause_of(error: &Error) -> LoadError
    ensures { result ≢ LoadError.TooLong }
{
    if error.kind() == ErrorKind::OutOfMemory && error.raw_os_error().is_none() {
        LoadError::OutOfMemory
    } else {
        LoadError::Failed
    }
}
