//! Files in memory.
ghost use Rattle.std.specs.Prelude.{◌≡◌, ◌≢◌, ◌≤◌, ◌++◌, [], ◌∷◌, ℕ, List, map, string_bytes, Some, IsErrOf, IfOk, OnOk, OnErr, vec_len};
ghost use Rattle.ghes_outside.specs.Outside.{Rose, Agrees, IsLonger, names_after};
ghost use Rattle.ghes_outside.specs.Loads.{names_in, told_answer, names_with, faults_with, faults_after};

use crate::{Files, LoadError};
use fault_plan::Plan;
use std::alloc::{AllocError, Global};
use std::collections::BTreeMap;

/// Files in memory, some of whose loads are to fail.
///
/// Loads are numbered from 1. Source: own choice.
#[derive(Drop)]
pub struct MemFiles {
    alloc: Global,
    files: BTreeMap<String, Vec<u8>>,
    failed: Vec<String>,
    faults: u64,
    plan: Plan,
}

impl MemFiles {
    ghost use Rattle.ghes_outside.specs.MemFiles.{HasNoFiles, SetsFile, KeepsFiles};

    /// No files yet. The loads whose numbers are in `failing` are to fail.
    pub fn new(alloc: Global, failing: &[u64]) -> Result<MemFiles, AllocError>
        ensures { IfOk result (λ files. HasNoFiles files failing.now) }
    {
        Ok(MemFiles {
            alloc,
            files: BTreeMap::new(alloc),
            failed: Vec::new(alloc),
            faults: 0,
            plan: Plan::new(alloc, failing)?,
        })
    }

    /// Adds a file, in the place of one of that name.
    pub fn add(&mut self, name: &str, contents: &[u8]) -> Result<(), AllocError>
        ensures ok { OnOk result (SetsFile self.old self.new name.now contents.now) }
        ensures err { OnErr result (KeepsFiles self.old self.new) }
    {
        let key = String::from_str(self.alloc, name)?;
        let bytes = Vec::from_slice(self.alloc, contents)?;
        self.files.insert(key, bytes)?;
        Ok(())
    }
}

impl Files for MemFiles {
    ghost use Rattle.ghes_outside.specs.MemFiles.{files_told, contents_of, failed_of, faults_of, calls_of, load_answer};
    ghost use Rattle.fault_plan.specs.Plan.{with_call};

    ghost seen = { files_told };

    /// Fails where this load is to fail, then where there is no file of that name, and then refuses one that is
    /// too long. Where there is no memory to note the name of a failed load, the answer is `OutOfMemory`.
    fn load(&mut self, name: &str, into: &mut Vec<u8>, limit: usize) -> Result<(), LoadError>
        ensures ok { OnOk result (Agrees (contents_of self.old name.now) into.new.items) }
        ensures within { OnOk result (vec_len into.new ≤ limit) }
        ensures err { OnErr result (into.new.items ≡ []) }

        ensures failed { IsErrOf result LoadError.Failed → Rose (faults_of self.old)
            (faults_of self.new) }
        ensures too_long { IsErrOf result LoadError.TooLong → IsLonger
            (contents_of self.old name.now) limit }
        ensures unfailed { result ≢ Err LoadError.Failed → faults_of self.new ≡ faults_of self.old }
        ensures names { failed_of self.new ≡ names_after result name.now (failed_of self.old) }

        ensures contents { (other : List ℕ) → contents_of self.new other
            ≡ contents_of self.old other }
        ensures grows { faults_of self.old ≤ faults_of self.new }

        // Files in memory say more: what the answer is, and what it changes.
        ensures answer { result ≢ Err LoadError.OutOfMemory → result
            ≡ load_answer self.old name.now limit }
        ensures count { faults_of self.new ≡ faults_after result (faults_of self.old) }
        ensures counted { calls_of self.new ≡ with_call (calls_of self.old) }
    {
        into.clear();
        if self.plan.fails_next() {
            return Err(note_failure(self.alloc, &mut self.failed, &mut self.faults, name));
        }
        match self.files.get(name) {
            Some(contents) => copy_within(contents, into, limit),
            None => Err(note_failure(self.alloc, &mut self.failed, &mut self.faults, name)),
        }
    }
}

// Answers `Failed` once the name is noted and the fault counted, and `OutOfMemory` where there is no memory to note it.
fn note_failure(alloc: Global, failed: &mut Vec<String>, faults: &mut u64, name: &str) -> LoadError
    ensures kind { result ≢ LoadError.TooLong }
    ensures names { names_in failed.new.items ≡ names_with result name.now
        (names_in failed.old.items) }
    ensures count { faults.new ≡ faults_with result faults.old }
    ensures grows { faults.old ≤ faults.new }
{
    match push_text(alloc, failed, name) {
        Ok(()) => {
            *faults = faults.saturating_add(1);
            LoadError::Failed
        }
        Err(_) => LoadError::OutOfMemory,
    }
}

fn push_text(alloc: Global, texts: &mut Vec<String>, text: &str) -> Result<(), AllocError>
    ensures ok { OnOk result (names_in texts.new.items ≡ names_in texts.old.items
        ++ text.now ∷ []) }
    ensures err { OnErr result (texts.new.items ≡ texts.old.items) }
{
    texts.push(String::from_str(alloc, text)?)?;
    Ok(())
}

fn copy_within(contents: &[u8], into: &mut Vec<u8>, limit: usize) -> Result<(), LoadError>
    requires { into.old.items ≡ [] }
    ensures ok { OnOk result (into.new.items ≡ contents.now) }
    ensures err { OnErr result (into.new.items ≡ []) }
    ensures answer { result ≢ Err LoadError.OutOfMemory → result
        ≡ told_answer (Some contents.now) limit }
    ensures no_fault { result ≢ Err LoadError.Failed }
{
    if contents.len() > limit {
        return Err(LoadError::TooLong);
    }
    into.extend_from_slice(contents)?;
    Ok(())
}
