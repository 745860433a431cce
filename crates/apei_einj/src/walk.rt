//! The entries of a table, each judged where it stands.
ghost use Rattle.std.specs.Prelude.{◌≡◌, ◌≢◌, ◌≤◌, ◌<◌, ◌*◌, ◌^◌, ◌++◌, ◌∷◌, [], true, Some, None, length, drop, OnOk, IfOk, IfErr};
ghost use Rattle.std.specs.List.{filter, AllByRecursion};
ghost use Rattle.apei_einj.specs.Entry.{is_injection};
ghost use Rattle.apei_einj.specs.Refusal.{entry_refusal, first_refusal};
ghost use Rattle.apei_einj.specs.Table.{stated_count, einj_entries, IsRunnable};
ghost use Rattle.apei_einj.specs.declared.error.EinjError.TheVariants.{OutOfMemory};

use crate::header::{ENTRY_SIZE, FIRST_ENTRY};
use crate::{EinjError, Entry};
use std::alloc::Global;

// One entry more, where an injection runs its action and it is not refused.
fn keep(entries: &mut Vec<Entry>, entry: Entry) -> Result<(), EinjError>
    ensures kept { OnOk result
        (entries.new.items ≡ entries.old.items ++ filter is_injection (entry ∷ [])) }
    ensures runnable { OnOk result (is_injection entry ≡ true → entry_refusal entry ≡ None) }
    ensures injection { IfErr result (λ error. is_injection entry ≡ true) }
    ensures refused { IfErr result
        (λ error. error ≢ OutOfMemory → entry_refusal entry ≡ Some error) }
{
    if !entry.is_injection() {
        return Ok(());
    }
    if let Some(error) = entry.refusal() {
        return Err(error);
    }
    entries.push(entry)?;
    Ok(())
}

/// The entries of the actions 0 to 8, or the first refusal along the table.
pub(crate) fn walk(alloc: Global, bytes: &[u8]) -> Result<Vec<Entry>, EinjError>
    requires whole { 48 ≤ length bytes.now }
    requires small { length bytes.now < 2 ^ 32 }
    requires counted { 32 * stated_count bytes.now ≡ length (drop 48 bytes.now) }
    ensures found { IfOk result (λ entries. entries.items ≡ einj_entries bytes.now) }
    ensures runnable { IfOk result (λ entries. AllByRecursion IsRunnable entries.items) }
    ensures refused { IfErr result
        (λ error. error ≢ OutOfMemory → first_refusal (einj_entries bytes.now) ≡ Some error) }
{
    let mut entries = Vec::new(alloc);
    let (_header, mut rest) = bytes.split_at(FIRST_ENTRY);
    while !rest.is_empty() {
        let at = (bytes.len() - rest.len()) as u32;
        let (piece, later) = rest.split_at(ENTRY_SIZE);
        keep(&mut entries, Entry::read(piece, at))?;
        rest = later;
    }
    Ok(entries)
}
