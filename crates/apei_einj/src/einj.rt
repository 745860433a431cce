//! The error injection table, read whole.
ghost use Rattle.std.specs.Prelude.{◌≡◌, ◌≢◌, None, Some, IfOk, OnOk, IfErr, option_copied};
ghost use Rattle.apei_einj.specs.Anchor.{anchor_of};
ghost use Rattle.apei_einj.specs.Table.{einj_entries, einj_refusal};
ghost use Rattle.apei_einj.specs.declared.error.EinjError.TheVariants.{OutOfMemory};

use crate::anchor::{anchor_of, missing_refusal};
use crate::header::{check_count, check_header};
use crate::walk::walk;
use crate::{EinjError, Entry};
use apei_base::Sdt;
use std::alloc::Global;
use std::marker::Model;

/// The entries of an EINJ, the error injection table. A contract sees the list of them.
///
/// Each of them can be run, and each action that an injection needs has its anchor.
/// Source: ACPI 6.5, 18.6.1.
#[derive(Debug, Drop)]
pub struct Einj {
    pub(crate) entries: Vec<Entry>,
}

impl Model for Einj {
    ghost use Rattle.std.specs.Prelude.{List};
    ghost use Rattle.apei_einj.specs.declared.entry.Entry.{Entry};
    ghost use Rattle.apei_einj.specs.Sound.{CanInject};

    ghost Value = { List Entry };

    ghost invariant = { λ e. CanInject e.entries.items };

    ghost view = { λ e. e.entries.items };
}

impl Einj {
    ghost use Rattle.apei_einj.specs.Sound.{CanInject};

    /// Reads the injection entries of an EINJ, in table order: those of the actions 0 to 8.
    ///
    /// `bytes` is the whole table with its header. Offsets in errors are in bytes from its start. Entries of other
    /// actions are counted and passed over unread. Entries stand from 48 on, also where the table states the
    /// injection header alone, of 12 bytes.
    /// Source: ACPI 6.5, 18.6.1. Which refusal is first: Own choice.
    #[tactic(auto, unfolding(crate::specs::Table::einj_refusal))]
    pub fn read(alloc: Global, bytes: &[u8]) -> Result<Einj, EinjError>
        ensures found { IfOk result (λ einj. einj ≡ einj_entries bytes.now) }
        ensures accepted { OnOk result (einj_refusal bytes.now ≡ None) }
        ensures refused { IfErr result
            (λ error. error ≢ OutOfMemory → einj_refusal bytes.now ≡ Some error) }
    {
        Sdt::read(bytes, b"EINJ")?;
        check_header(bytes)?;
        check_count(bytes)?;
        let entries = walk(alloc, bytes)?;
        if let Some(error) = missing_refusal(&entries) {
            return Err(error);
        }
        Ok(Einj { entries })
    }

    /// The entries of the actions 0 to 8, in table order.
    pub fn entries(&self) -> &[Entry]
        ensures list { result.now ≡ self.now }
        ensures accepted { CanInject self.now }
    {
        &self.entries
    }

    /// The anchor of an action: the first of its entries whose register stands for what the action reads or writes.
    ///
    /// Of the actions 1, 3, 6 and 7 it reads its register, of 2 and 5 it writes it, and of 8 it writes it in memory;
    /// other actions have none.
    /// Source: Own choice.
    pub fn anchor(&self, action: u8) -> Option<&Entry>
        ensures { option_copied result ≡ anchor_of action self.now }
    {
        anchor_of(&self.entries, action)
    }
}
