//! What a script is read for: the enabled sources, and whether errors can be injected.
ghost use Rattle.std.specs.Prelude.{◌≡◌, ◌==◌, length, IfOk};
ghost use Rattle.ghes_script.specs.Setup.{Knows, IsTableOf, found_of, named, source_of, acked_source_of, setup_of};

use crate::ScriptKind;
use crate::number::number;
use std::alloc::{AllocError, Global};
use std::collections::BTreeMap;
use std::marker::Model;

/// An enabled source: its id, and whether it is of version 2, which has a read ack register.
#[derive(Clone, Copy, Debug, PartialEq, Eq)]
pub struct SourceName {
    pub id: u16,
    pub v2: bool,
}

/// The source that an id names: its position, from 0 on, and whether it is of version 2.
#[derive(Clone, Copy, Debug)]
pub(crate) struct Found {
    pub at: usize,
    pub v2: bool,
}

/// What a script is read for. A contract sees the names of the sources, and whether there is an injection table.
#[derive(Debug, Drop)]
pub(crate) struct Setup<'a> {
    names: &'a [SourceName],
    table: Vec<Option<Found>>,
    by_id: BTreeMap<u64, Found>,
    injection: bool,
}

/// An id below this is looked up in a table, and any other in a map.
const TABLE: u64 = 256;

impl<'a> Model for Setup<'a> {
    ghost use Rattle.ghes_script.specs.Setup.{Setup, Knows, IsTableOf};

    ghost Value = { Setup };

    ghost invariant = { λ s. Knows s.by_id s.names.now × IsTableOf s.table.items s.by_id };

    ghost view = { λ s. record { names = s.names.now; injection = s.injection } };
}

// The positions of the sources by their ids. Of two that share an id, the first is found.
fn positions(alloc: Global, names: &[SourceName]) -> Result<BTreeMap<u64, Found>, AllocError>
    ensures { IfOk result (λ by_id. Knows by_id names.now) }
{
    let mut by_id = BTreeMap::new(alloc);
    let mut at = names.len();
    while at > 0 {
        at -= 1;
        let name = names[at];
        let found = Found { at, v2: name.v2 };
        by_id.insert(u64::from(name.id), found)?;
    }
    Ok(by_id)
}

// What the map has of each id from 0 on, up to those that the map is asked for.
fn table_of(alloc: Global, by_id: &BTreeMap<u64, Found>) -> Result<Vec<Option<Found>>, AllocError>
    ensures { IfOk result (λ table. IsTableOf table.items by_id.now) }
{
    let mut table = Vec::new(alloc);
    let mut id = 0;
    while id < TABLE {
        table.push(by_id.get(&id).copied())?;
        id += 1;
    }
    Ok(table)
}

impl<'a> Setup<'a> {
    /// The sources by their names, and whether there is an injection table.
    pub fn new(
        alloc: Global,
        names: &'a [SourceName],
        injection: bool,
    ) -> Result<Setup<'a>, AllocError>
        ensures { IfOk result (λ setup. setup ≡ setup_of names.now injection) }
    {
        let by_id = positions(alloc, names)?;
        let table = table_of(alloc, &by_id)?;
        Ok(Setup {
            names,
            table,
            by_id,
            injection,
        })
    }

    /// The source with this id.
    pub fn found(&self, id: u64) -> Option<Found>
        ensures { result ≡ found_of self.now.names id }
    {
        let place = id as usize;
        if place < self.table.len() {
            return self.table[place];
        }
        self.by_id.get(&id).copied()
    }

    // The source that a word names.
    #[tactic(auto, unfolding(crate::specs::Setup::named))]
    fn named(&self, word: &[u8]) -> Result<Found, ScriptKind>
        ensures { result ≡ named self.now word.now }
    {
        match self.found(number(word)?) {
            Some(found) => Ok(found),
            None => Err(ScriptKind::Source),
        }
    }

    /// The position of the source that a word names.
    #[tactic(auto, unfolding(crate::specs::Setup::source_of))]
    pub fn source(&self, word: &[u8]) -> Result<usize, ScriptKind>
        ensures { result ≡ source_of self.now word.now }
    {
        Ok(self.named(word)?.at)
    }

    /// The position of the source that a word names and that has a read ack register.
    #[tactic(auto, unfolding(crate::specs::Setup::acked_source_of))]
    pub fn acked_source(&self, word: &[u8]) -> Result<usize, ScriptKind>
        ensures { result ≡ acked_source_of self.now word.now }
    {
        let found = self.named(word)?;
        if found.v2 {
            Ok(found.at)
        } else {
            Err(ScriptKind::Source)
        }
    }

    /// Whether there is no source.
    pub fn is_empty(&self) -> bool
        ensures { result ≡ (length self.now.names == 0) }
    {
        self.names.is_empty()
    }

    /// Whether there is an injection table.
    pub fn has_injection(&self) -> bool
        ensures { result ≡ self.now.injection }
    {
        self.injection
    }
}
