//! The sources so far, and what the next one is judged by.
ghost use Rattle.std.specs.Prelude.{◌≡◌, ◌≢◌, [], ◌∷◌, ◌++◌, Some, None, IfOk, OnOk, IfErr};
ghost use Rattle.apei_base.specs.Refusal.{first_of};
ghost use Rattle.apei_hest.specs.Refusal.{ack_refusal, enabled_rows, source_refusal};
ghost use Rattle.apei_hest.specs.declared.error.HestError.TheVariants.{OutOfMemory};

use crate::{Ack2, Ghes, HestError, Source};
use apei_base::GasError;
use std::alloc::Global;
use std::collections::BTreeSet;
use std::marker::Model;

/// The sources that were read so far and not refused. A contract sees the list of them.
#[derive(Drop)]
pub(crate) struct Admitted {
    sources: Vec<Source>,
    ids: BTreeSet<u16>,
    enabled: usize,
}

impl Model for Admitted {
    ghost use Rattle.std.specs.Prelude.{List};
    ghost use Rattle.apei_hest.specs.declared.source.Source.{Source};
    ghost use Rattle.apei_hest.specs.Admitted.{Knows};

    ghost Value = { List Source };

    ghost invariant = { λ a. Knows a.ids a.enabled a.sources.items };

    ghost view = { λ a. a.sources.items };
}

/// How many enabled generic sources a table may have.
const ENABLED_LIMIT: usize = 64;

/// How many bytes the header of a block has.
const BLOCK_HEADER: u32 = 20;

// Why the read ack register of a source is refused, where it has one.
fn ack_refusal(ack: &Option<Ack2>) -> Option<GasError>
    ensures { result ≡ ack_refusal ack.now }
{
    match ack {
        Some(ack) => ack.register.check().err(),
        None => None,
    }
}

// Why an enabled source is refused behind so many enabled ones.
fn enabled_refusal(before: usize, ghes: &Ghes) -> Option<HestError>
    ensures { result ≡ first_of (enabled_rows before ghes.now) }
{
    let id = ghes.id;
    if before >= ENABLED_LIMIT {
        return Some(HestError::TooMany);
    }
    if let Err(why) = ghes.status.check() {
        return Some(HestError::Register { id, why });
    }
    if let Some(why) = ack_refusal(&ghes.ack) {
        return Some(HestError::Register { id, why });
    }
    if ghes.block_length < BLOCK_HEADER {
        return Some(HestError::BlockLength { id });
    }
    None
}

impl Admitted {
    /// No source yet.
    pub fn new(alloc: Global) -> Admitted
        ensures { result ≡ [] }
    {
        Admitted {
            sources: Vec::new(alloc),
            ids: BTreeSet::new(alloc),
            enabled: 0,
        }
    }

    // Why the source is refused behind these.
    fn refusal(&self, source: &Source) -> Option<HestError>
        ensures { result ≡ source_refusal self.now source.now }
    {
        match source {
            Source::Skipped { .. } => None,
            Source::Ghes(ghes) => {
                if self.ids.contains(&ghes.id) {
                    return Some(HestError::DuplicateId { id: ghes.id });
                }
                if ghes.enabled {
                    return enabled_refusal(self.enabled, ghes);
                }
                None
            }
        }
    }

    // One source more, which is not refused behind these.
    fn with(mut self, source: Source) -> Result<Admitted, HestError>
        requires { source_refusal self source ≡ None }
        ensures found { IfOk result (λ admitted. admitted ≡ self ++ source ∷ []) }
        ensures memory { IfErr result (λ error. error ≡ OutOfMemory) }
    {
        if let Source::Ghes(ghes) = source {
            self.ids.insert(ghes.id)?;
            if ghes.enabled {
                self.enabled += 1;
            }
        }
        self.sources.push(source)?;
        Ok(self)
    }

    /// One source more, if it is not refused behind these.
    pub fn admit(self, source: Source) -> Result<Admitted, HestError>
        ensures found { IfOk result (λ after. after ≡ self ++ source ∷ []) }
        ensures accepted { OnOk result (source_refusal self source ≡ None) }
        ensures refused { IfErr result
            (λ error. error ≢ OutOfMemory → source_refusal self source ≡ Some error) }
    {
        match self.refusal(&source) {
            Some(error) => Err(error),
            None => self.with(source),
        }
    }

    /// The sources, in order.
    pub fn into_sources(self) -> Vec<Source>
        ensures { result.items ≡ self }
    {
        self.sources
    }
}
