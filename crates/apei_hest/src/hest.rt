//! The hardware error source table, read whole.
ghost use Rattle.std.specs.Prelude.{◌≡◌, ◌≢◌, ◌≤◌, ◌<◌, ◌^◌, [], length, drop, Ok, Err, IfOk, IfErr};
ghost use Rattle.apei_hest.specs.Admitted.{IsWalkedWhole, StopsWith};
ghost use Rattle.apei_hest.specs.declared.error.HestError.TheVariants.{OutOfMemory};

use crate::admitted::Admitted;
use crate::structure::whole_length;
use crate::{HestError, Source};
use apei_base::{Sdt, u32_at};
use std::alloc::Global;
use std::marker::Model;

/// The error sources of a HEST, the hardware error source table. A contract sees the list of them.
///
/// None of them is refused behind those before it: no two generic sources have one id, at most 64 are enabled, and each
/// of these has registers that name regions and a block with room for a header.
/// Source: ACPI 6.5, 18.3.2.
#[derive(Debug, Drop)]
pub struct Hest {
    sources: Vec<Source>,
}

impl Model for Hest {
    ghost use Rattle.std.specs.Prelude.{List, []};
    ghost use Rattle.apei_hest.specs.Refusal.{AreAccepted};
    ghost use Rattle.apei_hest.specs.declared.source.Source.{Source};

    ghost Value = { List Source };

    ghost invariant = { λ h. AreAccepted [] h.sources.items };

    ghost view = { λ h. h.sources.items };
}

// Where the count of the structures stands, and where the first one begins, in bytes from the start of the table.
const COUNT: usize = 36;

const FIRST_STRUCTURE: usize = 40;

// The sources of the structures, each judged behind those before it.
fn walk(alloc: Global, bytes: &[u8]) -> Result<Admitted, HestError>
    requires counted { 40 ≤ length bytes.now }
    requires small { length bytes.now < 2 ^ 32 }
    ensures found { IfOk result (λ found. IsWalkedWhole (drop 40 bytes.now) found) }
    ensures refused { IfErr result
        (λ error. error ≢ OutOfMemory → StopsWith (drop 40 bytes.now) error) }
{
    let mut admitted = Admitted::new(alloc);
    let (_front, mut rest) = bytes.split_at(FIRST_STRUCTURE);
    while !rest.is_empty() {
        let at = (bytes.len() - rest.len()) as u32;
        let (structure, later) = rest.split_at(whole_length(rest, at)?);
        admitted = admitted.admit(Source::read(structure, at))?;
        rest = later;
    }
    Ok(admitted)
}

impl Hest {
    ghost use Rattle.apei_hest.specs.Hest.{Judges};
    ghost use Rattle.apei_hest.specs.Refusal.{AreAccepted};

    /// Reads the error sources of a HEST, in table order.
    ///
    /// `bytes` is the whole table with its header. Offsets in errors are in bytes from its start. The first
    /// refusal along the table is answered; a table without room for the count is truncated at 36, and the count
    /// is tested last. Registers and block lengths of sources that are not enabled are not judged.
    /// Source: ACPI 6.5, 18.3.2. Which refusal is first: Own choice.
    pub fn read(alloc: Global, bytes: &[u8]) -> Result<Hest, HestError>
        ensures found { IfOk result (λ hest. Judges bytes.now (Ok hest)) }
        ensures accepted { IfOk result (λ hest. AreAccepted [] hest) }
        ensures refused { IfErr result
            (λ error. error ≢ OutOfMemory → Judges bytes.now (Err error)) }
    {
        Sdt::read(bytes, b"HEST")?;
        if bytes.len() < FIRST_STRUCTURE {
            return Err(HestError::Truncated { at: COUNT as u32 });
        }
        let said = u32_at(bytes, COUNT);
        let sources = walk(alloc, bytes)?.into_sources();
        let found = sources.len() as u32;
        if said != found {
            return Err(HestError::CountMismatch { said, found });
        }
        Ok(Hest { sources })
    }

    /// The error sources, in table order.
    pub fn sources(&self) -> &[Source]
        ensures list { result.now ≡ self.now }
        ensures accepted { AreAccepted [] self.now }
    {
        &self.sources
    }
}
