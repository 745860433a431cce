//! Reads a script for the sources of a table.
ghost use Rattle.std.specs.Prelude.{◌≡◌, ◌<◌, ◌^◌, length, IfOk, IfErr};
ghost use Rattle.apei_hest.specs.Refusal.{enabled};
ghost use Rattle.ghes_script.specs.Script.{IsScript, Blames};
ghost use Rattle.ghes_setup.specs.Machine.{name_of, names_of, setup_for, AreAllowedFor};

use apei_hest::{Ghes, Hest};
use fw_map::enabled_sources;
use ghes_script::{Script, ScriptError, SourceName, each_line_of_a_script_is_allowed};
use std::alloc::{AllocError, Global};

// The name of a source.
fn name_of(ghes: &Ghes) -> SourceName
    ensures { result ≡ name_of ghes.now }
{
    SourceName {
        id: ghes.id,
        v2: ghes.ack.is_some(),
    }
}

// The names of sources.
fn names_by(alloc: Global, sources: &[Ghes]) -> Result<Vec<SourceName>, AllocError>
    ensures { IfOk result (λ names. names.items ≡ names_of sources.now) }
{
    let mut names = Vec::new(alloc);
    for ghes in sources {
        names.push(name_of(ghes))?;
    }
    Ok(names)
}

// The names of the enabled sources of a table, in table order.
fn names_of(alloc: Global, hest: &Hest) -> Result<Vec<SourceName>, AllocError>
    ensures { IfOk result (λ names. names.items ≡ names_of (enabled hest.now)) }
{
    let sources = enabled_sources(alloc, hest.sources())?;
    names_by(alloc, &sources)
}

/// Reads a script for the enabled sources of a table, with an injection table or without one.
pub fn read_script(
    alloc: Global,
    hest: &Hest,
    injection: bool,
    bytes: &[u8],
) -> Result<Script, ScriptError>
    requires { length bytes.now < 2 ^ 32 }
    ensures found { IfOk result (λ script. IsScript (setup_for (enabled hest.now) injection) bytes.now script) }
    ensures allowed { IfOk result (AreAllowedFor (enabled hest.now)) }
    ensures refused { IfErr result (Blames (setup_for (enabled hest.now) injection) bytes.now) }
{
    each_line_of_a_script_is_allowed();
    let names = names_of(alloc, hest)?;
    Script::read(alloc, bytes, &names, injection)
}
