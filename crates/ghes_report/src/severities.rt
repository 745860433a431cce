//! The closing line of a counter of severities.
ghost use Rattle.std.specs.Prelude.{◌≡◌, ◌++◌, OnOk, OnErr};
ghost use Rattle.ghes_report.specs.Severities.{uncorrected_part, corrected_part, severities_line};

use crate::summary::counted;
use cper_text::Text;
use std::alloc::{AllocError, Global};

// Adds how many were not corrected.
#[tactic(auto, using(cper_text::proofs::Joining::grouped), unfolding(crate::specs::Severities::uncorrected_part))]
fn uncorrected_part(text: &mut Text, recoverable: u64, fatal: u64) -> Result<(), AllocError>
    ensures ok { OnOk result (text.new.added ≡ text.old.added ++ uncorrected_part recoverable fatal) }
    ensures front { text.new.front ≡ text.old.front }
{
    counted(text, "severities: recoverable ", recoverable)?;
    counted(text, ", fatal ", fatal)
}

// Adds how many were, or have none.
#[tactic(auto, using(cper_text::proofs::Joining::grouped), unfolding(crate::specs::Severities::corrected_part))]
fn corrected_part(text: &mut Text, corrected: u64, none: u64) -> Result<(), AllocError>
    ensures ok { OnOk result (text.new.added ≡ text.old.added ++ corrected_part corrected none) }
    ensures front { text.new.front ≡ text.old.front }
{
    counted(text, ", corrected ", corrected)?;
    counted(text, ", none ", none)?;
    text.put(b"\n")
}

// Adds the line.
#[tactic(auto, using(cper_text::proofs::Joining::grouped))]
fn severities_line(
    text: &mut Text,
    recoverable: u64,
    fatal: u64,
    corrected: u64,
    none: u64,
) -> Result<(), AllocError>
    ensures ok { OnOk result (text.new.added ≡ text.old.added ++ severities_line recoverable fatal corrected none) }
    ensures front { text.new.front ≡ text.old.front }
{
    uncorrected_part(text, recoverable, fatal)?;
    corrected_part(text, corrected, none)
}

/// Appends the closing line of a counter of severities: how many of the delivered blocks had each.
///
/// After an error `into` is as it was. Source of the words: own choice.
pub fn severities_text(
    alloc: Global,
    into: &mut Vec<u8>,
    recoverable: u64,
    fatal: u64,
    corrected: u64,
    none: u64,
) -> Result<(), AllocError>
    ensures ok { OnOk result (into.new.items ≡ into.old.items ++ severities_line recoverable fatal corrected none) }
    ensures err { OnErr result (into.new.items ≡ into.old.items) }
{
    let mut text = Text::open(alloc, into);
    let done = severities_line(&mut text, recoverable, fatal, corrected, none);
    text.close(into, done)
}
