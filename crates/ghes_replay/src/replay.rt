//! Replays the script of one file on the tables of others.
ghost use Rattle.apei_hest.specs.Refusal.{enabled};
ghost use Rattle.fw_sim.specs.Platform.{IsPlatformOf};
ghost use Rattle.ghes_replay.specs.Done.{Does, DoesOn};
ghost use Rattle.ghes_replay.specs.Task.{Replay};
ghost use Rattle.ghes_replay.specs.Views.{done_of};

use crate::Refusal;
use crate::done::Done;
use crate::loading::{load_script, load_tables};
use crate::playing::{build, replay_lines};
use apei_einj::Einj;
use apei_hest::Hest;
use fw_map::tables_have_one_map;
use fw_sim::Platform;
use ghes_outside::Files;
use ghes_script::each_line_of_a_script_is_allowed;
use std::alloc::Global;

// Replays a script on the machine of these tables.
fn replay_script<F: Files>(
    alloc: Global,
    files: &mut F,
    found: &Hest,
    injection: Option<Einj>,
    platform: Platform,
    script: &str,
) -> Result<Done, Refusal>
    requires { IsPlatformOf (enabled found.now) injection platform }
    ensures { DoesOn (F.seen files.old) (F.seen files.new) script.now found.now injection (done_of result) }
{
    each_line_of_a_script_is_allowed();
    tables_have_one_map();
    match load_script(alloc, files, script, found, injection.is_some()) {
        Ok(script) => replay_lines(alloc, found, injection, platform, script.lines()),
        Err(refusal) => Err(refusal),
    }
}

// Replays a script on these tables.
fn replay_on<F: Files>(
    alloc: Global,
    files: &mut F,
    found: &Hest,
    injection: Option<Einj>,
    script: &str,
) -> Result<Done, Refusal>
    ensures { DoesOn (F.seen files.old) (F.seen files.new) script.now found.now injection (done_of result) }
{
    match build(alloc, found, injection.as_ref()) {
        Ok(platform) => replay_script(alloc, files, found, injection, platform, script),
        Err(refusal) => Err(refusal),
    }
}

/// Replays the script of one file on the table of another, and on an injection table unless its word is `-`.
pub(crate) fn replay<F: Files>(
    alloc: Global,
    files: &mut F,
    hest: &str,
    einj: &str,
    script: &str,
) -> Result<Done, Refusal>
    ensures { Does (F.seen files.old)
        (F.seen files.new) (Replay hest.now einj.now script.now) (done_of result) }
{
    match load_tables(alloc, files, hest, einj) {
        Ok((found, injection)) => replay_on(alloc, files, &found, injection, script),
        Err(refusal) => Err(refusal),
    }
}
