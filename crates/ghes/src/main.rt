//! The program `ghes`: hands its arguments, a counter of severities, the files of the system and standard output to the top
//! call.
#![tactic(auto)]

use ghes_outside::{HostFiles, HostSink};
use ghes_replay::{SeverityCounter, ghes_main};
use std::env;
use std::process::ExitCode;

fn main(rt: HostRuntime) -> ExitCode {
    let (mut files, mut out) = (HostFiles::new(rt), HostSink::new(rt));
    ghes_main(
        rt.alloc(),
        env::args(&rt),
        SeverityCounter::new(),
        &mut files,
        &mut out,
    )
}
