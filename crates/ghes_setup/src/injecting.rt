//! What makes the injections of a script: the machine that injects, driven by its table.
ghost use Rattle.std.specs.Prelude.{◌≡◌, IfOk};
ghost use Rattle.fw_einj.specs.Machine.{machine_of};
ghost use Rattle.ghes_setup.specs.Injecting.{refused_end, triggered, injected_by, IsInjection};

use apei_einj::{Einj, InjectError, Injected as Done, Request};
use fw_einj::{EinjPort, Made, an_injected_block_is_well_formed, injected_block};
use ghes_ledger::InjectionEnd;
use ghes_lines::{Injected, Injector};
use std::alloc::{AllocError, Global};

/// What makes the injections of a script: the machine that injects, driven by its table, where there is one.
///
/// Source: own choice.
#[derive(Drop)]
pub struct Injecting {
    alloc: Global,
    sources: u16,
    einj: Option<Einj>,
    port: Option<EinjPort>,
}

// How an injection ends that is refused.
fn refused_end(error: InjectError) -> InjectionEnd
    ensures { result ≡ refused_end error }
{
    match error {
        InjectError::NotAvailable => InjectionEnd::NotAvailable,
        InjectError::Busy => InjectionEnd::Busy,
        InjectError::Status(value) => InjectionEnd::Status(value),
        InjectError::Trigger(reason) => InjectionEnd::Trigger(reason),
        InjectError::NoAddress => InjectionEnd::NoAddress,
        InjectError::Fault => InjectionEnd::Trigger(0),
    }
}

// What a trigger leaves, where there are so many sources.
fn triggered(alloc: Global, sources: u16, made: Option<Made>) -> Result<Injected, AllocError>
    ensures { IfOk result (λ injected. injected ≡ triggered sources made) }
{
    match made {
        Some(made) if made.source < usize::from(sources) => Ok(Injected::Made {
            source: made.source as u16,
            block: injected_block(alloc, &made.injection)?,
        }),
        _ => Ok(Injected::Ended(InjectionEnd::Trigger(0))),
    }
}

// What an injection makes, by its answer and what its trigger made.
fn injected_by(
    alloc: Global,
    sources: u16,
    answer: Result<Done, InjectError>,
    made: Option<Made>,
) -> Result<Injected, AllocError>
    ensures { IfOk result (λ injected. injected ≡ injected_by sources answer made) }
{
    match answer {
        Ok(_) => triggered(alloc, sources, made),
        Err(error) => Ok(Injected::Ended(refused_end(error))),
    }
}

// Injects an error by the entries of a table.
fn inject_by(
    alloc: Global,
    sources: u16,
    einj: &Einj,
    request: &Request,
    port: &mut EinjPort,
) -> Result<Injected, AllocError>
    ensures { IfOk result (IsInjection sources einj.now request.now (machine_of port.old) (machine_of port.new)) }
{
    let answer = einj.inject(request, port);
    let made = port.take_made();
    injected_by(alloc, sources, answer, made)
}

impl Injecting {
    ghost use Rattle.ghes_setup.specs.Injecting.{seen_of};
    ghost use Rattle.std.specs.Prelude.{option_map};

    /// What makes injections by a table on the machine of it, for so many sources.
    pub fn new(alloc: Global, sources: u16, einj: Option<Einj>, port: Option<EinjPort>) -> Injecting
        ensures { seen_of result ≡ record { sources = sources; entries = einj; machine = option_map machine_of port } }
    {
        Injecting {
            alloc,
            sources,
            einj,
            port,
        }
    }
}

impl Injector for Injecting {
    ghost use Rattle.ghes_setup.specs.Injecting.{InjectingSeen, seen_of, Injects};

    ghost sources = { λ injecting. (seen_of injecting).sources };

    ghost State = { InjectingSeen };

    ghost state = { seen_of };

    ghost does = { Injects };

    fn inject(&mut self, request: &Request) -> Result<Injected, AllocError> {
        an_injected_block_is_well_formed();
        let Some(einj) = &self.einj else {
            return Ok(Injected::Ended(InjectionEnd::NotAvailable));
        };
        let Some(port) = &mut self.port else {
            return Ok(Injected::Ended(InjectionEnd::NotAvailable));
        };
        inject_by(self.alloc, self.sources, einj, request, port)
    }
}
