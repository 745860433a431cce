//! What makes injections.
ghost use Rattle.std.specs.Prelude.{◌≡◌, ℕ, IfOk};
ghost use Rattle.apei_einj.specs.declared.request.Request.{Request};
ghost use Rattle.ghes_lines.specs.Injector.{IsInjected};
ghost use Rattle.ghes_lines.specs.declared.injector.Injected.{Injected};

use apei_base::Bytes;
use apei_einj::Request;
use ghes_ledger::InjectionEnd;
use std::alloc::AllocError;

/// What an injection makes.
#[derive(Debug, Drop)]
pub enum Injected {
    /// A block, which the source at this position is to report.
    Made { source: u16, block: Bytes },
    /// No block, and how it ended.
    Ended(InjectionEnd),
}

/// What makes injections on a simulated machine.
///
/// Source: own choice.
pub trait Injector {
    /// How many sources may report a block.
    ghost sources: { Self → ℕ };

    /// What an injection may depend on, and change.
    ghost State: { Type 0 };

    /// The state of what makes injections.
    ghost state: { Self → State };

    /// An injection that comes to an end leads from one state to another.
    ghost does: { State → Request → Injected → State → Type 0 };

    /// Injects an error, to the end of its trigger.
    fn inject(&mut self, request: &Request) -> Result<Injected, AllocError>
        ensures made { IfOk result (IsInjected (sources self.old)) }
        ensures does { IfOk result (λ injected. does (state self.old) request.now injected (state self.new)) }
        ensures sources { sources self.new ≡ sources self.old };
}
