//! A handler that counts blocks by severity.
ghost use Rattle.std.specs.Prelude.{◌≡◌, ◌++◌, [], OnOk, OnErr};
ghost use Rattle.ghes_notify.specs.declared.handler.Verdict.TheVariants.{Go};
ghost use Rattle.ghes_notify.specs.Delivery.{StandsOn, delivery_of};
ghost use Rattle.ghes_handlers.specs.Severities.{severity_in, AreCountsOf, closing_line, with_one};

use apei_base::u32_at;
use cper_block::Severity;
use ghes_notify::{Handler, Verdict};
use ghes_report::severities_text;
use std::alloc::AllocError;
use std::marker::Model;

/// Counts the blocks that it is told of by their severity, and lets all behind it be told too.
///
/// Bytes without a whole header are not counted. A count stays at 2^64 - 1 once it is there.
/// Source of the severities: ACPI 6.5, 18.3.2.7.1; the counts: own choice.
#[derive(Debug, Drop)]
pub struct SeverityCounter {
    recoverable: u64,
    fatal: u64,
    corrected: u64,
    none: u64,
}

impl Model for SeverityCounter {
    ghost use Rattle.ghes_handlers.specs.Severities.{Counted};

    ghost Value = { Counted };

    ghost view = { λ c. record {
      recoverable = c.recoverable;
      fatal = c.fatal;
      corrected = c.corrected;
      none = c.none;
    } };
}

/// How many bytes the header of a block has.
const HEADER_SIZE: usize = 20;

/// The offset of the severity in a header.
const SEVERITY: usize = 16;

// The severity of a block, where its bytes have a whole header.
fn severity_in(block: &[u8]) -> Option<Severity>
    ensures { result ≡ severity_in block.now }
{
    if block.len() < HEADER_SIZE {
        None
    } else {
        Some(Severity::from(u32_at(block, SEVERITY)))
    }
}

impl SeverityCounter {
    /// Counters at 0. They stand for no deliveries.
    pub fn new() -> SeverityCounter
        ensures counts { result ≡ record { recoverable = 0; fatal = 0; corrected = 0; none = 0 } }
        ensures stands { AreCountsOf result [] }
    {
        SeverityCounter {
            recoverable: 0,
            fatal: 0,
            corrected: 0,
            none: 0,
        }
    }

    // Counts one block.
    fn count(&mut self, severity: Option<Severity>)
        ensures { self.new ≡ with_one severity self.old }
    {
        match severity {
            Some(Severity::Recoverable) => self.recoverable = self.recoverable.saturating_add(1),
            Some(Severity::Fatal) => self.fatal = self.fatal.saturating_add(1),
            Some(Severity::Corrected) => self.corrected = self.corrected.saturating_add(1),
            Some(Severity::Informational) => self.none = self.none.saturating_add(1),
            None => {}
        }
    }
}

impl Handler for SeverityCounter {
    ghost use Rattle.std.specs.Prelude.{◌≡◌, ◌++◌};

    ghost stands = { λ c list. AreCountsOf c list };

    ghost answers = { λ _ _. Go };

    ghost closing_text = { λ c. closing_line c };

    #[tactic(auto, using(crate::proofs::CountLemmas::one_more_counted))]
    fn notify(&mut self, _source: u16, _seq: u32, block: &[u8]) -> Verdict {
        self.count(severity_in(block));
        Verdict::Go
    }

    fn closing(&self, into: &mut Vec<u8>) -> Result<(), AllocError> {
        let alloc = *into.allocator();
        severities_text(
            alloc,
            into,
            self.recoverable,
            self.fatal,
            self.corrected,
            self.none,
        )
    }
}
