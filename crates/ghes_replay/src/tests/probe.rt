//! A handler that counts what it is told, and ends a delivery or its closing as it is bid.
use ghes_notify::{Handler, Verdict};
use std::alloc::AllocError;

/// Answers `Go` until it was told so often, and this from then on. Its closing text is its name and how often it was told,
/// for which it may find no memory.
#[derive(Drop)]
pub(crate) struct Probe {
    pub(crate) name: u8,
    pub(crate) told: u8,
    pub(crate) after: u8,
    pub(crate) verdict: Verdict,
    pub(crate) closes: bool,
}

impl Probe {
    /// One that lets all be told.
    pub(crate) fn new(name: u8) -> Probe {
        Probe {
            name,
            told: 0,
            after: 0,
            verdict: Verdict::Go,
            closes: true,
        }
    }
}

impl Handler for Probe {
    ghost use Rattle.std.specs.Prelude.{⊤, [], ◌∷◌, ◌+◌, nat_lt, if◌then◌else◌};
    ghost use Rattle.ghes_notify.specs.declared.handler.Verdict.TheVariants.{Go};

    ghost stands = { λ _ _. ⊤ };

    ghost answers = { λ p _. if nat_lt p.told p.after then Go else p.verdict };

    ghost closing_text = { λ p. p.name ∷ p.told ∷ [] };

    fn notify(&mut self, _source: u16, _seq: u32, _block: &[u8]) -> Verdict {
        let goes = self.told < self.after;
        self.told = self.told.saturating_add(1);
        if goes { Verdict::Go } else { self.verdict }
    }

    fn closing(&self, into: &mut Vec<u8>) -> Result<(), AllocError> {
        if self.closes {
            into.extend_from_slice(&[self.name, self.told])
        } else {
            Err(AllocError)
        }
    }
}
