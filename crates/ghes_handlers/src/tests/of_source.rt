//! A handler of one's own: it counts the blocks of one source, and closes with a line.
ghost use Rattle.std.specs.Prelude.{◌≡◌, ◌++◌, ◌==◌, ◌-◌, ◌^◌, min, codes, count_by};
ghost use Rattle.std.specs.Fmt.{decimal};
ghost use Rattle.ghes_notify.specs.declared.handler.Verdict.TheVariants.{Go};
ghost use Rattle.ghes_notify.specs.Delivery.{delivery_of, StandsOn};

use ghes_notify::{Handler, Verdict};
use std::alloc::AllocError;

#[derive(Drop)]
pub(crate) struct OfSource {
    pub(crate) source: u16,
    pub(crate) blocks: u64,
}

impl Handler for OfSource {
    ghost use Rattle.std.specs.Prelude.{OnOk, OnErr};

    ghost stands = { λ c list.
        c.blocks ≡ min (count_by (λ d. d.source == c.source) list) (2 ^ 64 - 1) };

    ghost answers = { λ _ _. Go };

    ghost closing_text = { λ c.
        codes "source " ++ decimal c.source ++ codes ": " ++ decimal c.blocks ++ codes "\n" };

    fn notify(&mut self, source: u16, _seq: u32, _block: &[u8]) -> Verdict {
        if source == self.source {
            self.blocks = self.blocks.saturating_add(1);
        }
        Verdict::Go
    }

    fn closing(&self, into: &mut Vec<u8>) -> Result<(), AllocError> {
        let alloc = *into.allocator();
        let line = format!(in alloc; "source {}: {}\n", self.source, self.blocks)?;
        into.extend_from_slice(line.as_bytes())
    }
}
