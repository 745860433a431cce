//! A context whose pass is away.
ghost use Rattle.std.specs.Prelude.{◌≡◌};
ghost use Rattle.ghes_rule.specs.declared.views.Stage.TheVariants.{Idle};
ghost use Rattle.ghes_context.specs.Context.{parted_from, seated_in};

use crate::context::Context;
use crate::rest::Rest;
use ghes_rule::Pass;
use std::marker::Model;

/// A context whose pass is with the decoder. A contract sees the rest of it.
///
/// Source: own choice.
#[derive(Drop)]
pub struct Parted {
    rest: Rest,
}

impl Model for Parted {
    ghost use Rattle.ghes_context.specs.Context.{PartedSeen, parted_of, IsKeeping};

    ghost Value = { PartedSeen };

    ghost view = { λ p. parted_of p.rest };

    ghost invariant = { λ p. IsKeeping p.rest };
}

impl Context {
    /// Takes the pass out of its seat. It holds no claim.
    pub fn part(self) -> (Parted, Pass)
        ensures parted { result.0 ≡ parted_from self }
        ensures pass { result.1 ≡ self.pass }
        ensures idle { result.1.view.stage ≡ Idle }
        ensures number { result.1.view.number ≡ self.number }
        ensures long { result.1.view.room ≡ self.block_len }
    {
        let Context { pass, rest } = self;
        let Some(pass) = pass else {
            unreachable!();
        };
        (Parted { rest }, pass)
    }
}

impl Parted {
    /// Seats a pass: that of this context, which has the number, the length of a packet and the fatal block that it had.
    pub fn sit(self, pass: Pass) -> Context
        requires idle { pass.view.stage ≡ Idle }
        requires number { pass.view.number ≡ self.number }
        requires long { pass.view.room ≡ self.block_len }
        requires fatal { pass.view.fatal ≡ self.fatal }
        ensures { result ≡ seated_in self pass }
    {
        let Parted { rest } = self;
        Context {
            pass: Some(pass),
            rest,
        }
    }
}
