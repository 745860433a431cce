//! A context with the memory of its source, and its calls.
ghost use Rattle.std.specs.Prelude.{◌≡◌, ◌≤◌, ◌<◌, ◌+◌, ◌^◌, length};
ghost use Rattle.ghes_context.specs.Nmi.{IsPortOf};

use crate::port::Port;
use apei_base::Firmware;
use ghes_context::Context;
use ghes_rule::Shared;
use ghes_steps::Steps;
use std::marker::{Brand, Model};
use std::sync::atomic::{AtomicU64, Ordering};
use std::sync::ledger::{Blank, Ledger};

/// A context, the memory of its source, and how many calls it is still to make.
#[derive(Drop)]
pub struct Caller<'a> {
    pub(crate) shared: &'a Shared,
    pub(crate) context: Context,
    /// The position of its source in the table.
    pub(crate) source: usize,
    pub(crate) port: Port,
    pub(crate) left: usize,
}

impl<'a> Model for Caller<'a> {
    ghost use Rattle.nmi_bench.specs.Calling.{Calling, IsReadyFor};

    ghost Value = { Calling };

    ghost view = { λ c. record { table = c.shared.now; left = c.left } };

    ghost invariant = { λ c. IsReadyFor c.shared.now c.left c.source c.context (⟦<Port as Firmware>⟧.seen c.port) };
}

// One call of a context on its source, at time 0. It has a place of its own in a profile.
#[inline(never)]
fn nmi_call<L: Ledger>(
    shared: &Shared,
    context: &mut Context,
    source: usize,
    port: &mut Port,
    steps: &mut Steps<L>,
)
    requires belongs { context.old.pass.table ≡ shared.now }
    requires within { source < length context.old.sources }
    requires port { IsPortOf context.old source (⟦<Port as Firmware>⟧.seen port.old) }
    requires few { length context.old.pass.view.claims < 2 ^ 32 }
    requires room { length context.old.calls < context.old.room }
    ensures belongs { context.new.pass.table ≡ shared.now }
    ensures sources { context.new.sources ≡ context.old.sources }
    ensures port { IsPortOf context.new source (⟦<Port as Firmware>⟧.seen port.new) }
    ensures claims { length context.new.pass.view.claims ≤ length context.old.pass.view.claims + 1 }
    ensures calls { length context.new.calls ≡ length context.old.calls + 1 }
    ensures room { context.old.room ≤ context.new.room }
{
    let _reply = context.nmi(shared, source, port, 0, steps);
}

impl<'a> Caller<'a> {
    ghost use Rattle.std.specs.Prelude.{◌-◌};
    ghost use Rattle.std.specs.Bool.{OnTrue};

    /// One call at time 0.
    pub fn call<L: Ledger>(&mut self, steps: &mut Steps<L>)
        requires { 0 < self.old.left }
        ensures { self.new ≡ record self.old { left = self.old.left - 1 } }
    {
        self.left -= 1;
        nmi_call(
            self.shared,
            &mut self.context,
            self.source,
            &mut self.port,
            steps,
        );
    }

    /// Whether it is to make another call.
    pub fn is_due(&self) -> bool
        ensures { OnTrue result (0 < self.now.left) }
    {
        self.left > 0
    }

    // All calls that it is to make.
    fn calls<L: Ledger>(&mut self, blank: Blank)
        requires blank { (blank.name ≡ L.name) × (blank.parts ≡ L.parts) × (0 < blank.parts) }
    {
        let mut steps = Steps::<L>::new(blank);
        while self.is_due() {
            self.call(&mut steps);
        }
    }

    /// All calls that it is to make, with a count of steps of its own; then it is counted as ended.
    pub fn call_beside(&mut self, ended: &AtomicU64) {
        self.calls::<Brand>(Blank::new(1));
        ended.fetch_add(1, Ordering::SeqCst);
    }

    /// How many blocks of its source are acknowledged.
    pub fn acknowledged(&self) -> usize {
        self.port.acknowledged
    }
}
