//! A decoder that takes packet after packet.
ghost use Rattle.std.specs.Prelude.{◌≡◌, ◌<◌};
ghost use Rattle.ghes_rule.specs.declared.views.Hand.TheVariants.{Bare};
ghost use Rattle.chain_run.specs.Ready.{StaysBare};

use crate::tally::Tally;
use ghes_chain::{Gathered, Took, give, take};
use ghes_rule::{Shared, Work};
use ghes_steps::Steps;
use std::marker::Brand;
use std::sync::ledger::{Blank, Ledger};
use std::thread::yield_now;

// Takes until so many packets were noted, within so many tries.
pub(crate) fn take_until<L: Ledger>(
    shared: &Shared,
    work: &mut Work,
    tally: &mut Tally,
    until: u64,
    tries: u32,
    steps: &mut Steps<L>,
)
    requires belongs { work.old.table ≡ shared.now }
    requires bare { work.old.view.held ≡ Bare }
    ensures { StaysBare work.old work.new }
{
    for _ in 0..tries {
        if until <= tally.taken() {
            return;
        }
        match take(shared, work, steps) {
            Took::Packet(held) => {
                tally.note(held.packet());
                give(shared, held, work, steps);
            }
            Took::Empty | Took::Again => yield_now(),
        }
    }
}

// The same, with a counter of its own.
fn take_counted<L: Ledger>(
    blank: Blank,
    shared: &Shared,
    work: &mut Work,
    tally: &mut Tally,
    until: u64,
    tries: u32,
)
    requires blank { (blank.name ≡ L.name) × (blank.parts ≡ L.parts) × (0 < blank.parts) }
    requires belongs { work.old.table ≡ shared.now }
    requires bare { work.old.view.held ≡ Bare }
    ensures { StaysBare work.old work.new }
{
    let mut steps = Steps::<L>::new(blank);
    take_until(shared, work, tally, until, tries, &mut steps);
}

/// Takes until so many packets were noted, within so many tries.
pub fn take_alone(shared: &Shared, work: &mut Work, tally: &mut Tally, until: u64, tries: u32)
    requires belongs { work.old.table ≡ shared.now }
    requires bare { work.old.view.held ≡ Bare }
    ensures { StaysBare work.old work.new }
{
    take_counted::<Brand>(Blank::new(1), shared, work, tally, until, tries);
}

// Takes what is pending in a quiet moment: each slot once at most.
fn take_rest<L: Ledger>(blank: Blank, shared: &Shared, gathered: &mut Gathered, tally: &mut Tally)
    requires blank { (blank.name ≡ L.name) × (blank.parts ≡ L.parts) × (0 < blank.parts) }
    requires belongs { gathered.old.table ≡ shared.now }
    requires bare { gathered.old.view.held ≡ Bare }
    ensures { StaysBare gathered.old gathered.new }
{
    let mut steps = Steps::<L>::new(blank);
    for _ in 0..shared.slots() {
        match gathered.take_last(shared, &mut steps) {
            Some(held) => {
                tally.note(held.packet());
                gathered.give(shared, held, &mut steps);
            }
            None => return,
        }
    }
}

/// Takes all that is pending in a quiet moment.
pub fn drain(shared: &Shared, gathered: &mut Gathered, tally: &mut Tally)
    requires belongs { gathered.old.table ≡ shared.now }
    requires bare { gathered.old.view.held ≡ Bare }
    ensures { StaysBare gathered.old gathered.new }
{
    take_rest::<Brand>(Blank::new(1), shared, gathered, tally);
}
