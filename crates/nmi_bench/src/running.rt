//! All calls of all callers, and what the decoder took.
ghost use Rattle.std.specs.Prelude.{◌≡◌, ◌<◌};
ghost use Rattle.ghes_rule.specs.declared.views.Hand.TheVariants.{Bare};

use crate::caller::Caller;
use crate::taking::{Taken, take_all, take_one};
use ghes_rule::{Shared, Work};
use ghes_steps::Steps;
use std::marker::Brand;
use std::sync::Wait;
use std::sync::atomic::{AtomicU64, Ordering};
use std::sync::ledger::{Blank, Ledger};
use std::thread::{Threads, for_each_mut, join_mut};

// Each call of a caller, and behind each call a take.
fn call_and_take<L: Ledger>(
    shared: &Shared,
    work: &mut Work,
    caller: &mut Caller<'_>,
    taken: &mut Taken,
    steps: &mut Steps<L>,
)
    requires { (work.old.table ≡ shared.now) × (work.old.view.held ≡ Bare) }
    ensures { (work.new.table ≡ work.old.table) × (work.new.view.held ≡ Bare) }
{
    while caller.is_due() {
        caller.call(steps);
        take_one(shared, work, taken, steps);
    }
}

// Each call of each caller in turn, and behind each call a take.
fn in_turn<L: Ledger>(
    blank: Blank,
    shared: &Shared,
    work: Work,
    callers: &mut [Caller<'_>],
) -> Taken
    requires blank { (blank.name ≡ L.name) × (blank.parts ≡ L.parts) × (0 < blank.parts) }
    requires work { (work.table ≡ shared.now) × (work.view.held ≡ Bare) }
{
    let mut steps = Steps::<L>::new(blank);
    let mut work = work;
    let mut taken = Taken::none();
    for caller in callers.iter_mut() {
        call_and_take(shared, &mut work, caller, &mut taken, &mut steps);
    }
    taken
}

/// Each call of each caller in turn on one thread, and behind each call a take.
pub fn alone(shared: &Shared, work: Work, callers: &mut [Caller<'_>]) -> Taken
    requires work { (work.table ≡ shared.now) × (work.view.held ≡ Bare) }
{
    in_turn::<Brand>(Blank::new(1), shared, work, callers)
}

// Takes packets until so many callers have ended, with a count of steps of its own.
fn taken_beside<R: Wait>(
    rt: &R,
    shared: &Shared,
    work: &mut Work,
    ended: &AtomicU64,
    callers: u64,
) -> Taken
    requires work { (work.old.table ≡ shared.now) × (work.old.view.held ≡ Bare) }
{
    take_all::<R, Brand>(rt, Blank::new(1), shared, work, ended, callers)
}

// Each caller in a thread of its own.
fn call_each<R: Threads + Sync>(rt: &R, ended: &AtomicU64, callers: &mut [Caller<'_>]) {
    let threads = callers.len().max(1);
    for_each_mut(
        rt,
        callers,
        threads,
        &|_, caller: &mut Caller<'_>| caller.call_beside(ended),
    );
}

/// The callers in threads of their own, beside the decoder in another.
pub fn in_threads<R: Threads + Wait + Sync>(
    rt: &R,
    shared: &Shared,
    work: Work,
    callers: &mut [Caller<'_>],
) -> Taken
    requires work { (work.table ≡ shared.now) × (work.view.held ≡ Bare) }
{
    let ended = AtomicU64::new(0);
    let mut work = work;
    let mut taken = Taken::none();
    let wanted = callers.len() as u64;
    join_mut(
        rt,
        &mut || call_each(rt, &ended, callers),
        &mut || -> ()
            requires { (work.table ≡ shared.now) × (work.view.held ≡ Bare) }
        { taken = taken_beside(rt, shared, &mut work, &ended, wanted) },
    );
    taken
}
