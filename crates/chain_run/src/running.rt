//! Contexts in threads beside a decoder.
ghost use Rattle.std.specs.Prelude.{◌≡◌, ◌+◌, ◌^◌, ◌<◌, ◌≤◌, ℕ, All, length, IfOk, slice_index_or};
ghost use Rattle.atomic_table.specs.Seated.{TableId};
ghost use Rattle.ghes_rule.specs.declared.views.Hand.TheVariants.{Bare};
ghost use Rattle.ghes_rule.specs.Seen.{PassSeen};
ghost use Rattle.chain_run.specs.Ready.{AreReady, CanPush, GoesOn, StaysBare};

use crate::pushing::{LONGEST, Plan, push_alone};
use crate::taking::{drain, take_alone};
use crate::tally::Tally;
use ghes_chain::gather;
use ghes_rule::{Pass, Shared, Work};
use std::alloc::{AllocError, Global};
use std::thread::{Threads, join, map_vec};

/// The decoder, the contexts by number, and what came out so far.
#[derive(Drop)]
pub struct Lot {
    pub work: Work,
    pub passes: Vec<Pass>,
    pub tally: Tally,
}

/// A shared object of so many slots with so many contexts, of which nothing was pushed yet. Its packets have room for 164 bytes.
pub fn fresh(alloc: Global, slots: usize, contexts: usize) -> Result<(Shared, Lot), AllocError>
    requires slots { (0 < slots) × (slots ≤ 64) }
    requires contexts { (0 < contexts) × (contexts ≤ 16) }
    ensures work { IfOk result (λ r. (r.1.work.table ≡ r.0) × (r.1.work.view.held ≡ Bare) × (length r.1.work.view.passes ≡ contexts)) }
    ensures passes { IfOk result (λ r. AreReady r.0 0 contexts r.1.passes.items) }
{
    let (shared, work, passes) = Shared::build(alloc, slots, LONGEST, contexts)?;
    let tally = Tally::new();
    Ok((
        shared,
        Lot {
            work,
            passes,
            tally,
        },
    ))
}

// Each context pushes, in a thread of its own where one can be made.
fn push_in_threads<R: Threads + Sync>(
    rt: &R,
    alloc: Global,
    shared: &Shared,
    passes: Vec<Pass>,
    plan: Plan,
) -> Result<Vec<Pass>, AllocError>
    requires { All (CanPush shared.now plan.count) passes.items }
    ensures len { IfOk result (λ v. length v.items ≡ length passes.items) }
    ensures each { IfOk result (λ v. (i : ℕ) (d : PassSeen) → i < length passes.items → GoesOn (slice_index_or passes.items i d) (slice_index_or v.items i d) plan.count) }
{
    map_vec(
        rt,
        passes,
        &|pass: Pass| -> Pass
            requires { CanPush shared.now plan.count pass }
            ensures { GoesOn pass result plan.count }
        { push_alone(alloc, shared, pass, plan) },
    )
}

// The contexts push and the decoder takes, at once.
fn push_and_take<R: Threads + Sync>(
    rt: &R,
    alloc: Global,
    shared: &Shared,
    lot: Lot,
    plan: Plan,
    until: u64,
) -> Result<Lot, AllocError>
    requires work { (lot.work.table ≡ shared.now) × (lot.work.view.held ≡ Bare) }
    requires passes { All (CanPush shared.now plan.count) lot.passes.items }
    ensures work { IfOk result (λ r. StaysBare lot.work r.work) }
    ensures len { IfOk result (λ r. length r.passes.items ≡ length lot.passes.items) }
    ensures each { IfOk result (λ r. (i : ℕ) (d : PassSeen) → i < length lot.passes.items → GoesOn (slice_index_or lot.passes.items i d) (slice_index_or r.passes.items i d) plan.count) }
{
    let Lot {
        work,
        passes,
        tally,
    } = lot;
    let tries = plan.tries;
    let (passes, (work, tally)) = join(
        rt,
        || -> Result<Vec<Pass>, AllocError>
            requires { All (CanPush shared.now plan.count) passes.items }
            ensures len { IfOk result (λ v. length v.items ≡ length passes.items) }
            ensures each { IfOk result (λ v. (i : ℕ) (d : PassSeen) → i < length passes.items → GoesOn (slice_index_or passes.items i d) (slice_index_or v.items i d) plan.count) }
        { push_in_threads(rt, alloc, shared, passes, plan) },
        || -> (Work, Tally)
            requires { (work.table ≡ shared.now) × (work.view.held ≡ Bare) }
            ensures { StaysBare work result.0 }
        { taken_meanwhile(shared, work, tally, until, tries) },
    );
    let Ok(passes) = passes else {
        return Err(AllocError);
    };
    Ok(Lot {
        work,
        passes,
        tally,
    })
}

// The decoder takes until so many packets were noted.
fn taken_meanwhile(
    shared: &Shared,
    work: Work,
    tally: Tally,
    until: u64,
    tries: u32,
) -> (Work, Tally)
    requires { (work.table ≡ shared.now) × (work.view.held ≡ Bare) }
    ensures { StaysBare work result.0 }
{
    let (mut work, mut tally) = (work, tally);
    take_alone(shared, &mut work, &mut tally, until, tries);
    (work, tally)
}

// All passes come back, the rest is taken, and they go out again.
fn settle_all(shared: &Shared, lot: Lot, most: u32) -> Lot
    requires work { (lot.work.table ≡ shared.now) × (lot.work.view.held ≡ Bare) }
    requires passes { AreReady shared.now most (length lot.work.view.passes) lot.passes.items }
    ensures work { (result.work.table ≡ shared.now) × (result.work.view.held ≡ Bare) × (length result.work.view.passes ≡ length lot.work.view.passes) }
    ensures passes { AreReady shared.now most (length lot.work.view.passes) result.passes.items }
{
    let _most = most;
    let Lot {
        work,
        passes,
        tally,
    } = lot;
    let mut tally = tally;
    let mut gathered = gather(shared, work, passes);
    drain(shared, &mut gathered, &mut tally);
    let (work, passes) = gathered.spread(shared);
    Lot {
        work,
        passes,
        tally,
    }
}

/// Each context pushes as the plan says, in a thread of its own, while the decoder takes until so many packets were noted in all. Then
/// all passes come back, the rest is taken, and the passes go out again.
///
/// Each context has made as many claims before as the plan's first number says, at most.
pub fn burst<R: Threads + Sync>(
    rt: &R,
    alloc: Global,
    shared: &Shared,
    lot: Lot,
    plan: Plan,
    until: u64,
) -> Result<Lot, AllocError>
    requires work { (lot.work.table ≡ shared.now) × (lot.work.view.held ≡ Bare) }
    requires passes { AreReady shared.now plan.from (length lot.work.view.passes) lot.passes.items }
    requires few { plan.from + plan.count < 2 ^ 32 }
    ensures work { IfOk result (λ r. (r.work.table ≡ shared.now) × (r.work.view.held ≡ Bare) × (length r.work.view.passes ≡ length lot.work.view.passes)) }
    ensures passes { IfOk result (λ r. AreReady shared.now (plan.from + plan.count) (length lot.work.view.passes) r.passes.items) }
{
    let most = plan.from + plan.count;
    let lot = push_and_take(rt, alloc, shared, lot, plan, until)?;
    Ok(settle_all(shared, lot, most))
}
