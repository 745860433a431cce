ghost use Rattle.std.specs.Prelude.{◌≡◌, ◌+◌, ◌^◌, ◌<◌, ◌≤◌, true, [], length};
ghost use Rattle.ghes_rule.specs.declared.views.Stage.TheVariants.{Idle, Holding};
ghost use Rattle.ghes_rule.specs.Kept.{first_pass};
ghost use Rattle.ghes_rule.specs.Seen.{AreFirst, pass_seen};

use crate::{Claim, Claimed, claim, release};
use ghes_call::Packet;
use ghes_rule::{Hung, Pass, Shared, store_link, swap_in};
use ghes_steps::Steps;
use std::alloc::Global;
use std::marker::Brand;
use std::process::Abort;
use std::sync::atomic::{AtomicU64, Ordering};
use std::sync::ledger::{Blank, Ledger};
use std::test::Fail;
use std::thread::{Threads, join};

// The last of the passes at the start.
fn last<R: Abort>(rt: &R, shared: &Shared, passes: &mut Vec<Pass>) -> Pass
    requires { AreFirst shared.now 32 shared.now.slots (length passes.old.items) passes.old.items }
    ensures rest { AreFirst shared.now 32 shared.now.slots (length passes.new.items) passes.new.items }
    ensures count { length passes.old.items ≡ length passes.new.items + 1 }
    ensures pass { result ≡ pass_seen shared.now (first_pass 32 shared.now.slots (length passes.new.items)) }
{
    passes.pop().expect(rt, "a pass")
}

// A claim, where a slot is free.
fn held<R: Abort, L: Ledger>(
    rt: &R,
    shared: &Shared,
    pass: Pass,
    steps: &mut Steps<L>,
) -> (Pass, Claim)
    requires { (pass.table ≡ shared.now) × (pass.view.stage ≡ Idle) × (length pass.view.claims < 2 ^ 32) }
    ensures { (result.0.table ≡ pass.table) × (result.0.view.stage ≡ Holding result.1.slot result.1.turn) × (result.0.view.room ≡ pass.view.room) × (length result.0.view.claims ≡ length pass.view.claims + 1) }
{
    let (pass, claimed) = claim(shared, pass, steps);
    match claimed {
        Claimed::Slot(claim) => (pass, claim),
        Claimed::AllTaken => panic!(rt; "each slot was taken"),
    }
}

// Whether a search finds each slot taken, by one look each. What it claims it gives up.
fn is_full<L: Ledger>(shared: &Shared, pass: Pass, steps: &mut Steps<L>) -> (Pass, bool)
    requires { (pass.table ≡ shared.now) × (pass.view.stage ≡ Idle) × (length pass.view.claims < 2 ^ 32) }
    ensures pass { (result.0.table ≡ pass.table) × (result.0.view.stage ≡ Idle) × (length result.0.view.claims ≤ length pass.view.claims + 1) }
    ensures looks { result.1 ≡ true → steps.new ≡ steps.old + shared.now.slots }
{
    let (pass, claimed) = claim(shared, pass, steps);
    match claimed {
        Claimed::Slot(claim) => (release(shared, claim, pass, steps), false),
        Claimed::AllTaken => (pass, true),
    }
}

// Three passes at two slots.
fn three_at_two<R: Abort, L: Ledger>(
    rt: &R,
    blank: Blank,
    shared: &Shared,
    first: Pass,
    second: Pass,
    third: Pass,
)
    requires blank { (blank.name ≡ L.name) × (blank.parts ≡ L.parts) × (0 < blank.parts) }
    requires first { (first.table ≡ shared.now) × (first.view.stage ≡ Idle) × (first.view.claims ≡ []) }
    requires second { (second.table ≡ shared.now) × (second.view.stage ≡ Idle) × (second.view.claims ≡ []) }
    requires third { (third.table ≡ shared.now) × (third.view.stage ≡ Idle) × (third.view.claims ≡ []) }
{
    let mut steps = Steps::<L>::new(blank);
    let (first, one) = held(rt, shared, first, &mut steps);
    let (second, two) = held(rt, shared, second, &mut steps);
    assert_eq!(rt; (one.slot, two.slot), (0, 1), "slots in order");
    let (third, full) = is_full(shared, third, &mut steps);
    assert!(rt; full, "both slots are taken");
    let _first = release(shared, one, first, &mut steps);
    let (third, again) = held(rt, shared, third, &mut steps);
    assert_eq!(rt;
        (again.slot, again.turn),
        (0, 1),
        "the slot that was given up, and not one that was never taken"
    );
    let _third = release(shared, again, third, &mut steps);
    let _second = release(shared, two, second, &mut steps);
}

#[test]
fn the_third_pass_gets_the_slot_that_was_given_up(rt: HostRuntime) -> Result<(), Fail> {
    let (shared, _work, mut passes) = Shared::build(rt.alloc(), 2, 32, 3)?;
    let third = last(&rt, &shared, &mut passes);
    let second = last(&rt, &shared, &mut passes);
    let first = last(&rt, &shared, &mut passes);
    three_at_two::<HostRuntime, Brand>(&rt, Blank::new(1), &shared, first, second, third);
    Ok(())
}

// An empty packet is pushed under the claim, so that the slot stays taken.
fn pushed<R: Abort, L: Ledger>(
    rt: &R,
    alloc: Global,
    shared: &Shared,
    claim: Claim,
    pass: Pass,
    steps: &mut Steps<L>,
) -> Pass
    requires { (pass.table ≡ shared.now) × (pass.view.stage ≡ Holding claim.slot claim.turn) × (pass.view.room ≡ 32) }
    ensures { (result.table ≡ pass.table) × (result.view.stage ≡ Idle) × (result.view.room ≡ 32) × (result.view.claims ≡ pass.view.claims) }
{
    let mut pass = pass;
    let packet = Packet::empty(alloc, 32).expect(rt, "memory");
    let Hung {
        slot,
        old,
        spare: _,
    } = swap_in(shared, claim, &mut pass, packet, steps);
    store_link(shared, slot, old, &mut pass, steps);
    pass
}

// One pass claims slot after slot up to the last, and then finds each taken.
fn each_slot_once<R: Abort, L: Ledger>(
    rt: &R,
    alloc: Global,
    blank: Blank,
    shared: &Shared,
    pass: Pass,
)
    requires blank { (blank.name ≡ L.name) × (blank.parts ≡ L.parts) × (0 < blank.parts) }
    requires few { shared.now.slots ≤ 64 }
    requires pass { (pass.table ≡ shared.now) × (pass.view.stage ≡ Idle) × (pass.view.claims ≡ []) × (pass.view.room ≡ 32) }
{
    let mut steps = Steps::<L>::new(blank);
    let mut pass = pass;
    for slot in 0..shared.slots() {
        let (after, claim) = held(rt, shared, pass, &mut steps);
        assert_eq!(rt;
            (claim.slot, claim.turn),
            (slot, 0),
            "the first slot that is free"
        );
        pass = pushed(rt, alloc, shared, claim, after, &mut steps);
    }
    let (_pass, full) = is_full(shared, pass, &mut steps);
    assert!(rt; full, "each of {} slots is taken", shared.slots());
}

// So many slots, from 1 to 64.
const SLOTS: [usize; 3] = [1, 2, 64];

#[test]
fn a_search_finds_each_slot_once_and_then_none(rt: HostRuntime) -> Result<(), Fail> {
    for slots in SLOTS {
        assert!(rt; 0 < slots && slots <= 64, "{slots} slots");
        let (shared, _work, mut passes) = Shared::build(rt.alloc(), slots, 32, 1)?;
        let pass = last(&rt, &shared, &mut passes);
        each_slot_once::<HostRuntime, Brand>(&rt, rt.alloc(), Blank::new(1), &shared, pass);
    }
    Ok(())
}

// Claims and gives up, again and again. While the pass holds a slot, the flag of that slot is its own.
fn holds_alone<R: Abort, L: Ledger>(
    rt: &R,
    blank: Blank,
    shared: &Shared,
    flags: &[AtomicU64],
    pass: Pass,
) -> Pass
    requires blank { (blank.name ≡ L.name) × (blank.parts ≡ L.parts) × (0 < blank.parts) }
    requires flags { shared.now.slots ≤ length flags.now }
    requires pass { (pass.table ≡ shared.now) × (pass.view.stage ≡ Idle) × (pass.view.claims ≡ []) }
    ensures { result.table ≡ pass.table }
{
    let mut steps = Steps::<L>::new(blank);
    let mut pass = pass;
    for _ in 0..10_000usize {
        let (after, claimed) = claim(shared, pass, &mut steps);
        pass = match claimed {
            Claimed::Slot(claim) => {
                let taken = flags[claim.slot].swap(1, Ordering::SeqCst);
                assert_eq!(rt; taken, 0, "one pass has the slot at a time");
                flags[claim.slot].store(0, Ordering::SeqCst);
                release(shared, claim, after, &mut steps)
            }
            Claimed::AllTaken => after,
        };
    }
    pass
}

// The same, with a counter of its own.
fn alone<R: Abort>(rt: &R, shared: &Shared, flags: &[AtomicU64], pass: Pass) -> Pass
    requires flags { shared.now.slots ≤ length flags.now }
    requires pass { (pass.table ≡ shared.now) × (pass.view.stage ≡ Idle) × (pass.view.claims ≡ []) }
    ensures { result.table ≡ pass.table }
{
    holds_alone::<R, Brand>(rt, Blank::new(1), shared, flags, pass)
}

// Two threads.
fn two<R: Threads + Abort + Sync>(
    rt: &R,
    shared: &Shared,
    flags: &[AtomicU64],
    first: Pass,
    second: Pass,
) -> (Pass, Pass)
    requires flags { shared.now.slots ≤ length flags.now }
    requires first { (first.table ≡ shared.now) × (first.view.stage ≡ Idle) × (first.view.claims ≡ []) }
    requires second { (second.table ≡ shared.now) × (second.view.stage ≡ Idle) × (second.view.claims ≡ []) }
{
    join(
        rt,
        || -> Pass
            requires { (shared.now.slots ≤ length flags.now) × (first.table ≡ shared.now) × (first.view.stage ≡ Idle) × (first.view.claims ≡ []) }
        { alone(rt, shared, flags, first) },
        || -> Pass
            requires { (shared.now.slots ≤ length flags.now) × (second.table ≡ shared.now) × (second.view.stage ≡ Idle) × (second.view.claims ≡ []) }
        { alone(rt, shared, flags, second) },
    )
}

// Four threads.
fn four<R: Threads + Abort + Sync>(
    rt: &R,
    shared: &Shared,
    flags: &[AtomicU64],
    first: Pass,
    second: Pass,
    third: Pass,
    fourth: Pass,
) -> ((Pass, Pass), (Pass, Pass))
    requires flags { shared.now.slots ≤ length flags.now }
    requires first { (first.table ≡ shared.now) × (first.view.stage ≡ Idle) × (first.view.claims ≡ []) }
    requires second { (second.table ≡ shared.now) × (second.view.stage ≡ Idle) × (second.view.claims ≡ []) }
    requires third { (third.table ≡ shared.now) × (third.view.stage ≡ Idle) × (third.view.claims ≡ []) }
    requires fourth { (fourth.table ≡ shared.now) × (fourth.view.stage ≡ Idle) × (fourth.view.claims ≡ []) }
{
    join(
        rt,
        || -> (Pass, Pass)
            requires { (shared.now.slots ≤ length flags.now) × (first.table ≡ shared.now) × (first.view.stage ≡ Idle) × (first.view.claims ≡ []) × (second.table ≡ shared.now) × (second.view.stage ≡ Idle) × (second.view.claims ≡ []) }
        { two(rt, shared, flags, first, second) },
        || -> (Pass, Pass)
            requires { (shared.now.slots ≤ length flags.now) × (third.table ≡ shared.now) × (third.view.stage ≡ Idle) × (third.view.claims ≡ []) × (fourth.table ≡ shared.now) × (fourth.view.stage ≡ Idle) × (fourth.view.claims ≡ []) }
        { two(rt, shared, flags, third, fourth) },
    )
}

// Four threads at so many slots.
fn four_at<R: Threads + Abort + Sync>(rt: &R, alloc: Global, slots: usize) -> Result<(), Fail> {
    assert!(rt; 0 < slots && slots <= 64, "{slots} slots");
    let (shared, _work, mut passes) = Shared::build(alloc, slots, 32, 4)?;
    let fourth = last(rt, &shared, &mut passes);
    let third = last(rt, &shared, &mut passes);
    let second = last(rt, &shared, &mut passes);
    let first = last(rt, &shared, &mut passes);
    let mut flags = Vec::with_capacity(alloc, slots)?;
    for _ in 0..slots {
        flags.push(AtomicU64::new(0))?;
    }
    four(rt, &shared, flags.as_slice(), first, second, third, fourth);
    Ok(())
}

#[test]
fn a_slot_is_held_by_one_pass_at_a_time(rt: HostRuntime) -> Result<(), Fail> {
    for slots in SLOTS {
        four_at(&rt, rt.alloc(), slots)?;
    }
    Ok(())
}
