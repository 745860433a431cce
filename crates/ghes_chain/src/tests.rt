ghost use Rattle.std.specs.Prelude.{◌≡◌, ◌+◌, ◌^◌, ◌<◌, ◌≤◌, true, [], length, IfOk};
ghost use Rattle.ghes_rule.specs.declared.views.Stage.TheVariants.{Idle, Holding};
ghost use Rattle.ghes_rule.specs.declared.views.Hand.TheVariants.{Bare};
ghost use Rattle.ghes_rule.specs.Kept.{first_pass};
ghost use Rattle.ghes_rule.specs.Seen.{AreFirst, at_work, pass_seen};

use crate::{Gathered, Took, begin_push, end_push, gather, give, push, take};
use ghes_call::Packet;
use ghes_rule::{Claim, Pass, Shared, Work, set_panic, stopped, try_slot, work_stopped};
use ghes_steps::Steps;
use std::alloc::Global;
use std::marker::Brand;
use std::process::Abort;
use std::sync::ledger::{Blank, Ledger};
use std::test::Fail;

// The last of the passes at the start, whose packets have room for so many bytes.
fn last_with<R: Abort>(rt: &R, shared: &Shared, room: usize, passes: &mut Vec<Pass>) -> Pass
    requires { AreFirst shared.now room shared.now.slots (length passes.old.items) passes.old.items }
    ensures rest { AreFirst shared.now room shared.now.slots (length passes.new.items) passes.new.items }
    ensures count { length passes.old.items ≡ length passes.new.items + 1 }
    ensures pass { result ≡ pass_seen shared.now (first_pass room shared.now.slots (length passes.new.items)) }
{
    let _room = room;
    passes.pop().expect(rt, "a pass")
}

// The same with room for 32 bytes.
fn last<R: Abort>(rt: &R, shared: &Shared, passes: &mut Vec<Pass>) -> Pass
    requires { AreFirst shared.now 32 shared.now.slots (length passes.old.items) passes.old.items }
    ensures rest { AreFirst shared.now 32 shared.now.slots (length passes.new.items) passes.new.items }
    ensures count { length passes.old.items ≡ length passes.new.items + 1 }
    ensures pass { result ≡ pass_seen shared.now (first_pass 32 shared.now.slots (length passes.new.items)) }
{
    last_with(rt, shared, 32, passes)
}

// A packet of one byte, its number.
fn packet<R: Abort>(rt: &R, alloc: Global, number: u8) -> Packet
    ensures { (length result.bytes.bytes ≤ 32) × (32 ≤ result.bytes.room) }
{
    let mut packet = Packet::empty(alloc, 32).expect(rt, "memory");
    packet.seq = u32::from(number);
    packet.bytes.fill(&[number]);
    packet
}

// The claim of a slot that is free.
fn claimed<R: Abort, L: Ledger>(
    rt: &R,
    shared: &Shared,
    pass: &mut Pass,
    slot: usize,
    steps: &mut Steps<L>,
) -> Claim
    requires { (pass.old.table ≡ shared.now) × (pass.old.view.stage ≡ Idle) × (length pass.old.view.claims < 2 ^ 32) × (slot < shared.now.slots) }
    ensures { (pass.new.table ≡ pass.old.table) × (pass.new.view.stage ≡ Holding result.slot result.turn) × (pass.new.view.room ≡ pass.old.view.room) × (pass.new.view.number ≡ pass.old.view.number) × (length pass.new.view.claims ≡ length pass.old.view.claims + 1) }
{
    match try_slot(shared, pass, slot, steps) {
        Some(claim) => claim,
        None => panic!(rt; "the slot {slot} is taken"),
    }
}

// A packet is pushed from a slot that is free.
fn pushed<R: Abort, L: Ledger>(
    rt: &R,
    alloc: Global,
    shared: &Shared,
    pass: Pass,
    slot: usize,
    number: u8,
    steps: &mut Steps<L>,
) -> Pass
    requires { (pass.table ≡ shared.now) × (pass.view.stage ≡ Idle) × (length pass.view.claims < 2 ^ 32) × (pass.view.room ≡ 32) × (slot < shared.now.slots) }
    ensures { (result.table ≡ pass.table) × (result.view.stage ≡ Idle) × (result.view.room ≡ 32) × (result.view.number ≡ pass.view.number) × (length result.view.claims ≡ length pass.view.claims + 1) }
{
    let mut pass = pass;
    let claim = claimed(rt, shared, &mut pass, slot, steps);
    let packet = packet(rt, alloc, number);
    let (pass, _spare) = push(shared, claim, pass, packet, steps);
    pass
}

// What a take answers: the number of the packet, which is given back, 0 for "nothing", and 255 for "again".
fn got<L: Ledger>(shared: &Shared, work: &mut Work, steps: &mut Steps<L>) -> u32
    requires { (work.old.table ≡ shared.now) × (work.old.view.held ≡ Bare) }
    ensures { (work.new.table ≡ work.old.table) × (work.new.view.held ≡ Bare) }
{
    match take(shared, work, steps) {
        Took::Packet(held) => {
            let number = held.packet().seq;
            give(shared, held, work, steps);
            number
        }
        Took::Empty => 0,
        Took::Again => 255,
    }
}

// Three passes at three slots: the second has not ended its push when the decoder comes to it.
fn a_chain_is_held<R: Abort, L: Ledger>(
    rt: &R,
    alloc: Global,
    blank: Blank,
    shared: &Shared,
    work: Work,
    first: Pass,
    second: Pass,
    third: Pass,
)
    requires blank { (blank.name ≡ L.name) × (blank.parts ≡ L.parts) × (0 < blank.parts) }
    requires slots { shared.now.slots ≡ 3 }
    requires work { (work.table ≡ shared.now) × (work.view.held ≡ Bare) }
    requires first { first ≡ pass_seen shared.now (first_pass 32 3 0) }
    requires second { second ≡ pass_seen shared.now (first_pass 32 3 1) }
    requires third { third ≡ pass_seen shared.now (first_pass 32 3 2) }
{
    let mut steps = Steps::<L>::new(blank);
    let mut work = work;
    let _first = pushed(rt, alloc, shared, first, 0, 1, &mut steps);
    let mut second = second;
    let claim = claimed(rt, shared, &mut second, 1, &mut steps);
    let swapped = begin_push(shared, claim, second, packet(rt, alloc, 2), &mut steps);
    assert_eq!(rt;
        got(shared, &mut work, &mut steps),
        255,
        "the second push is half made"
    );
    let _third = pushed(rt, alloc, shared, third, 2, 3, &mut steps);
    assert_eq!(rt;
        got(shared, &mut work, &mut steps),
        255,
        "the chain is kept"
    );
    let (_second, _spare) = end_push(shared, swapped, &mut steps);
    assert_eq!(rt;
        got(shared, &mut work, &mut steps),
        1,
        "the oldest of the chain that was kept"
    );
    assert_eq!(rt;
        got(shared, &mut work, &mut steps),
        2,
        "the rest of that chain"
    );
    assert_eq!(rt;
        got(shared, &mut work, &mut steps),
        3,
        "what was pushed meanwhile"
    );
    assert_eq!(rt; got(shared, &mut work, &mut steps), 0, "nothing is left");
}

#[test]
fn a_chain_with_an_unset_link_is_kept(rt: HostRuntime) -> Result<(), Fail> {
    let (shared, work, mut passes) = Shared::build(rt.alloc(), 3, 32, 3)?;
    let third = last(&rt, &shared, &mut passes);
    let second = last(&rt, &shared, &mut passes);
    let first = last(&rt, &shared, &mut passes);
    a_chain_is_held::<HostRuntime, Brand>(
        &rt,
        rt.alloc(),
        Blank::new(1),
        &shared,
        work,
        first,
        second,
        third,
    );
    Ok(())
}

// One pass at one slot, again and again.
fn one_slot_again_and_again<R: Abort, L: Ledger>(
    rt: &R,
    alloc: Global,
    blank: Blank,
    shared: &Shared,
    work: Work,
    pass: Pass,
)
    requires blank { (blank.name ≡ L.name) × (blank.parts ≡ L.parts) × (0 < blank.parts) }
    requires slots { shared.now.slots ≡ 1 }
    requires work { (work.table ≡ shared.now) × (work.view.held ≡ Bare) }
    requires pass { pass ≡ pass_seen shared.now (first_pass 32 1 0) }
{
    let mut steps = Steps::<L>::new(blank);
    let mut work = work;
    let mut pass = pass;
    for number in 0..1000u32 {
        pass = pushed(
            rt,
            alloc,
            shared,
            pass,
            0,
            (number % 200) as u8 + 1,
            &mut steps,
        );
        assert_eq!(rt;
            got(shared, &mut work, &mut steps),
            number % 200 + 1,
            "each packet once, in order"
        );
        assert_eq!(rt; got(shared, &mut work, &mut steps), 0, "and nothing else");
    }
}

#[test]
fn one_slot_is_used_a_thousand_times(rt: HostRuntime) -> Result<(), Fail> {
    let (shared, work, mut passes) = Shared::build(rt.alloc(), 1, 32, 1)?;
    let pass = last(&rt, &shared, &mut passes);
    one_slot_again_and_again::<HostRuntime, Brand>(
        &rt,
        rt.alloc(),
        Blank::new(1),
        &shared,
        work,
        pass,
    );
    Ok(())
}

// The two passes of a shared object, taken in in the other order.
fn two_gathered(
    alloc: Global,
    shared: &Shared,
    work: Work,
    first: Pass,
    second: Pass,
) -> Result<Gathered, Fail>
    requires work { (work.table ≡ shared.now) × (work.view.held ≡ Bare) × (length work.view.passes ≡ 2) }
    requires first { (first.table ≡ shared.now) × (first.view.stage ≡ Idle) × (first.view.number ≡ 0) }
    requires second { (second.table ≡ shared.now) × (second.view.stage ≡ Idle) × (second.view.number ≡ 1) }
    ensures { IfOk result (λ g. (g.table ≡ shared.now) × (g.view.held ≡ Bare)) }
{
    let mut passes = Vec::with_capacity(alloc, 2)?;
    passes.push(second)?;
    passes.push(first)?;
    Ok(gather(shared, work, passes))
}

// What a take in a quiet moment answers: the number of the packet, which is given back, or 0 for nothing.
fn got_last<L: Ledger>(shared: &Shared, gathered: &mut Gathered, steps: &mut Steps<L>) -> u32
    requires { (gathered.old.table ≡ shared.now) × (gathered.old.view.held ≡ Bare) }
    ensures { (gathered.new.table ≡ gathered.old.table) × (gathered.new.view.held ≡ Bare) }
{
    match gathered.take_last(shared, steps) {
        Some(held) => {
            let number = held.packet().seq;
            gathered.give(shared, held, steps);
            number
        }
        None => 0,
    }
}

// Two passes at two slots: a chain is held, the second push ends, and both passes come back.
fn a_held_chain_is_gathered<R: Abort, L: Ledger>(
    rt: &R,
    alloc: Global,
    blank: Blank,
    shared: &Shared,
    work: Work,
    first: Pass,
    second: Pass,
) -> Result<(), Fail>
    requires blank { (blank.name ≡ L.name) × (blank.parts ≡ L.parts) × (0 < blank.parts) }
    requires slots { shared.now.slots ≡ 2 }
    requires work { work ≡ record { table = shared.now; view = at_work 32 2 2 } }
    requires first { first ≡ pass_seen shared.now (first_pass 32 2 0) }
    requires second { second ≡ pass_seen shared.now (first_pass 32 2 1) }
{
    let mut steps = Steps::<L>::new(blank);
    let mut work = work;
    let first = pushed(rt, alloc, shared, first, 0, 1, &mut steps);
    let mut second = second;
    let claim = claimed(rt, shared, &mut second, 1, &mut steps);
    let swapped = begin_push(shared, claim, second, packet(rt, alloc, 2), &mut steps);
    assert!(rt;
        is_again(shared, &mut work, &mut steps),
        "the second push is half made"
    );
    let (second, _spare) = end_push(shared, swapped, &mut steps);
    let mut gathered = two_gathered(alloc, shared, work, first, second)?;
    assert_eq!(rt;
        got_last(shared, &mut gathered, &mut steps),
        1,
        "the first push"
    );
    assert_eq!(rt;
        got_last(shared, &mut gathered, &mut steps),
        2,
        "the second push"
    );
    assert_eq!(rt;
        got_last(shared, &mut gathered, &mut steps),
        0,
        "all was taken"
    );
    let (_work, passes) = gathered.spread(shared);
    assert_eq!(rt; passes.len(), 2, "both passes go out");
    Ok(())
}

// Whether a take answers "again". Any other answer leaves the decoder as it is for a test that ends there.
fn is_again<L: Ledger>(shared: &Shared, work: &mut Work, steps: &mut Steps<L>) -> bool
    requires { (work.old.table ≡ shared.now) × (work.old.view.held ≡ Bare) }
    ensures { (work.new.table ≡ work.old.table) × (work.new.view.held ≡ Bare) × (length work.new.view.passes ≡ length work.old.view.passes) }
{
    match take(shared, work, steps) {
        Took::Packet(held) => {
            give(shared, held, work, steps);
            false
        }
        Took::Empty => false,
        Took::Again => true,
    }
}

#[test]
fn a_chain_that_was_held_comes_out_when_all_passes_are_back(rt: HostRuntime) -> Result<(), Fail> {
    let (shared, work, mut passes) = Shared::build(rt.alloc(), 2, 32, 2)?;
    let second = last(&rt, &shared, &mut passes);
    let first = last(&rt, &shared, &mut passes);
    a_held_chain_is_gathered::<HostRuntime, Brand>(
        &rt,
        rt.alloc(),
        Blank::new(1),
        &shared,
        work,
        first,
        second,
    )
}

// The slots, the length of the longest block and the contexts, at each edge of what may be built.
const SIZES: [(usize, usize, usize); 4] = [
    (1, 20, 1),
    (64, 20, 16),
    (1, 65536, 16),
    (64, 65536, 1),
];

// A packet that fills its room, pushed from the last slot, comes out whole.
fn the_longest_comes_out<R: Abort, L: Ledger>(
    rt: &R,
    blank: Blank,
    shared: &Shared,
    work: Work,
    pass: Pass,
    packet: Packet,
)
    requires blank { (blank.name ≡ L.name) × (blank.parts ≡ L.parts) × (0 < blank.parts) }
    requires work { (work.table ≡ shared.now) × (work.view.held ≡ Bare) }
    requires pass { (pass.table ≡ shared.now) × (pass.view.stage ≡ Idle) × (pass.view.claims ≡ []) }
    requires packet { (length packet.bytes.bytes ≡ pass.view.room) × (pass.view.room ≤ packet.bytes.room) }
    requires slots { 0 < shared.now.slots }
{
    let mut steps = Steps::<L>::new(blank);
    let (mut pass, mut work) = (pass, work);
    let long = packet.bytes.as_slice().len();
    let claim = claimed(rt, shared, &mut pass, shared.slots() - 1, &mut steps);
    let (_pass, _spare) = push(shared, claim, pass, packet, &mut steps);
    match take(shared, &mut work, &mut steps) {
        Took::Packet(held) => {
            assert_eq!(rt; held.packet().bytes.as_slice().len(), long, "all of it");
            give(shared, held, &mut work, &mut steps);
        }
        Took::Empty | Took::Again => panic!(rt; "the packet is pending"),
    }
}

#[test]
fn each_size_that_may_be_built_is_built(rt: HostRuntime) -> Result<(), Fail> {
    for (slots, room, contexts) in SIZES {
        assert!(rt; 0 < slots && slots <= 64 && 20 <= room && room <= 65536);
        assert!(rt; 0 < contexts && contexts <= 16);
        let (shared, work, mut passes) = Shared::build(rt.alloc(), slots, room, contexts)?;
        assert_eq!(rt; (shared.slots(), passes.len()), (slots, contexts));
        let pass = last_with(&rt, &shared, room, &mut passes);
        let mut packet = Packet::empty(rt.alloc(), room)?;
        packet.bytes.set_len(room);
        the_longest_comes_out::<HostRuntime, Brand>(
            &rt,
            Blank::new(1),
            &shared,
            work,
            pass,
            packet,
        );
    }
    Ok(())
}

// Two passes: where one has a fatal block, the other and the decoder find the panic word set.
fn a_fatal_block_is_seen<R: Abort, L: Ledger>(
    rt: &R,
    alloc: Global,
    blank: Blank,
    shared: &Shared,
    work: Work,
    first: Pass,
    second: Pass,
) -> Result<(), Fail>
    requires blank { (blank.name ≡ L.name) × (blank.parts ≡ L.parts) × (0 < blank.parts) }
    requires slots { shared.now.slots ≡ 2 }
    requires work { work ≡ record { table = shared.now; view = at_work 32 2 2 } }
    requires first { first ≡ pass_seen shared.now (first_pass 32 2 0) }
    requires second { second ≡ pass_seen shared.now (first_pass 32 2 1) }
{
    let mut steps = Steps::<L>::new(blank);
    let mut work = work;
    let (first, early) = stopped(shared, first, &mut steps);
    let early_too = work_stopped(shared, &mut work, &mut steps);
    let first = set_panic(shared, first, &packet(rt, alloc, 1), &mut steps);
    let (second, set) = stopped(shared, second, &mut steps);
    let set_too = work_stopped(shared, &mut work, &mut steps);
    assert_eq!(rt; (early, early_too), (false, false), "clear at the start");
    assert_eq!(rt; (set, set_too), (true, true), "set by the other pass");
    let mut gathered = two_gathered(alloc, shared, work, first, second)?;
    assert!(rt;
        gathered.stopped(shared, &mut steps),
        "set when all are back"
    );
    Ok(())
}

#[test]
fn a_fatal_block_of_one_pass_is_seen_by_all(rt: HostRuntime) -> Result<(), Fail> {
    let (shared, work, mut passes) = Shared::build(rt.alloc(), 2, 32, 2)?;
    let second = last(&rt, &shared, &mut passes);
    let first = last(&rt, &shared, &mut passes);
    a_fatal_block_is_seen::<HostRuntime, Brand>(
        &rt,
        rt.alloc(),
        Blank::new(1),
        &shared,
        work,
        first,
        second,
    )
}
