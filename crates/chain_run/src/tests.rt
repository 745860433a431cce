//! Bursts of pushes in threads, beside a decoder that takes.
ghost use Rattle.std.specs.Prelude.{◌≡◌, ◌*◌, ◌<◌, ◌≤◌, length, IfOk};

use crate::{Plan, burst, fresh, one_by_one};
use std::alloc::Global;
use std::process::Abort;
use std::test::Fail;
use std::thread::Threads;

// How many contexts push, at how many slots.
const CASES: [(usize, usize); 5] = [(4, 1), (4, 2), (4, 64), (3, 1), (3, 2)];

// How often a context looks for a slot, and the decoder for a packet, before it gives up.
const TRIES: u32 = 10_000_000;

// Two bursts of 50 packets of each context. All come back in between. The decoder takes all but as many as there are slots beside the
// contexts, and the others when all have come back.
fn two_bursts<R: Threads + Sync + Abort>(
    rt: &R,
    alloc: Global,
    contexts: usize,
    slots: usize,
) -> Result<(), Fail>
    requires { (0 < contexts) × (contexts ≤ 16) × (0 < slots) × (slots ≤ 64) }
{
    let (shared, mut lot) = fresh(alloc, slots, contexts)?;
    let (plan, all) = (half(0), 50 * contexts as u64);
    lot = burst(
        rt,
        alloc,
        &shared,
        lot,
        plan,
        all.saturating_sub(slots as u64),
    )?;
    assert_eq!(rt;
        lot.tally.taken(),
        all,
        "of {contexts} contexts at {slots} slots"
    );
    let (plan, all) = (half(50), 100 * contexts as u64);
    lot = burst(
        rt,
        alloc,
        &shared,
        lot,
        plan,
        all.saturating_sub(slots as u64),
    )?;
    assert_eq!(rt;
        lot.tally.taken(),
        all,
        "of {contexts} contexts at {slots} slots"
    );
    assert!(rt;
        lot.tally.is_in_order(),
        "{contexts} contexts at {slots} slots"
    );
    Ok(())
}

// 50 packets of each context, from this number on.
fn half(from: u32) -> Plan
    ensures { (result.from ≡ from) × (result.count ≡ 50) }
{
    Plan {
        from,
        count: 50,
        tries: TRIES,
    }
}

#[test]
fn each_context_has_its_packets_in_order_across_two_bursts(rt: HostRuntime) -> Result<(), Fail> {
    for (contexts, slots) in CASES {
        assert!(rt; 0 < contexts && contexts <= 16 && 0 < slots && slots <= 64);
        two_bursts(&rt, rt.alloc(), contexts, slots)?;
    }
    Ok(())
}

#[test]
fn one_thread_pushes_and_takes_in_turn(rt: HostRuntime) -> Result<(), Fail> {
    let (shared, lot) = fresh(rt.alloc(), 1, 1)?;
    let tally = one_by_one(rt.alloc(), &shared, lot, 100)?;
    assert_eq!(rt; (tally.taken(), tally.is_in_order()), (100, true));
    Ok(())
}
