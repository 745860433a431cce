//! Packets through pool and chain, so that `bench/chain.py` can count and time what one costs.
//!
//! Three words: how many contexts push in threads of their own beside the decoder, and 0 for one context and the decoder in turn on
//! one thread; how many slots there are, 1 to 64; how many packets of 164 bytes each context pushes. The answer is how many packets
//! were taken, and whether those of each context came in order.
#![tactic(auto)]

ghost use Rattle.std.specs.Prelude.{◌≡◌, ◌≤◌, ◌<◌, ◌^◌, length};
ghost use Rattle.ghes_rule.specs.declared.views.Hand.TheVariants.{Bare};
ghost use Rattle.chain_run.specs.Ready.{AreReady};

use chain_run::{Lot, Plan, Tally, burst, fresh, one_by_one};
use ghes_rule::Shared;
use std::alloc::{AllocError, Global};
use std::rt::Env;
use std::thread::Threads;
use std::{env, io};

// How often a context looks for a slot, and the decoder for a packet, before it gives up.
const TRIES: u32 = u32::MAX;

// The number of this word after the program's name, and 0 where there is none.
fn number(rt: &(impl Env + AllocGlobal), index: usize) -> u64 {
    match env::args(rt) {
        Ok(mut words) => words
            .nth(index)
            .and_then(|word| word.parse::<u64>().ok())
            .unwrap_or(0),
        Err(_) => 0,
    }
}

// Lets each context push so many packets in a thread of its own.
fn in_threads<R: Threads + Sync>(
    rt: &R,
    alloc: Global,
    shared: &Shared,
    lot: Lot,
    count: u32,
    all: u64,
) -> Result<Tally, AllocError>
    requires work { (lot.work.table ≡ shared.now) × (lot.work.view.held ≡ Bare) }
    requires passes { AreReady shared.now 0 (length lot.work.view.passes) lot.passes.items }
{
    let plan = Plan {
        from: 0,
        count,
        tries: TRIES,
    };
    let lot = burst(rt, alloc, shared, lot, plan, all)?;
    Ok(lot.tally)
}

fn main(rt: HostRuntime) -> io::Result<()> {
    let contexts = number(&rt, 1).min(16) as usize;
    let slots = number(&rt, 2).min(64).max(1) as usize;
    let count = number(&rt, 3).min(100_000_000) as u32;
    let (shared, lot) = fresh(rt.alloc(), slots, contexts.max(1))?;
    let tally = if contexts == 0 {
        one_by_one(rt.alloc(), &shared, lot, count)?
    } else {
        let all = contexts as u64 * u64::from(count);
        in_threads(&rt, rt.alloc(), &shared, lot, count, all)?
    };
    let order = if tally.is_in_order() {
        "in order"
    } else {
        "out of order"
    };
    println!(rt; "{} packets, {order}", tally.taken())
}
