//! Calls of contexts, so that `bench/calls.py` can count and time what one costs.
//!
//! Five words. First whether the blocks were reported before: `told` or `new`. Then whether each context calls in a thread of its
//! own, beside the decoder in another: `threads`, or `alone` for one thread, where a packet is taken behind each call. Then how many
//! contexts there are, 1 to 4, how many blocks each source raises, and how many calls each context makes. With `steps` in the first
//! place the steps of a call in firmware memory are made so often besides, without what contexts share.
//!
//! The answer is whether each block that was acknowledged was taken once and in order, or, where it was told before, not at all, and
//! whether no fewer were acknowledged than there are on each schedule: each call of a context acknowledges a block, as long as one
//! stands, unless all slots are taken; then so many blocks at least are acknowledged by all contexts as there are slots.
#![tactic(auto)]

ghost use Rattle.std.specs.Prelude.{◌≤◌, ◌<◌, ◌-◌, ◌^◌, length};
ghost use Rattle.ghes_rule.specs.Seen.{AreFirst};

mod caller;
mod port;
mod running;
mod setting;
mod steps;
mod taking;

use crate::caller::Caller;
use crate::running::{alone, in_threads};
use crate::setting::{LIMIT, SLOTS, block, caller};
use crate::steps::steps_alone;
use crate::taking::Taken;
use ghes_rule::{Pass, Shared};
use ghes_throttle::{ThrottleReader, throttle};
use std::alloc::{AllocError, Global};
use std::rt::Env;
use std::{env, io};

// The word at this place behind the program's name, empty where there is none.
fn word<R: Env + AllocGlobal>(rt: &R, index: usize) -> String {
    let none = String::new(rt.alloc());
    match env::args(rt) {
        Ok(mut words) => words.nth(index).unwrap_or(none),
        Err(_) => none,
    }
}

// The number of that word, at most this, and 0 where it is none.
fn number<R: Env + AllocGlobal>(rt: &R, index: usize, most: usize) -> usize
    ensures { result ≤ most }
{
    word(rt, index).parse::<usize>().unwrap_or(0).min(most)
}

// So many contexts with their sources.
fn callers<'a>(
    alloc: Global,
    shared: &'a Shared,
    mut passes: Vec<Pass>,
    mut readers: Vec<ThrottleReader>,
    contexts: usize,
    blocks: usize,
    calls: usize,
) -> Result<Vec<Caller<'a>>, AllocError>
    requires passes { AreFirst shared.now 4096 16 (length passes.items) passes.items }
    requires four { length passes.items ≤ 4 }
    requires blocks { blocks < 2 ^ 32 - 1 }
    requires calls { calls < 2 ^ 32 }
{
    let mut all = Vec::with_capacity(alloc, contexts)?;
    for _ in 0..contexts {
        let Some(pass) = passes.pop() else {
            break;
        };
        let Some(reader) = readers.pop() else {
            break;
        };
        all.push(caller(alloc, shared, pass, reader, blocks, calls)?)?;
    }
    Ok(all)
}

// Whether each context acknowledged at least so many blocks, or, as none was told before, all together as many as there are slots.
fn are_enough(callers: &[Caller<'_>], least: usize, told: bool) -> bool {
    let all = callers.iter().fold(0usize, |sum, caller| {
        sum.saturating_add(caller.acknowledged())
    });
    callers.iter().all(|caller| caller.acknowledged() >= least) || !told && all >= SLOTS
}

// Whether each block that was acknowledged was taken, if it was not told before, once and in order.
fn is_taken(callers: &[Caller<'_>], taken: &Taken, told: bool) -> bool {
    taken.in_order
        && callers.iter().all(|caller| {
            let wanted = if told { 0 } else { caller.acknowledged() };
            taken.last[caller.source % 4] as usize == wanted
        })
}

fn main(rt: HostRuntime) -> io::Result<()> {
    let told = word(&rt, 1).as_str() == "told";
    let threads = word(&rt, 2).as_str() == "threads";
    let contexts = number(&rt, 3, 4);
    let blocks = number(&rt, 4, 1_000_000);
    let calls = number(&rt, 5, 1_000_000);
    if word(&rt, 1).as_str() == "steps" {
        steps_alone(rt.alloc(), calls)?;
    }
    let (shared, work, passes) = Shared::build(rt.alloc(), SLOTS, LIMIT, 4)?;
    let (mut writer, readers) = throttle(&rt, rt.alloc(), LIMIT, 4)?;
    if told {
        let _ = writer.report(&rt, &block(), 0);
    }
    let made = callers(
        rt.alloc(),
        &shared,
        passes,
        readers,
        contexts,
        blocks,
        calls,
    );
    let whole = match made {
        Err(_) => false,
        Ok(mut all) => {
            let taken = if threads {
                in_threads(&rt, &shared, work, &mut all)
            } else {
                alone(&shared, work, &mut all)
            };
            is_taken(&all, &taken, told) && are_enough(&all, blocks.min(calls), told)
        }
    };
    writer.end(&rt);
    println!(rt;
        "{contexts} contexts: {}",
        if whole {
            "each block once and in order"
        } else {
            "not each block once"
        }
    )
}
