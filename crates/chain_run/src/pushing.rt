//! A context that pushes packet after packet.
ghost use Rattle.std.specs.Prelude.{◌≡◌, ◌+◌, ◌^◌, ◌<◌, ◌≤◌, length};
ghost use Rattle.ghes_rule.specs.declared.views.Stage.TheVariants.{Idle};
ghost use Rattle.chain_run.specs.Ready.{GoesOn};

use ghes_call::Packet;
use ghes_chain::push;
use ghes_pool::{Claimed, claim};
use ghes_rule::{Pass, Shared};
use ghes_steps::Steps;
use std::alloc::Global;
use std::marker::Brand;
use std::sync::ledger::{Blank, Ledger};
use std::thread::yield_now;

/// The length of each packet, in bytes.
pub const LONGEST: usize = 164;

/// What each context pushes.
#[derive(Clone, Copy)]
pub struct Plan {
    /// The number of its first packet.
    pub from: u32,
    /// How many packets.
    pub count: u32,
    /// How many searches for a slot it makes at most for each. With the last one it gives up.
    pub tries: u32,
}

// Pushes the packet into the first slot that is found free, within so many searches. It gives a packet back, and whether this one
// was pushed.
pub(crate) fn push_within<L: Ledger>(
    shared: &Shared,
    pass: Pass,
    packet: Packet,
    tries: u32,
    steps: &mut Steps<L>,
) -> (Pass, Packet, bool)
    requires belongs { pass.table ≡ shared.now }
    requires idle { pass.view.stage ≡ Idle }
    requires few { length pass.view.claims < 2 ^ 32 }
    requires packet { (length packet.bytes.bytes ≤ pass.view.room) × (pass.view.room ≤ packet.bytes.room) }
    ensures pass { GoesOn pass result.0 1 }
    ensures packet { pass.view.room ≤ result.1.bytes.room }
{
    let mut pass = pass;
    for _ in 0..tries {
        let (after, claimed) = claim(shared, pass, steps);
        match claimed {
            Claimed::Slot(claim) => {
                let (after, spare) = push(shared, claim, after, packet, steps);
                return (after, spare, true);
            }
            Claimed::AllTaken => {
                pass = after;
                yield_now();
            }
        }
    }
    (pass, packet, false)
}

// The packet, filled as the next of this context.
pub(crate) fn filled(packet: Packet, source: u16, number: u32) -> Packet
    requires { 164 ≤ packet.bytes.room }
    ensures { (length result.bytes.bytes ≡ 164) × (164 ≤ result.bytes.room) }
{
    let mut packet = packet;
    packet.source = source;
    packet.seq = number;
    packet.bytes.fill(&[7; LONGEST]);
    packet
}

// Pushes the packets of the plan, until a search gives up.
fn push_all<L: Ledger>(
    shared: &Shared,
    pass: Pass,
    packet: Packet,
    plan: Plan,
    steps: &mut Steps<L>,
) -> Pass
    requires belongs { pass.table ≡ shared.now }
    requires idle { pass.view.stage ≡ Idle }
    requires few { length pass.view.claims + plan.count < 2 ^ 32 }
    requires room { (pass.view.room ≡ 164) × (164 ≤ packet.bytes.room) }
    ensures { GoesOn pass result plan.count }
{
    let source = (pass.number() % 16) as u16;
    let mut pass = pass;
    let mut packet = packet;
    for number in 0..plan.count {
        let next = filled(packet, source, plan.from.wrapping_add(number));
        let (after, spare, pushed) = push_within(shared, pass, next, plan.tries, steps);
        pass = after;
        packet = spare;
        if !pushed {
            return pass;
        }
    }
    pass
}

// The same, with memory for one packet and a counter of its own.
fn push_counted<L: Ledger>(
    alloc: Global,
    blank: Blank,
    shared: &Shared,
    pass: Pass,
    plan: Plan,
) -> Pass
    requires blank { (blank.name ≡ L.name) × (blank.parts ≡ L.parts) × (0 < blank.parts) }
    requires belongs { pass.table ≡ shared.now }
    requires idle { pass.view.stage ≡ Idle }
    requires few { length pass.view.claims + plan.count < 2 ^ 32 }
    requires room { pass.view.room ≡ 164 }
    ensures { GoesOn pass result plan.count }
{
    let Ok(packet) = Packet::empty(alloc, LONGEST) else {
        return pass;
    };
    let mut steps = Steps::<L>::new(blank);
    push_all(shared, pass, packet, plan, &mut steps)
}

/// Pushes the packets of the plan, each of 164 bytes, from one packet that comes back empty each time.
pub fn push_alone(alloc: Global, shared: &Shared, pass: Pass, plan: Plan) -> Pass
    requires belongs { pass.table ≡ shared.now }
    requires idle { pass.view.stage ≡ Idle }
    requires few { length pass.view.claims + plan.count < 2 ^ 32 }
    requires room { pass.view.room ≡ 164 }
    ensures { GoesOn pass result plan.count }
{
    push_counted::<Brand>(alloc, Blank::new(1), shared, pass, plan)
}
