//! One context and the decoder, in turn on one thread.
ghost use Rattle.std.specs.Prelude.{◌≡◌, ◌+◌, ◌^◌, ◌<◌, ◌≤◌, All, length};
ghost use Rattle.ghes_rule.specs.declared.views.Stage.TheVariants.{Idle};
ghost use Rattle.ghes_rule.specs.declared.views.Hand.TheVariants.{Bare};
ghost use Rattle.chain_run.specs.Ready.{CanPush, GoesOn, StaysBare};

use crate::pushing::{LONGEST, filled, push_within};
use crate::running::Lot;
use crate::taking::take_until;
use crate::tally::Tally;
use ghes_call::Packet;
use ghes_rule::{Pass, Shared, Work};
use ghes_steps::Steps;
use std::alloc::{AllocError, Global};
use std::marker::Brand;
use std::sync::ledger::{Blank, Ledger};

// So many times a packet is filled, pushed, taken and given back.
fn rounds<L: Ledger>(
    blank: Blank,
    shared: &Shared,
    pass: Pass,
    packet: Packet,
    work: &mut Work,
    tally: &mut Tally,
    count: u32,
)
    requires blank { (blank.name ≡ L.name) × (blank.parts ≡ L.parts) × (0 < blank.parts) }
    requires pass { CanPush shared.now count pass }
    requires room { 164 ≤ packet.bytes.room }
    requires work { (work.old.table ≡ shared.now) × (work.old.view.held ≡ Bare) }
{
    let mut steps = Steps::<L>::new(blank);
    let mut pass = pass;
    let mut packet = packet;
    for number in 0..count {
        let next = filled(packet, 0, number);
        let (after, spare, _) = push_within(shared, pass, next, 1, &mut steps);
        pass = after;
        packet = spare;
        take_until(shared, work, tally, u64::MAX, 1, &mut steps);
    }
}

/// So many times the last context pushes a packet of 164 bytes, and the decoder takes it and gives it back, on this thread alone.
pub fn one_by_one(alloc: Global, shared: &Shared, lot: Lot, count: u32) -> Result<Tally, AllocError>
    requires work { (lot.work.table ≡ shared.now) × (lot.work.view.held ≡ Bare) }
    requires passes { All (CanPush shared.now count) lot.passes.items }
{
    let Lot {
        work,
        passes,
        tally,
    } = lot;
    let (mut work, mut passes, mut tally) = (work, passes, tally);
    let packet = Packet::empty(alloc, LONGEST)?;
    if let Some(pass) = passes.pop() {
        rounds::<Brand>(
            Blank::new(1),
            shared,
            pass,
            packet,
            &mut work,
            &mut tally,
            count,
        );
    }
    Ok(tally)
}
