//! One call of the receiver on one thread.
ghost use Rattle.std.specs.Prelude.{◌≡◌, ◌≤◌, ◌<◌, ◌+◌, None, option_map, is_some, length, IsTrue, IfOk, OnErr};
ghost use Rattle.apei_base.specs.Firmware.{standing, standing_number};
ghost use Rattle.ghes_call.specs.Call.{outcome_of};
ghost use Rattle.ghes_call.specs.Packet.{seen_of};
ghost use Rattle.ghes_call.specs.Receive.{IsOfSource};
ghost use Rattle.ghes_throttle.specs.Cache.{hit_of};
ghost use Rattle.ghes_nmi.specs.Receive.{receive_seen, ack_seen};
ghost use Rattle.ghes_desk.specs.Call.{or_fault, left_by, ack_by, saw_by, CountsCall, packet_of, standing_packet, pending_by, fatal_by, HasRoomFor};
ghost use Rattle.ghes_desk.specs.Found.{standing_image, outcome_said, reason_said};
ghost use Rattle.ghes_desk.specs.Pending.{is_full};
ghost use Rattle.ghes_call.specs.declared.call.AckState.TheVariants.{NotAsked};

use crate::finding::{Found, find};
use crate::pending::Pending;
use apei_base::{BusFault, Firmware};
use cper_block::Malformed;
use ghes_call::{AckState, Buffer, Outcome, Packet, Reply};
use ghes_nmi::{Examined, Receive, acknowledge, clear};
use ghes_steps::Steps;
use ghes_throttle::Cache;
use std::alloc::{AllocError, Global};
use std::sync::ledger::Ledger;

/// What one call is about: how the source is received, its position, the number of the block that may stand, the cache of the
/// reports so far, and the time in nanoseconds.
#[derive(Clone, Copy)]
pub(crate) struct Ask<'a> {
    pub(crate) receive: &'a Receive,
    pub(crate) source: u16,
    pub(crate) seq: u32,
    pub(crate) cache: &'a Cache,
    pub(crate) time: u64,
}

/// What a call answered, and the packet of a fatal block.
#[derive(Drop)]
pub(crate) struct Answer {
    pub(crate) reply: Reply,
    pub(crate) fatal: Option<Packet>,
}

// The answer of a call that acknowledged nothing.
fn untouched(outcome: Outcome) -> Answer
    ensures reply { result.reply ≡ record { outcome = outcome; ack = NotAsked } }
    ensures fatal { result.fatal ≡ None }
{
    Answer {
        reply: Reply {
            outcome,
            ack: AckState::NotAsked,
        },
        fatal: None,
    }
}

// What an image calls for, by what it says, the report that it hits, and whether each slot is taken. A malformed image is not looked for
// among the reports, and a fatal one needs no slot.
fn wanted(said: Examined, seq: u32, found: Option<u64>, full: bool) -> Outcome
    ensures { result ≡ outcome_said seq said found full }
{
    match said {
        Examined::Malformed(_) if full => Outcome::NoSlot,
        Examined::Malformed(reason) => Outcome::Malformed(seq, reason),
        Examined::Fatal => Outcome::Fatal(seq),
        Examined::News => match found {
            Some(report) => Outcome::Duplicate(seq, report),
            None if full => Outcome::NoSlot,
            None => Outcome::Queued(seq),
        },
    }
}

// Why an image is malformed, by what it says.
fn reason(said: Examined) -> Option<Malformed>
    ensures { result ≡ reason_said said }
{
    match said {
        Examined::Malformed(reason) => Some(reason),
        Examined::Fatal | Examined::News => None,
    }
}

// A packet of these bytes.
fn packet(
    alloc: Global,
    source: u16,
    seq: u32,
    reason: Option<Malformed>,
    image: &[u8],
) -> Result<Packet, AllocError>
    ensures { IfOk result (λ packet. seen_of packet ≡ packet_of source seq reason image.now) }
{
    let mut bytes = Buffer::with_room(alloc, image.len())?;
    bytes.fill(image);
    Ok(Packet {
        source,
        seq,
        reason,
        bytes,
    })
}

// Makes the packet of an acknowledged block pending, or hands it back where it is fatal.
fn keep(outcome: Outcome, packet: Packet, pending: &mut Pending) -> Option<Packet>
    requires { HasRoomFor outcome pending.old }
    ensures pending { pending.new ≡ pending_by outcome (seen_of packet) pending.old }
    ensures fatal { option_map seen_of result ≡ fatal_by outcome (seen_of packet) }
{
    match outcome {
        Outcome::Queued(_) | Outcome::Malformed(_, _) => {
            pending.push(packet);
            None
        }
        Outcome::Fatal(_) => Some(packet),
        _ => None,
    }
}

// The end of a call that found a block: it is cleared only where its packet has a place, and then acknowledged.
fn end_found<P: Firmware, L: Ledger>(
    alloc: Global,
    ask: &Ask<'_>,
    found: Found,
    image: &[u8],
    pending: &mut Pending,
    port: &mut P,
    steps: &mut Steps<L>,
) -> Result<Answer, AllocError>
    requires source { IsOfSource (receive_seen ask.now.receive.now) (P.seen port.old).layout }
    requires at { found.address ≡ (P.seen port.old).layout.area }
    requires stands { IsTrue (is_some (standing (P.seen port.old))) }
    ensures outcome { IfOk result (λ answer. answer.reply.outcome ≡ or_fault answer.reply.outcome
        (outcome_said ask.now.seq found.said (hit_of ask.now.cache.now.places image.now ask.now.time) (is_full pending.old))) }
    ensures port { IfOk result (λ answer. P.seen port.new ≡ left_by (ack_seen ask.now.receive.now.ack) answer.reply (P.seen port.old)) }
    ensures ack { IfOk result (λ answer. answer.reply.ack ≡ ack_by (ack_seen ask.now.receive.now.ack) answer.reply) }
    ensures count { IfOk result (λ answer. CountsCall answer.reply.outcome answer.reply.ack (P.faults port.old) (P.faults port.new)) }
    ensures pending { IfOk result (λ answer. pending.new ≡ pending_by answer.reply.outcome
        (packet_of ask.now.source ask.now.seq (reason_said found.said) image.now) pending.old) }
    ensures fatal { IfOk result (λ answer. option_map seen_of answer.fatal ≡ fatal_by answer.reply.outcome
        (packet_of ask.now.source ask.now.seq (reason_said found.said) image.now)) }
    ensures err { OnErr result (pending.new ≡ pending.old) }
{
    let hit = ask.cache.hit(image, ask.time);
    let outcome = wanted(found.said, ask.seq, hit, pending.is_full());
    if let Outcome::NoSlot = outcome {
        return Ok(untouched(Outcome::NoSlot));
    }
    let packet = packet(alloc, ask.source, ask.seq, reason(found.said), image)?;
    if clear(found.address, port, steps).is_err() {
        return Ok(untouched(Outcome::Fault));
    }
    let ack = acknowledge(&ask.receive.ack, port, steps);
    let fatal = keep(outcome, packet, pending);
    Ok(Answer {
        reply: Reply { outcome, ack },
        fatal,
    })
}

/// One call on a source, whose memory is `port`: it looks for a block and takes its image, looks among the reports, finds a slot, and
/// only then clears the block, makes it pending, and acknowledges it.
///
/// Without a free slot nothing is cleared, and the block stands for a later call. A well-formed fatal block needs no slot, and its
/// packet is handed back. After Linux 6.1, drivers/acpi/apei/ghes.c.
pub(crate) fn call<P: Firmware, L: Ledger>(
    alloc: Global,
    ask: &Ask<'_>,
    image: &mut Buffer,
    pending: &mut Pending,
    port: &mut P,
    steps: &mut Steps<L>,
) -> Result<Answer, AllocError>
    requires source { IsOfSource (receive_seen ask.now.receive.now) (P.seen port.old).layout }
    requires number { ask.now.seq ≡ standing_number (P.seen port.old) }
    requires header { 20 ≤ ask.now.receive.now.limit }
    requires room { ask.now.receive.now.limit ≤ image.old.room }
    ensures outcome { IfOk result (λ answer. answer.reply.outcome ≡ outcome_of ask.now.receive.now.limit
        (saw_by (P.seen port.old) (hit_of ask.now.cache.now.places (standing_image ask.now.receive.now.limit (P.seen port.old)) ask.now.time)
        (is_full pending.old) answer.reply)) }
    ensures port { IfOk result (λ answer. P.seen port.new ≡ left_by (ack_seen ask.now.receive.now.ack) answer.reply (P.seen port.old)) }
    ensures ack { IfOk result (λ answer. answer.reply.ack ≡ ack_by (ack_seen ask.now.receive.now.ack) answer.reply) }
    ensures count { IfOk result (λ answer. CountsCall answer.reply.outcome answer.reply.ack (P.faults port.old) (P.faults port.new)) }
    ensures pending { IfOk result (λ answer. pending.new ≡ pending_by answer.reply.outcome
        (standing_packet ask.now.source ask.now.receive.now.limit (P.seen port.old)) pending.old) }
    ensures fatal { IfOk result (λ answer. option_map seen_of answer.fatal ≡ fatal_by answer.reply.outcome
        (standing_packet ask.now.source ask.now.receive.now.limit (P.seen port.old))) }
    ensures err { OnErr result (pending.new ≡ pending.old) }
    ensures room { image.old.room ≤ image.new.room }
{
    match find(ask.receive, image, port, steps) {
        Err(BusFault) => Ok(untouched(Outcome::Fault)),
        Ok(None) => Ok(untouched(Outcome::Nothing)),
        Ok(Some(found)) => end_found(alloc, ask, found, image.as_slice(), pending, port, steps),
    }
}
