//! What a replay has between two lines beside the memory of its sources.
ghost use Rattle.std.specs.Prelude.{◌≡◌, ◌≤◌, ◌<◌, ◌+◌, ◌==◌, ◌∷◌, ◌++◌, [], not, nat_le, map, option_map, length, IfOk, OnOk, Some};
ghost use Rattle.std.specs.List.{range_with_len};
ghost use Rattle.ghes_call.specs.Packet.{seen_of};
ghost use Rattle.ghes_call.specs.Receive.{IsOfSource};
ghost use Rattle.ghes_nmi.specs.Receive.{receive_seen};
ghost use Rattle.ghes_ledger.specs.Kept.{with_taken};
ghost use Rattle.ghes_ledger.specs.Reports.{hit};
ghost use Rattle.ghes_desk.specs.Cache.{Caches, AreWithin};
ghost use Rattle.ghes_desk.specs.Call.{stopped_reply};
ghost use Rattle.ghes_desk.specs.Desk.{new_desk, drained, panicked, worked, panicked_by, marked, entered_on, entered_by, IsAnswered, IsNmi, IsTurn};

use crate::calling::{Answer, Ask, call};
use crate::pending::Pending;
use crate::port::Port;
use ghes_call::{AckState, Buffer, Call, Outcome, Packet, Reply};
use ghes_ledger::{InjectionEnd, Ledger};
use ghes_nmi::Receive;
use ghes_steps::Steps;
use ghes_throttle::Cache;
use std::alloc::{AllocError, Global};
use std::marker::Model;
use std::sync::ledger;

/// How many blocks a machine may have.
const MOST: u32 = 65_536;

/// What a replay has between two lines beside the memory of its sources.
#[derive(Drop)]
pub struct Desk {
    pending: Pending,
    ledger: Ledger,
    cache: Cache,
    clock: u64,
    blocks: u32,
    block_len: usize,
    image: Buffer,
}

impl Model for Desk {
    ghost use Rattle.std.specs.Prelude.{◌≡◌, ◌≤◌};
    ghost use Rattle.ghes_desk.specs.Cache.{Caches, AreWithin};
    ghost use Rattle.ghes_desk.specs.Desk.{DeskSeen};

    ghost Value = { DeskSeen };

    ghost view = { λ d. record { pending = d.pending; ledger = d.ledger; clock = d.clock; blocks = d.blocks; block_len = d.block_len } };

    ghost invariant = { λ d. (d.block_len ≤ d.image.room) × (d.cache.block_len ≡ d.block_len) × Caches d.ledger.reports d.cache × AreWithin d.block_len d.pending.packets };
}

// Takes a packet at a time: it is delivered, or dropped where it is malformed. The cache gets the report that it makes.
#[tactic(auto, using(crate::proofs::CacheLemmas::look_is))]
fn take(
    alloc: Global,
    packet: &Packet,
    time: u64,
    ledger: &mut Ledger,
    cache: &mut Cache,
) -> Result<(), AllocError>
    requires fits { length packet.now.bytes.bytes ≤ cache.old.block_len }
    requires cache { Caches ledger.old.reports cache.old }
    ensures ok { OnOk result (ledger.new
        ≡ with_taken time (hit 4 ledger.old.reports packet.now.bytes.bytes time) (seen_of packet.now) ledger.old) }
    ensures cache { Caches ledger.new.reports cache.new }
    ensures block_len { cache.new.block_len ≡ cache.old.block_len }
{
    let bytes = packet.bytes.as_slice();
    let found = cache.hit(bytes, time);
    ledger.enter_taken(alloc, packet, found, time)?;
    if packet.reason.is_none() && found.is_none() {
        cache.put(bytes, time, ledger.reports().len() as u64);
    }
    Ok(())
}

// Takes each of these packets at a time, the oldest first.
fn drain(
    alloc: Global,
    packets: &[Packet],
    time: u64,
    ledger: &mut Ledger,
    cache: &mut Cache,
) -> Result<(), AllocError>
    requires fits { AreWithin cache.old.block_len (map seen_of packets.now) }
    requires cache { Caches ledger.old.reports cache.old }
    ensures ok { OnOk result (ledger.new ≡ drained time (map seen_of packets.now) ledger.old) }
    ensures cache { Caches ledger.new.reports cache.new }
    ensures block_len { cache.new.block_len ≡ cache.old.block_len }
{
    let mut rest = packets;
    while let Some((packet, behind)) = rest.split_first() {
        take(alloc, packet, time, ledger, cache)?;
        rest = behind;
    }
    Ok(())
}

// Enters each of these packets in the panic list, the oldest first.
fn panic_rest(alloc: Global, packets: &[Packet], ledger: &mut Ledger) -> Result<(), AllocError>
    ensures ok { OnOk result (ledger.new ≡ panicked (map seen_of packets.now) ledger.old) }
    ensures reports { ledger.new.reports ≡ ledger.old.reports }
{
    let mut rest = packets;
    while let Some((packet, behind)) = rest.split_first() {
        ledger.enter_panic(alloc, packet, false)?;
        rest = behind;
    }
    Ok(())
}

// Enters those of these calls that are on the source at a position, in order.
fn enter_on(calls: &[Call], source: usize, ledger: &mut Ledger) -> Result<(), AllocError>
    ensures ok { OnOk result (ledger.new ≡ entered_on source calls.now ledger.old) }
    ensures reports { ledger.new.reports ≡ ledger.old.reports }
{
    let mut rest = calls;
    while let Some((call, behind)) = rest.split_first() {
        if usize::from(call.source) == source {
            ledger.enter_call(*call)?;
        }
        rest = behind;
    }
    Ok(())
}

// Enters these calls on so many sources, source by source.
fn enter_by(calls: &[Call], sources: usize, ledger: &mut Ledger) -> Result<(), AllocError>
    ensures ok { OnOk result (ledger.new ≡ entered_by (range_with_len 0 sources) calls.now ledger.old) }
    ensures reports { ledger.new.reports ≡ ledger.old.reports }
{
    let mut source = 0;
    while source < sources {
        enter_on(calls, source, ledger)?;
        source += 1;
    }
    Ok(())
}

impl Desk {
    /// Nothing is pending, and nothing was entered. So many packets may be pending, and a block has at most so many bytes.
    pub fn new(alloc: Global, slots: usize, block_len: usize) -> Result<Desk, AllocError>
        ensures { IfOk result (λ desk. desk ≡ new_desk slots block_len) }
    {
        Ok(Desk {
            pending: Pending::new(alloc, slots)?,
            ledger: Ledger::new(alloc),
            cache: Cache::new(alloc, block_len)?,
            clock: 0,
            blocks: 0,
            block_len,
            image: Buffer::with_room(alloc, block_len)?,
        })
    }

    /// The ledger.
    pub fn into_ledger(self) -> Ledger
        ensures { result ≡ self.ledger }
    {
        self.ledger
    }

    /// Takes all that is pending.
    pub fn work(&mut self, alloc: Global) -> Result<(), AllocError>
        ensures { OnOk result (self.new ≡ worked self.old) }
    {
        drain(
            alloc,
            self.pending.packets(),
            self.clock,
            &mut self.ledger,
            &mut self.cache,
        )?;
        self.pending.clear();
        Ok(())
    }

    // Enters all that is pending in the panic list, and a fatal packet behind it.
    fn panic(&mut self, alloc: Global, packet: &Packet) -> Result<(), AllocError>
        ensures ok { OnOk result (self.new ≡ panicked_by (Some (seen_of packet.now)) self.old) }
        ensures room { self.new.block_len ≡ self.old.block_len }
    {
        panic_rest(alloc, self.pending.packets(), &mut self.ledger)?;
        self.pending.clear();
        self.ledger.enter_panic(alloc, packet, true)
    }

    // One call on the source at a position, whose memory is `port`.
    #[tactic(auto, using(crate::proofs::CacheLemmas::looked))]
    fn call<P: Port, L: ledger::Ledger>(
        &mut self,
        alloc: Global,
        receive: &Receive,
        at: u16,
        port: &mut P,
        steps: &mut Steps<L>,
    ) -> Result<Answer, AllocError>
        requires source { IsOfSource (receive_seen receive.now) (P.seen port.old).layout }
        requires header { 20 ≤ receive.now.limit }
        requires limit { receive.now.limit ≤ self.old.block_len }
        ensures ok { IfOk result (λ answer. IsAnswered (receive_seen receive.now) at (P.seen port.old) (P.seen port.new)
            (P.faults port.old) (P.faults port.new) self.old self.new answer.reply (option_map seen_of answer.fatal)) }
        ensures room { self.new.block_len ≡ self.old.block_len }
    {
        let ask = Ask {
            receive,
            source: at,
            seq: port.acknowledged() + 1,
            cache: &self.cache,
            time: self.clock,
        };
        call(alloc, &ask, &mut self.image, &mut self.pending, port, steps)
    }

    /// One call by the context that serves the source, and its entry in the ledger; a fatal block makes the panic list.
    pub fn nmi<P: Port, L: ledger::Ledger>(
        &mut self,
        alloc: Global,
        receive: &Receive,
        context: u16,
        at: u16,
        port: &mut P,
        steps: &mut Steps<L>,
    ) -> Result<(), AllocError>
        requires source { IsOfSource (receive_seen receive.now) (P.seen port.old).layout }
        requires header { 20 ≤ receive.now.limit }
        requires limit { receive.now.limit ≤ self.old.block_len }
        ensures ok { OnOk result (IsNmi (receive_seen receive.now) context at (P.seen port.old) (P.seen port.new)
            (P.faults port.old) (P.faults port.new) self.old self.new) }
        ensures room { self.new.block_len ≡ self.old.block_len }
    {
        let Answer { reply, fatal } = self.call(alloc, receive, at, port, steps)?;
        self.ledger.enter_call(Call {
            context,
            source: at,
            now: self.clock,
            reply,
        })?;
        match fatal {
            None => Ok(()),
            Some(packet) => self.panic(alloc, &packet),
        }
    }

    /// One call by the context that serves the source, which is entered later; a fatal block makes the panic list.
    pub fn turn<P: Port, L: ledger::Ledger>(
        &mut self,
        alloc: Global,
        receive: &Receive,
        context: u16,
        at: u16,
        port: &mut P,
        steps: &mut Steps<L>,
    ) -> Result<Call, AllocError>
        requires source { IsOfSource (receive_seen receive.now) (P.seen port.old).layout }
        requires header { 20 ≤ receive.now.limit }
        requires limit { receive.now.limit ≤ self.old.block_len }
        ensures ok { IfOk result (IsTurn (receive_seen receive.now) context at (P.seen port.old) (P.seen port.new)
            (P.faults port.old) (P.faults port.new) self.old self.new) }
        ensures room { self.new.block_len ≡ self.old.block_len }
    {
        let now = self.clock;
        let Answer { reply, fatal } = self.call(alloc, receive, at, port, steps)?;
        if let Some(packet) = fatal {
            self.panic(alloc, &packet)?;
        }
        Ok(Call {
            context,
            source: at,
            now,
            reply,
        })
    }

    /// A call behind a fatal block: it looks at nothing.
    pub fn stopped_call(&self, context: u16, at: u16) -> Call
        ensures { result ≡ record { context = context; source = at; now = self.now.clock; reply = stopped_reply } }
    {
        Call {
            context,
            source: at,
            now: self.clock,
            reply: Reply {
                outcome: Outcome::Stopped,
                ack: AckState::NotAsked,
            },
        }
    }

    /// Enters the calls of a line on so many sources, source by source.
    pub fn enter_calls(&mut self, calls: &[Call], sources: usize) -> Result<(), AllocError>
        ensures { OnOk result (self.new
            ≡ record self.old { ledger = entered_by (range_with_len 0 sources) calls.now self.old.ledger }) }
    {
        enter_by(calls, sources, &mut self.ledger)
    }

    /// Marks that the line of this number was executed, or with 0 that the script has ended.
    pub fn mark(&mut self, line: u32) -> Result<(), AllocError>
        ensures { OnOk result (self.new ≡ marked line self.old) }
    {
        self.ledger.enter_mark(line)
    }

    /// Whether a fatal block came, behind which no line is executed.
    pub fn is_stopped(&self) -> bool
        ensures { result ≡ not (length self.now.ledger.panic == 0) }
    {
        !self.ledger.panic().is_empty()
    }

    /// Whether the lines made as many blocks as a machine may have.
    pub fn is_full(&self) -> bool
        ensures { result ≡ nat_le 65536 self.now.blocks }
    {
        MOST <= self.blocks
    }

    /// Counts a block that a line made.
    pub fn count(&mut self)
        requires { self.old.blocks < 65536 }
        ensures { self.new ≡ record self.old { blocks = self.old.blocks + 1 } }
    {
        self.blocks += 1;
    }

    /// From here on it is this time, in nanoseconds.
    pub fn set_clock(&mut self, time: u64)
        ensures { self.new ≡ record self.old { clock = time } }
    {
        self.clock = time;
    }

    /// Enters an ack cell that was looked at.
    pub fn peek(&mut self, cell: u64) -> Result<(), AllocError>
        ensures { OnOk result (self.new
            ≡ record self.old { ledger = record self.old.ledger { peeks = self.old.ledger.peeks ++ cell ∷ [] } }) }
    {
        self.ledger.enter_peek(cell)
    }

    /// Enters how an injection ended.
    pub fn end_injection(&mut self, end: InjectionEnd) -> Result<(), AllocError>
        ensures { OnOk result (self.new
            ≡ record self.old { ledger = record self.old.ledger { injections = self.old.ledger.injections ++ end ∷ [] } }) }
    {
        self.ledger.enter_injection(end)
    }
}
