//! A context, and its call.
ghost use Rattle.std.specs.Prelude.{◌≡◌, ◌≤◌, ◌<◌, ◌+◌, ◌-◌, ◌*◌, ◌^◌, None, length, option_map, slice_get, slice_index, IfOk, IfErr, IfSome, OnOk};
ghost use Rattle.std.specs.Option.{option_copied};
ghost use Rattle.std.specs.List.{AllByRecursion};
ghost use mathlib.Core.List.{IsPrefix};
ghost use Rattle.apei_base.specs.Firmware.{standing_number};
ghost use Rattle.ghes_rule.specs.Kept.{packet_view};
ghost use Rattle.ghes_rule.specs.declared.views.Stage.TheVariants.{Idle};
ghost use Rattle.ghes_context.specs.Context.{FitsLimit, new_context};
ghost use Rattle.ghes_context.specs.Nmi.{IsPortOf, IsNmi, IsEntered};

use crate::ask::Ask;
use crate::calling::call;
use crate::rest::{Memory, Rest};
use apei_base::Firmware;
use ghes_call::{Call, Packet, Reply};
use ghes_nmi::Receive;
use ghes_rule::{Pass, Shared};
use ghes_steps::Steps;
use ghes_throttle::{ThrottleReader, Told};
use std::alloc::{AllocError, Global};
use std::marker::Model;
use std::sync::Wait;
use std::sync::ledger::Ledger;

/// One context of the receiver: it makes calls on its sources, and keeps a log of them.
///
/// A contract sees what its pass knows and what it has counted. Source: own choice.
#[derive(Drop)]
pub struct Context {
    // It is there between two calls, and in the hands of a call while that runs.
    pub(crate) pass: Option<Pass>,
    pub(crate) rest: Rest,
}

impl Model for Context {
    ghost use Rattle.std.specs.Prelude.{◌≡◌};
    ghost use Rattle.ghes_context.specs.Context.{ContextSeen, context_of, pass_at, IsManned, IsKeeping};
    ghost use Rattle.ghes_context.specs.Told.{told_by};

    ghost Value = { ContextSeen };

    ghost view = { λ c. context_of (pass_at c.pass) c.rest };

    ghost invariant = { λ c. IsManned c.rest.number c.rest.block_len c.pass × (told_by c.rest.fatal ≡ (pass_at c.pass).view.fatal) × IsKeeping c.rest };
}

/// Want of memory for a context. The pass and the reader are handed back.
#[derive(Drop)]
pub struct ContextRefused {
    pub pass: Pass,
    pub reader: ThrottleReader,
}

impl Context {
    /// A context with this number, the pass of that number, a reader of the reports, and how each of its sources is received.
    ///
    /// `block_len` is how many bytes a packet has room for, and a limit of a source is at most that. The memory of the image and of a
    /// fatal block is made here. It is refused for want of memory alone.
    pub fn new(
        alloc: Global,
        number: u16,
        pass: Pass,
        reader: ThrottleReader,
        sources: &[Receive],
        block_len: usize,
    ) -> Result<Context, ContextRefused>
        requires number { pass.view.number ≡ number }
        requires idle { pass.view.stage ≡ Idle }
        requires first { pass.view.fatal ≡ None }
        requires long { pass.view.room ≡ block_len }
        requires few { length sources.now ≤ 65536 }
        requires limits { AllByRecursion (FitsLimit block_len) sources.now }
        ensures ok { IfOk result (λ context. context ≡ new_context number pass reader sources.now block_len context.room) }
        ensures err { IfErr result (λ refused. (refused.pass ≡ pass) × (refused.reader ≡ reader)) }
    {
        let Ok(memory) = Memory::new(alloc, sources, block_len) else {
            return Err(ContextRefused { pass, reader });
        };
        let Memory {
            image,
            fatal,
            sources,
            acknowledged,
        } = memory;
        Ok(Context {
            pass: Some(pass),
            rest: Rest {
                number,
                image,
                fatal,
                reader,
                sources,
                acknowledged,
                block_len,
                log: Vec::new(alloc),
            },
        })
    }

    /// Makes room in the log for so many turns: in a turn each source is called once.
    pub fn reserve(&mut self, turns: usize) -> Result<(), AllocError>
        ensures ok { OnOk result (length self.old.calls + turns * length self.old.sources ≤ self.new.room) }
        ensures room { self.old.room ≤ self.new.room }
        ensures kept { self.new ≡ record self.old { room = self.new.room } }
    {
        match turns.checked_mul(self.rest.sources.len()) {
            Some(calls) => self.rest.log.reserve(calls),
            None => Err(AllocError),
        }
    }

    /// The calls that were made, in order.
    pub fn calls(&self) -> &[Call]
        ensures { result.now ≡ self.now.calls }
    {
        &self.rest.log
    }

    /// The fatal block of this context, if it has one.
    pub fn fatal(&self) -> Option<&Packet>
        ensures { option_map packet_view (option_copied result) ≡ self.now.pass.view.fatal }
    {
        if self.rest.fatal.is_some {
            Some(&self.rest.fatal.packet)
        } else {
            None
        }
    }

    /// Sees the report list that was told. It waits until the list is shown.
    pub fn learn<R: Wait>(&mut self, rt: &R, told: &Told<'_>)
        requires belongs { told.now.book ≡ self.old.reports.book }
        ensures told { self.new ≡ record self.old { reports = told.now } }
        ensures seen { IsPrefix self.old.reports.list self.new.reports.list }
    {
        self.rest.reader.learn(rt, told);
    }

    /// One call on the source at this position, whose memory is `port`, at a time in nanoseconds.
    ///
    /// It loads the panic word, looks for a block and takes its image, looks into the report cache, claims a slot, clears the block,
    /// makes it pending, and acknowledges it. It takes no memory, waits for nobody, and makes at most 11 steps more than there are
    /// slots. The log has room for one call.
    /// After Linux 6.1, drivers/acpi/apei/ghes.c.
    pub fn nmi<P: Firmware, L: Ledger>(
        &mut self,
        shared: &Shared,
        source: usize,
        port: &mut P,
        now: u64,
        steps: &mut Steps<L>,
    ) -> Reply
        requires belongs { self.old.pass.table ≡ shared.now }
        requires source { source < length self.old.sources }
        requires port { IsPortOf self.old source (P.seen port.old) }
        requires blocks { (P.seen port.old).acknowledged < 2 ^ 32 - 1 }
        requires few { length self.old.pass.view.claims < 2 ^ 32 }
        requires room { length self.old.calls < self.old.room }
        ensures call { IfSome (slice_get self.old.sources source)
            (IsNmi shared.now.slots source now self.old self.new (P.seen port.old) (P.seen port.new) (P.faults port.old) (P.faults port.new) result) }
        ensures entered { IsEntered source now self.old self.new result }
        ensures port { IsPortOf self.new source (P.seen port.new) }
        ensures claims { length self.new.pass.view.claims ≤ length self.old.pass.view.claims + 1 }
        ensures room { self.old.room ≤ self.new.room }
        ensures cost { steps.new ≤ steps.old + shared.now.slots + 11 }
    {
        let pass = self.pass.take().unwrap();
        let ask = Ask {
            shared,
            receive: &self.rest.sources[source],
            source: source as u16,
            seq: self.rest.acknowledged[source] + 1,
            time: now,
        };
        let (pass, reply) = call(
            &ask,
            pass,
            &mut self.rest.image,
            &mut self.rest.reader,
            &mut self.rest.fatal,
            port,
            steps,
        );
        self.pass = Some(pass);
        self.rest.enter(source, now, reply);
        reply
    }
}
