//! What a context has beside its pass.
ghost use Rattle.std.specs.Prelude.{◌≡◌, ◌≤◌, ◌<◌, ◌+◌, ◌*◌, ◌∷◌, ◌++◌, ◌^◌, ◌-◌, false, [], length, replicate, slice_index, slice_set, vec_capacity, if◌then◌else◌, IfOk, OnOk};
ghost use Rattle.std.specs.List.{AllByRecursion};
ghost use Rattle.ghes_call.specs.Call.{acknowledges};
ghost use Rattle.ghes_context.specs.Context.{FitsLimit, IsKeeping, KeepsRest};
ghost use Rattle.ghes_context.specs.Ends.{counted};

use crate::ask::Kept;
use ghes_call::{Buffer, Call, Outcome, Packet, Reply};
use ghes_nmi::Receive;
use ghes_throttle::ThrottleReader;
use std::alloc::{AllocError, Global};

/// What a context has beside its pass.
#[derive(Drop)]
pub(crate) struct Rest {
    pub(crate) number: u16,
    /// The buffer for an image.
    pub(crate) image: Buffer,
    pub(crate) fatal: Kept,
    pub(crate) reader: ThrottleReader,
    pub(crate) sources: Vec<Receive>,
    /// How many blocks of each source are acknowledged.
    pub(crate) acknowledged: Vec<u32>,
    pub(crate) block_len: usize,
    pub(crate) log: Vec<Call>,
}

/// Memory that a context takes when it is made.
#[derive(Drop)]
pub(crate) struct Memory {
    pub(crate) image: Buffer,
    pub(crate) fatal: Kept,
    pub(crate) sources: Vec<Receive>,
    pub(crate) acknowledged: Vec<u32>,
}

impl Memory {
    /// Makes the buffers of an image and of a fatal block, the list of sources, and a count of 0 for each.
    pub(crate) fn new(
        alloc: Global,
        sources: &[Receive],
        block_len: usize,
    ) -> Result<Memory, AllocError>
        ensures image { IfOk result (λ memory. memory.image.room ≡ block_len) }
        ensures sources { IfOk result (λ memory. memory.sources.items ≡ sources.now) }
        ensures acknowledged { IfOk result (λ memory. memory.acknowledged.items ≡ replicate (length sources.now) 0) }
        ensures fatal { IfOk result (λ memory. (memory.fatal.is_some ≡ false) × (memory.fatal.packet.bytes.room ≡ block_len)) }
    {
        Ok(Memory {
            image: Buffer::with_room(alloc, block_len)?,
            fatal: Kept {
                is_some: false,
                packet: Packet::empty(alloc, block_len)?,
            },
            sources: Vec::from_slice(alloc, sources)?,
            acknowledged: Vec::from_elem(alloc, 0, sources.len())?,
        })
    }
}

// Whether an outcome acknowledges a block.
#[inline(always)]
fn acknowledges(outcome: Outcome) -> bool
    ensures { result ≡ acknowledges outcome }
{
    match outcome {
        Outcome::Queued(_) | Outcome::Malformed(_, _) | Outcome::Duplicate(_, _) => true,
        Outcome::Fatal(_) => true,
        Outcome::Nothing | Outcome::NoSlot | Outcome::Fault | Outcome::Stopped => false,
    }
}

// Counts a block of a source where it was acknowledged.
#[inline(always)]
fn count(acknowledged: &mut [u32], source: usize, outcome: Outcome)
    requires within { source < length acknowledged.old }
    requires fits { slice_index acknowledged.old source < 2 ^ 32 - 1 }
    ensures value { acknowledged.new ≡ counted outcome source acknowledged.old }
    ensures size { length acknowledged.new ≡ length acknowledged.old }
{
    if acknowledges(outcome) {
        acknowledged[source] += 1;
    }
}

impl Rest {
    /// Counts the block of a reply that acknowledged one, and enters the call in the log, which has room for it.
    #[inline(always)]
    pub(crate) fn enter(&mut self, source: usize, now: u64, reply: Reply)
        requires keeping { IsKeeping self.old }
        requires within { source < length self.old.sources.items }
        requires fits { slice_index self.old.acknowledged.items source < 2 ^ 32 - 1 }
        requires room { length self.old.log.items < vec_capacity self.old.log }
        ensures log { self.new.log.items ≡ self.old.log.items ++ record { context = self.old.number; source = source; now = now; reply = reply } ∷ [] }
        ensures room { vec_capacity self.old.log ≤ vec_capacity self.new.log }
        ensures acknowledged { self.new.acknowledged.items ≡ counted reply.outcome source self.old.acknowledged.items }
        ensures kept { KeepsRest self.old self.new }
        ensures keeping { IsKeeping self.new }
    {
        count(&mut self.acknowledged, source, reply.outcome);
        let call = Call {
            context: self.number,
            source: source as u16,
            now,
            reply,
        };
        self.log.push_reserved(call);
    }
}
