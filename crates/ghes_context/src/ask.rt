//! What one call is about, and the fatal block of a context.

ghost use Rattle.std.specs.Prelude.{◌≡◌};
ghost use Rattle.ghes_call.specs.declared.call.AckState.TheVariants.{NotAsked};

use ghes_call::{AckState, Outcome, Packet, Reply};
use ghes_nmi::Receive;
use ghes_rule::Shared;

/// What one call is about: the shared object, how the source is received, the position of the source, the number of the block that
/// may stand, and the time in nanoseconds.
#[derive(Clone, Copy)]
pub(crate) struct Ask<'a> {
    pub(crate) shared: &'a Shared,
    pub(crate) receive: &'a Receive,
    pub(crate) source: u16,
    pub(crate) seq: u32,
    pub(crate) time: u64,
}

/// The fatal block of the context, if it has one, and its buffer.
#[derive(Drop)]
pub(crate) struct Kept {
    pub(crate) is_some: bool,
    pub(crate) packet: Packet,
}

/// The reply of a call that acknowledged nothing.
#[inline(always)]
pub(crate) fn untouched(outcome: Outcome) -> Reply
    ensures { result ≡ record { outcome = outcome; ack = NotAsked } }
{
    Reply {
        outcome,
        ack: AckState::NotAsked,
    }
}
