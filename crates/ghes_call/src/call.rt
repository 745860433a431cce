//! One call of the receive path, and what it answered.

use cper_block::Malformed;

/// How one call of the receive path ended. A number is that of the block in its source, from 1 on.
///
/// Source: own choice.
#[derive(Clone, Copy, Debug, PartialEq, Eq)]
pub enum Outcome {
    /// No block stood.
    Nothing,
    /// The block was acknowledged and is pending.
    Queued(u32),
    /// The block was acknowledged and is pending, and it is malformed.
    Malformed(u32, Malformed),
    /// The block was acknowledged. The report of the second number, from 1 on, told the same bytes shortly before.
    Duplicate(u32, u64),
    /// The block was acknowledged, and it is fatal.
    Fatal(u32),
    /// A block stood, and no slot was free. Nothing was acknowledged.
    NoSlot,
    /// An access failed at or before the clear. Nothing was acknowledged.
    Fault,
    /// Another context had a fatal block. Nothing was acknowledged.
    Stopped,
}

/// What became of the acknowledgement after a block was cleared.
#[derive(Clone, Copy, Debug, PartialEq, Eq)]
pub enum AckState {
    /// The source has no read ack register, or nothing was cleared.
    NotAsked,
    /// The read ack register was written.
    Done,
    /// The read or the write of the read ack register failed.
    Failed,
}

/// What a call answers.
#[derive(Clone, Copy, Debug, PartialEq, Eq)]
pub struct Reply {
    pub outcome: Outcome,
    pub ack: AckState,
}

/// One call of the receive path, as it is kept.
#[derive(Clone, Copy, Debug, PartialEq, Eq)]
pub struct Call {
    /// The number of the context that made it, from 0 on.
    pub context: u16,
    /// The position of the source among the enabled ones, from 0 on.
    pub source: u16,
    /// The time of the call in nanoseconds.
    pub now: u64,
    pub reply: Reply,
}
