//! The lists of a ledger, and what stands in each.
ghost use Rattle.std.specs.Prelude.{◌≡◌};

use apei_base::Bytes;
use cper_block::Malformed;
use ghes_call::Call;
use std::marker::Model;

/// How a delivery was told. A report's number is from 1 on.
#[derive(Clone, Copy, Debug, PartialEq, Eq)]
pub enum Reported {
    /// As a report of its own, with this number.
    New(u64),
    /// As a repeat of the report with this number.
    Repeat(u64),
}

/// A block that was taken from the pending ones, with its fate.
///
/// A source is its position among the enabled ones, from 0 on, and `seq` the block's number in it, from 1 on.
#[derive(Debug, Drop)]
pub enum Taken {
    Delivered {
        source: u16,
        seq: u32,
        bytes: Bytes,
        reported: Reported,
    },
    Dropped {
        source: u16,
        seq: u32,
        bytes: Bytes,
        reason: Malformed,
    },
}

/// A block that was told as new.
#[derive(Debug, Drop)]
pub struct Report {
    /// The position of the source among the enabled ones, from 0 on.
    pub source: u16,
    /// The number of the block in its source, from 1 on.
    pub seq: u32,
    /// In nanoseconds.
    pub time: u64,
    pub bytes: Bytes,
}

/// A block that a fatal one left without a delivery, or a fatal block.
#[derive(Debug, Drop)]
pub struct PanicEntry {
    /// The position of the source among the enabled ones, from 0 on.
    pub source: u16,
    /// The number of the block in its source, from 1 on.
    pub seq: u32,
    pub bytes: Bytes,
    /// Why the block is malformed, if it is.
    pub reason: Option<Malformed>,
    /// Whether it is a fatal block, and not one that was pending.
    pub fatal: bool,
}

/// How an injection ended.
#[derive(Clone, Copy, Debug, PartialEq, Eq)]
pub enum InjectionEnd {
    /// The firmware made this block for this source.
    Made { source: u16, seq: u32 },
    /// The error type is not available.
    NotAvailable,
    /// The operation stayed busy.
    Busy,
    /// The command ended with this status.
    Status(u64),
    /// The trigger table was refused for the reason of this number, or 0 where the trigger made no block.
    Trigger(u8),
    /// The table has no address for the place of the error.
    NoAddress,
}

/// How many calls and taken blocks the ledger had after a line.
#[derive(Clone, Copy, Debug, PartialEq, Eq)]
pub struct Mark {
    /// The number of the line, and 0 for the end of the script.
    pub line: u32,
    pub calls: u64,
    pub taken: u64,
}

/// What happened in a replay, each list in order.
///
/// The calls of one line stand by source in table order, and those on a source in the order in which they were made. Report
/// number r is element r - 1 of `reports`.
///
/// Source: own choice.
#[derive(Debug, Drop)]
pub struct Ledger {
    pub calls: Vec<Call>,
    pub taken: Vec<Taken>,
    pub reports: Vec<Report>,
    /// What was pending when a fatal block came, in order, and behind it each fatal block.
    pub panic: Vec<PanicEntry>,
    pub injections: Vec<InjectionEnd>,
    /// The ack cells that were looked at.
    pub peeks: Vec<u64>,
    /// One for each executed line, settings included, and one for the end of the script.
    pub marks: Vec<Mark>,
}

impl Model for Ledger {
    ghost use Rattle.ghes_ledger.specs.Kept.{Kept};

    ghost Value = { Kept };

    ghost view = { λ l. record { calls = l.calls.items; taken = l.taken.items; reports = l.reports.items; panic = l.panic.items; injections = l.injections.items; peeks = l.peeks.items; marks = l.marks.items } };
}
