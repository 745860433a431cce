//! What the lines of a script ask for.
use apei_base::Bytes;
use apei_einj::Request;

/// A line of a script that is not skipped.
#[derive(Debug, Drop)]
pub struct Line {
    /// The number of the line, from 1 on; skipped lines are counted.
    pub number: u32,
    pub what: What,
}

/// What a line of a script asks for: a setting of the simulated machine, or a command. A source is named by its position
/// among the enabled sources, from 0 on.
///
/// Own choice: "The lines of a script" in docs/DECISIONS.md.
#[derive(Debug, Drop)]
pub enum What {
    /// `slots N`: how many slots the pool has.
    Slots(u8),
    /// `contexts N`: how many contexts call the receiver.
    Contexts(u8),
    /// `serve SOURCE CONTEXT`: which context serves a source.
    Serve(usize, u16),
    /// `ackcell SOURCE VALUE`: what stands at first in the cell of a read ack register.
    AckCell(usize, u64),
    /// `available VALUE`: the error types that can be injected, a bit each.
    Available(u32),
    /// `busy N`: how many reads find the injection busy.
    Busy(u32),
    /// `status N`: the command status of each injection.
    Status(u8),
    /// `route CLASS SOURCE`: which source reports the injected errors of a class.
    Route(Class, usize),
    /// `clock N`: the time, in nanoseconds.
    Clock(u64),
    /// `raise SOURCE HEX`: the firmware has a new block.
    Raise(usize, Bytes),
    /// `inject TYPE ..`: an error is injected.
    Inject(Request),
    /// `nmi SOURCE`: one call of the receiver.
    Nmi(usize),
    /// `work`: all that is pending is delivered.
    Work,
    /// `run N`: each context makes so many turns.
    Run(u16),
    /// `peek SOURCE`: the cell of a read ack register is printed.
    Peek(usize),
    /// `fail SOURCE N`: from here on, the access of this number through the source's port fails; the next one has number 1.
    Fail(usize, u64),
}

/// A class of injected errors: of the processor, of memory, of PCIe, and of the platform.
///
/// Source: ACPI 6.5, 18.6.4.
#[derive(Clone, Copy, Debug, PartialEq, Eq)]
pub enum Class {
    Processor,
    Memory,
    Pcie,
    Platform,
}
