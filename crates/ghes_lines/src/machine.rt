//! What the tables and the settings of a script say of a machine.
use ghes_nmi::Receive;

/// One error source: its id, how it is received, the context that serves it, and what its read ack register holds at first.
#[derive(Clone, Copy, Debug, PartialEq, Eq)]
pub struct Source {
    pub id: u16,
    pub receive: Receive,
    /// The number of the context, from 0 on.
    pub server: u16,
    /// The register has the low bits of it, as many as it is wide.
    pub cell: u64,
}

/// The sources of a machine in table order, how many contexts call the receiver, and how many packets may be pending.
#[derive(Debug, Drop)]
pub struct Machine {
    pub sources: Vec<Source>,
    pub contexts: u16,
    pub slots: u8,
}
