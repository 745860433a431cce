//! The structure of an error source.
ghost use Rattle.std.specs.Prelude.{◌≡◌, ◌<◌, ◌≤◌, ◌^◌, length};
ghost use Rattle.apei_hest.specs.Source.{source_of, limit_of};
ghost use Rattle.apei_hest.specs.Structure.{IsStructure};

use crate::fields::{ack_of, ghes_of};
use apei_base::{Gas, u16_at};

/// One error source structure of a HEST.
///
/// Source: ACPI 6.5, 18.3.2.
#[derive(Clone, Copy, Debug, PartialEq, Eq)]
pub enum Source {
    /// A structure whose contents are not read.
    Skipped {
        /// The type of the structure.
        kind: u16,
        /// The id of the source.
        id: u16,
        /// In bytes from the start of the table.
        at: u32,
        /// In bytes.
        length: u32,
    },
    /// A generic hardware error source, whose contents are read.
    Ghes(Ghes),
}

/// A generic hardware error source (GHES), of version 1 (type 9) or 2 (type 10).
///
/// Source: ACPI 6.5, 18.3.2.7 and 18.3.2.8.
#[derive(Clone, Copy, Debug, PartialEq, Eq)]
pub struct Ghes {
    /// The number by which other structures name this source.
    pub id: u16,
    /// Where the structure begins, in bytes from the start of the table.
    pub at: u32,
    /// The id of a related source, 0xFFFF for none.
    pub related: u16,
    /// Reserved by the standard, kept as it stands.
    pub flags: u8,
    /// Whether the source is in use: the byte is not 0.
    pub enabled: bool,
    /// For how many error records memory is to be set aside.
    pub records: u32,
    /// How many sections an error record has at most.
    pub sections: u32,
    /// How long the raw data of a block is at most, in bytes.
    pub raw: u32,
    /// The register that holds the address of the error status block.
    pub status: Gas,
    /// How firmware says that a block stands there.
    pub notify: Notify,
    /// How long an error status block is at most, in bytes.
    pub block_length: u32,
    /// How a block is acknowledged, for version 2 alone.
    pub ack: Option<Ack2>,
}

/// How a source notifies of an error, as the table has it, not checked.
///
/// Intervals and windows are in milliseconds.
/// Source: ACPI 6.5, 18.3.2.9.
#[derive(Clone, Copy, Debug, PartialEq, Eq)]
pub struct Notify {
    /// The type of notification: 0 polled, 3 SCI, 4 NMI, and others.
    pub kind: u8,
    /// The length that the structure states for itself, in bytes.
    pub length: u8,
    /// Which of the fields below may be changed, a bit each.
    pub write_enable: u16,
    /// How often to look, where the source is polled.
    pub poll: u32,
    /// The interrupt vector, where the source interrupts.
    pub vector: u32,
    /// After how many interrupts within `poll_window` to poll in their place.
    pub poll_threshold: u32,
    /// The window in which `poll_threshold` counts.
    pub poll_window: u32,
    /// After how many errors within `error_window` to notify.
    pub error_threshold: u32,
    /// The window in which `error_threshold` counts.
    pub error_window: u32,
}

/// The register that acknowledges a block, and what is kept and set in it.
///
/// Source: ACPI 6.5, 18.3.2.8.
#[derive(Clone, Copy, Debug, PartialEq, Eq)]
pub struct Ack2 {
    /// The register that is read, changed and written back.
    pub register: Gas,
    /// The bits that keep what was read.
    pub preserve: u64,
    /// The bits that are set.
    pub write: u64,
}

impl Ghes {
    /// The receiver's limit, in bytes: a block is at most so long.
    ///
    /// Source: Own choice.
    pub fn limit(&self) -> u32
        ensures value { result ≡ limit_of self.now }
        ensures most { result ≤ 65536 }
    {
        self.block_length.min(65_536)
    }
}

impl Source {
    /// The source of the structure that the bytes are, and that begins at `at` in its table.
    pub(crate) fn read(bytes: &[u8], at: u32) -> Source
        requires whole { IsStructure bytes.now }
        requires small { length bytes.now < 2 ^ 32 }
        ensures { result ≡ source_of bytes.now at }
    {
        match u16_at(bytes, 0) {
            9 => Source::Ghes(ghes_of(bytes, at, None)),
            10 => Source::Ghes(ghes_of(bytes, at, Some(ack_of(bytes)))),
            kind => Source::Skipped {
                kind,
                id: u16_at(bytes, 2),
                at,
                length: bytes.len() as u32,
            },
        }
    }
}
