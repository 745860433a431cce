//! How the machine answers an injection.

/// How the machine answers an injection.
#[derive(Clone, Copy, Debug, PartialEq, Eq)]
pub struct Setup {
    /// The error types that can be injected, a bit each.
    pub available: u32,
    /// How many reads find the machine busy.
    pub busy: u32,
    /// The command status, 0 for success.
    pub status: u8,
    /// Which source tells the errors of a class, by its position: of the processor, of memory, of PCIe, of the platform.
    pub routes: [usize; 4],
}

impl Setup {
    /// A machine that was not set up: no type can be injected.
    pub(crate) const NONE: Setup = Setup {
        available: 0,
        busy: 0,
        status: 0,
        routes: [0; 4],
    };
}
