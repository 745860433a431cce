//! Reports and lists of reports, as contracts see them. No value of these types is made.

/// A report as a report list has it: its bytes, and its time in nanoseconds.
pub struct Report {
    pub bytes: [u8; 0],
    pub time: u64,
}

/// A whole report list, as one entry of the history.
pub struct Version {
    pub reports: [Report; 0],
}
