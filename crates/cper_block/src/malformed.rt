//! Why bytes are no well-formed block.
use std::error::Error;
use std::fmt;

/// Why bytes are no well-formed block, in the order of the tests.
///
/// After Linux 6.1, drivers/acpi/apei/ghes.c and drivers/firmware/efi/cper.c.
#[derive(Clone, Copy, Debug, PartialEq, Eq)]
pub enum Malformed {
    /// Fewer bytes than the header has, or a length below it.
    TooShort,
    /// A length above the limit or above the bytes at hand.
    TooLong,
    /// A data length that holds no entry's header.
    DataLength,
    /// Raw data that begins before the end of the entries.
    RawOffset,
    /// After so many whole entries the next one runs past the data.
    EntryTruncated(u32),
    /// After some whole entries fewer bytes are left than an entry's header has.
    Leftover,
}

impl Malformed {
    ghost use Rattle.std.specs.Prelude.{◌≡◌};
    ghost use Rattle.cper_block.specs.Text.{malformed_word};

    /// The words for it, up to a number of entries.
    pub fn word(self) -> &'static str
        ensures { result.now ≡ malformed_word self }
    {
        match self {
            Malformed::TooShort => "1 too short",
            Malformed::TooLong => "2 too long",
            Malformed::DataLength => "3 data length",
            Malformed::RawOffset => "4 raw offset",
            Malformed::EntryTruncated(_) => "5 entry ",
            Malformed::Leftover => "6 left over",
        }
    }
}

impl fmt::Display for Malformed {
    ghost use Rattle.std.specs.Prelude.{Some};
    ghost use Rattle.cper_block.specs.Text.{malformed_text};

    ghost output = { λ reason. Some (malformed_text reason) };

    fn fmt<W: fmt::Write>(&self, f: &mut fmt::Formatter<W>) -> fmt::Result {
        f.write_str(self.word())?;
        match self {
            Malformed::EntryTruncated(whole) => write!(f, "{whole} truncated"),
            _ => Ok(()),
        }
    }
}

impl Error for Malformed {}
