//! How bad an error is.
ghost use Rattle.cper_block.specs.Severity.{severity_of, severity_text};

use std::fmt;

/// How bad an error is.
///
/// Source: ACPI 6.5, 18.3.2.7.1.
#[derive(Clone, Copy, Debug, PartialEq, Eq)]
pub enum Severity {
    Recoverable,
    Fatal,
    Corrected,
    Informational,
}

impl Severity {
    ghost use Rattle.std.specs.Prelude.{◌≡◌};
    ghost use Rattle.cper_block.specs.Severity.{is_fatal_severity, severity_text};

    /// Whether it is the fatal one.
    pub fn is_fatal(self) -> bool
        ensures { result ≡ is_fatal_severity self }
    {
        self == Severity::Fatal
    }

    /// The word for it.
    pub fn word(self) -> &'static str
        ensures { result.now ≡ severity_text self }
    {
        match self {
            Severity::Recoverable => "recoverable",
            Severity::Fatal => "fatal",
            Severity::Corrected => "corrected",
            Severity::Informational => "none",
        }
    }
}

impl From<u32> for Severity {
    ghost use Rattle.std.specs.Prelude.{◌≡◌};

    ghost from_gives = { λ code severity. severity ≡ severity_of code };

    /// The severity of a code: 0 recoverable, 1 fatal, 2 corrected, 3 none. A code above 3 is fatal (own choice).
    fn from(code: u32) -> Severity {
        match code {
            0 => Severity::Recoverable,
            2 => Severity::Corrected,
            3 => Severity::Informational,
            _ => Severity::Fatal,
        }
    }
}

impl fmt::Display for Severity {
    ghost use Rattle.std.specs.Prelude.{Some};

    ghost output = { λ severity. Some (severity_text severity) };

    fn fmt<W: fmt::Write>(&self, f: &mut fmt::Formatter<W>) -> fmt::Result {
        f.write_str(self.word())
    }
}
