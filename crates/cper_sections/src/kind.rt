//! The kinds of sections whose fields are read, their GUIDs, lengths and tables.
ghost use Rattle.std.specs.Prelude.{◌≡◌};
ghost use Rattle.cper_sections.specs.Section.{guid_of, kind_of, least_length, kind_text};

use std::fmt;
use uuid::Uuid;

/// The kinds of sections whose fields are read.
///
/// Source: UEFI 2.10, appendix N.2.2.
#[derive(Clone, Copy, Debug, PartialEq, Eq)]
pub enum Kind {
    Memory,
    Processor,
    Pcie,
}

// The GUIDs of the kinds, in the order in which they are written.
#[rattlefmt::skip]
const MEMORY: [u8; 16] =
    [0xa5, 0xbc, 0x11, 0x14, 0x6f, 0x64, 0x4e, 0xde, 0xb8, 0x63, 0x3e, 0x83, 0xed, 0x7c, 0x83, 0xb1];

#[rattlefmt::skip]
const PROCESSOR: [u8; 16] =
    [0x98, 0x76, 0xcc, 0xad, 0x47, 0xb4, 0x4b, 0xdb, 0xb6, 0x5e, 0x16, 0xf1, 0x93, 0xc4, 0xf3, 0xdb];

#[rattlefmt::skip]
const PCIE: [u8; 16] =
    [0xd9, 0x95, 0xe9, 0x54, 0xbb, 0xc1, 0x43, 0x0f, 0xad, 0x91, 0xb4, 0x4d, 0xcb, 0x3c, 0x6f, 0x35];

impl Kind {
    // The GUID that names the kind.
    #[tactic(auto, unfolding(crate::specs::Section::guid_of, uuid::proofs::OnLiterals::uuid_on_literals))]
    fn guid(self) -> Uuid
        ensures { result ≡ guid_of self }
    {
        match self {
            Kind::Memory => Uuid::from_bytes(MEMORY),
            Kind::Processor => Uuid::from_bytes(PROCESSOR),
            Kind::Pcie => Uuid::from_bytes(PCIE),
        }
    }

    /// The kind that a GUID names.
    pub(crate) fn of(guid: &Uuid) -> Option<Kind>
        ensures { result ≡ kind_of guid.now }
    {
        if *guid == Kind::Memory.guid() {
            Some(Kind::Memory)
        } else if *guid == Kind::Processor.guid() {
            Some(Kind::Processor)
        } else if *guid == Kind::Pcie.guid() {
            Some(Kind::Pcie)
        } else {
            None
        }
    }

    /// How many bytes a section of the kind has at least.
    pub(crate) fn least_length(self) -> usize
        ensures { result ≡ least_length self }
    {
        match self {
            Kind::Memory => 73,
            Kind::Processor => 192,
            Kind::Pcie => 208,
        }
    }

    /// The word for it.
    pub fn word(self) -> &'static str
        ensures { result.now ≡ kind_text self }
    {
        match self {
            Kind::Memory => "memory",
            Kind::Processor => "processor",
            Kind::Pcie => "pcie",
        }
    }
}

impl fmt::Display for Kind {
    ghost use Rattle.std.specs.Prelude.{Some};

    ghost output = { λ kind. Some (kind_text kind) };

    fn fmt<W: fmt::Write>(&self, f: &mut fmt::Formatter<W>) -> fmt::Result {
        f.write_str(self.word())
    }
}
