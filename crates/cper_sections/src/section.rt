//! Which section the bytes of a data entry are.
ghost use Rattle.std.specs.Prelude.{◌≡◌};

use crate::{Kind, Memory, Pcie, Processor};
use uuid::Uuid;

/// The section of a data entry, with its bytes. What stands behind its fields is not read.
///
/// Source: UEFI 2.10, appendix N.2.2.
#[derive(Debug, Drop)]
pub enum Section<'a> {
    Memory(Memory<'a>),
    Processor(Processor<'a>),
    Pcie(Pcie<'a>),
    /// A section whose fields are not read here.
    Other(&'a [u8]),
    /// A section of this kind with too few bytes: a memory section needs 73, a processor section 192, a PCIe section 208.
    Short(Kind, &'a [u8]),
}

impl<'a> Section<'a> {
    ghost use Rattle.cper_sections.specs.Section.{view, reading_of};

    /// Which section the bytes are, under the GUID of their data entry.
    pub fn read(guid: &Uuid, bytes: &'a [u8]) -> Section<'a>
        ensures { view result ≡ reading_of guid.now bytes.now }
    {
        match Kind::of(guid) {
            None => Section::Other(bytes),
            Some(kind) if bytes.len() < kind.least_length() => Section::Short(kind, bytes),
            Some(Kind::Memory) => Section::Memory(Memory::of(bytes)),
            Some(Kind::Processor) => Section::Processor(Processor::of(bytes)),
            Some(Kind::Pcie) => Section::Pcie(Pcie::of(bytes)),
        }
    }
}
