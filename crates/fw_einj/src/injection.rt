//! What the machine was told to inject.

/// What the machine was told to inject: the error type, and the fields of the address structure, all 0 where the table
/// has none.
///
/// Source: ACPI 6.5, 18.6.4.
#[derive(Clone, Copy, Debug, PartialEq, Eq)]
pub struct Injection {
    /// The error type.
    pub error: u32,
    /// Which place is named: bit 0 a processor, bit 1 memory, bit 2 PCIe.
    pub flags: u32,
    /// The id of the processor.
    pub processor: u32,
    /// The memory address.
    pub address: u64,
    /// The mask of the memory address.
    pub mask: u64,
    /// The PCIe word: the segment in bits 24 to 31, the bus in 16 to 23, the device in 11 to 15, and the function in 8 to
    /// 10. Source: Own choice.
    pub pcie: u32,
}

// The flags of the places that may be named.
const PROCESSOR: u32 = 1;

const MEMORY: u32 = 2;

const PCIE: u32 = 4;

impl Injection {
    ghost use Rattle.std.specs.Prelude.{◌≡◌};
    ghost use Rattle.fw_einj.specs.Class.{is_correctable};
    ghost use Rattle.fw_einj.specs.Block.{block_status, severity_code};
    ghost use Rattle.fw_einj.specs.Section.{names, memory_validation, physical_address, address_mask, memory_type, processor_validation, processor_id, pcie_validation, pcie_word};

    /// Whether the error is correctable: the first bit of each three.
    pub(crate) fn is_correctable(&self) -> bool
        ensures { result ≡ is_correctable self.now.error }
    {
        matches!(self.error, 0x001 | 0x008 | 0x040 | 0x200)
    }

    /// The block status of one entry of the error.
    pub(crate) fn block_status(&self) -> u32
        ensures { result ≡ block_status self.now.error }
    {
        if self.is_correctable() { 0x12 } else { 0x11 }
    }

    /// The code of the severity of the error.
    pub(crate) fn severity(&self) -> u32
        ensures { result ≡ severity_code self.now.error }
    {
        match self.error {
            0x001 | 0x008 | 0x040 | 0x200 => 2,
            0x004 | 0x020 | 0x100 | 0x800 => 1,
            _ => 0,
        }
    }

    // Whether a place of this flag is named.
    fn names(&self, flag: u32) -> bool
        ensures { result ≡ names flag self.now }
    {
        self.flags & flag != 0
    }

    /// Which fields a memory section tells.
    pub(crate) fn memory_validation(&self) -> u64
        ensures { result ≡ memory_validation self.now }
    {
        if self.names(MEMORY) { 0x4006 } else { 0x4000 }
    }

    /// The memory address, where memory is named.
    pub(crate) fn physical_address(&self) -> u64
        ensures { result ≡ physical_address self.now }
    {
        if self.names(MEMORY) { self.address } else { 0 }
    }

    /// The mask of the memory address, where memory is named.
    pub(crate) fn address_mask(&self) -> u64
        ensures { result ≡ address_mask self.now }
    {
        if self.names(MEMORY) { self.mask } else { 0 }
    }

    /// The type of the memory error: of a single bit where it is correctable, else of several.
    pub(crate) fn memory_type(&self) -> u8
        ensures { result ≡ memory_type self.now }
    {
        if self.is_correctable() { 2 } else { 3 }
    }

    /// Which fields a processor section tells.
    pub(crate) fn processor_validation(&self) -> u64
        ensures { result ≡ processor_validation self.now }
    {
        if self.names(PROCESSOR) { 0x100 } else { 0 }
    }

    /// The id of the processor, where one is named.
    pub(crate) fn processor_id(&self) -> u64
        ensures { result ≡ processor_id self.now }
    {
        if self.names(PROCESSOR) {
            u64::from(self.processor)
        } else {
            0
        }
    }

    /// Which fields a PCIe section tells.
    pub(crate) fn pcie_validation(&self) -> u64
        ensures { result ≡ pcie_validation self.now }
    {
        if self.names(PCIE) { 8 } else { 0 }
    }

    /// The PCIe word, where a function is named.
    pub(crate) fn pcie_word(&self) -> u32
        ensures { result ≡ pcie_word self.now }
    {
        if self.names(PCIE) { self.pcie } else { 0 }
    }
}
