//! The section of an injected block.
ghost use Rattle.std.specs.Prelude.{◌≡◌, ◌++◌, OnOk};
ghost use Rattle.fw_einj.specs.Section.{function_of, device_of, bus_of, segment_of, memory_section, processor_section, pcie_section, platform_section, section_by, section_length};

use crate::part::{add, add_u16, add_u64};
use crate::{Class, Injection};
use std::alloc::AllocError;

/// How many bytes the section of a class has.
pub(crate) fn section_length(class: Class) -> u32
    ensures { result ≡ section_length class }
{
    match class {
        Class::Processor => 192,
        Class::Memory => 80,
        Class::Pcie => 208,
        Class::Platform => 8,
    }
}

// The function in a PCIe word.
fn function_of(word: u32) -> u8
    ensures { result ≡ function_of word }
{
    (word / 0x100 % 8) as u8
}

// The device in a PCIe word.
fn device_of(word: u32) -> u8
    ensures { result ≡ device_of word }
{
    (word / 0x800 % 0x20) as u8
}

// The bus in a PCIe word.
fn bus_of(word: u32) -> u8
    ensures { result ≡ bus_of word }
{
    (word / 0x1_0000 % 0x100) as u8
}

// The segment in a PCIe word.
fn segment_of(word: u32) -> u16
    ensures { result ≡ segment_of word }
{
    (word / 0x100_0000 % 0x100) as u16
}

// Adds the section of a memory error.
fn add_memory(bytes: &mut Vec<u8>, injection: &Injection) -> Result<(), AllocError>
    ensures { OnOk result (bytes.new.items ≡ bytes.old.items ++ memory_section injection.now) }
{
    add_u64(bytes, injection.memory_validation())?;
    add(bytes, &[0; 8])?;
    add_u64(bytes, injection.physical_address())?;
    add_u64(bytes, injection.address_mask())?;
    add(bytes, &[0; 40])?;
    add(bytes, &[injection.memory_type()])?;
    add(bytes, &[0; 7])
}

// Adds the section of an error of a processor.
fn add_processor(bytes: &mut Vec<u8>, injection: &Injection) -> Result<(), AllocError>
    ensures { OnOk result (bytes.new.items ≡ bytes.old.items ++ processor_section injection.now) }
{
    add_u64(bytes, injection.processor_validation())?;
    add(bytes, &[0; 144])?;
    add_u64(bytes, injection.processor_id())?;
    add(bytes, &[0; 32])
}

// Adds the section of an error of PCIe.
fn add_pcie(bytes: &mut Vec<u8>, injection: &Injection) -> Result<(), AllocError>
    ensures { OnOk result (bytes.new.items ≡ bytes.old.items ++ pcie_section injection.now) }
{
    let word = injection.pcie_word();
    add_u64(bytes, injection.pcie_validation())?;
    add(bytes, &[0; 23])?;
    add(bytes, &[function_of(word), device_of(word)])?;
    add_u16(bytes, segment_of(word))?;
    add(bytes, &[bus_of(word)])?;
    add(bytes, &[0; 172])
}

// Adds the section of an error of the platform.
fn add_platform(bytes: &mut Vec<u8>, injection: &Injection) -> Result<(), AllocError>
    ensures { OnOk result (bytes.new.items ≡ bytes.old.items ++ platform_section injection.now) }
{
    add_u64(bytes, u64::from(injection.error))
}

/// Adds the section of an error of a class.
#[tactic(auto, unfolding(crate::specs::Section::section_by))]
pub(crate) fn add_section(
    bytes: &mut Vec<u8>,
    class: Class,
    injection: &Injection,
) -> Result<(), AllocError>
    ensures { OnOk result (bytes.new.items ≡ bytes.old.items ++ section_by class injection.now) }
{
    match class {
        Class::Processor => add_processor(bytes, injection),
        Class::Memory => add_memory(bytes, injection),
        Class::Pcie => add_pcie(bytes, injection),
        Class::Platform => add_platform(bytes, injection),
    }
}
