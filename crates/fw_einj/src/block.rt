//! The block that an injected error leaves.
ghost use Rattle.std.specs.Prelude.{◌≡◌, ◌++◌, IfOk, OnOk};
ghost use Rattle.fw_einj.specs.Block.{header_part, entry_part, block_by, block_of};

use crate::part::{add, add_u16, add_u32};
use crate::section::{add_section, section_length};
use crate::{Class, Injection};
use apei_base::Bytes;
use std::alloc::{AllocError, Global};

// Adds the header of a block.
fn add_header(bytes: &mut Vec<u8>, class: Class, injection: &Injection) -> Result<(), AllocError>
    ensures { OnOk result
        (bytes.new.items ≡ bytes.old.items ++ header_part class injection.now.error) }
{
    let length = 64 + section_length(class);
    add_u32(bytes, injection.block_status())?;
    add(bytes, &[0; 8])?;
    add_u32(bytes, length)?;
    add_u32(bytes, injection.severity())
}

// Adds the header of a data entry.
fn add_entry(bytes: &mut Vec<u8>, class: Class, injection: &Injection) -> Result<(), AllocError>
    ensures { OnOk result
        (bytes.new.items ≡ bytes.old.items ++ entry_part class injection.now.error) }
{
    add(bytes, &class.guid())?;
    add_u32(bytes, injection.severity())?;
    add_u16(bytes, 0x0201)?;
    add(bytes, &[0, 0])?;
    add_u32(bytes, section_length(class))?;
    add(bytes, &[0; 36])
}

// The bytes of the block of an error of a class.
fn block_bytes(alloc: Global, class: Class, injection: &Injection) -> Result<Vec<u8>, AllocError>
    ensures { IfOk result (λ bytes. bytes.items ≡ block_by class injection.now) }
{
    let mut bytes = Vec::new(alloc);
    add_header(&mut bytes, class, injection)?;
    add_entry(&mut bytes, class, injection)?;
    add_section(&mut bytes, class, injection)?;
    Ok(bytes)
}

/// The block that an injected error leaves: a header, one data entry, and the section of its class.
///
/// Source: ACPI 6.5, 18.3.2.7.1, and UEFI 2.10, appendix N.2.
#[tactic(auto, unfolding(crate::specs::Block::block_of))]
pub fn injected_block(alloc: Global, injection: &Injection) -> Result<Bytes, AllocError>
    ensures { IfOk result (λ block. block ≡ block_of injection.now) }
{
    Ok(Bytes(block_bytes(alloc, Class::of(injection.error), injection)?))
}
