//! What a receiver takes of a block that stands.
ghost use Rattle.std.specs.Prelude.{◌≡◌, ◌≤◌, length, IfOk};
ghost use Rattle.cper_block.specs.Image.{padded, image_of, image_reason, is_fatal};

use crate::header::HEADER_SIZE;
use crate::{Block, Header, Malformed};
use apei_base::Bytes;
use std::alloc::{AllocError, Global};

/// The image of a block, and what it says.
#[derive(Debug, Drop)]
pub struct Image {
    pub bytes: Bytes,
    /// Why the image is malformed, if it is.
    pub reason: Option<Malformed>,
    /// Whether its severity is fatal.
    pub fatal: bool,
}

// So many bytes from the front of a block, as it lies in memory with zeros behind it.
fn padded(alloc: Global, block: &[u8], n: usize) -> Result<Vec<u8>, AllocError>
    ensures value { IfOk result (λ bytes. bytes.items ≡ padded n block.now) }
    ensures length { IfOk result (λ bytes. length bytes.items ≡ n) }
{
    let (front, _behind) = block.split_at(n.min(block.len()));
    let mut bytes = Vec::from_slice(alloc, front)?;
    bytes.resize(n, 0)?;
    Ok(bytes)
}

// Whether the severity in the header at the front of the bytes is fatal.
fn is_fatal(bytes: &[u8]) -> bool
    requires { 20 ≤ length bytes.now }
    ensures { result ≡ is_fatal bytes.now }
{
    Header::at(bytes).severity().is_fatal()
}

impl Image {
    /// Takes the image of a block under the limit of its source: its header alone, where that is refused, and else as many
    /// bytes as the header says. Where the block has fewer bytes, zeros stand behind it.
    ///
    /// After Linux 6.1, drivers/acpi/apei/ghes.c.
    pub fn take(alloc: Global, block: &[u8], limit: u32) -> Result<Image, AllocError>
        ensures bytes { IfOk result (λ image. image.bytes ≡ image_of limit block.now) }
        ensures reason { IfOk result (λ image. image.reason ≡ image_reason limit block.now) }
        ensures fatal { IfOk result (λ image. image.fatal ≡ is_fatal (image_of limit block.now)) }
    {
        let front = padded(alloc, block, HEADER_SIZE)?;
        match Header::at(&front).check(limit) {
            Err(reason) => Ok(Image {
                fatal: is_fatal(&front),
                bytes: Bytes(front),
                reason: Some(reason),
            }),
            Ok(length) => {
                let bytes = padded(alloc, block, length as usize)?;
                Ok(Image {
                    reason: Block::read(&bytes, limit).err(),
                    fatal: is_fatal(&bytes),
                    bytes: Bytes(bytes),
                })
            }
        }
    }
}
