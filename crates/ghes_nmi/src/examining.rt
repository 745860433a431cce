//! What an image says: malformed, fatal, or news.
ghost use Rattle.std.specs.Prelude.{◌≡◌, ◌≤◌, ◌+◌, ℕ, None, length};
ghost use Rattle.cper_block.specs.Header.{header_size, header_of, block_length, header_reason};
ghost use Rattle.ghes_nmi.specs.Steps.{examined};

use cper_block::{Block, Header, Malformed};

/// What an image says.
#[derive(Clone, Copy, Debug, PartialEq, Eq)]
pub enum Examined {
    /// It is no well-formed block, for this reason.
    Malformed(Malformed),
    /// It is well formed, and fatal.
    Fatal,
    /// It is well formed, and not fatal.
    News,
}

/// Examines the image of a block whose header is at hand and was accepted: what `examine` says under each limit that accepts the
/// header. It makes no access, and reads no header again.
///
/// After Linux 6.1, drivers/firmware/efi/cper.c.
#[inline(always)]
pub fn examine_rest(image: &[u8], header: &Header) -> Examined
    requires is { header.now ≡ header_of image.now }
    requires whole { length image.now ≡ block_length header.now }
    requires entries { header_size + header.now.length ≤ length image.now }
    ensures { (limit : ℕ) → header_reason header.now limit ≡ None → result ≡ examined image.now limit }
{
    match Block::judge(image, header) {
        Err(reason) => Examined::Malformed(reason),
        Ok(()) if header.severity().is_fatal() => Examined::Fatal,
        Ok(()) => Examined::News,
    }
}

/// Examines an image under the limit of its source. It makes no access.
///
/// After Linux 6.1, drivers/firmware/efi/cper.c.
#[inline(always)]
pub fn examine(image: &[u8], limit: u32) -> Examined
    ensures { result ≡ examined image.now limit }
{
    match Block::read(image, limit) {
        Err(reason) => Examined::Malformed(reason),
        Ok(block) if block.header().severity().is_fatal() => Examined::Fatal,
        Ok(_) => Examined::News,
    }
}
