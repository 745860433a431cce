//! An image on its way from the call that copied it to its fate.
ghost use Rattle.std.specs.Prelude.{◌≡◌, ◌≤◌, [], None, IfOk};

use crate::Buffer;
use cper_block::Malformed;
use std::alloc::{AllocError, Global};

/// The image of a block on its way, with the block's name.
///
/// Source: own choice.
#[derive(Debug, Drop)]
pub struct Packet {
    /// The position of the source among the enabled ones, from 0 on.
    pub source: u16,
    /// The number of the block in its source, from 1 on.
    pub seq: u32,
    /// Why the image is malformed, if it is.
    pub reason: Option<Malformed>,
    pub bytes: Buffer,
}

impl Packet {
    /// A packet of no block, with room for an image of so many bytes.
    pub fn empty(alloc: Global, room: usize) -> Result<Packet, AllocError>
        ensures { IfOk result (λ packet. packet ≡ record { source = 0; seq = 0; reason = None; bytes = record { bytes = []; room = room } }) }
    {
        Ok(Packet {
            source: 0,
            seq: 0,
            reason: None,
            bytes: Buffer::with_room(alloc, room)?,
        })
    }
}
