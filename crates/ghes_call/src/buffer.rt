//! Memory for the bytes of an image, made before it is needed.
ghost use Rattle.std.specs.Prelude.{◌≡◌, ◌≤◌, ◌++◌, [], length, drop, IfOk};

use std::alloc::{AllocError, Global};
use std::marker::Model;

/// Bytes in memory that was made before. A contract sees the bytes, and how many there is room for.
///
/// What has room for an image takes no memory when the image is put there. Source: own choice.
#[derive(Debug, Drop)]
pub struct Buffer {
    /// All that there is room for. What lies behind the bytes means nothing.
    pub memory: Vec<u8>,
    /// How many bytes it has.
    pub len: usize,
}

impl Model for Buffer {
    ghost use Rattle.std.specs.Prelude.{◌≤◌, length, take};
    ghost use Rattle.ghes_call.specs.Buffer.{BufferSeen};

    ghost Value = { BufferSeen };

    ghost view = { λ b. record { bytes = take b.len b.memory.items; room = length b.memory.items } };

    ghost invariant = { λ b. b.len ≤ length b.memory.items };
}

// Puts these bytes in front of what is behind as many.
fn put_front(memory: &mut [u8], bytes: &[u8])
    requires { length bytes.now ≤ length memory.old }
    ensures { memory.new ≡ bytes.now ++ drop (length bytes.now) memory.old }
{
    let (front, _behind) = memory.split_at_mut(bytes.len());
    front.copy_from_slice(bytes);
}

impl Buffer {
    /// Nothing yet, with room for so many bytes.
    pub fn with_room(alloc: Global, room: usize) -> Result<Buffer, AllocError>
        ensures { IfOk result (λ buffer. buffer ≡ record { bytes = []; room = room }) }
    {
        Ok(Buffer {
            memory: vec![in alloc; 0u8; room]?,
            len: 0,
        })
    }

    /// Nothing, with room for nothing. No memory is taken.
    pub fn none(alloc: Global) -> Buffer
        ensures { result ≡ record { bytes = []; room = 0 } }
    {
        Buffer {
            memory: Vec::new(alloc),
            len: 0,
        }
    }

    /// The bytes, lent.
    pub fn as_slice(&self) -> &[u8]
        ensures { result.now ≡ self.now.bytes }
    {
        self.memory.split_at(self.len).0
    }

    /// Empties it. The memory stays.
    pub fn clear(&mut self)
        ensures empty { self.new.bytes ≡ [] }
        ensures room { self.old.room ≤ self.new.room }
    {
        self.len = 0;
    }

    /// Puts these bytes in the place of what it holds. No memory is taken.
    pub fn fill(&mut self, bytes: &[u8])
        requires { length bytes.now ≤ self.old.room }
        ensures value { self.new.bytes ≡ bytes.now }
        ensures room { self.old.room ≤ self.new.room }
    {
        self.len = bytes.len();
        put_front(&mut self.memory, bytes);
    }

    /// Makes it so many bytes long. What they are is what was in the memory. No memory is taken.
    pub fn set_len(&mut self, count: usize)
        requires { count ≤ self.old.room }
        ensures length { length self.new.bytes ≡ count }
        ensures room { self.old.room ≤ self.new.room }
    {
        self.len = count;
    }
}
