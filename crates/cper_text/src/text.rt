//! A text that grows behind what stood before, and is cut back where memory is short.
ghost use Rattle.std.specs.Prelude.{◌≡◌, ◌++◌, [], OnOk, OnErr};
ghost use Rattle.std.specs.Fmt.{decimal};

use itoa::Buffer;
use std::alloc::{AllocError, Global};
use std::marker::Model;
use std::mem;

/// Bytes, of which those from `start` on are the text that grows.
#[derive(Debug, Drop)]
pub struct Text {
    bytes: Vec<u8>,
    start: usize,
}

impl Model for Text {
    ghost use Rattle.std.specs.Prelude.{◌≤◌, length, take, drop};
    ghost use Rattle.cper_text.specs.Grown.{Grown};

    ghost Value = { Grown };

    ghost invariant = { λ t. t.start ≤ length t.bytes.items };

    ghost view = { λ t. record { front = take t.start t.bytes.items; added = drop t.start t.bytes.items } };
}

impl Text {
    /// Takes the bytes, behind which the text is to grow.
    #[tactic(auto, using(crate::proofs::GrownLemmas::all_front, crate::proofs::GrownLemmas::none_added))]
    pub fn open(alloc: Global, into: &mut Vec<u8>) -> Text
        ensures front { result.front ≡ into.old.items }
        ensures added { result.added ≡ [] }
    {
        let bytes = mem::replace(into, Vec::new(alloc));
        let start = bytes.len();
        Text { bytes, start }
    }

    /// Adds a piece.
    #[tactic(auto, using(crate::proofs::GrownLemmas::front_kept, crate::proofs::GrownLemmas::piece_added))]
    pub fn put(&mut self, piece: &[u8]) -> Result<(), AllocError>
        ensures ok { OnOk result (self.new.added ≡ self.old.added ++ piece.now) }
        ensures front { self.new.front ≡ self.old.front }
    {
        self.bytes.extend_from_slice(piece)?;
        Ok(())
    }

    /// Adds a number, in decimal digits.
    pub fn put_number(&mut self, number: u32) -> Result<(), AllocError>
        ensures ok { OnOk result (self.new.added ≡ self.old.added ++ decimal number) }
        ensures front { self.new.front ≡ self.old.front }
    {
        let mut buffer = Buffer::new();
        self.put(buffer.format(number).as_bytes())
    }

    /// Adds a count, in decimal digits.
    pub fn put_count(&mut self, count: u64) -> Result<(), AllocError>
        ensures ok { OnOk result (self.new.added ≡ self.old.added ++ decimal count) }
        ensures front { self.new.front ≡ self.old.front }
    {
        let mut buffer = Buffer::new();
        self.put(buffer.format(count).as_bytes())
    }

    /// Gives the bytes back: with the text where it is done, and else as they were.
    #[tactic(auto, using(crate::proofs::GrownLemmas::front_and_added))]
    pub fn close(self, into: &mut Vec<u8>, done: Result<(), AllocError>) -> Result<(), AllocError>
        ensures ok { OnOk result (into.new.items ≡ self.front ++ self.added) }
        ensures err { OnErr result (into.new.items ≡ self.front) }
        ensures same { result ≡ done }
    {
        let Text { mut bytes, start } = self;
        if done.is_err() {
            bytes.truncate(start);
        }
        *into = bytes;
        done
    }
}
