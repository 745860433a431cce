//! A block that is well formed: judging bytes, and the parts.
ghost use Rattle.std.specs.Prelude.{◌≡◌, ◌<◌, ◌≤◌, ◌+◌, ◌^◌, ℕ, length, IfOk, None};
ghost use Rattle.std.specs.Result.{result_err};
ghost use Rattle.cper_block.specs.Cut.{Walks};

use crate::entry::{ENTRY_HEADER_SIZE, whole_entry};
use crate::header::HEADER_SIZE;
use crate::{Entries, Header, Malformed};
use std::marker::Model;

/// How many bytes a block of a source has at most (own choice).
pub const LARGEST_BLOCK: u32 = 65536;

/// An error status block that is well formed, borrowed from its bytes.
///
/// Source: ACPI 6.5, 18.3.2.7.1, and UEFI 2.10, appendix N.
#[derive(Debug, Drop)]
pub struct Block<'a> {
    header: Header,
    entry_bytes: &'a [u8],
    raw: &'a [u8],
}

impl<'a> Model for Block<'a> {
    ghost use Rattle.std.specs.Prelude.{◌<◌, ◌^◌, length};
    ghost use Rattle.cper_block.specs.Block.{Parts};

    ghost Value = { Parts };

    ghost invariant = { λ b. length b.entry_bytes.now < 2 ^ 32 };

    ghost view = { λ b. record { header = b.header; entry_bytes = b.entry_bytes.now; raw = b.raw.now } };
}

// Walks over the entries that the bytes are to be.
fn walk(bytes: &[u8]) -> Result<(), Malformed>
    requires { length bytes.now < 2 ^ 32 }
    ensures { Walks bytes.now (result_err result) }
{
    let mut rest = bytes;
    let mut whole = 0u32;
    while let Some(length) = whole_entry(rest) {
        rest = rest.split_at(length).1;
        whole += 1;
    }
    if rest.is_empty() {
        Ok(())
    } else if rest.len() < ENTRY_HEADER_SIZE {
        Err(Malformed::Leftover)
    } else {
        Err(Malformed::EntryTruncated(whole))
    }
}

impl<'a> Block<'a> {
    ghost use Rattle.cper_block.specs.Header.{header_size, header_of, block_length, header_reason};
    ghost use Rattle.cper_block.specs.Block.{Judges, data_of, raw_of, largest_block};
    ghost use Rattle.cper_block.specs.Cut.{entries_of};

    // The raw data, where the header says.
    fn raw_at(bytes: &'a [u8], header: Header) -> &'a [u8]
        requires is { header ≡ header_of bytes.now }
        requires whole { block_length header ≤ length bytes.now }
        ensures { result.now ≡ raw_of bytes.now }
    {
        if header.raw_length == 0 {
            return bytes.split_at(0).0;
        }
        let (_front, behind) = bytes.split_at(header.raw_offset as usize);
        behind.split_at(header.raw_length as usize).0
    }

    // The parts, where the header says.
    fn parts(bytes: &'a [u8], header: Header) -> Block<'a>
        requires is { header ≡ header_of bytes.now }
        requires whole { block_length header ≤ length bytes.now }
        requires entries { header_size + header.length ≤ length bytes.now }
        ensures header { result.header ≡ header_of bytes.now }
        ensures entry_bytes { result.entry_bytes ≡ data_of bytes.now }
        ensures raw { result.raw ≡ raw_of bytes.now }
    {
        let (_header, body) = bytes.split_at(HEADER_SIZE);
        let (entry_bytes, _behind) = body.split_at(header.length as usize);
        Block {
            header,
            entry_bytes,
            raw: Block::raw_at(bytes, header),
        }
    }

    // The bytes of the entries, where the header says.
    fn data(bytes: &'a [u8], header: &Header) -> &'a [u8]
        requires is { header.now ≡ header_of bytes.now }
        requires entries { header_size + header.now.length ≤ length bytes.now }
        ensures value { result.now ≡ data_of bytes.now }
        ensures short { length result.now < 2 ^ 32 }
    {
        let (_header, body) = bytes.split_at(HEADER_SIZE);
        body.split_at(header.length as usize).0
    }

    /// Judges the bytes of a block whose header is at hand and was accepted: its entries are walked, and nothing else is read.
    ///
    /// The answer is that of `read`, under each limit that accepts the header.
    #[tactic(auto, using(crate::proofs::BlockLemmas::judged_entries))]
    pub fn judge(bytes: &'a [u8], header: &Header) -> Result<(), Malformed>
        requires is { header.now ≡ header_of bytes.now }
        requires whole { length bytes.now ≡ block_length header.now }
        requires entries { header_size + header.now.length ≤ length bytes.now }
        ensures { (limit : ℕ) → header_reason header.now limit ≡ None → Judges bytes.now limit (result_err result) }
    {
        walk(Block::data(bytes, header))
    }

    /// Reads the block at the front of the bytes, which may have `limit` bytes.
    ///
    /// Bytes behind the block are not read. The reasons are tested in the order of `Malformed`.
    pub fn read(bytes: &'a [u8], limit: u32) -> Result<Block<'a>, Malformed>
        ensures judged { Judges bytes.now limit (result_err result) }
        ensures header { IfOk result (λ block. block.header ≡ header_of bytes.now) }
        ensures entry_bytes { IfOk result (λ block. block.entry_bytes ≡ data_of bytes.now) }
        ensures raw { IfOk result (λ block. block.raw ≡ raw_of bytes.now) }
    {
        if bytes.len() < HEADER_SIZE {
            return Err(Malformed::TooShort);
        }
        let header = Header::at(bytes);
        let at_hand = bytes.len().min(limit as usize) as u32;
        let _length = header.check(at_hand)?;
        let block = Block::parts(bytes, header);
        walk(block.entry_bytes)?;
        Ok(block)
    }

    /// The block at the front of bytes that were judged well formed: nothing is judged again.
    #[tactic(auto, using(crate::proofs::PartLemmas::is_long, crate::proofs::PartLemmas::is_at_hand, crate::proofs::PartLemmas::holds_data))]
    pub fn of(bytes: &'a [u8]) -> Block<'a>
        requires { Judges bytes.now largest_block None }
        ensures header { result.header ≡ header_of bytes.now }
        ensures entry_bytes { result.entry_bytes ≡ data_of bytes.now }
        ensures raw { result.raw ≡ raw_of bytes.now }
    {
        Block::parts(bytes, Header::at(bytes))
    }

    /// What the header says.
    pub fn header(&self) -> Header
        ensures { result ≡ self.now.header }
    {
        self.header
    }

    /// The entries, in order. There are fewer than 2^26 of them.
    #[tactic(auto, using(crate::proofs::CutLemmas::few_entries))]
    pub fn entries(&self) -> Entries<'a>
        ensures value { result ≡ self.now.entry_bytes }
        ensures few { length (entries_of result) < 2 ^ 26 }
    {
        Entries::of(self.entry_bytes)
    }

    /// The raw data, empty where there is none.
    pub fn raw(&self) -> &'a [u8]
        ensures { result.now ≡ self.now.raw }
    {
        self.raw
    }
}
