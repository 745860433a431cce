//! The text of a block alone.
ghost use Rattle.std.specs.Prelude.{◌≡◌, ◌++◌, OnOk, IfOk, None};
ghost use Rattle.std.specs.String.{string_bytes};
ghost use Rattle.cper_block.specs.Block.{largest_block, Judges};
ghost use Rattle.cper_block.specs.Header.{header_of, block_length};
ghost use Rattle.cper_text.specs.Body.{block_text};
ghost use Rattle.ghes_replay.specs.Decode.{block_line, malformed_line, Decodes};
ghost use Rattle.ghes_replay.specs.Done.{Prints, Does};
ghost use Rattle.ghes_replay.specs.Task.{Decode};
ghost use Rattle.ghes_replay.specs.Views.{done_of};

use crate::done::Done;
use crate::loading::load_file;
use crate::{InputFile, Refusal};
use cper_block::{Block, Header, LARGEST_BLOCK, Malformed};
use ghes_outside::Files;
use ghes_report::block_text;
use std::alloc::{AllocError, Global};

// The line of a block of so many bytes.
fn block_line(alloc: Global, count: u64) -> Result<String, AllocError>
    ensures { IfOk result (λ line. string_bytes line ≡ block_line count) }
{
    format!(in alloc; "block of {count} bytes\n")
}

// The line of bytes that are no block.
fn malformed_line(alloc: Global, reason: Malformed) -> Result<String, AllocError>
    ensures { IfOk result (λ line. string_bytes line ≡ malformed_line reason) }
{
    format!(in alloc; "malformed {reason}\n")
}

// The lines of the block that the bytes begin with: how long it is, and its body.
fn whole_text(alloc: Global, header: &Header, bytes: &[u8]) -> Result<Vec<u8>, AllocError>
    requires block { Judges bytes.now largest_block None }
    requires front { header.now ≡ header_of bytes.now }
    ensures { IfOk result (λ text. text.items ≡ block_line (block_length (header_of bytes.now))
        ++ block_text bytes.now) }
{
    let mut text = block_line(alloc, header.block_length())?.into_bytes();
    block_text(alloc, &mut text, bytes)?;
    Ok(text)
}

// Prints the block that the bytes begin with, or the reason why they begin with none. Bytes behind the block are not read.
fn print_block(alloc: Global, bytes: &[u8]) -> Result<Done, Refusal>
    ensures { Prints (Decodes bytes.now) (done_of result) }
{
    match Block::read(bytes, LARGEST_BLOCK) {
        Ok(block) => {
            let text = whole_text(alloc, &block.header(), bytes)?;
            Ok(Done { ledger: None, text })
        }
        Err(reason) => {
            let text = malformed_line(alloc, reason)?.into_bytes();
            Ok(Done { ledger: None, text })
        }
    }
}

/// Decodes the block of a file.
pub(crate) fn decode<F: Files>(alloc: Global, files: &mut F, block: &str) -> Result<Done, Refusal>
    ensures { Does (F.seen files.old) (F.seen files.new) (Decode block.now) (done_of result) }
{
    match load_file(alloc, files, InputFile::Block, block) {
        Ok(bytes) => print_block(alloc, &bytes),
        Err(refusal) => Err(refusal),
    }
}
