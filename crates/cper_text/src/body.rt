//! The lines of a block.
ghost use Rattle.std.specs.Prelude.{◌≡◌, ◌++◌, OnOk, None};
ghost use Rattle.cper_block.specs.Block.{Judges, largest_block};
ghost use Rattle.cper_text.specs.Body.{severity_line, raw_line, block_text};

use crate::entry::{entries_text, severity_end};
use crate::text::Text;
use cper_block::{Block, Severity};
use std::alloc::AllocError;

// Adds the line of a block's severity.
#[tactic(auto, using(crate::proofs::Joining::grouped), unfolding(crate::specs::Body::severity_line))]
fn severity_line(text: &mut Text, severity: Severity) -> Result<(), AllocError>
    ensures ok { OnOk result (text.new.added ≡ text.old.added ++ severity_line severity) }
    ensures front { text.new.front ≡ text.old.front }
{
    severity_end(text, "  severity ", severity)
}

// Adds the line of so many raw bytes, where there are some.
#[tactic(auto, using(crate::proofs::Joining::grouped), unfolding(crate::specs::Body::raw_line))]
fn raw_line(text: &mut Text, length: u32) -> Result<(), AllocError>
    ensures ok { OnOk result (text.new.added ≡ text.old.added ++ raw_line length) }
    ensures front { text.new.front ≡ text.old.front }
{
    if length == 0 {
        return Ok(());
    }
    text.put(b"  raw ")?;
    text.put_number(length)?;
    text.put(b" bytes\n")
}

/// Adds the lines of a well-formed block, which is not judged again.
#[tactic(auto, using(crate::proofs::Joining::grouped), unfolding(crate::specs::Body::block_text))]
pub fn add_block(text: &mut Text, block: &[u8]) -> Result<(), AllocError>
    requires { Judges block.now largest_block None }
    ensures ok { OnOk result (text.new.added ≡ text.old.added ++ block_text block.now) }
    ensures front { text.new.front ≡ text.old.front }
{
    let block = Block::of(block);
    let header = block.header();
    severity_line(text, header.severity())?;
    entries_text(text, block.entries())?;
    raw_line(text, header.raw_length)
}
