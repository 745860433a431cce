//! The texts of a block that is reported, of one that is dropped, of one alone and of a malformed one.
ghost use Rattle.std.specs.Prelude.{◌≡◌, ◌++◌, OnOk, OnErr, codes, None};
ghost use Rattle.std.specs.Fmt.{decimal};
ghost use Rattle.cper_block.specs.Block.{Judges, largest_block};
ghost use Rattle.cper_block.specs.Text.{malformed_rest, malformed_text};
ghost use Rattle.cper_text.specs.Body.{block_text};
ghost use Rattle.cper_text.specs.Report.{report_line, report_text, drop_line, drop_text, reason_line, malformed_lines};

use crate::body::add_block;
use crate::bytes::bytes_line;
use crate::text::Text;
use cper_block::Malformed;
use std::alloc::{AllocError, Global};

/// Adds a source's id and a block's number behind a head.
#[tactic(auto, using(crate::proofs::Joining::grouped))]
pub fn source_and_block(text: &mut Text, head: &str, id: u16, seq: u32) -> Result<(), AllocError>
    ensures ok { OnOk result (text.new.added ≡ text.old.added ++ head.now ++ decimal id ++ codes " block " ++ decimal seq) }
    ensures front { text.new.front ≡ text.old.front }
{
    text.put(head.as_bytes())?;
    text.put_number(u32::from(id))?;
    text.put(b" block ")?;
    text.put_number(seq)
}

// Adds the line of a reported block.
#[tactic(auto, using(crate::proofs::Joining::grouped), unfolding(crate::specs::Report::report_line))]
fn report_line(text: &mut Text, id: u16, seq: u32) -> Result<(), AllocError>
    ensures ok { OnOk result (text.new.added ≡ text.old.added ++ report_line id seq) }
    ensures front { text.new.front ≡ text.old.front }
{
    source_and_block(text, "report source ", id, seq)?;
    text.put(b"\n")
}

// Adds how the words for a malformed block go on where there is a number of entries.
#[tactic(auto, using(crate::proofs::Joining::grouped))]
fn reason_rest(text: &mut Text, reason: Malformed) -> Result<(), AllocError>
    ensures ok { OnOk result (text.new.added ≡ text.old.added ++ malformed_rest reason) }
    ensures front { text.new.front ≡ text.old.front }
{
    match reason {
        Malformed::EntryTruncated(whole) => {
            text.put_number(whole)?;
            text.put(b" truncated")
        }
        _ => Ok(()),
    }
}

/// Adds the words for a malformed block.
#[tactic(auto, using(crate::proofs::Joining::grouped))]
pub fn reason_text(text: &mut Text, reason: Malformed) -> Result<(), AllocError>
    ensures ok { OnOk result (text.new.added ≡ text.old.added ++ malformed_text reason) }
    ensures front { text.new.front ≡ text.old.front }
{
    text.put(reason.word().as_bytes())?;
    reason_rest(text, reason)
}

// Adds the words for a malformed block and the end of their line.
#[tactic(auto, using(crate::proofs::Joining::grouped))]
fn reason_end(text: &mut Text, reason: Malformed) -> Result<(), AllocError>
    ensures ok { OnOk result (text.new.added ≡ text.old.added ++ malformed_text reason ++ codes "\n") }
    ensures front { text.new.front ≡ text.old.front }
{
    reason_text(text, reason)?;
    text.put(b"\n")
}

// Adds the line of a dropped block.
#[tactic(auto, using(crate::proofs::Joining::grouped), unfolding(crate::specs::Report::drop_line))]
fn drop_line(text: &mut Text, id: u16, seq: u32, reason: Malformed) -> Result<(), AllocError>
    ensures ok { OnOk result (text.new.added ≡ text.old.added ++ drop_line id seq reason) }
    ensures front { text.new.front ≡ text.old.front }
{
    source_and_block(text, "dropped source ", id, seq)?;
    text.put(b": ")?;
    reason_end(text, reason)
}

/// Adds the text of a reported block.
#[tactic(auto, using(crate::proofs::Joining::grouped), unfolding(crate::specs::Report::report_text))]
pub fn add_report(text: &mut Text, id: u16, seq: u32, block: &[u8]) -> Result<(), AllocError>
    requires { Judges block.now largest_block None }
    ensures ok { OnOk result (text.new.added ≡ text.old.added ++ report_text id seq block.now) }
    ensures front { text.new.front ≡ text.old.front }
{
    report_line(text, id, seq)?;
    add_block(text, block)
}

/// Appends the text of a block that is reported: its source's id, its number, and its lines.
///
/// `block` begins with a well-formed block of at most 65,536 bytes; what lies behind it is not printed.
/// After an error `into` is as it was. Source of the words: own choice.
pub fn report_text(
    alloc: Global,
    into: &mut Vec<u8>,
    id: u16,
    seq: u32,
    block: &[u8],
) -> Result<(), AllocError>
    requires { Judges block.now largest_block None }
    ensures ok { OnOk result (into.new.items ≡ into.old.items ++ report_text id seq block.now) }
    ensures err { OnErr result (into.new.items ≡ into.old.items) }
{
    let mut text = Text::open(alloc, into);
    let done = add_report(&mut text, id, seq, block);
    text.close(into, done)
}

/// Adds the text of a dropped block.
#[tactic(auto, using(crate::proofs::Joining::grouped), unfolding(crate::specs::Report::drop_text))]
pub fn add_drop(
    text: &mut Text,
    id: u16,
    seq: u32,
    reason: Malformed,
    bytes: &[u8],
) -> Result<(), AllocError>
    ensures ok { OnOk result (text.new.added ≡ text.old.added ++ drop_text id seq reason bytes.now) }
    ensures front { text.new.front ≡ text.old.front }
{
    drop_line(text, id, seq, reason)?;
    bytes_line(text, "  data ", bytes)
}

/// Appends the text of a block that is dropped as malformed: its source's id, its number, why, and its bytes.
///
/// After an error `into` is as it was. Source of the words: own choice.
pub fn drop_text(
    alloc: Global,
    into: &mut Vec<u8>,
    id: u16,
    seq: u32,
    reason: &Malformed,
    bytes: &[u8],
) -> Result<(), AllocError>
    ensures ok { OnOk result (into.new.items ≡ into.old.items ++ drop_text id seq reason.now bytes.now) }
    ensures err { OnErr result (into.new.items ≡ into.old.items) }
{
    let mut text = Text::open(alloc, into);
    let done = add_drop(&mut text, id, seq, *reason, bytes);
    text.close(into, done)
}

/// Appends the lines of a block: its severity, its entries in order, and how many raw bytes it has.
///
/// `block` begins with a well-formed block of at most 65,536 bytes; what lies behind it is not printed.
/// After an error `into` is as it was. Source of the words: own choice.
pub fn block_text(alloc: Global, into: &mut Vec<u8>, block: &[u8]) -> Result<(), AllocError>
    requires { Judges block.now largest_block None }
    ensures ok { OnOk result (into.new.items ≡ into.old.items ++ block_text block.now) }
    ensures err { OnErr result (into.new.items ≡ into.old.items) }
{
    let mut text = Text::open(alloc, into);
    let done = add_block(&mut text, block);
    text.close(into, done)
}

/// Adds the lines of a malformed block.
#[tactic(auto, using(crate::proofs::Joining::grouped), unfolding(crate::specs::Report::malformed_lines, crate::specs::Report::reason_line))]
pub fn add_malformed(text: &mut Text, reason: Malformed, bytes: &[u8]) -> Result<(), AllocError>
    ensures ok { OnOk result (text.new.added ≡ text.old.added ++ malformed_lines reason bytes.now) }
    ensures front { text.new.front ≡ text.old.front }
{
    text.put(b"  malformed ")?;
    reason_end(text, reason)?;
    bytes_line(text, "  data ", bytes)
}

/// Appends the lines of a malformed block: why it is, and its bytes.
///
/// After an error `into` is as it was.
pub fn malformed_lines(
    alloc: Global,
    into: &mut Vec<u8>,
    reason: &Malformed,
    bytes: &[u8],
) -> Result<(), AllocError>
    ensures ok { OnOk result (into.new.items ≡ into.old.items ++ malformed_lines reason.now bytes.now) }
    ensures err { OnErr result (into.new.items ≡ into.old.items) }
{
    let mut text = Text::open(alloc, into);
    let done = add_malformed(&mut text, *reason, bytes);
    text.close(into, done)
}
