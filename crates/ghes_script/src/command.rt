//! The commands of a script but the injection, one function for each form.
ghost use Rattle.std.specs.Prelude.{◌≡◌, IfOk};
ghost use Rattle.ghes_script.specs.Asked.{clock, is_block, block_of, raised, raise, nmi, work, run, peek, fail};
ghost use Rattle.ghes_script.specs.Words.{words_of, Gives};

use crate::number::{number, number_within};
use crate::setup::Setup;
use crate::words::{none, one, two};
use crate::{ScriptKind, What};
use apei_base::Bytes;
use byteorder::{ByteOrder, LittleEndian};
use hex::FromHexError;
use std::alloc::{AllocError, Global};

/// `clock N`
#[tactic(auto, unfolding(crate::specs::Asked::clock))]
pub(crate) fn clock(args: &[u8]) -> Result<What, ScriptKind>
    ensures { result ≡ clock (words_of args.now) }
{
    let word = one(args)?;
    let time = number(word)?;
    Ok(What::Clock(time))
}

// Whether a script may raise these bytes as a block.
fn is_block(bytes: &[u8]) -> bool
    ensures { result ≡ is_block bytes.now }
{
    bytes.len() >= 20 && bytes.len() <= 65_536 && LittleEndian::read_u32(bytes) != 0
}

/// The block that a word spells.
#[tactic(auto, unfolding(crate::specs::Asked::block_of))]
pub(crate) fn block_of(alloc: Global, word: &[u8]) -> Result<Result<Bytes, ScriptKind>, AllocError>
    ensures { IfOk result (λ read. read ≡ block_of word.now) }
{
    match hex::decode(alloc, word) {
        Ok(block) if is_block(&block) => Ok(Ok(Bytes(block))),
        Ok(_) => Ok(Err(ScriptKind::Range)),
        Err(FromHexError::OutOfMemory) => Err(AllocError),
        Err(_) => Ok(Err(ScriptKind::Hex)),
    }
}

// The source of a line `raise`, and the word of its block.
#[tactic(auto, unfolding(crate::specs::Asked::raised))]
fn raised<'a>(setup: &Setup<'_>, args: &'a [u8]) -> Result<(usize, &'a [u8]), ScriptKind>
    ensures { Gives (λ found. (found.0, found.1.now)) result (raised setup.now (words_of args.now)) }
{
    let (source, word) = two(args)?;
    let source = setup.source(source)?;
    Ok((source, word))
}

/// `raise SOURCE HEX`
#[tactic(auto, unfolding(crate::specs::Asked::raise))]
pub(crate) fn raise(
    alloc: Global,
    setup: &Setup<'_>,
    args: &[u8],
) -> Result<Result<What, ScriptKind>, AllocError>
    ensures { IfOk result (λ read. read ≡ raise setup.now (words_of args.now)) }
{
    match raised(setup, args) {
        Ok((source, word)) => match block_of(alloc, word)? {
            Ok(block) => Ok(Ok(What::Raise(source, block))),
            Err(kind) => Ok(Err(kind)),
        },
        Err(kind) => Ok(Err(kind)),
    }
}

/// `nmi SOURCE`
#[tactic(auto, unfolding(crate::specs::Asked::nmi))]
pub(crate) fn nmi(setup: &Setup<'_>, args: &[u8]) -> Result<What, ScriptKind>
    ensures { result ≡ nmi setup.now (words_of args.now) }
{
    let word = one(args)?;
    let source = setup.source(word)?;
    Ok(What::Nmi(source))
}

/// `work`
#[tactic(auto, unfolding(crate::specs::Asked::work))]
pub(crate) fn work(args: &[u8]) -> Result<What, ScriptKind>
    ensures { result ≡ work (words_of args.now) }
{
    none(args)?;
    Ok(What::Work)
}

/// `run N`
#[tactic(auto, unfolding(crate::specs::Asked::run))]
pub(crate) fn run(args: &[u8]) -> Result<What, ScriptKind>
    ensures { result ≡ run (words_of args.now) }
{
    let word = one(args)?;
    let n = number_within(1, 1000, word)?;
    Ok(What::Run(n as u16))
}

/// `peek SOURCE`
#[tactic(auto, unfolding(crate::specs::Asked::peek))]
pub(crate) fn peek(setup: &Setup<'_>, args: &[u8]) -> Result<What, ScriptKind>
    ensures { result ≡ peek setup.now (words_of args.now) }
{
    let word = one(args)?;
    let source = setup.acked_source(word)?;
    Ok(What::Peek(source))
}

/// `fail SOURCE N`
#[tactic(auto, unfolding(crate::specs::Asked::fail))]
pub(crate) fn fail(setup: &Setup<'_>, args: &[u8]) -> Result<What, ScriptKind>
    ensures { result ≡ fail setup.now (words_of args.now) }
{
    let (source, n) = two(args)?;
    let source = setup.source(source)?;
    let n = number_within(1, 16, n)?;
    Ok(What::Fail(source, n))
}
