//! What one line of a script answers.
ghost use Rattle.std.specs.Prelude.{◌≡◌, ◌≤◌, ◌&&◌, length, IfOk, IfSome};
ghost use Rattle.std.specs.List.{list_all};
ghost use Rattle.ghes_script.specs.Answer.{is_printable, is_comment, in_order, words_answer, answer_of, IsFirstAnswer};
ghost use Rattle.ghes_script.specs.Words.{words_of};
ghost use Rattle.ghes_script.specs.declared.answer.Answer.TheVariants.{Asks};

use crate::args::asked;
use crate::command::block_of;
use crate::cut::{cut_at, cut_near};
use crate::number::numeral;
use crate::setup::Setup;
use crate::sofar::Sofar;
use crate::words::next_word;
use crate::{ScriptKind, What};
use std::alloc::{AllocError, Global};

/// What one line of a script answers.
#[derive(Debug, Drop)]
pub(crate) enum Answer {
    /// The line is blank or a comment.
    Skipped,
    /// The line asks for something.
    Asks(What),
    /// The line is bad.
    Bad(ScriptKind),
}

/// How many bytes a line may have.
const LINE_LIMIT: usize = 132_000;

// Whether a byte may stand in a line.
fn is_printable(byte: u8) -> bool
    ensures { result ≡ is_printable byte }
{
    byte >= b' ' && byte <= b'~'
}

fn both(one: bool, other: bool) -> bool
    ensures { result ≡ (one && other) }
{
    one && other
}

// Whether each byte may stand in a line. All are looked at, so that the compiler takes many at once.
fn are_printable(text: &[u8]) -> bool
    ensures { result ≡ list_all is_printable text.now }
{
    let mut good = true;
    for byte in text {
        good = both(good, is_printable(*byte));
    }
    good
}

// Whether a word begins a comment.
fn is_comment(word: &[u8]) -> bool
    ensures { result ≡ is_comment word.now }
{
    match word {
        [first, ..] => *first == b'#',
        [] => false,
    }
}

// What a line answers that asks for this or is bad.
fn in_order(sofar: Sofar, asked: Result<What, ScriptKind>) -> Answer
    ensures { result ≡ in_order sofar asked }
{
    match asked {
        Ok(what) => {
            if sofar.lets_in(&what) {
                Answer::Asks(what)
            } else {
                Answer::Bad(ScriptKind::Order)
            }
        }
        Err(kind) => Answer::Bad(kind),
    }
}

// What the words of a line answer.
fn words_answer(
    alloc: Global,
    setup: &Setup<'_>,
    sofar: Sofar,
    text: &[u8],
) -> Result<Answer, AllocError>
    ensures { IfOk result (λ answer. answer ≡ words_answer setup.now sofar (words_of text.now)) }
{
    let Some((name, args)) = next_word(text) else {
        return Ok(Answer::Skipped);
    };
    if is_comment(name) {
        return Ok(Answer::Skipped);
    }
    let asked = asked(alloc, setup, sofar, name, args)?;
    Ok(in_order(sofar, asked))
}

// What the first line asks for that is `nmi`, one space and decimal digits, and what stands behind it: most lines are of this form,
// and their bytes need not be looked at again.
fn called<'a>(setup: &Setup<'_>, bytes: &'a [u8]) -> Option<(What, &'a [u8])>
    ensures { IfSome result (λ found. (sofar : Sofar) → IsFirstAnswer setup.now sofar bytes.now (Asks found.0) found.1.now) }
{
    let behind = bytes.strip_prefix(b"nmi ")?;
    let (word, rest) = cut_near(b'\n', behind);
    if word.len() > 20 {
        return None;
    }
    let id = numeral(10, word)?;
    let found = setup.found(id)?;
    Some((What::Nmi(found.at), rest))
}

// What a line asks for that is `raise`, one space, decimal digits, one space and a block: most other lines are of this form.
fn raised(alloc: Global, setup: &Setup<'_>, text: &[u8]) -> Result<Option<What>, AllocError>
    requires { length text.now ≤ 132000 }
    ensures { IfOk result (λ found. IfSome found (λ what. (sofar : Sofar) → answer_of setup.now sofar text.now ≡ Asks what)) }
{
    let Some(behind) = text.strip_prefix(b"raise ") else {
        return Ok(None);
    };
    let (word, hex) = cut_at(b' ', behind);
    if hex.is_empty() {
        return Ok(None);
    }
    let Some(id) = numeral(10, word) else {
        return Ok(None);
    };
    let Some(found) = setup.found(id) else {
        return Ok(None);
    };
    match block_of(alloc, hex)? {
        Ok(block) => Ok(Some(What::Raise(found.at, block))),
        Err(_) => Ok(None),
    }
}

// What a line answers, without its line feed, behind those so far.
#[tactic(auto, unfolding(crate::specs::Answer::answer_of))]
fn answer_to(
    alloc: Global,
    setup: &Setup<'_>,
    sofar: Sofar,
    text: &[u8],
) -> Result<Answer, AllocError>
    ensures { IfOk result (λ answer. answer ≡ answer_of setup.now sofar text.now) }
{
    if text.len() > LINE_LIMIT {
        return Ok(Answer::Bad(ScriptKind::TooLong));
    }
    if let Some(what) = raised(alloc, setup, text)? {
        return Ok(Answer::Asks(what));
    }
    if !are_printable(text) {
        return Ok(Answer::Bad(ScriptKind::Unprintable));
    }
    words_answer(alloc, setup, sofar, text)
}

/// What the first line answers, behind those so far, and what stands behind it.
pub(crate) fn first_answer<'a>(
    alloc: Global,
    setup: &Setup<'_>,
    sofar: Sofar,
    bytes: &'a [u8],
) -> Result<(Answer, &'a [u8]), AllocError>
    ensures { IfOk result (λ found. IsFirstAnswer setup.now sofar bytes.now found.0 found.1.now) }
{
    if let Some((what, rest)) = called(setup, bytes) {
        return Ok((Answer::Asks(what), rest));
    }
    let (text, rest) = cut_at(b'\n', bytes);
    let answer = answer_to(alloc, setup, sofar, text)?;
    Ok((answer, rest))
}
