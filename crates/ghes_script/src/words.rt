//! The words of a line, one behind another.
ghost use Rattle.std.specs.Prelude.{◌≡◌, ◌≢◌, ◌<◌, ◌↔◌, [], ◌∷◌, length, slice_index, IsTrue, MatchOption};
ghost use Rattle.ghes_script.specs.Words.{words_of, none_of, one_of, two_of, Gives};

use crate::ScriptKind;
use crate::cut::cut_at;

// Whether a text begins with a space.
fn begins_with_space(text: &[u8]) -> bool
    ensures { IsTrue result ↔ ((0 < length text.now) × (slice_index text.now 0 ≡ 32)) }
{
    !text.is_empty() && text[0] == b' '
}

// What stands behind the spaces that a text begins with.
fn without_spaces(text: &[u8]) -> &[u8]
    ensures words { words_of result.now ≡ words_of text.now }
    ensures first { 0 < length result.now → slice_index result.now 0 ≢ 32 }
{
    let mut rest = text;
    while begins_with_space(rest) {
        rest = rest.split_at(1).1;
    }
    rest
}

/// The first word of a text, and what stands behind it.
pub(crate) fn next_word(text: &[u8]) -> Option<(&[u8], &[u8])>
    ensures { MatchOption result (words_of text.now ≡ [])
        (λ found. words_of text.now ≡ found.0.now ∷ words_of found.1.now) }
{
    let text = without_spaces(text);
    if text.is_empty() {
        return None;
    }
    Some(cut_at(b' ', text))
}

/// That a text has no words.
pub(crate) fn none(text: &[u8]) -> Result<(), ScriptKind>
    ensures { result ≡ none_of (words_of text.now) }
{
    match next_word(text) {
        Some(_) => Err(ScriptKind::Words),
        None => Ok(()),
    }
}

/// The one word of a text.
pub(crate) fn one(text: &[u8]) -> Result<&[u8], ScriptKind>
    ensures { Gives (λ word. word.now) result (one_of (words_of text.now)) }
{
    match next_word(text) {
        Some((first, rest)) => {
            none(rest)?;
            Ok(first)
        }
        None => Err(ScriptKind::Words),
    }
}

/// The two words of a text.
pub(crate) fn two(text: &[u8]) -> Result<(&[u8], &[u8]), ScriptKind>
    ensures { Gives (λ words. (words.0.now, words.1.now)) result (two_of (words_of text.now)) }
{
    match next_word(text) {
        Some((first, rest)) => Ok((first, one(rest)?)),
        None => Err(ScriptKind::Words),
    }
}
