//! The numbers of a script.
ghost use Rattle.std.specs.Prelude.{◌≡◌, ◌+◌, ◌*◌, ◌^◌, ◌<◌, ◌≤◌, IfOk};
ghost use Rattle.std.specs.Char.{digit_value};
ghost use Rattle.std.specs.Option.{SomeIff};
ghost use Rattle.ghes_script.specs.Number.{numeral, is_marked, number_of, number, number_within, number_below};

use crate::ScriptKind;

// The value of a digit or a letter, and 36 for any other byte.
fn digit_value(byte: u8) -> u64
    ensures { result ≡ digit_value byte }
{
    match byte {
        b'0'..=b'9' => u64::from(byte - b'0'),
        b'A'..=b'Z' => u64::from(byte - 55),
        b'a'..=b'z' => u64::from(byte - 87),
        _ => 36,
    }
}

// A number with one digit more, if it is below 2^64.
fn with_digit(value: u64, base: u64, digit: u64) -> Option<u64>
    ensures { SomeIff result (value * base + digit < 2 ^ 64) (value * base + digit) }
{
    value.checked_mul(base)?.checked_add(digit)
}

/// The number that digits of a base spell.
pub(crate) fn numeral(base: u64, digits: &[u8]) -> Option<u64>
    requires { 0 < base }
    ensures { result ≡ numeral base digits.now }
{
    if digits.is_empty() {
        return None;
    }
    let mut value = 0;
    for byte in digits {
        let digit = digit_value(*byte);
        if digit >= base {
            return None;
        }
        value = with_digit(value, base, digit)?;
    }
    Some(value)
}

// Whether a word begins with `0x`.
fn is_marked(word: &[u8]) -> bool
    ensures { result ≡ is_marked word.now }
{
    word.len() >= 2 && word[0] == b'0' && word[1] == b'x'
}

// The number that a word spells.
#[tactic(auto, unfolding(crate::specs::Number::number_of))]
fn number_of(word: &[u8]) -> Option<u64>
    ensures { result ≡ number_of word.now }
{
    if !is_marked(word) {
        return numeral(10, word);
    }
    if word.len() > 18 {
        return None;
    }
    numeral(16, word.split_at(2).1)
}

/// The number that a word spells.
pub(crate) fn number(word: &[u8]) -> Result<u64, ScriptKind>
    ensures { result ≡ number word.now }
{
    match number_of(word) {
        Some(number) => Ok(number),
        None => Err(ScriptKind::Number),
    }
}

/// The number that a word spells, from `low` to `high`.
#[tactic(auto, unfolding(crate::specs::Number::number_within))]
pub(crate) fn number_within(low: u64, high: u64, word: &[u8]) -> Result<u64, ScriptKind>
    ensures value { result ≡ number_within low high word.now }
    ensures fits { IfOk result (λ n. (low ≤ n) × (n ≤ high)) }
{
    let n = number(word)?;
    if low <= n && n <= high {
        Ok(n)
    } else {
        Err(ScriptKind::Range)
    }
}

/// The number that a word spells, below a bound.
#[tactic(auto, unfolding(crate::specs::Number::number_below))]
pub(crate) fn number_below(bound: u64, word: &[u8]) -> Result<u64, ScriptKind>
    ensures value { result ≡ number_below bound word.now }
    ensures fits { IfOk result (λ n. n < bound) }
{
    let n = number(word)?;
    if n < bound {
        Ok(n)
    } else {
        Err(ScriptKind::Range)
    }
}
