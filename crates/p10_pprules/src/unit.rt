//! Whether the list of a macro is a complete syntactic unit.

ghost use Rattle.std.specs.Prelude.{◌≡◌, map, IfOk, codes};
ghost use Rattle.p10_base.specs.Words.{plain_word};
ghost use Rattle.p10_pprules.specs.Units.{is_number, is_while_zero};
ghost use Rattle.p10_pprules.specs.private.Scanning.{is_unit, is_negative, is_call, is_do_while, is_short, is_long_unit};

use crate::bracket::Bracket;
use crate::group::{after_group, is_group};
use p10_base::{Kind, Word};
use std::alloc::{AllocError, Global};

/// Whether the words are one of the forms of a complete unit: nothing, one word, `-` and a number, one
/// group in `( )` or `{ }`, a name and one group in `( )`, or `do`, a group in `{ }` and `while (0)`.
pub fn is_complete(alloc: Global, words: &[Word<'_>]) -> Result<bool, AllocError>
    ensures { IfOk result (λ is. is ≡ is_unit (map plain_word words.now)) }
{
    if is_short_list(words) || is_negative_number(words) {
        return Ok(true);
    }
    is_long(alloc, words)
}

/// Whether the words are a unit that may have many words.
fn is_long(alloc: Global, words: &[Word<'_>]) -> Result<bool, AllocError>
    ensures { IfOk result (λ is. is ≡ is_long_unit (map plain_word words.now)) }
{
    if is_group(alloc, Bracket::Round, words)? {
        return Ok(true);
    }
    if is_group(alloc, Bracket::Curly, words)? {
        return Ok(true);
    }
    if is_named_group(alloc, words)? {
        return Ok(true);
    }
    is_single_pass(alloc, words)
}

/// Whether there is at most one word.
fn is_short_list(words: &[Word<'_>]) -> bool
    ensures { result ≡ is_short (map plain_word words.now) }
{
    words.len() <= 1
}

/// Whether the words are `-` and a number.
fn is_negative_number(words: &[Word<'_>]) -> bool
    ensures { result ≡ is_negative (map plain_word words.now) }
{
    match words {
        [minus, number] => minus.is_punctuator(b"-") && matches!(number.kind, Kind::Number),
        _ => false,
    }
}

/// Whether the words are a name and one group in `( )`.
fn is_named_group(alloc: Global, words: &[Word<'_>]) -> Result<bool, AllocError>
    ensures { IfOk result (λ is. is ≡ is_call (map plain_word words.now)) }
{
    match words {
        [name, others @ ..] if matches!(name.kind, Kind::Name) => is_group(
            alloc,
            Bracket::Round,
            others,
        ),
        _ => Ok(false),
    }
}

/// Whether the words are `do`, a group in `{ }` and `while (0)`.
fn is_single_pass(alloc: Global, words: &[Word<'_>]) -> Result<bool, AllocError>
    ensures { IfOk result (λ is. is ≡ is_do_while (map plain_word words.now)) }
{
    match words {
        [keyword, others @ ..] if keyword.is_name(b"do") => {
            match after_group(alloc, Bracket::Curly, others)? {
                Some(rest) => Ok(ends_single_pass(rest)),
                None => Ok(false),
            }
        }
        _ => Ok(false),
    }
}

/// Whether the words are `while (0)`.
fn ends_single_pass(words: &[Word<'_>]) -> bool
    ensures { result ≡ is_while_zero (map plain_word words.now) }
{
    match words {
        [keyword, opening, zero, closing] => {
            keyword.is_name(b"while")
                && opening.is_punctuator(b"(")
                && is_zero(zero)
                && closing.is_punctuator(b")")
        }
        _ => false,
    }
}

/// Whether the word is the number `0`.
fn is_zero(word: &Word<'_>) -> bool
    ensures { result ≡ is_number (codes "0") (plain_word word.now) }
{
    matches!(word.kind, Kind::Number) && word.text == b"0".as_slice()
}
