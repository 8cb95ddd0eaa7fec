//! Dereferences in the list of a macro.

ghost use Rattle.std.specs.Prelude.{◌≡◌, map, false};
ghost use Rattle.p10_base.specs.Words.{plain_word};
ghost use Rattle.p10_pprules.specs.Dereferences.{ends_operand};
ghost use Rattle.p10_pprules.specs.private.Scanning.{dereferences_behind};

use p10_base::{Kind, Word};

/// Whether the words have `->`, or a `*` that stands after no operand.
pub fn dereferences(words: &[Word<'_>]) -> bool
    ensures { result ≡ dereferences_behind false (map plain_word words.now) }
{
    let mut operand = false;
    for word in words {
        if word.is_punctuator(b"->") || (word.is_punctuator(b"*") && !operand) {
            return true;
        }
        operand = may_be_multiplied(word);
    }
    false
}

/// Whether a `*` after the word may multiply.
fn may_be_multiplied(word: &Word<'_>) -> bool
    ensures { result ≡ ends_operand (plain_word word.now) }
{
    matches!(word.kind, Kind::Name | Kind::Number)
        || word.is_punctuator(b")")
        || word.is_punctuator(b"]")
}
