//! The constants of a condition (C99 6.10.1p4).

ghost use Rattle.std.specs.Prelude.{◌≡◌, option_map};
ghost use Rattle.p10_base.specs.Words.{plain_word};
ghost use Rattle.p10_direct.specs.Constants.{constant_of, number_constant, signed_constant};
ghost use Rattle.p10_direct.specs.Tokens.{token_of};
ghost use Rattle.p10_direct.specs.private.Valued.{constant_read};

use crate::value::Constant;
use p10_base::{Kind, Word};
use p10_lex::{Integer, character_value, integer_constant};

/// The constant that a word is: a number, a character, or 0 for a name.
#[tactic(auto, unfolding(crate::specs::Constants::constant_of))]
pub fn constant(word: &Word<'_>) -> Option<Constant>
    ensures { option_map constant_read result ≡ constant_of (token_of (plain_word word.now)) }
{
    match word.kind {
        Kind::Number => match integer_constant(word.text) {
            Some(integer) => Some(number(integer)),
            None => None,
        },
        Kind::Char => match character_value(word.text) {
            Some(value) => Some(signed(value)),
            None => None,
        },
        Kind::Name => Some(signed(0)),
        _ => None,
    }
}

/// An integer constant, which is unsigned where it has a `u` or is over 2^63 - 1.
fn number(integer: Integer) -> Constant
    ensures { constant_read result ≡ number_constant integer }
{
    Constant {
        value: i128::from(integer.value),
        unsigned: integer.suffix.is_unsigned() || 9_223_372_036_854_775_807 < integer.value,
    }
}

/// A constant of a signed type.
fn signed(value: i128) -> Constant
    ensures { constant_read result ≡ signed_constant value }
{
    Constant {
        value,
        unsigned: false,
    }
}
