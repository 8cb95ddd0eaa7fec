//! Words as the grammar sees them.

ghost use Rattle.std.specs.Prelude.{◌≡◌};
ghost use Rattle.p10_base.specs.Words.{plain_word};
ghost use Rattle.p10_syn.specs.Symbols.{symbol_of, name_or, punctuator_or};
ghost use Rattle.p10_syn.specs.Tokens.{symbol_at};
ghost use Rattle.p10_syn.specs.Signs.{keywords, punctuators, sign_among};

use crate::sign::Sign;
use crate::sign_table::{keyword, punctuator};
use p10_base::{Kind, Word};

/// A word as the grammar sees it.
#[derive(Clone, Copy, Debug)]
pub enum Token<'s> {
    /// A name that is no keyword.
    Name(&'s [u8]),
    Number(&'s [u8]),
    Char(&'s [u8]),
    Str(&'s [u8]),
    /// A keyword or a punctuator.
    Fixed(Sign),
    /// A p10 pragma.
    Mark(&'s [u8]),
    /// What no tree spells.
    Other(&'s [u8]),
}

/// What the grammar sees of a word.
#[tactic(auto, unfolding(crate::specs::Symbols::symbol_in))]
pub fn token_of<'s>(word: &Word<'s>) -> Token<'s>
    ensures { symbol_at result ≡ symbol_of (plain_word word.now) }
{
    match word.kind {
        Kind::Name => named(word.text),
        Kind::Number => Token::Number(word.text),
        Kind::Char => Token::Char(word.text),
        Kind::Str => Token::Str(word.text),
        Kind::Punct => punctuated(word.text),
        Kind::Mark => Token::Mark(word.text),
    }
}

fn named<'s>(text: &'s [u8]) -> Token<'s>
    ensures { symbol_at result ≡ name_or text.now (sign_among keywords text.now) }
{
    match keyword(text) {
        Some(sign) => Token::Fixed(sign),
        None => Token::Name(text),
    }
}

fn punctuated<'s>(text: &'s [u8]) -> Token<'s>
    ensures { symbol_at result ≡ punctuator_or text.now (sign_among punctuators text.now) }
{
    match punctuator(text) {
        Some(sign) => Token::Fixed(sign),
        None => Token::Other(text),
    }
}
