//! Brackets.

ghost use Rattle.std.specs.Prelude.{◌≡◌};
ghost use Rattle.p10_base.specs.Words.{plain_word};
ghost use Rattle.p10_pprules.specs.Groups.{opens};
ghost use Rattle.p10_pprules.specs.private.Scanning.{side_of, is_same};

use p10_base::Word;

/// A kind of brackets.
#[derive(Clone, Copy)]
pub enum Bracket {
    /// `(` and `)`.
    Round,
    /// `[` and `]`.
    Square,
    /// `{` and `}`.
    Curly,
}

/// What a word is to groups in brackets.
#[derive(Clone, Copy)]
pub enum Side {
    /// It begins a group.
    Opening(Bracket),
    /// It ends a group.
    Closing(Bracket),
    /// It is no bracket.
    Neither,
}

/// What the word is to groups in brackets.
pub fn side_of_word(word: &Word<'_>) -> Side
    ensures { result ≡ side_of (plain_word word.now) }
{
    if word.is_punctuator(b"(") {
        Side::Opening(Bracket::Round)
    } else if word.is_punctuator(b"[") {
        Side::Opening(Bracket::Square)
    } else if word.is_punctuator(b"{") {
        Side::Opening(Bracket::Curly)
    } else if word.is_punctuator(b")") {
        Side::Closing(Bracket::Round)
    } else if word.is_punctuator(b"]") {
        Side::Closing(Bracket::Square)
    } else if word.is_punctuator(b"}") {
        Side::Closing(Bracket::Curly)
    } else {
        Side::Neither
    }
}

/// Whether the word begins a group in these brackets.
pub fn begins(bracket: Bracket, word: &Word<'_>) -> bool
    ensures { result ≡ opens bracket (plain_word word.now) }
{
    match bracket {
        Bracket::Round => word.is_punctuator(b"("),
        Bracket::Square => word.is_punctuator(b"["),
        Bracket::Curly => word.is_punctuator(b"{"),
    }
}

/// Whether both are of one kind.
pub fn is_same_kind(left: Bracket, right: Bracket) -> bool
    ensures { result ≡ is_same left right }
{
    match (left, right) {
        (Bracket::Round, Bracket::Round) => true,
        (Bracket::Square, Bracket::Square) => true,
        (Bracket::Curly, Bracket::Curly) => true,
        _ => false,
    }
}
