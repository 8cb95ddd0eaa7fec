//! The names of directives.

ghost use Rattle.std.specs.Prelude.{◌≡◌};
ghost use Rattle.p10_base.specs.Words.{plain_word};
ghost use Rattle.p10_direct.specs.Keywords.{keyword_of};

use p10_base::Word;

/// The name of a directive (C99 6.10).
#[derive(Clone, Copy)]
pub enum Keyword {
    Include,
    Define,
    Undef,
    If,
    Ifdef,
    Ifndef,
    Elif,
    Else,
    Endif,
    Pragma,
}

/// The directive that the word names.
pub fn directive_named(word: &Word<'_>) -> Option<Keyword>
    ensures { result ≡ keyword_of (plain_word word.now) }
{
    if word.is_name(b"include") {
        Some(Keyword::Include)
    } else if word.is_name(b"define") {
        Some(Keyword::Define)
    } else if word.is_name(b"undef") {
        Some(Keyword::Undef)
    } else if word.is_name(b"if") {
        Some(Keyword::If)
    } else if word.is_name(b"ifdef") {
        Some(Keyword::Ifdef)
    } else if word.is_name(b"ifndef") {
        Some(Keyword::Ifndef)
    } else if word.is_name(b"elif") {
        Some(Keyword::Elif)
    } else if word.is_name(b"else") {
        Some(Keyword::Else)
    } else if word.is_name(b"endif") {
        Some(Keyword::Endif)
    } else if word.is_name(b"pragma") {
        Some(Keyword::Pragma)
    } else {
        None
    }
}
