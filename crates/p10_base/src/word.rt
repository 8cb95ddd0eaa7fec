//! Words: the preprocessing tokens of C (C99 6.4).

use crate::Span;

/// What a word is.
#[derive(Clone, Copy, Debug, PartialEq, Eq)]
pub enum Kind {
    /// An identifier or a keyword (C99 6.4.1, 6.4.2).
    Name,
    /// An integer constant (C99 6.4.4.1).
    Number,
    /// A character constant (C99 6.4.4.4).
    Char,
    /// A string literal (C99 6.4.5), or the name of an include between angle brackets.
    Str,
    /// A punctuator (C99 6.4.6).
    Punct,
    /// A p10 pragma after expansion; its text and span are those of the directive's last word.
    Mark,
}

/// A word that borrows its text from the source.
#[derive(Clone, Copy, Debug)]
pub struct Word<'s> {
    /// The bytes of the word, as the source spells them.
    pub text: &'s [u8],
    /// Where the word stands; for a word that a macro gave, the name in the use of the outermost macro.
    pub at: Span,
    pub kind: Kind,
    /// Whether no word stands before it on its line.
    pub first: bool,
}

/// A word of a file without its text: what it is, and where it stands in the file.
#[derive(Clone, Copy, Debug)]
pub struct WordPlace {
    /// The first byte, counted from 0.
    pub start: u32,
    /// The byte past the last.
    pub end: u32,
    pub kind: Kind,
    /// Whether no word stands before it on its line.
    pub first: bool,
}

impl Word<'_> {
    ghost use Rattle.std.specs.Prelude.{◌≡◌};
    ghost use Rattle.p10_base.specs.Words.{is_name, is_punctuator, place_of_word, plain_word};

    /// Whether the word is the identifier or keyword with this spelling.
    pub fn is_name(&self, text: &[u8]) -> bool
        ensures { result ≡ is_name text.now (plain_word self.now) }
    {
        matches!(self.kind, Kind::Name) && self.text == text
    }

    /// Whether the word is the punctuator with this spelling.
    pub fn is_punctuator(&self, text: &[u8]) -> bool
        ensures { result ≡ is_punctuator text.now (plain_word self.now) }
    {
        matches!(self.kind, Kind::Punct) && self.text == text
    }

    /// The word without its text.
    pub fn place(&self) -> WordPlace
        ensures { result ≡ place_of_word (plain_word self.now) }
    {
        WordPlace {
            kind: self.kind,
            start: self.at.start,
            end: self.at.end,
            first: self.first,
        }
    }
}
