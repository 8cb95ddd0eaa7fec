//! The piece at the beginning of a text: white space, splices, a comment, a word, or what begins none of these.

ghost use Rattle.std.specs.Prelude.{◌≡◌};
ghost use Rattle.p10_lex.specs.Pieces.{line_with, line_after, tight_after, is_include, is_start};
ghost use Rattle.p10_lex.specs.private.Reading.{kind_of_quote, literal_at, comment_at, punctuator_at, header_at, cut_at};

use crate::{bytes, literals, punctuators, runs, splices};
use p10_base::Kind;

/// What a piece is.
#[derive(Clone, Copy)]
pub(crate) enum Piece {
    /// One byte of white space.
    Blank,
    /// One splice or several.
    Splices,
    /// A comment.
    Comment,
    /// `/*` and the rest of the file, which has no `*/`.
    OpenComment,
    /// A quote and the rest of its line, which has no closing quote.
    OpenLiteral,
    /// A byte that begins nothing else.
    Stray,
    /// A word of this kind.
    Lexeme(Kind),
}

/// What the words of a line are so far.
#[derive(Clone, Copy)]
pub(crate) enum Line {
    /// None.
    Start,
    /// `#`.
    Hash,
    /// `#` and `include`.
    Include,
    /// Others.
    Other,
}

/// The kind of a literal with this quote.
#[tactic(auto, unfolding(crate::specs::private::Reading::kind_of_quote))]
fn kind_of_quote(quote: u8) -> Kind
    ensures { result ≡ kind_of_quote quote }
{
    if quote == b'\'' {
        Kind::Char
    } else {
        Kind::Str
    }
}

/// A literal, or a line that doesn't close it.
#[tactic(auto, unfolding(crate::specs::private::Reading::literal_at))]
fn literal_at(quote: u8, body: &[u8]) -> (Piece, &[u8])
    ensures { (result.0, result.1.now) ≡ literal_at quote body.now }
{
    match literals::after_literal(quote, body) {
        Some(rest) => (Piece::Lexeme(kind_of_quote(quote)), rest),
        None => (Piece::OpenLiteral, splices::after_line(quote, body)),
    }
}

/// A comment that begins with `/*`.
#[tactic(auto, unfolding(crate::specs::private::Reading::comment_at))]
fn comment_at(body: &[u8]) -> (Piece, &[u8])
    ensures { (result.0, result.1.now) ≡ comment_at body.now }
{
    match runs::after_comment(body) {
        Some(rest) => (Piece::Comment, rest),
        None => (Piece::OpenComment, &body[body.len()..]),
    }
}

/// A punctuator, or a byte that begins nothing.
#[tactic(auto, unfolding(crate::specs::private::Reading::punctuator_at))]
fn punctuator_at(text: &[u8]) -> (Piece, &[u8])
    ensures { (result.0, result.1.now) ≡ punctuator_at text.now }
{
    let length = punctuators::punctuator_length(text);
    if 0 < length {
        return (Piece::Lexeme(Kind::Punct), &text[length..]);
    }
    match text {
        [] => (Piece::Stray, text),
        [_, rest @ ..] => (Piece::Stray, rest),
    }
}

/// An include name, or else a punctuator.
#[tactic(auto, unfolding(crate::specs::private::Reading::header_at))]
fn header_at(text: &[u8]) -> (Piece, &[u8])
    ensures { (result.0, result.1.now) ≡ header_at text.now }
{
    match text {
        [] => punctuator_at(text),
        [_, name @ ..] => match runs::after_header(name) {
            Some(rest) => (Piece::Lexeme(Kind::Str), rest),
            None => punctuator_at(text),
        },
    }
}

/// The piece at the beginning of a text, and what is left after it.
#[tactic(auto, unfolding(crate::specs::private::Reading::cut_at))]
pub(crate) fn cut_at(after_include: bool, text: &[u8]) -> (Piece, &[u8])
    ensures { (result.0, result.1.now) ≡ cut_at after_include text.now }
{
    match text {
        [] => (Piece::Stray, text),
        [first, rest @ ..] => {
            if bytes::is_blank(*first) {
                (Piece::Blank, rest)
            } else if bytes::is_nondigit(*first) {
                (Piece::Lexeme(Kind::Name), runs::after_name(rest))
            } else if runs::begins_number(text) {
                (
                    Piece::Lexeme(Kind::Number),
                    runs::after_number(*first, rest),
                )
            } else if bytes::is_quote(*first) {
                literal_at(*first, rest)
            } else if *first == b'/' && bytes::begins_byte(b'/', rest) {
                (Piece::Comment, splices::after_line(0, text))
            } else if *first == b'/' && bytes::begins_byte(b'*', rest) {
                comment_at(&rest[1..])
            } else if 0 < splices::splice_length(text) {
                (Piece::Splices, splices::after_splices(text))
            } else if after_include && *first == b'<' {
                header_at(text)
            } else {
                punctuator_at(text)
            }
        }
    }
}

impl Line {
    /// What the words of a line are once this one joins them.
    #[tactic(auto, unfolding(crate::specs::Pieces::line_with))]
    fn with(self, word: &[u8]) -> Line
        ensures { result ≡ line_with self word.now }
    {
        match self {
            Line::Start => match word {
                [b'#'] => Line::Hash,
                _ => Line::Other,
            },
            Line::Hash => {
                if word == b"include".as_slice() {
                    Line::Include
                } else {
                    Line::Other
                }
            }
            Line::Include => Line::Other,
            Line::Other => Line::Other,
        }
    }

    /// What the line's words are after a piece.
    #[tactic(auto, unfolding(crate::specs::Pieces::line_after))]
    pub(crate) fn after(self, piece: Piece, text: &[u8]) -> Line
        ensures { result ≡ line_after self piece text.now }
    {
        match piece {
            Piece::Blank => match text {
                [b'\n'] => Line::Start,
                _ => self,
            },
            Piece::Lexeme(_) => self.with(text),
            Piece::Splices => self,
            Piece::Comment => self,
            Piece::OpenComment => self,
            Piece::OpenLiteral => self,
            Piece::Stray => self,
        }
    }

    /// Whether the words are `#` and `include`.
    #[tactic(auto, unfolding(crate::specs::Pieces::is_include))]
    pub(crate) fn is_include(self) -> bool
        ensures { result ≡ is_include self }
    {
        match self {
            Line::Include => true,
            Line::Start => false,
            Line::Hash => false,
            Line::Other => false,
        }
    }

    /// Whether there are no words.
    #[tactic(auto, unfolding(crate::specs::Pieces::is_start))]
    pub(crate) fn is_start(self) -> bool
        ensures { result ≡ is_start self }
    {
        match self {
            Line::Start => true,
            Line::Hash => false,
            Line::Include => false,
            Line::Other => false,
        }
    }
}

/// Whether what stands nearest before the next piece is neither white space nor the file's beginning.
#[tactic(auto, unfolding(crate::specs::Pieces::tight_after))]
pub(crate) fn tight_after(tight: bool, piece: Piece) -> bool
    ensures { result ≡ tight_after tight piece }
{
    match piece {
        Piece::Blank => false,
        Piece::Comment => false,
        Piece::Splices => tight,
        Piece::OpenComment => true,
        Piece::OpenLiteral => true,
        Piece::Stray => true,
        Piece::Lexeme(_) => true,
    }
}
