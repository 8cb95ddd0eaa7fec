//! The first refusal of a piece (rows X1 to X6).

ghost use Rattle.std.specs.Prelude.{◌≡◌, ◌≤◌, ◌+◌, length, IfSome};
ghost use Rattle.p10_lex.specs.Characters.{begins_with};
ghost use Rattle.p10_lex.specs.Bytes.{is_quote};
ghost use Rattle.p10_lex.specs.Refusals.{begins_trigraph, ends_trigraph, is_tight};
ghost use Rattle.p10_lex.specs.Pieces.{begins_comment};
ghost use Rattle.p10_lex.specs.private.Reading.{mark_at, literal_fault, word_fault, fault_at};

use crate::pieces::Piece;
use crate::{bytes, characters, integers, splices};
use p10_base::{Kind, WordCode};

/// A row that holds at a piece.
#[derive(Clone, Copy)]
pub(crate) struct Fault {
    pub(crate) code: WordCode,
    /// How far from the piece's beginning.
    pub(crate) offset: usize,
    /// Over how many bytes.
    pub(crate) extent: usize,
}

/// Whether a text begins with a trigraph.
#[tactic(auto, unfolding(crate::specs::Refusals::begins_trigraph))]
fn begins_trigraph(text: &[u8]) -> bool
    ensures { result ≡ begins_trigraph text.now }
{
    match text {
        [] => false,
        [_] => false,
        [_, _] => false,
        [first, second, third, ..] => {
            *first == b'?' && (*second == b'?' && ends_trigraph(*third))
        }
    }
}

/// Whether a text begins with a comment.
#[tactic(auto, unfolding(crate::specs::Pieces::begins_comment))]
fn begins_comment(text: &[u8]) -> bool
    ensures { result ≡ begins_comment text.now }
{
    match text {
        [] => false,
        [_] => false,
        [first, second, ..] => *first == b'/' && (*second == b'*' || *second == b'/'),
    }
}

/// Whether what stands here is neither white space nor the file's end.
#[tactic(auto, unfolding(crate::specs::Refusals::is_tight))]
fn is_tight(text: &[u8]) -> bool
    ensures { result ≡ is_tight text.now }
{
    match text {
        [] => false,
        [first, ..] => !(bytes::is_blank(*first) || begins_comment(text)),
    }
}

/// Whether a text begins with a quote.
#[tactic(auto, unfolding(crate::specs::Characters::begins_with))]
fn begins_quote(text: &[u8]) -> bool
    ensures { result ≡ begins_with is_quote text.now }
{
    match text {
        [] => false,
        [first, ..] => bytes::is_quote(*first),
    }
}

/// Whether a byte ends a trigraph that begins with `??`.
#[tactic(auto, unfolding(crate::specs::Refusals::ends_trigraph))]
fn ends_trigraph(byte: u8) -> bool
    ensures { result ≡ ends_trigraph byte }
{
    b"=/'()!<>-".as_slice().contains(&byte)
}

/// The first splice or trigraph at the first `count` places of a text.
#[tactic(auto, unfolding(crate::specs::private::Reading::mark_at))]
fn mark_at(count: usize, text: &[u8]) -> Option<Fault>
    ensures value { result ≡ mark_at 0 count text.now }
    ensures small { IfSome result (λ fault. (fault.offset ≤ length text.now) × (fault.extent ≤ 3)) }
{
    let mut rest = text;
    let mut offset = 0;
    let mut left = count;
    while let [_, others @ ..] = rest {
        if 0 < left {
            if 0 < splices::splice_length(rest) {
                return Some(Fault {
                    code: WordCode::SpliceInWord,
                    offset,
                    extent: 1,
                });
            }
            if begins_trigraph(rest) {
                return Some(Fault {
                    code: WordCode::Trigraph,
                    offset,
                    extent: 3,
                });
            }
            left -= 1;
        } else {
            break;
        }
        rest = others;
        offset += 1;
    }
    None
}

/// The first row that holds at a literal or an include name; `whole` is its text with what follows.
#[tactic(auto, unfolding(crate::specs::private::Reading::literal_fault))]
fn literal_fault(text: &[u8], whole: &[u8]) -> Option<Fault>
    ensures value { result ≡ literal_fault text.now whole.now }
    ensures small { IfSome result (λ fault. (fault.offset ≤ length whole.now) × (fault.extent ≤ length text.now + 3)) }
{
    if characters::is_literal_constant(text) {
        mark_at(text.len(), whole)
    } else {
        Some(Fault {
            code: WordCode::BadConstant,
            offset: 0,
            extent: text.len(),
        })
    }
}

/// The first row that holds at a piece; `whole` is its text with what follows, and `rest` what follows.
#[tactic(auto, unfolding(crate::specs::private::Reading::fault_at))]
pub(crate) fn fault_at(
    tight: bool,
    piece: Piece,
    text: &[u8],
    whole: &[u8],
    rest: &[u8],
) -> Option<Fault>
    ensures value { result ≡ fault_at tight piece text.now whole.now rest.now }
    ensures small { IfSome result (λ fault. (fault.offset ≤ length whole.now) × (fault.extent ≤ length text.now + 3)) }
{
    match piece {
        Piece::Blank => None,
        Piece::Comment => None,
        Piece::Splices => {
            if tight && is_tight(rest) {
                Some(Fault {
                    code: WordCode::SpliceInWord,
                    offset: 0,
                    extent: 1,
                })
            } else {
                None
            }
        }
        Piece::OpenComment => Some(Fault {
            code: WordCode::CommentWithoutEnd,
            offset: 0,
            extent: 2,
        }),
        Piece::OpenLiteral => Some(Fault {
            code: WordCode::LiteralWithoutEnd,
            offset: 0,
            extent: 1,
        }),
        Piece::Stray => Some(Fault {
            code: WordCode::BadByte,
            offset: 0,
            extent: 1,
        }),
        Piece::Lexeme(kind) => word_fault(kind, text, whole, rest),
    }
}

/// The first row that holds at a word.
#[tactic(auto, unfolding(crate::specs::private::Reading::word_fault))]
fn word_fault(kind: Kind, text: &[u8], whole: &[u8], rest: &[u8]) -> Option<Fault>
    ensures value { result ≡ word_fault kind text.now whole.now rest.now }
    ensures small { IfSome result (λ fault. (fault.offset ≤ length whole.now) × (fault.extent ≤ length text.now + 3)) }
{
    match kind {
        Kind::Name => {
            if text == b"L".as_slice() && begins_quote(rest) {
                Some(Fault {
                    code: WordCode::BadConstant,
                    offset: 0,
                    extent: 1,
                })
            } else {
                None
            }
        }
        Kind::Number => {
            if integers::integer_constant(text).is_some() {
                None
            } else {
                Some(Fault {
                    code: WordCode::BadConstant,
                    offset: 0,
                    extent: text.len(),
                })
            }
        }
        Kind::Char => literal_fault(text, whole),
        Kind::Str => literal_fault(text, whole),
        Kind::Punct => {
            if begins_trigraph(whole) {
                Some(Fault {
                    code: WordCode::Trigraph,
                    offset: 0,
                    extent: 3,
                })
            } else {
                None
            }
        }
        Kind::Mark => None,
    }
}
