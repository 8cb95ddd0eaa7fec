//! All words of a file.

ghost use Rattle.std.specs.Prelude.{◌≡◌, ◌+◌, ◌≤◌, ◌<◌, ◌^◌, ◌++◌, [], ◌∷◌, length, map, vec_len, Ok, Err, MatchResult, OnOk, IfOk, IfErr, IfSome};
ghost use Rattle.p10_base.specs.Words.{plain_word};
ghost use Rattle.p10_base.specs.Codes.{word_number};
ghost use Rattle.p10_lex.specs.Pieces.{word_before};
ghost use Rattle.p10_lex.specs.Refusals.{refusal_at};
ghost use Rattle.p10_lex.specs.Slices.{AreSlices, IsPlaced};
ghost use Rattle.p10_lex.specs.Lexes.{Answers};
ghost use Rattle.p10_lex.specs.private.Adding.{IsTooMany};

use crate::LexFault;
use crate::faults::{Fault, fault_at};
use crate::pieces::{Line, Piece, cut_at, tight_after};
use p10_base::{Kind, Limit, Refusal, Span, Word};
use std::alloc::Global;

/// The words of a file, which borrow its bytes.
///
/// `file` is the number that the words' spans give. A file of over 1,048,576 bytes is `Over` M1. Else the
/// first row of X1 to X6 is `Refused`, unless over 262,144 words end before its place; these are `Over` M2,
/// also without a refusal. `Memory` says that it is out of memory, and no clause says when it may.
pub fn lex<'s>(alloc: Global, file: u32, text: &'s [u8]) -> Result<Vec<Word<'s>>, LexFault>
    ensures answers { MatchResult result (λ v. Answers file text.now (Ok (map plain_word v.items))) (λ e. Answers file text.now (Err e)) }
    // What follows for the words: each is the slice of the text at its span, after the one before it.
    ensures slices { IfOk result (λ v. AreSlices file text.now 0 (map plain_word v.items)) }
    // What follows for a refusal: its place is in the text.
    ensures place { IfErr result (IsPlaced file text.now) }
{
    words_in(alloc, file, text)
}

/// The words of a file.
fn words_in<'s>(alloc: Global, file: u32, text: &'s [u8]) -> Result<Vec<Word<'s>>, LexFault>
    ensures { MatchResult result (λ v. Answers file text.now (Ok (map plain_word v.items))) (λ e. Answers file text.now (Err e)) }
{
    if Limit::MOST_FILE_BYTES < text.len() as u64 {
        return Err(LexFault::Over(Limit::FILE_BYTES));
    }
    let mut words = Vec::new(alloc);
    let mut rest = text;
    let mut place: u32 = 0;
    let mut line = Line::Start;
    let mut tight = false;
    while !rest.is_empty() {
        // Many bytes of indented lines are spaces, which need no further look.
        if let Some(more) = after_space(rest) {
            tight = false;
            place += 1;
            rest = more;
            continue;
        }
        let (piece, after) = cut_at(line.is_include(), rest);
        let here = &rest[..rest.len() - after.len()];
        if let Some(fault) = fault_at(tight, piece, here, rest, after) {
            return Err(refused(file, place, fault));
        }
        add_word(&mut words, file, place, line, piece, here)?;
        line = line.after(piece, here);
        tight = tight_after(tight, piece);
        place += here.len() as u32;
        rest = after;
    }
    Ok(words)
}

/// What stands after a space; none where the text doesn't begin with one.
fn after_space(text: &[u8]) -> Option<&[u8]>
    ensures { IfSome result (λ rest. text.now ≡ 32 ∷ rest.now) }
{
    match text {
        [b' ', rest @ ..] => Some(rest),
        _ => None,
    }
}

/// A piece that is a word joins the words, unless they are too many (M2).
#[tactic(auto, unfolding(crate::specs::Pieces::word_before))]
fn add_word<'s>(
    words: &mut Vec<Word<'s>>,
    file: u32,
    place: u32,
    line: Line,
    piece: Piece,
    text: &'s [u8],
) -> Result<(), LexFault>
    requires { place + length text.now < 2 ^ 32 }
    ensures added { OnOk result (map plain_word words.new.items ≡ map plain_word words.old.items ++ word_before file place line piece text.now []) }
    ensures count { OnOk result (vec_len words.old ≤ Limit.MOST_FILE_WORDS → vec_len words.new ≤ Limit.MOST_FILE_WORDS) }
    ensures full { IfErr result (IsTooMany (map plain_word words.old.items) (word_before file place line piece text.now [])) }
{
    match piece {
        Piece::Lexeme(kind) => {
            if Limit::MOST_FILE_WORDS <= words.len() as u64 {
                return Err(LexFault::Over(Limit::FILE_WORDS));
            }
            let end = place + text.len() as u32;
            let at = Span {
                file,
                start: place,
                end,
            };
            let first = line.is_start();
            match words.push(Word {
                kind,
                text,
                at,
                first,
            }) {
                Ok(()) => Ok(()),
                Err(_) => Err(LexFault::Memory),
            }
        }
        Piece::Blank => Ok(()),
        Piece::Splices => Ok(()),
        Piece::Comment => Ok(()),
        Piece::OpenComment => Ok(()),
        Piece::OpenLiteral => Ok(()),
        Piece::Stray => Ok(()),
    }
}

/// The refusal of a row that holds at a piece with this place.
fn refused(file: u32, place: u32, fault: Fault) -> LexFault
    requires { (place + fault.offset) + fault.extent < 2 ^ 32 }
    ensures { result ≡ LexFault.Refused (refusal_at file (word_number fault.code) (place + fault.offset) fault.extent) }
{
    let start = place + fault.offset as u32;
    let end = start + fault.extent as u32;
    LexFault::Refused(Refusal::word(fault.code, Span { file, start, end }))
}
