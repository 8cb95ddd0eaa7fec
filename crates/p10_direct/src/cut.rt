//! Cuts the words of a file into directive lines and runs of text.

ghost use Rattle.std.specs.Prelude.{◌≡◌, ◌<◌, length, Some, IfOk, map};
ghost use Rattle.p10_base.specs.Words.{plain_word};
ghost use Rattle.p10_direct.specs.Lines.{AreCut, LinesAreUnique, piece_of, begins_directive};
ghost use Rattle.p10_direct.specs.Cutting.{behind, split};
ghost use Rattle.p10_direct.specs.private.Pieces.{first_piece_of};
ghost use Rattle.p10_direct.specs.Balance.{first_unbalanced};

use crate::balance::first_break;
use crate::{Line, Lines};
use p10_base::{ListBuf, Word};
use std::alloc::{AllocError, Global};

/// The lines of a file: directive lines, and runs of text between them; and the first place where its
/// conditionals are unbalanced.
///
/// `words` are all words of the file, in their order. A line begins at the first word, and at each word
/// that has `first` set. It fails only where memory runs out.
pub fn lines<'w, 's>(alloc: Global, words: &'w [Word<'s>]) -> Result<Lines<'w, 's>, AllocError>
    ensures cut { IfOk result (λ found. AreCut (map plain_word words.now) (map piece_of found.lines)) }
    ensures unbalanced { IfOk result (λ found. found.unbalanced ≡ first_unbalanced (map piece_of found.lines)) }
{
    let mut lines = ListBuf::of(Vec::new(alloc));
    let mut place = 0;
    while place < words.len() {
        let (line, after) = first_line(&words[place..]);
        lines.push(line)?;
        place = words.len() - after.len();
    }
    let unbalanced = first_break(alloc, lines.as_slice())?;
    Ok(Lines { lines, unbalanced })
}

/// The words of a file are cut in one way only.
pub fn one_cut()
    ensures { LinesAreUnique }
{}

/// The first line or run, and the words after it.
fn first_line<'w, 's>(words: &'w [Word<'s>]) -> (Line<'w, 's>, &'w [Word<'s>])
    requires { 0 < length words.now }
    ensures value { Some (piece_of result.0, map plain_word result.1.now) ≡ first_piece_of (map plain_word words.now) }
    ensures shorter { length result.1.now < length words.now }
{
    if words[0].is_punctuator(b"#") {
        let (line, after) = split_line(words);
        (Line::Directive(line), after)
    } else {
        let (run, after) = split_text(words);
        (Line::Text(run), after)
    }
}

/// The words of the first line, and those from the second line on. There is one word at least, with which
/// the first line begins; the second begins at the next word that has `first` set.
pub fn split_line<'w, 's>(words: &'w [Word<'s>]) -> (&'w [Word<'s>], &'w [Word<'s>])
    requires { 0 < length words.now }
    ensures value { (map plain_word result.0.now, map plain_word result.1.now) ≡ split (λ word. word.first) (map plain_word words.now) }
    ensures shorter { length result.1.now < length words.now }
{
    let after = behind_line(&words[1..]);
    (&words[..words.len() - after.len()], after)
}

/// The words before the first directive after the first word, and those from there on.
fn split_text<'w, 's>(words: &'w [Word<'s>]) -> (&'w [Word<'s>], &'w [Word<'s>])
    requires { 0 < length words.now }
    ensures value { (map plain_word result.0.now, map plain_word result.1.now) ≡ split begins_directive (map plain_word words.now) }
    ensures shorter { length result.1.now < length words.now }
{
    let after = behind_text(&words[1..]);
    (&words[..words.len() - after.len()], after)
}

/// The words from the first that begins a line on.
fn behind_line<'w, 's>(words: &'w [Word<'s>]) -> &'w [Word<'s>]
    ensures { map plain_word result.now ≡ behind (λ word. word.first) (map plain_word words.now) }
{
    let mut rest = words;
    while let [word, others @ ..] = rest {
        if word.first {
            break;
        }
        rest = others;
    }
    rest
}

/// The words from the first that begins a directive on.
fn behind_text<'w, 's>(words: &'w [Word<'s>]) -> &'w [Word<'s>]
    ensures { map plain_word result.now ≡ behind begins_directive (map plain_word words.now) }
{
    let mut rest = words;
    while let [word, others @ ..] = rest {
        if word.first && word.is_punctuator(b"#") {
            break;
        }
        rest = others;
    }
    rest
}
