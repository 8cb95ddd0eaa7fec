//! The structure of a file's conditionals (C99 6.10.1).

ghost use Rattle.std.specs.Prelude.{◌≡◌, ◌+◌, ◌^◌, ◌<◌, ◌≤◌, [], IfOk, map, reverse};
ghost use Rattle.p10_base.specs.Words.{plain_word};
ghost use Rattle.p10_direct.specs.Lines.{piece_of, DirectiveLine};
ghost use Rattle.p10_direct.specs.Balance.{first_unbalanced, mark_of, mark_of_word};
ghost use Rattle.p10_direct.specs.private.Breaks.{stray_from, unclosed_from, passed_back, earlier_of, Stacks};

use crate::keyword::{Keyword, directive_named};
use crate::line::Line;
use crate::mark::Mark;
use p10_base::Word;
use std::alloc::{AllocError, Global};

/// The place of the first line that breaks the structure.
pub fn first_break(alloc: Global, lines: &[Line<'_, '_>]) -> Result<Option<usize>, AllocError>
    ensures { IfOk result (λ place. place ≡ first_unbalanced (map piece_of lines.now)) }
{
    let stray = first_stray(alloc, lines)?;
    Ok(earlier(stray, first_unclosed(lines)))
}

/// The lesser of two places.
fn earlier(a: Option<usize>, b: Option<usize>) -> Option<usize>
    ensures { result ≡ earlier_of a b }
{
    match (a, b) {
        (Some(a), Some(b)) => Some(a.min(b)),
        (Some(a), None) => Some(a),
        (None, b) => b,
    }
}

/// What a line is to the conditional in which it stands, by its second word alone.
pub fn part_of(line: &Line<'_, '_>) -> Mark
    ensures { result ≡ mark_of (piece_of line.now) }
{
    match line {
        Line::Directive(words) => part_of_words(words),
        Line::Text(_) => Mark::Plain,
    }
}

/// What a directive line with these words is to the conditional in which it stands.
fn part_of_words(words: &[Word<'_>]) -> Mark
    ensures { result ≡ mark_of (DirectiveLine (map plain_word words.now)) }
{
    match words {
        [_, name, ..] => mark_named(name),
        _ => Mark::Plain,
    }
}

/// What a directive with this name is to the conditional in which it stands.
fn mark_named(name: &Word<'_>) -> Mark
    ensures { result ≡ mark_of_word (plain_word name.now) }
{
    match directive_named(name) {
        Some(Keyword::If | Keyword::Ifdef | Keyword::Ifndef) => Mark::Opens,
        Some(Keyword::Elif) => Mark::Elif,
        Some(Keyword::Else) => Mark::Else,
        Some(Keyword::Endif) => Mark::Closes,
        _ => Mark::Plain,
    }
}

/// The place of the first `#elif`, `#else` or `#endif` that doesn't fit what stands before it.
fn first_stray(alloc: Global, lines: &[Line<'_, '_>]) -> Result<Option<usize>, AllocError>
    ensures { IfOk result (λ place. place ≡ stray_from [] (map mark_of (map piece_of lines.now)) 0) }
{
    let mut pending = Vec::new(alloc);
    for (place, line) in lines.iter().enumerate() {
        if !take(&mut pending, part_of(line))? {
            return Ok(Some(place));
        }
    }
    Ok(None)
}

/// Takes one line, or answers that it doesn't fit. `pending` has, for each open conditional, whether its
/// `#else` was taken, the innermost one last.
fn take(pending: &mut Vec<bool>, mark: Mark) -> Result<bool, AllocError>
    ensures { IfOk result (λ fits. Stacks mark fits (reverse pending.old.items) (reverse pending.new.items)) }
{
    match mark {
        Mark::Opens => {
            pending.push(false)?;
            Ok(true)
        }
        Mark::Closes => Ok(pending.pop().is_some()),
        Mark::Elif => match pending.pop() {
            Some(false) => {
                pending.push(false)?;
                Ok(true)
            }
            _ => Ok(false),
        },
        Mark::Else => match pending.pop() {
            Some(false) => {
                pending.push(true)?;
                Ok(true)
            }
            _ => Ok(false),
        },
        Mark::Plain => Ok(true),
    }
}

/// The place of the first `#if`, `#ifdef` or `#ifndef` that no `#endif` closes.
fn first_unclosed(lines: &[Line<'_, '_>]) -> Option<usize>
    ensures { result ≡ unclosed_from (map mark_of (map piece_of lines.now)) 0 }
{
    let mut first = None;
    let mut closing: usize = 0;
    let mut place = lines.len();
    while place > 0 {
        place -= 1;
        (first, closing) = pass_back(part_of(&lines[place]), place, first, closing);
    }
    first
}

/// Passes over a line on the way back. `first` is the place of the first conditional after it that
/// isn't closed, and `closing` has how many `#endif` after it close one that begins before them.
fn pass_back(
    mark: Mark,
    place: usize,
    first: Option<usize>,
    closing: usize,
) -> (Option<usize>, usize)
    requires { closing + 1 < 2 ^ 64 }
    ensures value { result ≡ passed_back mark place (first, closing) }
    ensures few { result.1 ≤ closing + 1 }
{
    match mark {
        Mark::Opens if closing > 0 => (first, closing - 1),
        Mark::Opens => (Some(place), 0),
        Mark::Closes => (first, closing + 1),
        _ => (first, closing),
    }
}
