//! Include guards.

ghost use Rattle.std.specs.Prelude.{◌≡◌, ◌∷◌, map, option_copied};
ghost use Rattle.p10_base.specs.Words.{plain_word};
ghost use Rattle.p10_direct.specs.Lines.{piece_of};
ghost use Rattle.p10_direct.specs.Balance.{mark_of};
ghost use Rattle.p10_expand.specs.Guards.{guarded_by_ifndef, guarded_by_if, guarded_name, defines_as_nothing, closes_last, is_lone_endif, ends_with_endif, guards, is_guarded};

use p10_base::{Kind, Word};
use p10_direct::{Line, Mark, part_of};

/// Whether a file with these lines begins with an include guard: `#ifndef X` or `#if !defined(X)`, then `#define X` with an
/// empty list; the `#endif` of that conditional, which has no `#elif` and no `#else`, is the last line.
pub fn guarded(lines: &[Line<'_, '_>]) -> bool
    ensures { result ≡ is_guarded (map piece_of lines.now) }
{
    match lines {
        [first, second, others @ ..] => begins_guard(first, second, others),
        _ => false,
    }
}

/// Whether the lines are those of an include guard.
fn begins_guard(first: &Line<'_, '_>, second: &Line<'_, '_>, others: &[Line<'_, '_>]) -> bool
    ensures { result ≡ is_guarded (piece_of first.now ∷ piece_of second.now ∷ map piece_of others.now) }
{
    match first {
        Line::Text(_) => false,
        Line::Directive(opening) => match second {
            Line::Text(_) => false,
            Line::Directive(define) => closed_guard(asked_name(opening), define, others),
        },
    }
}

/// Whether the lines are those of an include guard after its first line, which asks for this name.
fn closed_guard(name: Option<&[u8]>, define: &[Word<'_>], lines: &[Line<'_, '_>]) -> bool
    ensures { result ≡ guards (option_copied name.entry) (map plain_word define.now) (map piece_of lines.now) }
{
    match name {
        None => false,
        Some(name) => defines_nothing(name, define) && ends_so(lines) && closes_behind(lines),
    }
}

/// The name of which a line asks that it isn't defined.
fn asked_name<'s>(line: &[Word<'s>]) -> Option<&'s [u8]>
    ensures { option_copied result ≡ guarded_name (map plain_word line.now) }
{
    match line {
        [_, word, name] => asked_by_ifndef(word, name),
        [_, word, bang, asks, opening, name, closing] => {
            asked_by_if(word, bang, asks, opening, name, closing)
        }
        _ => None,
    }
}

/// The name `X` of `#ifndef X`.
fn asked_by_ifndef<'s>(word: &Word<'s>, name: &Word<'s>) -> Option<&'s [u8]>
    ensures { option_copied result ≡ guarded_by_ifndef (plain_word word.now) (plain_word name.now) }
{
    if word.is_name(b"ifndef") && matches!(name.kind, Kind::Name) {
        Some(name.text)
    } else {
        None
    }
}

/// The name `X` of `#if !defined(X)`.
fn asked_by_if<'s>(
    word: &Word<'s>,
    bang: &Word<'s>,
    asks: &Word<'s>,
    opening: &Word<'s>,
    name: &Word<'s>,
    closing: &Word<'s>,
) -> Option<&'s [u8]>
    ensures { option_copied result ≡ guarded_by_if (plain_word word.now) (plain_word bang.now) (plain_word asks.now) (plain_word opening.now) (plain_word name.now) (plain_word closing.now) }
{
    if word.is_name(b"if")
        && bang.is_punctuator(b"!")
        && asks.is_name(b"defined")
        && opening.is_punctuator(b"(")
        && matches!(name.kind, Kind::Name)
        && closing.is_punctuator(b")")
    {
        Some(name.text)
    } else {
        None
    }
}

/// Whether the line is `#define` of the name with an empty list.
fn defines_nothing(name: &[u8], line: &[Word<'_>]) -> bool
    ensures { result ≡ defines_as_nothing name.now (map plain_word line.now) }
{
    match line {
        [_, word, defined] => word.is_name(b"define") && defined.is_name(name),
        _ => false,
    }
}

/// Whether the last line is `#endif` alone.
fn ends_so(lines: &[Line<'_, '_>]) -> bool
    ensures { result ≡ ends_with_endif (map piece_of lines.now) }
{
    match lines.last() {
        Some(last) => lone_endif(last),
        None => false,
    }
}

/// Whether the line is `#endif` alone.
fn lone_endif(line: &Line<'_, '_>) -> bool
    ensures { result ≡ is_lone_endif (piece_of line.now) }
{
    match line {
        Line::Directive([_, word]) => word.is_name(b"endif"),
        _ => false,
    }
}

/// Whether the conditional that is open ends with the last of these lines and has no `#elif` and no `#else`.
fn closes_behind(lines: &[Line<'_, '_>]) -> bool
    ensures { result ≡ closes_last 0 (map mark_of (map piece_of lines.now)) }
{
    let mut inner: usize = 0;
    let mut rest = lines;
    while let [line, others @ ..] = rest {
        match part_of(line) {
            Mark::Opens => inner += 1,
            Mark::Closes => {
                if inner == 0 {
                    return others.is_empty();
                }
                inner -= 1;
            }
            Mark::Elif | Mark::Else => {
                if inner == 0 {
                    return false;
                }
            }
            Mark::Plain => {}
        }
        rest = others;
    }
    false
}
