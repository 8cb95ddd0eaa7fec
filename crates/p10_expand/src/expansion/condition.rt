//! The conditions of `#if` and `#elif`.

ghost use Rattle.std.specs.Prelude.{List, ◌≡◌, ◌+◌, ◌≤◌, length, map, IfOk, IfSome};
ghost use Rattle.p10_base.specs.Words.{plain_word};
ghost use Rattle.p10_macros.specs.Answers.{table_of};
ghost use Rattle.p10_expand.specs.Conditionals.{is_defined, asked, asked_inside, asked_at, answered, digit_at, refusal_of, Judges, JudgesCondition};
ghost use Rattle.p10_macros.specs.Uses.{Sourced, sourced_words};
ghost use Rattle.p10_macros.specs.Endings.{Gives};
ghost use Rattle.p10_expand.specs.private.Judging.{as_asked, judged_by, Decides};
ghost use Rattle.p10_expand.specs.private.Running.{PutsAnswer};

use crate::expansion::fault::ExpandFault;
use p10_base::{DirectiveCode, Kind, Limit, Refusal, Span, Word};
use p10_direct::truth;
use p10_macros::{Macros, ReplaceFault, Replaced, replace};
use std::alloc::{AllocError, Global};

/// What comes of a condition.
#[derive(Clone, Copy)]
pub enum Verdict {
    /// Whether it holds, and how many words of replacements may still be made.
    Holds { truth: bool, left: u64 },
    /// It is refused: D3, or D6 to D8 of a use of a macro in it.
    Fails(Refusal),
}

/// What comes of a condition of the directive at the place `whole`: `defined` is answered, macros are replaced, and what is
/// left is evaluated. `left` words of replacements may still be made.
pub fn judge<'s>(
    alloc: Global,
    macros: &Macros<'_, 's>,
    whole: Span,
    condition: &[Word<'s>],
    left: u64,
) -> Result<Verdict, ExpandFault>
    ensures { Decides (JudgesCondition (table_of macros.now) whole (map plain_word condition.now) left) result }
{
    let asked = answer(alloc, macros, condition)?;
    match replace(alloc, macros, &asked, left) {
        Ok(replaced) => Ok(judge_replaced(whole, &replaced)),
        Err(ReplaceFault::Refused(refusal)) => Ok(Verdict::Fails(refusal)),
        Err(ReplaceFault::TooMany) => Err(ExpandFault::Over(Limit::EXPANDED_WORDS)),
        Err(ReplaceFault::Memory) => Err(ExpandFault::Memory),
    }
}

/// What comes of a condition after replacement.
fn judge_replaced(whole: Span, replaced: &Replaced<'_>) -> Verdict
    ensures { (made : List Sourced) → sourced_words made ≡ map plain_word replaced.now.words.items → Judges whole (Gives made replaced.now.left) (judged_by result) }
{
    match truth(replaced.words.as_slice()) {
        Some(truth) => Verdict::Holds {
            truth,
            left: replaced.left,
        },
        None => Verdict::Fails(Refusal::directive(DirectiveCode::BadCondition, whole)),
    }
}

/// A condition where `defined X` and `defined(X)` are answered.
fn answer<'s>(
    alloc: Global,
    macros: &Macros<'_, 's>,
    condition: &[Word<'s>],
) -> Result<Vec<Word<'s>>, AllocError>
    ensures { IfOk result (λ out. map plain_word out.items ≡ answered (table_of macros.now) 0 (map plain_word condition.now)) }
{
    let mut out = Vec::new(alloc);
    let mut place = 0;
    while place < condition.len() {
        let behind = answer_word(macros, &mut out, &condition[place], &condition[place + 1..])?;
        place += 1 + behind;
    }
    Ok(out)
}

/// Puts a word, or the answer to the question that it begins, after the others; gives how many of the words after it are of
/// the question.
fn answer_word<'s>(
    macros: &Macros<'_, 's>,
    out: &mut Vec<Word<'s>>,
    word: &Word<'s>,
    words: &[Word<'s>],
) -> Result<usize, AllocError>
    ensures { IfOk result (PutsAnswer (table_of macros.now) (map plain_word out.old.items) (plain_word word.now) (map plain_word words.now) (map plain_word out.new.items)) }
{
    match asked_name(word, words) {
        None => {
            out.push(*word)?;
            Ok(0)
        }
        Some((name, behind)) => {
            out.push(digit(*word, defines(macros, name)))?;
            Ok(behind)
        }
    }
}

/// Whether the name is that of a macro.
pub fn defines<'s>(macros: &Macros<'_, 's>, name: &'s [u8]) -> bool
    ensures { result ≡ is_defined (table_of macros.now) name.now }
{
    macros.get(name).is_some()
}

/// The number that stands for a question whose first word this is.
fn digit<'s>(word: Word<'s>, truth: bool) -> Word<'s>
    ensures { plain_word result ≡ digit_at (plain_word word.entry) truth }
{
    Word {
        kind: Kind::Number,
        text: if truth { b"1" } else { b"0" },
        at: word.at,
        first: word.first,
    }
}

/// The name that a word and those after it ask for, and how many of these that takes.
fn asked_name<'s>(word: &Word<'s>, words: &[Word<'s>]) -> Option<(&'s [u8], usize)>
    ensures value { as_asked result ≡ asked_at (plain_word word.now) (map plain_word words.now) }
    ensures few { IfSome result (λ found. found.1 ≤ length words.now) }
{
    if word.is_name(b"defined") {
        asked_behind(words)
    } else {
        None
    }
}

/// The name that the words after `defined` ask for, and how many words that takes.
fn asked_behind<'s>(words: &[Word<'s>]) -> Option<(&'s [u8], usize)>
    ensures value { as_asked result ≡ asked (map plain_word words.now) }
    ensures few { IfSome result (λ found. found.1 ≤ length words.now) }
{
    match words {
        [] => None,
        [word, others @ ..] => {
            if matches!(word.kind, Kind::Name) {
                Some((word.text, 1))
            } else if word.is_punctuator(b"(") {
                inside(others)
            } else {
                None
            }
        }
    }
}

/// The name `X` of `defined(X)`, by the words after its `(`; the question takes three words after `defined`.
fn inside<'s>(words: &[Word<'s>]) -> Option<(&'s [u8], usize)>
    ensures value { as_asked result ≡ asked_inside (map plain_word words.now) }
    ensures few { IfSome result (λ found. found.1 ≤ 1 + length words.now) }
{
    match words {
        [name, closing, ..] => {
            if matches!(name.kind, Kind::Name) && closing.is_punctuator(b")") {
                Some((name.text, 3))
            } else {
                None
            }
        }
        _ => None,
    }
}
