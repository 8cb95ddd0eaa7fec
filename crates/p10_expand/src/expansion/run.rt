//! Runs of text.

ghost use Rattle.std.specs.Prelude.{◌≡◌, ◌++◌, ◌≤◌, length, map, take, OnOk, IfOk};
ghost use Rattle.p10_base.specs.Words.{plain_word};
ghost use Rattle.p10_expand.specs.Obeying.{words_before, RunGives, TextGives};
ghost use Rattle.p10_expand.specs.private.Steps.{Steps, Stays, state_of};
ghost use Rattle.p10_expand.specs.Before.{ComeInOrder};
ghost use Rattle.p10_expand.specs.private.Running.{GivesBefore};

use crate::expansion::fault::ExpandFault;
use crate::expansion::items::new_items;
use crate::expansion::state::State;
use crate::expansion::step::Step;
use p10_base::{Limit, Span, Word};
use p10_macros::{ReplaceFault, Replaced, replace};
use std::alloc::{AllocError, Global};

/// Expands a run of text of a file, or of a built-in header. Its words come in the order of their places.
pub fn expand_run<'w, 's>(
    alloc: Global,
    built_in: bool,
    state: &mut State<'w, 's>,
    words: &[Word<'s>],
) -> Result<Step, ExpandFault>
    ensures gives { ComeInOrder 0 (map plain_word words.now) → Steps (RunGives built_in (state_of state.old) (map plain_word words.now)) result state.new }
    ensures stays { IfOk result Stays }
{
    if built_in {
        let items = new_items(alloc, &mut state.given, words)?;
        expand_text(alloc, state, &items)
    } else {
        expand_text(alloc, state, words)
    }
}

/// Expands words that come in the order of their places.
fn expand_text<'w, 's>(
    alloc: Global,
    state: &mut State<'w, 's>,
    words: &[Word<'s>],
) -> Result<Step, ExpandFault>
    ensures gives { ComeInOrder 0 (map plain_word words.now) → Steps (TextGives (state_of state.old) (map plain_word words.now)) result state.new }
    ensures stays { IfOk result Stays }
{
    match replace(alloc, &state.macros, words, state.left) {
        Ok(replaced) => {
            let Replaced { words, left } = replaced;
            put_run(&mut state.words, words)?;
            state.left = left;
            Ok(Step::On(true))
        }
        Err(ReplaceFault::Refused(refusal)) => {
            expand_before(alloc, state, words, refusal.span)?;
            Ok(Step::Refused(refusal))
        }
        Err(ReplaceFault::TooMany) => Err(ExpandFault::Over(Limit::EXPANDED_WORDS)),
        Err(ReplaceFault::Memory) => Err(ExpandFault::Memory),
    }
}

/// Expands the words before a refused use at this place, if they have a replacement.
fn expand_before<'w, 's>(
    alloc: Global,
    state: &mut State<'w, 's>,
    words: &[Word<'s>],
    at: Span,
) -> Result<(), AllocError>
    ensures { OnOk result (GivesBefore (state_of state.old) (words_before at (map plain_word words.now)) (state_of state.new)) }
{
    let before = &words[..count_before(words, at)];
    match replace(alloc, &state.macros, before, state.left) {
        Ok(replaced) => {
            put_run(&mut state.words, replaced.words)?;
            Ok(())
        }
        Err(ReplaceFault::Memory) => Err(AllocError),
        // Words that have a replacement end in no other way.
        Err(ReplaceFault::Refused(_)) => Ok(()),
        Err(ReplaceFault::TooMany) => Ok(()),
    }
}

/// Puts the words of a run after those of its root.
fn put_run<'s>(words: &mut Vec<Word<'s>>, run: Vec<Word<'s>>) -> Result<(), AllocError>
    ensures { OnOk result (words.new.items ≡ words.old.items ++ run.entry.items) }
{
    if words.is_empty() {
        // The first run may be all of its root, so its words aren't copied.
        *words = run;
        return Ok(());
    }
    words.extend_from_slice(run.as_slice())
}

/// How many words stand before the first at this place.
fn count_before(words: &[Word<'_>], at: Span) -> usize
    ensures words { map plain_word (take result words.now) ≡ words_before at (map plain_word words.now) }
    ensures few { result ≤ length words.now }
{
    let mut count = 0;
    for word in words {
        if word.at.file == at.file && word.at.start == at.start {
            return count;
        }
        count += 1;
    }
    count
}
