//! Expansion: obeying the directives of a program's files, and replacing macros in their text.

mod condition;
mod directives;
mod fault;
mod files;
mod guard;
mod items;
mod laws;
mod line;
mod run;
mod stand;
mod state;
mod step;
mod texts;

ghost use Rattle.std.specs.Prelude.{◌≡◌, ◌<◌, ◌^◌, [], ◌++◌, All, Ok, Some, length, map, replicate, sum_by, IfOk, IfErr};
ghost use Rattle.p10_base.specs.Gathered.{count_of, text_of};
ghost use Rattle.p10_base.specs.Words.{plain_word, plain_words, words_at};
ghost use Rattle.p10_lex.specs.Lexes.{Answers};
ghost use Rattle.p10_expand.specs.Gathering.{HaveWords};
ghost use Rattle.p10_expand.specs.Coming.{ExpansionComes};
ghost use Rattle.p10_expand.specs.private.Steps.{StandsIn, AreWords, AreCuts, AreTexts, lists_in};
ghost use Rattle.p10_expand.specs.Answers.{IsExpansion, IsFault, expansion_of, lists_of, plain_obeyed};

use crate::expanded::{Expanded, Obeyed};
use crate::expansion::files::expand_file;
use crate::expansion::state::State;
use crate::expansion::texts::Texts;
use crate::includes::MOST_NESTED;
pub use fault::ExpandFault;
pub use laws::{expands_to_once, words_before_give};
use p10_base::{Limit, ListBuf, Refusal, Sources, Span, Word, WordPlace};
use p10_direct::{Lines, lines};
use std::alloc::{AllocError, Global};

/// The most words of files and of replacements (M4).
const MOST_WORDS: u64 = Limit::MOST_EXPANDED_WORDS;

/// Expands a program: obeys its directives and replaces its macros (C99 6.10).
///
/// The words of each file are those of its text, as in what `gather` gives. The first of D1 to D8 is the refusal; a limit is answered
/// where it is exceeded before one: M3 by the 65th nested include, M4 by 1,048,577 words of files and of replacements, and M6
/// by 8,193 macros that are defined at once, without those of built-in headers.
pub fn expand<'s>(alloc: Global, sources: &'s Sources) -> Result<Expanded<'s>, ExpandFault>
    requires { HaveWords sources.now }
    ensures expanded { IfOk result (IsExpansion sources.now) }
    ensures fault { IfErr result (IsFault sources.now) }
    // What follows: each word of a root is a word of a file at its place, except for the kind of a mark; or, where a macro
    // gave it, a word of a file except for its place, which is that of the outermost use: of a name in a run of text that
    // began a use when it was met, of one of the macros that were then defined. What was obeyed are directives of the
    // files, a refusal's place lies in a file, and words can be counted by a `u32`.
    ensures comes { IfOk result (λ expanded. ExpansionComes sources.now (expansion_of expanded)) }
    ensures few { IfOk result (λ expanded. sum_by length (lists_of expanded.roots) < 2 ^ 32) }
{
    let words = words_of_files(alloc, sources)?;
    let texts = Texts {
        sources,
        words: &words,
        cuts: lines_of_files(alloc, &words)?,
    };
    expand_roots(alloc, &texts)
}

/// The words of each file.
fn words_of_files<'s>(alloc: Global, sources: &'s Sources) -> Result<Vec<Vec<Word<'s>>>, AllocError>
    requires { HaveWords sources.now }
    ensures { IfOk result (λ all. AreWords sources.now (count_of sources.now) all.items) }
{
    let mut all = Vec::new(alloc);
    for number in 0..sources.count() {
        all.push(words_of_file(alloc, sources, number)?)?;
    }
    Ok(all)
}

/// The words of a file.
fn words_of_file<'s>(
    alloc: Global,
    sources: &'s Sources,
    number: u32,
) -> Result<Vec<Word<'s>>, AllocError>
    requires have { HaveWords sources.now }
    requires held { number < count_of sources.now }
    ensures { IfOk result (λ words. Answers number (text_of sources.now number) (Ok (map plain_word words.items))) }
{
    words_in(alloc, number, sources.text(number), sources.words(number))
}

/// The words at places in the text of the file with this number.
fn words_in<'s>(
    alloc: Global,
    file: u32,
    text: &'s [u8],
    places: &[WordPlace],
) -> Result<Vec<Word<'s>>, AllocError>
    requires { All (StandsIn text.now) places.now }
    ensures { IfOk result (λ words. plain_words words.items ≡ words_at file text.now places.now) }
{
    let mut words = Vec::with_capacity(alloc, places.len())?;
    for place in places {
        words.push(Word {
            kind: place.kind,
            text: &text[place.start as usize..place.end as usize],
            at: Span {
                file,
                start: place.start,
                end: place.end,
            },
            first: place.first,
        })?;
    }
    Ok(words)
}

/// The lines of each file.
fn lines_of_files<'w, 's>(
    alloc: Global,
    files: &'w [Vec<Word<'s>>],
) -> Result<Vec<Lines<'w, 's>>, AllocError>
    ensures { IfOk result (λ all. AreCuts files.now (length files.now) all.items) }
{
    let mut all = Vec::new(alloc);
    for words in files {
        all.push(lines(alloc, words)?)?;
    }
    Ok(all)
}

/// Expands the roots, one after the other, up to the first that is refused.
fn expand_roots<'w, 's>(alloc: Global, texts: &Texts<'w, 's>) -> Result<Expanded<'s>, ExpandFault>
    requires { AreTexts texts.now }
    ensures expanded { IfOk result (IsExpansion texts.now.sources.now) }
    ensures fault { IfErr result (IsFault texts.now.sources.now) }
{
    let mut roots = Vec::new(alloc);
    let mut obeyed = ListBuf::of(Vec::new(alloc));
    let mut left = MOST_WORDS;
    let count = texts.sources.roots();
    for place in 0..count {
        let mut state = State::fresh(alloc, obeyed, left);
        let root = texts.sources.root(place);
        let refusal = expand_file(alloc, texts, &mut state, root, false, MOST_NESTED)?;
        roots.push(state.words)?;
        obeyed = state.obeyed;
        left = state.left;
        match refusal {
            None => {}
            Some(refusal) => {
                let others = count - place - 1;
                return Ok(refused(alloc, roots, others, obeyed, refusal)?);
            }
        }
    }
    Ok(Expanded {
        roots: ListBuf::of(roots),
        obeyed,
        refusal: None,
    })
}

/// What is expanded where the last of these roots is refused, and this many others follow it.
fn refused<'s>(
    alloc: Global,
    roots: Vec<Vec<Word<'s>>>,
    others: u32,
    obeyed: ListBuf<Obeyed<'s>>,
    refusal: Refusal,
) -> Result<Expanded<'s>, AllocError>
    ensures { IfOk result (λ expanded. expansion_of expanded ≡ record { roots = lists_in roots.entry ++ replicate others []; obeyed = map plain_obeyed obeyed.entry; refusal = Some refusal }) }
{
    let mut all = roots;
    for _ in 0..others {
        all.push(Vec::new(alloc))?;
    }
    Ok(Expanded {
        roots: ListBuf::of(all),
        obeyed,
        refusal: Some(refusal),
    })
}
