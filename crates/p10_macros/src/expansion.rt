//! Replaces all uses of macros in a run of words.

ghost use Rattle.std.specs.Prelude.{◌≡◌, map, reverse, IfOk, IfErr};
ghost use Rattle.p10_base.specs.Words.{plain_word};
ghost use Rattle.p10_macros.specs.private.Beginning.{unread, traced_of, IsBegun};
ghost use Rattle.p10_macros.specs.Ends.{WordsEndInOneWay};
ghost use Rattle.p10_macros.specs.Fronts.{FrontsGive};
ghost use Rattle.p10_macros.specs.Left.{NoObjectIsLeft};
ghost use Rattle.p10_macros.specs.Answers.{table_of, IsReplaced, IsFault};

use crate::ahead::Ahead;
use crate::origin::Origins;
use crate::pending::{Run, Traced};
use crate::replaced::{ReplaceFault, Replaced};
use crate::run::step;
use crate::table::Macros;
use p10_base::Word;
use std::alloc::{AllocError, Global};

/// Replaces all uses of macros in a run of words, where `left` words of replacements may still be made.
///
/// The words have the places that they have in the source. A word that a macro gave has the place of the name in the
/// use of the outermost macro, and refusals are at that name.
pub fn replace<'s>(
    alloc: Global,
    macros: &Macros<'_, 's>,
    words: &[Word<'s>],
    left: u64,
) -> Result<Replaced<'s>, ReplaceFault>
    ensures replaced { IfOk result (IsReplaced (table_of macros.now) (map plain_word words.now) left) }
    ensures refused { IfErr result (IsFault (table_of macros.now) (map plain_word words.now) left) }
{
    let mut run = run_of(alloc, words, left)?;
    while let Some(next) = run.pending.pop() {
        step(&mut run, macros, next)?;
    }
    Ok(Replaced {
        words: run.words,
        left: run.left,
    })
}

/// Words end in one way only: where they have a replacement, it is the only one.
pub fn one_ending()
    ensures { WordsEndInOneWay }
{}

/// In a replacement no name of an object-like macro is left.
pub fn no_object_left()
    ensures { NoObjectIsLeft }
{}

/// A refusal is at a word of the run, and the words before that one have a replacement.
pub fn front_gives()
    ensures { FrontsGive }
{}

/// The replacement of a run of words, where none is looked through yet.
fn run_of<'m, 'w, 's>(
    alloc: Global,
    words: &[Word<'s>],
    left: u64,
) -> Result<Run<'m, 'w, 's>, AllocError>
    ensures { IfOk result (IsBegun words.now left) }
{
    let pending = pending_of(alloc, words)?;
    Ok(Run {
        alloc,
        pending,
        stop: 0,
        words: Vec::with_capacity(alloc, words.len())?,
        done: Vec::new(alloc),
        open: Vec::new(alloc),
        origins: Origins::new(alloc),
        left,
    })
}

/// The words of a run as pending ones, the first on top.
fn pending_of<'s>(alloc: Global, words: &[Word<'s>]) -> Result<Ahead<'s>, AllocError>
    ensures { IfOk result (λ pending. traced_of (reverse pending.words.items) ≡ map unread words.now) }
{
    let mut pending = Ahead::with_room(alloc, words.len())?;
    let mut place = words.len();
    while place > 0 {
        place -= 1;
        pending.push(Traced {
            word: words[place],
            from: 0,
        })?;
    }
    Ok(pending)
}
