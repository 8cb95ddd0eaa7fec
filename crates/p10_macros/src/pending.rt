//! What a replacement that is under way consists of.

use crate::ahead::Ahead;
use crate::known::Known;
use crate::origin::Origins;
use p10_base::{Span, Word};
use std::alloc::Global;

/// A word, and the number of the set of macros that it comes from.
#[derive(Clone, Copy)]
pub struct Traced<'s> {
    pub word: Word<'s>,
    pub from: usize,
}

impl<'s> Traced<'s> {
    ghost use Rattle.std.specs.Prelude.{◌≡◌};
    ghost use Rattle.p10_macros.specs.private.Putting.{fresh};

    /// The word at the place of a use, where it comes from the set of macros with the number `from`.
    pub fn at_use(word: Word<'s>, at: Span, from: usize) -> Traced<'s>
        ensures { result ≡ fresh word.entry at from }
    {
        Traced {
            word: Word {
                kind: word.kind,
                text: word.text,
                at,
                first: word.first,
            },
            from,
        }
    }
}

/// Where the words of a use stand: at the place of its name; and the number of the set of macros that they come from.
#[derive(Clone, Copy)]
pub struct UseSite {
    pub at: Span,
    pub from: usize,
}

/// The ends of the argument and of the call in which pending words stand. A place is the number of pending words from the
/// last one up to that place, and 0 is none.
#[derive(Clone, Copy)]
pub struct Exits {
    /// The next comma or `)` in no parentheses of the words before it.
    pub argument: usize,
    /// The next `)` in no parentheses of the words before it.
    pub call: usize,
}

/// A word that is still to be looked through.
#[derive(Clone, Copy)]
pub struct Pending<'s> {
    pub traced: Traced<'s>,
    /// The ends before which the words after it stand.
    pub exits: Exits,
}

/// A use whose arguments are being replaced.
#[derive(Drop)]
pub struct Open<'m, 'w, 's> {
    pub known: &'m Known<'w, 's>,
    /// The name in the use.
    pub name: Traced<'s>,
    /// The name in the use of the outermost macro.
    pub place: Span,
    /// The place of the pending word that ends the argument in which the use stands, or 0.
    pub stop: usize,
    /// What came of the words before the use in the argument in which it stands.
    pub before: Vec<Traced<'s>>,
    /// What came of the arguments before the one that is being replaced.
    pub values: Vec<Vec<Traced<'s>>>,
}

/// A replacement that is under way.
#[derive(Drop)]
pub struct Run<'m, 'w, 's> {
    pub alloc: Global,
    /// The words that are still to be looked through.
    pub pending: Ahead<'s>,
    /// The place of the pending word that ends the innermost argument, or 0.
    pub stop: usize,
    /// What came of the words before them that stand in no use.
    pub words: Vec<Word<'s>>,
    /// What came of the words before them in the innermost argument.
    pub done: Vec<Traced<'s>>,
    /// The uses whose arguments are being replaced, the innermost one last.
    pub open: Vec<Open<'m, 'w, 's>>,
    pub origins: Origins<'s>,
    /// How many words of replacements may still be made.
    pub left: u64,
}
