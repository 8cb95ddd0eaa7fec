//! What is known between two lines.

use crate::expanded::Obeyed;
use p10_base::{ListBuf, NameList, Word};
use p10_macros::Macros;
use std::alloc::Global;

/// What is known between two lines of a root.
#[derive(Drop)]
pub struct State<'w, 's> {
    /// The macros that are defined.
    pub macros: Macros<'w, 's>,
    /// The names of the files that are included once only.
    pub once: NameList<'s>,
    /// The names of the items of built-in headers that were given.
    pub given: Vec<&'s [u8]>,
    /// The words of the root so far.
    pub words: Vec<Word<'s>>,
    /// The directives obeyed so far, in all roots.
    pub obeyed: ListBuf<Obeyed<'s>>,
    /// How many words of files and of replacements may still be counted (M4).
    pub left: u64,
}

impl<'w, 's> State<'w, 's> {
    ghost use Rattle.std.specs.Prelude.{◌≡◌, map};
    ghost use Rattle.p10_expand.specs.Answers.{plain_obeyed};
    ghost use Rattle.p10_expand.specs.Expands.{fresh};
    ghost use Rattle.p10_expand.specs.private.Steps.{state_of};

    /// The state in which a root begins.
    pub fn fresh(alloc: Global, obeyed: ListBuf<Obeyed<'s>>, left: u64) -> State<'w, 's>
        ensures { state_of result ≡ fresh (map plain_obeyed obeyed.entry) left }
    {
        State {
            macros: Macros::new(alloc),
            once: NameList::new(alloc),
            given: Vec::new(alloc),
            words: Vec::new(alloc),
            obeyed,
            left,
        }
    }
}
