//! The expanded words of a program.

use p10_base::{ListBuf, Refusal, Span, Word};

/// What expansion gives: the words of each root, and the directives that were obeyed.
#[derive(Drop)]
pub struct Expanded<'s> {
    /// The words of each root, in the order of the roots. With a refusal the words of its root end before the
    /// refused line or use, and later roots have none.
    pub roots: ListBuf<Vec<Word<'s>>>,
    /// The directives that were obeyed, in the order in which they were met; a refused one is the last. Those of
    /// built-in headers aren't listed.
    pub obeyed: ListBuf<Obeyed<'s>>,
    /// The first of the refusals D1 to D8, if there is one.
    pub refusal: Option<Refusal>,
}

/// A directive that was obeyed, or the refused one, which for D2 may stand in a skipped group.
#[derive(Drop)]
pub struct Obeyed<'s> {
    /// The words of its line, from its `#` on.
    pub words: ListBuf<Word<'s>>,
    /// From its `#` to the end of its last word, in bytes.
    pub span: Span,
    /// Whether it is an `#if`, `#ifdef` or `#ifndef` that begins an include guard.
    pub guard: bool,
}
