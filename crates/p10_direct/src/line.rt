//! The lines into which a file is cut.

use p10_base::{ListBuf, Word};

/// A line or a run of lines of one file.
#[derive(Clone, Copy)]
pub enum Line<'w, 's> {
    /// The words of one line or more that are no directives.
    Text(&'w [Word<'s>]),
    /// The words of one line that begins with `#` (C99 6.10p2).
    Directive(&'w [Word<'s>]),
}

/// All lines of one file, in their order.
#[derive(Drop)]
pub struct Lines<'w, 's> {
    /// The directive lines, and what stands between them.
    pub lines: ListBuf<Line<'w, 's>>,
    /// The place among `lines` of the first directive that breaks the structure of conditionals:
    /// an `#elif`, `#else` or `#endif` that belongs to no open conditional, an `#elif` or `#else`
    /// after the `#else` of its conditional, or an `#if`, `#ifdef` or `#ifndef` without `#endif`.
    pub unbalanced: Option<usize>,
}
