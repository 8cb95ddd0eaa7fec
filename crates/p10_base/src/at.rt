//! Where trees stand.

use crate::Span;

/// Where a tree stands among the expanded words of the roots, its own parentheses included.
///
/// The words are numbered through all roots, in their order. Text order is that of these numbers, and not of
/// spans, since all words of a macro's use have the span of that use.
#[derive(Clone, Copy, Debug, PartialEq, Eq)]
pub struct At {
    /// The number of the first word.
    pub first: u32,
    /// The number of the word past the last.
    pub past: u32,
    /// The bytes from the first word to the last.
    pub span: Span,
}
