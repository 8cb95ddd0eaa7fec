//! Items of a body, as far as the pragmas ask.

use p10_base::At;
use p10_core::MarkKind;

/// What an item of a body is, as far as the pragmas ask.
#[derive(Clone, Copy, Debug)]
pub enum Kind {
    /// A pragma.
    Mark(MarkKind, At),
    /// A loop that may be the task loop.
    Task,
    /// A loop of which that isn't known, since its condition is refused.
    Unknown,
    /// A `return`.
    Return,
    /// Another item.
    Other,
}
