//! Abstract values.

use p10_range::Range;

/// What is known of a whole number.
#[derive(Clone, Copy, Debug, PartialEq, Eq)]
pub struct Abs {
    /// Where the number lies.
    pub range: Range,
    /// A variable, and where the difference from what it held at the head of the innermost loop lies.
    pub offset: Option<(u32, Range)>,
}
