//! How a part of a run breaks off.

use p10_base::Span;
use p10_int::Stop;

/// How a part of a run ends on the way, or why it is given up.
#[derive(Clone, Copy, Debug, PartialEq, Eq)]
pub enum Broken {
    /// An `assert` failed.
    Failed(Span),
    /// An undefined operation, at the span of a tree.
    Undefined(Stop, Span),
    /// No step is left.
    Spent,
    /// The source failed.
    Read,
    /// The sink failed.
    Write,
    /// Out of memory.
    Memory,
}
