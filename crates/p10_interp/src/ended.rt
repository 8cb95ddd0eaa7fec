//! How a call of a machine ends.

use p10_base::Span;
use p10_int::Stop;

/// What a run, or a part of it, has come to.
#[derive(Clone, Copy, Debug, PartialEq, Eq)]
pub enum Ended {
    /// `main` has come to its task loop; a turn comes next.
    AtLoop,
    /// A turn of the task loop was made; another may come next.
    TurnDone,
    /// `main` has returned this value, or 0 where it ended without `return` (C99 5.1.2.2.3).
    Returned(i64),
    /// The `assert` with this span has failed (C99 7.2.1.1p2).
    AssertionFailed(Span),
    /// An undefined operation, at the span of its tree.
    Undefined(Stop, Span),
    /// No step was left.
    StepsSpent,
}

/// Why a call of a machine has given up.
#[derive(Clone, Copy, Debug, PartialEq, Eq)]
pub enum RunFault {
    /// The source failed.
    Read,
    /// The sink failed.
    Write,
    /// Out of memory.
    Memory,
}
