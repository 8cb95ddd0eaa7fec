//! What a run has come to.

use p10_base::Span;
use p10_int::Stop;

/// How a run ended.
#[derive(Clone, Copy, Debug, PartialEq, Eq)]
pub enum RunOutcome {
    /// `main` has returned this value, or 0 where it ended without `return` (C99 5.1.2.2.3).
    Returned(i64),
    /// This many turns of the task loop were made.
    Turns(u64),
    /// The `assert` with this span has failed (C99 7.2.1.1p2).
    AssertionFailed(Span),
    /// An undefined operation, at the span of its tree.
    Undefined(Stop, Span),
    /// No step was left.
    StepsSpent,
}

/// A run that has ended by itself or by its budget.
#[derive(Clone, Copy, Debug, PartialEq, Eq)]
pub struct FinishedRun {
    pub outcome: RunOutcome,
    /// The greatest number of open calls, `main` included.
    pub calls: u64,
    /// The greatest number of bytes in the frames of open calls.
    pub bytes: u128,
}
