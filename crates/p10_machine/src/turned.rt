//! What operations and runs come to.

use crate::machine::Spot;
use p10_base::Span;
use p10_int::Stop;
use p10_meaning::Scalar;

/// How a run comes to rest.
#[derive(Clone, Copy, Debug)]
pub enum Ending {
    /// The outermost call has ended, with a value or none.
    Returned(Option<Scalar>),
    /// A turn of the task loop comes next; `main` has so many variables.
    AtLoop(u32),
    Failed(Span),
    Undefined(Stop, Span),
    StepsSpent,
}

/// What comes of an operation: the machine goes on; the run has come to rest with so many steps left; or nothing was done, since the
/// outside is needed first.
#[derive(Clone, Copy, Debug)]
pub enum Turned {
    On(Spot),
    Off(u64, Ending),
    Wants,
}

/// Where a run pauses: at rest with so many steps left, or where the outside is needed before the next operation.
#[derive(Clone, Copy, Debug)]
pub enum Paused {
    Off(u64, Ending),
    Wants(Spot),
}

/// Why an operation gives nothing: the run stops, or memory has run out.
#[derive(Clone, Copy, Debug)]
pub enum Halt {
    Stop(Stop),
    Full,
}

/// Why several writes aren't done to their end: the run stops with so many steps left, at a place; no step is left; or memory has run out.
#[derive(Clone, Copy, Debug)]
pub enum Cut {
    Undefined(u64, Stop, Span),
    StepsSpent,
    Full,
}

/// Memory ran out.
#[derive(Clone, Copy, Debug, PartialEq, Eq)]
pub struct Full;
