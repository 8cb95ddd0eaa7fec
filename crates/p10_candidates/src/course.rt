//! How a variable moves.

/// How a variable moves while a comparison of it holds: up as long as it is below another value or at most that, or down as long
/// as it is above it or at least that.
#[derive(Clone, Copy, Debug, PartialEq, Eq)]
pub enum Course {
    Below,
    AtMost,
    Above,
    AtLeast,
}
