//! Where turns of a loop that are taken at once have stopped.

use p10_core::Stmt;

/// What is next in a loop whose turns were taken at once.
#[derive(Clone, Copy)]
pub enum Stopped<'p> {
    /// The test.
    AtTest,
    /// What is after the loop, since the test was false.
    AtEnd,
    /// These items of the body.
    InBody(&'p [Stmt]),
    /// These statements of the third clause.
    InThird(&'p [Stmt]),
}
