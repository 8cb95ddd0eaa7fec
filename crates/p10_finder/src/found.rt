//! What derivation gives.

use p10_base::{Limit, Violation};
use p10_cert::Cert;
use p10_diff::Rank;

/// What is found of a program.
#[derive(Debug, Drop)]
pub enum Found {
    /// The certificate of the program.
    Certificate(Cert),
    /// The violations of rows 1.3, 2.1, 2.2 and 3.1, of which there is at least one, in the order of violations, each once.
    Violations(Vec<Violation>),
}

/// What is found of a program, and the ranks that stand for loops of its certificate, by their functions and numbers in order.
#[derive(Drop)]
pub struct RankedFound {
    pub found: Found,
    pub ranks: Vec<Rank>,
}

/// Why nothing is found.
#[derive(Clone, Copy, Debug, PartialEq, Eq)]
pub enum FinderFault {
    /// The certificate exceeds a limit: M9 of a sum or of turns, or M10 of its text.
    Over(Limit),
    /// Out of memory; 2^32 functions, variables or nested loops count as that, too.
    Memory,
}
