//! Rows of the subset that hold at trees, and which of them is the first.

ghost use Rattle.std.specs.Prelude.{◌≡◌};
ghost use Rattle.p10_elabx.specs.First.{is_before, least};

use p10_base::{At, SubsetCode};

/// A row of the subset that holds, and the tree at which it does.
#[derive(Clone, Copy, Debug)]
pub struct Problem {
    pub code: SubsetCode,
    pub at: At,
}

/// Whether a problem comes before another one: by the first words of their trees, then by their numbers, then the smaller
/// tree.
pub fn is_before(a: &Problem, b: &Problem) -> bool
    ensures { result ≡ is_before a.now b.now }
{
    if a.at.first < b.at.first {
        true
    } else if b.at.first < a.at.first {
        false
    } else if (a.code as u8) < (b.code as u8) {
        true
    } else if (b.code as u8) < (a.code as u8) {
        false
    } else {
        a.at.past <= b.at.past
    }
}

/// The first of two problems.
pub fn least(a: Problem, b: Problem) -> Problem
    ensures { result ≡ least a b }
{
    if is_before(&a, &b) { a } else { b }
}
