//! The first of problems.

ghost use Rattle.std.specs.Prelude.{◌≡◌, [], ◌∷◌, None};
ghost use Rattle.p10_elabx.specs.First.{problems};
ghost use Rattle.p10_program.specs.FirstProblems.{first_with};

use p10_elabx::{Problem, joined};

/// The first of a problem that may be known already and of one that may follow.
pub(crate) fn first_with(found: Option<Problem>, next: Option<Problem>) -> Option<Problem>
    ensures { result ≡ first_with found (problems next) }
{
    joined(found, next)
}

/// The first of problems, if there is any.
#[tactic(auto, using(crate::proofs::FirstUses::first_with_next))]
pub(crate) fn first_problem(problems: &[Problem]) -> Option<Problem>
    ensures { result ≡ first_with None problems.now }
{
    let mut found = None;
    for problem in problems {
        found = first_with(found, Some(*problem));
    }
    found
}
