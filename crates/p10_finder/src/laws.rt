//! What holds of derivation. Nothing runs here: each function stands for the laws that its contract states.

ghost use Rattle.p10_finder.specs.Edges.{BoundsAtEdges};
ghost use Rattle.p10_finder.specs.Laws.{DerivesOnce, SameLoopsLackBounds};
ghost use Rattle.p10_finder.specs.Whole.{AnswersOfEachKind};
ghost use Rattle.p10_finder.specs.Worked.{WorkedClaims};

/// What is found for small programs, by hand: whole claims of their functions.
pub fn small_programs_have_claims()
    ensures { WorkedClaims }
{}

/// Which loops of small functions have a bound, and by which rank.
pub fn bounds_at_edges()
    ensures { BoundsAtEdges }
{}

/// What is answered of three whole programs: a certificate, a violation of row 2.1, and M9.
pub fn answers_of_each_kind()
    ensures { AnswersOfEachKind }
{}

/// One answer: derivation answers one thing of a program.
pub fn one_derivation()
    ensures { DerivesOnce }
{}

/// The same loops lack a bound, whatever claims with the results that are found are taken.
pub fn same_loops_lack_bounds()
    ensures { SameLoopsLackBounds }
{}
