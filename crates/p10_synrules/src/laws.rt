//! What holds of the rows at small trees, worked out by hand, and of the parts of all expressions. Nothing
//! runs here: each function stands for the law that its contract states.

ghost use Rattle.p10_synrules.specs.Laws.{PartsStandWithTheWhole, PartsAtExamples, CountsAtExamples, AssertionsAtExamples, ChiefsAtExamples, DereferencesAtExamples, DeclaratorsAtExamples};

/// Each part of an expression stands in the condition of an `if` where the whole does; and the parts of
/// small trees.
pub fn parts_are_right()
    ensures whole { PartsStandWithTheWhole }
    ensures examples { PartsAtExamples }
{}

/// How many declarations and statements small bodies have.
pub fn counts_are_right()
    ensures { CountsAtExamples }
{}

/// Which small assertions break which rows, and which function is reported for too few of them.
pub fn assertions_are_right()
    ensures assertions { AssertionsAtExamples }
    ensures chiefs { ChiefsAtExamples }
{}

/// Which small expressions dereference twice, and which declarators are pointers.
pub fn pointers_are_right()
    ensures dereferences { DereferencesAtExamples }
    ensures declarators { DeclaratorsAtExamples }
{}
