//! The rows of rule 10 on small programs: each law is the contract of a function without a body.

ghost use Rattle.std.specs.Prelude.{[], ◌∷◌};
ghost use Rattle.p10_warn.specs.SmallPrograms.{HasJust, row_found, careless_names, tidy_names, mixing, keeping, falling, ending};

/// What is never named or called, and names that hide outer ones (rows 1, 2 and 5).
pub fn names_are_judged()
    ensures violated { HasJust careless_names (row_found 1 1 ∷ row_found 1 3 ∷ row_found 1 4 ∷ row_found 2 2 ∷ row_found 5 3 ∷ row_found 5 4 ∷ []) }
    ensures clean { HasJust tidy_names [] }
{}

/// Conversions that may change a value, and comparisons of signed with unsigned operands (rows 3 and 4).
pub fn values_are_judged()
    ensures violated { HasJust mixing (row_found 3 12 ∷ row_found 3 20 ∷ row_found 3 31 ∷ row_found 3 30 ∷ row_found 4 41 ∷ row_found 3 43 ∷ []) }
    ensures clean { HasJust keeping [] }
{}

/// `switch` without `default`, what stands after a jump, and ends without `return` (rows 6, 7 and 8).
pub fn statements_are_judged()
    ensures violated { HasJust falling (row_found 6 3 ∷ row_found 7 8 ∷ row_found 8 9 ∷ []) }
    ensures clean { HasJust ending [] }
{}
