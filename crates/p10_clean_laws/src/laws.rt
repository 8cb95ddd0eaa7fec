//! Laws of clean operators: each is the contract of a function without a body.

ghost use Rattle.p10_clean_laws.specs.Exact.{CleanArithmeticIsExact, CleanShiftsGo};

/// A sum, a difference, a product or a negation at a signed type is clean exactly where the type has its exact result on all numbers of
/// its operands; a shift is clean exactly where it has a result on all of them.
pub fn clean_operators_stay_in_their_types()
    ensures arithmetic { CleanArithmeticIsExact }
    ensures shifts { CleanShiftsGo }
{}
