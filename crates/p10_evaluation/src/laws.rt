//! What holds of evaluations: each law is the contract of a function without a body.

ghost use Rattle.p10_evaluation.specs.Laws.{ValuesAreFound, DiscardedValuesAreFound, ValuesMakeCoveredCalls, PlacesMakeCoveredCalls, ResultsOfTypesLie};

/// A value that an evaluation gives is held by its abstract value, and what is known where it is as true or false as it is
/// describes the frame; a value that is discarded has one where the evaluation goes on. The premises are that of the calls:
/// on arguments in the claimed ranges they give results in the claimed ranges, and no call in the value fails to have such
/// arguments.
pub fn values_are_found()
    ensures used { ValuesAreFound }
    ensures discarded { DiscardedValuesAreFound }
{}

/// An evaluation comes only to calls that claims cover: the arguments fit the parameters in a sound state and lie in the ranges
/// that are claimed of them. So what holds of all such calls holds of each that an evaluation comes to.
pub fn evaluations_make_covered_calls()
    ensures values { ValuesMakeCoveredCalls }
    ensures places { PlacesMakeCoveredCalls }
{}

/// Where no certificate stands, as while a claim is tried, what the other laws ask of calls holds in every whole program: a
/// result lies in its type.
pub fn results_lie_in_types()
    ensures { ResultsOfTypesLie }
{}
