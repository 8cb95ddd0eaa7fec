//! What holds of what trees come to: each law is the contract of a function without a body.

ghost use Rattle.p10_elab.specs.Laws.{TheFirstIsAnswered, AnswersHaveCauses, RootsAreFound, NamelessParametersAreTold};
ghost use Rattle.p10_elab.specs.Examples.{ProgramsAreSettled};

/// Of all rows that hold, the one is answered whose tree begins first, of these the one with the least number, and of these the one of the
/// smallest tree.
pub fn the_first_is_answered()
    ensures { TheFirstIsAnswered }
{}

/// Small programs, worked out by hand: each row of the subset refuses one at the word where it is expected, and programs beside them are
/// accepted.
pub fn programs_are_settled()
    ensures { ProgramsAreSettled }
{}

/// A program is answered only where no row of the subset holds and nothing exceeds limit M8, and that limit only where no row holds.
pub fn answers_have_causes()
    ensures { AnswersHaveCauses }
{}

/// Roots that follow one another in one list are told apart: each begins with its own first word.
pub fn roots_are_found()
    ensures { RootsAreFound }
{}

/// Each parameter without a name of a function with a body is told, also where another part of the function is refused.
pub fn nameless_parameters_are_told()
    ensures { NamelessParametersAreTold }
{}
