//! What holds of problems that are noted while declarations are passed: each law is the contract of a function without a body.

ghost use Rattle.p10_elabd.specs.Laws.{TheFirstOfBothIsKept, LengthsAreTold, FormRowsAreTold};

/// Keeping the first problem of each part keeps the first of both together, so it doesn't matter in which order parts are passed.
pub fn the_first_of_both_is_kept()
    ensures { TheFirstOfBothIsKept }
{}

/// Each length of an array that isn't a constant of at least 1 is told, unless a part of it is refused.
pub fn lengths_are_told()
    ensures { LengthsAreTold }
{}

/// Each row on the form of a declarator is noted, whether or not its parts are refused.
pub fn form_rows_are_told()
    ensures { FormRowsAreTold }
{}
