//! What holds of edits and of the verdicts after them. Nothing runs here: each function stands for the laws that its contract states.

ghost use Rattle.p10_incr.specs.Laws.{SameFuncDecides, FirstIsFirst, CleanFunctionsSuffice};
ghost use Rattle.p10_incr.specs.SmallEdits.{EditsTouch, EditsRechecked};

/// Two claims are the same exactly where the test says so.
pub fn same_func_decides()
    ensures { SameFuncDecides }
{}

/// What the first of failing conditions is.
pub fn first_is_first()
    ensures { FirstIsFirst }
{}

/// Where no function that isn't dirty has a failing condition, the verdict is that on the whole certificate.
pub fn clean_functions_suffice()
    ensures { CleanFunctionsSuffice }
{}

/// The functions that edits of a small program touch.
pub fn edits_touch()
    ensures { EditsTouch }
{}

/// Verdicts after edits of a small program.
pub fn edits_rechecked()
    ensures { EditsRechecked }
{}
