//! What holds of all that a pass knows: each law is the contract of a function without a body.

ghost use Rattle.p10_known.specs.Laws.{PassesKeepTypes};

/// Where each range that is known before a whole statement is one of values of its variable's type, and has a value, and so each
/// that is claimed of results and at loops, this holds too of what is known at each end of the statement, and of what it returns.
pub fn ranges_stay_in_their_types()
    ensures { PassesKeepTypes }
{}
