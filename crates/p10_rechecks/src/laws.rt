//! The laws: each function does nothing, and its contract is the law.

ghost use Rattle.p10_rechecks.specs.Laws.{RechecksAsWhole, RangesRecheckAsWhole};

/// The verdict after an edit is that on the whole certificate.
pub fn rechecks_as_whole()
    ensures { RechecksAsWhole }
{}

/// The same with the evidence of ranges, before the edit and after it.
pub fn ranges_recheck_as_whole()
    ensures { RangesRecheckAsWhole }
{}
