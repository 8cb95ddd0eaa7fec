//! The laws: each function does nothing, and its contract is the law.

ghost use Rattle.p10_difference_views.specs.Laws.{DifferencesStandByView};

/// For functions of one view the evidence of differences stands alike.
pub fn differences_stand_by_view()
    ensures { DifferencesStandByView }
{}
