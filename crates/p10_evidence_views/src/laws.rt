//! The laws: each function does nothing, and its contract is the law.

ghost use Rattle.p10_evidence_views.specs.Laws.{RangesStandByView};

/// For functions of one view the evidence of ranges stands alike.
pub fn ranges_stand_by_view()
    ensures { RangesStandByView }
{}
