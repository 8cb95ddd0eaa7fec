//! The laws: each function does nothing, and its contract is the law.

ghost use Rattle.p10_counterpart_renaming.specs.Laws.{CounterpartsRenamed, RootsOfCounterpartsRenamed};

/// After counterparts the same is known of both programs, and a function with the same body is the same.
pub fn counterparts_renamed()
    ensures { CounterpartsRenamed }
{}

/// So it is after roots of counterparts.
pub fn roots_of_counterparts_renamed()
    ensures { RootsOfCounterpartsRenamed }
{}
