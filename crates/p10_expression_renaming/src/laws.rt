//! The laws: each function does nothing, and its contract is the law.

ghost use Rattle.p10_expression_renaming.specs.Laws.{ExpressionsRenamed, AssignmentsRenamed, StepsRenamed};

/// In the same words expressions are the same in both programs.
pub fn expressions_renamed()
    ensures { ExpressionsRenamed }
{}

/// So are assignments.
pub fn assignments_renamed()
    ensures { AssignmentsRenamed }
{}

/// So are `++` and `--`.
pub fn steps_renamed()
    ensures { StepsRenamed }
{}
