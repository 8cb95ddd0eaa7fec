//! The law: the function does nothing, and its contract is the law.

ghost use Rattle.p10_statement_steps.specs.Laws.{StatementsTakeSteps};

/// Declarations in blocks and items of bodies change what stands by such steps alone.
pub fn statements_take_steps()
    ensures { StatementsTakeSteps }
{}
