//! The laws: each function does nothing, and its contract is the law.

ghost use Rattle.p10_statement_renaming.specs.Laws.{BlocksRenamed, StatementsRenamed, BodiesRenamed};

/// In the same words declarations in blocks are the same in both programs.
pub fn blocks_renamed()
    ensures { BlocksRenamed }
{}

/// So are statements.
pub fn statements_renamed()
    ensures { StatementsRenamed }
{}

/// So are bodies.
pub fn bodies_renamed()
    ensures { BodiesRenamed }
{}
