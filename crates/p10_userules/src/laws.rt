//! What holds of uses, blocks and rows: each law is the contract of a function without a body.

ghost use Rattle.p10_userules.specs.Laws.{OccurrencesAreNamings, UsedOnlyIsUsedNowhereElse, ReachedAreBlocks};
ghost use Rattle.p10_userules.specs.Examples.{FileScopes, BlockScopes, Results, Parameters};

/// The occurrences in statements are the namings by the nodes of their trees, each once, in text order.
pub fn occurrences_are_namings()
    ensures { OccurrencesAreNamings }
{}

/// What is used only in a part is used there, and neither before nor after it.
pub fn used_only_is_used_nowhere_else()
    ensures { UsedOnlyIsUsedNowhereElse }
{}

/// A block that is reached without entering a loop is one of the blocks.
pub fn reached_are_blocks()
    ensures { ReachedAreBlocks }
{}

/// Small programs violate the rows exactly where they should.
pub fn small_programs_violate()
    ensures file_scopes { FileScopes }
    ensures block_scopes { BlockScopes }
    ensures results { Results }
    ensures parameters { Parameters }
{}
