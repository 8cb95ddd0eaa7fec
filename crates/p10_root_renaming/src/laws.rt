//! The laws: each function does nothing, and its contract is the law.

ghost use Rattle.p10_root_renaming.specs.Laws.{DeclarationsRenamed, DefinitionsRenamed, RootsRenamed};

/// In the same words declarations outside of functions declare the same in both programs.
pub fn declarations_renamed()
    ensures { DeclarationsRenamed }
{}

/// So do functions with their bodies, and they become the same.
pub fn definitions_renamed()
    ensures { DefinitionsRenamed }
{}

/// So do whole roots, one after the other.
pub fn roots_renamed()
    ensures { RootsRenamed }
{}
