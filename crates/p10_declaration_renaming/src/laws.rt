//! The laws: each function does nothing, and its contract is the law.

ghost use Rattle.p10_declaration_renaming.specs.Laws.{SpecifiersRenamed, DeclaratorsRenamed, InitializersRenamed};

/// In the same words specifiers declare the same in both programs.
pub fn specifiers_renamed()
    ensures { SpecifiersRenamed }
{}

/// So do declarators.
pub fn declarators_renamed()
    ensures { DeclaratorsRenamed }
{}

/// Initialisers are the same.
pub fn initializers_renamed()
    ensures { InitializersRenamed }
{}
