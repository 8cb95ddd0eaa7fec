//! The law: the function does nothing, and its contract is the law.

ghost use Rattle.p10_declaration_steps.specs.Laws.{DeclarationsTakeSteps};

/// Specifiers, declarators and initialisers change what stands by such steps alone.
pub fn declarations_take_steps()
    ensures { DeclarationsTakeSteps }
{}
