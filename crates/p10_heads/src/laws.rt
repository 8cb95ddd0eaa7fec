//! What holds of where names are defined: each law is the contract of a function without a body.

ghost use Rattle.p10_heads.specs.Laws.{NamesAreDefinedOnce};

/// A name is defined at its first declaration with a body or an initialiser, or else at the first tentative one.
pub fn names_are_defined_once()
    ensures { NamesAreDefinedOnce }
{}
