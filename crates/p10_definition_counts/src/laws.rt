//! The laws: each function does nothing, and its contract is the law.

ghost use Rattle.p10_definition_counts.specs.Laws.{DefinitionsAreCounted, FunctionsAreNamed, FunctionsFollow, NamesAreCounted};

/// Roots add functions after those that are known: one at most for each definition.
pub fn functions_follow()
    ensures { FunctionsFollow }
{}

/// Roots have the definitions of the trees that they are of.
pub fn definitions_counted()
    ensures { DefinitionsAreCounted }
{}

/// Where roots add as many functions as they have names for, the functions have these names.
pub fn functions_named()
    ensures { FunctionsAreNamed }
{}

/// The names of roots are those of the trees that they are of.
pub fn names_counted()
    ensures { NamesAreCounted }
{}
