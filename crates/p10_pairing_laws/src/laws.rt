//! The laws: each function does nothing, and its contract is the law.

ghost use Rattle.p10_pairing_laws.specs.Laws.{FunctionsStaySame, ScopesStaySame};

/// Functions that are the same stay so.
pub fn functions_stay_same()
    ensures { FunctionsStaySame }
{}

/// So do scopes.
pub fn scopes_stay_same()
    ensures { ScopesStaySame }
{}
