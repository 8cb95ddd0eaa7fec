//! The laws: each function does nothing, and its contract is the law.

ghost use Rattle.p10_loopless.specs.Loopless.{SameEntry, SamePass, SameSums, SameEffects, OneStandsWhole};

/// What is known at the entry of a function doesn't depend on the loops of others.
pub fn same_entry()
    ensures { SameEntry }
{}

/// What the pass over a function leaves doesn't depend on the loops of others.
pub fn same_pass()
    ensures { SamePass }
{}

/// What a function costs doesn't depend on the loops of others.
pub fn same_sums()
    ensures { SameSums }
{}

/// Whether a function may allocate or free memory doesn't depend on loops that are claimed.
pub fn same_effects()
    ensures { SameEffects }
{}

/// Claims without loops among which one stands whole agree on its function with the whole claims.
pub fn one_stands_whole()
    ensures { OneStandsWhole }
{}
