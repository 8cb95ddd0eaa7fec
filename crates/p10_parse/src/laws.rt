//! Laws of the grammar of declarations and functions.

ghost use Rattle.p10_parse.specs.Examples.{ExamplesAreRead};
ghost use Rattle.p10_parse.specs.Laws.{ExternalsAreApart, FaultsAreOne, LongestsAreOne, ReadingIsLongest, RootsAreUnique, SpelledHaveNoFault, UnitsAreOne};

/// Trees are unique, and no declaration or function spells a proper prefix of what another spells.
pub fn no_prefixes()
    ensures { ExternalsAreApart }
{}

/// A root has one tree at most.
pub fn one_root()
    ensures { RootsAreUnique }
{}

/// One prefix is the longest that is spelled.
pub fn one_longest()
    ensures { LongestsAreOne }
{}

/// Reading one after the other finds the longest prefix.
pub fn reads_longest()
    ensures { ReadingIsLongest }
{}

/// Where the words alone would allow several trees, the right one is read.
pub fn reads_examples()
    ensures { ExamplesAreRead }
{}

/// The trees of all roots are one.
pub fn one_list_of_units()
    ensures { UnitsAreOne }
{}

/// Roots that are within the limit and that trees spell have no fault.
pub fn no_fault_where_spelled()
    ensures { SpelledHaveNoFault }
{}

/// Roots have one fault at most.
pub fn one_fault()
    ensures { FaultsAreOne }
{}
