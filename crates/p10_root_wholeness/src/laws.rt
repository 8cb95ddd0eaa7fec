//! The laws: each function does nothing, and its contract is the law.

ghost use Rattle.p10_root_wholeness.specs.Laws.{StructuresAreWhole, RootsAreKnown, AnswersAreWholeInPart, ScopesOfRootsAreWhole};

/// The structures of the program that roots come to are whole, whatever is declared in them.
pub fn structures_are_whole()
    ensures { StructuresAreWhole }
{}

/// Where the roots are taken together, all is known that was at the end of the last one, and types keep their sizes.
pub fn roots_are_known()
    ensures { RootsAreKnown }
{}

/// A program that is answered has whole structures, and is within limits.
pub fn answers_are_whole_in_part()
    ensures { AnswersAreWholeInPart }
{}

/// What names stand for stays whole over all roots.
pub fn scopes_of_roots_are_whole()
    ensures { ScopesOfRootsAreWhole }
{}
