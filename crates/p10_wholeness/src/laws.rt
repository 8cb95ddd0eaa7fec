//! The laws: each function does nothing, and its contract is the law.

ghost use Rattle.p10_wholeness.specs.Expressions.{ExpressionsAreWhole, TestsAreWhole};
ghost use Rattle.p10_wholeness.specs.Knowing.{MoreStructuresAreKnown, WholeTreesStay};
ghost use Rattle.p10_wholeness.specs.Laws.{TypesStayWhole, StructuresStayBuilt, ScopesStayWhole, MadeTypesAreWhole};

/// Where structures become more, types that are whole stay so, and those that have a size lie as before.
pub fn types_stay_whole()
    ensures { TypesStayWhole }
{}

/// Whatever is declared, structures stay well built, and become more.
pub fn structures_stay_built()
    ensures { StructuresStayBuilt }
{}

/// What names stand for stays whole, whatever is declared in declarations and bodies.
pub fn scopes_stay_whole()
    ensures { ScopesStayWhole }
{}

/// Types that specifiers name are whole, and so is what declarators make of them.
pub fn made_types_are_whole()
    ensures { MadeTypesAreWhole }
{}

/// Where structures become more, all that was known is.
pub fn more_structures_are_known()
    ensures { MoreStructuresAreKnown }
{}

/// Values and places that are whole stay so where more is known.
pub fn whole_trees_stay()
    ensures { WholeTreesStay }
{}

/// Assignments, steps and values that aren't void are whole as statements.
pub fn expressions_are_whole()
    ensures { ExpressionsAreWhole }
{}

/// Tests, values of `switch` and results are whole.
pub fn tests_are_whole()
    ensures { TestsAreWhole }
{}
