//! What holds of what is found in expressions: each law is the contract of a function without a body.

ghost use Rattle.p10_elabx.specs.Laws.{TheFirstIsKept};
ghost use Rattle.p10_elabx.specs.Wholeness.{ValuesAreWhole};
ghost use Rattle.p10_elabx.specs.Answers.{TypedTreesAreUnique, NeverBoth, TheFirstIsOne};

/// Keeping only the first row at each tree keeps the first of all rows that hold in an expression: the one whose tree begins
/// first, of these the one with the least number, and of these the one of the smallest tree.
pub fn the_first_is_kept()
    ensures { TheFirstIsKept }
{}

/// A typed tree that is found is whole where the scope's names stand for what is there: its types agree as the rows of the
/// operators say, its numbers name what is in scope, and each constant lies in the range of its type.
pub fn values_are_whole()
    ensures { ValuesAreWhole }
{}

/// An expression has one typed tree at most.
pub fn typed_trees_are_unique()
    ensures { TypedTreesAreUnique }
{}

/// No expression is answered by a typed tree and by a row that holds.
pub fn never_both()
    ensures { NeverBoth }
{}

/// An expression has one first row at most: rows that may both be answered have one number, and stand at one tree by its words.
pub fn the_first_is_one()
    ensures { TheFirstIsOne }
{}
