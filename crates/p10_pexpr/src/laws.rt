//! Laws of the grammar of expressions.

ghost use Rattle.p10_pexpr.specs.Laws.{ExpressionsAreUnique, PlacedTreesAreUnique};

/// An expression's tree is unique: where two trees spell the same words, they are one.
pub fn one_tree()
    ensures { ExpressionsAreUnique }
{}

/// Nor do two trees with their places spell the same words: the tree of [`crate::expr`] is the only one.
pub fn one_placed_tree()
    ensures { PlacedTreesAreUnique }
{}
