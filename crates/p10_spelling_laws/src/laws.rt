//! The laws: each function does nothing, and its contract is the law.

ghost use Rattle.p10_spelling_laws.specs.Laws.{ExpressionsStandInBoth, DeclarationsStandInBoth, StatementsStandInBoth, ExpandedAreSound, RunsTellTrees, SameWordsSameTrees, WordsTellFunction};

/// An expression among the words of two roots is one tree with two places.
pub fn expressions_stand_in_both()
    ensures { ExpressionsStandInBoth }
{}

/// A declaration among the words of two roots is one tree with two places.
pub fn declarations_stand_in_both()
    ensures { DeclarationsStandInBoth }
{}

/// The statements of a body among the words of two roots are one tree with two places.
pub fn statements_stand_in_both()
    ensures { StatementsStandInBoth }
{}

/// Trees of a root whose words outside of bodies are the same are the same but for bodies.
pub fn runs_tell_trees()
    ensures { RunsTellTrees }
{}

/// Where the words of a function are the same too, so is the function.
pub fn words_tell_function()
    ensures { WordsTellFunction }
{}

/// Where roots have the same lines outside of bodies, their trees are counterparts; and so are the bodies of a function that has the same
/// lines.
pub fn same_words_same_trees()
    ensures { SameWordsSameTrees }
{}

/// All words of an expansion are marks and lexemes, which end no line, and their numbers fit 32 bits.
pub fn expanded_are_sound()
    ensures { ExpandedAreSound }
{}
