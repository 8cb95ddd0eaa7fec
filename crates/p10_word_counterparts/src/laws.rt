//! The laws: each function does nothing, and its contract is the law.

ghost use Rattle.p10_word_counterparts.specs.Laws.{ReadingsAreTyped, ReadingsHaveCounterparts};

/// A program that files are read as is what the trees come to that spell their words.
pub fn readings_are_typed()
    ensures { ReadingsAreTyped }
{}

/// Programs with the same lines outside of bodies have the same trees there, and the same bodies of functions with the same lines.
pub fn readings_have_counterparts()
    ensures { ReadingsHaveCounterparts }
{}
