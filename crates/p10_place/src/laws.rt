//! Laws of places.

ghost use Rattle.p10_place.specs.Examples.{ExamplesStand};
ghost use Rattle.p10_place.specs.Laws.{PartsStand, PlacesAdd, WordsAreCounted};

/// A tree in its place is the same tree.
pub fn places_add()
    ensures { PlacesAdd }
{}

/// A tree spells as many words as are counted.
pub fn words_are_counted()
    ensures { WordsAreCounted }
{}

/// Each part of an expression's tree stands on the words that it spells.
pub fn parts_stand()
    ensures { PartsStand }
{}

/// Where the parts of small trees stand, as worked out by hand.
pub fn examples_stand()
    ensures { ExamplesStand }
{}
