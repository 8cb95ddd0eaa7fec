//! What holds of the lines of words: each function does nothing, and its contract is the law.

ghost use Rattle.p10_digests.specs.Laws.{WordsStandThere, LinesTellWords, BodiesAreLines, OutsideTellsWords};
ghost use Rattle.p10_digests.specs.SmallTexts.{SmallFunction, SmallOutside};

/// The words at a place are those that stand there.
pub fn words_stand_there()
    ensures { WordsStandThere }
{}

/// Words have the same lines exactly where they are the same but for their places.
pub fn lines_tell_words()
    ensures { LinesTellWords }
{}

/// Bodies that stand apart are one line `@` each, and all other words have lines of their own.
pub fn bodies_are_lines()
    ensures { BodiesAreLines }
{}

/// Roots have the same lines outside bodies exactly where these words are the same but for their places.
pub fn outside_tells_words()
    ensures { OutsideTellsWords }
{}

/// The lines of a function of a small program are this text.
pub fn small_function()
    ensures { SmallFunction }
{}

/// The lines outside the bodies of a small program of two roots are this text.
pub fn small_outside()
    ensures { SmallOutside }
{}
