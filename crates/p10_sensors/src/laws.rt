//! What holds of texts of values: each function does nothing, and its contract is the law.

ghost use Rattle.p10_sensors.specs.Laws.{TextsTellValues, OneFirstOther, OtherIsNoText, SmallText};

/// A text is that of one list of values at most.
pub fn texts_tell_values()
    ensures { TextsTellValues }
{}

/// A text has one first line of another form at most.
pub fn one_first_other()
    ensures { OneFirstOther }
{}

/// A text with a line of another form is no text of values.
pub fn other_is_no_text()
    ensures { OtherIsNoText }
{}

/// The text of some values, written out.
pub fn small_text()
    ensures { SmallText }
{}
