//! The values of the parameters of a use.

ghost use Rattle.std.specs.Prelude.{◌≡◌, ◌↔◌, ◌<◌, All, Some, length, option_copied, IsTrue};
ghost use Rattle.p10_macros.specs.private.Places.{at_place, is_put};
ghost use Rattle.p10_macros.specs.private.Traces.{lists_of};

use crate::pending::Traced;

/// The value of the parameter at a place.
pub fn value_at<'v, 's>(
    values: &'v [Vec<Traced<'s>>],
    parameter: Option<usize>,
) -> Option<&'v [Traced<'s>]>
    ensures { option_copied result ≡ at_place parameter (lists_of values.now) }
{
    match parameter {
        None => None,
        Some(place) => match values.get(place) {
            None => None,
            Some(value) => Some(value.as_slice()),
        },
    }
}

/// Whether each value has words.
pub fn have_words(values: &[Vec<Traced<'_>>]) -> bool
    ensures { IsTrue result ↔ All (λ value. 0 < length value) (lists_of values.now) }
{
    for value in values {
        if value.is_empty() {
            return false;
        }
    }
    true
}

/// Whether something is put for the words that name the parameter at a place: its value has words, or is missing.
pub fn puts_words(values: &[Vec<Traced<'_>>], parameter: usize) -> bool
    ensures { result ≡ is_put (lists_of values.now) (Some parameter) }
{
    match value_at(values, Some(parameter)) {
        None => true,
        Some(value) => !value.is_empty(),
    }
}
