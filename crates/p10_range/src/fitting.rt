//! What a type makes of the exact range of its results.

ghost use Rattle.std.specs.Prelude.{◌≡◌};
ghost use Rattle.std.specs.Option.{option_map};
ghost use Rattle.p10_range.specs.Ranges.{interval_of};
ghost use Rattle.p10_range.specs.Rows.{values_of, exact_or_all, fitted_interval};

use crate::ranges::Range;
use crate::sets::meet;
use p10_int::{IntType, is_signed, range};

/// The values of the type.
pub fn values(t: IntType) -> Range
    ensures { interval_of result ≡ values_of t }
{
    let (lo, hi) = range(t);
    Range { lo, hi }
}

/// The part of an exact range that a signed type has; of an unsigned type the range where it has
/// all of it, else all its values.
#[tactic(auto, unfolding(crate::specs::Rows::fitted_interval))]
pub fn fitted(t: IntType, exact: Range) -> Option<Range>
    ensures { option_map interval_of result ≡ fitted_interval t (interval_of exact) }
{
    if is_signed(t) {
        meet(exact, values(t))
    } else {
        Some(whole_or_all(t, exact))
    }
}

/// The range where the type has all of it, else all values of the type.
pub fn whole_or_all(t: IntType, exact: Range) -> Range
    ensures { interval_of result ≡ exact_or_all t (interval_of exact) }
{
    let all = values(t);
    if all.lo <= exact.lo && exact.hi <= all.hi {
        exact
    } else {
        all
    }
}
