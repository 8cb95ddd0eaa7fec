//! Quotients and remainders (C99 6.5.5).

ghost use Rattle.std.specs.Prelude.{◌≡◌, ◌^◌, pos, ◌≤ℤ◌};
ghost use Rattle.std.specs.Option.{option_map};
ghost use Rattle.p10_range.specs.Ranges.{interval_of, IsWithin};
ghost use Rattle.p10_range.specs.private.Small.{IsSmall};
ghost use Rattle.p10_range.specs.Rows.{values_of, quotients, quotients_at_ends, remainders, rests, magnitude as greatest_magnitude, up_to_magnitude as up_to};

use crate::arithmetic::spread;
use crate::fitting::values;
use crate::ranges::Range;
use crate::sets::meet;
use p10_int::IntType;

/// `a / b`, and what the type makes of it.
#[tactic(auto, unfolding(crate::specs::Rows::quotients))]
pub fn divide(t: IntType, a: Range, b: Range) -> Option<Range>
    requires { IsSmall (interval_of a) }
    ensures { option_map interval_of result ≡ quotients t (interval_of a) (interval_of b) }
{
    if b.lo < 0 {
        meet(up_to_magnitude(a), values(t))
    } else if b.hi <= 0 {
        None
    } else {
        Some(divide_at_ends(a, b))
    }
}

/// The quotients at the ends, where no divisor is negative and one isn't 0.
fn divide_at_ends(a: Range, b: Range) -> Range
    requires left { IsSmall (interval_of a) }
    requires positive { pos 1 ≤ℤ b.hi }
    ensures { interval_of result ≡ quotients_at_ends (interval_of a) (interval_of b) }
{
    let least = b.lo.max(1);
    spread(a.lo / least, a.lo / b.hi, a.hi / least, a.hi / b.hi)
}

/// `a % b`.
#[tactic(auto, unfolding(crate::specs::Rows::remainders))]
pub fn remain(a: Range, b: Range) -> Option<Range>
    requires { IsSmall (interval_of b) }
    ensures { option_map interval_of result ≡ remainders (interval_of a) (interval_of b) }
{
    let most = magnitude(b);
    if most <= 0 { None } else { Some(rest(a, most)) }
}

/// What divisors of magnitudes up to `most` can leave of `a`.
fn rest(a: Range, most: i128) -> Range
    requires low { pos 1 ≤ℤ most }
    ensures { interval_of result ≡ rests (interval_of a) most }
{
    Range {
        lo: a.lo.max(1 - most).min(0),
        hi: a.hi.min(most - 1).max(0),
    }
}

/// The numbers of magnitudes up to the greatest of `a`.
fn up_to_magnitude(a: Range) -> Range
    requires { IsSmall (interval_of a) }
    ensures { interval_of result ≡ up_to (interval_of a) }
{
    let most = magnitude(a);
    Range {
        lo: 0 - most,
        hi: most,
    }
}

/// The greatest magnitude of the numbers of a range.
fn magnitude(a: Range) -> i128
    requires { IsSmall (interval_of a) }
    ensures value { result ≡ greatest_magnitude (interval_of a) }
    ensures not_negative { pos 0 ≤ℤ result }
    ensures small { result ≤ℤ pos (2 ^ 64) }
{
    a.hi.max(0 - a.lo)
}
