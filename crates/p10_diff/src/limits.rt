//! Upper bounds of differences, of which each may be lacking.

ghost use Rattle.std.specs.Prelude.{◌≡◌, IfSome, ◌≤ℤ◌};
ghost use Rattle.std.specs.Option.{option_map};
ghost use Rattle.p10_range.specs.Ranges.{interval_of};
ghost use Rattle.p10_diff.specs.Bounds.{least, greatest, plus, kept, lowest, highest, is_at_most};
ghost use Rattle.p10_diff.specs.Differences.{top, bottom};

use p10_range::Range;

/// The least bound that is kept.
pub(crate) const LOWEST: i128 = -1_000_000_000_000_000_000_000;

/// The greatest bound that is kept.
pub(crate) const HIGHEST: i128 = 1_000_000_000_000_000_000_000;

/// The lesser of two bounds.
pub(crate) fn least(a: Option<i128>, b: Option<i128>) -> Option<i128>
    ensures { result ≡ least a b }
{
    match a {
        None => b,
        Some(a) => match b {
            None => Some(a),
            Some(b) => Some(a.min(b)),
        },
    }
}

/// The greater of two bounds: none where one is lacking.
pub(crate) fn greatest(a: Option<i128>, b: Option<i128>) -> Option<i128>
    ensures { result ≡ greatest a b }
{
    match a {
        None => None,
        Some(a) => match b {
            None => None,
            Some(b) => Some(a.max(b)),
        },
    }
}

/// A bound as it is kept.
pub(crate) fn kept(a: Option<i128>) -> Option<i128>
    ensures is { result ≡ kept a }
    ensures small { IfSome result (λ z. (lowest ≤ℤ z) × (z ≤ℤ highest)) }
{
    match a {
        None => None,
        Some(c) => {
            if c <= HIGHEST {
                Some(c.max(LOWEST))
            } else {
                None
            }
        }
    }
}

/// A bound of a sum. What is too great for 128 bits is too great to be kept, and what is too low is kept as the least.
pub(crate) fn plus(a: Option<i128>, b: Option<i128>) -> Option<i128>
    ensures { result ≡ plus a b }
{
    match a {
        None => None,
        Some(a) => match b {
            None => None,
            Some(b) => match a.checked_add(b) {
                Some(c) => kept(Some(c)),
                None => { if a < 0 { Some(LOWEST) } else { None } }
            },
        },
    }
}

/// Whether a bound is at most a number.
pub(crate) fn is_at_most(a: Option<i128>, z: i128) -> bool
    ensures { result ≡ is_at_most a z }
{
    match a {
        None => false,
        Some(c) => c <= z,
    }
}

/// The greatest number of a range.
pub(crate) fn top(r: Option<Range>) -> Option<i128>
    ensures { result ≡ top (option_map interval_of r) }
{
    match r {
        None => None,
        Some(r) => kept(Some(r.hi)),
    }
}

/// The least number of a range, negated.
pub(crate) fn bottom(r: Option<Range>) -> Option<i128>
    ensures { result ≡ bottom (option_map interval_of r) }
{
    match r {
        None => None,
        // the negative of a lesser number is too great to be kept
        Some(r) => {
            if r.lo >= LOWEST {
                kept(Some(0 - r.lo))
            } else {
                None
            }
        }
    }
}
