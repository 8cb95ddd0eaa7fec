//! Ranges as sets of numbers.

ghost use Rattle.std.specs.Prelude.{◌≡◌, ◌↔◌, IsTrue};
ghost use Rattle.std.specs.Option.{option_map};
ghost use Rattle.p10_range.specs.Ranges.{interval_of, from_to, IsWithin, inhabited_of, hull_of, meet_of, between as between_of, not_negative as not_negative_of};

use crate::ranges::Range;

/// The least range that has the numbers of both.
pub fn hull(a: Range, b: Range) -> Range
    ensures { interval_of result ≡ hull_of (interval_of a) (interval_of b) }
{
    Range {
        lo: a.lo.min(b.lo),
        hi: a.hi.max(b.hi),
    }
}

/// Whether each number of `a` is one of `b`.
pub fn within(a: Range, b: Range) -> bool
    ensures { IsTrue result ↔ IsWithin (interval_of a) (interval_of b) }
{
    b.lo <= a.lo && a.hi <= b.hi
}

/// The numbers that both have, or `None` where there is none.
pub fn meet(a: Range, b: Range) -> Option<Range>
    ensures { option_map interval_of result ≡ meet_of (interval_of a) (interval_of b) }
{
    inhabited(a.lo.max(b.lo), a.hi.min(b.hi))
}

/// The range from `lo` to `hi`, or `None` where it has no number.
pub fn inhabited(lo: i128, hi: i128) -> Option<Range>
    ensures { option_map interval_of result ≡ inhabited_of (from_to lo hi) }
{
    if lo <= hi {
        Some(Range { lo, hi })
    } else {
        None
    }
}

/// The least range that has two numbers.
pub fn between(p: i128, q: i128) -> Range
    ensures { interval_of result ≡ between_of p q }
{
    Range {
        lo: p.min(q),
        hi: p.max(q),
    }
}

/// The numbers of the range that aren't negative, or `None` where there is none.
pub fn not_negative(a: Range) -> Option<Range>
    ensures { option_map interval_of result ≡ not_negative_of (interval_of a) }
{
    inhabited(a.lo.max(0), a.hi)
}
