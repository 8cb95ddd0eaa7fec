//! Tests: whether they must, can't or may hold of numbers of two ranges.

ghost use Rattle.std.specs.Prelude.{◌≡◌};
ghost use Rattle.p10_range.specs.Ranges.{interval_of};
ghost use Rattle.p10_range.specs.Rows.{tested, can_be_less as can_less, can_be_at_most as can_at_most, can_be_equal as can_equal, can_differ as can_be_other};

use crate::ranges::Range;

/// 1 where the contrary can't be, 0 where the test itself can't hold, else one of them.
pub fn outcome(itself: bool, contrary: bool) -> Range
    ensures { interval_of result ≡ tested itself contrary }
{
    Range {
        lo: i128::from(!contrary),
        hi: i128::from(itself || !contrary),
    }
}

/// Whether some number of `a` is less than some number of `b`.
pub fn can_be_less(a: Range, b: Range) -> bool
    ensures { result ≡ can_less (interval_of a) (interval_of b) }
{
    a.lo < b.hi
}

/// Whether some number of `a` is at most some number of `b`.
pub fn can_be_at_most(a: Range, b: Range) -> bool
    ensures { result ≡ can_at_most (interval_of a) (interval_of b) }
{
    a.lo <= b.hi
}

/// Whether both have a number.
pub fn can_be_equal(a: Range, b: Range) -> bool
    ensures { result ≡ can_equal (interval_of a) (interval_of b) }
{
    can_be_at_most(a, b) && can_be_at_most(b, a)
}

/// Whether some number of `a` is other than some number of `b`.
pub fn can_differ(a: Range, b: Range) -> bool
    ensures { result ≡ can_be_other (interval_of a) (interval_of b) }
{
    can_be_less(a, b) || can_be_less(b, a)
}
