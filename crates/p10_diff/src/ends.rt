//! Both bounds of a number and a name.

ghost use Rattle.std.specs.Prelude.{◌≡◌, Some};
ghost use Rattle.std.specs.Option.{option_map};
ghost use Rattle.p10_range.specs.Ranges.{interval_of};
ghost use Rattle.p10_diff.specs.Listed.{name_of};
ghost use Rattle.p10_diff.specs.Knowing.{pair_by, differences_of};
ghost use Rattle.p10_diff.specs.private.Ends.{plus_ends, least_ends, met_ends, named_ends};

use crate::known::{Diff, Pair};
use crate::limits::{bottom, kept, least, plus, top};
use crate::listed::Name;
use p10_absx::Env;
use p10_range::Range;

/// By how much a number is above a name, and below it, at most.
#[derive(Clone, Copy)]
pub(crate) struct Ends {
    pub(crate) above: Option<i128>,
    pub(crate) below: Option<i128>,
}

/// The bounds where neither is known.
pub(crate) const NO_ENDS: Ends = Ends {
    above: None,
    below: None,
};

/// The bounds of a sum, where what is added is so much at most, and so much at most when it is negated.
pub(crate) fn plus_ends(ends: Ends, most: Option<i128>, negated: Option<i128>) -> Ends
    ensures { result ≡ plus_ends ends most negated }
{
    Ends {
        above: plus(ends.above, most),
        below: plus(ends.below, negated),
    }
}

/// The lesser bounds of two.
pub(crate) fn least_ends(a: Ends, b: Ends) -> Ends
    ensures { result ≡ least_ends a b }
{
    Ends {
        above: least(a.above, b.above),
        below: least(a.below, b.below),
    }
}

/// The bounds by a row, and by a range.
pub(crate) fn met_ends(p: &Pair<'_, '_>, ranges: &Env, r: Option<Range>, w: Name, row: Ends) -> Ends
    ensures { result ≡ met_ends (pair_by p.now) ranges.now.values (option_map interval_of r) (name_of w) row }
{
    let other = p.range_named(ranges, w);
    Ends {
        above: kept(least(row.above, plus(top(r), bottom(other)))),
        below: kept(least(row.below, plus(top(other), bottom(r)))),
    }
}

/// A variable's own bounds.
pub(crate) fn variable_ends(p: &Pair<'_, '_>, e: &Diff, n: u32, w: Name) -> Ends
    ensures { result ≡ named_ends (pair_by p.now) (differences_of e.now) (Some n) (name_of w) }
{
    Ends {
        above: p.bound(e, Name::Now(n), w),
        below: p.bound(e, w, Name::Now(n)),
    }
}

/// The same, if there is a variable.
pub(crate) fn named_ends(p: &Pair<'_, '_>, e: &Diff, n: Option<u32>, w: Name) -> Ends
    ensures { result ≡ named_ends (pair_by p.now) (differences_of e.now) n (name_of w) }
{
    match n {
        Some(n) => variable_ends(p, e, n, w),
        None => NO_ENDS,
    }
}
