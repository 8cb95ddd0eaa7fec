//! Bitwise operators (C99 6.5.10 to 6.5.12, 6.5.3.3).

ghost use Rattle.std.specs.Prelude.{◌≡◌, ◌≤◌, pos, ◌≤ℤ◌, ◌^◌, ◌-◌};
ghost use Rattle.p10_range.specs.Ranges.{interval_of};
ghost use Rattle.p10_range.specs.private.Small.{IsSmall};
ghost use Rattle.p10_range.specs.Rows.{conjunctions, disjunctions, complements, binary_digits, up_to_digits as digits_of, mirrored as mirror};

use crate::fitting::values;
use crate::ranges::Range;
use p10_int::IntType;

/// `a & b`.
#[tactic(auto, unfolding(crate::specs::Rows::conjunctions))]
pub fn conjoin(t: IntType, a: Range, b: Range) -> Range
    ensures { interval_of result ≡ conjunctions t (interval_of a) (interval_of b) }
{
    match (0 <= a.lo, 0 <= b.lo) {
        (true, true) => Range {
            lo: 0,
            hi: a.hi.min(b.hi),
        },
        (true, false) => Range { lo: 0, hi: a.hi },
        (false, true) => Range { lo: 0, hi: b.hi },
        (false, false) => values(t),
    }
}

/// `a | b` and `a ^ b`.
#[tactic(auto, unfolding(crate::specs::Rows::disjunctions))]
pub fn disjoin(t: IntType, a: Range, b: Range) -> Range
    requires left { IsSmall (interval_of a) }
    requires right { IsSmall (interval_of b) }
    ensures { interval_of result ≡ disjunctions t (interval_of a) (interval_of b) }
{
    if 0 <= a.lo && 0 <= b.lo {
        up_to_ones(a.hi.max(b.hi))
    } else {
        values(t)
    }
}

/// From 0 to the least of 0, 1, 3, 7, .. that is `z` or more.
fn up_to_ones(z: i128) -> Range
    requires low { pos 0 ≤ℤ z }
    requires high { z ≤ℤ pos (2 ^ 64 - 1) }
    ensures { interval_of result ≡ digits_of z }
{
    Range {
        lo: 0,
        hi: ones_over(z),
    }
}

/// The least of 0, 1, 3, 7, .. that is `z` or more.
fn ones_over(z: i128) -> i128
    requires low { pos 0 ≤ℤ z }
    requires high { z ≤ℤ pos (2 ^ 64 - 1) }
    ensures { result ≡ pos (2 ^ binary_digits z - 1) }
{
    (1i128 << digits(z)) - 1
}

/// How many binary digits `z` has.
fn digits(z: i128) -> u32
    requires low { pos 0 ≤ℤ z }
    requires high { z ≤ℤ pos (2 ^ 64 - 1) }
    ensures value { result ≡ binary_digits z }
    ensures small { result ≤ 64 }
{
    64 - (z as u64).leading_zeros()
}

/// `~a`.
pub fn complement(t: IntType, a: Range) -> Range
    requires { IsSmall (interval_of a) }
    ensures { interval_of result ≡ complements t (interval_of a) }
{
    mirrored(values(t), a)
}

/// The sum of the ends of `all`, less the numbers of `a`.
fn mirrored(all: Range, a: Range) -> Range
    requires type_small { IsSmall (interval_of all) }
    requires small { IsSmall (interval_of a) }
    ensures { interval_of result ≡ mirror (interval_of all) (interval_of a) }
{
    let ends = all.lo + all.hi;
    Range {
        lo: ends - a.hi,
        hi: ends - a.lo,
    }
}
