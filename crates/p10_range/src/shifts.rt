//! Shifts (C99 6.5.7).

ghost use Rattle.std.specs.Prelude.{◌≡◌, ◌^◌, pos, ◌≤ℤ◌, ◌<ℤ◌, unsigned_abs, IfSome};
ghost use Rattle.std.specs.Option.{option_map};
ghost use Rattle.p10_range.specs.Ranges.{interval_of};
ghost use Rattle.p10_range.specs.private.Small.{IsSmall};
ghost use Rattle.p10_range.specs.Rows.{shifts_left, shifted_by, shifts_right, shift_counts, at_ends, halved as half};

use crate::arithmetic::spread;
use crate::fitting::fitted;
use crate::ranges::Range;
use crate::sets::{meet, not_negative};
use p10_int::{IntType, promote, width};

/// `a << b`, and what the type makes of it; the counts of `b` may be any numbers.
#[tactic(auto, unfolding(crate::specs::Rows::shifts_left))]
pub fn shift_left(t: IntType, a: Range, b: Range) -> Option<Range>
    requires { IsSmall (interval_of a) }
    ensures { option_map interval_of result ≡ shifts_left t (interval_of a) (interval_of b) }
{
    let n = counts(t, b)?;
    let a = not_negative(a)?;
    fitted(t, shifted(a, n))
}

/// The numbers of `a`, which aren't negative, shifted by the counts of `n`.
fn shifted(a: Range, n: Range) -> Range
    requires natural { pos 0 ≤ℤ a.lo }
    requires small { IsSmall (interval_of a) }
    requires low { pos 0 ≤ℤ n.lo }
    requires high { n.hi <ℤ pos 64 }
    ensures { interval_of result ≡ shifted_by (interval_of n) (interval_of a) }
{
    Range {
        lo: a.lo * power(n.lo),
        hi: a.hi * power(n.hi),
    }
}

/// `a >> b`, rounded down; the counts of `b` may be any numbers.
#[tactic(auto, unfolding(crate::specs::Rows::shifts_right))]
pub fn shift_right(t: IntType, a: Range, b: Range) -> Option<Range>
    ensures { option_map interval_of result ≡ shifts_right t (interval_of a) (interval_of b) }
{
    let n = counts(t, b)?;
    Some(halves(a, n))
}

/// The results of `a >> n` at the ends.
fn halves(a: Range, n: Range) -> Range
    requires low { pos 0 ≤ℤ n.lo }
    requires high { n.hi <ℤ pos 64 }
    ensures { interval_of result ≡ at_ends half (interval_of a) (interval_of n) }
{
    spread(
        halved(a.lo, n.lo),
        halved(a.lo, n.hi),
        halved(a.hi, n.lo),
        halved(a.hi, n.hi),
    )
}

/// The numbers of `b` by which a value of the type may be shifted.
fn counts(t: IntType, b: Range) -> Option<Range>
    ensures value { option_map interval_of result ≡ shift_counts t (interval_of b) }
    ensures small { IfSome result (λ n. (pos 0 ≤ℤ n.lo) × (n.hi <ℤ pos 64)) }
{
    meet(
        b,
        Range {
            lo: 0,
            hi: i128::from(width(promote(t))) - 1,
        },
    )
}

/// 2 to the power of `n`.
fn power(n: i128) -> i128
    requires low { pos 0 ≤ℤ n }
    requires high { n <ℤ pos 64 }
    ensures value { result ≡ pos (2 ^ unsigned_abs n) }
    ensures small { result ≤ℤ pos (2 ^ 63) }
{
    i128::from(1u64 << n as u32)
}

/// `x` divided by 2 to the power of `n`, rounded down.
fn halved(x: i128, n: i128) -> i128
    requires low { pos 0 ≤ℤ n }
    requires high { n <ℤ pos 64 }
    ensures { result ≡ half x n }
{
    x.div_euclid(power(n))
}
