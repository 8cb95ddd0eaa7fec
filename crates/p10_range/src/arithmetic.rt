//! Exact sums, differences, negatives and products (C99 6.5.5, 6.5.6, 6.5.3.3).

ghost use Rattle.std.specs.Prelude.{◌≡◌, ◌↔◌, ◌-◌, ◌^◌, IsTrue, false, true, pos, ◌*ℤ◌, ◌≤ℤ◌};
ghost use Rattle.std.specs.Option.{option_map};
ghost use Rattle.p10_int.specs.Types.{is_signed_of};
ghost use Rattle.p10_range.specs.Ranges.{interval_of, IsWithin};
ghost use Rattle.p10_range.specs.private.Small.{IsSmall};
ghost use Rattle.p10_range.specs.Rows.{values_of, fitted_interval, sums, differences, products, negatives, spread as least_over};

use crate::fitting::{fitted, values};
use crate::ranges::Range;
use crate::sets::{between, hull};
use p10_int::{IntType, is_signed};

/// `a + b`.
pub fn sum(a: Range, b: Range) -> Range
    requires left { IsSmall (interval_of a) }
    requires right { IsSmall (interval_of b) }
    ensures { interval_of result ≡ sums (interval_of a) (interval_of b) }
{
    Range {
        lo: a.lo + b.lo,
        hi: a.hi + b.hi,
    }
}

/// `a - b`.
pub fn difference(a: Range, b: Range) -> Range
    requires left { IsSmall (interval_of a) }
    requires right { IsSmall (interval_of b) }
    ensures { interval_of result ≡ differences (interval_of a) (interval_of b) }
{
    Range {
        lo: a.lo - b.hi,
        hi: a.hi - b.lo,
    }
}

/// `-a`.
pub fn negative(a: Range) -> Range
    requires { IsSmall (interval_of a) }
    ensures { interval_of result ≡ negatives (interval_of a) }
{
    Range {
        lo: 0 - a.hi,
        hi: 0 - a.lo,
    }
}

/// The least range that has four numbers.
pub fn spread(p: i128, q: i128, r: i128, s: i128) -> Range
    ensures { interval_of result ≡ least_over p q r s }
{
    hull(between(p, q), between(r, s))
}

/// `a * b`, and what the type makes of it.
pub fn multiply(t: IntType, a: Range, b: Range) -> Option<Range>
    requires left { IsWithin (interval_of a) (values_of t) }
    requires right { IsWithin (interval_of b) (values_of t) }
    ensures { option_map interval_of result ≡ fitted_interval t (products (interval_of a) (interval_of b)) }
{
    if is_signed(t) {
        fitted(t, signed_product(t, a, b))
    } else {
        multiply_unsigned(t, a, b)
    }
}

/// `a * b` of a signed type.
fn signed_product(t: IntType, a: Range, b: Range) -> Range
    requires signed { is_signed_of t ≡ true }
    requires left { IsWithin (interval_of a) (values_of t) }
    requires right { IsWithin (interval_of b) (values_of t) }
    ensures { interval_of result ≡ products (interval_of a) (interval_of b) }
{
    spread(a.lo * b.lo, a.lo * b.hi, a.hi * b.lo, a.hi * b.hi)
}

/// `a * b` of an unsigned type: an exact product may need 128 bits and no sign.
fn multiply_unsigned(t: IntType, a: Range, b: Range) -> Option<Range>
    requires unsigned { is_signed_of t ≡ false }
    requires left { IsWithin (interval_of a) (values_of t) }
    requires right { IsWithin (interval_of b) (values_of t) }
    ensures { option_map interval_of result ≡ fitted_interval t (products (interval_of a) (interval_of b)) }
{
    let all = values(t);
    if is_product_at_most(a.hi, b.hi, all.hi) {
        fitted(t, natural_product(a, b, all.hi))
    } else {
        Some(all)
    }
}

/// Whether `x * y` is at most `most`, for numbers that aren't negative.
fn is_product_at_most(x: i128, y: i128, most: i128) -> bool
    requires x_natural { pos 0 ≤ℤ x }
    requires x_small { x ≤ℤ pos (2 ^ 64 - 1) }
    requires y_natural { pos 0 ≤ℤ y }
    requires y_small { y ≤ℤ pos (2 ^ 64 - 1) }
    requires most_natural { pos 0 ≤ℤ most }
    ensures { IsTrue result ↔ ((x *ℤ y) ≤ℤ most) }
{
    x as u128 * y as u128 <= most as u128
}

/// `a * b` for numbers that aren't negative, with products of at most `most`.
fn natural_product(a: Range, b: Range, most: i128) -> Range
    requires left { pos 0 ≤ℤ a.lo }
    requires right { pos 0 ≤ℤ b.lo }
    requires left_small { IsSmall (interval_of a) }
    requires right_small { IsSmall (interval_of b) }
    requires small { (a.hi *ℤ b.hi) ≤ℤ most }
    ensures { interval_of result ≡ products (interval_of a) (interval_of b) }
{
    Range {
        lo: a.lo * b.lo,
        hi: a.hi * b.hi,
    }
}
