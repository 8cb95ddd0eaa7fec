//! Comparisons that hold.

ghost use Rattle.std.specs.Prelude.{◌≡◌, pos, ◌+ℤ◌, ◌-ℤ◌, ◌<ℤ◌};
ghost use Rattle.std.specs.Option.{option_map};
ghost use Rattle.p10_range.specs.Ranges.{interval_of, from_to, inhabited_of};
ghost use Rattle.p10_absx.specs.Comparing.{is_comparison as is_comparison_of, contrary as contrary_of, turned as turned_of, allowed as allowed_of};

use p10_int::BinOp;
use p10_range::{Range, meet};

/// Whether an operator compares.
pub fn is_comparison(op: BinOp) -> bool
    ensures { result ≡ is_comparison_of op }
{
    match op {
        BinOp::Lt | BinOp::Gt | BinOp::Le | BinOp::Ge | BinOp::Eq | BinOp::Ne => true,
        BinOp::Add | BinOp::Sub | BinOp::Mul | BinOp::Div | BinOp::Rem => false,
        BinOp::Shl | BinOp::Shr | BinOp::And | BinOp::Or | BinOp::Xor => false,
    }
}

/// The comparison that holds exactly where one doesn't.
pub fn contrary(op: BinOp) -> BinOp
    ensures { result ≡ contrary_of op }
{
    match op {
        BinOp::Lt => BinOp::Ge,
        BinOp::Ge => BinOp::Lt,
        BinOp::Gt => BinOp::Le,
        BinOp::Le => BinOp::Gt,
        BinOp::Eq => BinOp::Ne,
        BinOp::Ne => BinOp::Eq,
        _ => op,
    }
}

/// The comparison with its sides in the other order.
pub fn turned(op: BinOp) -> BinOp
    ensures { result ≡ turned_of op }
{
    match op {
        BinOp::Lt => BinOp::Gt,
        BinOp::Gt => BinOp::Lt,
        BinOp::Le => BinOp::Ge,
        BinOp::Ge => BinOp::Le,
        _ => op,
    }
}

/// The range from `lo` to `hi`, or `None` where it has no number.
fn inhabited(lo: i128, hi: i128) -> Option<Range>
    ensures { option_map interval_of result ≡ inhabited_of (from_to lo hi) }
{
    if lo <= hi {
        Some(Range { lo, hi })
    } else {
        None
    }
}

/// The numbers of `a` that may stand in the comparison with one of `b`.
pub fn allowed(op: BinOp, a: Range, b: Range) -> Option<Range>
    ensures { option_map interval_of result ≡ allowed_of op (interval_of a) (interval_of b) }
{
    match op {
        BinOp::Lt => below(a, b),
        BinOp::Le => inhabited(a.lo, a.hi.min(b.hi)),
        BinOp::Gt => above(a, b),
        BinOp::Ge => inhabited(a.lo.max(b.lo), a.hi),
        BinOp::Eq => meet(a, b),
        BinOp::Ne => other(a, b),
        _ => Some(a),
    }
}

/// The numbers of `a` that are below one of `b`.
fn below(a: Range, b: Range) -> Option<Range>
    ensures { option_map interval_of result ≡ allowed_of BinOp.Lt (interval_of a) (interval_of b) }
{
    if b.hi <= a.lo {
        return None;
    }
    let most = one_less(a.lo, b.hi);
    inhabited(a.lo, a.hi.min(most))
}

/// The numbers of `a` that are above one of `b`.
fn above(a: Range, b: Range) -> Option<Range>
    ensures { option_map interval_of result ≡ allowed_of BinOp.Gt (interval_of a) (interval_of b) }
{
    if a.hi <= b.lo {
        return None;
    }
    let least = one_more(b.lo, a.hi);
    inhabited(a.lo.max(least), a.hi)
}

/// The numbers of `a` without an end that is the only number of `b`.
fn other(a: Range, b: Range) -> Option<Range>
    ensures { option_map interval_of result ≡ allowed_of BinOp.Ne (interval_of a) (interval_of b) }
{
    if b.lo < b.hi {
        return Some(a);
    }
    if a.lo == b.lo {
        if a.lo == a.hi {
            return None;
        }
        return inhabited(one_more(a.lo, a.hi), a.hi);
    }
    if a.hi == b.lo {
        return inhabited(a.lo, one_less(a.lo, a.hi));
    }
    Some(a)
}

/// One less than a number that is greater than another one.
fn one_less(other: i128, number: i128) -> i128
    requires { other <ℤ number }
    ensures { result ≡ number -ℤ pos 1 }
{
    number - 1
}

/// One more than a number that is less than another one.
fn one_more(number: i128, other: i128) -> i128
    requires { number <ℤ other }
    ensures { result ≡ number +ℤ pos 1 }
{
    number + 1
}
