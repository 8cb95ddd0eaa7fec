//! Midpoints: `x + (y - x) / k`, where x is at most y.

ghost use Rattle.std.specs.Prelude.{◌≡◌, ◌≤ℤ◌, pos, unsigned_abs, if◌then◌else◌, IfSome, OnOk, IfOk, None};
ghost use Rattle.std.specs.Int.{int_div_euclid};
ghost use Rattle.std.specs.Option.{option_map};
ghost use Rattle.p10_range.specs.Ranges.{interval_of};
ghost use Rattle.p10_core.specs.Types.{plain_type};
ghost use Rattle.p10_core.specs.Views.{plain_value};
ghost use Rattle.p10_diff.specs.Bounds.{lowest, highest};
ghost use Rattle.p10_diff.specs.Differences.{named_by, named};
ghost use Rattle.p10_diff.specs.Expressions.{value_range, is_exact, is_constant, at_least_two, only_divisor, divisor, distance_of, distance, part_of, part, midpoint_between, midpoint_of};
ghost use Rattle.p10_diff.specs.Listed.{name_of};
ghost use Rattle.p10_diff.specs.Knowing.{pair_by, differences_of};
ghost use Rattle.p10_diff.specs.Halves.{distance_by, part_by, midpoint_by, IsPart, IsMidpoint};
ghost use Rattle.p10_diff.specs.private.Ends.{midpoint_ends};

use crate::ends::{Ends, least_ends, plus_ends, variable_ends};
use crate::known::{Diff, Pair, range_of};
use crate::listed::Name;
use p10_absx::Env;
use p10_core::{CType, Value, ValueForm, integer_of};
use p10_int::{BinOp, is_signed};
use p10_range::Range;
use std::alloc::{AllocError, Global};

/// `y - x`, of two variables.
#[derive(Clone, Copy)]
pub struct Distance {
    pub below: u32,
    pub above: u32,
}

/// `(y - x) / k`.
#[derive(Clone, Copy)]
pub struct Part {
    pub of: Distance,
    pub by: i128,
}

/// `x + (y - x) / k`, and by how much y is above x, at least and at most.
#[derive(Clone, Copy)]
pub struct Midpoint {
    pub way: Distance,
    pub by: i128,
    pub at_least: i128,
    pub at_most: i128,
}

/// The range of a value.
pub(crate) fn value_range(
    alloc: Global,
    ranges: &mut Env,
    v: &Value,
) -> Result<Option<Range>, AllocError>
    ensures same { OnOk result (ranges.new ≡ ranges.old) }
    ensures is { IfOk result (λ r. option_map interval_of r ≡ value_range ranges.old.values (plain_value v.now)) }
{
    let a = ranges.value(alloc, None, v)?;
    Ok(range_of(a))
}

/// The variable that a value is, if it has a name.
pub(crate) fn named(
    alloc: Global,
    p: &Pair<'_, '_>,
    ranges: &mut Env,
    v: &Value,
) -> Result<Option<u32>, AllocError>
    ensures same { OnOk result (ranges.new ≡ ranges.old) }
    ensures is { IfOk result (λ n. n ≡ named (pair_by p.now) ranges.old.values (plain_value v.now)) }
{
    let n = ranges.variable_of(alloc, None, v)?;
    Ok(named_by(p, n))
}

/// A variable, if it has a name.
pub(crate) fn named_by(p: &Pair<'_, '_>, n: Option<u32>) -> Option<u32>
    ensures { result ≡ named_by (pair_by p.now) n }
{
    match n {
        Some(n) => { if p.has_name(n) { Some(n) } else { None } }
        None => None,
    }
}

/// Whether an operator's result at a type is exact, of integers.
pub(crate) fn is_exact(t: &CType, a: &Value, b: &Value) -> bool
    ensures { result ≡ is_exact (plain_type t.now) (plain_value a.now) (plain_value b.now) }
{
    (a.ty.is_integer() && b.ty.is_integer()) && (t.is_integer() && is_signed(integer_of(t)))
}

/// Whether a value is a constant, perhaps under conversions.
fn is_constant(v: &Value) -> bool
    ensures { result ≡ is_constant (plain_value v.now) }
{
    match &v.form {
        ValueForm::Const(_) => true,
        ValueForm::Convert(v) => is_constant(v),
        ValueForm::Cast(v) => is_constant(v),
        ValueForm::Read(_)
        | ValueForm::Sense(_)
        | ValueForm::Addr(_)
        | ValueForm::Decay(_)
        | ValueForm::Unary(_, _)
        | ValueForm::Binary(_, _, _)
        | ValueForm::Logic(_, _, _)
        | ValueForm::Cond(_, _, _)
        | ValueForm::Call(_, _, _)
        | ValueForm::Builtin(_, _, _) => false,
    }
}

/// A number, if it is at least 2.
#[tactic(auto, using(crate::proofs::Numbers::two_or_more, crate::proofs::Numbers::less_than_two))]
fn at_least_two(z: i128) -> Option<i128>
    ensures is { option_map unsigned_abs result ≡ at_least_two z }
    ensures two { IfSome result (λ k. pos 2 ≤ℤ k) }
{
    if z >= 2 { Some(z) } else { None }
}

/// The only number of a range, if that is at least 2.
fn only_divisor(r: Option<Range>) -> Option<i128>
    ensures is { option_map unsigned_abs result ≡ only_divisor (option_map interval_of r) }
    ensures two { IfSome result (λ k. pos 2 ≤ℤ k) }
{
    match r {
        Some(r) => {
            if r.lo == r.hi {
                at_least_two(r.lo)
            } else {
                None
            }
        }
        None => None,
    }
}

/// A constant of at least 2.
fn divisor(alloc: Global, ranges: &mut Env, v: &Value) -> Result<Option<i128>, AllocError>
    ensures same { OnOk result (ranges.new ≡ ranges.old) }
    ensures is { IfOk result (λ k. option_map unsigned_abs k ≡ divisor ranges.old.values (plain_value v.now)) }
    ensures two { IfOk result (λ k. IfSome k (λ k. pos 2 ≤ℤ k)) }
{
    if is_constant(v) {
        let r = value_range(alloc, ranges, v)?;
        Ok(only_divisor(r))
    } else {
        Ok(None)
    }
}

/// `y - x`, of two variables, if both are there.
fn distance_of(above: Option<u32>, below: Option<u32>) -> Option<Distance>
    ensures { option_map distance_by result ≡ distance_of above below }
{
    match above {
        Some(above) => match below {
            Some(below) => Some(Distance { below, above }),
            None => None,
        },
        None => None,
    }
}

/// `y - x`, where a difference of two values at a type is that.
fn subtracted(
    alloc: Global,
    p: &Pair<'_, '_>,
    ranges: &mut Env,
    t: &CType,
    a: &Value,
    b: &Value,
) -> Result<Option<Distance>, AllocError>
    ensures same { OnOk result (ranges.new ≡ ranges.old) }
    ensures is { IfOk result (λ d. option_map distance_by d ≡ (if is_exact (plain_type t.now) (plain_value a.now) (plain_value b.now) then distance_of (named (pair_by p.now) ranges.old.values (plain_value a.now)) (named (pair_by p.now) ranges.old.values (plain_value b.now)) else None)) }
{
    if !is_exact(t, a, b) {
        return Ok(None);
    }
    let above = named(alloc, p, ranges, a)?;
    let below = named(alloc, p, ranges, b)?;
    Ok(distance_of(above, below))
}

/// `y - x`, if a value is that.
fn distance_in(
    alloc: Global,
    p: &Pair<'_, '_>,
    ranges: &mut Env,
    v: &Value,
) -> Result<Option<Distance>, AllocError>
    ensures same { OnOk result (ranges.new ≡ ranges.old) }
    ensures is { IfOk result (λ d. option_map distance_by d ≡ distance (pair_by p.now) ranges.old.values (plain_value v.now)) }
{
    match &v.form {
        ValueForm::Binary(op, a, b) => match op {
            BinOp::Sub => subtracted(alloc, p, ranges, &v.ty, a, b),
            _ => Ok(None),
        },
        _ => Ok(None),
    }
}

/// `(y - x) / k`, if both are there.
fn part_of(of: Option<Distance>, by: Option<i128>) -> Option<Part>
    requires { IfSome by (λ k. pos 2 ≤ℤ k) }
    ensures is { option_map part_by result ≡ part_of (option_map distance_by of) (option_map unsigned_abs by) }
    ensures two { IfSome result IsPart }
{
    match of {
        Some(of) => match by {
            Some(by) => Some(Part { of, by }),
            None => None,
        },
        None => None,
    }
}

/// `(y - x) / k`, where a quotient of two values at a type is that.
fn divided(
    alloc: Global,
    p: &Pair<'_, '_>,
    ranges: &mut Env,
    t: &CType,
    a: &Value,
    b: &Value,
) -> Result<Option<Part>, AllocError>
    ensures same { OnOk result (ranges.new ≡ ranges.old) }
    ensures is { IfOk result (λ q. option_map part_by q ≡ (if is_exact (plain_type t.now) (plain_value a.now) (plain_value b.now) then part_of (distance (pair_by p.now) ranges.old.values (plain_value a.now)) (divisor ranges.old.values (plain_value b.now)) else None)) }
    ensures two { IfOk result (λ q. IfSome q IsPart) }
{
    if !is_exact(t, a, b) {
        return Ok(None);
    }
    let of = distance_in(alloc, p, ranges, a)?;
    let by = divisor(alloc, ranges, b)?;
    Ok(part_of(of, by))
}

/// `(y - x) / k`, if a value is that.
pub(crate) fn part_in(
    alloc: Global,
    p: &Pair<'_, '_>,
    ranges: &mut Env,
    v: &Value,
) -> Result<Option<Part>, AllocError>
    ensures same { OnOk result (ranges.new ≡ ranges.old) }
    ensures is { IfOk result (λ q. option_map part_by q ≡ part (pair_by p.now) ranges.old.values (plain_value v.now)) }
    ensures two { IfOk result (λ q. IfSome q IsPart) }
{
    match &v.form {
        ValueForm::Binary(op, a, b) => match op {
            BinOp::Div => divided(alloc, p, ranges, &v.ty, a, b),
            _ => Ok(None),
        },
        _ => Ok(None),
    }
}

/// The midpoint that is made of a part, where the distance is so much at least and at most.
fn midpoint_between(q: Part, low: Option<i128>, high: Option<i128>) -> Option<Midpoint>
    requires two { IsPart q }
    requires low { IfSome low (λ z. (lowest ≤ℤ z) × (z ≤ℤ highest)) }
    requires high { IfSome high (λ z. (lowest ≤ℤ z) × (z ≤ℤ highest)) }
    ensures is { option_map midpoint_by result ≡ midpoint_between (part_by q) low high }
    ensures small { IfSome result IsMidpoint }
{
    match low {
        Some(low) => match high {
            Some(high) => {
                if low <= 0 {
                    Some(Midpoint {
                        way: q.of,
                        by: q.by,
                        at_least: 0 - low,
                        at_most: high,
                    })
                } else {
                    None
                }
            }
            None => None,
        },
        None => None,
    }
}

/// The midpoint that a variable and a part make.
pub(crate) fn midpoint_of(
    p: &Pair<'_, '_>,
    e: &Diff,
    x: Option<u32>,
    q: Option<Part>,
) -> Option<Midpoint>
    requires { IfSome q IsPart }
    ensures is { option_map midpoint_by result ≡ midpoint_of (pair_by p.now) (differences_of e.now) x (option_map part_by q) }
    ensures small { IfSome result IsMidpoint }
{
    match x {
        Some(x) => match q {
            Some(q) => {
                if x != q.of.below {
                    return None;
                }
                let low = p.bound(e, Name::Now(x), Name::Now(q.of.above));
                let high = p.bound(e, Name::Now(q.of.above), Name::Now(x));
                midpoint_between(q, low, high)
            }
            None => None,
        },
        None => None,
    }
}

/// A distance divided by a number, rounded down.
fn quotient(d: i128, by: i128) -> i128
    requires two { pos 2 ≤ℤ by }
    requires low { lowest ≤ℤ d }
    requires high { d ≤ℤ highest }
    ensures is { result ≡ int_div_euclid d (pos (unsigned_abs by)) }
    ensures low { lowest ≤ℤ result }
    ensures high { result ≤ℤ highest }
{
    d.div_euclid(by)
}

/// By how much a midpoint is above a name, and below it, at most.
pub(crate) fn midpoint_ends(p: &Pair<'_, '_>, e: &Diff, m: Midpoint, w: Name) -> Ends
    requires { IsMidpoint m }
    ensures { result ≡ midpoint_ends (pair_by p.now) (differences_of e.now) (midpoint_by m) (name_of w) }
{
    let less = quotient(m.at_least, m.by);
    let more = quotient(m.at_most, m.by);
    let x = variable_ends(p, e, m.way.below, w);
    let y = variable_ends(p, e, m.way.above, w);
    let from_below = plus_ends(x, Some(more), Some(0 - less));
    let from_above = plus_ends(y, Some(less - m.at_least), Some(m.at_most - more));
    least_ends(from_below, from_above)
}
