//! What the operators of C give on abstract values.

ghost use Rattle.std.specs.Prelude.{◌≡◌, IsTrue, pos, ◌≤ℤ◌};
ghost use Rattle.std.specs.Option.{option_map, option_and_then};
ghost use Rattle.p10_range.specs.Ranges.{interval_of, is_within, IsWithin};
ghost use Rattle.p10_range.specs.Rows.{values_of, sums, differences, negatives};
ghost use Rattle.p10_range.specs.Operands.{IsRightOperand};
ghost use Rattle.p10_range.specs.private.Small.{IsSmall};
ghost use Rattle.p10_absx.specs.Abstract.{offset_of, abstract_of, only_range as only_range_of, whole_type as whole_type_of, is_near as is_near_of, moved_by as moved_by_of, near as near_of, hull_offset as hull_offset_of, hull_abstract as hull_of};
ghost use Rattle.p10_absx.specs.private.Nearness.{IsNear};
ghost use Rattle.p10_absx.specs.Operators.{is_exact as is_exact_of, converted_range as converted_range_of, converted_abstract, unary_offset as unary_offset_of, unary_abstract, sum_offset as sum_offset_of, shrunk as shrunk_of, shrunk_offset as shrunk_offset_of, binary_offset as binary_offset_of, is_right_operand as is_right_operand_of, binary_abstract};

use crate::abs::Abs;
use p10_int::{BinOp, IntType, UnOp, is_signed, range};
use p10_range::{Range, binary, convert_range, hull, unary, within};

/// The greatest magnitude of a difference that is kept: 2 to the power of 66.
const FARTHEST: i128 = 73_786_976_294_838_206_464;

/// The least value of all integer types: -2 to the power of 63.
const LEAST: i128 = -9_223_372_036_854_775_808;

/// The greatest value of all integer types: 2 to the power of 64, less 1.
const GREATEST: i128 = 18_446_744_073_709_551_615;

/// The values of a type.
pub fn values(kind: IntType) -> Range
    ensures { interval_of result ≡ values_of kind }
{
    let (lo, hi) = range(kind);
    Range { lo, hi }
}

/// A range without an offset.
pub fn only_range(range: Range) -> Abs
    ensures { abstract_of result ≡ only_range_of (interval_of range) }
{
    Abs {
        range,
        offset: None,
    }
}

/// Any value of a type.
pub fn whole_type(kind: IntType) -> Abs
    ensures { abstract_of result ≡ whole_type_of kind }
{
    only_range(values(kind))
}

/// Whether each number of `a` is one of `b`.
pub fn lies_within(a: Range, b: Range) -> bool
    ensures { result ≡ is_within (interval_of a) (interval_of b) }
{
    b.lo <= a.lo && a.hi <= b.hi
}

/// Whether a range of differences is kept.
fn is_near(r: Range) -> bool
    ensures { result ≡ is_near_of (interval_of r) }
{
    -FARTHEST <= r.lo && r.hi <= FARTHEST
}

/// The offset of a number that differs from another one by a number of a range.
#[tactic(auto, using(crate::proofs::Nearness::near_in))]
fn moved_by(r: Range, offset: (u32, Range)) -> Option<(u32, Range)>
    ensures { option_map offset_of result ≡ moved_by_of (interval_of r) (offset_of offset) }
{
    if is_near(offset.1) && is_near(r) {
        near(offset.0, sum(offset.1, r))
    } else {
        None
    }
}

/// The sums of numbers of two ranges.
fn sum(a: Range, b: Range) -> Range
    requires left { IsNear (interval_of a) }
    requires right { IsNear (interval_of b) }
    ensures { interval_of result ≡ sums (interval_of a) (interval_of b) }
{
    Range {
        lo: a.lo + b.lo,
        hi: a.hi + b.hi,
    }
}

/// An offset, unless its range is too far.
fn near(about: u32, by: Range) -> Option<(u32, Range)>
    ensures { option_map offset_of result ≡ near_of (offset_of (about, by)) }
{
    if is_near(by) { Some((about, by)) } else { None }
}

/// The same for an offset that may be lacking.
fn maybe_moved(r: Range, offset: Option<(u32, Range)>) -> Option<(u32, Range)>
    ensures { option_map offset_of result ≡ option_and_then (moved_by_of (interval_of r)) (option_map offset_of offset) }
{
    match offset {
        Some(offset) => moved_by(r, offset),
        None => None,
    }
}

/// An offset that both have about one variable.
fn hull_offset(a: Option<(u32, Range)>, b: Option<(u32, Range)>) -> Option<(u32, Range)>
    ensures { option_map offset_of result ≡ hull_offset_of (option_map offset_of a) (option_map offset_of b) }
{
    match (a, b) {
        (Some((about, by)), Some((other, others))) => {
            if about == other {
                Some((about, hull(by, others)))
            } else {
                None
            }
        }
        _ => None,
    }
}

/// The least abstract value that has the numbers of both.
pub fn hull_abstract(a: Abs, b: Abs) -> Abs
    ensures { abstract_of result ≡ hull_of (abstract_of a) (abstract_of b) }
{
    Abs {
        range: hull(a.range, b.range),
        offset: hull_offset(a.offset, b.offset),
    }
}

/// A conversion to a type (C99 6.3.1).
pub fn converted(kind: IntType, a: Abs) -> Abs
    ensures { abstract_of result ≡ converted_abstract kind (abstract_of a) }
{
    if lies_within(a.range, values(kind)) {
        a
    } else {
        only_range(converted_range(kind, a.range))
    }
}

/// The range of a number of a range converted to a type.
fn converted_range(kind: IntType, r: Range) -> Range
    ensures { interval_of result ≡ converted_range_of kind (interval_of r) }
{
    if LEAST <= r.lo && r.hi <= GREATEST {
        convert_range(kind, r)
    } else {
        values(kind)
    }
}

/// A unary operator at the type of its operand (C99 6.5.3.3).
pub fn unary_value(op: UnOp, kind: IntType, a: Abs) -> Option<Abs>
    ensures { option_map abstract_of result ≡ unary_abstract op kind (abstract_of a) }
{
    if !within(a.range, values(kind)) {
        return Some(whole_type(kind));
    }
    match unary(op, kind, a.range) {
        Some(range) => Some(Abs {
            range,
            offset: unary_offset(op, a.offset),
        }),
        None => None,
    }
}

/// What a unary operator does to an offset.
fn unary_offset(op: UnOp, offset: Option<(u32, Range)>) -> Option<(u32, Range)>
    ensures { option_map offset_of result ≡ unary_offset_of op (option_map offset_of offset) }
{
    match op {
        UnOp::Plus => offset,
        UnOp::Neg | UnOp::Not | UnOp::Com => None,
    }
}

/// Whether results at a type are exact.
fn is_exact(kind: IntType, r: Range) -> bool
    ensures { result ≡ is_exact_of kind (interval_of r) }
{
    is_signed(kind) || lies_within(r, values(kind))
}

/// The difference by which a quotient by at least 2 of a positive number is smaller.
fn shrunk(a: Range) -> Range
    requires { pos 1 ≤ℤ a.lo }
    ensures { interval_of result ≡ shrunk_of (interval_of a) }
{
    Range {
        lo: 0 - a.hi,
        hi: -1,
    }
}

/// The offset of a number that is made smaller, where it is positive.
fn shrunk_offset(a: Abs, b: Range, least: i128) -> Option<(u32, Range)>
    ensures { option_map offset_of result ≡ shrunk_offset_of (abstract_of a) (interval_of b) least }
{
    if a.range.lo >= 1 && b.lo >= least {
        maybe_moved(shrunk(a.range), a.offset)
    } else {
        None
    }
}

/// The negatives of the numbers of a range.
fn negative(r: Range) -> Range
    requires { IsSmall (interval_of r) }
    ensures { interval_of result ≡ negatives (interval_of r) }
{
    Range {
        lo: 0 - r.hi,
        hi: 0 - r.lo,
    }
}

/// The sums of numbers that types of C have.
fn small_sum(a: Range, b: Range) -> Range
    requires left { IsSmall (interval_of a) }
    requires right { IsSmall (interval_of b) }
    ensures { interval_of result ≡ sums (interval_of a) (interval_of b) }
{
    Range {
        lo: a.lo + b.lo,
        hi: a.hi + b.hi,
    }
}

/// The differences of numbers that types of C have.
fn small_difference(a: Range, b: Range) -> Range
    requires left { IsSmall (interval_of a) }
    requires right { IsSmall (interval_of b) }
    ensures { interval_of result ≡ differences (interval_of a) (interval_of b) }
{
    Range {
        lo: a.lo - b.hi,
        hi: a.hi - b.lo,
    }
}

/// The offset of a sum that is exact.
#[tactic(auto, using(p10_range::proofs::Small::small_in))]
fn sum_offset(kind: IntType, a: Abs, b: Abs) -> Option<(u32, Range)>
    requires left { IsWithin (interval_of a.range) (values_of kind) }
    requires right { IsWithin (interval_of b.range) (values_of kind) }
    ensures { option_map offset_of result ≡ binary_offset_of BinOp.Add kind (abstract_of a) (abstract_of b) }
{
    if !is_exact(kind, small_sum(a.range, b.range)) {
        return None;
    }
    match a.offset {
        Some(offset) => moved_by(b.range, offset),
        None => maybe_moved(a.range, b.offset),
    }
}

/// The offset of a difference that is exact.
#[tactic(auto, using(p10_range::proofs::Small::small_in))]
fn difference_offset(kind: IntType, a: Abs, b: Abs) -> Option<(u32, Range)>
    requires left { IsWithin (interval_of a.range) (values_of kind) }
    requires right { IsWithin (interval_of b.range) (values_of kind) }
    ensures { option_map offset_of result ≡ binary_offset_of BinOp.Sub kind (abstract_of a) (abstract_of b) }
{
    if !is_exact(kind, small_difference(a.range, b.range)) {
        return None;
    }
    maybe_moved(negative(b.range), a.offset)
}

/// What a binary operator does to offsets.
fn binary_offset(op: BinOp, kind: IntType, a: Abs, b: Abs) -> Option<(u32, Range)>
    requires left { IsWithin (interval_of a.range) (values_of kind) }
    requires right { IsRightOperand op kind (interval_of b.range) }
    ensures { option_map offset_of result ≡ binary_offset_of op kind (abstract_of a) (abstract_of b) }
{
    match op {
        BinOp::Add => sum_offset(kind, a, b),
        BinOp::Sub => difference_offset(kind, a, b),
        BinOp::Div => shrunk_offset(a, b.range, 2),
        BinOp::Shr => shrunk_offset(a, b.range, 1),
        BinOp::Mul | BinOp::Rem | BinOp::Shl | BinOp::And | BinOp::Or | BinOp::Xor => None,
        BinOp::Lt | BinOp::Gt | BinOp::Le | BinOp::Ge | BinOp::Eq | BinOp::Ne => None,
    }
}

/// Whether the right operand of an operator is one.
fn is_right_operand(op: BinOp, kind: IntType, b: Range) -> bool
    ensures test { result ≡ is_right_operand_of op kind (interval_of b) }
    ensures fact { IsTrue result → IsRightOperand op kind (interval_of b) }
{
    matches!(op, BinOp::Shl | BinOp::Shr) || lies_within(b, values(kind))
}

/// A binary operator at a type to which its operands are converted (C99 6.5.5 to 6.5.12).
pub fn binary_value(op: BinOp, kind: IntType, a: Abs, b: Abs) -> Option<Abs>
    ensures { option_map abstract_of result ≡ binary_abstract op kind (abstract_of a) (abstract_of b) }
{
    if !(lies_within(a.range, values(kind)) && is_right_operand(op, kind, b.range)) {
        return Some(whole_type(kind));
    }
    match binary(op, kind, a.range, b.range) {
        Some(range) => Some(Abs {
            range,
            offset: binary_offset(op, kind, a, b),
        }),
        None => None,
    }
}
