//! Which operators on integers stop for some numbers of the ranges of their operands: C1 to C3.

ghost use Rattle.std.specs.Prelude.{◌≡◌, ◌++◌, ◌↔◌, IsTrue, OnOk};
ghost use Rattle.std.specs.Option.{option_map};
ghost use Rattle.p10_int.specs.Types.{InRange, holds};
ghost use Rattle.p10_range.specs.Ranges.{interval_of};
ghost use Rattle.p10_absx.specs.Abstract.{abstract_of};
ghost use Rattle.p10_clean.specs.Operations.{overflow_at, negation_at, shift_at, has_number, overflows, negation_overflows, quotient_stops, misdivides, misshifts};
ghost use Rattle.p10_clean.specs.Values.{operation_flaws, operands_flaws, unary_flaws};

use crate::flaw::{Flaw, push_if};
use p10_absx::Abs;
use p10_base::Span;
use p10_int::{BinOp, IntType, UnOp, apply, is_signed, range, unary};
use p10_range::Range;
use std::alloc::AllocError;

/// Puts C1 to C3 of an operator on integers of a type, where both operands have values.
pub(crate) fn push_operands(
    at: Span,
    op: BinOp,
    t: IntType,
    a: Option<Abs>,
    b: Option<Abs>,
    flaws: &mut Vec<Flaw>,
) -> Result<(), AllocError>
    ensures { OnOk result (flaws.new.items ≡ flaws.old.items ++ operands_flaws at op t (option_map abstract_of a) (option_map abstract_of b)) }
{
    match a {
        Some(a) => match b {
            Some(b) => push_operation(at, op, t, a.range, b.range, flaws),
            None => Ok(()),
        },
        None => Ok(()),
    }
}

/// The same over the ranges of the operands.
fn push_operation(
    at: Span,
    op: BinOp,
    t: IntType,
    a: Range,
    b: Range,
    flaws: &mut Vec<Flaw>,
) -> Result<(), AllocError>
    ensures { OnOk result (flaws.new.items ≡ flaws.old.items ++ operation_flaws at op t (interval_of a) (interval_of b)) }
{
    push_if(overflows(op, t, a, b), 1, at, flaws)?;
    push_if(misdivides(op, t, a, b), 2, at, flaws)?;
    push_if(misshifts(op, t, a, b), 3, at, flaws)
}

/// Puts C1 of a unary operator, where its operand has a value.
pub(crate) fn push_unary(
    at: Span,
    op: UnOp,
    t: IntType,
    a: Option<Abs>,
    flaws: &mut Vec<Flaw>,
) -> Result<(), AllocError>
    ensures { OnOk result (flaws.new.items ≡ flaws.old.items ++ unary_flaws at op t (option_map abstract_of a)) }
{
    match a {
        Some(a) => push_if(negation_overflows(op, t, a.range), 1, at, flaws),
        None => Ok(()),
    }
}

/// Whether a sum, difference or product may not fit its type.
fn overflows(op: BinOp, t: IntType, a: Range, b: Range) -> bool
    ensures { result ≡ overflows op t (interval_of a) (interval_of b) }
{
    overflow_at(op, t, a.lo, b.lo)
        || (overflow_at(op, t, a.lo, b.hi)
            || (overflow_at(op, t, a.hi, b.lo) || overflow_at(op, t, a.hi, b.hi)))
}

/// Whether a sum, difference or product stops at two numbers.
fn overflow_at(op: BinOp, t: IntType, x: i128, y: i128) -> bool
    ensures { result ≡ overflow_at op t x y }
{
    match op {
        BinOp::Add => {
            if is_of(t, x) && is_of(t, y) {
                apply(BinOp::Add, t, x, y).is_err()
            } else {
                true
            }
        }
        BinOp::Sub => {
            if is_of(t, x) && is_of(t, y) {
                apply(BinOp::Sub, t, x, y).is_err()
            } else {
                true
            }
        }
        BinOp::Mul => {
            if is_of(t, x) && is_of(t, y) {
                apply(BinOp::Mul, t, x, y).is_err()
            } else {
                true
            }
        }
        BinOp::Div
        | BinOp::Rem
        | BinOp::Shl
        | BinOp::Shr
        | BinOp::And
        | BinOp::Or
        | BinOp::Xor
        | BinOp::Lt
        | BinOp::Gt
        | BinOp::Le
        | BinOp::Ge
        | BinOp::Eq
        | BinOp::Ne => false,
    }
}

/// Whether a negation may not fit its type.
fn negation_overflows(op: UnOp, t: IntType, a: Range) -> bool
    ensures { result ≡ negation_overflows op t (interval_of a) }
{
    negation_at(op, t, a.lo) || negation_at(op, t, a.hi)
}

/// Whether a negation stops at a number.
fn negation_at(op: UnOp, t: IntType, x: i128) -> bool
    ensures { result ≡ negation_at op t x }
{
    match op {
        UnOp::Neg => {
            if is_of(t, x) {
                unary(UnOp::Neg, t, x).is_err()
            } else {
                true
            }
        }
        UnOp::Plus | UnOp::Not | UnOp::Com => false,
    }
}

/// Whether a division or a remainder may have no quotient.
fn misdivides(op: BinOp, t: IntType, a: Range, b: Range) -> bool
    ensures { result ≡ misdivides op t (interval_of a) (interval_of b) }
{
    match op {
        BinOp::Div | BinOp::Rem => quotient_stops(t, a, b),
        BinOp::Add
        | BinOp::Sub
        | BinOp::Mul
        | BinOp::Shl
        | BinOp::Shr
        | BinOp::And
        | BinOp::Or
        | BinOp::Xor
        | BinOp::Lt
        | BinOp::Gt
        | BinOp::Le
        | BinOp::Ge
        | BinOp::Eq
        | BinOp::Ne => false,
    }
}

/// Whether the divisor may be 0, or the quotient that of the least value of a signed type by -1.
fn quotient_stops(t: IntType, a: Range, b: Range) -> bool
    ensures { result ≡ quotient_stops t (interval_of a) (interval_of b) }
{
    let (least, _) = range(t);
    has_number(b, 0) || (is_signed(t) && (has_number(a, least) && has_number(b, -1)))
}

/// Whether a range has a number.
fn has_number(a: Range, z: i128) -> bool
    ensures { result ≡ has_number (interval_of a) z }
{
    a.lo <= z && z <= a.hi
}

/// Whether a shift may have a count that isn't one, or a left operand that may not be shifted.
fn misshifts(op: BinOp, t: IntType, a: Range, b: Range) -> bool
    ensures { result ≡ misshifts op t (interval_of a) (interval_of b) }
{
    shift_at(op, t, a.lo, b.lo)
        || (shift_at(op, t, a.lo, b.hi)
            || (shift_at(op, t, a.hi, b.lo) || shift_at(op, t, a.hi, b.hi)))
}

/// Whether a shift stops at a number and a count.
fn shift_at(op: BinOp, t: IntType, x: i128, count: i128) -> bool
    ensures { result ≡ shift_at op t x count }
{
    match op {
        BinOp::Shl => {
            if is_of(t, x) {
                apply(BinOp::Shl, t, x, count).is_err()
            } else {
                true
            }
        }
        BinOp::Shr => {
            if is_of(t, x) {
                apply(BinOp::Shr, t, x, count).is_err()
            } else {
                true
            }
        }
        BinOp::Add
        | BinOp::Sub
        | BinOp::Mul
        | BinOp::Div
        | BinOp::Rem
        | BinOp::And
        | BinOp::Or
        | BinOp::Xor
        | BinOp::Lt
        | BinOp::Gt
        | BinOp::Le
        | BinOp::Ge
        | BinOp::Eq
        | BinOp::Ne => false,
    }
}

/// Whether a type has a number.
fn is_of(t: IntType, x: i128) -> bool
    ensures value { result ≡ holds t x }
    ensures means { IsTrue result ↔ InRange t x }
{
    let (least, greatest) = range(t);
    least <= x && x <= greatest
}
