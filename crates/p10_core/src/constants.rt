//! Integer constant expressions (C99 6.6).

ghost use Rattle.std.specs.Prelude.{◌≡◌, IfOk, Ok, Err, if◌then◌else◌};
ghost use Rattle.p10_int.specs.Conversion.{converted};
ghost use Rattle.p10_int.specs.Operators.{IsRightOperand};
ghost use Rattle.p10_core.specs.Views.{plain_value};
ghost use Rattle.p10_core.specs.Types.{plain_type};
ghost use Rattle.p10_core.specs.Constants.{inconstant_part, first_of_parts, integer_of, fold, folded_then, or_place, truth_number, is_null, is_zero, is_small, IsSmall, unary_result, right_operand, binary_result, logic_result};

use crate::c_type::{CType, TypeForm};
use crate::typed::{LogicOp, Value, ValueForm};
use p10_base::At;
use p10_int::{BinOp, IntType, Stop, UnOp, apply, convert, unary};

/// Whether a value is a null constant: an integer constant expression with the value 0 (C99 6.3.2.3p3).
pub fn is_null(v: &Value) -> bool
    ensures { result ≡ is_null (plain_value v.now) }
{
    v.ty.is_integer() && (inconstant_part(v).is_none() && matches!(fold(v), Ok(0)))
}

/// The first of the smallest parts of a value that aren't of the form of an integer constant expression, if there is one
/// (C99 6.6p3, p6). Each operand counts, whether or not it would be evaluated.
pub fn inconstant_part(v: &Value) -> Option<At>
    ensures { result ≡ inconstant_part (plain_value v.now) }
{
    match &v.form {
        ValueForm::Const(_) => None,
        ValueForm::Convert(part) | ValueForm::Cast(part) => {
            let inner = inconstant_part(part);
            if v.ty.is_integer() { inner } else { Some(v.at) }
        }
        ValueForm::Unary(_, part) => inconstant_part(part),
        ValueForm::Binary(_, left, right) | ValueForm::Logic(_, left, right) => {
            first_of_parts(inconstant_part(left), inconstant_part(right))
        }
        ValueForm::Cond(test, left, right) => {
            let sides = first_of_parts(inconstant_part(left), inconstant_part(right));
            first_of_parts(inconstant_part(test), sides)
        }
        ValueForm::Read(_) | ValueForm::Sense(_) | ValueForm::Addr(_) | ValueForm::Decay(_) => Some(
            v.at,
        ),
        ValueForm::Call(_, _, _) | ValueForm::Builtin(_, _, _) => Some(v.at),
    }
}

/// The first of two places that may be lacking.
pub fn first_of_parts(a: Option<At>, b: Option<At>) -> Option<At>
    ensures { result ≡ first_of_parts a b }
{
    match a {
        Some(at) => Some(at),
        None => b,
    }
}

/// The integer type that a type is; `int` for another.
pub fn integer_of(t: &CType) -> IntType
    ensures { result ≡ integer_of (plain_type t.now) }
{
    match &t.form {
        TypeForm::Int(kind) => *kind,
        _ => IntType::Int,
    }
}

/// What a value of constant form gives, or the place of the first part that is evaluated and stops (C99 6.6p4).
pub fn fold(v: &Value) -> Result<i128, At>
    ensures value { result ≡ fold (plain_value v.now) }
    ensures small { IfOk result IsSmall }
{
    match &v.form {
        ValueForm::Const(number) => constant(v.at, *number),
        ValueForm::Convert(part) | ValueForm::Cast(part) => conversion(
            integer_of(&v.ty),
            fold(part),
        ),
        ValueForm::Unary(op, part) => unary_operation(v.at, *op, integer_of(&part.ty), fold(part)),
        ValueForm::Binary(op, left, right) => {
            let first = fold(left);
            let second = fold(right);
            binary_operation(v.at, *op, integer_of(&left.ty), first, second)
        }
        ValueForm::Logic(op, left, right) => {
            let first = fold(left);
            let second = fold(right);
            logic_operation(*op, first, second)
        }
        ValueForm::Cond(test, left, right) => {
            let tested = fold(test);
            let first = fold(left);
            let second = fold(right);
            choice(tested, first, second)
        }
        ValueForm::Read(_) | ValueForm::Sense(_) | ValueForm::Addr(_) | ValueForm::Decay(_) => Err(
            v.at,
        ),
        ValueForm::Call(_, _, _) | ValueForm::Builtin(_, _, _) => Err(v.at),
    }
}

/// A constant, where its number is one of some integer type.
fn constant(at: At, number: i128) -> Result<i128, At>
    ensures value { result ≡ (if is_small number then Ok number else Err at) }
    ensures small { IfOk result IsSmall }
{
    if -9_223_372_036_854_775_808 <= number && number <= 18_446_744_073_709_551_615 {
        Ok(number)
    } else {
        Err(at)
    }
}

/// A number converted to a type.
fn conversion(kind: IntType, found: Result<i128, At>) -> Result<i128, At>
    requires { IfOk found IsSmall }
    ensures value { result ≡ folded_then found (λ x. Ok (converted kind x)) }
    ensures small { IfOk result IsSmall }
{
    match found {
        Ok(number) => Ok(convert(kind, number)),
        Err(at) => Err(at),
    }
}

/// An operator's result, or its place where it stops.
fn or_place(at: At, found: Result<i128, Stop>) -> Result<i128, At>
    ensures { result ≡ or_place at found }
{
    match found {
        Ok(number) => Ok(number),
        Err(_) => Err(at),
    }
}

/// A unary operator on a number.
fn unary_operation(at: At, op: UnOp, kind: IntType, found: Result<i128, At>) -> Result<i128, At>
    requires { IfOk found IsSmall }
    ensures value { result ≡ folded_then found (λ x. or_place at (unary_result op kind x)) }
    ensures small { IfOk result IsSmall }
{
    match found {
        Ok(number) => or_place(at, unary(op, kind, convert(kind, number))),
        Err(at) => Err(at),
    }
}

/// The right operand of an operator.
fn right_operand(op: BinOp, kind: IntType, number: i128) -> i128
    requires { IsSmall number }
    ensures value { result ≡ right_operand op kind number }
    ensures right { IsRightOperand op kind result }
{
    match op {
        BinOp::Shl | BinOp::Shr => number,
        _ => convert(kind, number),
    }
}

/// A binary operator on two numbers.
fn binary_operation(
    at: At,
    op: BinOp,
    kind: IntType,
    first: Result<i128, At>,
    second: Result<i128, At>,
) -> Result<i128, At>
    requires first { IfOk first IsSmall }
    requires second { IfOk second IsSmall }
    ensures value { result ≡ folded_then first (λ x. folded_then second (λ y. or_place at (binary_result op kind x y))) }
    ensures small { IfOk result IsSmall }
{
    match (first, second) {
        (Ok(left), Ok(right)) => or_place(
            at,
            apply(
                op,
                kind,
                convert(kind, left),
                right_operand(op, kind, right),
            ),
        ),
        (Ok(_), Err(at)) => Err(at),
        (Err(at), _) => Err(at),
    }
}

/// `&&` or `||` of two numbers, of which the second counts only where the first doesn't decide.
fn logic_operation(
    op: LogicOp,
    first: Result<i128, At>,
    second: Result<i128, At>,
) -> Result<i128, At>
    ensures value { result ≡ logic_result op first second }
    ensures small { IfOk result IsSmall }
{
    match (op, first) {
        (_, Err(at)) => Err(at),
        (LogicOp::And, Ok(0)) => Ok(0),
        (LogicOp::And, Ok(_)) => truth(second),
        (LogicOp::Or, Ok(0)) => truth(second),
        (LogicOp::Or, Ok(_)) => Ok(1),
    }
}

/// 1 for a number other than 0, and 0 for 0.
fn truth(found: Result<i128, At>) -> Result<i128, At>
    ensures value { result ≡ folded_then found truth_number }
    ensures small { IfOk result IsSmall }
{
    match found {
        Ok(0) => Ok(0),
        Ok(_) => Ok(1),
        Err(at) => Err(at),
    }
}

/// `?:` of numbers, of which one counts.
fn choice(
    tested: Result<i128, At>,
    first: Result<i128, At>,
    second: Result<i128, At>,
) -> Result<i128, At>
    requires first { IfOk first IsSmall }
    requires second { IfOk second IsSmall }
    ensures value { result ≡ folded_then tested (λ x. if is_zero x then second else first) }
    ensures small { IfOk result IsSmall }
{
    match tested {
        Ok(0) => second,
        Ok(_) => first,
        Err(at) => Err(at),
    }
}
