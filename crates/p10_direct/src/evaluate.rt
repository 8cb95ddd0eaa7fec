//! What operators make of values with 64 bits (C99 6.5.3.3, 6.5.5 to 6.5.15).

ghost use Rattle.std.specs.Prelude.{◌≡◌, option_map, option_and_then};
ghost use Rattle.p10_int.specs.Types.{InRange};
ghost use Rattle.p10_int.specs.Conversion.{converted};
ghost use Rattle.p10_int.specs.Operators.{IsRightOperand, operate_unary};
ghost use Rattle.p10_direct.specs.Values.{type_of, as_option, applied, is_shift, is_comparison, right_operand, operated, calculated, truth_value, and_value, or_value, joined, chosen_value, chosen};
ghost use Rattle.p10_direct.specs.private.Valued.{value_read};

use crate::operator::Binary;
use crate::value::Value;
use p10_int::{BinOp, IntType, UnOp, apply, unary};

/// The type with 64 bits, with or without a sign.
fn wide(unsigned: bool) -> IntType
    ensures { result ≡ type_of unsigned }
{
    if unsigned {
        IntType::ULLong
    } else {
        IntType::LLong
    }
}

/// The number converted to the type with 64 bits (C99 6.3.1.3).
#[tactic(auto, unfolding(p10_int::specs::Conversion::reduced))]
fn convert(unsigned: bool, value: i128) -> i128
    ensures value { result ≡ converted (type_of unsigned) value }
    ensures fits { InRange (type_of unsigned) result }
{
    let bits = value.rem_euclid(18_446_744_073_709_551_616);
    if unsigned || bits < 9_223_372_036_854_775_808 {
        bits
    } else {
        bits - 18_446_744_073_709_551_616
    }
}

/// What an operator makes of the operand after it.
pub fn apply_sign(op: UnOp, operand: Value) -> Value
    ensures { value_read result ≡ applied op (value_read operand) }
{
    Value {
        unsigned: !matches!(op, UnOp::Not) && operand.unsigned,
        value: signed_value(op, operand.unsigned, operand.value),
    }
}

fn signed_value(op: UnOp, unsigned: bool, value: Option<i128>) -> Option<i128>
    ensures { result ≡
        option_and_then (λ x. as_option (operate_unary op (type_of unsigned) (converted (type_of unsigned) x))) value }
{
    match unary(op, wide(unsigned), convert(unsigned, value?)) {
        Ok(value) => Some(value),
        Err(_) => None,
    }
}

fn shifts(op: BinOp) -> bool
    ensures { result ≡ is_shift op }
{
    matches!(op, BinOp::Shl | BinOp::Shr)
}

fn compares(op: BinOp) -> bool
    ensures { result ≡ is_comparison op }
{
    matches!(
        op,
        BinOp::Lt | BinOp::Gt | BinOp::Le | BinOp::Ge | BinOp::Eq | BinOp::Ne
    )
}

/// The right operand, converted unless the operator is a shift.
fn right(op: BinOp, unsigned: bool, value: i128) -> i128
    ensures value { result ≡ right_operand op (type_of unsigned) value }
    ensures fits { IsRightOperand op (type_of unsigned) result }
{
    match op {
        BinOp::Shl | BinOp::Shr => value,
        BinOp::Add
        | BinOp::Sub
        | BinOp::Mul
        | BinOp::Div
        | BinOp::Rem
        | BinOp::And
        | BinOp::Or
        | BinOp::Xor
        | BinOp::Lt
        | BinOp::Gt
        | BinOp::Le
        | BinOp::Ge
        | BinOp::Eq
        | BinOp::Ne => convert(unsigned, value),
    }
}

/// The number that the operator makes of two numbers, or None where it stops.
fn operate(op: BinOp, unsigned: bool, a: i128, b: i128) -> Option<i128>
    ensures { result ≡ operated op (type_of unsigned) a b }
{
    match apply(
        op,
        wide(unsigned),
        convert(unsigned, a),
        right(op, unsigned, b),
    ) {
        Ok(value) => Some(value),
        Err(_) => None,
    }
}

fn calculate(op: BinOp, a: Value, b: Value) -> Value
    ensures { value_read result ≡ calculated op (value_read a) (value_read b) }
{
    let unsigned = a.unsigned || (!shifts(op) && b.unsigned);
    Value {
        unsigned: !compares(op) && unsigned,
        value: calculated_value(op, unsigned, a.value, b.value),
    }
}

fn calculated_value(op: BinOp, unsigned: bool, a: Option<i128>, b: Option<i128>) -> Option<i128>
    ensures { result ≡ option_and_then (λ x. option_and_then (operated op (type_of unsigned) x) b) a }
{
    operate(op, unsigned, a?, b?)
}

/// 1 for a number other than 0, else 0.
fn test(value: i128) -> i128
    ensures { result ≡ truth_value value }
{
    i128::from(value != 0)
}

fn both(a: Option<i128>, b: Option<i128>) -> Option<i128>
    ensures { result ≡ and_value a b }
{
    if a? == 0 { Some(0) } else { Some(test(b?)) }
}

fn either(a: Option<i128>, b: Option<i128>) -> Option<i128>
    ensures { result ≡ or_value a b }
{
    if a? == 0 { Some(test(b?)) } else { Some(1) }
}

/// What an operator makes of the operands on its sides.
pub fn join(op: Binary, a: Value, b: Value) -> Value
    ensures { value_read result ≡ joined op (value_read a) (value_read b) }
{
    match op {
        Binary::Apply(op) => calculate(op, a, b),
        Binary::AndAlso => Value {
            unsigned: false,
            value: both(a.value, b.value),
        },
        Binary::OrElse => Value {
            unsigned: false,
            value: either(a.value, b.value),
        },
    }
}

/// What `?:` makes of its three operands.
pub fn choose(test: Value, first: Value, second: Value) -> Value
    ensures { value_read result ≡ chosen (value_read test) (value_read first) (value_read second) }
{
    let unsigned = first.unsigned || second.unsigned;
    Value {
        unsigned,
        value: choose_value(unsigned, test.value, first.value, second.value),
    }
}

fn choose_value(
    unsigned: bool,
    test: Option<i128>,
    first: Option<i128>,
    second: Option<i128>,
) -> Option<i128>
    ensures { result ≡ chosen_value (type_of unsigned) test first second }
{
    if test? == 0 {
        convert_some(unsigned, second)
    } else {
        convert_some(unsigned, first)
    }
}

/// The number, if there is one, converted to the type with 64 bits.
fn convert_some(unsigned: bool, value: Option<i128>) -> Option<i128>
    ensures { result ≡ option_map (converted (type_of unsigned)) value }
{
    Some(convert(unsigned, value?))
}
