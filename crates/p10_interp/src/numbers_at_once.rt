//! Operators and conversions on numbers that are found at once. No step is left where nothing is found.

ghost use Rattle.std.specs.Prelude.{◌≡◌, ◌<◌, pos, Ok, IsTrue};
ghost use Rattle.p10_core.specs.Types.{plain_type};
ghost use Rattle.p10_int.specs.declared.types.IntType.TheVariants.{UInt};
ghost use Rattle.p10_int.specs.declared.operators.BinOp.TheVariants.{Add, Sub, Mul, And, Or, Xor};
ghost use Rattle.p10_int.specs.Types.{InRange};
ghost use Rattle.p10_int.specs.Conversion.{converted};
ghost use Rattle.p10_int.specs.Operators.{operate, operate_unary, IsRightOperand};
ghost use Rattle.p10_meaning.specs.declared.pointers.Scalar.TheVariants.{Int};
ghost use Rattle.p10_meaning.specs.Scalars.{integer_type, is_true, truth_value};
ghost use Rattle.p10_meaning.specs.Values.{is_decided, is_structure};
ghost use Rattle.p10_interp.specs.private.AtOnce.{Pays, IsFound, IsConverted};

use crate::operators::are_operands;
use crate::scalars::integer_type;
use p10_core::{CType, LogicOp, TypeForm};
use p10_int::{BinOp, IntType, UnOp};

/// Takes a step, and says whether one is left after it.
pub fn pays(left: &mut u64) -> bool
    ensures { Pays result left.old left.new }
{
    if *left <= 1 {
        *left = 0;
        false
    } else {
        *left -= 1;
        true
    }
}

/// Whether a type is a structure.
pub fn is_structure(t: &CType) -> bool
    ensures { result ≡ is_structure (plain_type t.now) }
{
    matches!(&t.form, TypeForm::Struct(_))
}

/// 1 for a number other than 0, and 0 for 0.
pub fn truth_of(number: i128) -> i128
    ensures { Int result ≡ truth_value (is_true (Int number)) }
{
    i128::from(number != 0)
}

/// Whether `&&` or `||` is decided by its left operand (C99 6.5.13p4, 6.5.14p4).
pub fn is_decided(op: LogicOp, number: i128) -> bool
    ensures { result ≡ is_decided op (is_true (Int number)) }
{
    match op {
        LogicOp::And => number == 0,
        LogicOp::Or => number != 0,
    }
}

/// A number converted to an integer type (C99 6.3.1): one that the type holds stays.
#[tactic(auto, using(p10_int::proofs::Conversions::converted_keeps))]
#[inline(always)]
pub fn convert_number(t: &CType, number: i128, left: &mut u64) -> i128
    ensures { IsConverted (plain_type t.now) number left.old result left.new }
{
    match &t.form {
        TypeForm::Int(kind) => {
            if p10_int::holds(*kind, number) {
                number
            } else {
                reduce_number(*kind, number, left)
            }
        }
        _ => {
            *left = 0;
            0
        }
    }
}

/// A number converted to an integer type that doesn't hold it (C99 6.3.1.2, 6.3.1.3).
fn reduce_number(kind: IntType, number: i128, left: &mut u64) -> i128
    ensures { 0 < left.new → (left.new ≡ left.old) × (result ≡ converted kind number) }
{
    if -9_223_372_036_854_775_808 <= number && number <= 18_446_744_073_709_551_615 {
        p10_int::convert(kind, number)
    } else {
        *left = 0;
        0
    }
}

/// A unary operator on a number (C99 6.5.3.3).
pub fn apply_to_number(op: UnOp, t: &CType, number: i128, left: &mut u64) -> i128
    ensures { IsFound (operate_unary op (integer_type (plain_type t.now)) number) left.old result left.new }
{
    match op {
        UnOp::Not => i128::from(number == 0),
        UnOp::Plus | UnOp::Neg | UnOp::Com => calculate_one(op, integer_type(t), number, left),
    }
}

/// A unary operator on a number of its type.
fn calculate_one(op: UnOp, t: IntType, number: i128, left: &mut u64) -> i128
    ensures { IsFound (operate_unary op t number) left.old result left.new }
{
    if !p10_int::holds(t, number) {
        *left = 0;
        return 0;
    }
    match p10_int::unary(op, t, number) {
        Ok(z) => z,
        Err(_) => {
            *left = 0;
            0
        }
    }
}

/// A binary operator on two numbers (C99 6.5.5 to 6.5.12).
#[inline(always)]
pub fn apply_to_numbers(op: BinOp, t: &CType, numbers: (i128, i128), left: &mut u64) -> i128
    ensures { IsFound (operate op (integer_type (plain_type t.now)) numbers.0 numbers.1) left.old result left.new }
{
    match integer_type(t) {
        IntType::UInt => calculate_naturals(op, numbers, left),
        kind => calculate(op, kind, numbers, left),
    }
}

/// A binary operator, by the type of its tree. A comparison is one of numbers of any type (C99 6.5.8p6, 6.5.9p3).
#[inline(always)]
fn calculate(op: BinOp, t: IntType, numbers: (i128, i128), left: &mut u64) -> i128
    ensures { IsFound (operate op t numbers.0 numbers.1) left.old result left.new }
{
    let (x, y) = numbers;
    match op {
        BinOp::Lt => i128::from(x < y),
        BinOp::Gt => i128::from(x > y),
        BinOp::Le => i128::from(x <= y),
        BinOp::Ge => i128::from(x >= y),
        BinOp::Eq => i128::from(x == y),
        BinOp::Ne => i128::from(x != y),
        _ => calculate_two(op, t, (x, y), left),
    }
}

/// A binary operator on numbers of `unsigned int`: those of 32 bits in 32 bits.
#[inline(always)]
fn calculate_naturals(op: BinOp, numbers: (i128, i128), left: &mut u64) -> i128
    ensures { IsFound (operate op UInt numbers.0 numbers.1) left.old result left.new }
{
    let (x, y) = numbers;
    if !(p10_int::holds(IntType::UInt, x) && p10_int::holds(IntType::UInt, y)) {
        return calculate_any(op, IntType::UInt, (x, y), left);
    }
    match op {
        BinOp::Add => sum_of(natural_of(x), natural_of(y)),
        BinOp::Sub => difference_of(natural_of(x), natural_of(y)),
        BinOp::Mul => product_of(natural_of(x), natural_of(y)),
        BinOp::And => common_bits_of(natural_of(x), natural_of(y)),
        BinOp::Or => joint_bits_of(natural_of(x), natural_of(y)),
        BinOp::Xor => different_bits_of(natural_of(x), natural_of(y)),
        _ => calculate_any(op, IntType::UInt, (x, y), left),
    }
}

/// A binary operator on any numbers.
#[inline(never)]
fn calculate_any(op: BinOp, t: IntType, numbers: (i128, i128), left: &mut u64) -> i128
    ensures { IsFound (operate op t numbers.0 numbers.1) left.old result left.new }
{
    calculate(op, t, numbers, left)
}

/// A number of `unsigned int` in 32 bits.
fn natural_of(number: i128) -> u32
    requires { InRange UInt number }
    ensures { pos result ≡ number }
{
    number as u32
}

/// `a + b` modulo 2^32 (C99 6.2.5p9).
fn sum_of(a: u32, b: u32) -> i128
    ensures { operate Add UInt (pos a) (pos b) ≡ Ok result }
{
    i128::from(a.wrapping_add(b))
}

/// `a - b` modulo 2^32 (C99 6.2.5p9).
fn difference_of(a: u32, b: u32) -> i128
    ensures { operate Sub UInt (pos a) (pos b) ≡ Ok result }
{
    i128::from(a.wrapping_sub(b))
}

/// `a * b` modulo 2^32 (C99 6.2.5p9).
fn product_of(a: u32, b: u32) -> i128
    ensures { operate Mul UInt (pos a) (pos b) ≡ Ok result }
{
    i128::from(a.wrapping_mul(b))
}

/// `a & b` (C99 6.5.10).
fn common_bits_of(a: u32, b: u32) -> i128
    ensures { operate And UInt (pos a) (pos b) ≡ Ok result }
{
    i128::from(a & b)
}

/// `a | b` (C99 6.5.12).
fn joint_bits_of(a: u32, b: u32) -> i128
    ensures { operate Or UInt (pos a) (pos b) ≡ Ok result }
{
    i128::from(a | b)
}

/// `a ^ b` (C99 6.5.11).
fn different_bits_of(a: u32, b: u32) -> i128
    ensures { operate Xor UInt (pos a) (pos b) ≡ Ok result }
{
    i128::from(a ^ b)
}

/// A binary operator on numbers of its type.
#[inline(never)]
fn calculate_two(op: BinOp, t: IntType, numbers: (i128, i128), left: &mut u64) -> i128
    ensures { IsFound (operate op t numbers.0 numbers.1) left.old result left.new }
{
    let (x, y) = numbers;
    if !are_operands(op, t, x, y) {
        *left = 0;
        return 0;
    }
    match p10_int::apply(op, t, x, y) {
        Ok(z) => z,
        Err(_) => {
            *left = 0;
            0
        }
    }
}
