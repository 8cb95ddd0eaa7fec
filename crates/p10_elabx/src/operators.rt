//! What operators make of values (C99 6.5).

ghost use Rattle.std.specs.Prelude.{◌≡◌, ◌&&◌, IfOk, option_map, Some};
ghost use Rattle.p10_core.specs.Types.{plain_type};
ghost use Rattle.p10_core.specs.Views.{plain_types, plain_value};
ghost use Rattle.p10_core.specs.Rows.{is_pointer};
ghost use Rattle.p10_core.specs.Constants.{is_null};
ghost use Rattle.p10_core.specs.WholePrograms.{AreWholeStructures};
ghost use Rattle.p10_elabx.specs.Operands.{converted};
ghost use Rattle.p10_elabx.specs.Operators.{unary_by, unary_value, binary_by, binary_value, logic_value, conditional_by, conditional_value, fitted, cast_value, size_value};
ghost use Rattle.p10_elabx.specs.Built.{plain_row, plain_unary_row, ruled_value, ruled_operand};

use crate::operand::Operand;
use crate::parts::{stopped, stopped_after_three, stopped_after_two};
use crate::problem::Problem;
use crate::rows::{Row, UnaryRow, binary_row, conditional_row, fits, may_cast, unary_row};
use crate::sizes::known_size;
use crate::values::converted;
use p10_base::{At, SubsetCode};
use p10_core::{CType, LogicOp, Types, Value, is_null};
use p10_int::{BinOp, IntType, UnOp};
use std::alloc::{AllocError, Global};

/// Whether a value is a null constant where it stands beside a type. Only a pointer asks for one, so that no constant is folded
/// anew by each operator round it.
pub fn null_beside(v: &Value, other: &CType) -> bool
    ensures { result ≡ (is_pointer (plain_type other.now) && is_null (plain_value v.now)) }
{
    other.is_pointer() && is_null(v)
}

/// Unary `+`, `-`, `~` and `!`.
pub fn unary_value(
    alloc: Global,
    at: At,
    op: UnOp,
    v: Value,
) -> Result<Result<Value, Option<Problem>>, AllocError>
    ensures { IfOk result (λ r. ruled_value r ≡ unary_value at op (plain_value v)) }
{
    match unary_row(alloc, op, &v.ty) {
        Ok(row) => unary_by(alloc, at, op, v, row),
        Err(trouble) => stopped(v, trouble),
    }
}

/// A unary operator by its row.
fn unary_by(
    alloc: Global,
    at: At,
    op: UnOp,
    v: Value,
    row: Option<UnaryRow>,
) -> Result<Result<Value, Option<Problem>>, AllocError>
    ensures { IfOk result (λ r. ruled_value r ≡ unary_by at op (plain_value v) (option_map plain_unary_row row)) }
{
    match row {
        None => {
            let own = Problem {
                code: SubsetCode::OperandTypes,
                at,
            };
            Ok(stopped(v, Some(own)))
        }
        Some(row) => {
            let operand = converted(alloc, v, row.operand)?;
            Ok(Ok(Value::unary(alloc, at, row.result, op, operand)?))
        }
    }
}

/// A binary operator on two values.
#[tactic(auto, using(crate::proofs::Nulls::binary_nulls))]
pub fn binary_value(
    alloc: Global,
    types: &Types<'_>,
    at: At,
    op: BinOp,
    left: Value,
    right: Value,
) -> Result<Result<Value, Option<Problem>>, AllocError>
    ensures { IfOk result (λ r. ruled_value r ≡ binary_value (plain_types types.now) at op (plain_value left) (plain_value right)) }
{
    let nulls = (null_beside(&left, &right.ty), null_beside(&right, &left.ty));
    match binary_row(alloc, types, op, nulls, &left.ty, &right.ty) {
        Ok(row) => binary_by(alloc, at, op, left, right, row),
        Err(trouble) => stopped_after_two(left, right, trouble),
    }
}

/// A binary operator by its row.
fn binary_by(
    alloc: Global,
    at: At,
    op: BinOp,
    left: Value,
    right: Value,
    row: Option<Row>,
) -> Result<Result<Value, Option<Problem>>, AllocError>
    ensures { IfOk result (λ r. ruled_value r ≡ binary_by at op (plain_value left) (plain_value right) (option_map plain_row row)) }
{
    match row {
        None => {
            let own = Problem {
                code: SubsetCode::OperandTypes,
                at,
            };
            Ok(stopped_after_two(left, right, Some(own)))
        }
        Some(row) => {
            let (left, right) = converted_pair(alloc, left, right, row.left, row.right)?;
            Ok(Ok(Value::binary(alloc, at, row.result, op, left, right)?))
        }
    }
}

/// Two values with the conversions that aren't written.
fn converted_pair(
    alloc: Global,
    left: Value,
    right: Value,
    left_type: CType,
    right_type: CType,
) -> Result<(Value, Value), AllocError>
    ensures left { IfOk result (λ p. plain_value p.0 ≡ converted (plain_value left) (plain_type left_type)) }
    ensures right { IfOk result (λ p. plain_value p.1 ≡ converted (plain_value right) (plain_type right_type)) }
{
    match converted(alloc, left, left_type) {
        Ok(left) => match converted(alloc, right, right_type) {
            Ok(right) => Ok((left, right)),
            Err(trouble) => stopped(left, trouble),
        },
        Err(trouble) => stopped_after_two(right, right_type, trouble),
    }
}

/// `&&` and `||`.
pub fn logic_value(
    alloc: Global,
    at: At,
    op: LogicOp,
    left: Value,
    right: Value,
) -> Result<Result<Value, Option<Problem>>, AllocError>
    ensures { IfOk result (λ r. ruled_value r ≡ logic_value at op (plain_value left) (plain_value right)) }
{
    if left.ty.is_scalar() && right.ty.is_scalar() {
        Ok(Ok(Value::logic(alloc, at, CType::integer(IntType::Int), op, left, right)?))
    } else {
        let own = Problem {
            code: SubsetCode::OperandTypes,
            at,
        };
        Ok(stopped_after_two(left, right, Some(own)))
    }
}

/// `?:`.
#[tactic(auto, using(crate::proofs::Nulls::conditional_nulls))]
pub fn conditional_value(
    alloc: Global,
    at: At,
    test: Value,
    left: Value,
    right: Value,
) -> Result<Result<Value, Option<Problem>>, AllocError>
    ensures { IfOk result (λ r. ruled_value r ≡ conditional_value at (plain_value test) (plain_value left) (plain_value right)) }
{
    if test.ty.is_scalar() {
        let nulls = (null_beside(&left, &right.ty), null_beside(&right, &left.ty));
        match conditional_row(alloc, nulls, &left.ty, &right.ty) {
            Ok(row) => conditional_by(alloc, at, test, left, right, row),
            Err(trouble) => stopped_after_three(test, left, right, trouble),
        }
    } else {
        let own = Problem {
            code: SubsetCode::OperandTypes,
            at,
        };
        Ok(stopped_after_three(test, left, right, Some(own)))
    }
}

/// `?:` by its row.
fn conditional_by(
    alloc: Global,
    at: At,
    test: Value,
    left: Value,
    right: Value,
    row: Option<Row>,
) -> Result<Result<Value, Option<Problem>>, AllocError>
    ensures { IfOk result (λ r. ruled_value r ≡ conditional_by at (plain_value test) (plain_value left) (plain_value right) (option_map plain_row row)) }
{
    match row {
        None => {
            let own = Problem {
                code: SubsetCode::OperandTypes,
                at,
            };
            Ok(stopped_after_three(test, left, right, Some(own)))
        }
        Some(row) => match converted_pair(alloc, left, right, row.left, row.right) {
            Ok((left, right)) => Ok(Ok(Value::conditional(
                alloc, at, row.result, test, left, right,
            )?)),
            Err(trouble) => stopped_after_two(test, row.result, trouble),
        },
    }
}

/// A value where one of a type is needed, as in an assignment; the tree at which it is refused is given.
#[tactic(auto, using(crate::proofs::Nulls::fits_null))]
pub fn fitted(
    alloc: Global,
    at: At,
    v: Value,
    ty: &CType,
) -> Result<Result<Value, Option<Problem>>, AllocError>
    ensures { IfOk result (λ r. ruled_value r ≡ fitted at (plain_value v) (plain_type ty.now)) }
{
    if fits(null_beside(&v, ty), &v.ty, ty) {
        match ty.copy(alloc) {
            Ok(ty) => Ok(Ok(converted(alloc, v, ty.unqualified())?)),
            Err(trouble) => stopped(v, trouble),
        }
    } else {
        let own = Problem {
            code: SubsetCode::TypesDiffer,
            at,
        };
        Ok(stopped(v, Some(own)))
    }
}

/// A written cast.
#[tactic(auto, using(crate::proofs::Nulls::casts_null))]
pub fn cast_value(
    alloc: Global,
    at: At,
    ty: &CType,
    v: Value,
) -> Result<Result<Value, Option<Problem>>, AllocError>
    ensures { IfOk result (λ r. ruled_value r ≡ cast_value at (plain_type ty.now) (plain_value v)) }
{
    if may_cast(null_beside(&v, ty), &v.ty, ty) {
        match ty.copy(alloc) {
            Ok(ty) => Ok(Ok(Value::cast(alloc, at, ty.unqualified(), v)?)),
            Err(trouble) => stopped(v, trouble),
        }
    } else {
        let own = Problem {
            code: SubsetCode::BadCast,
            at,
        };
        Ok(stopped(v, Some(own)))
    }
}

/// The size of a type as a constant.
pub fn size_value(types: &Types<'_>, at: At, ty: &CType) -> Result<Operand, Option<Problem>>
    requires { AreWholeStructures (plain_types types.now) }
    ensures { ruled_operand result ≡ size_value (plain_types types.now) at (plain_type ty.now) }
{
    match known_size(types, ty) {
        Some(size) => Ok(Operand::Value(Value::constant(
            at,
            CType::integer(IntType::ULong),
            i128::from(size),
        ))),
        None => Err(Some(Problem {
            code: SubsetCode::NoSize,
            at,
        })),
    }
}
