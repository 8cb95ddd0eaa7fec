//! The rows of the operators: what they ask of the types of their operands (C99 6.3.1.8, 6.5).

ghost use Rattle.std.specs.Prelude.{◌≡◌, IfOk, Some, option_map, false};
ghost use Rattle.p10_core.specs.Types.{plain_type, pointer};
ghost use Rattle.p10_core.specs.Views.{plain_types};
ghost use Rattle.p10_core.specs.Rows.{usual_row, compared_row, row_where, moved_row, integers_row, sum_row, difference_row, shift_row, order_row, equality_row, binary_row, conditional_row, unary_row, promoted_row, negation_row, fits, may_cast, is_complete, same};
ghost use Rattle.p10_elabx.specs.Built.{plain_row, plain_unary_row};

use p10_core::{CType, TypeForm, Types};
use p10_int::{BinOp, IntType, UnOp, promote, usual};
use std::alloc::{AllocError, Global};

/// The row of a binary operator: the type of its result, and those to which its operands are converted.
#[derive(Drop)]
pub struct Row {
    pub result: CType,
    pub left: CType,
    pub right: CType,
}

/// The row of a unary operator: the type of its result, and that to which its operand is converted.
#[derive(Drop)]
pub struct UnaryRow {
    pub result: CType,
    pub operand: CType,
}

/// The row of a binary operator for operands of two types, of which each may be a null constant.
pub fn binary_row(
    alloc: Global,
    types: &Types<'_>,
    op: BinOp,
    nulls: (bool, bool),
    left: &CType,
    right: &CType,
) -> Result<Option<Row>, AllocError>
    ensures { IfOk result (λ r. option_map plain_row r ≡ binary_row (plain_types types.now) op nulls.0 nulls.1 (plain_type left.now) (plain_type right.now)) }
{
    match op {
        BinOp::Add => sum_row(alloc, types, left, right),
        BinOp::Sub => difference_row(alloc, types, left, right),
        BinOp::Mul | BinOp::Div | BinOp::Rem | BinOp::And | BinOp::Or | BinOp::Xor => Ok(
            integers_row(left, right),
        ),
        BinOp::Shl | BinOp::Shr => Ok(shift_row(left, right)),
        BinOp::Lt | BinOp::Gt | BinOp::Le | BinOp::Ge => order_row(alloc, left, right),
        BinOp::Eq | BinOp::Ne => equality_row(alloc, nulls, left, right),
    }
}

/// The row of `?:` for its second and third operand.
pub fn conditional_row(
    alloc: Global,
    nulls: (bool, bool),
    left: &CType,
    right: &CType,
) -> Result<Option<Row>, AllocError>
    ensures { IfOk result (λ r. option_map plain_row r ≡ conditional_row nulls.0 nulls.1 (plain_type left.now) (plain_type right.now)) }
{
    match (&left.form, &right.form) {
        (TypeForm::Int(a), TypeForm::Int(b)) => Ok(Some(usual_row(*a, *b))),
        (TypeForm::Pointer(s), TypeForm::Pointer(t)) if s.is_same(t) => {
            Ok(Some(Row {
                result: pointer_to(alloc, s)?,
                left: pointer_to(alloc, s)?,
                right: pointer_to(alloc, t)?,
            }))
        }
        (TypeForm::Pointer(s), TypeForm::Int(_)) if nulls.1 => Ok(Some(pointers_row(alloc, s)?)),
        (TypeForm::Int(_), TypeForm::Pointer(t)) if nulls.0 => Ok(Some(pointers_row(alloc, t)?)),
        _ => Ok(None),
    }
}

/// The row of a unary operator.
pub fn unary_row(alloc: Global, op: UnOp, operand: &CType) -> Result<Option<UnaryRow>, AllocError>
    ensures { IfOk result (λ r. option_map plain_unary_row r ≡ unary_row op (plain_type operand.now)) }
{
    match op {
        UnOp::Plus | UnOp::Neg | UnOp::Com => Ok(promoted_row(operand)),
        UnOp::Not => negation_row(alloc, operand),
    }
}

/// Whether a value of a type, which may be a null constant, may become one of another in an assignment (C99 6.5.16.1).
pub fn fits(null: bool, from: &CType, to: &CType) -> bool
    ensures { result ≡ fits null (plain_type from.now) (plain_type to.now) }
{
    match (&from.form, &to.form) {
        (TypeForm::Int(_), TypeForm::Int(_)) => true,
        (TypeForm::Int(_), TypeForm::Pointer(_)) => null,
        (TypeForm::Pointer(s), TypeForm::Pointer(t)) => s.adds_const(t),
        _ => false,
    }
}

/// Whether a value of a type, which may be a null constant, may be cast to another (C99 6.5.4).
pub fn may_cast(null: bool, from: &CType, to: &CType) -> bool
    ensures { result ≡ may_cast null (plain_type from.now) (plain_type to.now) }
{
    match (&from.form, &to.form) {
        (_, TypeForm::Void) | (TypeForm::Int(_), TypeForm::Int(_)) => true,
        (TypeForm::Int(_), TypeForm::Pointer(_)) => null,
        _ => false,
    }
}

/// A pointer to a type.
pub fn pointer_to(alloc: Global, target: &CType) -> Result<CType, AllocError>
    ensures { IfOk result (λ t. plain_type t ≡ pointer false (plain_type target.now)) }
{
    CType::pointer(alloc, target.copy(alloc)?)
}

/// Both operands and the result have one pointer type.
fn pointers_row(alloc: Global, target: &CType) -> Result<Row, AllocError>
    ensures { IfOk result (λ r. plain_row r ≡ record { result = pointer false (plain_type target.now); left = pointer false (plain_type target.now); right = pointer false (plain_type target.now) }) }
{
    Ok(Row {
        result: pointer_to(alloc, target)?,
        left: pointer_to(alloc, target)?,
        right: pointer_to(alloc, target)?,
    })
}

/// The usual conversions.
fn usual_row(left: IntType, right: IntType) -> Row
    ensures { Some (plain_row result) ≡ usual_row left right }
{
    let common = usual(left, right);
    Row {
        result: CType::integer(common),
        left: CType::integer(common),
        right: CType::integer(common),
    }
}

/// The usual conversions, and a result of `int`.
fn compared_row(left: IntType, right: IntType) -> Row
    ensures { Some (plain_row result) ≡ compared_row left right }
{
    let common = usual(left, right);
    Row {
        result: CType::integer(IntType::Int),
        left: CType::integer(common),
        right: CType::integer(common),
    }
}

/// Two integers.
fn integers_row(left: &CType, right: &CType) -> Option<Row>
    ensures { option_map plain_row result ≡ integers_row (plain_type left.now) (plain_type right.now) }
{
    match (&left.form, &right.form) {
        (TypeForm::Int(a), TypeForm::Int(b)) => Some(usual_row(*a, *b)),
        _ => None,
    }
}

/// `+`.
fn sum_row(
    alloc: Global,
    types: &Types<'_>,
    left: &CType,
    right: &CType,
) -> Result<Option<Row>, AllocError>
    ensures { IfOk result (λ r. option_map plain_row r ≡ sum_row (plain_types types.now) (plain_type left.now) (plain_type right.now)) }
{
    match (&left.form, &right.form) {
        (TypeForm::Int(a), TypeForm::Int(b)) => Ok(Some(usual_row(*a, *b))),
        (TypeForm::Pointer(t), TypeForm::Int(b)) if types.is_complete(t) => {
            Ok(Some(Row {
                result: pointer_to(alloc, t)?,
                left: pointer_to(alloc, t)?,
                right: CType::integer(promote(*b)),
            }))
        }
        (TypeForm::Int(a), TypeForm::Pointer(t)) if types.is_complete(t) => {
            Ok(Some(Row {
                result: pointer_to(alloc, t)?,
                left: CType::integer(promote(*a)),
                right: pointer_to(alloc, t)?,
            }))
        }
        _ => Ok(None),
    }
}

/// `-`.
fn difference_row(
    alloc: Global,
    types: &Types<'_>,
    left: &CType,
    right: &CType,
) -> Result<Option<Row>, AllocError>
    ensures { IfOk result (λ r. option_map plain_row r ≡ difference_row (plain_types types.now) (plain_type left.now) (plain_type right.now)) }
{
    match (&left.form, &right.form) {
        (TypeForm::Int(a), TypeForm::Int(b)) => Ok(Some(usual_row(*a, *b))),
        (TypeForm::Pointer(t), TypeForm::Int(b)) if types.is_complete(t) => {
            Ok(Some(Row {
                result: pointer_to(alloc, t)?,
                left: pointer_to(alloc, t)?,
                right: CType::integer(promote(*b)),
            }))
        }
        (TypeForm::Pointer(s), TypeForm::Pointer(t)) if s.is_same(t) && types.is_complete(t) => {
            Ok(Some(Row {
                result: CType::integer(IntType::Long),
                left: pointer_to(alloc, s)?,
                right: pointer_to(alloc, t)?,
            }))
        }
        _ => Ok(None),
    }
}

/// `<<` and `>>`.
fn shift_row(left: &CType, right: &CType) -> Option<Row>
    ensures { option_map plain_row result ≡ shift_row (plain_type left.now) (plain_type right.now) }
{
    match (&left.form, &right.form) {
        (TypeForm::Int(a), TypeForm::Int(b)) => {
            Some(Row {
                result: CType::integer(promote(*a)),
                left: CType::integer(promote(*a)),
                right: CType::integer(promote(*b)),
            })
        }
        _ => None,
    }
}

/// `<`, `>`, `<=` and `>=`.
fn order_row(alloc: Global, left: &CType, right: &CType) -> Result<Option<Row>, AllocError>
    ensures { IfOk result (λ r. option_map plain_row r ≡ order_row (plain_type left.now) (plain_type right.now)) }
{
    match (&left.form, &right.form) {
        (TypeForm::Int(a), TypeForm::Int(b)) => Ok(Some(compared_row(*a, *b))),
        (TypeForm::Pointer(s), TypeForm::Pointer(t)) if s.is_same(t) => {
            Ok(Some(Row {
                result: CType::integer(IntType::Int),
                left: pointer_to(alloc, s)?,
                right: pointer_to(alloc, t)?,
            }))
        }
        _ => Ok(None),
    }
}

/// `==` and `!=`.
fn equality_row(
    alloc: Global,
    nulls: (bool, bool),
    left: &CType,
    right: &CType,
) -> Result<Option<Row>, AllocError>
    ensures { IfOk result (λ r. option_map plain_row r ≡ equality_row nulls.0 nulls.1 (plain_type left.now) (plain_type right.now)) }
{
    match (&left.form, &right.form) {
        (TypeForm::Int(a), TypeForm::Int(b)) => Ok(Some(compared_row(*a, *b))),
        (TypeForm::Pointer(s), TypeForm::Pointer(t)) if s.is_same(t) => {
            Ok(Some(Row {
                result: CType::integer(IntType::Int),
                left: pointer_to(alloc, s)?,
                right: pointer_to(alloc, t)?,
            }))
        }
        (TypeForm::Pointer(s), TypeForm::Int(_)) if nulls.1 => {
            Ok(Some(Row {
                result: CType::integer(IntType::Int),
                left: pointer_to(alloc, s)?,
                right: pointer_to(alloc, s)?,
            }))
        }
        (TypeForm::Int(_), TypeForm::Pointer(t)) if nulls.0 => {
            Ok(Some(Row {
                result: CType::integer(IntType::Int),
                left: pointer_to(alloc, t)?,
                right: pointer_to(alloc, t)?,
            }))
        }
        _ => Ok(None),
    }
}

/// Unary `+`, `-` and `~`.
fn promoted_row(operand: &CType) -> Option<UnaryRow>
    ensures { option_map plain_unary_row result ≡ promoted_row (plain_type operand.now) }
{
    match &operand.form {
        TypeForm::Int(kind) => Some(UnaryRow {
            result: CType::integer(promote(*kind)),
            operand: CType::integer(promote(*kind)),
        }),
        _ => None,
    }
}

/// `!`.
fn negation_row(alloc: Global, operand: &CType) -> Result<Option<UnaryRow>, AllocError>
    ensures { IfOk result (λ r. option_map plain_unary_row r ≡ negation_row (plain_type operand.now)) }
{
    match &operand.form {
        TypeForm::Int(kind) => Ok(Some(UnaryRow {
            result: CType::integer(IntType::Int),
            operand: CType::integer(*kind),
        })),
        TypeForm::Pointer(target) => Ok(Some(UnaryRow {
            result: CType::integer(IntType::Int),
            operand: pointer_to(alloc, target)?,
        })),
        _ => Ok(None),
    }
}
