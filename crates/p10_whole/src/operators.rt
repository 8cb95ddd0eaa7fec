//! Whether the types of operators agree with their rows (C99 6.5).

ghost use Rattle.std.specs.Prelude.{◌≡◌};
ghost use Rattle.p10_core.specs.Types.{plain_type};
ghost use Rattle.p10_core.specs.Views.{plain_types};
ghost use Rattle.p10_whole.specs.private.Agreeing.{integer_kind, target_type, are_usual, are_compared, are_shifted, is_moved, is_difference, are_pointers, are_chosen, is_binary, is_conditional, is_promoted, is_unary};

use crate::shapes::{has_kind, integer_kind, target_type};
use p10_core::{CType, Types};
use p10_int::{BinOp, IntType, UnOp, promote, usual};

/// Whether the type of a unary operator's result and that of its converted operand are those of a row.
pub(crate) fn unary_agrees(op: UnOp, t: &CType, operand: &CType) -> bool
    ensures { result ≡ is_unary op (plain_type t.now) (plain_type operand.now) }
{
    match op {
        UnOp::Plus | UnOp::Neg | UnOp::Com => is_promoted(t, operand),
        UnOp::Not => {
            has_kind(IntType::Int, t)
                & (integer_kind(operand).is_some() | target_type(operand).is_some())
        }
    }
}

/// Whether the types of a binary operator's result and of its converted operands are those of a row.
pub(crate) fn binary_agrees(
    types: &Types<'_>,
    op: BinOp,
    t: &CType,
    left: &CType,
    right: &CType,
) -> bool
    ensures { result ≡ is_binary (plain_types types.now) op (plain_type t.now) (plain_type left.now) (plain_type right.now) }
{
    match op {
        BinOp::Add => {
            are_usual(t, left, right)
                | (is_moved(types, t, left, right) | is_moved(types, t, right, left))
        }
        BinOp::Sub => {
            are_usual(t, left, right)
                | (is_moved(types, t, left, right) | is_difference(types, t, left, right))
        }
        BinOp::Mul | BinOp::Div | BinOp::Rem | BinOp::And | BinOp::Or | BinOp::Xor => {
            are_usual(t, left, right)
        }
        BinOp::Shl | BinOp::Shr => are_shifted(t, left, right),
        BinOp::Lt | BinOp::Gt | BinOp::Le | BinOp::Ge | BinOp::Eq | BinOp::Ne => {
            are_compared(t, left, right) | are_pointers(t, left, right)
        }
    }
}

/// Whether the types of `?:` and of its converted second and third operand are those of a row.
pub(crate) fn conditional_agrees(t: &CType, left: &CType, right: &CType) -> bool
    ensures { result ≡ is_conditional (plain_type t.now) (plain_type left.now) (plain_type right.now) }
{
    are_usual(t, left, right) | are_chosen(t, left, right)
}

/// Integers at their common type, which is the result's.
fn are_usual(t: &CType, left: &CType, right: &CType) -> bool
    ensures { result ≡ are_usual (integer_kind (plain_type t.now)) (integer_kind (plain_type left.now)) (integer_kind (plain_type right.now)) }
{
    match (integer_kind(t), integer_kind(left), integer_kind(right)) {
        (Some(kind), Some(first), Some(second)) => {
            let common = usual(first, second);
            (kind == common) & ((first == common) & (second == common))
        }
        _ => false,
    }
}

/// Integers at their common type, and a result of `int`.
fn are_compared(t: &CType, left: &CType, right: &CType) -> bool
    ensures { result ≡ are_compared (integer_kind (plain_type t.now)) (integer_kind (plain_type left.now)) (integer_kind (plain_type right.now)) }
{
    match (integer_kind(t), integer_kind(left), integer_kind(right)) {
        (Some(kind), Some(first), Some(second)) => {
            let common = usual(first, second);
            (kind == IntType::Int) & ((first == common) & (second == common))
        }
        _ => false,
    }
}

/// Integers that are promoted, and a result of the left one's type.
fn are_shifted(t: &CType, left: &CType, right: &CType) -> bool
    ensures { result ≡ are_shifted (integer_kind (plain_type t.now)) (integer_kind (plain_type left.now)) (integer_kind (plain_type right.now)) }
{
    match (integer_kind(t), integer_kind(left), integer_kind(right)) {
        (Some(kind), Some(first), Some(second)) => {
            (kind == promote(first)) & ((first == promote(first)) & (second == promote(second)))
        }
        _ => false,
    }
}

/// A pointer that is moved by a promoted integer.
fn is_moved(types: &Types<'_>, t: &CType, pointer: &CType, by: &CType) -> bool
    ensures { result ≡ is_moved (plain_types types.now) (target_type (plain_type t.now)) (target_type (plain_type pointer.now)) (integer_kind (plain_type by.now)) }
{
    match (target_type(t), target_type(pointer), integer_kind(by)) {
        (Some(result), Some(target), Some(kind)) => {
            types.is_complete(target) & (result.is_same(target) & (kind == promote(kind)))
        }
        _ => false,
    }
}

/// The difference of pointers.
fn is_difference(types: &Types<'_>, t: &CType, left: &CType, right: &CType) -> bool
    ensures { result ≡ is_difference (plain_types types.now) (integer_kind (plain_type t.now)) (target_type (plain_type left.now)) (target_type (plain_type right.now)) }
{
    match (integer_kind(t), target_type(left), target_type(right)) {
        (Some(kind), Some(first), Some(second)) => {
            (kind == IntType::Long) & (first.is_same(second) & types.is_complete(second))
        }
        _ => false,
    }
}

/// Pointers that are compared.
fn are_pointers(t: &CType, left: &CType, right: &CType) -> bool
    ensures { result ≡ are_pointers (integer_kind (plain_type t.now)) (target_type (plain_type left.now)) (target_type (plain_type right.now)) }
{
    match (integer_kind(t), target_type(left), target_type(right)) {
        (Some(kind), Some(first), Some(second)) => (kind == IntType::Int) & first.is_same(second),
        _ => false,
    }
}

/// Pointers of which one is chosen.
fn are_chosen(t: &CType, left: &CType, right: &CType) -> bool
    ensures { result ≡ are_chosen (target_type (plain_type t.now)) (target_type (plain_type left.now)) (target_type (plain_type right.now)) }
{
    match (target_type(t), target_type(left), target_type(right)) {
        (Some(result), Some(first), Some(second)) => {
            result.is_same(first) & first.is_same(second)
        }
        _ => false,
    }
}

/// An integer that is promoted, and a result of its type.
fn is_promoted(t: &CType, operand: &CType) -> bool
    ensures { result ≡ is_promoted (integer_kind (plain_type t.now)) (integer_kind (plain_type operand.now)) }
{
    match (integer_kind(t), integer_kind(operand)) {
        (Some(kind), Some(found)) => (kind == promote(found)) & (found == promote(found)),
        _ => false,
    }
}
