//! Whether assignments, tests and what a function returns are whole (C99 6.5.16, 6.8.4, 6.8.6.4).

ghost use Rattle.std.specs.Prelude.{◌≡◌, Bool, List, true, false, option_map};
ghost use Rattle.p10_core.specs.Types.{plain_type, PlainStructure, integer, pointer};
ghost use Rattle.p10_core.specs.Views.{plain_types, plain_value, plain_place};
ghost use Rattle.p10_core.specs.Rows.{is_modifiable, is_complete};
ghost use Rattle.p10_core.specs.WholePrograms.{Sets, Updates, Copies, IsStep, IsTest, Returns, is_one};
ghost use Rattle.p10_whole.specs.private.Shows.{Shows};
ghost use Rattle.p10_whole.specs.private.Surroundings.{surroundings_in};
ghost use Rattle.p10_whole.specs.private.Updates.{UpdateAgrees, AreUsual};

use crate::around::Around;
use crate::initializers::copies_structure;
use crate::shapes::{is_integer_of, is_pointer_to};
use crate::types::is_unqualified_of;
use crate::values::{is_whole_place, is_whole_value};
use p10_core::{CType, Place, TypeForm, Types, UpdateKind, Value, ValueForm};
use p10_int::{BinOp, IntType, promote, usual};

/// Whether `P = e;` is whole.
pub(crate) fn sets(around: &Around<'_, '_>, place: &Place, value: &Value) -> bool
    ensures { Shows result (Sets (surroundings_in around.now) (plain_place place.now) (plain_value value.now)) }
{
    let trees = is_whole_place(around, place) & is_whole_value(around, value);
    let assigned = place.ty.is_scalar() & is_modifiable(&around.program.types, &place.ty);
    trees & (assigned & is_unqualified_of(&value.ty, &place.ty))
}

/// Whether `P op= e;`, `P++;` or `P--;` is whole, where the value of P is converted to the type `t`.
pub(crate) fn updates(
    around: &Around<'_, '_>,
    kind: UpdateKind,
    op: BinOp,
    t: &CType,
    place: &Place,
    value: &Value,
) -> bool
    ensures { Shows result (Updates (surroundings_in around.now) kind op (plain_type t.now) (plain_place place.now) (plain_value value.now)) }
{
    let types = &around.program.types;
    let trees = is_whole_place(around, place) & is_whole_value(around, value);
    let assigned = place.ty.is_scalar() & is_modifiable(types, &place.ty);
    let agrees = is_step(kind, op, value) & types_agree(types, op, &place.ty, t, &value.ty);
    trees & (assigned & agrees)
}

/// Whether the copy of a structure is whole.
pub(crate) fn copies(around: &Around<'_, '_>, target: &Place, source: &Place) -> bool
    ensures { Shows result (Copies (surroundings_in around.now) (plain_place target.now) (plain_place source.now)) }
{
    is_whole_place(around, target)
        & (is_modifiable(&around.program.types, &target.ty)
            & copies_structure(around, &target.ty, source))
}

/// Whether a value may be tested.
pub(crate) fn is_test(around: &Around<'_, '_>, v: &Value) -> bool
    ensures { Shows result (IsTest (surroundings_in around.now) (plain_value v.now)) }
{
    is_whole_value(around, v) & v.ty.is_scalar()
}

/// Whether a `return` is whole in a function with a result of the type `given`.
pub(crate) fn returns(around: &Around<'_, '_>, given: &CType, v: &Option<Value>) -> bool
    ensures { Shows result (Returns (surroundings_in around.now) (plain_type given.now) (option_map plain_value v.now)) }
{
    match v {
        None => given.is_void(),
        Some(v) => {
            is_whole_value(around, v) & (!given.is_void() & is_unqualified_of(&v.ty, given))
        }
    }
}

/// Whether a place of the type can be assigned (C99 6.3.2.1p1).
fn is_modifiable(types: &Types<'_>, t: &CType) -> bool
    ensures { result ≡ is_modifiable (plain_types types.now) (plain_type t.now) }
{
    types.are_whole();
    types.is_modifiable(t)
}

/// Whether the operator and the value of `++` and `--` are theirs.
fn is_step(kind: UpdateKind, op: BinOp, v: &Value) -> bool
    ensures { Shows result (IsStep kind op (plain_value v.now)) }
{
    match kind {
        UpdateKind::Compound => true,
        UpdateKind::Step => adds_one(op, v),
    }
}

/// Whether an operator is `+` or `-`, and a value is 1.
fn adds_one(op: BinOp, v: &Value) -> bool
    ensures { Shows result (IsStep UpdateKind.Step op (plain_value v.now)) }
{
    match op {
        BinOp::Add | BinOp::Sub => is_one(v),
        BinOp::Mul | BinOp::Div | BinOp::Rem | BinOp::Shl | BinOp::Shr => false,
        BinOp::And | BinOp::Or | BinOp::Xor => false,
        BinOp::Lt | BinOp::Gt | BinOp::Le | BinOp::Ge | BinOp::Eq | BinOp::Ne => false,
    }
}

/// Whether a value is the constant 1, perhaps converted.
fn is_one(v: &Value) -> bool
    ensures { result ≡ is_one (plain_value v.now) }
{
    match &v.form {
        ValueForm::Const(number) => *number == 1,
        ValueForm::Convert(part) => is_one(part),
        ValueForm::Read(_) | ValueForm::Sense(_) | ValueForm::Addr(_) | ValueForm::Decay(_) => {
            false
        }
        ValueForm::Cast(_) | ValueForm::Unary(_, _) => false,
        ValueForm::Binary(_, _, _) | ValueForm::Logic(_, _, _) | ValueForm::Cond(_, _, _) => false,
        ValueForm::Call(_, _, _) | ValueForm::Builtin(_, _, _) => false,
    }
}

/// Whether the types of a place, of its converted value and of the operand of an update are those of the operator's row.
fn types_agree(types: &Types<'_>, op: BinOp, place: &CType, t: &CType, operand: &CType) -> bool
    ensures { Shows result (UpdateAgrees (plain_types types.now) op (plain_type place.now) (plain_type t.now) (plain_type operand.now)) }
{
    match (&place.form, &operand.form) {
        (TypeForm::Int(left), TypeForm::Int(right)) => {
            !operand.is_const & integers_agree(op, *left, t, *right)
        }
        (TypeForm::Pointer(target), TypeForm::Int(by)) => {
            !operand.is_const & (types.is_complete(target) & pointer_agrees(op, target, t, *by))
        }
        _ => false,
    }
}

/// Whether types agree as an operator on integers asks.
fn integers_agree(op: BinOp, left: IntType, t: &CType, right: IntType) -> bool
    ensures { (structures : List PlainStructure) (mark : Bool) → Shows result (UpdateAgrees structures op (integer mark left) (plain_type t.now) (integer false right)) }
{
    match op {
        BinOp::Add | BinOp::Sub => are_usual(left, t, right),
        BinOp::Mul | BinOp::Div => are_usual(left, t, right),
        BinOp::Rem | BinOp::Xor => are_usual(left, t, right),
        BinOp::And | BinOp::Or => are_usual(left, t, right),
        BinOp::Shl | BinOp::Shr => is_integer_of(promote(left), t) & is_kind(right, promote(right)),
        BinOp::Lt | BinOp::Gt | BinOp::Le | BinOp::Ge | BinOp::Eq | BinOp::Ne => false,
    }
}

/// Whether both types are the common type of two integer types, of which the second is theirs already.
fn are_usual(left: IntType, t: &CType, right: IntType) -> bool
    ensures { Shows result (AreUsual left (plain_type t.now) right) }
{
    let both = usual(left, right);
    is_integer_of(both, t) & is_kind(right, both)
}

/// Whether types agree as a pointer that is moved asks, to what has a size.
fn pointer_agrees(op: BinOp, target: &CType, t: &CType, by: IntType) -> bool
    ensures { (structures : List PlainStructure) (mark : Bool) → is_complete structures (plain_type target.now) ≡ true → Shows result (UpdateAgrees structures op (pointer mark (plain_type target.now)) (plain_type t.now) (integer false by)) }
{
    match op {
        BinOp::Add | BinOp::Sub => is_pointer_to(t, target) & is_kind(by, promote(by)),
        BinOp::Mul | BinOp::Div | BinOp::Rem | BinOp::Shl | BinOp::Shr => false,
        BinOp::And | BinOp::Or | BinOp::Xor => false,
        BinOp::Lt | BinOp::Gt | BinOp::Le | BinOp::Ge | BinOp::Eq | BinOp::Ne => false,
    }
}

/// Whether an integer type is another one.
pub(crate) fn is_kind(kind: IntType, other: IntType) -> bool
    ensures { Shows result (kind ≡ other) }
{
    kind == other
}
