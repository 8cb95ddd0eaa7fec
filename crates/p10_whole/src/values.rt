//! Whether values and places are whole (C99 6.5).

ghost use Rattle.std.specs.Prelude.{◌≡◌, true};
ghost use Rattle.p10_core.specs.Types.{plain_type};
ghost use Rattle.p10_core.specs.Views.{plain_value, plain_place, plain_values};
ghost use Rattle.p10_core.specs.Rows.{is_scalar, int_type};
ghost use Rattle.p10_core.specs.Whole.{IsConstant, IsWholeValue, IsWholePlace, AreWholeValues};
ghost use Rattle.p10_whole.specs.private.Shows.{Shows};
ghost use Rattle.p10_whole.specs.private.Surroundings.{surroundings_in};

use crate::around::Around;
use crate::calls::calls;
use crate::conversions::{casts, converts};
use crate::library::is_library;
use crate::listed::is_literal;
use crate::named::{is_element, is_member, is_object, is_sensor, is_variable};
use crate::operators::{binary_agrees, conditional_agrees, unary_agrees};
use crate::reads::{decays, is_address, reads};
use crate::shapes::{integer_kind, is_integer_of, is_pointer_to};
use p10_core::{CType, Place, PlaceForm, Value, ValueForm};
use p10_int::{IntType, holds};

/// Whether a value is whole in its surroundings.
#[cycle(whole)]
pub(crate) fn is_whole_value(around: &Around<'_, '_>, v: &Value) -> bool
    ensures { Shows result (IsWholeValue (surroundings_in around.now) (plain_value v.now)) }
{
    match &v.form {
        ValueForm::Const(number) => is_constant(&v.ty, number),
        ValueForm::Read(place) => is_whole_place(around, place) & reads(around, &v.ty, place),
        ValueForm::Sense(object) => is_sensor(around, *object, &v.ty),
        ValueForm::Addr(place) => {
            is_whole_place(around, place) & is_address(around, &v.ty, place)
        }
        ValueForm::Decay(place) => is_whole_place(around, place) & decays(around, &v.ty, place),
        ValueForm::Convert(part) => is_whole_value(around, part) & converts(&v.ty, part),
        ValueForm::Cast(part) => is_whole_value(around, part) & casts(&v.ty, part),
        ValueForm::Unary(op, part) => {
            is_whole_value(around, part) & unary_agrees(*op, &v.ty, &part.ty)
        }
        ValueForm::Binary(op, left, right) => {
            (is_whole_value(around, left) & is_whole_value(around, right))
                & binary_agrees(&around.program.types, *op, &v.ty, &left.ty, &right.ty)
        }
        ValueForm::Logic(_, left, right) => {
            (is_whole_value(around, left) & is_whole_value(around, right))
                & are_scalars(&v.ty, &left.ty, &right.ty)
        }
        ValueForm::Cond(test, left, right) => {
            ((is_whole_value(around, test) & test.ty.is_scalar())
                & (is_whole_value(around, left) & is_whole_value(around, right)))
                & conditional_agrees(&v.ty, &left.ty, &right.ty)
        }
        ValueForm::Call(_, number, arguments) => {
            are_whole_values(around, arguments.as_slice())
                & calls(around, &v.ty, *number, arguments.as_slice())
        }
        ValueForm::Builtin(_, library, arguments) => {
            are_whole_values(around, arguments.as_slice())
                & is_library(&around.program.types, &v.ty, *library, arguments.as_slice())
        }
    }
}

/// Whether a place is whole in its surroundings.
#[cycle(whole)]
pub(crate) fn is_whole_place(around: &Around<'_, '_>, p: &Place) -> bool
    ensures { Shows result (IsWholePlace (surroundings_in around.now) (plain_place p.now)) }
{
    match &p.form {
        PlaceForm::Var(number) => is_variable(around, *number, &p.ty),
        PlaceForm::Global(number) => is_object(around, *number, &p.ty),
        PlaceForm::Literal(number, bytes) => is_literal(around, *number, bytes.as_slice(), &p.ty),
        PlaceForm::Index(pointer, by) => {
            (is_whole_value(around, pointer) & is_whole_value(around, by))
                & is_element(around, &pointer.ty, &by.ty, &p.ty)
        }
        PlaceForm::Member(whole, place) => {
            is_whole_place(around, whole) & is_member(around, &whole.ty, &p.ty, *place)
        }
        PlaceForm::Deref(pointer) => {
            is_whole_value(around, pointer) & is_pointer_to(&pointer.ty, &p.ty)
        }
    }
}

/// Whether each of some values is whole.
#[cycle(whole)]
fn are_whole_values(around: &Around<'_, '_>, all: &[Value]) -> bool
    ensures { Shows result (AreWholeValues (surroundings_in around.now) (plain_values all.now)) }
{
    for v in all {
        if !is_whole_value(around, v) {
            return false;
        }
    }
    true
}

/// Whether a number is a constant of a type.
#[tactic(auto, using(crate::proofs::Showing::shows_none))]
fn is_constant(t: &CType, number: &i128) -> bool
    ensures { Shows result (IsConstant (plain_type t.now) number.now) }
{
    match integer_kind(t) {
        Some(kind) => holds(kind, *number),
        None => false,
    }
}

/// Whether a type is `int`, and those of two operands are scalars.
fn are_scalars(t: &CType, left: &CType, right: &CType) -> bool
    ensures { Shows result ((plain_type t.now ≡ int_type) × (is_scalar (plain_type left.now) ≡ true) × (is_scalar (plain_type right.now) ≡ true)) }
{
    is_integer_of(IntType::Int, t) & (left.is_scalar() & right.is_scalar())
}
