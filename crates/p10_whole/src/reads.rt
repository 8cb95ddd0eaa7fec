//! What values take from places: what is read there, and their addresses (C99 6.3.2.1, 6.5.3.2).

ghost use Rattle.std.specs.Prelude.{◌≡◌, false};
ghost use Rattle.p10_core.specs.Types.{plain_type};
ghost use Rattle.p10_core.specs.Views.{plain_place, plain_place_form};
ghost use Rattle.p10_core.specs.Whole.{Reads, IsAddress, Decays, is_frame, is_sensor};
ghost use Rattle.p10_core.specs.Typed.{variable, global};
ghost use Rattle.p10_whole.specs.private.Places.{variable_in, object_in};
ghost use Rattle.p10_whole.specs.private.Shows.{Shows};
ghost use Rattle.p10_whole.specs.private.Surroundings.{surroundings_in};

use crate::around::{Around, object_at, variable_at};
use crate::shapes::is_pointer_to;
use crate::types::is_unqualified_of;
use p10_core::{CType, Place, PlaceForm, TypeForm};

/// Whether a value of a type may be read from a place.
pub(crate) fn reads(around: &Around<'_, '_>, t: &CType, p: &Place) -> bool
    ensures { Shows result (Reads (surroundings_in around.now) (plain_type t.now) (plain_place p.now)) }
{
    is_unqualified_of(t, &p.ty)
        & (!p.ty.is_array()
            & (around.program.types.is_complete(&p.ty) & is_no_sensor(around, &p.form)))
}

/// Whether a value of a type may be the address of a place.
pub(crate) fn is_address(around: &Around<'_, '_>, t: &CType, p: &Place) -> bool
    ensures { Shows result (IsAddress (surroundings_in around.now) (plain_type t.now) (plain_place p.now)) }
{
    is_pointer_to(t, &p.ty) & (is_no_frame(around, &p.form) & is_no_sensor(around, &p.form))
}

/// Whether a value of a type may be the address of the first element of a place.
#[tactic(auto, using(crate::proofs::Showing::shows_none))]
pub(crate) fn decays(around: &Around<'_, '_>, t: &CType, p: &Place) -> bool
    ensures { Shows result (Decays (surroundings_in around.now) (plain_type t.now) (plain_place p.now)) }
{
    match &p.ty.form {
        TypeForm::Array(element, _) => is_pointer_to(t, element) & is_no_frame(around, &p.form),
        _ => false,
    }
}

/// Whether a place is no frame variable.
fn is_no_frame(around: &Around<'_, '_>, form: &PlaceForm) -> bool
    ensures { Shows result (is_frame (surroundings_in around.now) (plain_place_form form.now) ≡ false) }
{
    match variable_in(form) {
        Some(number) => is_no_frame_variable(around, number),
        None => true,
    }
}

/// Whether a variable is no frame variable.
fn is_no_frame_variable(around: &Around<'_, '_>, number: u32) -> bool
    ensures { Shows result (is_frame (surroundings_in around.now) (variable number) ≡ false) }
{
    match variable_at(around.variables, number) {
        Some(variable) => !variable.frame,
        None => true,
    }
}

/// Whether a place is no sensor.
fn is_no_sensor(around: &Around<'_, '_>, form: &PlaceForm) -> bool
    ensures { Shows result (is_sensor (surroundings_in around.now) (plain_place_form form.now) ≡ false) }
{
    match object_in(form) {
        Some(number) => is_no_sensor_object(around, number),
        None => true,
    }
}

/// Whether an object is no sensor.
fn is_no_sensor_object(around: &Around<'_, '_>, number: u32) -> bool
    ensures { Shows result (is_sensor (surroundings_in around.now) (global number) ≡ false) }
{
    match object_at(around.program, number) {
        Some(object) => !object.sensor,
        None => true,
    }
}

/// The variable that a place is, if it is one.
fn variable_in(form: &PlaceForm) -> Option<u32>
    ensures { result ≡ variable_in (plain_place_form form.now) }
{
    match form {
        PlaceForm::Var(number) => Some(*number),
        PlaceForm::Global(_)
        | PlaceForm::Literal(_, _)
        | PlaceForm::Index(_, _)
        | PlaceForm::Member(_, _)
        | PlaceForm::Deref(_) => None,
    }
}

/// The object that a place is, if it is one.
fn object_in(form: &PlaceForm) -> Option<u32>
    ensures { result ≡ object_in (plain_place_form form.now) }
{
    match form {
        PlaceForm::Global(number) => Some(*number),
        PlaceForm::Var(_)
        | PlaceForm::Literal(_, _)
        | PlaceForm::Index(_, _)
        | PlaceForm::Member(_, _)
        | PlaceForm::Deref(_) => None,
    }
}
