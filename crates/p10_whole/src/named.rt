//! What numbers name: variables, objects, sensors and members.

ghost use Rattle.std.specs.Prelude.{◌≡◌, option_map, option_copied, slice_get};
ghost use Rattle.p10_core.specs.Types.{plain_type, plain_member, members_of, structure};
ghost use Rattle.p10_core.specs.Views.{plain_types};
ghost use Rattle.p10_core.specs.Whole.{IsVariable, IsObject, IsSensor, IsMember, IsElement};
ghost use Rattle.p10_whole.specs.private.Shows.{Shows};
ghost use Rattle.p10_whole.specs.private.Surroundings.{surroundings_in};

use crate::around::{Around, is_in_scope, object_at, variable_at};
use crate::shapes::{is_integer, is_pointer_to};
use crate::types::{are_compatible, are_same, is_qualified_of};
use p10_core::{CType, Member, TypeForm, Types};

/// Whether a number is that of a variable of a type.
#[tactic(auto, using(crate::proofs::Showing::shows_none))]
pub(crate) fn is_variable(around: &Around<'_, '_>, number: u32, t: &CType) -> bool
    ensures { Shows result (IsVariable (surroundings_in around.now) number (plain_type t.now)) }
{
    match variable_at(around.variables, number) {
        Some(variable) => is_in_scope(around, number) & are_same(t, &variable.ty),
        None => false,
    }
}

/// Whether a number is that of an object of a type, up to what other roots call it.
#[tactic(auto, using(crate::proofs::Showing::shows_none))]
pub(crate) fn is_object(around: &Around<'_, '_>, number: u32, t: &CType) -> bool
    ensures { Shows result (IsObject (surroundings_in around.now) number (plain_type t.now)) }
{
    match object_at(around.program, number) {
        Some(object) => are_compatible(&around.program.types, t, &object.ty),
        None => false,
    }
}

/// Whether a number is that of a sensor, whose values have a type.
#[tactic(auto, using(crate::proofs::Showing::shows_none))]
pub(crate) fn is_sensor(around: &Around<'_, '_>, number: u32, t: &CType) -> bool
    ensures { Shows result (IsSensor (surroundings_in around.now) number (plain_type t.now)) }
{
    match object_at(around.program, number) {
        Some(object) => {
            object.sensor & (is_integer(t) & are_compatible(&around.program.types, &object.ty, t))
        }
        None => false,
    }
}

/// Whether a member of a structure has a type, with the mark of the structure too (C99 6.5.2.3p3).
#[tactic(auto, using(crate::proofs::Showing::shows_none))]
pub(crate) fn is_member(around: &Around<'_, '_>, whole: &CType, t: &CType, place: u32) -> bool
    ensures { Shows result (IsMember (surroundings_in around.now) (plain_type whole.now) (plain_type t.now) place) }
{
    match &whole.form {
        TypeForm::Struct(number) => has_member(around, whole.is_const, *number, t, place),
        _ => false,
    }
}

/// Whether a member of the structure with a number has a type.
#[tactic(auto, using(crate::proofs::Showing::shows_none))]
fn has_member(around: &Around<'_, '_>, mark: bool, number: u32, t: &CType, place: u32) -> bool
    ensures { Shows result (IsMember (surroundings_in around.now) (structure mark number) (plain_type t.now) place) }
{
    match member_at(&around.program.types, number, place) {
        Some(entry) => is_qualified_of(mark, t, &entry.ty),
        None => false,
    }
}

/// The member of the structure with a number at a place.
pub(crate) fn member_at<'t, 's>(
    types: &'t Types<'s>,
    number: u32,
    place: u32,
) -> Option<&'t Member<'s>>
    ensures { option_map plain_member (option_copied result) ≡ slice_get (members_of (plain_types types.now) number) place }
{
    match types.body(number) {
        Some(body) => body.members.as_slice().get(place as usize),
        None => None,
    }
}

/// Whether an element has a type, by a pointer and an integer of these types (C99 6.5.2.1).

pub(crate) fn is_element(around: &Around<'_, '_>, pointer: &CType, by: &CType, t: &CType) -> bool
    ensures { Shows result (IsElement (surroundings_in around.now) (plain_type pointer.now) (plain_type by.now) (plain_type t.now)) }
{
    is_pointer_to(pointer, t) & (is_integer(by) & around.program.types.is_complete(t))
}
