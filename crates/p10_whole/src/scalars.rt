//! The scalars of types by their places.

ghost use Rattle.std.specs.Prelude.{false, List, All, IfSome, map};
ghost use Rattle.p10_core.specs.Types.{PlainMember, PlainStructure, plain_type, plain_member, structure};
ghost use Rattle.p10_core.specs.Views.{plain_types};
ghost use Rattle.p10_core.specs.WholePrograms.{IsObjectType};
ghost use Rattle.p10_whole.specs.private.Scalars.{SameScalar, HasScalar, HasMember};

use p10_core::{CType, Member, TypeForm, Types};

/// A type with a place among its scalars.
#[derive(Clone, Copy)]
struct Part<'t> {
    ty: &'t CType,
    place: u64,
}

/// The type of the scalar at a place among those of a type of objects, if there is one.
pub(crate) fn scalar_at<'t>(types: &'t Types<'_>, t: &'t CType, place: u64) -> Option<&'t CType>
    requires object { IsObjectType (plain_types types.now) (plain_type t.now) }
    ensures { IfSome result (λ u. HasScalar (plain_types types.now) (plain_type t.now) place (plain_type u.now)) }
{
    let base = part_in_array(types, t, place)?;
    match &base.ty.form {
        TypeForm::Struct(number) => scalar_in_structure(types, *number, base.place),
        _ => only_scalar(base),
    }
}

/// The part of a type, which isn't an array, in which the scalar at a place lies.
fn part_in_array<'t>(types: &Types<'_>, t: &'t CType, place: u64) -> Option<Part<'t>>
    requires object { IsObjectType (plain_types types.now) (plain_type t.now) }
    ensures { IfSome result (λ e. SameScalar (plain_types types.now) (plain_type t.now) place (plain_type e.ty.now) e.place) }
{
    match &t.form {
        TypeForm::Array(element, length) => {
            let count = types.scalars(element);
            if count == 0 {
                return None;
            }
            if place / count < *length {
                part_in_array(types, element, place % count)
            } else {
                None
            }
        }
        _ => Some(Part { ty: t, place }),
    }
}

/// The scalar that a type is, at its only place.
fn only_scalar(part: Part<'_>) -> Option<&CType>
    ensures { (ss : List PlainStructure) → IfSome result (λ u. HasScalar ss (plain_type part.entry.ty.now) part.entry.place (plain_type u.now)) }
{
    if part.place == 0 && part.ty.is_scalar() {
        Some(part.ty)
    } else {
        None
    }
}

/// The type of the scalar at a place among those of a structure, if there is one. A structure is nested in no more others
/// than there are.
fn scalar_in_structure<'t>(types: &'t Types<'_>, number: u32, place: u64) -> Option<&'t CType>
    ensures { IfSome result (λ u. HasScalar (plain_types types.now) (structure false number) place (plain_type u.now)) }
{
    let mut number = number;
    let mut place = place;
    for _turn in 0..types.count() {
        let base = part_of_structure(types, number, place)?;
        match &base.ty.form {
            TypeForm::Struct(inner) => {
                number = *inner;
                place = base.place;
            }
            _ => return only_scalar(base),
        }
    }
    None
}

/// The part of a structure, which isn't an array, in which the scalar at a place lies.
fn part_of_structure<'t>(types: &'t Types<'_>, number: u32, place: u64) -> Option<Part<'t>>
    ensures { IfSome result (λ e. SameScalar (plain_types types.now) (structure false number) place (plain_type e.ty.now) e.place) }
{
    types.are_whole();
    let body = types.body(number)?;
    let member = member_at_scalar(types, body.members.as_slice(), place)?;
    part_in_array(types, member.ty, member.place)
}

/// The member in which the scalar at a place lies, with its place there.
fn member_at_scalar<'t>(
    types: &Types<'_>,
    members: &'t [Member<'_>],
    place: u64,
) -> Option<Part<'t>>
    requires objects { All (λ (m : PlainMember). IsObjectType (plain_types types.now) m.type) (map plain_member members.now) }
    ensures object { IfSome result (λ e. IsObjectType (plain_types types.now) (plain_type e.ty.now)) }
    ensures scalar { IfSome result (λ e. HasMember (plain_types types.now) (map plain_member members.now) place (plain_type e.ty.now) e.place) }
{
    let mut place = place;
    for member in members {
        let count = types.scalars(&member.ty);
        if place < count {
            return Some(Part {
                ty: &member.ty,
                place,
            });
        }
        place -= count;
    }
    None
}
