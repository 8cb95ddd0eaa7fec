//! The types of the scalars of objects.

ghost use Rattle.std.specs.Prelude.{◌≡◌, ◌+◌, IfOk, IfSome, length, map, option_map, slice_get, take, flat_map};
ghost use Rattle.p10_core.specs.Types.{PlainType, PlainMember, plain_type, plain_member, bare};
ghost use Rattle.p10_core.specs.Sizes.{scalars_of};
ghost use Rattle.p10_core.specs.Views.{plain_types};
ghost use Rattle.p10_core.specs.WholePrograms.{AreWholeStructures};
ghost use Rattle.p10_meaning.specs.Scalars.{converted_to, zero_of};
ghost use Rattle.p10_machine.specs.Kinds.{HasKind, HasKindAt};

use crate::scalars::{number_of, pointer_of};
use crate::turned::Full;
use crate::widths::{representative, width_of};
use p10_core::{CType, Member, TypeForm, Types};
use p10_int::IntType;
use p10_meaning::{Ptr, Scalar};

/// What kind of scalar a type is.
#[derive(Clone, Copy, Debug)]
pub enum Kind {
    Integer(IntType),
    Pointer,
}

/// How deep types may be nested in one another: more than there are.
const MOST_DEPTH: u64 = 1 << 40;

/// The kind of a scalar of an object of a type, by its number: none where there is no such scalar.
pub fn kind_at(types: &Types<'_>, t: &CType, number: u64) -> Option<Kind>
    requires structures { AreWholeStructures (plain_types types.now) }
    ensures { IfSome result (λ k. HasKindAt (scalars_of (plain_types types.now) (bare (plain_types types.now) (plain_type t.now))) number k) }
{
    kind_within(MOST_DEPTH, types, t, number)
}

/// The kind of a scalar of an object of a type, in which types are nested less deep than `depth`.
fn kind_within(depth: u64, types: &Types<'_>, t: &CType, number: u64) -> Option<Kind>
    requires structures { AreWholeStructures (plain_types types.now) }
    ensures { IfSome result (λ k. HasKindAt (scalars_of (plain_types types.now) (bare (plain_types types.now) (plain_type t.now))) number k) }
{
    if depth == 0 {
        return None;
    }
    match &t.form {
        TypeForm::Void => None,
        TypeForm::Int(kind) => if number == 0 {
            Some(Kind::Integer(*kind))
        } else {
            None
        },
        TypeForm::Pointer(_) => if number == 0 {
            Some(Kind::Pointer)
        } else {
            None
        },
        TypeForm::Array(element, length) => {
            let scalars = width_of(types, element)?;
            if scalars == 0 || number / scalars >= *length {
                return None;
            }
            kind_within(depth - 1, types, element, number % scalars)
        }
        TypeForm::Struct(structure) => {
            let body = types.body(representative(types, *structure))?;
            let members = body.members.as_slice();
            let (place, rest) = place_within(types, members, number)?;
            let member = member_there(members, place)?;
            kind_within(depth - 1, types, &member.ty, rest)
        }
    }
}

/// The member at a place.
fn member_there<'t, 's>(members: &'t [Member<'s>], place: usize) -> Option<&'t Member<'s>>
    ensures { option_map (λ m. plain_member m.now) result ≡ slice_get (map plain_member members.now) place }
{
    members.get(place)
}

/// In which member a scalar of a structure lies, and where in it: none where it lies in none.
fn place_within(types: &Types<'_>, members: &[Member<'_>], number: u64) -> Option<(usize, u64)>
    requires structures { AreWholeStructures (plain_types types.now) }
    ensures { IfSome result (λ r. length (flat_map (λ (x : PlainMember). scalars_of (plain_types types.now) (bare (plain_types types.now) x.type)) (take r.0 (map plain_member members.now))) + r.1 ≡ number) }
{
    let mut left = number;
    for (place, member) in members.iter().enumerate() {
        let Some(scalars) = width_of(types, &member.ty) else {
            return None;
        };
        if left < scalars {
            return Some((place, left));
        }
        left -= scalars;
    }
    None
}

/// A scalar converted to the type of another (C99 6.3). A number that no type holds is answered as out of memory; whole programs
/// have none.
pub fn convert_to_kind(kind: Kind, x: Scalar) -> Result<Scalar, Full>
    ensures { (t : PlainType) → HasKind t kind → IfOk result (λ y. y ≡ converted_to t x) }
{
    match kind {
        Kind::Integer(kind) => {
            let number = number_of(x);
            if -9_223_372_036_854_775_808 <= number && number <= 18_446_744_073_709_551_615 {
                Ok(Scalar::Int(p10_int::convert(kind, number)))
            } else {
                Err(Full)
            }
        }
        Kind::Pointer => Ok(Scalar::Pointer(pointer_of(x))),
    }
}

/// 0, or null (C99 6.7.8p10).
pub fn zero_of_kind(kind: Kind) -> Scalar
    ensures { (t : PlainType) → HasKind t kind → result ≡ zero_of t }
{
    match kind {
        Kind::Integer(_) => Scalar::Int(0),
        Kind::Pointer => Scalar::Pointer(Ptr::Null),
    }
}
