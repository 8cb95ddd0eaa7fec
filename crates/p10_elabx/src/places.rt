//! The places that operators give, and what is done with places (C99 6.5.2.1, 6.5.2.3, 6.5.3.2, 6.5.3.4).

ghost use Rattle.std.specs.Prelude.{◌≡◌, IfOk, Some, false, map};
ghost use Rattle.p10_core.specs.Types.{plain_type, plain_member, qualified, members_of, member_named, integer};
ghost use Rattle.p10_core.specs.Views.{plain_types, plain_value, plain_place};
ghost use Rattle.p10_core.specs.Rows.{mark_of};
ghost use Rattle.p10_core.specs.WholePrograms.{AreWholeStructures};
ghost use Rattle.p10_int.specs.Types.{promoted};
ghost use Rattle.p10_elabx.specs.Operators.{dereferenced, indexed, element_of, promoted_value, member_there, member_by, member_in, member_found, arrow_found, operand_size, address_found, target_found};
ghost use Rattle.p10_elabx.specs.Built.{plain_operand, ruled_operand, ruled_target};

use crate::operand::{Operand, PlaceKind};
use crate::operators::size_value;
use crate::parts::{stopped, stopped_after_two, without};
use crate::problem::Problem;
use crate::rows::pointer_to;
use crate::values::converted;
use p10_base::{At, SubsetCode};
use p10_core::{CType, Member, Place, TypeForm, Types, Value};
use p10_int::{IntType, promote};
use std::alloc::{AllocError, Global};

/// The greatest number of a member: it has 32 bits, as numbers of words have.
const LAST_MEMBER: usize = 4_294_967_295;

/// `*`.
pub fn dereferenced(
    alloc: Global,
    at: At,
    v: Value,
) -> Result<Result<Operand, Option<Problem>>, AllocError>
    ensures { IfOk result (λ r. ruled_operand r ≡ dereferenced at (plain_value v)) }
{
    match &v.ty.form {
        TypeForm::Pointer(target) => {
            match target.copy(alloc) {
                Ok(ty) => Ok(Ok(Operand::Place(
                    PlaceKind::Object,
                    Place::dereference(alloc, at, ty, v)?,
                ))),
                Err(trouble) => stopped(v, trouble),
            }
        }
        _ => {
            let own = Problem {
                code: SubsetCode::OperandTypes,
                at,
            };
            Ok(stopped(v, Some(own)))
        }
    }
}

/// `a[i]`.
pub fn indexed(
    alloc: Global,
    types: &Types<'_>,
    at: At,
    a: Value,
    i: Value,
) -> Result<Result<Operand, Option<Problem>>, AllocError>
    ensures { IfOk result (λ r. ruled_operand r ≡ indexed (plain_types types.now) at (plain_value a) (plain_value i)) }
{
    match (&a.ty.form, &i.ty.form) {
        (TypeForm::Pointer(target), TypeForm::Int(kind)) => {
            let ty = match target.copy(alloc) {
                Ok(ty) => ty,
                Err(trouble) => return stopped_after_two(a, i, trouble),
            };
            match promoted_value(alloc, *kind, i) {
                Ok(i) => element_of(alloc, types, at, ty, a, i),
                Err(trouble) => stopped_after_two(a, ty, trouble),
            }
        }
        _ => {
            let own = Problem {
                code: SubsetCode::OperandTypes,
                at,
            };
            Ok(stopped_after_two(a, i, Some(own)))
        }
    }
}

/// An index, promoted.
fn promoted_value(alloc: Global, kind: IntType, v: Value) -> Result<Value, AllocError>
    ensures { IfOk result (λ r. plain_value r ≡ promoted_value (plain_value v) kind) }
{
    converted(alloc, v, CType::integer(promote(kind)))
}

/// An element of what a pointer to a type with a size points to.
fn element_of(
    alloc: Global,
    types: &Types<'_>,
    at: At,
    ty: CType,
    a: Value,
    i: Value,
) -> Result<Result<Operand, Option<Problem>>, AllocError>
    ensures { IfOk result (λ r. ruled_operand r ≡ element_of (plain_types types.now) at (plain_type ty) (plain_value a) (plain_value i)) }
{
    if types.is_complete(&ty) {
        Ok(Ok(Operand::Place(PlaceKind::Object, Place::index(alloc, at, ty, a, i)?)))
    } else {
        let own = Problem {
            code: SubsetCode::OperandTypes,
            at,
        };
        Ok(stopped_after_two(a, i, Some(own)))
    }
}

/// `&`.
pub fn address_found(
    alloc: Global,
    at: At,
    operand: Operand,
) -> Result<Result<Operand, Option<Problem>>, AllocError>
    ensures { IfOk result (λ r. ruled_operand r ≡ address_found at (plain_operand operand)) }
{
    match operand {
        Operand::Value(v) => {
            let own = Problem {
                code: SubsetCode::NoAddress,
                at,
            };
            Ok(stopped(v, Some(own)))
        }
        Operand::Place(PlaceKind::Sensor, p) => {
            let own = Problem {
                code: SubsetCode::NoAddress,
                at,
            };
            Ok(stopped(p, Some(own)))
        }
        Operand::Place(PlaceKind::Frame | PlaceKind::Object, p) => {
            match pointer_to(alloc, &p.ty) {
                Ok(ty) => Ok(Ok(Operand::Value(Value::address(alloc, at, ty, p)?))),
                Err(trouble) => stopped(p, trouble),
            }
        }
        Operand::Function(_) => Ok(Err(Some(Problem {
            code: SubsetCode::BadPointer,
            at,
        }))),
    }
}

/// The target of an assignment.
pub fn target_found(
    types: &Types<'_>,
    at: At,
    operand: Operand,
) -> Result<(PlaceKind, Place), Option<Problem>>
    requires { AreWholeStructures (plain_types types.now) }
    ensures { ruled_target result ≡ target_found (plain_types types.now) at (plain_operand operand) }
{
    match operand {
        Operand::Place(kind, p) => {
            if types.is_modifiable(&p.ty) {
                Ok((kind, p))
            } else {
                let own = Problem {
                    code: SubsetCode::FixedTarget,
                    at,
                };
                stopped(p, Some(own))
            }
        }
        Operand::Value(v) => {
            let own = Problem {
                code: SubsetCode::FixedTarget,
                at,
            };
            stopped(v, Some(own))
        }
        Operand::Function(_) => Err(Some(Problem {
            code: SubsetCode::FixedTarget,
            at,
        })),
    }
}

/// The member with a name of a place that is a structure.
#[tactic(auto, using(crate::proofs::Members::mark_of_plain))]
fn member_in(
    alloc: Global,
    types: &Types<'_>,
    at: At,
    name: &[u8],
    p: Place,
) -> Result<Result<Operand, Option<Problem>>, AllocError>
    ensures { IfOk result (λ r. ruled_operand r ≡ member_in (plain_types types.now) at name.now (plain_place p)) }
{
    match &p.ty.form {
        TypeForm::Struct(number) => {
            let number = *number;
            let found = structure_member(alloc, types, at, name, number, p)?;
            Ok(found)
        }
        _ => {
            let own = Problem {
                code: SubsetCode::OperandTypes,
                at,
            };
            Ok(stopped(p, Some(own)))
        }
    }
}

/// The member with a name of a place that is the structure with a number.
#[tactic(auto, using(crate::proofs::Members::mark_of_plain))]
fn structure_member(
    alloc: Global,
    types: &Types<'_>,
    at: At,
    name: &[u8],
    number: u32,
    p: Place,
) -> Result<Result<Operand, Option<Problem>>, AllocError>
    ensures { IfOk result (λ r. ruled_operand r ≡ member_by at (mark_of (plain_type p.ty)) (plain_place p) (members_of (plain_types types.now) number) (member_named name.now (members_of (plain_types types.now) number))) }
{
    let place = types.member_named(number, name);
    match types.body(number) {
        Some(body) => {
            let found = member_by(alloc, at, p, body.members.as_slice(), place)?;
            Ok(found)
        }
        None => {
            let own = Problem {
                code: SubsetCode::UnknownMember,
                at,
            };
            Ok(stopped(p, Some(own)))
        }
    }
}

/// A member by its place among the members, with the marks of the structure.
#[tactic(auto, using(crate::proofs::Members::member_at))]
fn member_by(
    alloc: Global,
    at: At,
    p: Place,
    members: &[Member<'_>],
    place: Option<usize>,
) -> Result<Result<Operand, Option<Problem>>, AllocError>
    ensures { IfOk result (λ r. ruled_operand r ≡ member_by at (mark_of (plain_type p.ty)) (plain_place p) (map plain_member members.now) place) }
{
    match place {
        Some(place) => match members.get(place) {
            Some(member) => {
                let found = member_there(alloc, at, p, place, member)?;
                Ok(found)
            }
            None => {
                let own = Problem {
                    code: SubsetCode::UnknownMember,
                    at,
                };
                Ok(stopped(p, Some(own)))
            }
        },
        None => {
            let own = Problem {
                code: SubsetCode::UnknownMember,
                at,
            };
            Ok(stopped(p, Some(own)))
        }
    }
}

/// A member that is there.
#[tactic(auto, using(crate::proofs::Members::mark_of_plain))]
fn member_there(
    alloc: Global,
    at: At,
    p: Place,
    place: usize,
    member: &Member<'_>,
) -> Result<Result<Operand, Option<Problem>>, AllocError>
    ensures { IfOk result (λ r. ruled_operand r ≡ member_there at (mark_of (plain_type p.ty)) (plain_place p) place (Some (plain_member member.now))) }
{
    if place <= LAST_MEMBER {
        let mark = p.ty.is_const;
        let ty = match qualified(alloc, mark, &member.ty) {
            Ok(ty) => ty,
            Err(trouble) => return stopped(p, trouble),
        };
        let whole = Place::member(alloc, at, ty, p, place as u32)?;
        Ok(Ok(Operand::Place(PlaceKind::Object, whole)))
    } else {
        let own = Problem {
            code: SubsetCode::UnknownMember,
            at,
        };
        Ok(stopped(p, Some(own)))
    }
}

/// `.` with the name of a member.
pub fn member_found(
    alloc: Global,
    types: &Types<'_>,
    at: At,
    name: &[u8],
    operand: Operand,
) -> Result<Result<Operand, Option<Problem>>, AllocError>
    ensures { IfOk result (λ r. ruled_operand r ≡ member_found (plain_types types.now) at name.now (plain_operand operand)) }
{
    match operand {
        Operand::Place(_, p) => {
            let found = member_in(alloc, types, at, name, p)?;
            Ok(found)
        }
        Operand::Value(v) => {
            let own = Problem {
                code: SubsetCode::OperandTypes,
                at,
            };
            Ok(stopped(v, Some(own)))
        }
        Operand::Function(at) => Ok(Err(Some(Problem {
            code: SubsetCode::BadPointer,
            at,
        }))),
    }
}

/// `->` with the name of a member.
pub fn arrow_found(
    alloc: Global,
    types: &Types<'_>,
    at: At,
    name: &[u8],
    v: Value,
) -> Result<Result<Operand, Option<Problem>>, AllocError>
    ensures { IfOk result (λ r. ruled_operand r ≡ arrow_found (plain_types types.now) at name.now (plain_value v)) }
{
    match &v.ty.form {
        TypeForm::Pointer(target) => match &target.form {
            TypeForm::Struct(_) => {
                let ty = match target.copy(alloc) {
                    Ok(ty) => ty,
                    Err(trouble) => return stopped(v, trouble),
                };
                let whole = Place::dereference(alloc, at, ty, v)?;
                let found = member_in(alloc, types, at, name, whole)?;
                Ok(found)
            }
            _ => {
                let own = Problem {
                    code: SubsetCode::OperandTypes,
                    at,
                };
                Ok(stopped(v, Some(own)))
            }
        },
        _ => {
            let own = Problem {
                code: SubsetCode::OperandTypes,
                at,
            };
            Ok(stopped(v, Some(own)))
        }
    }
}

/// A type with one mark more, which an array has at its elements.
pub fn qualified(alloc: Global, mark: bool, ty: &CType) -> Result<CType, AllocError>
    ensures { IfOk result (λ t. plain_type t ≡ qualified mark (plain_type ty.now)) }
{
    match &ty.form {
        TypeForm::Array(element, length) => {
            let inner = qualified(alloc, mark, element)?;
            let form = TypeForm::Array(Box::new(alloc, inner)?, *length);
            Ok(CType {
                is_const: ty.is_const,
                form,
            })
        }
        TypeForm::Void | TypeForm::Int(_) | TypeForm::Pointer(_) | TypeForm::Struct(_) => {
            let CType { is_const, form } = ty.copy(alloc)?;
            Ok(CType {
                is_const: mark | is_const,
                form,
            })
        }
    }
}

/// `sizeof` of an operand.
pub fn operand_size(types: &Types<'_>, at: At, operand: Operand) -> Result<Operand, Option<Problem>>
    requires { AreWholeStructures (plain_types types.now) }
    ensures { ruled_operand result ≡ operand_size (plain_types types.now) at (plain_operand operand) }
{
    match operand {
        Operand::Value(v) => {
            let size = size_value(types, at, &v.ty);
            without(v, size)
        }
        Operand::Place(_, p) => {
            let size = size_value(types, at, &p.ty);
            without(p, size)
        }
        Operand::Function(_) => Err(Some(Problem {
            code: SubsetCode::NoSize,
            at,
        })),
    }
}
