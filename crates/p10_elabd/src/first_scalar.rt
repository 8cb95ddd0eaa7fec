//! The first scalar of a type.

ghost use Rattle.std.specs.Prelude.{◌≡◌, IfOk, map, option_map, slice_get};
ghost use Rattle.p10_core.specs.Types.{plain_type, plain_member, representative_of, bare};
ghost use Rattle.p10_core.specs.Views.{plain_types};
ghost use Rattle.p10_core.specs.Sizes.{scalars_of, structure_layout};
ghost use Rattle.p10_elabd.specs.private.Heads.{plain_head, head_of, scalar_by, scalar_within, first_of_members};

use p10_core::{CType, Member, TypeForm, Types};
use p10_int::IntType;
use std::alloc::{AllocError, Global};

/// What stands first in a type, arrays left aside.
#[derive(Clone, Copy)]
pub enum Head<'t> {
    Nothing,
    Integer(IntType),
    Pointer(&'t CType),
    Structure(u32),
}

/// What stands first in a type.
fn first_part(ty: &CType) -> Head<'_>
    ensures { plain_head result ≡ head_of (plain_type ty.now) }
{
    match &ty.form {
        TypeForm::Void => Head::Nothing,
        TypeForm::Int(kind) => Head::Integer(*kind),
        TypeForm::Pointer(target) => Head::Pointer(target),
        TypeForm::Array(element, length) => {
            if *length == 0 {
                Head::Nothing
            } else {
                first_part(element)
            }
        }
        TypeForm::Struct(number) => Head::Structure(*number),
    }
}

/// The number of the structure that stands for one.
fn representative(types: &Types<'_>, number: u32) -> u32
    ensures { result ≡ representative_of (plain_types types.now) number }
{
    match types.structure(number) {
        Some(structure) => structure.representative,
        None => number,
    }
}

/// A type without any mark, with the structures that stand for those it names.
fn bare(alloc: Global, types: &Types<'_>, ty: &CType) -> Result<CType, AllocError>
    ensures { IfOk result (λ t. plain_type t ≡ bare (plain_types types.now) (plain_type ty.now)) }
{
    match &ty.form {
        TypeForm::Void => Ok(CType::void()),
        TypeForm::Int(kind) => Ok(CType::integer(*kind)),
        TypeForm::Pointer(target) => {
            let target = bare(alloc, types, target)?;
            CType::pointer(alloc, target)
        }
        TypeForm::Array(element, length) => {
            let element = bare(alloc, types, element)?;
            CType::array(alloc, element, *length)
        }
        TypeForm::Struct(number) => Ok(CType::structure(representative(types, *number))),
    }
}

/// The first scalar by what stands first, if that is no structure.
fn simple_scalar(
    alloc: Global,
    types: &Types<'_>,
    head: Head<'_>,
) -> Result<Option<CType>, AllocError>
    ensures { IfOk result (λ t. option_map plain_type t ≡ scalar_by (plain_types types.now) (structure_layout 0 (plain_types types.now)) (plain_head head.entry)) }
{
    match head {
        Head::Nothing | Head::Structure(_) => Ok(None),
        Head::Integer(kind) => Ok(Some(CType::integer(kind))),
        Head::Pointer(target) => {
            let target = bare(alloc, types, target)?;
            Ok(Some(CType::pointer(alloc, target)?))
        }
    }
}

/// The first scalar of a type whose structures are nested less than `depth` deep.
#[cycle(scalars)]
#[tactic(auto, using(crate::proofs::FirstScalars::first_is))]
fn scalar_within(
    alloc: Global,
    types: &Types<'_>,
    depth: usize,
    ty: &CType,
) -> Result<Option<CType>, AllocError>
    ensures { IfOk result (λ t. option_map plain_type t ≡ scalar_within depth (plain_types types.now) (plain_type ty.now)) }
{
    match first_part(ty) {
        Head::Structure(number) => {
            let found = structure_scalar(alloc, types, depth, number)?;
            Ok(found)
        }
        other => {
            let found = simple_scalar(alloc, types, other)?;
            Ok(found)
        }
    }
}

/// The first scalar of a structure, whose parts are nested less than `depth` deep.
#[cycle(scalars)]
fn structure_scalar(
    alloc: Global,
    types: &Types<'_>,
    depth: usize,
    number: u32,
) -> Result<Option<CType>, AllocError>
    ensures { IfOk result (λ t. option_map plain_type t ≡ slice_get (structure_layout depth (plain_types types.now) number).scalars 0) }
{
    if depth == 0 {
        return Ok(None);
    }
    match types.body(number) {
        Some(body) => {
            let found = first_of_members(alloc, types, depth - 1, body.members.as_slice())?;
            Ok(found)
        }
        None => Ok(None),
    }
}

/// The first scalar of members.
#[cycle(scalars)]
fn first_of_members(
    alloc: Global,
    types: &Types<'_>,
    depth: usize,
    members: &[Member<'_>],
) -> Result<Option<CType>, AllocError>
    ensures { IfOk result (λ t. option_map plain_type t ≡ first_of_members depth (plain_types types.now) (map plain_member members.now)) }
{
    for member in members {
        if let Some(ty) = scalar_within(alloc, types, depth, &member.ty)? {
            return Ok(Some(ty));
        }
    }
    Ok(None)
}

/// The type of the first scalar of a type, without marks, if it has one.
#[tactic(auto, unfolding(p10_core::specs::Sizes::layout_of))]
pub fn first_scalar(
    alloc: Global,
    types: &Types<'_>,
    ty: &CType,
) -> Result<Option<CType>, AllocError>
    ensures { IfOk result (λ t. option_map plain_type t ≡ slice_get (scalars_of (plain_types types.now) (plain_type ty.now)) 0) }
{
    scalar_within(alloc, types, types.count(), ty)
}
