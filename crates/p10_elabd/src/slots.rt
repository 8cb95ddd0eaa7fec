//! What is left to initialise of an aggregate (C99 6.7.8p17).

ghost use Rattle.std.specs.Prelude.{◌≡◌, ◌+◌, IfOk, pos, map, option_map, option_copied, slice_get};
ghost use Rattle.p10_core.specs.Types.{plain_type, plain_member};
ghost use Rattle.p10_core.specs.Typed.{value, constant};
ghost use Rattle.p10_core.specs.Rows.{int_type};
ghost use Rattle.p10_core.specs.Views.{plain_types, plain_value, plain_item};
ghost use Rattle.p10_core.specs.Sizes.{scalars_of};
ghost use Rattle.p10_elabd.specs.Initializers.{slots_of, scalar_count, zero_item};
ghost use Rattle.p10_elabx.specs.Operands.{converted};
ghost use Rattle.p10_elabd.specs.ItemViews.{plain_slots, slot_at};

use crate::first_scalar::first_scalar;
use p10_base::At;
use p10_core::{CType, Item, Member, TypeForm, Types, Value};
use p10_elabx::converted;
use p10_int::IntType;
use std::alloc::{AllocError, Global};

/// What there is to initialise of a type: a number of elements of a type, or members of these types.
#[derive(Drop)]
pub enum Slots {
    Elements(CType, u64),
    Members(Vec<CType>),
    Nothing,
}

impl Slots {
    /// The type of what stands at a place, if there is something.
    pub fn get(&self, place: usize) -> Option<&CType>
        ensures { option_map plain_type (option_copied result) ≡ slot_at place (plain_slots self.now) }
    {
        match self {
            Slots::Elements(ty, count) => {
                if (place as u64) < *count {
                    Some(ty)
                } else {
                    None
                }
            }
            Slots::Members(types) => types.get(place),
            Slots::Nothing => None,
        }
    }
}

/// The types of members.
fn member_types(alloc: Global, members: &[Member<'_>]) -> Result<Vec<CType>, AllocError>
    ensures { IfOk result (λ types. map plain_type types.items ≡ map (λ m. m.type) (map plain_member members.now)) }
{
    let mut types = Vec::new(alloc);
    for member in members {
        let ty = member.ty.copy(alloc)?;
        types.push(ty)?;
    }
    Ok(types)
}

/// What there is to initialise of a type.
pub fn slots_of(alloc: Global, types: &Types<'_>, ty: &CType) -> Result<Slots, AllocError>
    ensures { IfOk result (λ s. plain_slots s ≡ slots_of (plain_types types.now) (plain_type ty.now)) }
{
    match &ty.form {
        TypeForm::Array(element, count) => Ok(Slots::Elements(element.copy(alloc)?, *count)),
        TypeForm::Struct(number) => match types.body(*number) {
            Some(body) => Ok(Slots::Members(member_types(alloc, body.members.as_slice())?)),
            None => Ok(Slots::Members(Vec::new(alloc))),
        },
        TypeForm::Void | TypeForm::Int(_) | TypeForm::Pointer(_) => Ok(Slots::Nothing),
    }
}

/// How many scalars a type of objects has; 0 of another type.
pub fn scalar_count(types: &Types<'_>, ty: &CType) -> u64
    ensures { result ≡ scalar_count (plain_types types.now) (plain_type ty.now) }
{
    let holds = types.is_object(ty);
    if holds { types.scalars(ty) } else { 0 }
}

/// The place that lies `count` scalars after a place.
pub fn place_after(scalar: u64, count: u64) -> Result<u64, AllocError>
    ensures { IfOk result (λ n. n ≡ scalar + count) }
{
    match scalar.checked_add(count) {
        Some(place) => Ok(place),
        None => Err(AllocError),
    }
}

/// Zero for a scalar.
fn zero_value(alloc: Global, at: At, ty: CType) -> Result<Value, AllocError>
    ensures { IfOk result (λ v. plain_value v ≡ converted (value at int_type (constant (pos 0))) (plain_type ty)) }
{
    converted(
        alloc,
        Value::constant(at, CType::integer(IntType::Int), 0),
        ty,
    )
}

/// Zero for the first scalar of an aggregate.
pub fn zero_item(
    alloc: Global,
    types: &Types<'_>,
    at: At,
    ty: &CType,
    scalar: u64,
) -> Result<Option<Item>, AllocError>
    ensures { IfOk result (λ i. option_map plain_item i ≡ zero_item at scalar (slice_get (scalars_of (plain_types types.now) (plain_type ty.now)) 0)) }
{
    match first_scalar(alloc, types, ty)? {
        None => Ok(None),
        Some(ty) => {
            let zero = zero_value(alloc, at, ty)?;
            Ok(Some(Item::value(scalar, zero)))
        }
    }
}
