//! How many scalars types have. None is given where their number exceeds that of all addresses.

ghost use Rattle.std.specs.Prelude.{◌≡◌, IfOk, IfSome, length, false, map, take, flat_map};
ghost use Rattle.p10_core.specs.Types.{PlainMember, plain_type, plain_member, structure, representative_of, bare};
ghost use Rattle.p10_core.specs.Typed.{PlainProgram};
ghost use Rattle.p10_core.specs.Views.{plain_program, plain_types};
ghost use Rattle.p10_core.specs.Sizes.{scalars_of};
ghost use Rattle.p10_core.specs.WholePrograms.{AreWholeStructures};
ghost use Rattle.p10_meaning.specs.Values.{width, scalars_before};

use p10_core::{CType, Member, Program, TypeForm, Types};
use std::alloc::AllocError;

/// How many scalars an object of a type has. There is no memory for one whose number exceeds that of all addresses.
pub fn width(program: &Program<'_>, t: &CType) -> Result<u64, AllocError>
    ensures { IfOk result (λ n. n ≡ width (plain_program program.now) (plain_type t.now)) }
{
    program.types.are_whole();
    match width_of(&program.types, t) {
        Some(n) => Ok(n),
        None => Err(AllocError),
    }
}

/// How many scalars of a structure stand before a member (C99 6.7.2.1p13). There is no memory for more than there are addresses.
pub fn scalars_before(program: &Program<'_>, t: &CType, number: u32) -> Result<u64, AllocError>
    ensures { IfOk result (λ n. n ≡ scalars_before (plain_program program.now) (bare (plain_program program.now).structures (plain_type t.now)) number) }
{
    program.types.are_whole();
    match before_member(&program.types, t, number) {
        Some(n) => Ok(n),
        None => Err(AllocError),
    }
}

/// How many scalars an object of a type has; none where their number exceeds that of all addresses. Structures of several
/// roots that are compatible are one (C99 6.2.7).
#[tactic(auto, unfolding(p10_core::specs::Sizes::layout_of))]
fn width_of(types: &Types<'_>, t: &CType) -> Option<u64>
    requires structures { AreWholeStructures (plain_types types.now) }
    ensures { IfSome result (λ n. n ≡ length (scalars_of (plain_types types.now) (bare (plain_types types.now) (plain_type t.now)))) }
{
    match &t.form {
        TypeForm::Void => Some(0),
        TypeForm::Int(_) | TypeForm::Pointer(_) => Some(1),
        TypeForm::Array(element, length) => (*length).checked_mul(width_of(types, element)?),
        TypeForm::Struct(number) => Some(structure_width(types, *number)),
    }
}

/// How many scalars a structure has: 0 where it isn't complete.
fn structure_width(types: &Types<'_>, number: u32) -> u64
    requires structures { AreWholeStructures (plain_types types.now) }
    ensures { result ≡ length (scalars_of (plain_types types.now) (structure false (representative_of (plain_types types.now) number))) }
{
    match types.body(representative(types, number)) {
        Some(body) => body.scalars,
        None => 0,
    }
}

/// The structure that stands for the one with this number: itself where there is none.
fn representative(types: &Types<'_>, number: u32) -> u32
    ensures { result ≡ representative_of (plain_types types.now) number }
{
    match types.structure(number) {
        Some(structure) => structure.representative,
        None => number,
    }
}

/// How many scalars of a structure stand before a member (C99 6.7.2.1p13); none where their number exceeds that of all addresses.
fn before_member(types: &Types<'_>, t: &CType, number: u32) -> Option<u64>
    requires structures { AreWholeStructures (plain_types types.now) }
    ensures { (p : PlainProgram) → p.structures ≡ plain_types types.now → IfSome result (λ n. n ≡ scalars_before p (bare p.structures (plain_type t.now)) number) }
{
    match &t.form {
        TypeForm::Struct(structure) => {
            match types.body(representative(types, *structure)) {
                Some(body) => scalars_of_first(types, body.members.as_slice(), number),
                None => Some(0),
            }
        }
        _ => Some(0),
    }
}

/// How many scalars the first members have, as many as asked; none where their number exceeds that of all addresses.
fn scalars_of_first(types: &Types<'_>, members: &[Member<'_>], number: u32) -> Option<u64>
    requires structures { AreWholeStructures (plain_types types.now) }
    ensures { IfSome result (λ n. n ≡ length (flat_map (λ (x : PlainMember). scalars_of (plain_types types.now) (bare (plain_types types.now) x.type)) (take number (map plain_member members.now)))) }
{
    let mut before: u64 = 0;
    for (place, member) in members.iter().enumerate() {
        if place as u64 >= number as u64 {
            return Some(before);
        }
        let Some(scalars) = width_of(types, &member.ty) else {
            return None;
        };
        let Some(more) = before.checked_add(scalars) else {
            return None;
        };
        before = more;
    }
    Some(before)
}
