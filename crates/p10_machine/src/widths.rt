//! How many scalars types have.

ghost use Rattle.std.specs.Prelude.{◌≡◌, IfSome, length, false};
ghost use Rattle.p10_core.specs.Types.{plain_type, structure, representative_of, bare};
ghost use Rattle.p10_core.specs.Views.{plain_types};
ghost use Rattle.p10_core.specs.Sizes.{scalars_of};
ghost use Rattle.p10_core.specs.WholePrograms.{AreWholeStructures};

use p10_core::{CType, TypeForm, Types};

/// How many scalars an object of a type has; none where their number exceeds that of all addresses. Structures of several
/// roots that are compatible are one (C99 6.2.7).
#[tactic(auto, unfolding(p10_core::specs::Sizes::layout_of))]
pub fn width_of(types: &Types<'_>, t: &CType) -> Option<u64>
    requires structures { AreWholeStructures (plain_types types.now) }
    ensures { IfSome result (λ n. n ≡ length (scalars_of (plain_types types.now) (bare (plain_types types.now) (plain_type t.now)))) }
{
    match &t.form {
        TypeForm::Void => Some(0),
        TypeForm::Int(_) | TypeForm::Pointer(_) => Some(1),
        TypeForm::Array(element, length) => (*length).checked_mul(width_of(types, element)?),
        TypeForm::Struct(number) => Some(structure_width(types, *number)),
    }
}

/// How many scalars a structure has: 0 where it isn't complete.
fn structure_width(types: &Types<'_>, number: u32) -> u64
    requires structures { AreWholeStructures (plain_types types.now) }
    ensures { result ≡ length (scalars_of (plain_types types.now) (structure false (representative_of (plain_types types.now) number))) }
{
    match types.body(representative(types, number)) {
        Some(body) => body.scalars,
        None => 0,
    }
}

/// The structure that stands for the one with this number: itself where there is none.
pub fn representative(types: &Types<'_>, number: u32) -> u32
    ensures { result ≡ representative_of (plain_types types.now) number }
{
    match types.structure(number) {
        Some(structure) => structure.representative,
        None => number,
    }
}
