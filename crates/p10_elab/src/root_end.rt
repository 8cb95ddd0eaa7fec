//! What is noted where a function with its body begins, and where a root ends (C99 6.9.1p5, 6.9.2p5).

ghost use Rattle.std.specs.Prelude.{◌≡◌, ◌++◌, IfOk, map, option_map, option_copied, slice_get};
ghost use Rattle.p10_core.specs.Types.{plain_type};
ghost use Rattle.p10_core.specs.Views.{plain_types, plain_seen};
ghost use Rattle.p10_elabx.specs.Views.{meaning_of};
ghost use Rattle.p10_elabx.specs.PlainScopes.{plain_scope};
ghost use Rattle.p10_elabx.specs.First.{only_first};
ghost use Rattle.p10_elabd.specs.Views.{plain_parameter, plain_placed, plain_standing};
ghost use Rattle.p10_elab.specs.Outer.{names_noted, listed_names_noted};
ghost use Rattle.p10_elab.specs.RootEnds.{is_unknown_tag, is_refused_tag, tag_in, is_refused_structure, lacks_size_at_end, sizes_noted, extents_of, outside_of};
ghost use Rattle.p10_elab.specs.OuterViews.{plain_tentative};
ghost use Rattle.p10_elab.specs.KnownViews.{plain_undefined};

use crate::outer_object::{Sighting, Tentative};
use p10_base::SubsetCode;
use p10_core::{CType, Extent, Seen, TypeForm, Types};
use p10_elabd::{DeclaredParameter, PlacedParameter, Standing};
use p10_elabx::{Named, Scope};
use std::alloc::{AllocError, Global};

/// Notes which parameters of a function with a body have no name.
pub fn note_names(parameters: &[DeclaredParameter<'_>], standing: &mut Standing<'_>)
    ensures { plain_standing standing.new ≡ names_noted only_first (map plain_parameter parameters.now) (plain_standing standing.old) }
{
    for parameter in parameters {
        let nameless = parameter.name.is_none();
        standing.refuse_where(nameless, SubsetCode::NoPrototype, parameter.at);
    }
}

/// Notes which parameters of a function with a body have no name, where the function is refused.
pub fn note_listed_names(parameters: &[PlacedParameter<'_>], standing: &mut Standing<'_>)
    ensures { plain_standing standing.new ≡ listed_names_noted only_first (map plain_placed parameters.now) (plain_standing standing.old) }
{
    for parameter in parameters {
        let nameless = parameter.name.is_none();
        standing.refuse_where(nameless, SubsetCode::NoPrototype, parameter.at);
    }
}

/// Whether a tag was found that stands for a structure that is refused.
fn is_unknown_tag(what: Option<&Named>) -> bool
    ensures { result ≡ is_unknown_tag (option_map meaning_of (option_copied what.entry)) }
{
    match what {
        Some(Named::UnknownTag) => true,
        Some(
            Named::Var { .. }
            | Named::Global { .. }
            | Named::Function { .. }
            | Named::Constant(_)
            | Named::Typedef(_)
            | Named::Tag(_)
            | Named::Unknown,
        ) => false,
        None => false,
    }
}

/// Whether a tag stands for a structure that is refused.
fn is_refused_tag(scope: &Scope<'_>, tag: Option<&[u8]>) -> bool
    ensures { result ≡ is_refused_tag (plain_scope scope.now) (option_map (λ t. t.now) tag.entry) }
{
    match tag {
        Some(tag) => is_unknown_tag(scope.tagged(tag)),
        None => false,
    }
}

/// The tag of a structure, if it is there and has one.
fn tag_in<'s>(types: &Types<'s>, number: u32) -> Option<&'s [u8]>
    ensures { option_map (λ t. t.now) result ≡ tag_in (slice_get (plain_types types.now) number) }
{
    match types.structure(number) {
        Some(structure) => structure.tag,
        None => None,
    }
}

/// Whether a type is a structure that is refused: that was told where it is declared.
fn is_refused_structure(scope: &Scope<'_>, ty: &CType) -> bool
    ensures { result ≡ is_refused_structure (plain_scope scope.now) (plain_type ty.now) }
{
    match &ty.form {
        TypeForm::Struct(number) => is_refused_tag(scope, tag_in(&scope.types, *number)),
        TypeForm::Void | TypeForm::Int(_) | TypeForm::Pointer(_) | TypeForm::Array(_, _) => false,
    }
}

/// Whether a type has no size at the end of its root.
fn lacks_size_at_end(scope: &Scope<'_>, ty: &CType) -> bool
    ensures { result ≡ lacks_size_at_end (plain_scope scope.now) (plain_type ty.now) }
{
    !(scope.types.is_complete(ty) || is_refused_structure(scope, ty))
}

/// Notes which tentative definitions of a root have no size at its end.
pub fn note_sizes(all: &[Tentative<'_>], standing: &mut Standing<'_>)
    ensures { plain_standing standing.new ≡ sizes_noted only_first (map plain_tentative all.now) (plain_standing standing.old) }
{
    for one in all {
        let lacking = lacks_size_at_end(&standing.scope, &one.ty);
        standing.refuse_where(lacking, SubsetCode::IncompleteType, one.name.at);
    }
}

/// Puts the names of the objects of a root that no root defines after those of the roots before, with the functions at which they are in
/// scope: those from their declarations up to the number `to`.
pub fn put_outside<'s>(
    to: u32,
    undefined: &[(&'s [u8], u32)],
    outside: &mut Vec<Seen<'s>>,
) -> Result<(), AllocError>
    ensures { IfOk result (λ _. map plain_seen outside.new.items ≡ map plain_seen outside.old.items ++ outside_of to (plain_undefined undefined.now)) }
{
    for one in undefined {
        outside.push(Seen {
            name: one.0,
            visible: Extent { from: one.1, to },
        })?;
    }
    Ok(())
}

/// The functions of a root at which each of its objects is in scope: those from its first declaration up to the number `to`.
pub fn extents_of(
    alloc: Global,
    to: u32,
    sightings: &[Sighting],
) -> Result<Vec<(u32, Extent)>, AllocError>
    ensures { IfOk result (λ extents. extents.items ≡ extents_of to sightings.now) }
{
    let mut extents = Vec::new(alloc);
    for sighting in sightings {
        let extent = Extent {
            from: sighting.from,
            to,
        };
        extents.push((sighting.number, extent))?;
    }
    Ok(extents)
}
