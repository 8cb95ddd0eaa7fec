//! The objects that roots define, by their numbers.

ghost use Rattle.std.specs.Prelude.{◌≡◌, ◌++◌, IfOk, map, List, ℕ};
ghost use Rattle.p10_core.specs.declared.program.Extent.{Extent};
ghost use Rattle.p10_core.specs.Views.{plain_types, plain_object};
ghost use Rattle.p10_program.specs.Numbered.{visible_from, objects_from};
ghost use Rattle.p10_elab.specs.OuterViews.{plain_outer_object};
ghost use Rattle.p10_elab.specs.Programs.{object_with, numbered_objects};

use crate::outer_object::OuterObject;
use p10_base::ListBuf;
use p10_core::{Extent, Global as StaticObject, Types};
use p10_elabs::bytes_of;
use p10_program::{extents_at, objects_by_number, visible_by_number};
use std::alloc::{AllocError, Global};

/// The objects of static lifetime with numbers below `count`, by their numbers: those of blocks and those that are defined outside
/// of functions, where the functions are known at which those are in scope.
pub(crate) fn objects_of<'s>(
    alloc: Global,
    count: usize,
    types: &Types<'s>,
    visible: &[(u32, Extent)],
    block_objects: Vec<(u32, StaticObject<'s>)>,
    objects: Vec<OuterObject<'s>>,
) -> Result<Vec<StaticObject<'s>>, AllocError>
    ensures { IfOk result (λ all. map plain_object all.items ≡ objects_from 0 count (map (λ b. (b.0, plain_object b.1)) block_objects.entry.items ++ numbered_objects (plain_types types.now) visible.now (map plain_outer_object objects.entry.items))) }
{
    let groups = visible_by_number(alloc, count, visible)?;
    let outer = numbered_objects(alloc, types, groups.as_slice(), objects)?;
    objects_by_number(alloc, count, block_objects, outer)
}

/// The objects that are defined outside of functions, with their numbers; `groups` has the functions at which each is in scope.
fn numbered_objects<'s>(
    alloc: Global,
    types: &Types<'s>,
    groups: &[ListBuf<Extent>],
    objects: Vec<OuterObject<'s>>,
) -> Result<Vec<(u32, StaticObject<'s>)>, AllocError>
    ensures { IfOk result (λ all. (count : ℕ) (visible : List (ℕ × Extent)) → groups.now ≡ visible_from 0 count visible → map (λ b. (b.0, plain_object b.1)) all.items ≡ numbered_objects (plain_types types.now) visible (map plain_outer_object objects.entry.items)) }
{
    let mut all = Vec::new(alloc);
    let mut rest = objects.into_iter();
    while let Some(object) = rest.next() {
        let number = object.number;
        let visible = extents_at(alloc, groups, number)?;
        let whole = object_with(types, visible, object)?;
        all.push((number, whole))?;
    }
    Ok(all)
}

/// An object that is defined outside of functions. One whose size isn't known, or is more than a type may have, is answered as out of memory.
fn object_with<'s>(
    types: &Types<'s>,
    visible: ListBuf<Extent>,
    object: OuterObject<'s>,
) -> Result<StaticObject<'s>, AllocError>
    ensures { IfOk result (λ o. plain_object o ≡ object_with (plain_types types.now) visible (plain_outer_object object.entry)) }
{
    let bytes = bytes_of(types, &object.ty)?;
    Ok(StaticObject {
        name: object.name.text,
        ty: object.ty,
        bytes,
        span: object.name.at.span,
        init: object.initializer,
        owner: None,
        sensor: object.sensor,
        visible,
    })
}
