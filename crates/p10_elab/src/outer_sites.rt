//! Which declaration of an object outside of functions is the one that defines it (C99 6.9.2).

ghost use Rattle.std.specs.Prelude.{◌≡◌, ◌&&◌, not, nat_eq, IfOk, map, option_map, slice_get};
ghost use Rattle.p10_heads.specs.HeadViews.{plain_head};
ghost use Rattle.p10_heads.specs.PlainHeads.{plain_heads};
ghost use Rattle.p10_elab.specs.Outer.{is_defined_at};
ghost use Rattle.p10_elab.specs.OuterViews.{plain_outer_object};
ghost use Rattle.p10_elab.specs.private.Defining.{defined_after, is_there};

use crate::outer_object::OuterObject;
use p10_heads::{Head, Heads};
use std::alloc::AllocError;

/// Puts an object after those that are defined, if there is one and it is defined where its name stands.
pub(crate) fn define_object<'s>(
    heads: &Heads<'s>,
    objects: &mut Vec<OuterObject<'s>>,
    object: Option<OuterObject<'s>>,
) -> Result<(), AllocError>
    ensures { IfOk result (λ _. map plain_outer_object objects.new.items ≡ defined_after (plain_heads heads.now) (option_map plain_outer_object object.entry) (map plain_outer_object objects.old.items)) }
{
    match object {
        None => Ok(()),
        Some(object) => {
            if is_site(heads, object.number, object.name.at.first) {
                objects.push(object)?;
                Ok(())
            } else {
                Ok(())
            }
        }
    }
}

/// Whether an object outside of functions is defined at a word. The one with a number is looked at first.
fn is_site(heads: &Heads<'_>, number: u32, first: u32) -> bool
    ensures { result ≡ is_defined_at first (plain_heads heads.now).objects }
{
    let objects = heads.objects();
    if has_at(objects, number as usize, first) {
        true
    } else {
        is_among(objects, first)
    }
}

/// Whether there is an object in a place that stands outside of functions, at a word.
fn has_at(objects: &[Head<'_>], place: usize, first: u32) -> bool
    ensures { result ≡ is_there first (slice_get (map plain_head objects.now) place) }
{
    match objects.get(place) {
        Some(head) => stands_at(head, first),
        None => false,
    }
}

/// Whether an object outside of functions is defined at a word.
fn is_among(objects: &[Head<'_>], first: u32) -> bool
    ensures { result ≡ is_defined_at first (map plain_head objects.now) }
{
    for head in objects {
        if stands_at(head, first) {
            return true;
        }
    }
    false
}

/// Whether an object stands outside of functions, at a word.
fn stands_at(head: &Head<'_>, first: u32) -> bool
    ensures { result ≡ (nat_eq (plain_head head.now).at.first first && not (plain_head head.now).in_block) }
{
    head.at.first == first && !head.in_block
}
