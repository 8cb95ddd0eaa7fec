//! The list of an initialiser fills an object (C99 6.7.8).

ghost use Rattle.std.specs.Prelude.{◌≡◌, ◌∷◌, suc, List, length, map, drop, slice_get};
ghost use Rattle.p10_core.specs.Types.{plain_type, bare};
ghost use Rattle.p10_core.specs.Sizes.{scalars_of};
ghost use Rattle.p10_core.specs.Views.{plain_program, plain_types, plain_item};
ghost use Rattle.p10_core.specs.WholePrograms.{AreWholeStructures};
ghost use Rattle.p10_meaning.specs.Statements.{Frame, normal, fill};
ghost use Rattle.p10_interp.specs.private.Tasks.{Open, fill_from};
ghost use Rattle.p10_interp.specs.private.Operations.{done_by, scalars_of_items};
ghost use Rattle.p10_interp.specs.private.OpenCalls.{calls_in};
ghost use Rattle.p10_interp.specs.private.Views.{Answers, left_with, tasks_in};
ghost use Rattle.p10_interp.specs.private.Machines.{Around, state_of};
ghost use Rattle.p10_interp.specs.private.Writing.{Continues};
ghost use Rattle.p10_interp.specs.private.Listing.{IsAhead, IsListedFrom};

use crate::arguments::take_arguments;
use crate::copying::write_part;
use crate::kinds::kind_at;
use crate::listed::{Listed, count_of_items, list, passed, scalar_for};
use crate::operations::pointer_to;
use crate::outside::Outside;
use crate::stacks::Stacks;
use crate::widths::width_of;
use crate::work::Halt;
use p10_base::Span;
use p10_core::{CType, Item, Program, Types};
use p10_meaning::{Cell, Ptr};

/// The scalars of the object below the values of a list are written: what the list gives, and 0 or null for all others.
pub fn fill(
    p: &Program<'_>,
    span: Span,
    t: &CType,
    items: &[Item],
    stacks: &mut Stacks<'_>,
    outside: &mut Outside,
) -> Result<(), Halt>
    requires structures { AreWholeStructures (plain_types p.now.types) }
    ensures done { (io : Around) (f : Open) (calls : List Open) → calls_in stacks.old.calls ≡ f ∷ calls → Answers (done_by (plain_program p.now) (fill_from span (plain_type t.now) (map plain_item items.now)) stacks.old.operands (f ∷ calls) (state_of outside.old io)) result (left_with stacks.new.operands (calls_in stacks.new.calls)) (state_of outside.new io) }
    ensures tasks { tasks_in stacks.new.tasks ≡ tasks_in stacks.old.tasks }
{
    let count = count_of_items(items);
    take_arguments(count, &mut stacks.operands, &mut stacks.arguments)?;
    let Some(target) = stacks.operands.pop_target() else {
        return Err(Halt::Spent);
    };
    let Some(scalars) = width_of(&p.types, t) else {
        return Err(Halt::Memory);
    };
    let place = (span, pointer_to(target));
    let listed = list(items, &stacks.arguments);
    fill_scalars(&p.types, t, listed, place, scalars, outside)
}

/// All scalars of an object of a type, `count` in number, are written, from the first on.
fn fill_scalars(
    types: &Types<'_>,
    t: &CType,
    listed: Listed<'_>,
    place: (Span, Ptr),
    count: u64,
    outside: &mut Outside,
) -> Result<(), Halt>
    requires structures { AreWholeStructures (plain_types types.now) }
    requires list { IsListedFrom 0 (map plain_item listed.items.now) listed.values.now listed.ordered listed.place listed.used }
    requires width { count ≡ length (scalars_of (plain_types types.now) (bare (plain_types types.now) (plain_type t.now))) }
    ensures { (io : Around) (frame : Frame) → Answers (fill place.0 (scalars_of_items (map plain_item listed.entry.items.now) listed.entry.values.now) (scalars_of (plain_types types.now) (bare (plain_types types.now) (plain_type t.now))) 0 place.1 frame (state_of outside.old io)) result (record { flow = normal; frame = frame }) (state_of outside.new io) }
{
    let mut listed = listed;
    for i in 0..count {
        listed = passed(listed, i);
        fill_scalar(types, t, listed, place, i, outside)?;
    }
    Ok(())
}

/// A scalar of an object of a type is written, with a step.
fn fill_scalar(
    types: &Types<'_>,
    t: &CType,
    listed: Listed<'_>,
    place: (Span, Ptr),
    i: u64,
    outside: &mut Outside,
) -> Result<(), Halt>
    requires structures { AreWholeStructures (plain_types types.now) }
    requires list { IsListedFrom i (map plain_item listed.items.now) listed.values.now listed.ordered listed.place listed.used }
    requires ahead { IsAhead i (slice_get (map plain_item listed.items.now) listed.place) }
    ensures { (io : Around) (frame : Frame) → Continues (fill place.0 (scalars_of_items (map plain_item listed.entry.items.now) listed.entry.values.now) (drop i (scalars_of (plain_types types.now) (bare (plain_types types.now) (plain_type t.now)))) i place.1 frame (state_of outside.old io)) (fill place.0 (scalars_of_items (map plain_item listed.entry.items.now) listed.entry.values.now) (drop (suc i) (scalars_of (plain_types types.now) (bare (plain_types types.now) (plain_type t.now)))) (suc i) place.1 frame (state_of outside.new io)) result (state_of outside.new io) }
{
    let (span, to) = place;
    let Some(kind) = kind_at(types, t, i) else {
        return Err(Halt::Memory);
    };
    if outside.left == 0 {
        return Err(Halt::Spent);
    }
    outside.left -= 1;
    let x = scalar_for(listed, kind, i)?;
    let cell = Cell { value: Some(x) };
    write_part(&mut outside.store, to, i, cell, span)
}
