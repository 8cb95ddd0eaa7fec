//! The copy of a structure, scalar by scalar (C99 6.5.16.1p2).

ghost use Rattle.std.specs.Prelude.{◌≡◌, ◌∷◌, ℕ, suc, List};
ghost use Rattle.p10_core.specs.Types.{plain_type};
ghost use Rattle.p10_core.specs.Views.{plain_program, plain_types};
ghost use Rattle.p10_core.specs.WholePrograms.{AreWholeStructures};
ghost use Rattle.p10_meaning.specs.Statements.{Frame, normal, copy_scalars, part_of, write_part};
ghost use Rattle.p10_interp.specs.private.Tasks.{Open, copy_between};
ghost use Rattle.p10_interp.specs.private.Operations.{done_by};
ghost use Rattle.p10_interp.specs.private.OpenCalls.{calls_in};
ghost use Rattle.p10_interp.specs.private.Views.{Answers, Finds, left_with, tasks_in};
ghost use Rattle.p10_interp.specs.private.Machines.{Around, state_of};
ghost use Rattle.p10_interp.specs.private.Writing.{Changes, Continues};

use crate::accesses::write_element;
use crate::operations::pointer_to;
use crate::outside::Outside;
use crate::stacks::Stacks;
use crate::widths::width_of;
use crate::work::Halt;
use p10_base::Span;
use p10_core::{CType, Program};
use p10_meaning::{Cell, Ptr};
use p10_store::{Shape, Store};

/// Two structures, with the spans of their places.
#[derive(Clone, Copy)]
struct Copied {
    to_span: Span,
    to: Ptr,
    from_span: Span,
    from: Ptr,
}

/// The structure in the place on top is copied to the place below it.
pub fn copy(
    p: &Program<'_>,
    to_span: Span,
    from_span: Span,
    t: &CType,
    stacks: &mut Stacks<'_>,
    outside: &mut Outside,
) -> Result<(), Halt>
    requires structures { AreWholeStructures (plain_types p.now.types) }
    ensures done { (io : Around) (f : Open) (calls : List Open) → calls_in stacks.old.calls ≡ f ∷ calls → Answers (done_by (plain_program p.now) (copy_between to_span from_span (plain_type t.now)) stacks.old.operands (f ∷ calls) (state_of outside.old io)) result (left_with stacks.new.operands (calls_in stacks.new.calls)) (state_of outside.new io) }
    ensures tasks { tasks_in stacks.new.tasks ≡ tasks_in stacks.old.tasks }
{
    let Some(source) = stacks.operands.pop_target() else {
        return Err(Halt::Spent);
    };
    let Some(target) = stacks.operands.pop_target() else {
        return Err(Halt::Spent);
    };
    let Some(scalars) = width_of(&p.types, t) else {
        return Err(Halt::Memory);
    };
    let copied = Copied {
        to_span,
        to: pointer_to(target),
        from_span,
        from: pointer_to(source),
    };
    copy_scalars(copied, scalars, outside)
}

/// The first `count` scalars are copied, in order.
fn copy_scalars(copied: Copied, count: u64, outside: &mut Outside) -> Result<(), Halt>
    ensures { (io : Around) (frame : Frame) → Answers (copy_scalars count 0 copied.to_span copied.to copied.from_span copied.from frame (state_of outside.old io)) result (record { flow = normal; frame = frame }) (state_of outside.new io) }
{
    for i in 0..count {
        copy_scalar(copied, i, outside)?;
    }
    Ok(())
}

/// A scalar is copied, with a step: an unset one as it is.
fn copy_scalar(copied: Copied, i: u64, outside: &mut Outside) -> Result<(), Halt>
    ensures { (io : Around) (frame : Frame) (n : ℕ) → Continues (copy_scalars (suc n) i copied.to_span copied.to copied.from_span copied.from frame (state_of outside.old io)) (copy_scalars n (suc i) copied.to_span copied.to copied.from_span copied.from frame (state_of outside.new io)) result (state_of outside.new io) }
{
    if outside.left == 0 {
        return Err(Halt::Spent);
    }
    outside.left -= 1;
    let cell = part_of(&outside.store, copied.from, i, copied.from_span)?;
    write_part(&mut outside.store, copied.to, i, cell, copied.to_span)
}

/// The cell of a scalar of an element: U5, U7, U6.
fn part_of(store: &Store, pointer: Ptr, i: u64, span: Span) -> Result<Cell, Halt>
    ensures { Finds (part_of store.now.objects pointer i) span result }
{
    match store.inner(pointer, i, &Shape { scalars: 1 }, 1) {
        Ok(there) => match store.place(there) {
            Ok(cell) => Ok(*cell),
            Err(stop) => Err(Halt::Undefined(stop, span)),
        },
        Err(stop) => Err(Halt::Undefined(stop, span)),
    }
}

/// The cell of a scalar of an element is written: U5, U7, U6, U12.
pub fn write_part(
    store: &mut Store,
    pointer: Ptr,
    i: u64,
    cell: Cell,
    span: Span,
) -> Result<(), Halt>
    ensures { Changes store.old store.new (write_part store.old.objects pointer i cell) span result }
{
    match store.inner(pointer, i, &Shape { scalars: 1 }, 1) {
        Ok(there) => write_element(store, there, cell, span),
        Err(stop) => Err(Halt::Undefined(stop, span)),
    }
}
