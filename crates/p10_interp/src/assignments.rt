//! The operations that read and write what places stand for (C99 6.3.2.1, 6.5.16).

ghost use Rattle.std.specs.Prelude.{◌≡◌, ◌∷◌, List};
ghost use Rattle.p10_core.specs.Types.{plain_type};
ghost use Rattle.p10_core.specs.Typed.{PlainProgram};
ghost use Rattle.p10_interp.specs.private.Tasks.{Open, read_at, write_at, read_old, write_new};
ghost use Rattle.p10_interp.specs.private.Operations.{done_by};
ghost use Rattle.p10_interp.specs.private.OpenCalls.{calls_in};
ghost use Rattle.p10_interp.specs.private.Views.{Answers, left_with, tasks_in};
ghost use Rattle.p10_interp.specs.private.Machines.{Around, state_of};

use crate::accesses::{read_target, write_target};
use crate::operators::apply_binary;
use crate::outside::Outside;
use crate::scalars::convert_to;
use crate::stacks::Stacks;
use crate::work::{Halt, Operand};
use p10_base::Span;
use p10_core::CType;
use p10_int::BinOp;

/// The scalar in the place on top is read.
pub fn read(
    span: Span,
    t: &CType,
    stacks: &mut Stacks<'_>,
    outside: &mut Outside,
) -> Result<(), Halt>
    ensures done { (p : PlainProgram) (io : Around) (f : Open) (calls : List Open) → calls_in stacks.old.calls ≡ f ∷ calls → Answers (done_by p (read_at span (plain_type t.now)) stacks.old.operands (f ∷ calls) (state_of outside.old io)) result (left_with stacks.new.operands (calls_in stacks.new.calls)) (state_of outside.new io) }
    ensures tasks { tasks_in stacks.new.tasks ≡ tasks_in stacks.old.tasks }
{
    let Some(target) = stacks.operands.pop_target() else {
        return Err(Halt::Spent);
    };
    let x = read_target(span, t, target, &stacks.calls, outside)?;
    stacks.operands.push(Operand::Evaluated(Some(x)))
}

/// The value on top is written at the place below it.
pub fn write(span: Span, stacks: &mut Stacks<'_>, outside: &mut Outside) -> Result<(), Halt>
    ensures done { (p : PlainProgram) (io : Around) (f : Open) (calls : List Open) → calls_in stacks.old.calls ≡ f ∷ calls → Answers (done_by p (write_at span) stacks.old.operands (f ∷ calls) (state_of outside.old io)) result (left_with stacks.new.operands (calls_in stacks.new.calls)) (state_of outside.new io) }
    ensures tasks { tasks_in stacks.new.tasks ≡ tasks_in stacks.old.tasks }
{
    let Some(x) = stacks.operands.pop_value() else {
        return Err(Halt::Spent);
    };
    let Some(target) = stacks.operands.pop_target() else {
        return Err(Halt::Spent);
    };
    write_target(span, target, x, &mut stacks.calls, outside)
}

/// An update reads its place, which stays below what was read: a step (C99 6.5.16.2).
pub fn read_old(
    span: Span,
    t: &CType,
    converted: &CType,
    stacks: &mut Stacks<'_>,
    outside: &mut Outside,
) -> Result<(), Halt>
    ensures done { (p : PlainProgram) (io : Around) (f : Open) (calls : List Open) → calls_in stacks.old.calls ≡ f ∷ calls → Answers (done_by p (read_old span (plain_type t.now) (plain_type converted.now)) stacks.old.operands (f ∷ calls) (state_of outside.old io)) result (left_with stacks.new.operands (calls_in stacks.new.calls)) (state_of outside.new io) }
    ensures tasks { tasks_in stacks.new.tasks ≡ tasks_in stacks.old.tasks }
{
    if outside.left == 0 {
        return Err(Halt::Spent);
    }
    outside.left -= 1;
    let Some(target) = stacks.operands.pop_target() else {
        return Err(Halt::Spent);
    };
    let x = read_target(span, t, target, &stacks.calls, outside)?;
    let old = convert_to(converted, x)?;
    stacks.operands.push(Operand::Located(target))?;
    stacks.operands.push(Operand::Evaluated(Some(old)))
}

/// An operator with its type and the span of its tree.
#[derive(Clone, Copy)]
pub struct Applied<'p> {
    pub op: BinOp,
    pub t: &'p CType,
    pub span: Span,
}

/// An update applies its operator to what was read and to the value on top, and writes its place: a step.
pub fn write_new(
    applied: Applied<'_>,
    span: Span,
    t: &CType,
    stacks: &mut Stacks<'_>,
    outside: &mut Outside,
) -> Result<(), Halt>
    ensures done { (p : PlainProgram) (io : Around) (f : Open) (calls : List Open) → calls_in stacks.old.calls ≡ f ∷ calls → Answers (done_by p (write_new applied.entry.op applied.entry.span (plain_type applied.entry.t.now) span (plain_type t.now)) stacks.old.operands (f ∷ calls) (state_of outside.old io)) result (left_with stacks.new.operands (calls_in stacks.new.calls)) (state_of outside.new io) }
    ensures tasks { tasks_in stacks.new.tasks ≡ tasks_in stacks.old.tasks }
{
    if outside.left == 0 {
        return Err(Halt::Spent);
    }
    outside.left -= 1;
    let Some(y) = stacks.operands.pop_value() else {
        return Err(Halt::Spent);
    };
    let Some(x) = stacks.operands.pop_value() else {
        return Err(Halt::Spent);
    };
    let Some(target) = stacks.operands.pop_target() else {
        return Err(Halt::Spent);
    };
    let value = apply_binary(applied.op, applied.t, &outside.store, x, y, applied.span)?;
    let value = convert_to(t, value)?;
    write_target(span, target, value, &mut stacks.calls, outside)
}
