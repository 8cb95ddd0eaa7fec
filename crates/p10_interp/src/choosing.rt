//! The acts for values after one of their parts, and for lists of values.

ghost use Rattle.std.specs.Prelude.{◌≡◌, ◌∷◌, List, map};
ghost use Rattle.p10_core.specs.Views.{plain_program, plain_types, plain_value, plain_values, plain_item, plain_written, plain_place};
ghost use Rattle.p10_core.specs.Types.{plain_type};
ghost use Rattle.p10_core.specs.Typed.{PlainProgram};
ghost use Rattle.p10_core.specs.WholePrograms.{AreWholeStructures};
ghost use Rattle.p10_meaning.specs.States.{State};
ghost use Rattle.p10_meaning.specs.Statements.{normal};
ghost use Rattle.p10_meaning.specs.Values.{is_decided};
ghost use Rattle.p10_interp.specs.private.Tasks.{Open, decide, choose, copy_into};
ghost use Rattle.p10_interp.specs.private.Views.{Answers, choice_of, tasks_in};
ghost use Rattle.p10_interp.specs.private.OpenCalls.{calls_in};
ghost use Rattle.p10_interp.specs.private.Machines.{Around, state_of, rig_of};
ghost use Rattle.p10_interp.specs.private.Acts.{act, begun_values, begun_items, begun_written};

use crate::outside::Outside;
use crate::scalars::{is_true, truth_value};
use crate::seek::seek;
use crate::stacks::Stacks;
use crate::values::begin_value;
use crate::work::{Halt, Operand, Operation, ValueStep, Work};
use p10_base::Span;
use p10_core::{CType, Item, LogicOp, Place, Program, Value, ValueForm, Written};

/// `&&` and `||` after their left operand (C99 6.5.13p4, 6.5.14p4).
pub fn decide<'p>(op: LogicOp, right: &'p Value, stacks: &mut Stacks<'p>) -> Result<(), Halt>
    ensures { (p : PlainProgram) (w : State) (f : Open) (calls : List Open) → calls_in stacks.old.calls ≡ f ∷ calls → Answers (act p (decide op (plain_value right.now)) (tasks_in stacks.old.tasks) stacks.old.operands (f ∷ calls) w) result (rig_of normal stacks.new) w }
{
    let Some(x) = stacks.operands.pop_value() else {
        return Err(Halt::Spent);
    };
    if is_decided(op, is_true(x)) {
        let truth = truth_value(is_true(x));
        return stacks.operands.push(Operand::Evaluated(Some(truth)));
    }
    stacks.tasks.push(Work::Operate(Operation::TakeTruth))?;
    stacks.tasks.push(Work::Value(ValueStep::Evaluate, right))
}

/// Whether `&&` or `||` is decided by its left operand.
fn is_decided(op: LogicOp, truth: bool) -> bool
    ensures { result ≡ is_decided op truth }
{
    match op {
        LogicOp::And => !truth,
        LogicOp::Or => truth,
    }
}

/// `?:` after its condition (C99 6.5.15); with any other value nothing is done.
pub fn choose<'p>(value: &'p Value, stacks: &mut Stacks<'p>) -> Result<(), Halt>
    ensures { (p : PlainProgram) (w : State) (f : Open) (calls : List Open) → calls_in stacks.old.calls ≡ f ∷ calls → Answers (act p (choice_of (plain_value value.now)) (tasks_in stacks.old.tasks) stacks.old.operands (f ∷ calls) w) result (rig_of normal stacks.new) w }
{
    match &value.form {
        ValueForm::Cond(_, first, second) => choose_of(first, second, stacks),
        _ => Ok(()),
    }
}

/// One of two values is evaluated.
fn choose_of<'p>(first: &'p Value, second: &'p Value, stacks: &mut Stacks<'p>) -> Result<(), Halt>
    ensures { (p : PlainProgram) (w : State) (f : Open) (calls : List Open) → calls_in stacks.old.calls ≡ f ∷ calls → Answers (act p (choose (plain_value first.now) (plain_value second.now)) (tasks_in stacks.old.tasks) stacks.old.operands (f ∷ calls) w) result (rig_of normal stacks.new) w }
{
    let Some(x) = stacks.operands.pop_value() else {
        return Err(Halt::Spent);
    };
    if is_true(x) {
        stacks.tasks.push(Work::Value(ValueStep::Evaluate, first))
    } else {
        stacks.tasks.push(Work::Value(ValueStep::Evaluate, second))
    }
}

/// The first of the arguments begins to be evaluated.
pub fn begin_values<'p>(
    p: &'p Program<'p>,
    values: &'p [Value],
    stacks: &mut Stacks<'p>,
    outside: &mut Outside,
) -> Result<(), Halt>
    requires structures { AreWholeStructures (plain_types p.now.types) }
    ensures { (io : Around) (f : Open) (calls : List Open) → calls_in stacks.old.calls ≡ f ∷ calls → Answers (begun_values (plain_program p.now) (plain_values values.now) (tasks_in stacks.old.tasks) stacks.old.operands f calls (state_of outside.old io)) result (rig_of normal stacks.new) (state_of outside.new io) }
{
    match values {
        [] => Ok(()),
        [first, rest @ ..] => {
            stacks.tasks.push(Work::EvaluateValues(rest))?;
            begin_value(p, first, stacks, outside)
        }
    }
}

/// The first of the values that items give begins to be evaluated (C99 6.7.8p23).
pub fn begin_items<'p>(
    p: &'p Program<'p>,
    items: &'p [Item],
    stacks: &mut Stacks<'p>,
    outside: &mut Outside,
) -> Result<(), Halt>
    requires structures { AreWholeStructures (plain_types p.now.types) }
    ensures { (io : Around) (f : Open) (calls : List Open) → calls_in stacks.old.calls ≡ f ∷ calls → Answers (begun_items (plain_program p.now) (map plain_item items.now) (tasks_in stacks.old.tasks) stacks.old.operands f calls (state_of outside.old io)) result (rig_of normal stacks.new) (state_of outside.new io) }
{
    match items {
        [] => Ok(()),
        [first, rest @ ..] => begin_written(p, &first.written, rest, stacks, outside),
    }
}

/// What is written in an item begins to be evaluated, before further items: the bytes of a text are there already.
fn begin_written<'p>(
    p: &'p Program<'p>,
    written: &'p Written,
    rest: &'p [Item],
    stacks: &mut Stacks<'p>,
    outside: &mut Outside,
) -> Result<(), Halt>
    requires structures { AreWholeStructures (plain_types p.now.types) }
    ensures { (io : Around) (f : Open) (calls : List Open) → calls_in stacks.old.calls ≡ f ∷ calls → Answers (begun_written (plain_program p.now) (plain_written written.now) (map plain_item rest.now) (tasks_in stacks.old.tasks) stacks.old.operands f calls (state_of outside.old io)) result (rig_of normal stacks.new) (state_of outside.new io) }
{
    stacks.tasks.push(Work::EvaluateItems(rest))?;
    match written {
        Written::Scalar(value) => begin_value(p, value, stacks, outside),
        Written::Text(_) => Ok(()),
    }
}

/// A structure is copied into the place on top: its source is looked for, with a step (C99 6.7.8p13).
pub fn begin_copy_into<'p>(
    p: &'p Program<'p>,
    copy: (Span, &'p CType),
    source: &'p Place,
    stacks: &mut Stacks<'p>,
    outside: &mut Outside,
) -> Result<(), Halt>
    requires structures { AreWholeStructures (plain_types p.now.types) }
    ensures { (io : Around) (f : Open) (calls : List Open) → calls_in stacks.old.calls ≡ f ∷ calls → Answers (act (plain_program p.now) (copy_into copy.entry.0 (plain_type copy.entry.1.now) (plain_place source.now)) (tasks_in stacks.old.tasks) stacks.old.operands (f ∷ calls) (state_of outside.old io)) result (rig_of normal stacks.new) (state_of outside.new io) }
{
    let (span, t) = copy;
    let Some(target) = stacks.operands.pop_target() else {
        return Err(Halt::Spent);
    };
    if outside.left == 0 {
        return Err(Halt::Spent);
    }
    outside.left -= 1;
    let copied = Operation::CopyBetween(span, source.at.span, t);
    stacks.operands.push(Operand::Located(target))?;
    stacks.tasks.push(Work::Operate(copied))?;
    seek(p, source, stacks, outside)
}
