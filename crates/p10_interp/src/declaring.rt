//! The act for declarations (C99 6.7.8).

ghost use Rattle.std.specs.Prelude.{◌≡◌, ◌∷◌, List, slice_get};
ghost use Rattle.p10_core.specs.Types.{plain_type};
ghost use Rattle.p10_core.specs.Views.{plain_program, plain_types, plain_initializer, plain_variable};
ghost use Rattle.p10_core.specs.WholePrograms.{AreWholeStructures};
ghost use Rattle.p10_meaning.specs.States.{State, step};
ghost use Rattle.p10_meaning.specs.Statements.{normal};
ghost use Rattle.p10_interp.specs.private.Tasks.{Open};
ghost use Rattle.p10_interp.specs.private.Views.{Answers, target_of, tasks_in};
ghost use Rattle.p10_interp.specs.private.OpenCalls.{calls_in};
ghost use Rattle.p10_interp.specs.private.Machines.{Around, state_of, rig_of};
ghost use Rattle.p10_interp.specs.private.Acts.{declared_by, initialized};
ghost use Rattle.p10_interp.specs.private.Declaring.{Declares, OpensObject};

use crate::calls::Calls;
use crate::held::Held;
use crate::outside::Outside;
use crate::places::single;
use crate::stacks::Stacks;
use crate::widths::width_of;
use crate::work::{Halt, Operand, Operation, Target, ValueStep, Work};
use p10_base::Span;
use p10_core::{CType, Initializer, Program, Variable};
use p10_meaning::Cell;
use p10_store::{Origin, Shape};

/// A declaration makes its variable unset, and then initialises it.
pub fn begin_declare<'p>(
    p: &'p Program<'p>,
    span: Span,
    number: u32,
    initializer: &'p Initializer,
    stacks: &mut Stacks<'p>,
    outside: &mut Outside,
) -> Result<(), Halt>
    requires structures { AreWholeStructures (plain_types p.now.types) }
    ensures { (io : Around) (f : Open) (calls : List Open) → calls_in stacks.old.calls ≡ f ∷ calls → Answers (step (state_of outside.old io) (λ w. declared_by (plain_program p.now) span number (slice_get f.function.variables number) (plain_initializer initializer.now) (tasks_in stacks.old.tasks) stacks.old.operands f calls w)) result (rig_of normal stacks.new) (state_of outside.new io) }
{
    if outside.left == 0 {
        return Err(Halt::Spent);
    }
    outside.left -= 1;
    declare(p, span, number, initializer, stacks, outside)
}

/// Makes a variable unset, and goes on with its initialiser.
fn declare<'p>(
    p: &'p Program<'p>,
    span: Span,
    number: u32,
    initializer: &'p Initializer,
    stacks: &mut Stacks<'p>,
    outside: &mut Outside,
) -> Result<(), Halt>
    requires structures { AreWholeStructures (plain_types p.now.types) }
    ensures { (io : Around) (f : Open) (calls : List Open) → calls_in stacks.old.calls ≡ f ∷ calls → Answers (declared_by (plain_program p.now) span number (slice_get f.function.variables number) (plain_initializer initializer.now) (tasks_in stacks.old.tasks) stacks.old.operands f calls (state_of outside.old io)) result (rig_of normal stacks.new) (state_of outside.new io) }
{
    match stacks.calls.variable(number) {
        Some(variable) => {
            let target = open_variable(p, number, variable, &mut stacks.calls, outside)?;
            initialize(span, &variable.ty, target, initializer, stacks)
        }
        None => Ok(()),
    }
}

/// Makes a variable unset: a frame variable holds nothing, and any other is a new object (C99 6.2.4p6).
fn open_variable<'p>(
    p: &'p Program<'p>,
    number: u32,
    variable: &'p Variable<'p>,
    calls: &mut Calls<'p>,
    outside: &mut Outside,
) -> Result<Target, Halt>
    requires structures { AreWholeStructures (plain_types p.now.types) }
    ensures { (io : Around) (f : Open) (around : List Open) → calls_in calls.old ≡ f ∷ around → Declares (plain_program p.now) number (plain_variable variable.now) f around (state_of outside.old io) result (calls_in calls.new) (state_of outside.new io) }
{
    if variable.frame {
        calls.set_held(number, Held::Holds(Cell { value: None }));
        return Ok(Target::Variable(number));
    }
    let object = outside.store.opened();
    let scalars = open_object(p, &variable.ty, outside)?;
    calls.stand(number, object)?;
    Ok(Target::Element(single(object, scalars)))
}

/// Opens an object of a type, whose scalars are unset, and gives their number.
fn open_object(p: &Program<'_>, t: &CType, outside: &mut Outside) -> Result<u64, Halt>
    requires structures { AreWholeStructures (plain_types p.now.types) }
    ensures { (io : Around) → OpensObject (plain_program p.now) (plain_type t.now) (state_of outside.old io) result (state_of outside.new io) }
{
    let Some(scalars) = width_of(&p.types, t) else {
        return Err(Halt::Memory);
    };
    if outside.store.opened() == u128::MAX {
        return Err(Halt::Memory);
    }
    let shape = Shape { scalars };
    match outside.store.open(&shape, 1, Origin::Declared) {
        Ok(_) => Ok(scalars),
        Err(_) => Err(Halt::Memory),
    }
}

/// Begins to initialise the variable that is a place.
fn initialize<'p>(
    span: Span,
    t: &'p CType,
    target: Target,
    initializer: &'p Initializer,
    stacks: &mut Stacks<'p>,
) -> Result<(), Halt>
    ensures { (f : Open) (calls : List Open) (w : State) → calls_in stacks.old.calls ≡ f ∷ calls → Answers (initialized span (plain_type t.now) (target_of target) (plain_initializer initializer.now) (tasks_in stacks.old.tasks) stacks.old.operands f calls w) result (rig_of normal stacks.new) w }
{
    match initializer {
        Initializer::Absent => Ok(()),
        Initializer::Single(value) => {
            stacks.operands.push(Operand::Located(target))?;
            stacks.tasks.push(Work::Operate(Operation::WriteAt(span)))?;
            stacks.tasks.push(Work::Value(ValueStep::Evaluate, value))
        }
        Initializer::Copied(place) => {
            stacks.operands.push(Operand::Located(target))?;
            stacks.tasks.push(Work::CopyInto(span, t, place))
        }
        Initializer::Listed(_, items) => {
            let fill = Operation::FillFrom(span, t, items.as_slice());
            stacks.operands.push(Operand::Located(target))?;
            stacks.tasks.push(Work::Operate(fill))?;
            stacks.tasks.push(Work::EvaluateItems(items.as_slice()))
        }
    }
}
