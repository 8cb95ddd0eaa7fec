//! Calls of functions (C99 6.5.2.2).

ghost use Rattle.std.specs.Prelude.{◌≡◌, ◌∷◌, ◌+◌, ◌++◌, ◌-◌, [], List, Ok, OnOk, IfOk, IfErr, IfSome, sum, map, option_map, slice_get};
ghost use Rattle.p10_core.specs.Views.{plain_program, plain_types, plain_function, plain_variable};
ghost use Rattle.p10_core.specs.WholePrograms.{numbers_from};
ghost use Rattle.p10_meaning.specs.States.{step};
ghost use Rattle.p10_meaning.specs.Pointers.{holding, first_of};
ghost use Rattle.p10_meaning.specs.Objects.{write_at};
ghost use Rattle.p10_meaning.specs.Statements.{normal};
ghost use Rattle.p10_meaning.specs.Calling.{deeper, raised, entered};
ghost use Rattle.p10_interp.specs.private.Tasks.{Open, call_function};
ghost use Rattle.p10_interp.specs.private.Views.{Answers, tasks_in};
ghost use Rattle.p10_interp.specs.private.Standing.{held_of};
ghost use Rattle.p10_interp.specs.private.OpenCalls.{calls_in, calls_deep, owning_all};
ghost use Rattle.p10_interp.specs.private.Machines.{Around, state_of, rig_of};
ghost use Rattle.p10_interp.specs.private.Acts.{act, entered_by, entered_if};
ghost use Rattle.p10_interp.specs.private.Entering.{OpensArgument, HoldsNext, IsHolding, IsEntered};

use crate::arguments::take_arguments;
use crate::base::Depth;
use crate::calls::Calls;
use crate::held::Held;
use crate::outside::Outside;
use crate::places::single;
use crate::queue::Queue;
use crate::stacks::Stacks;
use crate::work::{Halt, Operand, Work};
use p10_core::{Func, Program, Variable};
use p10_meaning::{Cell, Scalar};
use p10_store::{Origin, Shape, Store};

/// Calls a function on the values on top. The step of entry comes after them.
pub fn call_function<'p>(
    p: &'p Program<'p>,
    function: u32,
    count: usize,
    stacks: &mut Stacks<'p>,
    outside: &mut Outside,
) -> Result<(), Halt>
    ensures { (io : Around) → Answers (act (plain_program p.now) (call_function function count) (tasks_in stacks.old.tasks) stacks.old.operands (calls_in stacks.old.calls) (state_of outside.old io)) result (rig_of normal stacks.new) (state_of outside.new io) }
{
    take_arguments(count, &mut stacks.operands, &mut stacks.arguments)?;
    pay_and_enter(p, function, stacks, outside)
}

/// Takes a step, and enters a function on its arguments.
fn pay_and_enter<'p>(
    p: &'p Program<'p>,
    function: u32,
    stacks: &mut Stacks<'p>,
    outside: &mut Outside,
) -> Result<(), Halt>
    ensures { (io : Around) → Answers (step (state_of outside.old io) (λ w. entered_if (slice_get (plain_program p.now).functions function) stacks.old.arguments (tasks_in stacks.old.tasks) stacks.old.operands (calls_in stacks.old.calls) w)) result (rig_of normal stacks.new) (state_of outside.new io) }
{
    if outside.left == 0 {
        return Err(Halt::Spent);
    }
    outside.left -= 1;
    match function_at(p.functions.as_slice(), function) {
        Some(called) => enter(called, stacks, outside),
        None => stacks.operands.push(Operand::Evaluated(None)),
    }
}

/// The function with a number.
pub fn function_at<'p>(functions: &'p [Func<'p>], number: u32) -> Option<&'p Func<'p>>
    ensures { option_map (λ f. plain_function f.now) result ≡ slice_get (map plain_function functions.now) number }
{
    functions.get(number as usize)
}

/// Enters a function on its arguments: its body is to be executed.
fn enter<'p>(
    function: &'p Func<'p>,
    stacks: &mut Stacks<'p>,
    outside: &mut Outside,
) -> Result<(), Halt>
    ensures { (io : Around) → Answers (entered_by (plain_function function.now) stacks.old.arguments (tasks_in stacks.old.tasks) stacks.old.operands (calls_in stacks.old.calls) (state_of outside.old io)) result (rig_of normal stacks.new) (state_of outside.new io) }
{
    open_frame(function, &mut stacks.arguments, &mut stacks.calls, outside)?;
    stacks.tasks.push(Work::EndCall)?;
    stacks
        .tasks
        .push(Work::ExecuteStatements(function.body.as_slice()))
}

/// The new frame of a call, with the greatest depths raised.
pub fn open_frame<'p>(
    function: &'p Func<'p>,
    arguments: &mut Queue<Scalar>,
    calls: &mut Calls<'p>,
    outside: &mut Outside,
) -> Result<(), Halt>
    ensures ok { OnOk result ((io : Around) → IsEntered (plain_function function.now) arguments.old (calls_in calls.old) (state_of outside.old io) (calls_in calls.new) (state_of outside.new io)) }
    ensures err { IfErr result (λ e. e ≡ Halt.Memory) }
{
    let Some(depth) = deeper(function, calls.depth()) else {
        return Err(Halt::Memory);
    };
    raise(depth, outside);
    calls.open(function, depth)?;
    let first = outside.store.opened();
    hold_variables(function.vars.as_slice(), arguments, calls, outside)?;
    own_between(first, outside.store.opened(), calls)
}

/// The depth with one more call of a function, whose frame has the bytes of all its variables.
pub fn deeper(function: &Func<'_>, depth: Depth) -> Option<Depth>
    ensures { IfSome result (λ d. calls_deep d ≡ deeper (plain_function function.now) (calls_deep depth)) }
{
    let calls = depth.calls.checked_add(1)?;
    let bytes = bytes_with(function.vars.as_slice(), depth.bytes)?;
    Some(Depth { calls, bytes })
}

/// The bytes of variables, after those before them.
fn bytes_with(variables: &[Variable<'_>], before: u128) -> Option<u128>
    ensures { IfSome result (λ all. all ≡ before + sum (map (λ v. v.bytes) (map plain_variable variables.now))) }
{
    let mut all = before;
    for variable in variables {
        all = all.checked_add(variable.bytes as u128)?;
    }
    Some(all)
}

/// The greatest depths rise to a depth.
pub fn raise(depth: Depth, outside: &mut Outside)
    ensures { (io : Around) → state_of outside.new io ≡ raised (calls_deep depth) (state_of outside.old io) }
{
    outside.calls = outside.calls.max(depth.calls);
    outside.bytes = outside.bytes.max(depth.bytes);
}

/// Each variable of the innermost call stands for its argument, and nothing yet for one that has none (C99 6.5.2.2p4).
fn hold_variables<'p>(
    variables: &'p [Variable<'p>],
    arguments: &mut Queue<Scalar>,
    calls: &mut Calls<'p>,
    outside: &mut Outside,
) -> Result<(), Halt>
    ensures ok { OnOk result ((io : Around) (f : Open) (around : List Open) → calls_in calls.old ≡ f ∷ around → IsHolding (entered (map plain_variable variables.now) arguments.old (state_of outside.old io)) (entered [] arguments.new (state_of outside.new io)) f around (calls_in calls.new)) }
    ensures err { IfErr result (λ e. e ≡ Halt.Memory) }
{
    for variable in variables {
        let held = next_held(variable.frame, arguments, outside)?;
        calls.hold(held)?;
    }
    Ok(())
}

/// What stands for the next variable: its argument, in its cell or in a new object; nothing where there is none.
fn next_held(
    frame: bool,
    arguments: &mut Queue<Scalar>,
    outside: &mut Outside,
) -> Result<Held, Halt>
    ensures ok { IfOk result (λ held. (io : Around) → HoldsNext frame arguments.old (state_of outside.old io) (held_of held) arguments.new (state_of outside.new io)) }
    ensures err { IfErr result (λ e. e ≡ Halt.Memory) }
{
    let Some(x) = arguments.next() else {
        return Ok(Held::Absent);
    };
    if frame {
        return Ok(Held::Holds(Cell { value: Some(x) }));
    }
    let object = open_argument(x, outside)?;
    Ok(Held::Stands(object))
}

/// A new object that holds an argument.
fn open_argument(x: Scalar, outside: &mut Outside) -> Result<u128, Halt>
    ensures ok { IfOk result (λ object. (io : Around) → OpensArgument x (state_of outside.old io) object (state_of outside.new io)) }
    ensures err { IfErr result (λ e. e ≡ Halt.Memory) }
{
    let object = outside.store.opened();
    outside.store.next_is_new();
    if object == u128::MAX {
        return Err(Halt::Memory);
    }
    match outside
        .store
        .open(&Shape { scalars: 1 }, 1, Origin::Declared)
    {
        Ok(_) => {
            write_argument(object, x, &mut outside.store)?;
            Ok(object)
        }
        Err(_) => Err(Halt::Memory),
    }
}

/// An argument is written to the object that was opened for it.
fn write_argument(object: u128, x: Scalar, store: &mut Store) -> Result<(), Halt>
    ensures ok { OnOk result ((write_at store.old.objects (first_of object 1 1) (holding x) ≡ Ok store.new.objects) × (store.new.opened ≡ store.old.opened)) }
    ensures err { IfErr result (λ e. e ≡ Halt.Memory) }
{
    let cell = Cell { value: Some(x) };
    match store.place_mut(single(object, 1)) {
        Ok(place) => {
            *place = cell;
            Ok(())
        }
        Err(_) => Err(Halt::Memory),
    }
}

/// The innermost block has opened the objects from a number on, up to but not including another.
fn own_between(first: u128, end: u128, calls: &mut Calls<'_>) -> Result<(), Halt>
    ensures ok { OnOk result ((f : Open) (around : List Open) → calls_in calls.old ≡ f ∷ around → calls_in calls.new ≡ owning_all f (numbers_from first (end - first) ++ f.frame.opened) ∷ around) }
    ensures err { IfErr result (λ e. e ≡ Halt.Memory) }
{
    let mut object = end;
    while first < object {
        object -= 1;
        calls.own(object)?;
    }
    Ok(())
}
