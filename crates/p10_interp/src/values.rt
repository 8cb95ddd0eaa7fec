//! The acts for values and places.

ghost use Rattle.std.specs.Prelude.{◌≡◌, ◌∷◌, List, Some, OnOk, IfErr};
ghost use Rattle.p10_core.specs.Typed.{PlainProgram};
ghost use Rattle.p10_meaning.specs.States.{step, and_then};
ghost use Rattle.p10_meaning.specs.Values.{sensed};
ghost use Rattle.p10_meaning.specs.declared.pointers.Scalar.TheVariants.{Int};
ghost use Rattle.p10_core.specs.Types.{plain_type};
ghost use Rattle.p10_core.specs.Views.{plain_program, plain_types, plain_value, plain_values, plain_form, plain_place};
ghost use Rattle.p10_core.specs.WholePrograms.{AreWholeStructures};
ghost use Rattle.p10_meaning.specs.Statements.{normal};
ghost use Rattle.p10_interp.specs.private.Tasks.{Open, Task, operate, evaluated, evaluate_values, call_function, call_library, decay_at};
ghost use Rattle.p10_interp.specs.private.Operations.{count_of};
ghost use Rattle.p10_interp.specs.private.Views.{Answers, Gives, operation_of, tasks_in};
ghost use Rattle.p10_interp.specs.private.OpenCalls.{calls_in};
ghost use Rattle.p10_interp.specs.private.Machines.{Around, state_of, rig_of};
ghost use Rattle.p10_interp.specs.private.Acts.{begun, begun_form, begun_unused, may_give_none, use_after, reading, casting, sought, goes_on};

use crate::outside::Outside;
use crate::scalars::convert_to;
use crate::seek::seek;
use crate::stacks::Stacks;
use crate::steps::{go_on_with_three, go_on_with_two};
use crate::tasks::{Operands, Tasks};
use crate::work::{Halt, Operand, Operation, ValueStep, Work};
use p10_base::Span;
use p10_core::{CType, Library, Place, Program, TypeForm, Value, ValueForm};
use p10_meaning::Scalar;

/// Whether a value may be none (C99 6.9.1p12).
fn may_give_none(value: &Value) -> bool
    ensures { result ≡ may_give_none (plain_type value.now.ty) (plain_form value.now.form) }
{
    match &value.form {
        ValueForm::Read(_) => matches!(&value.ty.form, TypeForm::Struct(_)),
        ValueForm::Cast(_) => matches!(&value.ty.form, TypeForm::Void),
        ValueForm::Call(_, _, _) | ValueForm::Builtin(_, _, _) => true,
        _ => false,
    }
}

/// A value that may be none is looked at before it is used.
fn push_use<'p>(value: &'p Value, tasks: &mut Tasks<'p>) -> Result<(), Halt>
    ensures ok { OnOk result (tasks_in tasks.new ≡ use_after value.now.at (plain_type value.now.ty) (plain_form value.now.form) (tasks_in tasks.old)) }
    ensures err { IfErr result (λ e. e ≡ Halt.Memory) }
{
    if may_give_none(value) {
        tasks.push(Work::Operate(Operation::UseValue(value.at.span)))
    } else {
        Ok(())
    }
}

/// Begins to evaluate a value that is used.
pub fn begin_value<'p>(
    p: &'p Program<'p>,
    value: &'p Value,
    stacks: &mut Stacks<'p>,
    outside: &mut Outside,
) -> Result<(), Halt>
    requires structures { AreWholeStructures (plain_types p.now.types) }
    ensures { (io : Around) (f : Open) (calls : List Open) → calls_in stacks.old.calls ≡ f ∷ calls → Answers (begun (plain_program p.now) (plain_value value.now) (tasks_in stacks.old.tasks) stacks.old.operands f calls (state_of outside.old io)) result (rig_of normal stacks.new) (state_of outside.new io) }
{
    push_use(value, &mut stacks.tasks)?;
    begin_form(p, value, stacks, outside)
}

/// Begins to evaluate a value that isn't used.
pub fn begin_unused<'p>(
    p: &'p Program<'p>,
    value: &'p Value,
    stacks: &mut Stacks<'p>,
    outside: &mut Outside,
) -> Result<(), Halt>
    requires structures { AreWholeStructures (plain_types p.now.types) }
    ensures { (io : Around) (f : Open) (calls : List Open) → calls_in stacks.old.calls ≡ f ∷ calls → Answers (begun_unused (plain_program p.now) (plain_value value.now) (tasks_in stacks.old.tasks) stacks.old.operands f calls (state_of outside.old io)) result (rig_of normal stacks.new) (state_of outside.new io) }
{
    stacks.tasks.push(Work::Operate(Operation::DropValue))?;
    begin_form(p, value, stacks, outside)
}

/// Begins to evaluate a form.
fn begin_form<'p>(
    p: &'p Program<'p>,
    value: &'p Value,
    stacks: &mut Stacks<'p>,
    outside: &mut Outside,
) -> Result<(), Halt>
    requires structures { AreWholeStructures (plain_types p.now.types) }
    ensures { (io : Around) (f : Open) (calls : List Open) → calls_in stacks.old.calls ≡ f ∷ calls → Answers (begun_form (plain_program p.now) value.now.at (plain_type value.now.ty) (plain_form value.now.form) (tasks_in stacks.old.tasks) stacks.old.operands f calls (state_of outside.old io)) result (rig_of normal stacks.new) (state_of outside.new io) }
{
    match &value.form {
        ValueForm::Convert(operand) => {
            stacks
                .tasks
                .push(Work::Operate(Operation::ConvertTo(&value.ty)))?;
            push_use(operand, &mut stacks.tasks)?;
            begin_form(p, operand, stacks, outside)
        }
        ValueForm::Const(number) => begin_constant(number, &mut stacks.operands, outside),
        ValueForm::Sense(_) => sense(&value.ty, &mut stacks.operands, outside),
        ValueForm::Read(place) => begin_read(p, value, place, stacks, outside),
        ValueForm::Addr(place) => pay_and_seek(p, place, Operation::TakeAddress, stacks, outside),
        ValueForm::Decay(place) => begin_decay(p, value.at.span, place, stacks, outside),
        _ => begin_parts(value, stacks, outside),
    }
}

/// Begins to evaluate a form whose parts are values.
fn begin_parts<'p>(
    value: &'p Value,
    stacks: &mut Stacks<'p>,
    outside: &mut Outside,
) -> Result<(), Halt>
    ensures { (p : PlainProgram) (io : Around) (f : Open) (calls : List Open) → calls_in stacks.old.calls ≡ f ∷ calls → Answers (begun_form p value.now.at (plain_type value.now.ty) (plain_form value.now.form) (tasks_in stacks.old.tasks) stacks.old.operands f calls (state_of outside.old io)) result (rig_of normal stacks.new) (state_of outside.new io) }
{
    let span = value.at.span;
    let ty = &value.ty;
    match &value.form {
        ValueForm::Cast(operand) => begin_cast(ty, operand, stacks, outside),
        ValueForm::Unary(operator, operand) => {
            let after = Operation::ApplyUnary(*operator, ty, span);
            let first = Work::Value(ValueStep::Evaluate, operand);
            go_on_with_two(first, Work::Operate(after), stacks, outside)
        }
        ValueForm::Binary(operator, left, right) => {
            let after = Operation::ApplyBinary(*operator, ty, span);
            let first = Work::Value(ValueStep::Evaluate, left);
            let second = Work::Value(ValueStep::Evaluate, right);
            go_on_with_three(first, second, Work::Operate(after), stacks, outside)
        }
        ValueForm::Logic(operator, left, right) => {
            let first = Work::Value(ValueStep::Evaluate, left);
            let second = Work::Value(ValueStep::Decide(*operator), right);
            go_on_with_two(first, second, stacks, outside)
        }
        ValueForm::Cond(condition, _, _) => {
            let first = Work::Value(ValueStep::Evaluate, condition);
            go_on_with_two(
                first,
                Work::Value(ValueStep::Choose, value),
                stacks,
                outside,
            )
        }
        ValueForm::Call(_, function, arguments) => {
            begin_call(*function, arguments.as_slice(), stacks, outside)
        }
        ValueForm::Builtin(_, function, arguments) => {
            begin_library(value, *function, arguments.as_slice(), stacks, outside)
        }
        _ => Err(Halt::Memory),
    }
}

/// A call of a function begins with its arguments.
#[tactic(auto, using(crate::proofs::Rows::count_is))]
fn begin_call<'p>(
    function: u32,
    arguments: &'p [Value],
    stacks: &mut Stacks<'p>,
    outside: &mut Outside,
) -> Result<(), Halt>
    ensures { (io : Around) (f : Open) (calls : List Open) → calls_in stacks.old.calls ≡ f ∷ calls → Answers (step (state_of outside.old io) (λ w. goes_on (evaluate_values (plain_values arguments.now) ∷ (call_function function (count_of (plain_values arguments.now)) ∷ tasks_in stacks.old.tasks)) stacks.old.operands (f ∷ calls) w)) result (rig_of normal stacks.new) (state_of outside.new io) }
{
    let call = Work::CallFunction(function, arguments.len());
    go_on_with_two(Work::EvaluateValues(arguments), call, stacks, outside)
}

/// A call of a library function begins with its arguments.
#[tactic(auto, using(crate::proofs::Rows::count_is))]
fn begin_library<'p>(
    value: &'p Value,
    function: Library,
    arguments: &'p [Value],
    stacks: &mut Stacks<'p>,
    outside: &mut Outside,
) -> Result<(), Halt>
    ensures { (io : Around) (f : Open) (calls : List Open) → calls_in stacks.old.calls ≡ f ∷ calls → Answers (step (state_of outside.old io) (λ w. goes_on (evaluate_values (plain_values arguments.now) ∷ (operate (call_library function value.now.at.span (plain_type value.now.ty) (count_of (plain_values arguments.now))) ∷ tasks_in stacks.old.tasks)) stacks.old.operands (f ∷ calls) w)) result (rig_of normal stacks.new) (state_of outside.new io) }
{
    let count = arguments.len();
    let call = Operation::CallLibrary(function, value.at.span, &value.ty, count);
    go_on_with_two(
        Work::EvaluateValues(arguments),
        Work::Operate(call),
        stacks,
        outside,
    )
}

/// A cast begins with its operand, which isn't used where the type is `void` (C99 6.3.2.2).
fn begin_cast<'p>(
    t: &'p CType,
    operand: &'p Value,
    stacks: &mut Stacks<'p>,
    outside: &mut Outside,
) -> Result<(), Halt>
    ensures { (io : Around) (f : Open) (calls : List Open) → calls_in stacks.old.calls ≡ f ∷ calls → Answers (step (state_of outside.old io) (λ w. goes_on (casting (plain_type t.now) (plain_value operand.now) (tasks_in stacks.old.tasks)) stacks.old.operands (f ∷ calls) w)) result (rig_of normal stacks.new) (state_of outside.new io) }
{
    match &t.form {
        TypeForm::Void => {
            let first = Work::Value(ValueStep::Discard, operand);
            go_on_with_two(first, Work::Operate(Operation::GiveNone), stacks, outside)
        }
        _ => {
            let first = Work::Value(ValueStep::Evaluate, operand);
            go_on_with_two(
                first,
                Work::Operate(Operation::ConvertTo(t)),
                stacks,
                outside,
            )
        }
    }
}

/// A constant is its own value.
fn begin_constant(number: &i128, operands: &mut Operands, outside: &mut Outside) -> Result<(), Halt>
    ensures { (io : Around) (k : List Task) (calls : List Open) → Answers (step (state_of outside.old io) (λ w. goes_on k (evaluated (Some (Int number.now)) ∷ operands.old) calls w)) result (record { flow = normal; tasks = k; operands = operands.new; calls = calls }) (state_of outside.new io) }
{
    if outside.left == 0 {
        return Err(Halt::Spent);
    }
    outside.left -= 1;
    operands.push(Operand::Evaluated(Some(Scalar::Int(*number))))
}

/// A read begins with its place (C99 6.3.2.1p2).
fn begin_read<'p>(
    p: &'p Program<'p>,
    value: &'p Value,
    place: &'p Place,
    stacks: &mut Stacks<'p>,
    outside: &mut Outside,
) -> Result<(), Halt>
    requires structures { AreWholeStructures (plain_types p.now.types) }
    ensures { (io : Around) (f : Open) (calls : List Open) → calls_in stacks.old.calls ≡ f ∷ calls → Answers (step (state_of outside.old io) (λ w. sought (plain_program p.now) (plain_place place.now) (reading (plain_type value.now.ty) (plain_place place.now) ∷ tasks_in stacks.old.tasks) stacks.old.operands f calls w)) result (rig_of normal stacks.new) (state_of outside.new io) }
{
    pay_and_seek(p, place, reading(value, place), stacks, outside)
}

/// The pointer to an array's first element begins with the array's place (C99 6.3.2.1p3).
fn begin_decay<'p>(
    p: &'p Program<'p>,
    span: Span,
    place: &'p Place,
    stacks: &mut Stacks<'p>,
    outside: &mut Outside,
) -> Result<(), Halt>
    requires structures { AreWholeStructures (plain_types p.now.types) }
    ensures { (io : Around) (f : Open) (calls : List Open) → calls_in stacks.old.calls ≡ f ∷ calls → Answers (step (state_of outside.old io) (λ w. sought (plain_program p.now) (plain_place place.now) (operate (decay_at span (plain_type place.now.ty)) ∷ tasks_in stacks.old.tasks) stacks.old.operands f calls w)) result (rig_of normal stacks.new) (state_of outside.new io) }
{
    pay_and_seek(
        p,
        place,
        Operation::DecayAt(span, &place.ty),
        stacks,
        outside,
    )
}

/// Takes a step and looks for a place, with which an operation goes on.
fn pay_and_seek<'p>(
    p: &'p Program<'p>,
    place: &'p Place,
    after: Operation<'p>,
    stacks: &mut Stacks<'p>,
    outside: &mut Outside,
) -> Result<(), Halt>
    requires structures { AreWholeStructures (plain_types p.now.types) }
    ensures { (io : Around) (f : Open) (calls : List Open) → calls_in stacks.old.calls ≡ f ∷ calls → Answers (step (state_of outside.old io) (λ w. sought (plain_program p.now) (plain_place place.now) (operate (operation_of after.entry) ∷ tasks_in stacks.old.tasks) stacks.old.operands f calls w)) result (rig_of normal stacks.new) (state_of outside.new io) }
{
    if outside.left == 0 {
        return Err(Halt::Spent);
    }
    outside.left -= 1;
    stacks.tasks.push(Work::Operate(after))?;
    seek(p, place, stacks, outside)
}

/// A read of a sensor takes its next value (C99 6.7.3p6).
fn sense(t: &CType, operands: &mut Operands, outside: &mut Outside) -> Result<(), Halt>
    ensures { (io : Around) (k : List Task) (calls : List Open) → Answers (step (state_of outside.old io) (λ w. and_then (sensed (plain_type t.now) w) (λ x w. goes_on k (evaluated (Some x) ∷ operands.old) calls w))) result (record { flow = normal; tasks = k; operands = operands.new; calls = calls }) (state_of outside.new io) }
{
    if outside.left == 0 {
        return Err(Halt::Spent);
    }
    outside.left -= 1;
    let x = next_sensed(t, outside)?;
    operands.push(Operand::Evaluated(Some(x)))
}

/// The next value of a sensor of a type: 0 where none is left.
pub fn next_sensed(t: &CType, outside: &mut Outside) -> Result<Scalar, Halt>
    ensures { (io : Around) → Gives (sensed (plain_type t.now) (state_of outside.old io)) result (state_of outside.new io) }
{
    match outside.sensors.next() {
        Some(number) => convert_to(t, Scalar::Int(number)),
        None => Ok(Scalar::Int(0)),
    }
}

/// What a place is read for.
fn reading<'p>(value: &'p Value, place: &'p Place) -> Operation<'p>
    ensures { operate (operation_of result) ≡ reading (plain_type value.now.ty) (plain_place place.now) }
{
    if matches!(&value.ty.form, TypeForm::Struct(_)) {
        Operation::ReadNone
    } else {
        Operation::ReadAt(place.at.span, &value.ty)
    }
}
