//! The acts of the machine, one for each piece of work.

ghost use Rattle.std.specs.Prelude.{◌≡◌, ◌∷◌, List};
ghost use Rattle.p10_core.specs.Views.{plain_program, plain_types, plain_value, plain_statement};
ghost use Rattle.p10_core.specs.WholePrograms.{AreWholeStructures};
ghost use Rattle.p10_meaning.specs.Statements.{normal};
ghost use Rattle.p10_interp.specs.private.Tasks.{Open};
ghost use Rattle.p10_interp.specs.private.Views.{Answers, flow_of, task_of, value_task, statement_task, tasks_in};
ghost use Rattle.p10_interp.specs.private.OpenCalls.{calls_in};
ghost use Rattle.p10_interp.specs.private.Machines.{Around, state_of, rig_of, Moves};
ghost use Rattle.p10_interp.specs.private.Acts.{act, pass, next_act};

use crate::choosing::{begin_copy_into, begin_items, begin_values, choose, decide};
use crate::entering::call_function;
use crate::leaving::{end_block, end_call};
use crate::operate::operate;
use crate::outside::Outside;
use crate::passing::pass;
use crate::seek::seek;
use crate::stacks::Stacks;
use crate::statements::{begin_statement, begin_statements, normally};
use crate::turns::{branch, end_turn, enter_turn, select, start, test};
use crate::values::{begin_unused, begin_value};
use crate::work::{Flow, Halt, StatementStep, ValueStep, Work};
use p10_core::{Program, Stmt, Value};

/// The act for a piece of work that was taken from the stack: it is done, or passed on the way back to where the flow leads.
pub fn next_act<'p>(
    p: &'p Program<'p>,
    flow: Flow,
    work: Work<'p>,
    stacks: &mut Stacks<'p>,
    outside: &mut Outside,
) -> Result<Flow, Halt>
    requires structures { AreWholeStructures (plain_types p.now.types) }
    ensures { (io : Around) → Moves (next_act (plain_program p.now) (flow_of flow) (task_of work.entry) (tasks_in stacks.old.tasks) stacks.old.operands (calls_in stacks.old.calls) (state_of outside.old io)) result stacks.new (state_of outside.new io) }
{
    match flow {
        Flow::Normal => act(p, work, stacks, outside),
        _ => pass_if_called(p, flow, work, stacks, outside),
    }
}

/// Passes a piece of work. Where no call is open it is answered as out of memory; that never comes.
fn pass_if_called<'p>(
    p: &'p Program<'p>,
    flow: Flow,
    work: Work<'p>,
    stacks: &mut Stacks<'p>,
    outside: &mut Outside,
) -> Result<Flow, Halt>
    requires structures { AreWholeStructures (plain_types p.now.types) }
    ensures { (io : Around) → Moves (pass (plain_program p.now) (flow_of flow) (task_of work.entry) (tasks_in stacks.old.tasks) stacks.old.operands (calls_in stacks.old.calls) (state_of outside.old io)) result stacks.new (state_of outside.new io) }
{
    if stacks.calls.is_idle() {
        Err(Halt::Memory)
    } else {
        pass(p, flow, work, stacks, outside)
    }
}

/// Does a piece of work.
fn act<'p>(
    p: &'p Program<'p>,
    work: Work<'p>,
    stacks: &mut Stacks<'p>,
    outside: &mut Outside,
) -> Result<Flow, Halt>
    requires structures { AreWholeStructures (plain_types p.now.types) }
    ensures { (io : Around) → Moves (act (plain_program p.now) (task_of work.entry) (tasks_in stacks.old.tasks) stacks.old.operands (calls_in stacks.old.calls) (state_of outside.old io)) result stacks.new (state_of outside.new io) }
{
    match work {
        Work::CallFunction(function, count) => {
            normally(call_function(p, function, count, stacks, outside))
        }
        Work::EndSwitch => Ok(Flow::Normal),
        _ => act_if_called(p, work, stacks, outside),
    }
}

/// Does a piece of work that stands in a call. Where none is open it is answered as out of memory; that never comes.
fn act_if_called<'p>(
    p: &'p Program<'p>,
    work: Work<'p>,
    stacks: &mut Stacks<'p>,
    outside: &mut Outside,
) -> Result<Flow, Halt>
    requires structures { AreWholeStructures (plain_types p.now.types) }
    ensures { (io : Around) → Moves (act (plain_program p.now) (task_of work.entry) (tasks_in stacks.old.tasks) stacks.old.operands (calls_in stacks.old.calls) (state_of outside.old io)) result stacks.new (state_of outside.new io) }
{
    if stacks.calls.is_idle() {
        Err(Halt::Memory)
    } else {
        act_in_call(p, work, stacks, outside)
    }
}

/// Does a piece of work in the innermost call.
fn act_in_call<'p>(
    p: &'p Program<'p>,
    work: Work<'p>,
    stacks: &mut Stacks<'p>,
    outside: &mut Outside,
) -> Result<Flow, Halt>
    requires structures { AreWholeStructures (plain_types p.now.types) }
    ensures { (io : Around) (f : Open) (calls : List Open) → calls_in stacks.old.calls ≡ f ∷ calls → Moves (act (plain_program p.now) (task_of work.entry) (tasks_in stacks.old.tasks) stacks.old.operands (f ∷ calls) (state_of outside.old io)) result stacks.new (state_of outside.new io) }
{
    match work {
        Work::Value(step, value) => normally(act_on_value(p, step, value, stacks, outside)),
        Work::LocatePlace(place) => normally(seek(p, place, stacks, outside)),
        Work::EvaluateValues(values) => normally(begin_values(p, values, stacks, outside)),
        Work::EvaluateItems(items) => normally(begin_items(p, items, stacks, outside)),
        Work::Statement(step, statement) => {
            act_on_statement(p, step, statement, stacks, outside)
        }
        Work::ExecuteStatements(statements) => begin_statements(p, statements, stacks, outside),
        Work::CopyInto(span, t, source) => {
            normally(begin_copy_into(p, (span, t), source, stacks, outside))
        }
        Work::EndBlock => {
            end_block(stacks, outside);
            Ok(Flow::Normal)
        }
        Work::EndCall => normally(end_call(None, stacks, outside)),
        Work::Operate(operation) => operate(p, operation, stacks, outside),
        Work::CallFunction(_, _) | Work::EndSwitch => Err(Halt::Memory),
    }
}

/// Does what is to be done with a value.
fn act_on_value<'p>(
    p: &'p Program<'p>,
    step: ValueStep,
    value: &'p Value,
    stacks: &mut Stacks<'p>,
    outside: &mut Outside,
) -> Result<(), Halt>
    requires structures { AreWholeStructures (plain_types p.now.types) }
    ensures { (io : Around) (f : Open) (calls : List Open) → calls_in stacks.old.calls ≡ f ∷ calls → Answers (act (plain_program p.now) (value_task step (plain_value value.now)) (tasks_in stacks.old.tasks) stacks.old.operands (f ∷ calls) (state_of outside.old io)) result (rig_of normal stacks.new) (state_of outside.new io) }
{
    match step {
        ValueStep::Evaluate => begin_value(p, value, stacks, outside),
        ValueStep::Discard => begin_unused(p, value, stacks, outside),
        ValueStep::Decide(op) => decide(op, value, stacks),
        ValueStep::Choose => choose(value, stacks),
    }
}

/// Does what is to be done with a statement.
fn act_on_statement<'p>(
    p: &'p Program<'p>,
    step: StatementStep,
    statement: &'p Stmt,
    stacks: &mut Stacks<'p>,
    outside: &mut Outside,
) -> Result<Flow, Halt>
    requires structures { AreWholeStructures (plain_types p.now.types) }
    ensures { (io : Around) (f : Open) (calls : List Open) → calls_in stacks.old.calls ≡ f ∷ calls → Moves (act (plain_program p.now) (statement_task step (plain_statement statement.now)) (tasks_in stacks.old.tasks) stacks.old.operands (f ∷ calls) (state_of outside.old io)) result stacks.new (state_of outside.new io) }
{
    match step {
        StatementStep::Execute => begin_statement(p, statement, stacks, outside),
        StatementStep::Branch => normally(branch(statement, stacks)),
        StatementStep::BeginLoop => normally(start(p, statement, stacks, outside)),
        StatementStep::TestLoop => normally(test(p, statement, stacks, outside)),
        StatementStep::EnterTurn => normally(enter_turn(statement, stacks)),
        StatementStep::EndTurn => normally(end_turn(statement, stacks)),
        StatementStep::Select => normally(select(statement, stacks)),
    }
}
