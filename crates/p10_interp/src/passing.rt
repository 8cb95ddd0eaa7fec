//! The way back after `break`, `continue` or `return` (C99 6.8.6).

ghost use Rattle.std.specs.Prelude.{◌≡◌, ◌∷◌, List, option_map, Ok};
ghost use Rattle.p10_core.specs.Views.{plain_program, plain_types, plain_value, plain_statement, plain_statements};
ghost use Rattle.p10_core.specs.WholePrograms.{AreWholeStructures};
ghost use Rattle.p10_core.specs.Typed.{PlainProgram};
ghost use Rattle.p10_meaning.specs.States.{State};
ghost use Rattle.p10_meaning.specs.Calling.{given};
ghost use Rattle.p10_interp.specs.private.Tasks.{Open, Loop, test_loop, enter_turn, end_turn, end_switch};
ghost use Rattle.p10_interp.specs.private.Views.{flow_of, task_of, statement_task, in_loop, tasks_in};
ghost use Rattle.p10_interp.specs.private.OpenCalls.{calls_in};
ghost use Rattle.p10_interp.specs.private.Machines.{Around, state_of, Moves};
ghost use Rattle.p10_interp.specs.private.Acts.{pass};

use crate::leaving::{end_block, end_call};
use crate::outside::Outside;
use crate::stacks::Stacks;
use crate::statements::normally;
use crate::turns::{end_by, test_by};
use crate::work::{Flow, Halt, StatementStep, Work};
use p10_core::{Program, Stmt, StmtForm, Value};
use p10_meaning::Scalar;

/// Passes a piece of work: the end of a block is met on the way, a loop takes `break` and `continue`, a `switch` takes `break`,
/// and the end of a body takes `return`.
pub fn pass<'p>(
    p: &'p Program<'p>,
    flow: Flow,
    work: Work<'p>,
    stacks: &mut Stacks<'p>,
    outside: &mut Outside,
) -> Result<Flow, Halt>
    requires structures { AreWholeStructures (plain_types p.now.types) }
    ensures { (io : Around) (f : Open) (calls : List Open) → calls_in stacks.old.calls ≡ f ∷ calls → Moves (pass (plain_program p.now) (flow_of flow) (task_of work.entry) (tasks_in stacks.old.tasks) stacks.old.operands (f ∷ calls) (state_of outside.old io)) result stacks.new (state_of outside.new io) }
{
    match work {
        Work::EndBlock => {
            end_block(stacks, outside);
            Ok(flow)
        }
        Work::EndCall => normally(end_call(given(flow), stacks, outside)),
        Work::EndSwitch => Ok(after_switch(flow)),
        Work::Statement(step, statement) => {
            pass_statement(p, flow, step, statement, stacks, outside)
        }
        _ => Ok(flow),
    }
}

/// The value that a body gives: none where it ends without `return` of one (C99 6.9.1p12).
fn given(flow: Flow) -> Option<Scalar>
    ensures { result ≡ given (flow_of flow) }
{
    match flow {
        Flow::Returned(x) => x,
        Flow::Normal | Flow::Broken | Flow::Continued => None,
    }
}

/// How execution goes on after a `switch`, which takes `break`.
fn after_switch(flow: Flow) -> Flow
    ensures { (p : PlainProgram) (stacks : Stacks) (w : State) → Moves (pass p (flow_of flow) end_switch (tasks_in stacks.tasks) stacks.operands (calls_in stacks.calls) w) (Ok result) stacks w }
{
    match flow {
        Flow::Broken => Flow::Normal,
        Flow::Normal | Flow::Continued | Flow::Returned(_) => flow,
    }
}

/// Passes what is to be done with a statement.
fn pass_statement<'p>(
    p: &'p Program<'p>,
    flow: Flow,
    step: StatementStep,
    statement: &'p Stmt,
    stacks: &mut Stacks<'p>,
    outside: &mut Outside,
) -> Result<Flow, Halt>
    requires structures { AreWholeStructures (plain_types p.now.types) }
    ensures { (io : Around) (f : Open) (calls : List Open) → calls_in stacks.old.calls ≡ f ∷ calls → Moves (pass (plain_program p.now) (flow_of flow) (statement_task step (plain_statement statement.now)) (tasks_in stacks.old.tasks) stacks.old.operands (f ∷ calls) (state_of outside.old io)) result stacks.new (state_of outside.new io) }
{
    match step {
        StatementStep::EndTurn => pass_turn(flow, statement, stacks),
        StatementStep::TestLoop => pass_test(p, flow, statement, stacks, outside),
        _ => Ok(flow),
    }
}

/// Passes what follows the body of a loop.
fn pass_turn<'p>(flow: Flow, statement: &'p Stmt, stacks: &mut Stacks<'p>) -> Result<Flow, Halt>
    ensures { (p : PlainProgram) (w : State) (f : Open) (calls : List Open) → calls_in stacks.old.calls ≡ f ∷ calls → Moves (pass p (flow_of flow) (in_loop (λ keyword l. end_turn l) (plain_statement statement.now)) (tasks_in stacks.old.tasks) stacks.old.operands (f ∷ calls) w) result stacks.new w }
{
    match &statement.form {
        StmtForm::Loop(_, _, _, third, _) => {
            pass_turn_by(flow, statement, third.as_slice(), stacks)
        }
        _ => Err(Halt::Memory),
    }
}

/// `break` leaves a loop, and `continue` goes on with its third clause.
fn pass_turn_by<'p>(
    flow: Flow,
    statement: &'p Stmt,
    third: &'p [Stmt],
    stacks: &mut Stacks<'p>,
) -> Result<Flow, Halt>
    ensures { (p : PlainProgram) (w : State) (f : Open) (calls : List Open) (l : Loop) → l.third ≡ plain_statements third.now → in_loop (λ keyword l. test_loop l) (plain_statement statement.now) ≡ test_loop l → calls_in stacks.old.calls ≡ f ∷ calls → Moves (pass p (flow_of flow) (end_turn l) (tasks_in stacks.old.tasks) stacks.old.operands (f ∷ calls) w) result stacks.new w }
{
    match flow {
        Flow::Broken => Ok(Flow::Normal),
        Flow::Continued => normally(end_by(statement, third, stacks)),
        Flow::Normal | Flow::Returned(_) => Ok(flow),
    }
}

/// Passes the test of a loop.
fn pass_test<'p>(
    p: &'p Program<'p>,
    flow: Flow,
    statement: &'p Stmt,
    stacks: &mut Stacks<'p>,
    outside: &mut Outside,
) -> Result<Flow, Halt>
    requires structures { AreWholeStructures (plain_types p.now.types) }
    ensures { (io : Around) (f : Open) (calls : List Open) → calls_in stacks.old.calls ≡ f ∷ calls → Moves (pass (plain_program p.now) (flow_of flow) (in_loop (λ keyword l. test_loop l) (plain_statement statement.now)) (tasks_in stacks.old.tasks) stacks.old.operands (f ∷ calls) (state_of outside.old io)) result stacks.new (state_of outside.new io) }
{
    match &statement.form {
        StmtForm::Loop(_, _, tested, _, body) => {
            pass_test_by(p, flow, statement, (tested, body), stacks, outside)
        }
        _ => Err(Halt::Memory),
    }
}

/// `break` leaves a loop, and `continue` goes on with its test.
fn pass_test_by<'p>(
    p: &'p Program<'p>,
    flow: Flow,
    statement: &'p Stmt,
    parts: (&'p Option<Value>, &'p Stmt),
    stacks: &mut Stacks<'p>,
    outside: &mut Outside,
) -> Result<Flow, Halt>
    requires structures { AreWholeStructures (plain_types p.now.types) }
    ensures { (io : Around) (f : Open) (calls : List Open) (l : Loop) → l.tested ≡ option_map plain_value parts.entry.0.now → l.body ≡ plain_statement parts.entry.1.now → in_loop (λ keyword l. enter_turn l) (plain_statement statement.now) ≡ enter_turn l → in_loop (λ keyword l. end_turn l) (plain_statement statement.now) ≡ end_turn l → calls_in stacks.old.calls ≡ f ∷ calls → Moves (pass (plain_program p.now) (flow_of flow) (test_loop l) (tasks_in stacks.old.tasks) stacks.old.operands (f ∷ calls) (state_of outside.old io)) result stacks.new (state_of outside.new io) }
{
    match flow {
        Flow::Broken => Ok(Flow::Normal),
        Flow::Continued => normally(test_by(p, statement, parts, stacks, outside)),
        Flow::Normal | Flow::Returned(_) => Ok(flow),
    }
}
