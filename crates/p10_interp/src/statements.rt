//! The acts for statements.

ghost use Rattle.std.specs.Prelude.{◌≡◌, ◌∷◌, List, slice_get, IsTrue};
ghost use Rattle.p10_core.specs.Views.{plain_program, plain_types, plain_statement, plain_statements, plain_statement_form, plain_place, plain_value};
ghost use Rattle.p10_core.specs.Types.{plain_type};
ghost use Rattle.p10_core.specs.Typed.{PlainProgram, no_statements};
ghost use Rattle.p10_core.specs.WholePrograms.{AreWholeStructures};
ghost use Rattle.p10_meaning.specs.States.{State, Progress, step};
ghost use Rattle.p10_meaning.specs.Statements.{normal};
ghost use Rattle.p10_interp.specs.private.Tasks.{Open, Rig, execute_statements, end_block, operate, evaluate_value, read_old, write_new, write_at, copy_between, locate_place};
ghost use Rattle.p10_interp.specs.private.Operations.{in_new_block};
ghost use Rattle.p10_interp.specs.private.Views.{Answers, flow_of, operation_of, task_of, tasks_in};
ghost use Rattle.p10_interp.specs.private.OpenCalls.{calls_in};
ghost use Rattle.p10_interp.specs.private.Machines.{Around, state_of, rig_of, Moves};
ghost use Rattle.p10_interp.specs.private.Acts.{begun_statement, begun_statements, goes_on, goes_back, sought};

use crate::declaring::begin_declare;
use crate::outside::Outside;
use crate::seek::seek;
use crate::stacks::Stacks;
use crate::steps::{go_on, go_on_with_two};
use crate::work::{Flow, Halt, Operation, StatementStep, ValueStep, Work};
use p10_core::{MarkKind, Place, Program, Stmt, StmtForm, Value};

/// Begins to execute a statement.
pub fn begin_statement<'p>(
    p: &'p Program<'p>,
    statement: &'p Stmt,
    stacks: &mut Stacks<'p>,
    outside: &mut Outside,
) -> Result<Flow, Halt>
    requires structures { AreWholeStructures (plain_types p.now.types) }
    ensures { (io : Around) (f : Open) (calls : List Open) → calls_in stacks.old.calls ≡ f ∷ calls → Moves (begun_statement (plain_program p.now) (plain_statement statement.now) (tasks_in stacks.old.tasks) stacks.old.operands f calls (state_of outside.old io)) result stacks.new (state_of outside.new io) }
{
    let span = statement.at.span;
    match &statement.form {
        StmtForm::Set(place, value) => normally(begin_set(p, place, value, stacks, outside)),
        StmtForm::Update(_, operator, t, place, value) => {
            let read = Operation::ReadOld(place.at.span, &place.ty, t);
            let write = Operation::WriteNew(*operator, span, t, place.at.span, &place.ty);
            normally(begin_update(p, place, value, (read, write), stacks, outside))
        }
        StmtForm::Copy(target, source) => {
            normally(begin_copy(p, target, source, stacks, outside))
        }
        StmtForm::Value(value) => {
            normally(go_on(Work::Value(ValueStep::Discard, value), stacks, outside))
        }
        StmtForm::Assert(at, value) => {
            let after = Work::Operate(Operation::AssertAt(at.span));
            normally(evaluate_before(value, after, stacks, outside))
        }
        StmtForm::Declare(number, initializer) => {
            normally(begin_declare(p, span, *number, initializer, stacks, outside))
        }
        StmtForm::Static(_) => Ok(Flow::Normal),
        StmtForm::Block(items) => normally(begin_block(items.as_slice(), stacks)),
        StmtForm::If(value, _, _) => {
            let after = Work::Statement(StatementStep::Branch, statement);
            normally(evaluate_before(value, after, stacks, outside))
        }
        StmtForm::Loop(_, first, _, _, _) => {
            let after = Work::Statement(StatementStep::BeginLoop, statement);
            normally(begin_loop(first.as_slice(), after, stacks, outside))
        }
        StmtForm::Switch(_, value, _, _) => {
            let after = Work::Statement(StatementStep::Select, statement);
            normally(evaluate_before(value, after, stacks, outside))
        }
        StmtForm::Break => go_back(Flow::Broken, outside),
        StmtForm::Continue => go_back(Flow::Continued, outside),
        StmtForm::Return(_, None) => go_back(Flow::Returned(None), outside),
        StmtForm::Return(_, Some(value)) => {
            let after = Work::Operate(Operation::GiveBack);
            normally(evaluate_before(value, after, stacks, outside))
        }
        StmtForm::Empty => go_back(Flow::Normal, outside),
        StmtForm::Mark(MarkKind::InitDone) => {
            outside.marked = true;
            Ok(Flow::Normal)
        }
        StmtForm::Mark(MarkKind::TaskLoop) => Ok(Flow::Normal),
    }
}

/// The first of statements begins to be executed.
pub fn begin_statements<'p>(
    p: &'p Program<'p>,
    statements: &'p [Stmt],
    stacks: &mut Stacks<'p>,
    outside: &mut Outside,
) -> Result<Flow, Halt>
    requires structures { AreWholeStructures (plain_types p.now.types) }
    ensures { (io : Around) (f : Open) (calls : List Open) → calls_in stacks.old.calls ≡ f ∷ calls → Moves (begun_statements (plain_program p.now) (plain_statements statements.now) (tasks_in stacks.old.tasks) stacks.old.operands f calls (state_of outside.old io)) result stacks.new (state_of outside.new io) }
{
    match statements {
        [] => Ok(Flow::Normal),
        [first, rest @ ..] => {
            stacks.tasks.push(Work::ExecuteStatements(rest))?;
            begin_statement(p, first, stacks, outside)
        }
    }
}

/// Execution goes on with the next work.
pub fn normally(begun: Result<(), Halt>) -> Result<Flow, Halt>
    ensures { (stacks : Stacks) (o : Progress Rig) (w : State) → Answers o begun (rig_of normal stacks) w → Moves o result stacks w }
{
    match begun {
        Ok(()) => Ok(Flow::Normal),
        Err(halt) => Err(halt),
    }
}

/// Takes a step, with which execution goes on in a way.
fn go_back(flow: Flow, outside: &mut Outside) -> Result<Flow, Halt>
    ensures { (io : Around) (stacks : Stacks) → Moves (step (state_of outside.old io) (λ w. goes_back (flow_of flow) (tasks_in stacks.tasks) stacks.operands (calls_in stacks.calls) w)) result stacks (state_of outside.new io) }
{
    if outside.left == 0 {
        return Err(Halt::Spent);
    }
    outside.left -= 1;
    Ok(flow)
}

/// Takes a step, and evaluates a value before other work.
fn evaluate_before<'p>(
    value: &'p Value,
    after: Work<'p>,
    stacks: &mut Stacks<'p>,
    outside: &mut Outside,
) -> Result<(), Halt>
    ensures { (io : Around) (f : Open) (calls : List Open) → calls_in stacks.old.calls ≡ f ∷ calls → Answers (step (state_of outside.old io) (λ w. goes_on (evaluate_value (plain_value value.now) ∷ (task_of after.entry ∷ tasks_in stacks.old.tasks)) stacks.old.operands (f ∷ calls) w)) result (rig_of normal stacks.new) (state_of outside.new io) }
{
    go_on_with_two(
        Work::Value(ValueStep::Evaluate, value),
        after,
        stacks,
        outside,
    )
}

/// An assignment begins with its place (C99 6.5.16.1).
fn begin_set<'p>(
    p: &'p Program<'p>,
    place: &'p Place,
    value: &'p Value,
    stacks: &mut Stacks<'p>,
    outside: &mut Outside,
) -> Result<(), Halt>
    requires structures { AreWholeStructures (plain_types p.now.types) }
    ensures { (io : Around) (f : Open) (calls : List Open) → calls_in stacks.old.calls ≡ f ∷ calls → Answers (step (state_of outside.old io) (λ w. sought (plain_program p.now) (plain_place place.now) (evaluate_value (plain_value value.now) ∷ (operate (write_at place.now.at.span) ∷ tasks_in stacks.old.tasks)) stacks.old.operands f calls w)) result (rig_of normal stacks.new) (state_of outside.new io) }
{
    if outside.left == 0 {
        return Err(Halt::Spent);
    }
    outside.left -= 1;
    stacks
        .tasks
        .push(Work::Operate(Operation::WriteAt(place.at.span)))?;
    stacks.tasks.push(Work::Value(ValueStep::Evaluate, value))?;
    seek(p, place, stacks, outside)
}

/// An update begins with its place, of which the old value is read before the operand is evaluated (C99 6.5.16.2).
fn begin_update<'p>(
    p: &'p Program<'p>,
    place: &'p Place,
    value: &'p Value,
    after: (Operation<'p>, Operation<'p>),
    stacks: &mut Stacks<'p>,
    outside: &mut Outside,
) -> Result<(), Halt>
    requires structures { AreWholeStructures (plain_types p.now.types) }
    ensures { (io : Around) (f : Open) (calls : List Open) → calls_in stacks.old.calls ≡ f ∷ calls → Answers (step (state_of outside.old io) (λ w. sought (plain_program p.now) (plain_place place.now) (operate (operation_of after.entry.0) ∷ (evaluate_value (plain_value value.now) ∷ (operate (operation_of after.entry.1) ∷ tasks_in stacks.old.tasks))) stacks.old.operands f calls w)) result (rig_of normal stacks.new) (state_of outside.new io) }
{
    if outside.left == 0 {
        return Err(Halt::Spent);
    }
    outside.left -= 1;
    let (read, write) = after;
    stacks.tasks.push(Work::Operate(write))?;
    stacks.tasks.push(Work::Value(ValueStep::Evaluate, value))?;
    stacks.tasks.push(Work::Operate(read))?;
    seek(p, place, stacks, outside)
}

/// The copy of a structure begins with its target (C99 6.5.16.1).
fn begin_copy<'p>(
    p: &'p Program<'p>,
    target: &'p Place,
    source: &'p Place,
    stacks: &mut Stacks<'p>,
    outside: &mut Outside,
) -> Result<(), Halt>
    requires structures { AreWholeStructures (plain_types p.now.types) }
    ensures { (io : Around) (f : Open) (calls : List Open) → calls_in stacks.old.calls ≡ f ∷ calls → Answers (step (state_of outside.old io) (λ w. sought (plain_program p.now) (plain_place target.now) (locate_place (plain_place source.now) ∷ (operate (copy_between target.now.at.span source.now.at.span (plain_type target.now.ty)) ∷ tasks_in stacks.old.tasks)) stacks.old.operands f calls w)) result (rig_of normal stacks.new) (state_of outside.new io) }
{
    if outside.left == 0 {
        return Err(Halt::Spent);
    }
    outside.left -= 1;
    let copy = Operation::CopyBetween(target.at.span, source.at.span, &target.ty);
    stacks.tasks.push(Work::Operate(copy))?;
    stacks.tasks.push(Work::LocatePlace(source))?;
    seek(p, target, stacks, outside)
}

/// A block begins, without a step (C99 6.8.2).
pub fn begin_block<'p>(items: &'p [Stmt], stacks: &mut Stacks<'p>) -> Result<(), Halt>
    ensures { (f : Open) (calls : List Open) (w : State) → calls_in stacks.old.calls ≡ f ∷ calls → Answers (goes_on (execute_statements (plain_statements items.now) ∷ (end_block ∷ tasks_in stacks.old.tasks)) stacks.old.operands (in_new_block f ∷ calls) w) result (rig_of normal stacks.new) w }
{
    stacks.calls.enter_block()?;
    stacks.tasks.push(Work::EndBlock)?;
    stacks.tasks.push(Work::ExecuteStatements(items))
}

/// A loop is a block, and begins with its first clause (C99 6.8.5.3).
fn begin_loop<'p>(
    first: &'p [Stmt],
    after: Work<'p>,
    stacks: &mut Stacks<'p>,
    outside: &mut Outside,
) -> Result<(), Halt>
    ensures { (io : Around) (f : Open) (calls : List Open) → calls_in stacks.old.calls ≡ f ∷ calls → Answers (step (state_of outside.old io) (λ w. goes_on (execute_statements (plain_statements first.now) ∷ (task_of after.entry ∷ (end_block ∷ tasks_in stacks.old.tasks))) stacks.old.operands (in_new_block f ∷ calls) w)) result (rig_of normal stacks.new) (state_of outside.new io) }
{
    if outside.left == 0 {
        return Err(Halt::Spent);
    }
    outside.left -= 1;
    stacks.calls.enter_block()?;
    stacks.tasks.push(Work::EndBlock)?;
    stacks.tasks.push(after)?;
    stacks.tasks.push(Work::ExecuteStatements(first))
}

/// Whether there are no statements.
pub fn is_nothing(statements: &[Stmt]) -> bool
    ensures { IsTrue result → plain_statements statements.now ≡ no_statements }
{
    match statements {
        [] => true,
        [_, ..] => false,
    }
}
