//! Pieces of work that are done at once: those that come to numbers and change nothing but a variable or an element. Where one
//! can't be, nothing is changed, and it is done by acts.

ghost use Rattle.std.specs.Prelude.{◌≡◌, ◌∷◌, List, IfOk, IfErr};
ghost use Rattle.p10_base.specs.declared.at.At.{At};
ghost use Rattle.p10_base.specs.declared.span.Span.{Span};
ghost use Rattle.p10_core.specs.Types.{PlainType};
ghost use Rattle.p10_core.specs.Typed.{value, call};
ghost use Rattle.p10_core.specs.Views.{plain_program, plain_types, plain_value, plain_values, plain_statement, plain_statements};
ghost use Rattle.p10_core.specs.WholePrograms.{AreWholeStructures};
ghost use Rattle.p10_interp.specs.private.Tasks.{Open, evaluate_value, execute_statement, execute_statements};
ghost use Rattle.p10_interp.specs.private.Views.{statement_task, task_of, value_task};
ghost use Rattle.p10_interp.specs.private.OpenCalls.{calls_in};
ghost use Rattle.p10_interp.specs.private.Machines.{Around, state_of};
ghost use Rattle.p10_interp.specs.private.Turning.{Does};

use crate::base::Depth;
use crate::calls_at_once::{Caller, value_of_call};
use crate::entering::raise;
use crate::outside::Outside;
use crate::stacks::Stacks;
use crate::statements_at_once::{execute_at_once, number_in_call};
use crate::turns_at_once::test_at_once;
use crate::work::{Halt, Operand, StatementStep, ValueStep, Work};
use p10_core::{Program, Stmt, Value, ValueForm};
use p10_meaning::Scalar;

/// Does a piece of work at once, if it can be: otherwise nothing is changed.
pub fn do_at_once<'p>(
    p: &'p Program<'p>,
    work: Work<'p>,
    stacks: &mut Stacks<'p>,
    outside: &mut Outside,
) -> Result<bool, Halt>
    requires structures { AreWholeStructures (plain_types p.now.types) }
    ensures ok { IfOk result (λ done. (io : Around) → Does (plain_program p.now) (task_of work.entry) stacks.old (state_of outside.old io) done stacks.new (state_of outside.new io)) }
    ensures err { IfErr result (λ e. e ≡ Halt.Memory) }
{
    if stacks.calls.is_idle() {
        return Ok(false);
    }
    match work {
        Work::Value(step, value) => value_at_once(p, step, value, stacks, outside),
        Work::ExecuteStatements(statements) => {
            execute_first_at_once(p, statements, stacks, outside)
        }
        Work::Statement(step, statement) => {
            statement_at_once(p, step, statement, stacks, outside)
        }
        _ => Ok(false),
    }
}

/// What is to be done with a value.
fn value_at_once<'p>(
    p: &'p Program<'p>,
    step: ValueStep,
    value: &'p Value,
    stacks: &mut Stacks<'p>,
    outside: &mut Outside,
) -> Result<bool, Halt>
    requires structures { AreWholeStructures (plain_types p.now.types) }
    ensures ok { IfOk result (λ done. (io : Around) (f : Open) (calls : List Open) → calls_in stacks.old.calls ≡ f ∷ calls → Does (plain_program p.now) (value_task step (plain_value value.now)) stacks.old (state_of outside.old io) done stacks.new (state_of outside.new io)) }
    ensures err { IfErr result (λ e. e ≡ Halt.Memory) }
{
    match step {
        ValueStep::Evaluate => evaluate_at_once(p, value, stacks, outside),
        _ => Ok(false),
    }
}

/// What is to be done with a statement.
fn statement_at_once<'p>(
    p: &'p Program<'p>,
    step: StatementStep,
    statement: &'p Stmt,
    stacks: &mut Stacks<'p>,
    outside: &mut Outside,
) -> Result<bool, Halt>
    requires structures { AreWholeStructures (plain_types p.now.types) }
    ensures ok { IfOk result (λ done. (io : Around) (f : Open) (calls : List Open) → calls_in stacks.old.calls ≡ f ∷ calls → Does (plain_program p.now) (statement_task step (plain_statement statement.now)) stacks.old (state_of outside.old io) done stacks.new (state_of outside.new io)) }
    ensures err { IfErr result (λ e. e ≡ Halt.Memory) }
{
    match step {
        StatementStep::Execute => execute_one_at_once(p, statement, stacks, outside),
        StatementStep::TestLoop => test_at_once(p, statement, stacks, outside),
        _ => Ok(false),
    }
}

/// A value that comes to a number, also a call.
fn evaluate_at_once<'p>(
    p: &'p Program<'p>,
    value: &'p Value,
    stacks: &mut Stacks<'p>,
    outside: &mut Outside,
) -> Result<bool, Halt>
    requires structures { AreWholeStructures (plain_types p.now.types) }
    ensures ok { IfOk result (λ done. (io : Around) (f : Open) (calls : List Open) → calls_in stacks.old.calls ≡ f ∷ calls → Does (plain_program p.now) (evaluate_value (plain_value value.now)) stacks.old (state_of outside.old io) done stacks.new (state_of outside.new io)) }
    ensures err { IfErr result (λ e. e ≡ Halt.Memory) }
{
    match &value.form {
        ValueForm::Call(_, function, arguments) => {
            let made = (*function, arguments.as_slice());
            evaluate_call(p, made, stacks, outside)
        }
        _ => evaluate_number(p, value, stacks, outside),
    }
}

/// A call that comes to a number.
fn evaluate_call<'p>(
    p: &'p Program<'p>,
    made: (u32, &[Value]),
    stacks: &mut Stacks<'p>,
    outside: &mut Outside,
) -> Result<bool, Halt>
    requires structures { AreWholeStructures (plain_types p.now.types) }
    ensures ok { IfOk result (λ done. (at : At) (t : PlainType) (name : Span) (io : Around) (f : Open) (calls : List Open) → calls_in stacks.old.calls ≡ f ∷ calls → Does (plain_program p.now) (evaluate_value (value at t (call name made.entry.0 (plain_values made.entry.1.now)))) stacks.old (state_of outside.old io) done stacks.new (state_of outside.new io)) }
    ensures err { IfErr result (λ e. e ≡ Halt.Memory) }
{
    let mut left = outside.left;
    let mut reached = Depth { calls: 0, bytes: 0 };
    let caller = Caller {
        p,
        calls: &stacks.calls,
        store: &outside.store,
    };
    let number = value_of_call(&caller, made, &mut stacks.frame, &mut reached, &mut left);
    if left == 0 {
        return Ok(false);
    }
    if left >= outside.left {
        return Ok(false);
    }
    raise(reached, outside);
    outside.left = left;
    stacks
        .operands
        .push(Operand::Evaluated(Some(Scalar::Int(number))))?;
    Ok(true)
}

/// A number that is found.
fn evaluate_number<'p>(
    p: &'p Program<'p>,
    value: &'p Value,
    stacks: &mut Stacks<'p>,
    outside: &mut Outside,
) -> Result<bool, Halt>
    requires structures { AreWholeStructures (plain_types p.now.types) }
    ensures ok { IfOk result (λ done. (io : Around) (f : Open) (calls : List Open) → calls_in stacks.old.calls ≡ f ∷ calls → Does (plain_program p.now) (evaluate_value (plain_value value.now)) stacks.old (state_of outside.old io) done stacks.new (state_of outside.new io)) }
    ensures err { IfErr result (λ e. e ≡ Halt.Memory) }
{
    let mut left = outside.left;
    let number = number_in_call(p, value, &stacks.calls, outside, &mut left);
    if left == 0 {
        return Ok(false);
    }
    if left >= outside.left {
        return Ok(false);
    }
    outside.left = left;
    stacks
        .operands
        .push(Operand::Evaluated(Some(Scalar::Int(number))))?;
    Ok(true)
}

/// The first of statements.
fn execute_first_at_once<'p>(
    p: &'p Program<'p>,
    statements: &'p [Stmt],
    stacks: &mut Stacks<'p>,
    outside: &mut Outside,
) -> Result<bool, Halt>
    requires structures { AreWholeStructures (plain_types p.now.types) }
    ensures ok { IfOk result (λ done. (io : Around) (f : Open) (calls : List Open) → calls_in stacks.old.calls ≡ f ∷ calls → Does (plain_program p.now) (execute_statements (plain_statements statements.now)) stacks.old (state_of outside.old io) done stacks.new (state_of outside.new io)) }
    ensures err { IfErr result (λ e. e ≡ Halt.Memory) }
{
    match statements {
        [] => Ok(false),
        [first, rest @ ..] => {
            if !execute_at_once(p, first, &mut stacks.calls, &mut stacks.frame, outside) {
                return Ok(false);
            }
            stacks.tasks.push(Work::ExecuteStatements(rest))?;
            Ok(true)
        }
    }
}

/// A statement.
fn execute_one_at_once<'p>(
    p: &'p Program<'p>,
    statement: &'p Stmt,
    stacks: &mut Stacks<'p>,
    outside: &mut Outside,
) -> Result<bool, Halt>
    requires structures { AreWholeStructures (plain_types p.now.types) }
    ensures ok { IfOk result (λ done. (io : Around) (f : Open) (calls : List Open) → calls_in stacks.old.calls ≡ f ∷ calls → Does (plain_program p.now) (execute_statement (plain_statement statement.now)) stacks.old (state_of outside.old io) done stacks.new (state_of outside.new io)) }
    ensures err { IfErr result (λ e. e ≡ Halt.Memory) }
{
    Ok(execute_at_once(p, statement, &mut stacks.calls, &mut stacks.frame, outside))
}
