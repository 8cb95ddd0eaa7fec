//! Turns of loops that are taken at once: the statements of the body and those of the third clause, one after the other, as long as
//! each is executed at once. What is left of them becomes work on the stack.

ghost use Rattle.std.specs.Prelude.{◌≡◌, ◌∷◌, ◌<◌, List, OnOk, IfOk, IfErr, IfSome, Some, None, option_map};
ghost use Rattle.p10_base.specs.declared.at.At.{At};
ghost use Rattle.p10_core.specs.Typed.{statement, block};
ghost use Rattle.p10_core.specs.Views.{plain_program, plain_types, plain_value, plain_statement, plain_statements};
ghost use Rattle.p10_core.specs.WholePrograms.{AreWholeStructures};
ghost use Rattle.p10_meaning.specs.Statements.{normal};
ghost use Rattle.p10_interp.specs.private.Tasks.{Open, Loop, execute_statement, test_loop, end_turn, end_block, execute_statements};
ghost use Rattle.p10_interp.specs.private.Views.{in_loop, tasks_in};
ghost use Rattle.p10_interp.specs.private.OpenCalls.{calls_in};
ghost use Rattle.p10_interp.specs.private.Machines.{Around, state_of, rig_of};
ghost use Rattle.p10_interp.specs.private.Turning.{Does, Goes, IsRow, IsTested, AreTaken, left_by, block_by, rig_at};

use crate::calls::Calls;
use crate::held::Held;
use crate::outside::Outside;
use crate::scalars::is_true;
use crate::stacks::Stacks;
use crate::statements::is_nothing;
use crate::statements_at_once::{execute_at_once, number_in_call};
use crate::stopped::Stopped;
use crate::work::{Halt, StatementStep, Work};
use p10_core::{Program, Stmt, StmtForm, Value};
use p10_meaning::Scalar;

/// The test of a loop, and where it is true, turns of it.
pub fn test_at_once<'p>(
    p: &'p Program<'p>,
    statement: &'p Stmt,
    stacks: &mut Stacks<'p>,
    outside: &mut Outside,
) -> Result<bool, Halt>
    requires structures { AreWholeStructures (plain_types p.now.types) }
    ensures ok { IfOk result (λ done. (io : Around) (f : Open) (calls : List Open) → calls_in stacks.old.calls ≡ f ∷ calls → Does (plain_program p.now) (in_loop (λ keyword l. test_loop l) (plain_statement statement.now)) stacks.old (state_of outside.old io) done stacks.new (state_of outside.new io)) }
    ensures err { IfErr result (λ e. e ≡ Halt.Memory) }
{
    match &statement.form {
        StmtForm::Loop(_, _, tested, third, body) => {
            test_by_number(
                p,
                statement,
                (tested, third.as_slice(), body),
                stacks,
                outside,
            )
        }
        _ => Ok(false),
    }
}

/// The test of a loop that comes to a number; where it is true, turns are taken.
fn test_by_number<'p>(
    p: &'p Program<'p>,
    statement: &'p Stmt,
    parts: (&'p Option<Value>, &'p [Stmt], &'p Stmt),
    stacks: &mut Stacks<'p>,
    outside: &mut Outside,
) -> Result<bool, Halt>
    requires structures { AreWholeStructures (plain_types p.now.types) }
    ensures ok { IfOk result (λ done. (io : Around) (f : Open) (calls : List Open) (l : Loop) → l.tested ≡ option_map plain_value parts.entry.0.now → l.third ≡ plain_statements parts.entry.1.now → l.body ≡ plain_statement parts.entry.2.now → in_loop (λ keyword l. test_loop l) (plain_statement statement.now) ≡ test_loop l → in_loop (λ keyword l. end_turn l) (plain_statement statement.now) ≡ end_turn l → calls_in stacks.old.calls ≡ f ∷ calls → Does (plain_program p.now) (test_loop l) stacks.old (state_of outside.old io) done stacks.new (state_of outside.new io)) }
    ensures err { IfErr result (λ e. e ≡ Halt.Memory) }
{
    let (tested, third, body) = parts;
    let Some(value) = tested else {
        return Ok(false);
    };
    match is_tested(p, value, &stacks.calls, outside) {
        Some(true) => {
            take_turn(p, statement, (value, third, body), stacks, outside)?;
            Ok(true)
        }
        Some(false) => Ok(true),
        None => Ok(false),
    }
}

/// Whether the test of a loop is true, if it comes to a number: otherwise nothing is changed.
#[inline(always)]
fn is_tested(
    p: &Program<'_>,
    tested: &Value,
    calls: &Calls<'_>,
    outside: &mut Outside,
) -> Option<bool>
    requires structures { AreWholeStructures (plain_types p.now.types) }
    ensures found { IfSome result (λ holds. (io : Around) (f : Open) (around : List Open) → calls_in calls.now ≡ f ∷ around → IsTested (plain_program p.now) (plain_value tested.now) f holds (state_of outside.old io) (state_of outside.new io)) }
    ensures fewer { IfSome result (λ holds. outside.new.left < outside.old.left) }
    ensures unfound { result ≡ None → outside.new ≡ outside.old }
{
    let mut left = outside.left;
    let number = number_in_call(p, tested, calls, outside, &mut left);
    if left == 0 {
        return None;
    }
    if left >= outside.left {
        return None;
    }
    outside.left = left;
    Some(is_true(Scalar::Int(number)))
}

/// Takes turns of a loop after its test.
fn take_turn<'p>(
    p: &'p Program<'p>,
    statement: &'p Stmt,
    parts: (&'p Value, &'p [Stmt], &'p Stmt),
    stacks: &mut Stacks<'p>,
    outside: &mut Outside,
) -> Result<(), Halt>
    requires structures { AreWholeStructures (plain_types p.now.types) }
    ensures ok { OnOk result ((io : Around) (f : Open) (calls : List Open) (l : Loop) → l.tested ≡ Some (plain_value parts.entry.0.now) → l.third ≡ plain_statements parts.entry.1.now → l.body ≡ plain_statement parts.entry.2.now → in_loop (λ keyword l. test_loop l) (plain_statement statement.now) ≡ test_loop l → in_loop (λ keyword l. end_turn l) (plain_statement statement.now) ≡ end_turn l → calls_in stacks.old.calls ≡ f ∷ calls → Goes (plain_program p.now) (rig_at (execute_statement l.body ∷ (end_turn l ∷ tasks_in stacks.old.tasks)) stacks.old.operands (calls_in stacks.old.calls)) (state_of outside.old io) (rig_of normal stacks.new) (state_of outside.new io)) }
    ensures err { IfErr result (λ e. e ≡ Halt.Memory) }
{
    let (tested, third, body) = parts;
    match &body.form {
        StmtForm::Block(items) => {
            let parts = (tested, third, items.as_slice());
            let stopped = take_turns(p, parts, &mut stacks.calls, &mut stacks.frame, outside);
            leave_turn(statement, stopped, stacks)?;
            Ok(())
        }
        _ => {
            leave_body(statement, body, stacks)?;
            Ok(())
        }
    }
}

/// Takes turns of a loop, the body first, and says where they have stopped.
fn take_turns<'p>(
    p: &'p Program<'p>,
    parts: (&'p Value, &'p [Stmt], &'p [Stmt]),
    calls: &mut Calls<'_>,
    frame: &mut Vec<Held>,
    outside: &mut Outside,
) -> Stopped<'p>
    requires structures { AreWholeStructures (plain_types p.now.types) }
    ensures { (at : At) (io : Around) (f : Open) (around : List Open) (l : Loop) → l.tested ≡ Some (plain_value parts.entry.0.now) → l.third ≡ plain_statements parts.entry.1.now → l.body ≡ statement at (block (plain_statements parts.entry.2.now)) → calls_in calls.old ≡ f ∷ around → AreTaken (plain_program p.now) l (left_by result l) (block_by result) f around (state_of outside.old io) (calls_in calls.new) (state_of outside.new io) }
{
    let (tested, third, items) = parts;
    loop {
        let before = outside.left;
        let rest = execute_row(p, items, calls, frame, outside);
        if !is_nothing(rest) {
            return Stopped::InBody(rest);
        }
        let rest = execute_row(p, third, calls, frame, outside);
        if !is_nothing(rest) {
            return Stopped::InThird(rest);
        }
        // Steps are only paid, so this never comes; it shows that no turn leaves more of them than there were.
        if before < outside.left {
            return Stopped::AtTest;
        }
        match is_tested(p, tested, calls, outside) {
            Some(true) => {}
            Some(false) => return Stopped::AtEnd,
            None => return Stopped::AtTest,
        }
    }
}

/// What is left of turns becomes work.
fn leave_turn<'p>(
    statement: &'p Stmt,
    stopped: Stopped<'p>,
    stacks: &mut Stacks<'p>,
) -> Result<(), Halt>
    ensures ok { OnOk result ((f : Open) (around : List Open) (l : Loop) → in_loop (λ keyword l. test_loop l) (plain_statement statement.now) ≡ test_loop l → in_loop (λ keyword l. end_turn l) (plain_statement statement.now) ≡ end_turn l → calls_in stacks.old.calls ≡ f ∷ around → rig_of normal stacks.new ≡ rig_at (left_by stopped.entry l (tasks_in stacks.old.tasks)) stacks.old.operands (block_by stopped.entry f ∷ around)) }
    ensures err { IfErr result (λ e. e ≡ Halt.Memory) }
{
    match stopped {
        Stopped::AtTest => leave_test(statement, stacks),
        Stopped::AtEnd => Ok(()),
        Stopped::InBody(items) => {
            stacks.calls.enter_block()?;
            leave_items(statement, items, stacks)
        }
        Stopped::InThird(rest) => {
            leave_test(statement, stacks)?;
            stacks.tasks.push(Work::ExecuteStatements(rest))
        }
    }
}

/// The body, which can't be executed at once, becomes work, and the end of the turn after it.
fn leave_body<'p>(statement: &'p Stmt, body: &'p Stmt, stacks: &mut Stacks<'p>) -> Result<(), Halt>
    ensures ok { OnOk result ((l : Loop) → l.body ≡ plain_statement body.now → in_loop (λ keyword l. end_turn l) (plain_statement statement.now) ≡ end_turn l → rig_of normal stacks.new ≡ rig_at (execute_statement l.body ∷ (end_turn l ∷ tasks_in stacks.old.tasks)) stacks.old.operands (calls_in stacks.old.calls)) }
    ensures err { IfErr result (λ e. e ≡ Halt.Memory) }
{
    stacks
        .tasks
        .push(Work::Statement(StatementStep::EndTurn, statement))?;
    stacks
        .tasks
        .push(Work::Statement(StatementStep::Execute, body))?;
    Ok(())
}

/// The items of the body that are left become work, and after them the ends of the block and of the turn.
fn leave_items<'p>(
    statement: &'p Stmt,
    items: &'p [Stmt],
    stacks: &mut Stacks<'p>,
) -> Result<(), Halt>
    ensures ok { OnOk result ((l : Loop) → in_loop (λ keyword l. end_turn l) (plain_statement statement.now) ≡ end_turn l → rig_of normal stacks.new ≡ rig_at (execute_statements (plain_statements items.now) ∷ (end_block ∷ (end_turn l ∷ tasks_in stacks.old.tasks))) stacks.old.operands (calls_in stacks.old.calls)) }
    ensures err { IfErr result (λ e. e ≡ Halt.Memory) }
{
    stacks
        .tasks
        .push(Work::Statement(StatementStep::EndTurn, statement))?;
    stacks.tasks.push(Work::EndBlock)?;
    stacks.tasks.push(Work::ExecuteStatements(items))?;
    Ok(())
}

/// The test of a loop becomes work.
fn leave_test<'p>(statement: &'p Stmt, stacks: &mut Stacks<'p>) -> Result<(), Halt>
    ensures ok { OnOk result (rig_of normal stacks.new ≡ rig_at (in_loop (λ keyword l. test_loop l) (plain_statement statement.now) ∷ tasks_in stacks.old.tasks) stacks.old.operands (calls_in stacks.old.calls)) }
    ensures err { IfErr result (λ e. e ≡ Halt.Memory) }
{
    stacks
        .tasks
        .push(Work::Statement(StatementStep::TestLoop, statement))?;
    Ok(())
}

/// Executes the first of these statements, as long as each is executed at once, and gives those that are left.
pub fn execute_row<'p>(
    p: &'p Program<'p>,
    statements: &'p [Stmt],
    calls: &mut Calls<'_>,
    frame: &mut Vec<Held>,
    outside: &mut Outside,
) -> &'p [Stmt]
    requires structures { AreWholeStructures (plain_types p.now.types) }
    ensures { (io : Around) (f : Open) (around : List Open) → calls_in calls.old ≡ f ∷ around → IsRow (plain_program p.now) (plain_statements statements.now) (plain_statements result.now) f around (state_of outside.old io) (calls_in calls.new) (state_of outside.new io) }
{
    let mut left = statements;
    while let [first, rest @ ..] = left {
        if !execute_at_once(p, first, calls, frame, outside) {
            return left;
        }
        left = rest;
    }
    left
}
