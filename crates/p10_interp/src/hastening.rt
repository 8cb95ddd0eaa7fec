//! Work that is done at once, piece after piece, as long as it can be.

ghost use Rattle.std.specs.Prelude.{◌≡◌, ◌∷◌, ◌<◌, List, IfOk, IfErr, OnOk, IsTrue};
ghost use Rattle.p10_base.specs.declared.at.At.{At};
ghost use Rattle.p10_core.specs.Views.{plain_program, plain_types, plain_statement, plain_statements};
ghost use Rattle.p10_core.specs.WholePrograms.{AreWholeStructures};
ghost use Rattle.p10_core.specs.Typed.{PlainProgram, statement, block};
ghost use Rattle.p10_meaning.specs.States.{State};
ghost use Rattle.p10_meaning.specs.Statements.{normal};
ghost use Rattle.p10_interp.specs.private.Tasks.{Open, execute_statement, end_turn};
ghost use Rattle.p10_interp.specs.private.OpenCalls.{calls_in};
ghost use Rattle.p10_interp.specs.private.Machines.{Around, state_of, rig_of};
ghost use Rattle.p10_interp.specs.private.Views.{in_loop, statement_task, task_of};
ghost use Rattle.p10_interp.specs.private.Turning.{Goes, ActsOn};

use crate::doing_at_once::do_at_once;
use crate::leaving::end_block;
use crate::outside::Outside;
use crate::stacks::Stacks;
use crate::statements::{begin_block, is_nothing};
use crate::turns::end_turn;
use crate::work::{Halt, StatementStep, Work};
use p10_core::{Program, Stmt, StmtForm};

/// How many pieces of work without a step are done in a row.
const ROW: u32 = 8;

/// Does work at once, as long as it can be.
pub fn hasten<'p>(
    p: &'p Program<'p>,
    stacks: &mut Stacks<'p>,
    outside: &mut Outside,
) -> Result<(), Halt>
    requires structures { AreWholeStructures (plain_types p.now.types) }
    ensures ok { OnOk result ((io : Around) → Goes (plain_program p.now) (rig_of normal stacks.old) (state_of outside.old io) (rig_of normal stacks.new) (state_of outside.new io)) }
    ensures err { IfErr result (λ e. e ≡ Halt.Memory) }
{
    'pieces: loop {
        match hasten_once(p, stacks, outside) {
            Ok(again) => {
                if !again {
                    return Ok(());
                }
            }
            Err(halt) => return Err(halt),
        }
    }
}

/// Does the piece of work on top at once, if it can be, after the pieces without a step; answers whether it took a step.
fn hasten_once<'p>(
    p: &'p Program<'p>,
    stacks: &mut Stacks<'p>,
    outside: &mut Outside,
) -> Result<bool, Halt>
    requires structures { AreWholeStructures (plain_types p.now.types) }
    ensures ok { OnOk result ((io : Around) → Goes (plain_program p.now) (rig_of normal stacks.old) (state_of outside.old io) (rig_of normal stacks.new) (state_of outside.new io)) }
    ensures fewer { IfOk result (λ again. IsTrue again → outside.new.left < outside.old.left) }
    ensures err { IfErr result (λ e. e ≡ Halt.Memory) }
{
    match settle(p, stacks, outside) {
        Ok(()) => do_top(p, stacks, outside),
        Err(halt) => Err(halt),
    }
}

/// Does the piece of work on top at once, if it can be.
fn do_top<'p>(
    p: &'p Program<'p>,
    stacks: &mut Stacks<'p>,
    outside: &mut Outside,
) -> Result<bool, Halt>
    requires structures { AreWholeStructures (plain_types p.now.types) }
    ensures ok { OnOk result ((io : Around) → Goes (plain_program p.now) (rig_of normal stacks.old) (state_of outside.old io) (rig_of normal stacks.new) (state_of outside.new io)) }
    ensures fewer { IfOk result (λ again. IsTrue again → outside.new.left < outside.old.left) }
    ensures err { IfErr result (λ e. e ≡ Halt.Memory) }
{
    if stacks.tasks.is_empty() {
        return Ok(false);
    }
    let Some(work) = stacks.tasks.pop() else {
        return Err(Halt::Memory);
    };
    let done = do_at_once(p, work, stacks, outside)?;
    if done {
        return Ok(true);
    }
    stacks.tasks.push(work)?;
    Ok(false)
}

/// Does the pieces of work on top that take no step.
fn settle<'p>(
    p: &'p Program<'p>,
    stacks: &mut Stacks<'p>,
    outside: &mut Outside,
) -> Result<(), Halt>
    ensures ok { OnOk result ((io : Around) → Goes (plain_program p.now) (rig_of normal stacks.old) (state_of outside.old io) (rig_of normal stacks.new) (state_of outside.new io)) }
    ensures err { IfErr result (λ e. e ≡ Halt.Memory) }
{
    'pieces: for _ in 0..ROW {
        match settle_top(p, stacks, outside) {
            Ok(again) => {
                if !again {
                    return Ok(());
                }
            }
            Err(halt) => return Err(halt),
        }
    }
    Ok(())
}

/// Does the piece of work on top, if it takes no step.
fn settle_top<'p>(
    p: &'p Program<'p>,
    stacks: &mut Stacks<'p>,
    outside: &mut Outside,
) -> Result<bool, Halt>
    ensures ok { OnOk result ((io : Around) → Goes (plain_program p.now) (rig_of normal stacks.old) (state_of outside.old io) (rig_of normal stacks.new) (state_of outside.new io)) }
    ensures err { IfErr result (λ e. e ≡ Halt.Memory) }
{
    if !stacks.tasks.may_settle() {
        return Ok(false);
    }
    let Some(work) = stacks.tasks.pop() else {
        return Err(Halt::Memory);
    };
    let done = settle_work(p, work, stacks, outside)?;
    if done {
        return Ok(true);
    }
    stacks.tasks.push(work)?;
    Ok(false)
}

/// Does a piece of work that takes no step: the end of a block or of a turn of a loop, the beginning of a block, or no statements.
/// Where it is another one, nothing is changed.
fn settle_work<'p>(
    p: &'p Program<'p>,
    work: Work<'p>,
    stacks: &mut Stacks<'p>,
    outside: &mut Outside,
) -> Result<bool, Halt>
    ensures ok { IfOk result (λ done. (io : Around) → ActsOn (plain_program p.now) (task_of work.entry) stacks.old (state_of outside.old io) done stacks.new (state_of outside.new io)) }
    ensures err { IfErr result (λ e. e ≡ Halt.Memory) }
{
    let _ = p;
    if stacks.calls.is_idle() {
        return Ok(false);
    }
    match work {
        Work::EndBlock => {
            end_block(stacks, outside);
            Ok(true)
        }
        Work::Statement(step, statement) => settle_step(step, statement, stacks),
        Work::ExecuteStatements(statements) => Ok(is_nothing(statements)),
        _ => Ok(false),
    }
}

/// What is to be done with a statement.
fn settle_step<'p>(
    step: StatementStep,
    statement: &'p Stmt,
    stacks: &mut Stacks<'p>,
) -> Result<bool, Halt>
    ensures ok { IfOk result (λ done. (p : PlainProgram) (w : State) (f : Open) (calls : List Open) → calls_in stacks.old.calls ≡ f ∷ calls → ActsOn p (statement_task step (plain_statement statement.now)) stacks.old w done stacks.new w) }
    ensures err { IfErr result (λ e. e ≡ Halt.Memory) }
{
    match step {
        StatementStep::EndTurn => settle_turn(statement, stacks),
        StatementStep::Execute => settle_statement(statement, stacks),
        _ => Ok(false),
    }
}

/// The end of a turn.
fn settle_turn<'p>(statement: &'p Stmt, stacks: &mut Stacks<'p>) -> Result<bool, Halt>
    ensures ok { IfOk result (λ done. (p : PlainProgram) (w : State) (f : Open) (calls : List Open) → calls_in stacks.old.calls ≡ f ∷ calls → ActsOn p (in_loop (λ keyword l. end_turn l) (plain_statement statement.now)) stacks.old w done stacks.new w) }
    ensures err { IfErr result (λ e. e ≡ Halt.Memory) }
{
    match end_turn(statement, stacks) {
        Ok(()) => Ok(true),
        Err(_) => Err(Halt::Memory),
    }
}

/// A block begins; any other statement is left.
fn settle_statement<'p>(statement: &'p Stmt, stacks: &mut Stacks<'p>) -> Result<bool, Halt>
    ensures ok { IfOk result (λ done. (p : PlainProgram) (w : State) (f : Open) (calls : List Open) → calls_in stacks.old.calls ≡ f ∷ calls → ActsOn p (execute_statement (plain_statement statement.now)) stacks.old w done stacks.new w) }
    ensures err { IfErr result (λ e. e ≡ Halt.Memory) }
{
    match &statement.form {
        StmtForm::Block(items) => settle_block(items.as_slice(), stacks),
        _ => Ok(false),
    }
}

/// A block begins.
fn settle_block<'p>(items: &'p [Stmt], stacks: &mut Stacks<'p>) -> Result<bool, Halt>
    ensures ok { IfOk result (λ done. (p : PlainProgram) (w : State) (f : Open) (calls : List Open) → calls_in stacks.old.calls ≡ f ∷ calls → (at : At) → ActsOn p (execute_statement (statement at (block (plain_statements items.now)))) stacks.old w done stacks.new w) }
    ensures err { IfErr result (λ e. e ≡ Halt.Memory) }
{
    match begin_block(items, stacks) {
        Ok(()) => Ok(true),
        Err(_) => Err(Halt::Memory),
    }
}
