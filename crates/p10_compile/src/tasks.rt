//! The code of programs with a task loop. Each of these functions fails only where memory runs out.

ghost use Rattle.std.specs.Prelude.{◌≡◌, ◌+◌, ◌++◌, ◌∷◌, [], length, map, IfOk};
ghost use Rattle.std.specs.Option.{option_map};
ghost use Rattle.p10_core.specs.Views.{plain_program, plain_function, plain_value, plain_statement, plain_statements};
ghost use Rattle.p10_code.specs.Operations.{call, rest};
ghost use Rattle.p10_code.specs.ValueCode.{op};
ghost use Rattle.p10_code.specs.ProgramCode.{no_span, code_of};
ghost use Rattle.p10_code.specs.StatementCode.{statement_code};
ghost use Rattle.p10_code.specs.TaskCode.{over_op, first_items, first_code, task_test_code, task_exits, turn_code, task_entry, task_code, whole_code, whole_entries, turn_place};
ghost use Rattle.p10_compile.specs.Views.{plain_op, plain_entry, plain_exits, plain_site, plain_task};

use crate::code::{branched, ended, joined, led, none, op, operation_count, past, past_branch};
use crate::counts::place_after;
use crate::exits::{Exits, has_objects};
use crate::functions::{no_span, site_of};
use crate::heights::test_height;
use crate::needs::{need, statements_need};
use crate::operations::{Action, Entry, Op, Operand};
use crate::programs::{Code, compile};
use crate::site::Site;
use p10_core::{Func, Program, Stmt, Value};
use std::alloc::{AllocError, Global};

/// The task loop of a program: the function that it stands in, its place among the items of its body, its test and its body.
#[derive(Clone, Copy)]
pub struct TaskLoop<'p, 's> {
    pub function: &'p Func<'s>,
    pub place: u32,
    pub test: &'p Option<Value>,
    pub body: &'p Stmt,
}

/// The code of a program with a task loop, and where `main` up to the loop and a turn begin.
#[derive(Drop)]
pub struct TaskCode<'p> {
    pub code: Code<'p>,
    pub first: usize,
    pub turn: usize,
}

/// The code of a task loop, and where a turn begins.
#[derive(Drop)]
struct LoopCode<'p> {
    ops: Vec<Op<'p>>,
    turn: usize,
}

/// Compiles a program with a task loop: after its functions stand the part of `main` before the loop, and one turn. It fails only
/// where memory runs out.
pub fn compile_task<'p, 's>(
    alloc: Global,
    program: &'p Program<'s>,
    task: TaskLoop<'p, 's>,
) -> Result<TaskCode<'p>, AllocError>
    ensures ops { IfOk result (λ t. map plain_op t.code.ops.items ≡ whole_code (plain_program program.now) (plain_function task.entry.function.now) task.entry.place (plain_task task.entry)) }
    ensures entries { IfOk result (λ t. map plain_entry t.code.entries.items ≡ whole_entries (plain_program program.now) (plain_function task.entry.function.now) task.entry.place (plain_task task.entry)) }
    ensures first { IfOk result (λ t. t.first ≡ length (code_of (plain_program program.now))) }
    ensures turn { IfOk result (λ t. t.turn ≡ turn_place (plain_program program.now) (plain_function task.entry.function.now) task.entry.place) }
{
    let Code { ops, mut entries } = compile(alloc, program)?;
    let at = operation_count(ops.as_slice());
    entries.push(task_entry(task, place_after(at, 2)?)?)?;
    let LoopCode { ops: more, turn } = task_code(alloc, program, task, at)?;
    Ok(TaskCode {
        code: Code {
            ops: joined(ops, more)?,
            entries,
        },
        first: at,
        turn,
    })
}

/// The exits of the parts of a `main` with a task loop: `return` closes no objects of its outermost block, since the run is over.
fn task_exits(over: usize, again: usize) -> Exits
    ensures { plain_exits result ≡ task_exits over again }
{
    Exits {
        over,
        over_close: 0,
        again,
        again_close: 0,
        all_close: 0,
    }
}

/// The run is over without a value.
fn over_op<'p>() -> Op<'p>
    ensures { plain_op result ≡ over_op }
{
    op(0, no_span(), Action::Return(0, None))
}

/// The machine rests at its task loop, after so many steps.
fn rest_op<'p>(cost: u64, site: &Site<'_, '_>) -> Result<Op<'p>, AllocError>
    ensures { IfOk result (λ o. plain_op o ≡ op cost no_span (rest (length (plain_site site.now).variables))) }
{
    Ok(op(cost, no_span(), Action::Rest(site.free()?)))
}

/// The items of `main` before its task loop.
#[tactic(auto, using(crate::proofs::Rows::first_is, crate::proofs::Rows::all_first))]
fn first_items<'p>(f: &'p Func<'_>, place: u32) -> &'p [Stmt]
    ensures { plain_statements result.now ≡ first_items (plain_function f.now) place }
{
    let items = f.body.as_slice();
    let place = place as usize;
    if place < items.len() {
        &items[..place]
    } else {
        items
    }
}

/// The part of `main` before its task loop, whose statement step is paid before the machine rests.
fn first_code<'p, 's>(
    alloc: Global,
    program: &'p Program<'s>,
    f: &'p Func<'s>,
    place: u32,
    at: usize,
) -> Result<Vec<Op<'p>>, AllocError>
    ensures { IfOk result (λ code. map plain_op code.items ≡ first_code (plain_program program.now) (plain_function f.now) place at) }
{
    let site = site_of(alloc, program, f);
    let items = first_items(f, place);
    let body = site.statements_code(items, task_exits(at, at), place_after(at, 1)?)?;
    led(alloc, over_op(), ended(body, rest_op(1, &site)?)?)
}

/// The test of a task loop; where there is none, nothing is in its place.
fn task_test_code<'p, 's>(
    alloc: Global,
    program: &'p Program<'s>,
    f: &'p Func<'s>,
    test: &'p Option<Value>,
    at: usize,
    miss: usize,
) -> Result<Vec<Op<'p>>, AllocError>
    ensures { IfOk result (λ code. map plain_op code.items ≡ task_test_code (plain_program program.now) (plain_function f.now) (option_map plain_value test.now) at miss) }
{
    match test {
        Some(v) => {
            let site = site_of(alloc, program, f);
            let part = site.test_part(v, 0, at)?;
            let hit = past_branch(at, part.code.as_slice())?;
            branched(part, no_span(), hit, miss)
        }
        None => Ok(none(alloc)),
    }
}

/// A turn of the task loop: where `break` and `continue` go, the test, the body, and the rest.
fn turn_code<'p, 's>(
    alloc: Global,
    program: &'p Program<'s>,
    task: TaskLoop<'p, 's>,
    at: usize,
) -> Result<Vec<Op<'p>>, AllocError>
    ensures { IfOk result (λ code. map plain_op code.items ≡ turn_code (plain_program program.now) (plain_function task.entry.function.now) (plain_task task.entry) at) }
{
    let begins = place_after(at, 2)?;
    let test = task_test_code(alloc, program, task.function, task.test, begins, at)?;
    let site = site_of(alloc, program, task.function);
    let rest = turn_rest(&site, task.body, test, at)?;
    led(alloc, over_op(), led(alloc, rest_op(0, &site)?, rest)?)
}

/// What follows the first operations of a turn: its test, the body, and the rest.
fn turn_rest<'p>(
    site: &Site<'p, '_>,
    body: &'p Stmt,
    test: Vec<Op<'p>>,
    at: usize,
) -> Result<Vec<Op<'p>>, AllocError>
    ensures { IfOk result (λ code. map plain_op code.items ≡ map plain_op test.entry.items ++ (statement_code (plain_site site.now) (task_exits at (at + 1)) (at + 2 + length (map plain_op test.entry.items)) (plain_statement body.now) ++ op 0 no_span (rest (length (plain_site site.now).variables)) ∷ [])) }
{
    let exits = task_exits(at, place_after(at, 1)?);
    let body_at = past(place_after(at, 2)?, test.as_slice())?;
    let code = site.statement_code(body, exits, body_at)?;
    joined(test, ended(code, rest_op(0, site)?)?)
}

/// The entry of `main` up to its task loop, with room for its turns.
fn task_entry(task: TaskLoop<'_, '_>, at: usize) -> Result<Entry, AllocError>
    ensures { IfOk result (λ e. plain_entry e ≡ task_entry (plain_function task.entry.function.now) task.entry.place (plain_task task.entry) at) }
{
    let first = statements_need(first_items(task.function, task.place))?;
    let test = test_height(task.test)?;
    let body = need(task.body)?;
    Ok(Entry {
        at: place_after(at, 1)?,
        room: first.max(test.max(body)),
        tracked: has_objects(task.function.vars.as_slice()),
    })
}

/// The code of a task loop from a place on: a call of `main` by its entry, the first part, a turn.
fn task_code<'p, 's>(
    alloc: Global,
    program: &'p Program<'s>,
    task: TaskLoop<'p, 's>,
    at: usize,
) -> Result<LoopCode<'p>, AllocError>
    ensures ops { IfOk result (λ l. map plain_op l.ops.items ≡ task_code (plain_program program.now) (plain_function task.entry.function.now) task.entry.place (plain_task task.entry) at) }
    ensures turn { IfOk result (λ l. l.turn ≡ at + 2 + length (first_code (plain_program program.now) (plain_function task.entry.function.now) task.entry.place (at + 2)) + 2) }
{
    let begins = place_after(at, 2)?;
    let first = first_code(alloc, program, task.function, task.place, begins)?;
    let next = past(begins, first.as_slice())?;
    let rest = joined(first, turn_code(alloc, program, task, next)?)?;
    let over = op(0, no_span(), Action::Return(0, Some(Operand::Slot(0))));
    Ok(LoopCode {
        ops: led(alloc, main_call(program)?, led(alloc, over, rest)?)?,
        turn: place_after(next, 2)?,
    })
}

/// The call of `main` by the entry after those of the functions.
fn main_call<'p>(program: &Program<'_>) -> Result<Op<'p>, AllocError>
    ensures { IfOk result (λ o. plain_op o ≡ op 1 no_span (call 0 (plain_program program.now).main (length (plain_program program.now).functions) 0 0)) }
{
    let count = program.functions.as_slice().len();
    if count > 4_294_967_295 {
        return Err(AllocError);
    }
    Ok(op(
        1,
        no_span(),
        Action::Call(0, program.main, count as u32, 0, 0),
    ))
}
