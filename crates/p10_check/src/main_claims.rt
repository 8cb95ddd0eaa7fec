//! The conditions on `main` and the total, K4 and K14.

ghost use Rattle.std.specs.Prelude.{◌≡◌, IfOk, Some, map, option_copied, option_map, slice_get};
ghost use Rattle.p10_core.specs.Views.{plain_function, plain_program, plain_statement};
ghost use Rattle.p10_cert.specs.Claims.{func_of, loop_of, claims_of};
ghost use Rattle.p10_absx.specs.Entering.{claims_on};
ghost use Rattle.p10_check.specs.Shapes.{has_some, is_main_wrong, head_in, head_at, task_head, main_turn, bounds_main};
ghost use Rattle.p10_check.specs.private.ShapesByTurn.{turn_by_loops};

use crate::claimed::{claim_at, numbers_claimed, turn_at, turn_claimed};
use crate::places::function_at;
use p10_cert::{Cert, FuncClaim, LoopClaim};
use p10_core::{Func, LoopHead, Program, Stmt, StmtForm};
use p10_flowrules::task_exits;
use std::alloc::{AllocError, Global};

/// Whether `main` has claims on parameters, or its task loop can be left.
pub(crate) fn is_main_wrong(
    alloc: Global,
    program: &Program<'_>,
    certificate: &Cert,
) -> Result<bool, AllocError>
    ensures { IfOk result (λ wrong. wrong ≡ is_main_wrong (plain_program program.now) (claims_of certificate.now).funcs) }
{
    let exits = task_exits(alloc, program)?;
    let main = program.main as usize;
    let wrong = has_parameters(certificate.funcs.as_slice(), main) || !exits.is_empty();
    Ok(wrong)
}

/// Whether the function with a number has claims on parameters.
fn has_parameters(functions: &[FuncClaim], number: usize) -> bool
    ensures { result ≡ has_some (claims_on (slice_get (map func_of functions.now) number)) }
{
    match claim_at(functions, number) {
        Some(claim) => !claim.params.as_slice().is_empty(),
        None => false,
    }
}

/// Whether the total is at least what is claimed of `main`, and this many steps of a turn of its task loop.
pub(crate) fn bounds_main(program: &Program<'_>, certificate: &Cert, turn: u64) -> bool
    ensures { result ≡ bounds_main (claims_of certificate.now).total (slice_get (claims_of certificate.now).funcs (plain_program program.now).main) turn }
{
    let claimed = numbers_claimed(certificate.funcs.as_slice(), program.main as usize);
    let total = &certificate.total;
    (claimed.steps <= total.prefix && turn <= total.turn)
        && (claimed.calls <= total.calls && claimed.bytes <= total.bytes)
}

/// The steps that are claimed of a turn of the task loop; 0 where there is none.
pub(crate) fn main_turn(program: &Program<'_>, functions: &[FuncClaim]) -> u64
    ensures { result ≡ main_turn (plain_program program.now) (map func_of functions.now) (slice_get (plain_program program.now).functions (plain_program program.now).main) }
{
    let main = program.main as usize;
    match function_at(program, main) {
        Some(function) => turn_claimed(functions, main, task_head(program, main, function)),
        None => 0,
    }
}

/// The steps that these claims on the loops of `main` give a turn of the task loop; 0 where there is none.
pub(crate) fn turn_by_loops(program: &Program<'_>, loops: &[LoopClaim]) -> u64
    ensures { result ≡ turn_by_loops (plain_program program.now) (map loop_of loops.now) (slice_get (plain_program program.now).functions (plain_program program.now).main) }
{
    let main = program.main as usize;
    match function_at(program, main) {
        Some(function) => turn_at(loops, task_head(program, main, function)),
        None => 0,
    }
}

/// What the task loop begins with, if the function with a number has it.
pub(crate) fn task_head(
    program: &Program<'_>,
    number: usize,
    function: &Func<'_>,
) -> Option<LoopHead>
    ensures { result ≡ task_head (plain_program program.now) number (plain_function function.now) }
{
    if number != program.main as usize {
        return None;
    }
    match program.task {
        Some(place) => head_at(function.body.as_slice(), place),
        None => None,
    }
}

/// What the loop begins with that stands at a place among items.
fn head_at(items: &[Stmt], place: u32) -> Option<LoopHead>
    ensures { result ≡ head_at (map plain_statement items.now) (Some place) }
{
    match item_at(items, place) {
        Some(item) => head_in(item),
        None => None,
    }
}

/// The item at a place.
fn item_at(items: &[Stmt], place: u32) -> Option<&Stmt>
    ensures { option_map (λ x. plain_statement x.now) result ≡ slice_get (map plain_statement items.now) place }
{
    items.get(place as usize)
}

/// What a statement begins with, if it is a loop.
fn head_in(item: &Stmt) -> Option<LoopHead>
    ensures { result ≡ head_in (Some (plain_statement item.now)) }
{
    match &item.form {
        StmtForm::Loop(head, _, _, _, _) => Some(*head),
        _ => None,
    }
}
