//! What one function costs, without memory.

ghost use Rattle.std.specs.Prelude.{◌≡◌, ◌+◌, min, map, option_map, option_copied, slice_get, sum, Some, take, false};
ghost use Rattle.p10_base.specs.declared.report.TheConstants.Limit.{MOST_SUM};
ghost use Rattle.p10_core.specs.Typed.{statements_list, statements_of_list};
ghost use Rattle.p10_core.specs.Views.{plain_program, plain_value, plain_statement, plain_statements, plain_function, plain_variable};
ghost use Rattle.p10_core.specs.WholePrograms.{AreWholeStructures, IsWholeProgram};
ghost use Rattle.p10_cert.specs.Claims.{func_of, loop_of, claims_of};
ghost use Rattle.p10_meaning.specs.Runs.{task_in};
ghost use Rattle.p10_sums.specs.Counting.{task_of, loops_claimed};
ghost use Rattle.p10_sums.specs.Sums.{sum_at, sum_under, limited};
ghost use Rattle.p10_sums.specs.private.Tallies.{counting_by, capped};
ghost use Rattle.p10_sums.specs.private.Totals.{capped_sum, task_test_tally, turn_tally};

use crate::basis::{Basis, claim_at};
use crate::statements::{statement_tally, statements_tally};
use crate::sum::FuncSum;
use crate::tally::{Tally, capped, in_turn, no_tally, plus};
use crate::values::value_tally;
use p10_base::Limit;
use p10_cert::{Cert, FuncClaim, LoopClaim};
use p10_core::{Func, Program, Stmt, StmtForm, Value, Variable};

/// What the function with a number costs, by what a certificate claims of its callees and of its loops; nothing where there is
/// no such function. Of a function or a loop that the certificate doesn't have nothing is claimed. It takes no memory.
///
/// # Errors
///
/// M9 where a sum exceeds 10^18.
pub fn sum_of(program: &Program<'_>, certificate: &Cert, function: u32) -> Result<FuncSum, Limit>
    requires program { IsWholeProgram (plain_program program.now) }
    ensures { result ≡ limited (sum_at (plain_program program.now) (claims_of certificate.now).funcs function) }
{
    limited_sum(program, certificate.funcs.as_slice(), function as usize)
}

/// What the function with a number costs, as [`sum_of`] has it, where each sum over 10^18 counts as 10^18 + 1. It takes no memory.
#[tactic(auto, unfolding(crate::specs::private::Totals::capped_sum, crate::specs::private::Tallies::capped))]
pub fn capped_sum_of(program: &Program<'_>, certificate: &Cert, function: usize) -> FuncSum
    requires program { IsWholeProgram (plain_program program.now) }
    ensures steps { result.steps ≡ min (sum_at (plain_program program.now) (claims_of certificate.now).funcs function).steps (MOST_SUM + 1) }
    ensures calls { result.calls ≡ min (sum_at (plain_program program.now) (claims_of certificate.now).funcs function).calls (MOST_SUM + 1) }
    ensures bytes { result.bytes ≡ min (sum_at (plain_program program.now) (claims_of certificate.now).funcs function).bytes (MOST_SUM + 1) }
    ensures alloc { result.alloc ≡ (sum_at (plain_program program.now) (claims_of certificate.now).funcs function).alloc }
    ensures turn { result.turn ≡ min (sum_at (plain_program program.now) (claims_of certificate.now).funcs function).turn (MOST_SUM + 1) }
{
    sum_at(program, certificate.funcs.as_slice(), function)
}

/// What the function with a number costs, or M9.
pub(crate) fn limited_sum(
    program: &Program<'_>,
    functions: &[FuncClaim],
    number: usize,
) -> Result<FuncSum, Limit>
    requires structures { AreWholeStructures (plain_program program.now).structures }
    ensures { result ≡ limited (sum_at (plain_program program.now) (map func_of functions.now) number) }
{
    let sum = sum_at(program, functions, number);
    if sum.keeps_limit() {
        Ok(sum)
    } else {
        Err(Limit::SUM)
    }
}

/// What the function with a number costs, each sum up to one more than the greatest that is allowed.
fn sum_at(program: &Program<'_>, functions: &[FuncClaim], number: usize) -> FuncSum
    requires structures { AreWholeStructures (plain_program program.now).structures }
    ensures { result ≡ capped_sum (sum_at (plain_program program.now) (map func_of functions.now) number) }
{
    match function_at(program, number) {
        Some(function) => {
            let basis = Basis {
                program,
                variables: function.vars.as_slice(),
                functions,
                loops: claimed_loops(functions, number),
            };
            sum_under(&basis, function, task_place(program, number))
        }
        None => no_sum(),
    }
}

/// No sum.
#[tactic(auto, unfolding(crate::specs::private::Totals::capped_sum))]
fn no_sum() -> FuncSum
    ensures { result ≡ capped_sum (record { steps = 0; calls = 0; bytes = 0; alloc = false; turn = 0 }) }
{
    let zero = capped(0);
    FuncSum {
        steps: zero,
        calls: zero,
        bytes: zero,
        alloc: false,
        turn: zero,
    }
}

/// What a function costs that has its task loop at a place of its body, or has none.
fn sum_under(basis: &Basis<'_, '_>, function: &Func<'_>, task: Option<u32>) -> FuncSum
    requires structures { AreWholeStructures (plain_program basis.now.program.now).structures }
    ensures { result ≡ capped_sum (sum_under (counting_by basis.now) task (plain_function function.now)) }
{
    let frame = frame_bytes(function.vars.as_slice());
    let items = function.body.as_slice();
    let whole = statements_tally(basis, items);
    match task {
        Some(place) => {
            let before = statements_tally(basis, items_before(items, place));
            let turn = turn_tally(basis, items, place);
            FuncSum {
                steps: plus(plus(1, before.steps), 1),
                calls: plus(1, whole.calls),
                bytes: plus(frame, whole.bytes),
                alloc: whole.alloc,
                turn: turn.steps,
            }
        }
        None => FuncSum {
            steps: plus(1, whole.steps),
            calls: plus(1, whole.calls),
            bytes: plus(frame, whole.bytes),
            alloc: whole.alloc,
            turn: 0,
        },
    }
}

/// The function with a number.
fn function_at<'a, 's>(program: &'a Program<'s>, number: usize) -> Option<&'a Func<'s>>
    ensures { option_map plain_function (option_copied result) ≡ slice_get (plain_program program.now).functions number }
{
    program.functions.as_slice().get(number)
}

/// What is claimed of the loops of the function with a number.
fn claimed_loops(functions: &[FuncClaim], number: usize) -> &[LoopClaim]
    ensures { map loop_of result.now ≡ loops_claimed (slice_get (map func_of functions.now) number) }
{
    match claim_at(functions, number) {
        Some(claim) => claim.loops.as_slice(),
        None => &[],
    }
}

/// The place of the task loop in the body of the function with a number, if it has one.
fn task_place(program: &Program<'_>, number: usize) -> Option<u32>
    ensures { result ≡ task_of (plain_program program.now) number }
{
    if number == program.main as usize {
        program.task
    } else {
        None
    }
}

/// The bytes of a frame with these variables, up to one more than the greatest sum that is allowed.
fn frame_bytes(variables: &[Variable<'_>]) -> u64
    ensures { result ≡ capped (sum (map (λ v. v.bytes) (map plain_variable variables.now))) }
{
    let mut total = 0;
    for variable in variables {
        total = plus(total, variable.bytes);
    }
    total
}

/// The items before a place, or all where there are fewer.
fn items_before(items: &[Stmt], place: u32) -> &[Stmt]
    ensures { plain_statements result.now ≡ statements_of_list (take place (statements_list (plain_statements items.now))) }
{
    let place = place as usize;
    if place < items.len() {
        &items[..place]
    } else {
        items
    }
}

/// The tally of a turn of the task loop that stands at a place.
fn turn_tally(basis: &Basis<'_, '_>, items: &[Stmt], place: u32) -> Tally
    requires structures { AreWholeStructures (plain_program basis.now.program.now).structures }
    ensures { result ≡ turn_tally (counting_by basis.now) (task_in (slice_get (map plain_statement items.now) place)) }
{
    match item_at(items, place) {
        Some(item) => item_tally(basis, item),
        None => no_tally(),
    }
}

/// The item at a place.
fn item_at(items: &[Stmt], place: u32) -> Option<&Stmt>
    ensures { option_map (λ x. plain_statement x.now) result ≡ slice_get (map plain_statement items.now) place }
{
    items.get(place as usize)
}

/// The tally of a turn of an item, if it is a loop.
fn item_tally(basis: &Basis<'_, '_>, item: &Stmt) -> Tally
    requires structures { AreWholeStructures (plain_program basis.now.program.now).structures }
    ensures { result ≡ turn_tally (counting_by basis.now) (task_in (Some (plain_statement item.now))) }
{
    match &item.form {
        StmtForm::Loop(_, _, test, _, body) => {
            let tested = task_test_tally(basis, test);
            in_turn(tested, statement_tally(basis, body))
        }
        _ => no_tally(),
    }
}

/// The tally of the test of a task loop, if it has one.
fn task_test_tally(basis: &Basis<'_, '_>, test: &Option<Value>) -> Tally
    ensures { result ≡ task_test_tally (counting_by basis.now) (option_map plain_value test.now) }
{
    match test {
        Some(value) => value_tally(basis, value),
        None => no_tally(),
    }
}
