//! The conditions on sums, K11 and K12.

ghost use Rattle.std.specs.Prelude.{◌≡◌, ◌++◌, OnOk, Some, map, slice_get};
ghost use Rattle.p10_core.specs.Views.{plain_function, plain_program};
ghost use Rattle.p10_core.specs.WholePrograms.{IsWholeProgram};
ghost use Rattle.p10_cert.specs.Claims.{func_of, claims_of};
ghost use Rattle.p10_check.specs.Conditions.{failing_at_each};
ghost use Rattle.p10_check.specs.Fails.{failures_of};
ghost use Rattle.p10_check.specs.Sums.{covers_sum, short_turn, short_steps, short_depths};
ghost use Rattle.p10_check.specs.private.Shortfalls.{short_steps_by, short_depths_by};

use crate::claimed::{numbers_claimed, turn_claimed};
use crate::failing::push_if;
use crate::main_claims::task_head;
use p10_base::{Limit, Span};
use p10_cert::{Cert, FuncClaim};
use p10_core::{Func, LoopHead, Program};
use p10_pass::Fail;
use p10_sums::{FuncSum, capped_sum_of};
use std::alloc::AllocError;

/// Puts down where the claims on the function with a number fall short of its sums.
pub(crate) fn push_short(
    program: &Program<'_>,
    certificate: &Cert,
    number: usize,
    function: &Func<'_>,
    failing: &mut Vec<Fail>,
) -> Result<(), AllocError>
    requires program { IsWholeProgram (plain_program program.now) }
    requires there { slice_get (plain_program program.now).functions number ≡ Some (plain_function function.now) }
    ensures { OnOk result (failures_of failing.new.items ≡ failures_of failing.old.items ++ (failing_at_each 11 (short_steps (plain_program program.now) (claims_of certificate.now).funcs number (plain_function function.now)) ++ failing_at_each 12 (short_depths (plain_program program.now) (claims_of certificate.now).funcs number (plain_function function.now)))) }
{
    let sum = capped_sum_of(program, certificate, number);
    let claims = certificate.funcs.as_slice();
    let head = task_head(program, number, function);
    push_short_steps(claims, number, function.span, &sum, failing)?;
    push_short_turn(claims, number, sum.turn, head, failing)?;
    push_short_depths(claims, number, function.span, &sum, failing)?;
    Ok(())
}

/// K11 of a function by its sum.
fn push_short_steps(
    claims: &[FuncClaim],
    number: usize,
    name: Span,
    sum: &FuncSum,
    failing: &mut Vec<Fail>,
) -> Result<(), AllocError>
    ensures { OnOk result (failures_of failing.new.items ≡ failures_of failing.old.items ++ failing_at_each 11 (short_steps_by (map func_of claims.now) number name sum.now)) }
{
    let claimed = numbers_claimed(claims, number);
    push_if(!covers_sum(claimed.steps, sum.steps), 11, name, failing)
}

/// K11 of its task loop, if it has one, by the sum of a turn.
fn push_short_turn(
    claims: &[FuncClaim],
    number: usize,
    turn: u64,
    head: Option<LoopHead>,
    failing: &mut Vec<Fail>,
) -> Result<(), AllocError>
    ensures { OnOk result (failures_of failing.new.items ≡ failures_of failing.old.items ++ failing_at_each 11 (short_turn (map func_of claims.now) number turn head)) }
{
    match head {
        Some(begun) => {
            let claimed = turn_claimed(claims, number, head);
            push_if(!covers_sum(claimed, turn), 11, begun.span, failing)
        }
        None => Ok(()),
    }
}

/// K12 of a function by its sum.
fn push_short_depths(
    claims: &[FuncClaim],
    number: usize,
    name: Span,
    sum: &FuncSum,
    failing: &mut Vec<Fail>,
) -> Result<(), AllocError>
    ensures { OnOk result (failures_of failing.new.items ≡ failures_of failing.old.items ++ failing_at_each 12 (short_depths_by (map func_of claims.now) number name sum.now)) }
{
    let claimed = numbers_claimed(claims, number);
    let covered = covers_sum(claimed.calls, sum.calls) && covers_sum(claimed.bytes, sum.bytes);
    push_if(!covered, 12, name, failing)
}

/// Whether a claim is at least a sum, which is no greater than sums may be.
fn covers_sum(claim: u64, sum: u64) -> bool
    ensures { result ≡ covers_sum claim sum }
{
    sum <= claim && sum <= Limit::MOST_SUM
}
