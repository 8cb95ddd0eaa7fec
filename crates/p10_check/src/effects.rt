//! The condition on allocation, K13.

ghost use Rattle.std.specs.Prelude.{◌≡◌, ◌++◌, OnOk, Some, map, slice_get};
ghost use Rattle.p10_core.specs.Views.{plain_function, plain_program};
ghost use Rattle.p10_core.specs.WholePrograms.{IsWholeProgram};
ghost use Rattle.p10_cert.specs.Claims.{func_of, claims_of};
ghost use Rattle.p10_check.specs.Places.{place_if};
ghost use Rattle.p10_check.specs.Shapes.{has_hidden_effect, late_names, hidden_effects};
ghost use Rattle.p10_check.specs.Conditions.{failing_at_each};
ghost use Rattle.p10_check.specs.Fails.{failures_of};
ghost use Rattle.p10_check.specs.private.Shortfalls.{hides_effect};

use crate::claimed::numbers_claimed;
use crate::failing::push_if;
use p10_cert::{Cert, FuncClaim};
use p10_core::{Func, Program};
use p10_flowrules::AnyCall;
use p10_pass::Fail;
use p10_sums::{FuncSum, capped_sum_of};
use std::alloc::AllocError;

/// Puts down the functions that may allocate or free memory and aren't claimed to, and in `main` the calls after its mark that do, which
/// are given.
pub(crate) fn push_effects(
    program: &Program<'_>,
    certificate: &Cert,
    late: &[AnyCall],
    failing: &mut Vec<Fail>,
) -> Result<(), AllocError>
    requires program { IsWholeProgram (plain_program program.now) }
    ensures { OnOk result (failures_of failing.new.items ≡ failures_of failing.old.items ++ failing_at_each 13 (hidden_effects (plain_program program.now) (claims_of certificate.now).funcs late.now)) }
{
    let functions = program.functions.as_slice();
    for number in 0..functions.len() {
        push_effects_of(
            program,
            certificate,
            late,
            number,
            &functions[number],
            failing,
        )?;
    }
    Ok(())
}

/// The same for the function with a number.
fn push_effects_of(
    program: &Program<'_>,
    certificate: &Cert,
    late: &[AnyCall],
    number: usize,
    function: &Func<'_>,
    failing: &mut Vec<Fail>,
) -> Result<(), AllocError>
    requires program { IsWholeProgram (plain_program program.now) }
    requires there { slice_get (plain_program program.now).functions number ≡ Some (plain_function function.now) }
    ensures { OnOk result (failures_of failing.new.items ≡ failures_of failing.old.items ++ failing_at_each 13 (place_if (has_hidden_effect (claims_of certificate.now).funcs number (plain_function function.now)) (plain_function function.now).span ++ late_names (plain_program program.now) late.now number)) }
{
    let sum = capped_sum_of(program, certificate, number);
    let hidden = hides_effect(certificate.funcs.as_slice(), number, &sum);
    push_if(hidden, 13, function.span, failing)?;
    push_late(program, late, number, failing)
}

/// Whether a sum has an effect that isn't claimed.
fn hides_effect(claims: &[FuncClaim], number: usize, sum: &FuncSum) -> bool
    ensures { result ≡ hides_effect (map func_of claims.now) number sum.now }
{
    let claimed = numbers_claimed(claims, number);
    sum.alloc && !claimed.alloc
}

/// Puts down the calls after the mark, in `main` alone.
fn push_late(
    program: &Program<'_>,
    late: &[AnyCall],
    number: usize,
    failing: &mut Vec<Fail>,
) -> Result<(), AllocError>
    ensures { OnOk result (failures_of failing.new.items ≡ failures_of failing.old.items ++ failing_at_each 13 (late_names (plain_program program.now) late.now number)) }
{
    if number == program.main as usize {
        push_names(late, failing)?;
    }
    Ok(())
}

/// Puts down the names of calls.
fn push_names(calls: &[AnyCall], failing: &mut Vec<Fail>) -> Result<(), AllocError>
    ensures { OnOk result (failures_of failing.new.items ≡ failures_of failing.old.items ++ failing_at_each 13 (map (λ c. c.name) calls.now)) }
{
    let mut calls = calls;
    while let [call, others @ ..] = calls {
        push_if(true, 13, call.name, failing)?;
        calls = others;
    }
    Ok(())
}
