//! The conditions of one function.

ghost use Rattle.std.specs.Prelude.{◌≡◌, ◌++◌, OnOk, IfOk, map, slice_get};
ghost use Rattle.p10_core.specs.Views.{plain_program};
ghost use Rattle.p10_core.specs.WholePrograms.{IsWholeProgram};
ghost use Rattle.p10_cert.specs.Claims.{claims_of};
ghost use Rattle.p10_pass.specs.Leaving.{weakness_by};
ghost use Rattle.p10_pass.specs.Findings.{findings_of, findings_in};
ghost use Rattle.p10_check.specs.Passes.{left_by};
ghost use Rattle.p10_check.specs.Conditions.{function_failures_at};
ghost use Rattle.p10_check.specs.Fails.{failures_of};
ghost use Rattle.p10_check.specs.private.Ranked.{rank_failures, found_failures};

use crate::evidence::Evidence;
use crate::failing::push_all;
use crate::places::function_at;
use crate::ranked::{Judged, push_unranked, stood_for};
use crate::sums::push_short;
use p10_absx::Env;
use p10_cert::Cert;
use p10_core::Program;
use p10_pass::{Fail, Passed, Weak, pass};
use std::alloc::{AllocError, Global};

/// All failing K3 and K5 to K12 of the function with a number, by number, then in text order; none where there is no such function.
///
/// # Errors
///
/// Out of memory.
pub fn check_one<E: Evidence>(
    alloc: Global,
    program: &Program<'_>,
    certificate: &Cert,
    number: u32,
    evidence: &E,
) -> Result<Vec<Fail>, AllocError>
    requires program { IsWholeProgram (plain_program program.now) }
    ensures { IfOk result (λ fails. failures_of fails.items ≡ function_failures_at (E.standing evidence.now (plain_program program.now)) (plain_program program.now) (claims_of certificate.now) number (slice_get (plain_program program.now).functions number)) }
{
    let judged = Judged {
        program,
        certificate,
        number,
    };
    match function_at(program, number as usize) {
        Some(function) => {
            let mut failing = Vec::new(alloc);
            push_passed(alloc, &judged, evidence, &mut failing)?;
            push_short(
                program,
                certificate,
                number as usize,
                function,
                &mut failing,
            )?;
            Ok(failing)
        }
        None => Ok(Vec::new(alloc)),
    }
}

/// Puts down the failing K3 and K5 to K10 of a function, as the pass over it finds them.
fn push_passed<E: Evidence>(
    alloc: Global,
    judged: &Judged<'_, '_>,
    evidence: &E,
    failing: &mut Vec<Fail>,
) -> Result<(), AllocError>
    ensures { OnOk result (failures_of failing.new.items ≡ failures_of failing.old.items ++ found_failures (E.standing evidence.now (plain_program judged.now.program.now)) (claims_of judged.now.certificate.now) judged.now.number (findings_of (left_by (plain_program judged.now.program.now) (claims_of judged.now.certificate.now) judged.now.number))) }
{
    let entry = Env::entry(alloc, judged.program, judged.certificate, judged.number)?;
    let passed = pass(
        alloc,
        judged.program,
        judged.certificate,
        judged.number,
        entry,
    )?;
    push_found(alloc, judged, evidence, &passed, failing)?;
    Ok(())
}

/// The same by what the pass over the function finds.
fn push_found<E: Evidence>(
    alloc: Global,
    judged: &Judged<'_, '_>,
    evidence: &E,
    passed: &Passed,
    failing: &mut Vec<Fail>,
) -> Result<(), AllocError>
    ensures { OnOk result (failures_of failing.new.items ≡ failures_of failing.old.items ++ found_failures (E.standing evidence.now (plain_program judged.now.program.now)) (claims_of judged.now.certificate.now) judged.now.number (findings_in passed.now)) }
{
    push_all(passed.fails.as_slice(), failing)?;
    let weak = passed.weak.as_slice();
    let stood = stood_for(alloc, judged, evidence, weak)?;
    push_ranks(stood.as_slice(), weak, failing)?;
    Ok(())
}

/// Puts down the failing K8 to K10 of loops, of which it is given for which evidence stands.
fn push_ranks(stood: &[bool], weak: &[Weak], failing: &mut Vec<Fail>) -> Result<(), AllocError>
    ensures { OnOk result (failures_of failing.new.items ≡ failures_of failing.old.items ++ rank_failures stood.now (map weakness_by weak.now)) }
{
    push_unranked(8, stood, weak, failing)?;
    push_unranked(9, stood, weak, failing)?;
    push_unranked(10, stood, weak, failing)?;
    Ok(())
}
